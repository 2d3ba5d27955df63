// The two drawings told as numbers, for other languages.
ghost use Rattle.std.specs.Prelude.{◌≡◌, ◌≤◌, length};
ghost use Rattle.lent.specs.Lent.{output_after};
ghost use Rattle.routing.specs.Answers.{refusal_number};
ghost use Rattle.drawing.specs.Answers.{drawn_number, listed_number};
ghost use Rattle.drawing.specs.Told.{short_refusal, route_value_count, route_values, RouteTold, list_value_count, list_values, ListTold};
ghost use Rattle.drawing.specs.RouteToldLaws.{kind_handed_on};

use crate::{insert_repeaters, materialize_route};
use room::Room;
use routing::Refusal;

// How many values a drawn route comes to: its detail, which is 0.
const ROUTE_VALUES: usize = 1;

// How many a list of repeaters comes to: its detail, which is 0, and how many they are.
const LIST_VALUES: usize = 2;

// Names no kind.
const NO_KIND: u8 = 255;

// Fewer values are lent than an answer comes to: 6, unless 2 comes before it.
fn short_number(room: Room) -> u32
    ensures { result ≡ refusal_number (short_refusal room) }
{
    if room.good() {
        numbers::BUFFER_NUMBER
    } else {
        numbers::SIDES_NUMBER
    }
}

// The support's kind as a byte; what is too large for one names no kind.
fn kind_handed_on(support: u32) -> u8
    ensures { result ≡ kind_handed_on support }
{
    u8::try_from(support).unwrap_or(NO_KIND)
}

// Writes the value of a drawn route, zeros behind it, and returns its number. A refusal writes nothing.
fn tell_drawn(drawn: Result<(), Refusal>, values: &mut [u64]) -> u32
    requires { route_value_count ≤ length values.old }
    ensures value { result ≡ drawn_number drawn }
    ensures values_after { values.new ≡ output_after (drawn_number drawn) route_values values.old }
{
    match drawn {
        Ok(()) => {
            lent::clear(values);
            numbers::DONE_NUMBER
        }
        Err(why) => reply::refusal_number(why),
    }
}

// Writes the values of a list of repeaters, zeros behind them, and returns its number. A refusal writes nothing.
fn tell_listed(listed: Result<usize, Refusal>, values: &mut [u64]) -> u32
    requires { list_value_count ≤ length values.old }
    ensures value { result ≡ listed_number listed }
    ensures values_after { values.new ≡ output_after (listed_number listed) (list_values listed) values.old }
{
    match listed {
        Ok(count) => {
            lent::write_two(values, 0, count as u64);
            numbers::DONE_NUMBER
        }
        Err(why) => reply::refusal_number(why),
    }
}

// `materialize_route`, told as numbers. See the promise in specs/Told.antt.
pub fn materialize_route_told(
    room: Room,
    support: u32,
    kinds: &mut [u8],
    path: &[u32],
    values: &mut [u64],
) -> u32
    ensures { RouteTold room support kinds.old path.now values.old result kinds.new values.new }
{
    if values.len() < ROUTE_VALUES {
        return short_number(room);
    }
    let kind = kind_handed_on(support);
    let drawn = materialize_route(room, kind, kinds, path);
    tell_drawn(drawn, values)
}

// `insert_repeaters`, told as numbers. See the promise in specs/Told.antt.
pub fn insert_repeaters_told(
    room: Room,
    run: u32,
    kinds: &mut [u8],
    path: &[u32],
    cells: &mut [u32],
    facings: &mut [u8],
    values: &mut [u64],
) -> u32
    ensures { ListTold room run kinds.old path.now cells.old facings.old values.old result kinds.new cells.new facings.new values.new }
{
    if values.len() < LIST_VALUES {
        return short_number(room);
    }
    let listed = insert_repeaters(room, run as usize, kinds, path, cells, facings);
    tell_listed(listed, values)
}
