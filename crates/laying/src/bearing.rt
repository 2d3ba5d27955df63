// Which kind of support a cell of the net rests on.
ghost use Rattle.std.specs.Prelude.{◌≡◌, not, ◌&&◌, ℕ, ◌<◌, eqb, length};
ghost use Rattle.basics.specs.Lists.{any};
ghost use Rattle.room.specs.Room.{Good, volume, pos_of, holds_at};
ghost use Rattle.ends.specs.Ends.{taps_in};
ghost use Rattle.repeaters.specs.Links.{ordered_moves, cells_by, linked_cells};
ghost use Rattle.laying.specs.Laying.{powered_at, support_kind};
ghost use Rattle.laying.specs.Bearing.{off_level, powers};
ghost use Rattle.laying.specs.Layable.{TapsHeld};

use ends::{Tap, Taps};
use repeaters::linked_place;
use room::{Room, SOLID, TRANSPARENT};
use routing_resources::MARKED;

// Whether the cell at a place, if there is one, lies higher or lower than this level.
fn off_level(room: Room, place: Option<usize>, level: usize) -> bool
    requires { Good room }
    ensures { result ≡ holds_at (off_level room level) place }
{
    place.is_some_and(|cell| room.pos(cell).y != level)
}

// Whether the cell is an end of a stair: one of its tree neighbours, which the mask has, lies higher or lower.
fn climbs(room: Room, mask: u32, cell: usize) -> bool
    requires good { Good room }
    requires cell_bound { cell < volume room }
    ensures { result ≡ any (off_level room (pos_of room cell).y) (cells_by room (pos_of room cell) mask ordered_moves) }
{
    let p = room.pos(cell);
    let mut rest = mask;
    for k in 0..12 {
        let place = linked_place(room, p, rest, k);
        if off_level(room, place, p.y) {
            return true;
        }
        rest /= 2;
    }
    false
}

// Whether the cell is the terminal of this sink, a BlockPower one.
fn powers(tap: Tap, cell: usize) -> bool
    ensures { result ≡ powers cell tap }
{
    !tap.wire && tap.terminal == cell
}

// Whether the cell is the terminal of a BlockPower sink.
fn powered_at(taps: Taps, cell: usize) -> bool
    requires { TapsHeld taps }
    ensures { result ≡ powered_at (taps_in taps) cell }
{
    for tap in &taps.taps[..taps.count] {
        if powers(*tap, cell) {
            return true;
        }
    }
    false
}

// The kind of the support beneath a cell.
pub fn support_kind(room: Room, taps: Taps, repeaters: &[u8], links: &[u32], cell: usize) -> u8
    requires good { Good room }
    requires taps_held { TapsHeld taps }
    requires repeaters_len { length repeaters.now ≡ volume room }
    requires links_len { length links.now ≡ volume room }
    requires cell_bound { cell < volume room }
    ensures { result ≡ support_kind room (linked_cells room links.now) (taps_in taps) repeaters.now cell }
{
    let planned = repeaters[cell] == MARKED;
    if planned || powered_at(taps, cell) || climbs(room, links[cell], cell) {
        SOLID
    } else {
        TRANSPARENT
    }
}
