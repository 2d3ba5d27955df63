// The input is judged before anything is touched: 2, 3, 6, 5, 4 in this order.
ghost use Rattle.std.specs.Prelude.{◌≡◌};
ghost use Rattle.basics.specs.Lists.{every};
ghost use Rattle.room.specs.Room.{Good};
ghost use Rattle.room.specs.Units.{kind_known};
ghost use Rattle.routing.specs.Answers.{input, buffers_good, ends_inside, judged};

use crate::{Lengths, Refusal};
use room::{Room, RouterConfig};

// Whether every kind is known. All are looked at, even behind a strange one: the loop then takes many at a time.
pub fn all_known(kinds: &[u8]) -> bool
    ensures { result ≡ every kind_known kinds.now }
{
    let mut known = true;
    for kind in kinds {
        known &= room::kind_known(*kind);
    }
    known
}

// Whether the kinds are exactly V, each lent buffer has V or more, and the queue a place.
fn buffers_good(room: Room, kinds: &[u8], lengths: Lengths) -> bool
    requires { Good room }
    ensures { result ≡ buffers_good room kinds.now lengths }
{
    let v = room.volume();
    kinds.len() == v
        && v <= lengths.path
        && v <= lengths.known
        && v <= lengths.previous
        && v <= lengths.classes
        && 1 <= lengths.queue / 2
}

// Whether both ends are cells of the room.
fn ends_inside(room: Room, start: usize, goal: usize) -> bool
    requires { Good room }
    ensures { result ≡ ends_inside room start goal }
{
    let v = room.volume();
    start < v && goal < v
}

// Whether the input can be searched, or the first number that refuses it.
pub fn judge(
    room: Room,
    config: RouterConfig,
    kinds: &[u8],
    start: usize,
    goal: usize,
    lengths: Lengths,
) -> Result<(), Refusal>
    ensures { result ≡ judged (input room config kinds.now start goal lengths) }
{
    if !room.good() {
        return Err(Refusal::Sides);
    }
    if !config.good(room) {
        return Err(Refusal::Config);
    }
    if !buffers_good(room, kinds, lengths) {
        return Err(Refusal::Buffer);
    }
    if !all_known(kinds) {
        return Err(Refusal::Code);
    }
    if !ends_inside(room, start, goal) {
        return Err(Refusal::Position);
    }
    Ok(())
}
