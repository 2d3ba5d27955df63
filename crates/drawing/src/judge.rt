// The input is judged before anything is touched: 2, 6, 5, 4 in this order.
ghost use Rattle.std.specs.Prelude.{◌≡◌};
ghost use Rattle.basics.specs.Lists.{every};
ghost use Rattle.room.specs.Room.{Good};
ghost use Rattle.drawing.specs.Answers.{cell_known, buffers_good, codes_good, judged};

use room::{Room, as_index};
use routing::Refusal;
use routing::judge::all_known;

// Whether the kinds are exactly V, and the list is long enough.
fn buffers_good(room: Room, enough: bool, kinds: &[u8]) -> bool
    requires { Good room }
    ensures { result ≡ buffers_good room enough kinds.now }
{
    kinds.len() == room.volume() && enough
}

// Whether every kind is known, and the support's too.
fn codes_good(known: bool, kinds: &[u8]) -> bool
    ensures { result ≡ codes_good known kinds.now }
{
    all_known(kinds) && known
}

// Whether every cell of the path is one of the room.
fn path_inside(room: Room, path: &[u32]) -> bool
    requires { Good room }
    ensures { result ≡ every (cell_known room) path.now }
{
    let cells = room.volume();
    path.iter().all(|cell| as_index(*cell) < cells)
}

// Whether the input can be drawn, or the first number that refuses it. `enough` says that the list is long enough, `known`
// that the support's kind is known.
pub fn judge(
    room: Room,
    enough: bool,
    known: bool,
    kinds: &[u8],
    path: &[u32],
) -> Result<(), Refusal>
    ensures { result ≡ judged room enough known kinds.now path.now }
{
    if !room.good() {
        return Err(Refusal::Sides);
    }
    if !buffers_good(room, enough, kinds) {
        return Err(Refusal::Buffer);
    }
    if !codes_good(known, kinds) {
        return Err(Refusal::Code);
    }
    if !path_inside(room, path) {
        return Err(Refusal::Position);
    }
    Ok(())
}
