// Supports and wire along a path.
ghost use Rattle.std.specs.Prelude.{◌≡◌, ◌<◌, length};
ghost use Rattle.room.specs.Room.{Good, volume};
ghost use Rattle.drawing.specs.Drawing.{laid, drawn_cell, materialized};
ghost use Rattle.drawing.specs.Answers.{RoutePromise};
ghost use Rattle.drawing.specs.Listing.{Drawable};

use crate::judge::judge;
use room::{AIR, REDSTONE_WIRE, Room, as_index};
use routing::Refusal;

// Lays a block of this kind where the cell is Air.
fn lay(kind: u8, cell: usize, kinds: &mut [u8])
    requires { cell < length kinds.old }
    ensures { kinds.new ≡ laid kind cell kinds.old }
{
    if kinds[cell] == AIR {
        kinds[cell] = kind;
    }
}

// One cell of the path: its support, then wire.
fn draw_cell(room: Room, support: u8, cell: usize, kinds: &mut [u8])
    requires good { Good room }
    requires kinds_len { length kinds.old ≡ volume room }
    requires cell_bound { cell < volume room }
    ensures { kinds.new ≡ drawn_cell room support cell kinds.old }
{
    if let Some(below) = room.beneath(cell) {
        lay(support, below, kinds);
    }
    lay(REDSTONE_WIRE, cell, kinds);
}

// Each cell of the path in turn.
fn draw_path(room: Room, support: u8, kinds: &mut [u8], path: &[u32])
    requires { Drawable room kinds.old path.now }
    ensures { kinds.new ≡ materialized room support path.now kinds.old }
{
    for cell in path {
        draw_cell(room, support, as_index(*cell), kinds);
    }
}

// Draws a route: cell by cell along the path, a support where the cell beneath is Air, then wire where the cell is Air. See the
// promise in specs/Answers.antt.
pub fn materialize_route(
    room: Room,
    support: u8,
    kinds: &mut [u8],
    path: &[u32],
) -> Result<(), Refusal>
    ensures { RoutePromise room support kinds.old path.now result kinds.new }
{
    let known = room::kind_known(support);
    judge(room, true, known, kinds, path)?;
    draw_path(room, support, kinds, path);
    Ok(())
}
