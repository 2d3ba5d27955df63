// The planned repeaters, each facing from its parent on the path from the source.
ghost use Rattle.std.specs.Prelude.{◌≡◌, ◌<◌, length};
ghost use Rattle.basics.specs.Folds.{along};
ghost use Rattle.trace.specs.Traces.{PreviousInside};
ghost use Rattle.room.specs.Room.{Good, volume};
ghost use Rattle.laying.specs.Laying.{laid_room, direction_of, laid_repeater, marked_cells};
ghost use Rattle.laying.specs.Layable.{RoomHeld, ParentsHeld};

use crate::placing::place;
use repeaters::facing;
use room::{NO_FACING, REPEATER, Room, as_index};
use routing_resources::MARKED;

// The facing from a cell's parent to it, none where it has no parent.
fn direction(room: Room, parents: &[u32], cell: usize) -> u8
    requires good { Good room }
    requires parents_held { ParentsHeld room parents.now }
    requires cell_bound { cell < volume room }
    ensures { result ≡ direction_of room parents.now cell }
{
    let parent = as_index(parents[cell]);
    if parent == 0 {
        NO_FACING
    } else {
        facing(room, parent - 1, cell)
    }
}

// A repeater at a cell, whatever stands there.
fn lay_repeater(room: Room, parents: &[u32], cell: usize, kinds: &mut [u8], facings: &mut [u8])
    requires room_held { RoomHeld room kinds.old facings.old }
    requires parents_held { ParentsHeld room parents.now }
    requires cell_bound { cell < volume room }
    ensures { laid_room kinds.new facings.new ≡ laid_repeater room parents.now cell (laid_room kinds.old facings.old) }
{
    let towards = direction(room, parents, cell);
    place(REPEATER, towards, cell, kinds, facings);
}

// Each planned repeater, in number order.
pub fn lay_repeaters(
    room: Room,
    repeaters: &[u8],
    parents: &[u32],
    kinds: &mut [u8],
    facings: &mut [u8],
)
    requires room_held { RoomHeld room kinds.old facings.old }
    requires parents_held { ParentsHeld room parents.now }
    requires repeaters_len { length repeaters.now ≡ volume room }
    ensures { laid_room kinds.new facings.new ≡ along (laid_repeater room parents.now) (marked_cells room repeaters.now) (laid_room kinds.old facings.old) }
{
    for (cell, mark) in repeaters.iter().enumerate() {
        if *mark == MARKED {
            lay_repeater(room, parents, cell, kinds, facings);
        }
    }
}
