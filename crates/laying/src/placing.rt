// A block put into a cell of the room, or laid where the cell is Air; its kind and its facing.
ghost use Rattle.std.specs.Prelude.{◌≡◌, ◌<◌, length};
ghost use Rattle.room.specs.Room.{volume, beneath};
ghost use Rattle.laying.specs.Laying.{laid_room, placed, laid_on, laid_at, cell_laid};
ghost use Rattle.laying.specs.Layable.{RoomHeld};

use room::{AIR, NO_FACING, REDSTONE_WIRE, Room};

// A block stands at the cell, whatever stood there.
pub fn place(kind: u8, facing: u8, cell: usize, kinds: &mut [u8], facings: &mut [u8])
    requires cell_in_bounds { cell < length kinds.old }
    requires cell_in_bounds_2 { cell < length facings.old }
    ensures { laid_room kinds.new facings.new ≡ placed kind facing cell (laid_room kinds.old facings.old) }
{
    kinds[cell] = kind;
    facings[cell] = facing;
}

// Lays a block of this kind where the cell is Air.
fn lay(kind: u8, cell: usize, kinds: &mut [u8], facings: &mut [u8])
    requires cell_in_bounds { cell < length kinds.old }
    requires cell_in_bounds_2 { cell < length facings.old }
    ensures { laid_room kinds.new facings.new ≡ laid_on kind cell (laid_room kinds.old facings.old) }
{
    if kinds[cell] == AIR {
        place(kind, NO_FACING, cell, kinds, facings);
    }
}

// Lays the support of a cell, if the cell beneath is in the room.
fn bear(room: Room, support: u8, cell: usize, kinds: &mut [u8], facings: &mut [u8])
    requires room_held { RoomHeld room kinds.old facings.old }
    requires cell_bound { cell < volume room }
    ensures { laid_room kinds.new facings.new ≡ laid_at support (beneath room cell) (laid_room kinds.old facings.old) }
{
    if let Some(below) = room.beneath(cell) {
        lay(support, below, kinds, facings);
    }
}

// One occupied cell: its support, then wire unless a repeater is planned there.
pub fn lay_cell(
    room: Room,
    support: u8,
    planned: bool,
    cell: usize,
    kinds: &mut [u8],
    facings: &mut [u8],
)
    requires room_held { RoomHeld room kinds.old facings.old }
    requires cell_bound { cell < volume room }
    ensures { laid_room kinds.new facings.new ≡ cell_laid room support planned cell (laid_room kinds.old facings.old) }
{
    bear(room, support, cell, kinds, facings);
    if !planned {
        lay(REDSTONE_WIRE, cell, kinds, facings);
    }
}
