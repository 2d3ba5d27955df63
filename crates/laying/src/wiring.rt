// Supports and wire of each occupied cell, in number order.
ghost use Rattle.std.specs.Prelude.{◌≡◌, ◌<◌, length};
ghost use Rattle.basics.specs.Folds.{along};
ghost use Rattle.room.specs.Room.{volume};
ghost use Rattle.ends.specs.Ends.{taps_in};
ghost use Rattle.repeaters.specs.Links.{linked_cells};
ghost use Rattle.laying.specs.Laying.{laid_room, laid_cell, marked_cells};
ghost use Rattle.laying.specs.Layable.{RoomHeld, TapsHeld, MarksHeld};

use crate::bearing::support_kind;
use crate::placing::lay_cell;
use ends::Taps;
use room::Room;
use routing_resources::MARKED;

// One occupied cell, with the support that it rests on.
fn lay_occupied(
    room: Room,
    taps: Taps,
    repeaters: &[u8],
    links: &[u32],
    cell: usize,
    kinds: &mut [u8],
    facings: &mut [u8],
)
    requires room_held { RoomHeld room kinds.old facings.old }
    requires taps_held { TapsHeld taps }
    requires repeaters_len { length repeaters.now ≡ volume room }
    requires links_len { length links.now ≡ volume room }
    requires cell_bound { cell < volume room }
    ensures { laid_room kinds.new facings.new ≡ laid_cell room (linked_cells room links.now) (taps_in taps) repeaters.now cell (laid_room kinds.old facings.old) }
{
    let support = support_kind(room, taps, repeaters, links, cell);
    lay_cell(
        room,
        support,
        repeaters[cell] == MARKED,
        cell,
        kinds,
        facings,
    );
}

// Each occupied cell in turn: it sees the room as the cells before have left it.
pub fn lay_cells(
    room: Room,
    taps: Taps,
    occupied: &[u8],
    repeaters: &[u8],
    links: &[u32],
    kinds: &mut [u8],
    facings: &mut [u8],
)
    requires room_held { RoomHeld room kinds.old facings.old }
    requires taps_held { TapsHeld taps }
    requires marks_held { MarksHeld room occupied.now repeaters.now links.now }
    ensures { laid_room kinds.new facings.new ≡ along (laid_cell room (linked_cells room links.now) (taps_in taps) repeaters.now) (marked_cells room occupied.now) (laid_room kinds.old facings.old) }
{
    for (cell, mark) in occupied.iter().enumerate() {
        if *mark == MARKED {
            lay_occupied(room, taps, repeaters, links, cell, kinds, facings);
        }
    }
}
