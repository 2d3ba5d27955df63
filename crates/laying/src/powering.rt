// The repeaters that power the blocks of BlockPower sinks.
ghost use Rattle.std.specs.Prelude.{◌≡◌, ◌<◌, length};
ghost use Rattle.basics.specs.Folds.{along};
ghost use Rattle.room.specs.Room.{volume};
ghost use Rattle.ends.specs.Ends.{taps_in, TapsInside};
ghost use Rattle.laying.specs.Laying.{laid_room, laid_sink};
ghost use Rattle.laying.specs.Layable.{RoomHeld};

use crate::placing::place;
use ends::{Tap, Taps};
use repeaters::facing;
use room::{REPEATER, Room};

// The terminal of a BlockPower sink becomes a Repeater, whatever stands there. It faces from the approach to the terminal,
// which is opposite to the sink's facing.
fn lay_sink(room: Room, tap: Tap, kinds: &mut [u8], facings: &mut [u8])
    requires room_held { RoomHeld room kinds.old facings.old }
    requires terminal_bound { tap.terminal < volume room }
    requires approach_bound { tap.approach < volume room }
    ensures { laid_room kinds.new facings.new ≡ laid_sink room tap (laid_room kinds.old facings.old) }
{
    if !tap.wire {
        let towards = facing(room, tap.approach, tap.terminal);
        place(REPEATER, towards, tap.terminal, kinds, facings);
    }
}

// Each sink in sheet order: of two at one terminal the later stays.
pub fn lay_sinks(room: Room, taps: Taps, kinds: &mut [u8], facings: &mut [u8])
    requires room_held { RoomHeld room kinds.old facings.old }
    requires taps_inside { TapsInside room taps }
    ensures { laid_room kinds.new facings.new ≡ along (laid_sink room) (taps_in taps) (laid_room kinds.old facings.old) }
{
    for tap in &taps.taps[..taps.count] {
        lay_sink(room, *tap, kinds, facings);
    }
}
