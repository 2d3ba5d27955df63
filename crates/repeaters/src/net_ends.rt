// The net's ends, where no repeater may stand.
ghost use Rattle.std.specs.Prelude.{◌≡◌, ◌<◌, length};
ghost use Rattle.routing_resources.specs.Marks.{marked_by};
ghost use Rattle.repeaters.specs.NetEnds.{tap_holds, is_net_end, EndsIn};

use ends::{Tap, Taps};

// Marks a sink's terminal and approach.
fn mark_tap(marks: &mut [u8], tap: Tap)
    requires { (tap.terminal < length marks.old) × (tap.approach < length marks.old) }
    ensures { marks.new ≡ marked_by (λ v. tap_holds v tap) marks.old }
{
    routing_resources::mark(marks, tap.terminal);
    routing_resources::mark(marks, tap.approach);
}

// Marks the net's terminals and approaches.
pub fn mark_net_ends(source: usize, taps: Taps, marks: &mut [u8])
    requires { EndsIn source taps marks.old }
    ensures { marks.new ≡ marked_by (is_net_end source taps) marks.old }
{
    routing_resources::mark(marks, source);
    for tap in &taps.taps[..taps.count] {
        mark_tap(marks, *tap);
    }
}
