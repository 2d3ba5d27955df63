// Repeaters "sink by sink on the path from the source", in sheet order: the runs of all sinks, at one limit, and then the
// tails, each at its own.
ghost use Rattle.std.specs.Prelude.{◌≡◌, ◌<◌, length};
ghost use Rattle.ends.specs.Ends.{taps_in, TapsInside};
ghost use Rattle.room.specs.Room.{volume};
ghost use Rattle.repeaters.specs.Repeaters.{run_of, tail_of};
ghost use Rattle.repeaters.specs.Links.{linked_cells};
ghost use Rattle.repeaters.specs.Roots.{Traced};
ghost use Rattle.basics.specs.Folds.{along};

use crate::{Path, Tree};
use ends::{Tap, Taps};

// The marks and the line stay two parameters. No plainer: behind a struct, each function would have to promise too that they
// are still the lent slices.
impl Tree<'_> {
    // Writes the path from the source to a cell to the front of the line, and gives its length.
    fn root_path(&self, cell: usize, line: &mut [u32]) -> usize
        requires cell_bound { cell < volume self.now.room }
        requires line_len { length line.old ≡ volume self.now.room }
        ensures { Traced self.now.parents.now cell line.new result }
    {
        trace::path_to(self.parents, cell, line)
    }

    // The run to one sink.
    fn plan_sink(&self, tap: Tap, repeaters: &mut [u8], line: &mut [u32], limit: usize)
        requires terminal_bound { tap.terminal < volume self.now.room }
        requires repeaters_len { length repeaters.old ≡ volume self.now.room }
        requires line_len { length line.old ≡ volume self.now.room }
        ensures { repeaters.new ≡ run_of self.now.room (linked_cells self.now.room self.now.links.now) self.now.parents.now self.now.forbidden.now limit tap repeaters.old }
    {
        let count = self.root_path(tap.terminal, line);
        let path = Path {
            room: self.room,
            links: self.links,
            forbidden: self.forbidden,
            cells: &line[..count],
        };
        path.plan_path(repeaters, limit);
    }

    // The runs to all sinks.
    pub fn plan_repeaters(&self, taps: Taps, repeaters: &mut [u8], line: &mut [u32], limit: usize)
        requires taps_inside { TapsInside self.now.room taps }
        requires repeaters_len { length repeaters.old ≡ volume self.now.room }
        requires line_len { length line.old ≡ volume self.now.room }
        ensures { repeaters.new ≡ along (run_of self.now.room (linked_cells self.now.room self.now.links.now) self.now.parents.now self.now.forbidden.now limit) (taps_in taps) repeaters.old }
    {
        for tap in &taps.taps[..taps.count] {
            self.plan_sink(*tap, repeaters, line, limit);
        }
    }

    // The tail of one sink, if it is a Wire sink.
    fn reinforce_sink(&self, tap: Tap, repeaters: &mut [u8], line: &mut [u32])
        requires terminal_bound { tap.terminal < volume self.now.room }
        requires repeaters_len { length repeaters.old ≡ volume self.now.room }
        requires line_len { length line.old ≡ volume self.now.room }
        ensures { repeaters.new ≡ tail_of self.now.room (linked_cells self.now.room self.now.links.now) self.now.parents.now self.now.forbidden.now tap repeaters.old }
    {
        if tap.wire {
            let count = self.root_path(tap.terminal, line);
            let path = Path {
                room: self.room,
                links: self.links,
                forbidden: self.forbidden,
                cells: &line[..count],
            };
            path.reinforce_path(repeaters, tap.tail);
        }
    }

    // The tails of all Wire sinks.
    pub fn reinforce_wire_sink_tails(&self, taps: Taps, repeaters: &mut [u8], line: &mut [u32])
        requires taps_inside { TapsInside self.now.room taps }
        requires repeaters_len { length repeaters.old ≡ volume self.now.room }
        requires line_len { length line.old ≡ volume self.now.room }
        ensures { repeaters.new ≡ along (tail_of self.now.room (linked_cells self.now.room self.now.links.now) self.now.parents.now self.now.forbidden.now) (taps_in taps) repeaters.old }
    {
        for tap in &taps.taps[..taps.count] {
            self.reinforce_sink(*tap, repeaters, line);
        }
    }
}
