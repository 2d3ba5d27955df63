// A routed net kept for the nets behind it and for the answer.
ghost use Rattle.std.specs.Prelude.{◌≡◌, ◌++◌, ◌≤◌, length, drop};
ghost use Rattle.job_sheet.specs.Sheet.{max_sinks};
ghost use Rattle.branches.specs.Branches.{Short};
ghost use Rattle.other_nets.specs.Keeping.{Keepable, Kept};

use crate::mark_net;
use crate::protected::add_marks;
use branches::BranchLengths;
use room::Room;

// The sixteen lengths of a net's branches, to the front of what is left of a list's.
fn write_lengths(lengths: BranchLengths, out: &mut [u32])
    requires short { Short lengths }
    requires max_sinks_in_bounds { max_sinks ≤ length out.old }
    ensures { out.new ≡ lengths.each ++ drop (length lengths.each) out.old }
{
    for (sink, length) in lengths.each.iter().enumerate() {
        out[sink] = *length as u32;
    }
}

// Keeps a routed net: what it keeps the nets behind it off, its repeaters, and its branches' lengths.
pub fn keep_net(
    room: Room,
    source: usize,
    lengths: BranchLengths,
    branches: &[u32],
    planned: &[u8],
    before: &mut [u8],
    repeaters: &mut [u8],
    out: &mut [u32],
)
    requires { Keepable room source lengths branches.now planned.now before.old repeaters.old out.old }
    ensures { Kept room source lengths branches.now planned.now before.old repeaters.old out.old before.new repeaters.new out.new }
{
    mark_net(room, source, lengths, branches, before);
    add_marks(planned, repeaters);
    write_lengths(lengths, out);
}
