// A sink's route becomes a branch of the tree.
ghost use Rattle.multinet.specs.Adding.{Addable, BranchAdded, BranchPlaceable, BranchPlaced};

use crate::{Grown, Stop, Stopped};
use branches::BranchLengths;
use ends::Tap;
use room::Room;

// "All but the last cell become joinable; .. the branch's clearances become blocked." The branch, of `len` cells, comes to
// stand at `at` of the branch buffer. The occupied marks are made at the end, from the whole buffer (`finish_tree`).
fn add_branch(
    room: Room,
    at: usize,
    used: usize,
    len: usize,
    tap: Tap,
    path: &[u32],
    branches: &mut [u32],
    joinable: &mut [u8],
    blocked: &mut [u8],
)
    requires { Addable room at used len tap path.now branches.old joinable.old blocked.old }
    ensures { BranchAdded room at used tap path.now branches.old joinable.old blocked.old branches.new joinable.new blocked.new }
{
    branches::insert_branch(branches, at, used, path, tap);
    let last = at + (len - 1);
    branches::mark_cells(joinable, &branches[at..last]);
    routing_resources::branch_stair_clearances(room, &branches[at..last + 1], blocked);
}

// Puts a sink's branch into what is left of the branch buffer; number 15 is due where it does not fit, and then nothing is changed.
pub fn place_branch(
    room: Room,
    sink: usize,
    lengths: BranchLengths,
    tap: Tap,
    path: &[u32],
    branches: &mut [u32],
    joinable: &mut [u8],
    blocked: &mut [u8],
) -> Result<Grown, Stopped>
    requires { BranchPlaceable room sink lengths tap path.now joinable.old blocked.old }
    ensures { BranchPlaced room sink lengths tap path.now branches.old joinable.old blocked.old result branches.new joinable.new blocked.new }
{
    let used = branches::joined_length(lengths, lengths.count);
    let len = branches::branch_length(path.len(), tap);
    if branches.len() < used + len {
        return Err(Stopped {
            stop: Stop::BufferFull(sink + 1),
            sink,
        });
    }
    let at = branches::joined_length(lengths, sink);
    add_branch(room, at, used, len, tap, path, branches, joinable, blocked);
    Ok(Grown { sink, length: len })
}
