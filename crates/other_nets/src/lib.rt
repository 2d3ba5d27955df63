// What a net of a list keeps off beside its own sheet's lists, as marks: the conductors and clearances of the nets before
// it, and the protected cells of all other jobs.
#![tactic(auto)]

mod keeping; // keeping.rt: a routed net kept for the nets behind it and for the answer
mod protected; // protected.rt: the protected cells of the other jobs, and what is blocked for a net of a list

ghost use Rattle.std.specs.Prelude.{◌≡◌, ◌<◌, length};
ghost use Rattle.basics.specs.Lists.{any};
ghost use Rattle.room.specs.Room.{Good, volume};
ghost use Rattle.routing_resources.specs.Marks.{marked_by, AllCells};
ghost use Rattle.branches.specs.Branches.{branches_of};
ghost use Rattle.other_nets.specs.Others.{near_cell, branch_clear, net_clear};
ghost use Rattle.other_nets.specs.OtherLaws.{NetReady};

use branches::BranchLengths;
pub use keeping::keep_net;
pub use protected::block_others;
use room::{Room, as_index};

// Marks a cell and its keepout. `outset` does the same for a sheet's conductors: its clause spells out what `near_cell` names
// here, and one function for both would be no plainer, since each caller's law cites its own.
pub fn mark_near(room: Room, marks: &mut [u8], cell: usize)
    requires good { Good room }
    requires cell_bound { cell < volume room }
    requires marks_len { length marks.old ≡ volume room }
    ensures { marks.new ≡ marked_by (λ v. near_cell room v cell) marks.old }
{
    routing_resources::mark(marks, cell);
    routing_resources::electrical_keepout_for_wire(room, marks, cell);
}

// Marks the cells of a branch and their keepouts.
fn mark_conductors(room: Room, branch: &[u32], marks: &mut [u8])
    requires good { Good room }
    requires all_cells { AllCells room branch.now }
    requires marks_len { length marks.old ≡ volume room }
    ensures { marks.new ≡ marked_by (λ v. any (near_cell room v) branch.now) marks.old }
{
    for cell in branch {
        mark_near(room, marks, as_index(*cell));
    }
}

// Marks what a branch keeps others off.
fn mark_branch(room: Room, branch: &[u32], marks: &mut [u8])
    requires good { Good room }
    requires all_cells { AllCells room branch.now }
    requires marks_len { length marks.old ≡ volume room }
    ensures { marks.new ≡ marked_by (λ v. branch_clear room v branch.now) marks.old }
{
    mark_conductors(room, branch, marks);
    routing_resources::branch_stair_clearances(room, branch, marks);
}

// Marks what a routed net keeps the nets behind it off: its branches stand one behind the other.
pub fn mark_net(
    room: Room,
    source: usize,
    lengths: BranchLengths,
    branches: &[u32],
    marks: &mut [u8],
)
    requires { NetReady room source lengths branches.now marks.old }
    ensures { marks.new ≡ marked_by (net_clear room source (branches_of lengths branches.now)) marks.old }
{
    mark_near(room, marks, source);
    let mut from: usize = 0;
    for length in &lengths.each[..lengths.count] {
        let to = from + *length;
        mark_branch(room, &branches[from..to], marks);
        from = to;
    }
}
