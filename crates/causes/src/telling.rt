// All reasons of each cell.
ghost use Rattle.branches.specs.Branches.{branches_of};
ghost use Rattle.causes.specs.Causes.{ForeignAsked, ForeignTold, CausesAsked, CausesTold};

use crate::reasons::{add_block_keepouts, add_keepouts, add_own, add_positions};
use branches::BranchLengths;
use ends::Taps;
use job_sheet::Job;

// What others and the room's blocks keep free: the first six bits.
fn tell_foreign(
    sheet: &[u8],
    job: Job,
    kinds: &[u8],
    nodes: &[u32],
    marks: &mut [u8],
    causes: &mut [u8],
)
    requires { ForeignAsked sheet.now job kinds.now nodes.now marks.old causes.old }
    ensures { ForeignTold sheet.now job kinds.now nodes.now causes.new }
{
    let room = job.room;
    lent::clear(causes);
    add_positions(sheet, job.conductors, room, 1, marks, causes);
    add_keepouts(sheet, job.conductors, room, marks, causes);
    add_positions(sheet, job.clearances, room, 4, marks, causes);
    add_positions(sheet, job.terminals, room, 8, marks, causes);
    add_positions(sheet, job.reserved, room, 16, marks, causes);
    add_block_keepouts(sheet, job.blocks, room, kinds, nodes, marks, causes);
}

// The causes of each cell, over memory of exactly V cells, whatever it holds: none of the first six on the net's own cells,
// which were taken out; then the clearances of its branches so far. `marks` is work memory.
pub fn tell_causes(
    sheet: &[u8],
    job: Job,
    source: usize,
    taps: Taps,
    kinds: &[u8],
    nodes: &[u32],
    lengths: BranchLengths,
    branches: &[u32],
    marks: &mut [u8],
    causes: &mut [u8],
)
    requires { CausesAsked sheet.now job source taps kinds.now nodes.now lengths branches.now marks.old causes.old }
    ensures { CausesTold sheet.now job source taps kinds.now nodes.now (branches_of lengths branches.now) causes.new }
{
    tell_foreign(sheet, job, kinds, nodes, marks, causes);
    outset::take_out_ends(job.room, source, taps, causes);
    add_own(job.room, branches, lengths, marks, causes);
}
