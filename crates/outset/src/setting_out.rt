// A tree set out: the room's blocks, the net's ends and what is blocked, or number 7, 8 or 9.
ghost use Rattle.std.specs.Prelude.{◌≡◌};
ghost use Rattle.outset.specs.SetOut.{told_at_overlap, OutsetAsked, OutsetTold};

use crate::{NotSetOut, Refusal, block_outset};
use blocks::Overlap;
use ends::{Ends, Unrealized};
use job_sheet::Job;

// What is told at number 7: the repeat, and what the ends come to.
fn told_at_overlap(overlap: Overlap, realized: Result<Ends, Unrealized>) -> NotSetOut
    ensures { result ≡ told_at_overlap overlap realized }
{
    let refusal = Refusal::from(overlap);
    match realized {
        Ok(ends) => NotSetOut {
            refusal,
            fault: None,
            ends,
        },
        Err(unrealized) => NotSetOut {
            refusal,
            fault: Some(unrealized.fault),
            ends: unrealized.ends,
        },
    }
}

// Sets out the tree of an accepted sheet, over memory of exactly V cells, whatever it holds: 7 before 8 and 9, and the ends
// are told with each of them.
pub fn set_out(
    sheet: &[u8],
    job: Job,
    kinds: &mut [u8],
    nodes: &mut [u32],
    blocked: &mut [u8],
) -> Result<Ends, NotSetOut>
    requires { OutsetAsked sheet.now job kinds.old nodes.old blocked.old }
    ensures { OutsetTold sheet.now result kinds.new nodes.new blocked.new }
{
    lent::clear(kinds);
    lent::clear(nodes);
    lent::clear(blocked);
    let placement = blocks::place_blocks(sheet, job.blocks, job.room, kinds, nodes);
    let realized = ends::realize_ends(job.room, job.source, job.sinks);
    if let Err(overlap) = placement {
        return Err(told_at_overlap(overlap, realized));
    }
    let ends = realized?;
    block_outset(sheet, job, ends.source, ends.taps, kinds, nodes, blocked);
    Ok(ends)
}
