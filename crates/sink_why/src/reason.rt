// What is told of the sink whose turn stopped the growth, over memory of exactly V cells.
ghost use Rattle.lent.specs.Lent.{Cleared};
ghost use Rattle.net_tree.specs.Held.{SameBuffers};
ghost use Rattle.sink_why.specs.Telling.{BlockedAsked, BlockedTold, ReasonAsked, ReasonTold};

use crate::Stopping;
use ground::Ground;
use job_sheet::Job;
use net_tree::Memory;

// The outputs are cleared, to their very end.
pub fn clear_outputs(reached: &mut [u8], walls: &mut [u8], causes: &mut [u8])
    ensures { Cleared reached.old reached.new × Cleared walls.old walls.new × Cleared causes.old causes.new }
{
    lent::clear(reached);
    lent::clear(walls);
    lent::clear(causes);
}

// Why each cell is blocked, zeros behind that. The growth has used up the nodes of the room's blocks: they are set out again.
fn tell_blocked(
    sheet: &[u8],
    job: Job,
    stopping: Stopping,
    branches: &[u32],
    memory: &mut Memory<'_>,
    causes: &mut [u8],
)
    requires { BlockedAsked sheet.now job stopping.source stopping.taps stopping.lengths branches.now memory.old.kinds.now memory.old.known.now memory.old.blocked.now memory.old.joinable.now causes.old }
    ensures same_buffers { SameBuffers memory.old memory.new }
    ensures blocked_told { BlockedTold sheet.now stopping.source stopping.taps stopping.lengths branches.now causes.old causes.new }
{
    // a tree that was grown was set out without a refusal
    let _ = outset::set_out(sheet, job, memory.kinds, memory.known, memory.blocked);
    lent::clear(causes);
    let cells = job.room.volume();
    let kinds = &mut *memory.kinds;
    let nodes = &mut *memory.known;
    causes::tell_causes(
        sheet,
        job,
        stopping.source,
        stopping.taps,
        kinds,
        nodes,
        stopping.lengths,
        branches,
        memory.joinable,
        &mut causes[..cells],
    );
}

// What may be said of the sink. "The three are written for shut in, else zero."
pub fn tell_reason(
    ground: Ground,
    sheet: &[u8],
    job: Job,
    stopping: Stopping,
    approach: usize,
    branches: &[u32],
    memory: &mut Memory<'_>,
    reached: &mut [u8],
    walls: &mut [u8],
    causes: &mut [u8],
) -> u32
    requires { ReasonAsked ground sheet.now job stopping approach branches.now memory.old.kinds.now memory.old.blocked.now memory.old.classes.now memory.old.joinable.now memory.old.known.now memory.old.path.now reached.old walls.old causes.old }
    ensures same_buffers { SameBuffers memory.old memory.new }
    ensures reason_told { ReasonTold ground sheet.now stopping approach branches.now memory.old.kinds.now memory.old.blocked.now memory.old.joinable.now reached.old walls.old causes.old result reached.new walls.new causes.new }
{
    if !stopping.unreached {
        clear_outputs(reached, walls, causes);
        return why_tree::CUT_SHORT;
    }
    let kinds = &mut *memory.kinds;
    let blocked = &mut *memory.blocked;
    let joinable = &mut *memory.joinable;
    let verdict = why_tree::tell_sink(
        ground,
        kinds,
        blocked,
        joinable,
        approach,
        memory.classes,
        memory.path,
        reached,
        walls,
    );
    if verdict != why_tree::SHUT_IN {
        clear_outputs(reached, walls, causes);
        return verdict;
    }
    tell_blocked(sheet, job, stopping, branches, memory, causes);
    verdict
}
