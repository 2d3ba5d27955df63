// The public question, over lent memory.
ghost use Rattle.std.specs.Prelude.{◌≡◌, true, not, ◌&&◌, []};
ghost use Rattle.lent.specs.Lent.{output_after};
ghost use Rattle.room.specs.Room.{Good};
ghost use Rattle.job_sheet.specs.Sheet.{is_good};
ghost use Rattle.net_tree.specs.Answers.{lent};
ghost use Rattle.net_tree.specs.Held.{SameBuffers, SameLengths, lent_with};
ghost use Rattle.sink_why.specs.SinkWhy.{asks_why, why_with, outputs_good, outputs, Promise};
ghost use Rattle.sink_why.specs.Telling.{memory_with, end_number, SinkReasoned, FrontAsked, StoppedTold, WhyAsked};

use crate::growth::tell_growth;
use crate::reason::clear_outputs;
use crate::{Told, Unrouted};
use ground::Mode;
use job_sheet::{Job, Reading};
use net_tree::{Memory, Refused, Tree};
use room::Room;

// Whether the outputs suffice; where they don't, number 6 is due.
fn outputs_enough(room: Room, reached: usize, walls: usize, causes: usize) -> bool
    requires { Good room }
    ensures { result ≡ outputs_good room reached walls causes }
{
    let cells = room.volume();
    if reached < cells {
        return false;
    }
    if walls < 12 * cells {
        return false;
    }
    cells <= causes
}

// Whether number 6 is due since an output is too short: an accepted sheet's reading is judged before it.
fn outputs_short(reading: Reading, reached: usize, walls: usize, causes: usize) -> bool
    requires { is_good reading.judgement ≡ true → Good reading.job.room }
    ensures { result ≡ (is_good reading.judgement && not (outputs_good reading.job.room reached walls causes)) }
{
    let judgement = reading.judgement;
    if !judgement.is_good() {
        return false;
    }
    let job = reading.job;
    !outputs_enough(job.room, reached, walls, causes)
}

// The number of a tree's end, 0 for a tree.
fn end_number(answer: Result<Tree, Refused>) -> u32
    ensures { result ≡ end_number answer }
{
    match answer {
        Ok(_) => numbers::DONE_NUMBER,
        Err(refused) => refused.number,
    }
}

// The tree, or its refusal with what is told of the sink.
fn why_with(answer: Result<Tree, Refused>, told: Option<Told>) -> Result<Tree, Unrouted>
    ensures { result ≡ why_with answer told }
{
    match answer {
        Ok(tree) => Ok(tree),
        Err(refused) => Err(Unrouted { refused, told }),
    }
}

// "for 13 and 14"
fn asks_why(number: u32) -> bool
    ensures { result ≡ asks_why number }
{
    if number == numbers::QUEUE_FULL_NUMBER {
        return true;
    }
    number == numbers::NO_GOAL_NUMBER
}

// Where nothing is told, a number that touches the outputs leaves them all zero.
fn settle(number: u32, reached: &mut [u8], walls: &mut [u8], causes: &mut [u8])
    ensures { (reached.new ≡ output_after number [] reached.old) × (walls.new ≡ output_after number [] walls.old) × (causes.new ≡ output_after number [] causes.old) }
{
    if lent::touches(number) {
        clear_outputs(reached, walls, causes);
    }
}

// The reason, the first V numbers of each buffer being lent on, the branch buffer and the queue whole.
fn tell_front(
    mode: Mode,
    sheet: &[u8],
    job: Job,
    branches: &mut [u32],
    memory: &mut Memory<'_>,
    reached: &mut [u8],
    walls: &mut [u8],
    causes: &mut [u8],
) -> Told
    requires { FrontAsked mode sheet.now job (memory_with job branches.old memory.old) reached.old walls.old causes.old }
    ensures same_buffers { SameBuffers memory.old memory.new }
    ensures same_lengths { SameLengths memory.old memory.new }
    ensures sink_reasoned { SinkReasoned mode sheet.now job memory.old.queue.now branches.old reached.old walls.old causes.old result reached.new walls.new causes.new }
{
    let cells = job.room.volume();
    tell_growth(
        mode,
        sheet,
        job,
        branches,
        &mut memory.kinds[..cells],
        &mut memory.blocked[..cells],
        &mut memory.classes[..cells],
        &mut memory.joinable[..cells],
        &mut memory.known[..cells],
        &mut memory.previous[..cells],
        &mut memory.path[..cells],
        &mut memory.best[..cells],
        memory.queue,
        reached,
        walls,
        causes,
    )
}

// The reason; the branch buffer and work memory are all zero again.
fn tell_stopped(
    mode: Mode,
    sheet: &[u8],
    job: Job,
    branches: &mut [u32],
    memory: &mut Memory<'_>,
    reached: &mut [u8],
    walls: &mut [u8],
    causes: &mut [u8],
) -> Told
    requires { FrontAsked mode sheet.now job (memory_with job branches.old memory.old) reached.old walls.old causes.old }
    ensures sink_reasoned { SinkReasoned mode sheet.now job memory.old.queue.now branches.old reached.old walls.old causes.old result reached.new walls.new causes.new }
    ensures same_buffers { SameBuffers memory.old memory.new }
    ensures stopped_told { StoppedTold (memory_with job branches.old memory.old) (memory_with job branches.new memory.new) }
{
    let told = tell_front(mode, sheet, job, branches, memory, reached, walls, causes);
    lent::clear(branches);
    memory.clear();
    told
}

// The tree, and where number 13 or 14 is due, what may be said of the sink. Outputs that are too short are refused before.
fn why_lent(
    mode: Mode,
    sheet: &[u8],
    job: Job,
    branches: &mut [u32],
    occupied: &mut [u8],
    repeaters: &mut [u8],
    memory: &mut Memory<'_>,
    reached: &mut [u8],
    walls: &mut [u8],
    causes: &mut [u8],
) -> Result<Tree, Unrouted>
    requires { WhyAsked sheet.now job reached.old walls.old causes.old }
    ensures same_buffers { SameBuffers memory.old memory.new }
    ensures promise { Promise mode sheet.now (lent_with branches.old occupied.old repeaters.old memory.old) (outputs reached.old walls.old causes.old) result (lent_with branches.new occupied.new repeaters.new memory.new) (outputs reached.new walls.new causes.new) }
{
    let answer = net_tree::route_net_tree(
        mode,
        sheet,
        branches,
        occupied,
        repeaters,
        memory.kinds,
        memory.blocked,
        memory.classes,
        memory.joinable,
        memory.known,
        memory.previous,
        memory.path,
        memory.best,
        memory.queue,
    );
    let number = end_number(answer);
    if asks_why(number) {
        let told = tell_stopped(mode, sheet, job, branches, memory, reached, walls, causes);
        return why_with(answer, Some(told));
    }
    settle(number, reached, walls, causes);
    why_with(answer, None)
}

// The tree of the one net that a job sheet describes, as `route_net_tree` has it; and for numbers 13 and 14 the sink whose turn
// it was and what may be said of it. Where it is shut in, `reached` marks the cells that wire gets to from its approach,
// `walls` says what stands against each move out of them, and `causes` why each cell is blocked. See the promise in
// specs/SinkWhy.antt.
pub fn why_no_goal(
    mode: Mode,
    sheet: &[u8],
    branches: &mut [u32],
    occupied: &mut [u8],
    repeaters: &mut [u8],
    kinds: &mut [u8],
    blocked: &mut [u8],
    classes: &mut [u8],
    joinable: &mut [u8],
    known: &mut [u32],
    previous: &mut [u32],
    path: &mut [u32],
    best: &mut [u32],
    queue: &mut [u64],
    reached: &mut [u8],
    walls: &mut [u8],
    causes: &mut [u8],
) -> Result<Tree, Unrouted>
    ensures { Promise mode sheet.now (lent branches.old occupied.old repeaters.old kinds.old blocked.old classes.old joinable.old known.old previous.old path.old best.old queue.old) (outputs reached.old walls.old causes.old) result (lent branches.new occupied.new repeaters.new kinds.new blocked.new classes.new joinable.new known.new previous.new path.new best.new queue.new) (outputs reached.new walls.new causes.new) }
{
    let reading = sheet_reader::read_sheet(sheet);
    if outputs_short(reading, reached.len(), walls.len(), causes.len()) {
        let refused = Refused {
            number: numbers::BUFFER_NUMBER,
            detail: 0,
        };
        return Err(Unrouted {
            refused,
            told: None,
        });
    }
    let mut memory = Memory {
        kinds,
        blocked,
        classes,
        joinable,
        known,
        previous,
        path,
        best,
        queue,
    };
    why_lent(
        mode,
        sheet,
        reading.job,
        branches,
        occupied,
        repeaters,
        &mut memory,
        reached,
        walls,
        causes,
    )
}
