// The public tree: the order of judgement, and what is lent.
ghost use Rattle.std.specs.Prelude.{◌≡◌, ◌≤◌, ◌↔◌, IsTrue, slice_index, EachIndex};
ghost use Rattle.lent.specs.Lent.{Cleared};
ghost use Rattle.net_tree.specs.Answers.{buffers_good, Promise, lent};
ghost use Rattle.net_tree.specs.Entry.{settled_by, Lendable, OutputsClear, FrontRouted};
ghost use Rattle.net_tree.specs.Held.{SameBuffers, SameLengths, lent_with};
ghost use Rattle.room.specs.Room.{Good};

use crate::job::route_job;
use crate::{Lengths, Memory, Refused, Tree};
use ground::Mode;
use job_sheet::Job;
use room::Room;

// Whether each buffer holds an entry a cell.
fn all_long(lengths: &[usize], cells: usize) -> bool
    ensures { IsTrue result ↔ EachIndex lengths.now (λ k. cells ≤ slice_index lengths.now k) }
{
    lengths.iter().all(|long| cells <= *long)
}

// Whether the lent memory suffices; where it doesn't, number 6 is due.
fn lent_enough(room: Room, lent: Lengths) -> bool
    requires { Good room }
    ensures { result ≡ buffers_good room lent }
{
    let cells = room.volume();
    let each = [
        lent.occupied,
        lent.repeaters,
        lent.kinds,
        lent.blocked,
        lent.classes,
        lent.joinable,
        lent.known,
        lent.previous,
        lent.path,
        lent.best,
    ];
    all_long(&each, cells) && 1 <= lent.queue / 2
}

// The outputs are cleared, to their very end.
fn clear_outputs(branches: &mut [u32], occupied: &mut [u8], repeaters: &mut [u8])
    ensures { Cleared branches.old branches.new × Cleared occupied.old occupied.new × Cleared repeaters.old repeaters.new }
{
    lent::clear(branches);
    lent::clear(occupied);
    lent::clear(repeaters);
}

// Work memory is cleared, to its very end.
pub fn clear_work(
    kinds: &mut [u8],
    blocked: &mut [u8],
    classes: &mut [u8],
    joinable: &mut [u8],
    known: &mut [u32],
    previous: &mut [u32],
    path: &mut [u32],
    best: &mut [u32],
    queue: &mut [u64],
)
    ensures { Cleared kinds.old kinds.new × Cleared blocked.old blocked.new × Cleared classes.old classes.new × Cleared joinable.old joinable.new × Cleared known.old known.new × Cleared previous.old previous.new × Cleared path.old path.new × Cleared best.old best.new × Cleared queue.old queue.new }
{
    let mut memory = Memory {
        kinds,
        blocked,
        classes,
        joinable,
        known,
        previous,
        path,
        best,
        queue,
    };
    memory.clear();
}

// A refusal leaves the outputs all zero.
fn settle(
    answer: Result<Tree, Refused>,
    branches: &mut [u32],
    occupied: &mut [u8],
    repeaters: &mut [u8],
)
    ensures { (branches.new ≡ settled_by answer branches.old) × (occupied.new ≡ settled_by answer occupied.old) × (repeaters.new ≡ settled_by answer repeaters.old) }
{
    if answer.is_err() {
        clear_outputs(branches, occupied, repeaters);
    }
}

// The tree of an accepted job: the first V numbers of each buffer are lent on, the branch buffer and the
// queue whole.
fn route_front(
    mode: Mode,
    sheet: &[u8],
    job: Job,
    branches: &mut [u32],
    occupied: &mut [u8],
    repeaters: &mut [u8],
    memory: &mut Memory<'_>,
) -> Result<Tree, Refused>
    requires lendable { Lendable sheet.now job (lent_with branches.old occupied.old repeaters.old memory.old) }
    requires outputs_clear { OutputsClear (lent_with branches.old occupied.old repeaters.old memory.old) }
    ensures same_buffers { SameBuffers memory.old memory.new }
    ensures same_lengths { SameLengths memory.old memory.new }
    ensures routed { FrontRouted mode sheet.now job (lent_with branches.old occupied.old repeaters.old memory.old) result branches.new occupied.new repeaters.new }
{
    let cells = job.room.volume();
    route_job(
        mode,
        sheet,
        job,
        branches,
        &mut occupied[..cells],
        &mut repeaters[..cells],
        &mut memory.kinds[..cells],
        &mut memory.blocked[..cells],
        &mut memory.classes[..cells],
        &mut memory.joinable[..cells],
        &mut memory.known[..cells],
        &mut memory.previous[..cells],
        &mut memory.path[..cells],
        &mut memory.best[..cells],
        memory.queue,
    )
}

// The tree of an accepted job, over lent memory that suffices, whatever it holds.
fn route_lent(
    mode: Mode,
    sheet: &[u8],
    job: Job,
    branches: &mut [u32],
    occupied: &mut [u8],
    repeaters: &mut [u8],
    memory: &mut Memory<'_>,
) -> Result<Tree, Refused>
    requires { Lendable sheet.now job (lent_with branches.old occupied.old repeaters.old memory.old) }
    ensures same_buffers { SameBuffers memory.old memory.new }
    ensures promise { Promise mode sheet.now (lent_with branches.old occupied.old repeaters.old memory.old) result (lent_with branches.new occupied.new repeaters.new memory.new) }
{
    clear_outputs(branches, occupied, repeaters);
    let answer = route_front(mode, sheet, job, branches, occupied, repeaters, memory);
    memory.clear();
    settle(answer, branches, occupied, repeaters);
    answer
}

// The tree of the one net that a job sheet describes, in the mode that the caller chooses. The branches go to the front of `branches` in sheet order, the cells
// that they occupy and the repeaters are marked in `occupied` and `repeaters`; the others are work memory. See the
// promise in specs/Answers.antt.
pub fn route_net_tree(
    mode: Mode,
    sheet: &[u8],
    branches: &mut [u32],
    occupied: &mut [u8],
    repeaters: &mut [u8],
    kinds: &mut [u8],
    blocked: &mut [u8],
    classes: &mut [u8],
    joinable: &mut [u8],
    known: &mut [u32],
    previous: &mut [u32],
    path: &mut [u32],
    best: &mut [u32],
    queue: &mut [u64],
) -> Result<Tree, Refused>
    ensures { Promise mode sheet.now (lent branches.old occupied.old repeaters.old kinds.old blocked.old classes.old joinable.old known.old previous.old path.old best.old queue.old) result (lent branches.new occupied.new repeaters.new kinds.new blocked.new classes.new joinable.new known.new previous.new path.new best.new queue.new) }
{
    let reading = sheet_reader::read_sheet(sheet);
    let judgement = reading.judgement;
    if !judgement.is_good() {
        let number = judgement.number();
        return Err(Refused { number, detail: 0 });
    }
    let lent_lengths = Lengths {
        branches: branches.len(),
        occupied: occupied.len(),
        repeaters: repeaters.len(),
        kinds: kinds.len(),
        blocked: blocked.len(),
        classes: classes.len(),
        joinable: joinable.len(),
        known: known.len(),
        previous: previous.len(),
        path: path.len(),
        best: best.len(),
        queue: queue.len(),
    };
    let job = reading.job;
    if !lent_enough(job.room, lent_lengths) {
        let number = numbers::BUFFER_NUMBER;
        return Err(Refused { number, detail: 0 });
    }
    let mut memory = Memory {
        kinds,
        blocked,
        classes,
        joinable,
        known,
        previous,
        path,
        best,
        queue,
    };
    route_lent(mode, sheet, job, branches, occupied, repeaters, &mut memory)
}
