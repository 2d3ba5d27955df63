// Several nets, one after another: a job list over one room and its blocks, judged, routed net by net in the order given, and
// all of it laid into the room.
#![tactic(auto)]

ghost use Rattle.std.specs.Prelude.{◌≡◌};
ghost use Rattle.lent.specs.Lent.{Cleared};
ghost use Rattle.room.specs.Room.{volume};
ghost use Rattle.job_list.specs.Told.{told_list, verdict_of};
ghost use Rattle.list_routing.specs.ListLent.{list_lent};
ghost use Rattle.list_routing.specs.Walking.{room_of};
ghost use Rattle.several_nets.specs.Answers.{least_of, Promise};
ghost use Rattle.several_nets.specs.Entry.{detail_for, answer_for, refused_untouched, settled_by, FirstGood, FirstAsked, FirstSet, AnswerAsked, Answered, FrontAsked, FrontAnswered, LentAsked, LentAnswered};

use blocks::Overlap;
use ground::Mode;
use job_list::{Memory, Verdict};
use list_routing::{NetRefused, Stand};

// The least of the lengths of all buffers that have one entry a cell.
fn least_of(each: [usize; 15]) -> usize
    ensures { result ≡ least_of each }
{
    let mut least = each[14];
    for i in (0..14).rev() {
        least = each[i].min(least);
    }
    least
}

// The detail of a number that is due before any net is routed: of number 7 the cell of the repeat is known only now.
fn detail_for(verdict: Verdict, placement: Result<(), Overlap>) -> usize
    ensures { result ≡ detail_for verdict placement }
{
    if verdict.number != numbers::OVERLAP_NUMBER {
        return verdict.detail;
    }
    match placement {
        Ok(()) => 0,
        Err(overlap) => overlap.cell,
    }
}

// What a walk comes to: a net that refuses, two nets that overlap, or all nets laid.
fn answer_for(walk: Result<Stand, NetRefused>) -> Result<usize, NetRefused>
    ensures { result ≡ answer_for walk }
{
    let stand = walk?;
    match stand.met {
        Some(meeting) => Err(NetRefused {
            net: meeting.net,
            number: numbers::NETS_OVERLAP_NUMBER,
            detail: meeting.cell,
        }),
        None => Ok(stand.net),
    }
}

// How many cells the room of the first sheet has.
fn first_cells(list: &[u8]) -> usize
    requires { FirstGood list.now }
    ensures { result ≡ volume (room_of list.now) }
{
    let first = job_list::sheet_size(list);
    let reading = sheet_reader::read_sheet(&list[..first]);
    let job = reading.job;
    job.room.volume()
}

// Lays the blocks of the first sheet out.
fn set_first(
    list: &[u8],
    kinds: &mut [u8],
    facings: &mut [u8],
    known: &mut [u32],
) -> Result<(), Overlap>
    requires { FirstAsked list.now kinds.old facings.old known.old }
    ensures { FirstSet list.now result kinds.new facings.new }
{
    let first = job_list::sheet_size(list);
    let reading = sheet_reader::read_sheet(&list[..first]);
    let job = reading.job;
    laid_nets::set_room(&list[..first], job, kinds, facings, known)
}

// What comes of a judged list, over memory of exactly V cells.
fn answer_list(
    mode: Mode,
    list: &[u8],
    judged: Result<(), Verdict>,
    branches: &mut [u32],
    lengths: &mut [u32],
    owners: &mut [u32],
    repeaters: &mut [u8],
    kinds: &mut [u8],
    facings: &mut [u8],
    occupied: &mut [u8],
    planned: &mut [u8],
    before: &mut [u8],
    unlaid: &mut [u8],
    blocked: &mut [u8],
    classes: &mut [u8],
    joinable: &mut [u8],
    known: &mut [u32],
    previous: &mut [u32],
    path: &mut [u32],
    best: &mut [u32],
    queue: &mut [u64],
) -> Result<usize, NetRefused>
    requires told { judged ≡ told_list (verdict_of judged) }
    requires asked { AnswerAsked list.now (verdict_of judged) (list_lent branches.old lengths.old owners.old repeaters.old kinds.old facings.old occupied.old planned.old before.old unlaid.old blocked.old classes.old joinable.old known.old previous.old path.old best.old queue.old) }
    ensures { Answered mode list.now (verdict_of judged) (list_lent branches.old lengths.old owners.old repeaters.old kinds.old facings.old occupied.old planned.old before.old unlaid.old blocked.old classes.old joinable.old known.old previous.old path.old best.old queue.old) result (list_lent branches.new lengths.new owners.new repeaters.new kinds.new facings.new occupied.new planned.new before.new unlaid.new blocked.new classes.new joinable.new known.new previous.new path.new best.new queue.new) }
{
    let placement = set_first(list, kinds, facings, known);
    if let Err(verdict) = judged {
        return Err(NetRefused {
            net: verdict.net,
            number: verdict.number,
            detail: detail_for(verdict, placement),
        });
    }
    let walk = list_routing::walk_list(
        mode, list, branches, lengths, owners, repeaters, kinds, facings, occupied, planned,
        before, unlaid, blocked, classes, joinable, known, previous, path, best, queue,
    );
    answer_for(walk)
}

// The first V numbers of each buffer are lent on; the branch buffer, the lengths and the queue whole.
fn answer_front(
    mode: Mode,
    list: &[u8],
    judged: Result<(), Verdict>,
    branches: &mut [u32],
    lengths: &mut [u32],
    owners: &mut [u32],
    repeaters: &mut [u8],
    kinds: &mut [u8],
    facings: &mut [u8],
    occupied: &mut [u8],
    planned: &mut [u8],
    before: &mut [u8],
    unlaid: &mut [u8],
    blocked: &mut [u8],
    classes: &mut [u8],
    joinable: &mut [u8],
    known: &mut [u32],
    previous: &mut [u32],
    path: &mut [u32],
    best: &mut [u32],
    queue: &mut [u64],
) -> Result<usize, NetRefused>
    requires told { judged ≡ told_list (verdict_of judged) }
    requires asked { FrontAsked list.now (verdict_of judged) (list_lent branches.old lengths.old owners.old repeaters.old kinds.old facings.old occupied.old planned.old before.old unlaid.old blocked.old classes.old joinable.old known.old previous.old path.old best.old queue.old) }
    ensures { FrontAnswered mode list.now (verdict_of judged) (list_lent branches.old lengths.old owners.old repeaters.old kinds.old facings.old occupied.old planned.old before.old unlaid.old blocked.old classes.old joinable.old known.old previous.old path.old best.old queue.old) result (list_lent branches.new lengths.new owners.new repeaters.new kinds.new facings.new occupied.new planned.new before.new unlaid.new blocked.new classes.new joinable.new known.new previous.new path.new best.new queue.new) }
{
    let cells = first_cells(list);
    answer_list(
        mode,
        list,
        judged,
        branches,
        lengths,
        &mut owners[..cells],
        &mut repeaters[..cells],
        &mut kinds[..cells],
        &mut facings[..cells],
        &mut occupied[..cells],
        &mut planned[..cells],
        &mut before[..cells],
        &mut unlaid[..cells],
        &mut blocked[..cells],
        &mut classes[..cells],
        &mut joinable[..cells],
        &mut known[..cells],
        &mut previous[..cells],
        &mut path[..cells],
        &mut best[..cells],
        queue,
    )
}

// What must be zero before: the outputs, and what nets and blocks are marked in.
fn clear_outputs(
    branches: &mut [u32],
    lengths: &mut [u32],
    owners: &mut [u32],
    repeaters: &mut [u8],
    kinds: &mut [u8],
    facings: &mut [u8],
)
    ensures { Cleared branches.old branches.new × Cleared lengths.old lengths.new × Cleared owners.old owners.new × Cleared repeaters.old repeaters.new × Cleared kinds.old kinds.new × Cleared facings.old facings.new }
{
    lent::clear(branches);
    lent::clear(lengths);
    lent::clear(owners);
    lent::clear(repeaters);
    lent::clear(kinds);
    lent::clear(facings);
}

fn clear_marks(occupied: &mut [u8], planned: &mut [u8], before: &mut [u8])
    ensures { Cleared occupied.old occupied.new × Cleared planned.old planned.new × Cleared before.old before.new }
{
    lent::clear(occupied);
    lent::clear(planned);
    lent::clear(before);
}

// A refusal leaves the outputs all zero.
fn settle(
    answer: Result<usize, NetRefused>,
    branches: &mut [u32],
    lengths: &mut [u32],
    owners: &mut [u32],
    repeaters: &mut [u8],
    kinds: &mut [u8],
    facings: &mut [u8],
)
    ensures { (branches.new ≡ settled_by answer branches.old) × (lengths.new ≡ settled_by answer lengths.old) × (owners.new ≡ settled_by answer owners.old) × (repeaters.new ≡ settled_by answer repeaters.old) × (kinds.new ≡ settled_by answer kinds.old) × (facings.new ≡ settled_by answer facings.old) }
{
    if answer.is_err() {
        clear_outputs(branches, lengths, owners, repeaters, kinds, facings);
    }
}

// Numbers 1 to 6 of a judged list refuse before lent memory is touched.
fn refuse_untouched(judged: Result<(), Verdict>) -> Result<(), NetRefused>
    ensures { result ≡ refused_untouched judged }
{
    match judged {
        Ok(()) => Ok(()),
        Err(verdict) => {
            if lent::touches(verdict.number) {
                Ok(())
            } else {
                Err(NetRefused {
                    net: verdict.net,
                    number: verdict.number,
                    detail: verdict.detail,
                })
            }
        }
    }
}

// What comes of a judged list, over lent memory that suffices, whatever it holds.
fn answer_lent(
    mode: Mode,
    list: &[u8],
    judged: Result<(), Verdict>,
    branches: &mut [u32],
    lengths: &mut [u32],
    owners: &mut [u32],
    repeaters: &mut [u8],
    kinds: &mut [u8],
    facings: &mut [u8],
    occupied: &mut [u8],
    planned: &mut [u8],
    before: &mut [u8],
    unlaid: &mut [u8],
    blocked: &mut [u8],
    classes: &mut [u8],
    joinable: &mut [u8],
    known: &mut [u32],
    previous: &mut [u32],
    path: &mut [u32],
    best: &mut [u32],
    queue: &mut [u64],
) -> Result<usize, NetRefused>
    requires told { judged ≡ told_list (verdict_of judged) }
    requires asked { LentAsked list.now (verdict_of judged) (list_lent branches.old lengths.old owners.old repeaters.old kinds.old facings.old occupied.old planned.old before.old unlaid.old blocked.old classes.old joinable.old known.old previous.old path.old best.old queue.old) }
    ensures { LentAnswered mode list.now (verdict_of judged) (list_lent branches.old lengths.old owners.old repeaters.old kinds.old facings.old occupied.old planned.old before.old unlaid.old blocked.old classes.old joinable.old known.old previous.old path.old best.old queue.old) result (list_lent branches.new lengths.new owners.new repeaters.new kinds.new facings.new occupied.new planned.new before.new unlaid.new blocked.new classes.new joinable.new known.new previous.new path.new best.new queue.new) }
{
    clear_outputs(branches, lengths, owners, repeaters, kinds, facings);
    lent::clear(before);
    lent::clear(known);
    let answer = answer_front(
        mode, list, judged, branches, lengths, owners, repeaters, kinds, facings, occupied,
        planned, before, unlaid, blocked, classes, joinable, known, previous, path, best, queue,
    );
    clear_marks(occupied, planned, before);
    net_tree::clear_work(
        unlaid, blocked, classes, joinable, known, previous, path, best, queue,
    );
    settle(answer, branches, lengths, owners, repeaters, kinds, facings);
    answer
}

// A job list: whole job sheets one behind the other, over one room and its blocks. The nets' branches go to `branches`, in list
// order, then sheet order, their lengths to `lengths`, sixteen a net; `owners` tells each cell's net, as one more than its
// number, `repeaters` marks the planned ones, `kinds` and `facings` have the laid room; the others are work memory. See the
// promise in specs/Answers.antt. What comes back is how many nets are laid, or the net that refuses, its number and its detail.
pub fn route_nets(
    mode: Mode,
    list: &[u8],
    branches: &mut [u32],
    lengths: &mut [u32],
    owners: &mut [u32],
    repeaters: &mut [u8],
    kinds: &mut [u8],
    facings: &mut [u8],
    occupied: &mut [u8],
    planned: &mut [u8],
    before: &mut [u8],
    unlaid: &mut [u8],
    blocked: &mut [u8],
    classes: &mut [u8],
    joinable: &mut [u8],
    known: &mut [u32],
    previous: &mut [u32],
    path: &mut [u32],
    best: &mut [u32],
    queue: &mut [u64],
) -> Result<usize, NetRefused>
    ensures { Promise mode list.now (list_lent branches.old lengths.old owners.old repeaters.old kinds.old facings.old occupied.old planned.old before.old unlaid.old blocked.old classes.old joinable.old known.old previous.old path.old best.old queue.old) result (list_lent branches.new lengths.new owners.new repeaters.new kinds.new facings.new occupied.new planned.new before.new unlaid.new blocked.new classes.new joinable.new known.new previous.new path.new best.new queue.new) }
{
    let cells = least_of([
        owners.len(),
        repeaters.len(),
        kinds.len(),
        facings.len(),
        occupied.len(),
        planned.len(),
        before.len(),
        unlaid.len(),
        blocked.len(),
        classes.len(),
        joinable.len(),
        known.len(),
        previous.len(),
        path.len(),
        best.len(),
    ]);
    let memory = Memory {
        cells,
        places: queue.len() / 2,
        lengths: lengths.len(),
    };
    let judged = job_list::judge_list(memory, list);
    refuse_untouched(judged)?;
    answer_lent(
        mode, list, judged, branches, lengths, owners, repeaters, kinds, facings, occupied,
        planned, before, unlaid, blocked, classes, joinable, known, previous, path, best, queue,
    )
}
