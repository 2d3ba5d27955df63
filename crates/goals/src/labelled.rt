// Goals tried by their labels, the lowest first, until none is left that may come before what is kept. The labels stand in
// `best`, so the path of what is kept stands nowhere; its goal's searches are made once more behind them all.
ghost use Rattle.std.specs.Prelude.{◌≡◌, ◌≤◌, length, Ok};
ghost use Rattle.room.specs.Room.{volume};
ghost use Rattle.goals.specs.Goals.{route_to_tree};
ghost use Rattle.goals.specs.Trials.{Tells, length_of, site_in, Attemptable};
ghost use Rattle.goals.specs.NeverFull.{NeverFull};
ghost use Rattle.goals.specs.Labelled.{PassedBelow, Passing, AllPassed, PassesAll, KeepsGoal, Tryable, PassesGoal, Copies};

use crate::cheapest::copy_cells;
use crate::goal_by_goal::try_goal;
use crate::left::{label_goals, lowest_label};
use crate::passing::precedes;
use crate::{Found, Kept, QueueFull, Tried, Turn};

// Of what is kept and what this goal came to, the one that comes first.
fn keep_goal(kept: Option<Kept>, goal: usize, tried: Option<Found>) -> Option<Kept>
    ensures { KeepsGoal kept goal tried result }
{
    let Some(found) = tried else {
        return kept;
    };
    if !precedes(kept, found.cost.0, goal) {
        return kept;
    }
    Some(Kept { found, goal })
}

// One goal is tried, and what comes first is kept.
fn pass_label(
    turn: Turn,
    joinable: &mut [u8],
    blocked: &mut [u8],
    classes: &mut [u8],
    known: &mut [u32],
    previous: &mut [u32],
    path: &mut [u32],
    queue: &mut [u64],
    goal: usize,
    kept: Option<Kept>,
) -> Result<Option<Kept>, QueueFull>
    requires attemptable { Attemptable (site_in turn joinable.old queue.old) blocked.old classes.old known.old previous.old path.old turn.start turn.start }
    requires tryable { Tryable (site_in turn joinable.old queue.old) turn.start blocked.old goal }
    ensures passes_goal { PassesGoal (site_in turn.entry joinable.old queue.old) turn.entry.start blocked.old goal kept result }
    ensures joinable_unchanged { (joinable.new ≡ joinable.old) × (blocked.new ≡ blocked.old) × (classes.new ≡ classes.old) }
{
    let tried = try_goal(
        turn, joinable, blocked, classes, known, previous, path, queue, goal,
    )?;
    Ok(keep_goal(kept, goal, tried))
}

// The goals that are left are tried, from the lowest label on.
fn pass_labels(
    turn: Turn,
    joinable: &mut [u8],
    blocked: &mut [u8],
    classes: &mut [u8],
    known: &mut [u32],
    previous: &mut [u32],
    path: &mut [u32],
    labels: &mut [u32],
    queue: &mut [u64],
    before: Option<Kept>,
) -> Result<Option<Kept>, QueueFull>
    requires attemptable { Attemptable (site_in turn joinable.old queue.old) blocked.old classes.old known.old previous.old path.old turn.start turn.start }
    requires passing { Passing (site_in turn joinable.old queue.old) turn.start blocked.old labels.old before }
    ensures all_passed { PassesAll (site_in turn.entry joinable.old queue.old) turn.entry.start blocked.old result }
    ensures joinable_unchanged { (joinable.new ≡ joinable.old) × (blocked.new ≡ blocked.old) × (classes.new ≡ classes.old) }
{
    let mut kept = before;
    while let Some(next) = lowest_label(labels) {
        if !precedes(kept, labels[next] - 1, next) {
            return Ok(kept);
        }
        labels[next] = 0;
        kept = pass_label(
            turn, joinable, blocked, classes, known, previous, path, queue, next, kept,
        )?;
    }
    Ok(kept)
}

// Copies a path, if there is one.
fn copy_path(tried: Option<Found>, path: &[u32], best: &mut [u32])
    requires { (length path.now ≡ length best.old) × (length_of (Ok tried) ≤ length path.now) }
    ensures { Copies (Ok tried) path.now best.new }
{
    if let Some(found) = tried {
        copy_cells(path, best, found.length);
    }
}

// The path of what is kept: its goal's searches once more.
fn fetch_route(
    turn: Turn,
    joinable: &mut [u8],
    blocked: &mut [u8],
    classes: &mut [u8],
    known: &mut [u32],
    previous: &mut [u32],
    path: &mut [u32],
    best: &mut [u32],
    queue: &mut [u64],
    kept: Option<Kept>,
) -> Tried
    requires attemptable { Attemptable (site_in turn joinable.old queue.old) blocked.old classes.old known.old previous.old path.old turn.start turn.start }
    requires best_len { length best.old ≡ volume turn.ground.room }
    requires never_full { NeverFull (site_in turn joinable.old queue.old) turn.start blocked.old }
    requires all_passed { AllPassed (site_in turn joinable.old queue.old) turn.start blocked.old kept }
    ensures tells { Tells (route_to_tree (site_in turn.entry joinable.old queue.old) turn.entry.start blocked.old) result best.new }
    ensures joinable_unchanged { (joinable.new ≡ joinable.old) × (blocked.new ≡ blocked.old) × (classes.new ≡ classes.old) }
{
    let Some(kept) = kept else {
        return Ok(None);
    };
    let tried = try_goal(
        turn, joinable, blocked, classes, known, previous, path, queue, kept.goal,
    )?;
    copy_path(tried, path, best);
    Ok(tried)
}

// The goals that are left are tried, and the path of what is kept is fetched.
fn finish_labels(
    turn: Turn,
    joinable: &mut [u8],
    blocked: &mut [u8],
    classes: &mut [u8],
    known: &mut [u32],
    previous: &mut [u32],
    path: &mut [u32],
    best: &mut [u32],
    queue: &mut [u64],
    before: Option<Kept>,
) -> Tried
    requires attemptable { Attemptable (site_in turn joinable.old queue.old) blocked.old classes.old known.old previous.old path.old turn.start turn.start }
    requires passing { Passing (site_in turn joinable.old queue.old) turn.start blocked.old best.old before }
    ensures tells { Tells (route_to_tree (site_in turn.entry joinable.old queue.old) turn.entry.start blocked.old) result best.new }
    ensures joinable_unchanged { (joinable.new ≡ joinable.old) × (blocked.new ≡ blocked.old) × (classes.new ≡ classes.old) }
{
    let kept = pass_labels(
        turn, joinable, blocked, classes, known, previous, path, best, queue, before,
    )?;
    fetch_route(
        turn, joinable, blocked, classes, known, previous, path, best, queue, kept,
    )
}

// The goals whose bids are `low` or higher are labelled, and tried by their labels.
pub fn by_labels(
    turn: Turn,
    joinable: &mut [u8],
    blocked: &mut [u8],
    classes: &mut [u8],
    known: &mut [u32],
    previous: &mut [u32],
    path: &mut [u32],
    best: &mut [u32],
    queue: &mut [u64],
    kept: Option<Kept>,
    low: u64,
) -> Tried
    requires attemptable { Attemptable (site_in turn joinable.old queue.old) blocked.old classes.old known.old previous.old path.old turn.start turn.start }
    requires passed_below { PassedBelow (site_in turn joinable.old queue.old) turn.start blocked.old best.old kept low }
    ensures tells { Tells (route_to_tree (site_in turn.entry joinable.old queue.old) turn.entry.start blocked.old) result best.new }
    ensures joinable_unchanged { (joinable.new ≡ joinable.old) × (blocked.new ≡ blocked.old) × (classes.new ≡ classes.old) }
{
    label_goals(
        turn, joinable, blocked, classes, known, previous, best, queue, low,
    );
    finish_labels(
        turn, joinable, blocked, classes, known, previous, path, best, queue, kept,
    )
}
