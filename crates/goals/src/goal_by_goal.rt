// One sink's goals one after another, each of them tried.
ghost use Rattle.std.specs.Prelude.{◌≡◌, ◌+◌, ◌<◌, length, Ok};
ghost use Rattle.room.specs.Room.{volume};
ghost use Rattle.goals.specs.Goals.{max_attempts, attempts, best_below, route_to_tree};
ghost use Rattle.goals.specs.Trials.{Tells, site_in, Attemptable};

use crate::attempts::attempt_goal;
use crate::cheapest::keep_cheaper;
use crate::{Found, Tried, Turn};

// "at most 64 attempts a goal"
const MAX_ATTEMPTS: usize = 64;

// Between goals the class bytes have no goal beside the start. The goal becomes an end for its own searches, and is none
// any more behind them.
pub fn try_goal(
    turn: Turn,
    joinable: &mut [u8],
    blocked: &mut [u8],
    classes: &mut [u8],
    known: &mut [u32],
    previous: &mut [u32],
    path: &mut [u32],
    queue: &mut [u64],
    goal: usize,
) -> Tried
    requires attemptable { Attemptable (site_in turn joinable.old queue.old) blocked.old classes.old known.old previous.old path.old turn.start turn.start }
    requires goal_bound { goal < volume turn.ground.room }
    ensures tells { Tells (attempts max_attempts (site_in turn.entry joinable.old queue.old) turn.entry.start goal blocked.old) result path.new }
    ensures joinable_unchanged { (joinable.new ≡ joinable.old) × (blocked.new ≡ blocked.old) × (classes.new ≡ classes.old) }
{
    blocked_world::refresh(
        turn.ground,
        turn.kinds,
        blocked,
        turn.start,
        goal,
        classes,
        goal,
    );
    let tried = attempt_goal(
        turn,
        joinable,
        blocked,
        classes,
        known,
        previous,
        path,
        queue,
        goal,
        MAX_ATTEMPTS,
    );
    blocked_world::refresh(
        turn.ground,
        turn.kinds,
        blocked,
        turn.start,
        turn.start,
        classes,
        goal,
    );
    tried
}

// One cell more in number order: where it is joinable it is a goal, and its route is kept where it is strictly cheaper.
fn try_next(
    turn: Turn,
    joinable: &mut [u8],
    blocked: &mut [u8],
    classes: &mut [u8],
    known: &mut [u32],
    previous: &mut [u32],
    path: &mut [u32],
    best: &mut [u32],
    queue: &mut [u64],
    goal: usize,
    kept: Option<Found>,
) -> Tried
    requires attemptable { Attemptable (site_in turn joinable.old queue.old) blocked.old classes.old known.old previous.old path.old turn.start turn.start }
    requires goal_bound { (goal < volume turn.ground.room) × (length best.old ≡ volume turn.ground.room) }
    requires tells { Tells (best_below goal (site_in turn joinable.old queue.old) turn.start blocked.old) (Ok kept) best.old }
    ensures tells_2 { Tells (best_below (goal + 1) (site_in turn.entry joinable.old queue.old) turn.entry.start blocked.old) result best.new }
    ensures joinable_unchanged { (joinable.new ≡ joinable.old) × (blocked.new ≡ blocked.old) × (classes.new ≡ classes.old) }
{
    if joinable[goal] != routing_resources::MARKED {
        return Ok(kept);
    }
    let tried = try_goal(
        turn, joinable, blocked, classes, known, previous, path, queue, goal,
    )?;
    Ok(keep_cheaper(kept, tried, path, best))
}

// "Each searches from its approach to every joinable cell in number order", and the first strictly cheapest route is kept.
// Its path goes to the front of `best`. Marks and class bytes are as they were when this returns.
pub fn every_goal(
    turn: Turn,
    joinable: &mut [u8],
    blocked: &mut [u8],
    classes: &mut [u8],
    known: &mut [u32],
    previous: &mut [u32],
    path: &mut [u32],
    best: &mut [u32],
    queue: &mut [u64],
) -> Tried
    requires attemptable { Attemptable (site_in turn joinable.old queue.old) blocked.old classes.old known.old previous.old path.old turn.start turn.start }
    requires best_len { length best.old ≡ volume turn.ground.room }
    ensures tells { Tells (route_to_tree (site_in turn.entry joinable.old queue.old) turn.entry.start blocked.old) result best.new }
    ensures joinable_unchanged { (joinable.new ≡ joinable.old) × (blocked.new ≡ blocked.old) × (classes.new ≡ classes.old) }
{
    let mut kept = None;
    for goal in 0..turn.kinds.len() {
        kept = try_next(
            turn, joinable, blocked, classes, known, previous, path, best, queue, goal, kept,
        )?;
    }
    Ok(kept)
}
