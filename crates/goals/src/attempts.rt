// The attempts for one goal.
ghost use Rattle.std.specs.Prelude.{◌≡◌, false, ◌<◌, eqb, length};
ghost use Rattle.room.specs.Room.{volume};
ghost use Rattle.routing_resources.specs.Marks.{with_byte, is_marked, marked_by};
ghost use Rattle.blocked_world.specs.BlockedWorld.{WorldFits, Says};
ghost use Rattle.goals.specs.Goals.{attempts, ends_goal};
ghost use Rattle.goals.specs.Trials.{Tells, site_in, Attemptable, Attempted};

use crate::one_search::search_for;
use crate::{Found, Tried, Turn, Unended};

// "A conflict that is start, goal or blocked already ends the goal".
fn ends_goal(blocked: &[u8], start: usize, goal: usize, cell: usize) -> bool
    requires { cell < length blocked.now }
    ensures { result ≡ ends_goal blocked.now start goal cell }
{
    blocked_world::an_end(start, goal, cell) || blocked[cell] == routing_resources::MARKED
}

// One attempt. "A search that gave no route ends the goal on the spot"; the conflict is looked for in the unblocked room.
fn attempt_once(
    turn: Turn,
    joinable: &mut [u8],
    blocked: &[u8],
    classes: &[u8],
    known: &mut [u32],
    previous: &mut [u32],
    path: &mut [u32],
    queue: &mut [u64],
    goal: usize,
) -> Result<Option<Found>, Unended>
    requires { Attemptable (site_in turn joinable.old queue.old) blocked.now classes.now known.old previous.old path.old turn.start goal }
    ensures attempted { Attempted (site_in turn.entry joinable.old queue.old) blocked.now turn.entry.start goal path.new result }
    ensures joinable_unchanged { joinable.new ≡ joinable.old }
{
    let tried = search_for(
        turn.ground.room,
        turn.ground.config,
        turn.kinds,
        classes,
        known,
        previous,
        path,
        queue,
        turn.start,
        goal,
    )?;
    let Some(found) = tried else {
        return Ok(None);
    };
    let conflict = geometry::geometry_conflict(
        turn.ground.room,
        turn.kinds,
        joinable,
        &path[..found.length],
    );
    let Some(cell) = conflict else {
        return Ok(tried);
    };
    if ends_goal(blocked, turn.start, goal, cell) {
        return Ok(None);
    }
    Err(Unended::Conflict(cell))
}

// Writes a blocked mark, and the classes that depend on it anew.
fn set_blocked(
    turn: Turn,
    blocked: &mut [u8],
    classes: &mut [u8],
    goal: usize,
    cell: usize,
    mark: u8,
)
    requires world_fits { WorldFits turn.ground.room turn.kinds.now blocked.old }
    requires says { Says turn.ground.mode turn.ground.room turn.kinds.now blocked.old turn.start goal classes.old }
    requires cell_bound { cell < volume turn.ground.room }
    ensures blocked_after { blocked.new ≡ with_byte mark (eqb cell) blocked.old }
    ensures says_2 { Says turn.entry.ground.mode turn.entry.ground.room turn.entry.kinds.now blocked.new turn.entry.start goal classes.new }
{
    routing_resources::put_mark(blocked, Some(cell), mark);
    blocked_world::refresh(
        turn.ground,
        turn.kinds,
        blocked,
        turn.start,
        goal,
        classes,
        cell,
    );
}

// So many attempts for one goal. Marks and classes are as they were when this returns.
#[cycle(attempt_again_attempt_goal)]
pub fn attempt_goal(
    turn: Turn,
    joinable: &mut [u8],
    blocked: &mut [u8],
    classes: &mut [u8],
    known: &mut [u32],
    previous: &mut [u32],
    path: &mut [u32],
    queue: &mut [u64],
    goal: usize,
    left: usize,
) -> Tried
    requires { Attemptable (site_in turn joinable.old queue.old) blocked.old classes.old known.old previous.old path.old turn.start goal }
    ensures tells { Tells (attempts left (site_in turn.entry joinable.old queue.old) turn.entry.start goal blocked.old) result path.new }
    ensures joinable_unchanged { (joinable.new ≡ joinable.old) × (blocked.new ≡ blocked.old) × (classes.new ≡ classes.old) }
{
    if left == 0 {
        return Ok(None);
    }
    let once = attempt_once(
        turn, joinable, blocked, classes, known, previous, path, queue, goal,
    );
    match once {
        Ok(found) => Ok(found),
        Err(unended) => match unended {
            Unended::Full(full) => Err(full),
            Unended::Conflict(cell) => attempt_again(
                turn,
                joinable,
                blocked,
                classes,
                known,
                previous,
                path,
                queue,
                goal,
                cell,
                left - 1,
            ),
        },
    }
}

// The attempts after a conflict, so many: it is blocked for them, and not blocked any more behind them.
#[cycle(attempt_again_attempt_goal)]
fn attempt_again(
    turn: Turn,
    joinable: &mut [u8],
    blocked: &mut [u8],
    classes: &mut [u8],
    known: &mut [u32],
    previous: &mut [u32],
    path: &mut [u32],
    queue: &mut [u64],
    goal: usize,
    cell: usize,
    left: usize,
) -> Tried
    requires attemptable { Attemptable (site_in turn joinable.old queue.old) blocked.old classes.old known.old previous.old path.old turn.start goal }
    requires cell_bound { (cell < volume turn.ground.room) × (is_marked blocked.old cell ≡ false) }
    ensures tells { Tells (attempts left (site_in turn.entry joinable.old queue.old) turn.entry.start goal (marked_by (eqb cell) blocked.old)) result path.new }
    ensures joinable_unchanged { (joinable.new ≡ joinable.old) × (blocked.new ≡ blocked.old) × (classes.new ≡ classes.old) }
{
    set_blocked(
        turn,
        blocked,
        classes,
        goal,
        cell,
        routing_resources::MARKED,
    );
    let tried = attempt_goal(
        turn, joinable, blocked, classes, known, previous, path, queue, goal, left,
    );
    set_blocked(
        turn,
        blocked,
        classes,
        goal,
        cell,
        routing_resources::UNMARKED,
    );
    tried
}
