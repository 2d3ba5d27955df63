// One sink's route to the tree: the cheapest of all goals.
ghost use Rattle.std.specs.Prelude.{◌≡◌, ◌≤◌, ◌/◌, length};
ghost use Rattle.room.specs.Room.{max_volume, volume};
ghost use Rattle.goals.specs.Goals.{route_to_tree};
ghost use Rattle.goals.specs.Trials.{Tells, site_of, Attemptable};
ghost use Rattle.goals.specs.NeverFull.{enterable_count, never_full};

use crate::goal_by_goal::every_goal;
use crate::passing::by_bids;
use crate::{Tried, Turn};
use ground::Ground;
use room::RouterConfig;

// How many cells can be entered, by their class bytes. A counting loop, since the compiler makes it one over several bytes
// at a time, and no chain of `filter` and `count`.
fn count_enterable(classes: &[u8]) -> usize
    ensures { result ≡ enterable_count (length classes.now) classes.now }
{
    let mut count = 0;
    for class in classes {
        if *class != 0 {
            count += 1;
        }
    }
    count
}

// Whether no search of this turn can find a queue of so many numbers full: a flat step costs at least 10 and a stair at
// least 20, and there are 5 places for each cell but the start, or for each cell that can be entered, for the goal and for
// the cell above it.
fn never_full(config: RouterConfig, classes: &[u8], longs: usize) -> bool
    requires { length classes.now ≤ max_volume }
    ensures { result ≡ never_full config classes.now (longs / 2) }
{
    10 <= config.horizontal.0
        && 20 <= config.stair.0
        && (5 * classes.len() <= longs / 2 + 5 || 5 * (count_enterable(classes) + 2) <= longs / 2)
}

// "Each searches from its approach to every joinable cell in number order", and the first strictly cheapest route is kept.
// Its path goes to the front of `best`. Marks and class bytes are as they were when this returns. Where no queue is ever
// full, goals that can't win are not searched; the answer is the same.
pub fn route_to_tree(
    ground: Ground,
    kinds: &[u8],
    joinable: &mut [u8],
    blocked: &mut [u8],
    classes: &mut [u8],
    known: &mut [u32],
    previous: &mut [u32],
    path: &mut [u32],
    best: &mut [u32],
    queue: &mut [u64],
    start: usize,
) -> Tried
    requires attemptable { Attemptable (site_of ground kinds.now joinable.old queue.old) blocked.old classes.old known.old previous.old path.old start start }
    requires best_len { length best.old ≡ volume ground.room }
    ensures tells { Tells (route_to_tree (site_of ground kinds.now joinable.old queue.old) start blocked.old) result best.new }
    ensures joinable_unchanged { (joinable.new ≡ joinable.old) × (blocked.new ≡ blocked.old) × (classes.new ≡ classes.old) }
{
    let turn = Turn {
        ground,
        kinds,
        start,
    };
    if never_full(ground.config, classes, queue.len()) {
        return by_bids(
            turn, joinable, blocked, classes, known, previous, path, best, queue,
        );
    }
    every_goal(
        turn, joinable, blocked, classes, known, previous, path, best, queue,
    )
}
