// The search for one goal, over the class bytes.
ghost use Rattle.std.specs.Prelude.{◌≡◌, [], ◌≤◌, ◌<◌, pred, length, get_or, Some, Ok};
ghost use Rattle.room.specs.Room.{max_volume, volume};
ghost use Rattle.best_first.specs.Search.{trace};
ghost use Rattle.trace.specs.Traces.{PreviousInside};
ghost use Rattle.room_search.specs.Takings.{Searchable, Showable};
ghost use Rattle.goals.specs.Goals.{found};
ghost use Rattle.goals.specs.Trials.{Tells, both_routeable, TriedOf, SearchTold};

use crate::{Found, QueueFull, Tried};
use room::{Cost, Room, RouterConfig};
use room_search::Outcome;

// Whether both ends are routeable.
fn both_routeable(kinds: &[u8], start: usize, goal: usize) -> bool
    requires { (start < length kinds.now) × (goal < length kinds.now) }
    ensures { result ≡ both_routeable kinds.now start goal }
{
    room_search::routeable_kind(true, kinds[start])
        && room_search::routeable_kind(true, kinds[goal])
}

// The path by predecessors goes to the front of the buffer.
fn write_route(goal: usize, known: &[u32], previous: &[u32], path: &mut [u32]) -> Found
    requires goal_in_bounds { (goal < length previous.now) × (length previous.now ≤ max_volume) × (length known.now ≡ length previous.now) × (length path.old ≡ length previous.now) }
    requires previous_inside { PreviousInside previous.now }
    requires nonzero { 0 < get_or known.now goal 0 }
    ensures { Tells (found (trace (length previous.now) previous.now goal []) (pred (get_or known.now goal 0))) (Ok (Some result)) path.new }
{
    let length = trace::path_to(previous, goal, path);
    Found {
        length: length,
        cost: Cost(known[goal] - 1),
    }
}

// "A failed search, the node limit included, ends that goal": only a route goes on. A full queue ends the tree.
fn tried_of(
    outcome: Outcome,
    goal: usize,
    known: &[u32],
    previous: &[u32],
    path: &mut [u32],
) -> Tried
    requires goal_in_bounds { (goal < length previous.now) × (length previous.now ≤ max_volume) × (length known.now ≡ length previous.now) × (length path.old ≡ length previous.now) }
    requires showable { Showable outcome goal known.now previous.now }
    ensures { TriedOf outcome goal known.now previous.now result path.new }
{
    let Outcome::Arrived(_) = outcome else {
        let Outcome::QueueFull(expanded) = outcome else {
            return Ok(None);
        };
        return Err(QueueFull(expanded));
    };
    Ok(Some(write_route(goal, known, previous, path)))
}

// The search from the start to one goal. The path goes to the front of `path`.
pub fn search_for(
    room: Room,
    config: RouterConfig,
    kinds: &[u8],
    classes: &[u8],
    known: &mut [u32],
    previous: &mut [u32],
    path: &mut [u32],
    queue: &mut [u64],
    start: usize,
    goal: usize,
) -> Tried
    requires searchable { Searchable room config classes.now known.old previous.old queue.old start goal }
    requires kinds_len { (length kinds.now ≡ volume room) × (length path.old ≡ volume room) }
    ensures { SearchTold room config kinds.now classes.now queue.old start goal result path.new }
{
    if !both_routeable(kinds, start, goal) {
        return Ok(None);
    }
    let outcome = room_search::search_classes(
        room, config, classes, known, previous, queue, start, goal,
    );
    tried_of(outcome, goal, known, previous, path)
}
