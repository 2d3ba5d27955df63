// The public search, over lent memory.
ghost use Rattle.std.specs.Prelude.{◌≡◌, ◌<◌, length, get_or, replicate, Err};
ghost use Rattle.room_search.specs.Takings.{Showable};
ghost use Rattle.lent.specs.Lent.{Cleared};
ghost use Rattle.trace.specs.Traces.{PreviousInside};
ghost use Rattle.routing.specs.Answers.{input, task_in, lengths_of, Promise};
ghost use Rattle.routing.specs.Entry.{RoomSearchable, SearchFound, Shown, RouteShown, RouteWritten, ends_fit, Admitted, Fitted};
ghost use Rattle.room_search.specs.TriedMoves.{places_of};

use crate::counts::totals_of;
use crate::judge::judge;
use crate::{Lengths, Route, Unrouted};
use room::{Cost, Nodes, Room, RouterConfig};
use room_search::{Outcome, fill_classes, make_end, routeable_kind, search_classes};

// Searches over memory of exactly V cells, whatever it holds.
fn search_room(
    room: Room,
    config: RouterConfig,
    kinds: &[u8],
    start: usize,
    goal: usize,
    known: &mut [u32],
    previous: &mut [u32],
    classes: &mut [u8],
    queue: &mut [u64],
) -> Outcome
    requires { RoomSearchable room config kinds.now start goal known.old previous.old classes.old queue.old }
    ensures { SearchFound (task_in room config kinds.now start goal (places_of queue.old)) result known.new previous.new }
{
    fill_classes(room, kinds, classes);
    make_end(room, kinds, classes, start);
    make_end(room, kinds, classes, goal);
    search_classes(room, config, classes, known, previous, queue, start, goal)
}

// The path is counted and written to a cleared buffer, and its totals are told.
fn show_route(
    room: Room,
    config: RouterConfig,
    kinds: &[u8],
    goal: usize,
    known: &[u32],
    previous: &[u32],
    path: &mut [u32],
    expanded: Nodes,
) -> Route
    requires shown { Shown room config kinds.now goal known.now previous.now path.old }
    requires previous_inside { PreviousInside previous.now }
    requires nonzero { 0 < get_or known.now goal 0 }
    ensures { RouteWritten room config kinds.now goal known.now previous.now path.old expanded result path.new }
{
    let length = trace::path_to(previous, goal, path);
    let totals = totals_of(room, config, kinds, &path[..length]);
    let steps = totals.steps;
    let supports = totals.supports;
    Route {
        length: length,
        cost: Cost(known[goal] - 1),
        expanded: expanded,
        steps: steps,
        supports: supports,
        laid: totals.laid,
    }
}

// What an outcome answers; the path goes to a cleared buffer.
fn answer_of(
    room: Room,
    config: RouterConfig,
    kinds: &[u8],
    outcome: Outcome,
    goal: usize,
    known: &[u32],
    previous: &[u32],
    path: &mut [u32],
) -> Result<Route, Unrouted>
    requires shown { Shown room config kinds.now goal known.now previous.now path.old }
    requires path_value { path.old ≡ replicate (length path.old) 0 }
    requires showable { Showable outcome goal known.now previous.now }
    ensures { RouteShown room config kinds.now outcome goal known.now previous.now path.old result path.new }
{
    match outcome {
        Outcome::Arrived(expanded) => {
            Ok(show_route(room, config, kinds, goal, known, previous, path, expanded))
        }
        Outcome::NoRoute(expanded) => Err(Unrouted::NoRoute(expanded)),
        Outcome::LimitPassed(expanded) => Err(Unrouted::LimitPassed(expanded)),
        Outcome::QueueFull(expanded) => Err(Unrouted::QueueFull(expanded)),
    }
}

// Work memory is cleared, to its very end.
fn clear_work(known: &mut [u32], previous: &mut [u32], classes: &mut [u8], queue: &mut [u64])
    ensures { Cleared known.old known.new × Cleared previous.old previous.new × Cleared classes.old classes.new × Cleared queue.old queue.new }
{
    lent::clear(known);
    lent::clear(previous);
    lent::clear(classes);
    lent::clear(queue);
}

// The end that is not routeable: the start, else the goal.
pub fn bad_end(kinds: &[u8], start: usize, goal: usize) -> Result<(), usize>
    requires { (start < length kinds.now) × (goal < length kinds.now) }
    ensures { result ≡ ends_fit kinds.now start goal }
{
    if !routeable_kind(true, kinds[start]) {
        return Err(start);
    }
    if !routeable_kind(true, kinds[goal]) {
        return Err(goal);
    }
    Ok(())
}

// The defined search, with both ends routeable: its answer, its path, and all work memory cleared.
fn answer_fit(
    room: Room,
    config: RouterConfig,
    kinds: &[u8],
    start: usize,
    goal: usize,
    path: &mut [u32],
    known: &mut [u32],
    previous: &mut [u32],
    classes: &mut [u8],
    queue: &mut [u64],
) -> Result<Route, Unrouted>
    requires { Admitted room config kinds.now start goal (lengths_of path.old known.old previous.old classes.old queue.old) }
    ensures { Fitted (task_in room config kinds.now start goal (places_of queue.old)) path.old known.old previous.old classes.old queue.old result path.new known.new previous.new classes.new queue.new }
{
    let cells = room.volume();
    let outcome = search_room(
        room,
        config,
        kinds,
        start,
        goal,
        &mut known[..cells],
        &mut previous[..cells],
        &mut classes[..cells],
        queue,
    );
    lent::clear(path);
    let answer = answer_of(
        room,
        config,
        kinds,
        outcome,
        goal,
        &known[..cells],
        &previous[..cells],
        path,
    );
    clear_work(known, previous, classes, queue);
    answer
}

// An end is not routeable: every buffer is cleared.
fn refuse_end(
    cell: usize,
    path: &mut [u32],
    known: &mut [u32],
    previous: &mut [u32],
    classes: &mut [u8],
    queue: &mut [u64],
) -> Result<Route, Unrouted>
    ensures { (result ≡ Err (Unrouted.NotRouteable cell)) × Cleared path.old path.new × Cleared known.old known.new × Cleared previous.old previous.new × Cleared classes.old classes.new × Cleared queue.old queue.new }
{
    lent::clear(path);
    clear_work(known, previous, classes, queue);
    Err(Unrouted::NotRouteable(cell))
}

// The search from the start to the goal over a room of kinds: a route, or the number that is due. The path goes to the front
// of `path`; the others are work memory. See the promise in specs/Answers.antt.
pub fn astar_route(
    room: Room,
    config: RouterConfig,
    kinds: &[u8],
    start: usize,
    goal: usize,
    path: &mut [u32],
    known: &mut [u32],
    previous: &mut [u32],
    classes: &mut [u8],
    queue: &mut [u64],
) -> Result<Route, Unrouted>
    ensures { Promise (input room config kinds.now start goal (lengths_of path.old known.old previous.old classes.old queue.old)) path.old known.old previous.old classes.old queue.old result path.new known.new previous.new classes.new queue.new }
{
    let lengths = Lengths {
        path: path.len(),
        known: known.len(),
        previous: previous.len(),
        classes: classes.len(),
        queue: queue.len(),
    };
    judge(room, config, kinds, start, goal, lengths)?;
    if let Err(cell) = bad_end(kinds, start, goal) {
        return refuse_end(cell, path, known, previous, classes, queue);
    }
    answer_fit(
        room, config, kinds, start, goal, path, known, previous, classes, queue,
    )
}
