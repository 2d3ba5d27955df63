// The public question, over lent memory.
ghost use Rattle.std.specs.Prelude.{◌≡◌, Err};
ghost use Rattle.lent.specs.Lent.{Cleared};
ghost use Rattle.room.specs.declared.Nodes.{Nodes};
ghost use Rattle.routing.specs.Answers.{input, lengths_of};
ghost use Rattle.why.specs.Why.{outputs_refused, memory, Promise};
ghost use Rattle.why.specs.Telling.{Tellable, WhyTold, outputs_for, Explained};

use crate::Outputs;
use crate::obstacles::fill_obstacles;
use room::{Room, RouterConfig};
use routing::{Refusal, Route, Unrouted};

// Number 6 is due since an output is too short, and neither 2 nor 3 before it.
fn outputs_refused(room: Room, config: RouterConfig, reached: usize, walls: usize) -> bool
    ensures { result ≡ outputs_refused room config reached walls }
{
    if !room.good() || !config.good(room) {
        return false;
    }
    let v = room.volume();
    reached < v || walls < 12 * v
}

// Both outputs are cleared, to their very end.
fn clear_outputs(reached: &mut [u8], walls: &mut [u8])
    ensures { Cleared reached.old reached.new × Cleared walls.old walls.new }
{
    lent::clear(reached);
    lent::clear(walls);
}

// The marks and the walls, zeros behind them. Of the search's work memory, which is zero, `classes` holds the obstacles and
// `path` the flood's line; both are cleared again.
fn tell(
    room: Room,
    kinds: &[u8],
    start: usize,
    goal: usize,
    path: &mut [u32],
    classes: &mut [u8],
    reached: &mut [u8],
    walls: &mut [u8],
)
    requires { Tellable room kinds.now start goal path.old classes.old reached.old walls.old }
    ensures { WhyTold room kinds.now start goal path.old classes.old reached.old walls.old path.new classes.new reached.new walls.new }
{
    let cells = room.volume();
    fill_obstacles(room, kinds, start, goal, &mut classes[..cells]);
    flood::tell_walls(
        room,
        &classes[..cells],
        start,
        &mut path[..cells],
        reached,
        walls,
    );
    lent::clear(path);
    lent::clear(classes);
}

// What becomes of the outputs.
fn outputs_for(answer: Result<Route, Unrouted>) -> Outputs
    ensures { result ≡ outputs_for answer }
{
    match answer {
        Ok(_) => Outputs::Zero,
        Err(Unrouted::Refused(_)) => Outputs::Kept,
        Err(Unrouted::NotRouteable(_)) => Outputs::Zero,
        Err(Unrouted::NoRoute(_)) => Outputs::Told,
        Err(Unrouted::LimitPassed(_)) => Outputs::Zero,
        Err(Unrouted::QueueFull(_)) => Outputs::Zero,
    }
}

// The outputs that go with an answer.
fn explain(
    answer: Result<Route, Unrouted>,
    room: Room,
    kinds: &[u8],
    start: usize,
    goal: usize,
    path: &mut [u32],
    classes: &mut [u8],
    reached: &mut [u8],
    walls: &mut [u8],
)
    requires { (x : Nodes) → answer ≡ Err (Unrouted.NoRoute x) → Tellable room kinds.now start goal path.old classes.old reached.old walls.old }
    ensures { Explained answer room kinds.now start goal path.old classes.old reached.old walls.old path.new classes.new reached.new walls.new }
{
    match outputs_for(answer) {
        Outputs::Kept => {}
        Outputs::Told => tell(room, kinds, start, goal, path, classes, reached, walls),
        Outputs::Zero => clear_outputs(reached, walls),
    }
}

// The search from the start to the goal; where it finds no route, `reached` marks the cells that lawful steps lead to from
// the start, and `walls` says what stands against each move out of them. See the promise in specs/Why.antt.
pub fn why_no_route(
    room: Room,
    config: RouterConfig,
    kinds: &[u8],
    start: usize,
    goal: usize,
    path: &mut [u32],
    known: &mut [u32],
    previous: &mut [u32],
    classes: &mut [u8],
    queue: &mut [u64],
    reached: &mut [u8],
    walls: &mut [u8],
) -> Result<Route, Unrouted>
    ensures { Promise (input room config kinds.now start goal (lengths_of path.old known.old previous.old classes.old queue.old)) (memory path.old known.old previous.old classes.old queue.old reached.old walls.old) result (memory path.new known.new previous.new classes.new queue.new reached.new walls.new) }
{
    if outputs_refused(room, config, reached.len(), walls.len()) {
        return Err(Unrouted::Refused(Refusal::Buffer));
    }
    let answer = routing::astar_route(
        room, config, kinds, start, goal, path, known, previous, classes, queue,
    );
    explain(
        answer, room, kinds, start, goal, path, classes, reached, walls,
    );
    answer
}
