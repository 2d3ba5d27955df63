// The public plain engine, over lent memory.
ghost use Rattle.std.specs.Prelude.{◌≡◌, ◌≤◌, ◌<◌, length, replicate, Err};
ghost use Rattle.lent.specs.Lent.{Cleared};
ghost use Rattle.trace.specs.Traces.{PreviousInside};
ghost use Rattle.room.specs.Room.{max_volume};
ghost use Rattle.plain.specs.Answers.{input_of, Promise};
ghost use Rattle.plain.specs.Entry.{RoomReady, RoomSettled, RestShown, Admits, Fitted};

use crate::sweep::{count_known, settle};
use crate::{Errand, PlainRoute, PlainUnrouted, Reached};
use room::{Cost, Nodes, Room, RouterConfig};
use room_search::{fill_classes, make_end};
use routing::judge::judge;
use routing::{Lengths, bad_end};

// A queue of one place, that 6 is never due for: no sweep uses it.
const UNUSED_QUEUE: usize = 2;

// Sweeps over memory of exactly V cells, whatever it holds; gives how many were made.
fn settle_room(
    errand: Errand,
    kinds: &[u8],
    known: &mut [u32],
    previous: &mut [u32],
    classes: &mut [u8],
) -> usize
    requires { RoomReady errand kinds.now known.old previous.old classes.old }
    ensures { RoomSettled errand kinds.now known.new previous.new result }
{
    let room = errand.room;
    fill_classes(room, kinds, classes);
    make_end(room, kinds, classes, errand.start);
    make_end(room, kinds, classes, errand.goal);
    settle(errand, classes, known, previous)
}

// What costs at rest answer; the path goes to a cleared buffer.
fn answer_of(
    goal: usize,
    known: &[u32],
    previous: &[u32],
    path: &mut [u32],
) -> Result<PlainRoute, PlainUnrouted>
    requires goal_in_bounds { (goal < length previous.now) × (length previous.now ≤ max_volume) × (length known.now ≡ length previous.now) × (length previous.now ≤ length path.old) }
    requires previous_inside { PreviousInside previous.now }
    requires path_value { path.old ≡ replicate (length path.old) 0 }
    ensures { RestShown goal known.now previous.now path.old result path.new }
{
    let noted = known[goal];
    if noted == 0 {
        return Err(PlainUnrouted::NoRoute(Reached(count_known(known))));
    }
    let length = trace::path_to(previous, goal, path);
    Ok(PlainRoute {
        length: length,
        cost: Cost(noted - 1),
    })
}

// Work memory is cleared, to its very end.
fn clear_work(known: &mut [u32], previous: &mut [u32], classes: &mut [u8])
    ensures { Cleared known.old known.new × Cleared previous.old previous.new × Cleared classes.old classes.new }
{
    lent::clear(known);
    lent::clear(previous);
    lent::clear(classes);
}

// Both ends are routeable: the sweeps, their answer and its path, and all work memory cleared.
fn answer_fit(
    errand: Errand,
    kinds: &[u8],
    path: &mut [u32],
    known: &mut [u32],
    previous: &mut [u32],
    classes: &mut [u8],
) -> Result<PlainRoute, PlainUnrouted>
    requires { Admits errand kinds.now path.old known.old previous.old classes.old }
    ensures { Fitted errand kinds.now path.old known.old previous.old classes.old result path.new known.new previous.new classes.new }
{
    let room = errand.room;
    let cells = room.volume();
    settle_room(
        errand,
        kinds,
        &mut known[..cells],
        &mut previous[..cells],
        &mut classes[..cells],
    );
    lent::clear(path);
    let answer = answer_of(errand.goal, &known[..cells], &previous[..cells], path);
    clear_work(known, previous, classes);
    answer
}

// An end is not routeable: every buffer is cleared.
fn refuse_end(
    cell: usize,
    path: &mut [u32],
    known: &mut [u32],
    previous: &mut [u32],
    classes: &mut [u8],
) -> Result<PlainRoute, PlainUnrouted>
    ensures { (result ≡ Err (PlainUnrouted.NotRouteable cell)) × Cleared path.old path.new × Cleared known.old known.new × Cleared previous.old previous.new × Cleared classes.old classes.new }
{
    lent::clear(path);
    clear_work(known, previous, classes);
    Err(PlainUnrouted::NotRouteable(cell))
}

// A cheapest route from the start to the goal over a room of kinds, by sweeps: a route, or the number that is due. The path
// goes to the front of `path`; the others are work memory. See the promise in specs/PlainAnswers.antt.
pub fn plain_route(
    room: Room,
    horizontal: Cost,
    stair: Cost,
    support: Cost,
    kinds: &[u8],
    start: usize,
    goal: usize,
    path: &mut [u32],
    known: &mut [u32],
    previous: &mut [u32],
    classes: &mut [u8],
) -> Result<PlainRoute, PlainUnrouted>
    ensures { Promise (input_of room horizontal stair support kinds.now start goal path.old known.old previous.old classes.old) path.old known.old previous.old classes.old result path.new known.new previous.new classes.new }
{
    let config = RouterConfig {
        limit: Nodes(0),
        horizontal: horizontal,
        stair: stair,
        support: support,
    };
    let lengths = Lengths {
        path: path.len(),
        known: known.len(),
        previous: previous.len(),
        classes: classes.len(),
        queue: UNUSED_QUEUE,
    };
    judge(room, config, kinds, start, goal, lengths)?;
    if let Err(cell) = bad_end(kinds, start, goal) {
        return refuse_end(cell, path, known, previous, classes);
    }
    let errand = Errand {
        room: room,
        config: config,
        start: start,
        goal: goal,
    };
    answer_fit(errand, kinds, path, known, previous, classes)
}
