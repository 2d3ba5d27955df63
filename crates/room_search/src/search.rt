// The takings of one search, until the goal is taken, nothing waits, or a limit is met.
ghost use Rattle.std.specs.Prelude.{◌≡◌, ◌≤◌, ◌<◌};
ghost use Rattle.room.specs.Room.{Good};
ghost use Rattle.room_search.specs.TriedMoves.{Kept};
ghost use Rattle.room_search.specs.Takings.{Fresh, SearchRan, Takeable, TakingCame, spot_of, Searchable};

use crate::expand::estimate;
use crate::waiting::width_for;
use crate::{Field, Line, Outcome, QueueFull, Reached, Spot, Work};
use room::{Cost, Nodes, Room, RouterConfig};
use std::ops::ControlFlow;

// A cell with its position.
fn spot(room: Room, cell: usize) -> Spot
    requires { Good room }
    ensures { result ≡ spot_of room cell }
{
    Spot {
        cell,
        at: room.pos(cell),
    }
}

impl Work<'_> {
    // Takes the least entry and, unless its cell is the goal or the node limit is passed, tries the cell's moves.
    fn take_one(&mut self, field: &Field, expanded: Nodes) -> ControlFlow<Outcome>
        requires takeable { Takeable field.now self.old }
        requires expanded_le_limit { expanded.0 ≤ field.now.config.limit.0 }
        ensures kept { Kept self.old self.new }
        ensures came { TakingCame field.now self.old expanded.0 result self.new }
    {
        let cell = self.line.leave(self.queue) as usize;
        self.line.waiting -= 1;
        if cell == field.goal.cell {
            return ControlFlow::Break(Outcome::Arrived(expanded));
        }
        if field.config.limit.0 <= expanded.0 {
            return ControlFlow::Break(Outcome::LimitPassed(Nodes(expanded.0 + 1)));
        }
        let cost = Cost(self.known[cell] - 1);
        let from = Reached {
            spot: spot(field.room, cell),
            cost,
        };
        match self.expand(field, from) {
            Ok(()) => ControlFlow::Continue(()),
            Err(QueueFull) => ControlFlow::Break(Outcome::QueueFull(Nodes(expanded.0 + 1))),
        }
    }

    // One whole search over fresh memory: the start is known at cost 0 and waits, and entries are taken until it ends.
    fn take_all(&mut self, field: &Field, start: Spot) -> Outcome
        requires { Fresh field.now self.old start }
        ensures kept { Kept self.old self.new }
        ensures ran { SearchRan field.now.room field.now.config field.now.classes.now self.old.queue.now start field.now.goal result self.new.known.now self.new.previous.now }
    {
        self.known[start.cell] = 1;
        self.line.join(
            self.queue,
            estimate(start.at, field.goal.at),
            start.cell as u64,
        );
        self.line.waiting = 1;
        let mut expanded = Nodes(0);
        // no counting loop: it goes on while something waits
        while 0 < self.line.waiting {
            match self.take_one(field, expanded) {
                ControlFlow::Continue(()) => expanded = Nodes(expanded.0 + 1),
                ControlFlow::Break(outcome) => return outcome,
            }
        }
        Outcome::NoRoute(expanded)
    }
}

// Searches over the class bytes, from cleared memory on. C lends these slices apart, and its callers hand them on so.
pub fn search_classes(
    room: Room,
    config: RouterConfig,
    classes: &[u8],
    known: &mut [u32],
    previous: &mut [u32],
    queue: &mut [u64],
    start: usize,
    goal: usize,
) -> Outcome
    requires { Searchable room config classes.now known.old previous.old queue.old start goal }
    ensures { SearchRan room config classes.now queue.old (spot_of room start) (spot_of room goal) result known.new previous.new }
{
    lent::clear(known);
    lent::clear(previous);
    let field = Field {
        room,
        config,
        classes,
        goal: spot(room, goal),
    };
    let mut work = Work {
        known,
        previous,
        queue,
        line: Line {
            waiting: 0,
            serial: 0,
            width: width_for(room, config),
        },
    };
    work.take_all(&field, spot(room, start))
}
