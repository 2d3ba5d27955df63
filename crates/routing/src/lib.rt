// One search over a room of kinds: its input is judged, its memory cleared, and its answer told.
#![tactic(auto)]

ghost use Rattle.std.specs.Prelude.{◌≡◌};
ghost use Rattle.routing.specs.declared.Unrouted.TheVariants.{Refused};

mod astar; // astar.rt: the public search
mod counts; // counts.rt: the totals of a path
pub mod judge; // judge.rt: numbers 2, 3, 6, 5 and 4

pub use astar::{astar_route, bad_end};

// A route: how many cells its path has, its cost in tenths, and how many cells were expanded; what its steps and its new
// supports come to in that cost, and how many supports are new.
#[derive(Clone, Copy)]
pub struct Route {
    pub length: usize,
    pub cost: room::Cost,
    pub expanded: room::Nodes,
    pub steps: room::Cost,
    pub supports: room::Cost,
    pub laid: usize,
}

// What the steps and the new supports of a path come to, and how many supports are new.
#[derive(Clone, Copy)]
pub struct Totals {
    pub steps: room::Cost,
    pub supports: room::Cost,
    pub laid: usize,
}

// The lengths of the lent buffers.
#[derive(Clone, Copy)]
pub struct Lengths {
    pub path: usize,
    pub known: usize,
    pub previous: usize,
    pub classes: usize,
    pub queue: usize,
}

// Why an input is refused before anything is touched: numbers 2, 3, 6, 5 and 4.
#[derive(Clone, Copy)]
pub enum Refusal {
    Sides,
    Config,
    Buffer,
    Code,
    Position,
}

// Why a search gives no route: a refusal; the end that is not routeable (10); or no route (11), the node limit passed (12),
// the queue full (13), each with the expanded count.
#[derive(Clone, Copy)]
pub enum Unrouted {
    Refused(Refusal),
    NotRouteable(usize),
    NoRoute(room::Nodes),
    LimitPassed(room::Nodes),
    QueueFull(room::Nodes),
}

impl From<Refusal> for Unrouted {
    ghost from_gives = { λ why e. e ≡ Refused why };

    fn from(why: Refusal) -> Unrouted {
        Unrouted::Refused(why)
    }
}
