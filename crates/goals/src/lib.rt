// The goals of one sink. "Each searches from its approach to every joinable cell in number order, at most 64 attempts a
// goal." The class bytes are changed in place and put back.
// What a turn writes stays slices, each a parameter: a struct that holds them, lent as `&mut self`, can't lend two of them to
// one call, since the check's borrow checker does not cover that.
#![tactic(auto)]

ghost use Rattle.std.specs.Prelude.{◌≡◌};
ghost use Rattle.goals.specs.declared.Unended.{Unended};

mod attempts; // attempts.rt: the attempts for one goal
mod cheapest; // cheapest.rt: the first strictly cheapest route is kept
mod one_search; // one_search.rt: the search for one goal
mod goal_by_goal; // goal_by_goal.rt: one goal after another
mod left; // left.rt: which goals are left, by their labels
mod labelled; // labelled.rt: goals tried by their labels
mod passing; // passing.rt: goals that can't win are not searched
mod to_tree; // to_tree.rt: the cheapest of all goals

pub use to_tree::route_to_tree;

// Whose turn it is: the ground that the tree grows on, what stands in its cells, and the sink's approach.
#[derive(Clone, Copy)]
pub struct Turn<'a> {
    pub ground: ground::Ground,
    pub kinds: &'a [u8],
    pub start: usize,
}

// A route: how many cells its path has, which stands at the front of a lent buffer, and what it costs.
#[derive(Clone, Copy)]
pub struct Found {
    pub length: usize,
    pub cost: room::Cost,
}

// A push found the queue full, behind so many expanded cells. That ends the tree.
#[derive(Clone, Copy)]
pub struct QueueFull(pub room::Nodes);

// What a goal comes to: a route, or none.
pub type Tried = Result<Option<Found>, QueueFull>;

// The route that is kept of the goals that are done, and its goal.
#[derive(Clone, Copy)]
pub struct Kept {
    pub found: Found,
    pub goal: usize,
}

// The lowest of some goals' bids, each the least that a route to it can cost and its number, as one number; its goal; and
// what the others bid at least.
#[derive(Clone, Copy)]
pub struct Bid {
    pub bid: u64,
    pub goal: usize,
    pub second: u64,
}

// Why an attempt does not end its goal: the conflict at a cell is to be blocked and the search to be repeated, or the queue
// was full.
#[derive(Clone, Copy)]
pub enum Unended {
    Conflict(usize),
    Full(QueueFull),
}

impl From<QueueFull> for Unended {
    ghost from_gives = { λ full unended. unended ≡ Unended.Full full };

    fn from(full: QueueFull) -> Unended {
        Unended::Full(full)
    }
}
