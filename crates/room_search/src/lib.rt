// The search over a room: what it takes to enter each cell, the moves tried from a cell, and the takings one after another.
#![tactic(auto)]

ghost use Rattle.room_search.specs.Fields.{FieldFits};

mod classes; // classes.rt: what it takes to enter each cell
mod expand; // expand.rt: the moves of a cell, each offered to the queue
mod idle; // idle.rt: the sides of a cell that are worth a try
mod search; // search.rt: the takings
mod waiting; // waiting.rt: the waiting entries, of one number each or of two

pub use classes::{
    OPEN, OPEN_WITH_SUPPORT, SHUT, class_for, fill_classes, kind_beneath, make_end, routeable_kind,
};
pub use search::search_classes;

// How many numbers of the queue hold an entry.
#[derive(Clone, Copy)]
pub enum Width {
    One,
    Two,
}

// How many entries wait, the last serial given, and how many numbers of the queue hold an entry.
#[derive(Clone, Copy)]
pub struct Line {
    pub waiting: usize,
    pub serial: u64,
    pub width: Width,
}

// The price of a step: the step alone, and a new support, 0 where none is laid.
#[derive(Clone, Copy)]
pub struct Price {
    pub step: room::Cost,
    pub support: room::Cost,
}

// A push found the queue full.
#[derive(Clone, Copy)]
pub struct QueueFull;

// A cell and its position.
#[derive(Clone, Copy)]
pub struct Spot {
    pub cell: usize,
    pub at: room::Pos,
}

// A cell, and the cost at which it is reached.
#[derive(Clone, Copy)]
struct Reached {
    spot: Spot,
    cost: room::Cost,
}

// What a search only reads: the room, what its steps cost, what it takes to enter each cell, and the goal.
#[derive(Clone, Copy)]
struct Field<'a> {
    room: room::Room,
    config: room::RouterConfig,
    classes: &'a [u8],
    goal: Spot,
    ghost fits: { FieldFits room config classes.now goal },
}

// What a search writes, all of it lent by its caller: each cell's known cost and the cell before it, the queue, and what
// waits in that.
#[derive(Drop)]
struct Work<'a> {
    known: &'a mut [u32],
    previous: &'a mut [u32],
    queue: &'a mut [u64],
    line: Line,
}

// How a search has ended, with the expanded count. Four variants with the same value: a struct of the count beside the
// end is no plainer, since a caller takes one end apart with its count, by one `let .. else`.
#[derive(Clone, Copy)]
pub enum Outcome {
    Arrived(room::Nodes),
    NoRoute(room::Nodes),
    LimitPassed(room::Nodes),
    QueueFull(room::Nodes),
}
