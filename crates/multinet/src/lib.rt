// The tree of one net.
#![tactic(auto)]

mod adding; // adding.rt: a sink's route becomes a branch of the tree
mod finishing; // finishing.rt: what a tree occupies, and its repeaters
mod growing; // growing.rt: one sink after another

pub use finishing::finish_tree;
pub use growing::grow_tree;

// A number that is due for a sink: 13 with the cells that its search had expanded, 14 with its approach, 15 with its place in
// the sheet, from 1.
#[derive(Clone, Copy)]
pub enum Stop {
    QueueFull(room::Nodes),
    NoGoal(usize),
    BufferFull(usize),
}

// A sink that has a branch of so many cells.
#[derive(Clone, Copy)]
pub struct Grown {
    pub sink: usize,
    pub length: usize,
}

// A sink for which a number is due at its turn.
#[derive(Clone, Copy)]
pub struct Stopped {
    pub stop: Stop,
    pub sink: usize,
}

// The growth's early end: the sink at whose turn a number was due, and the lengths of the branches before it.
#[derive(Clone, Copy)]
pub struct Early {
    pub stop: Stop,
    pub sink: usize,
    pub lengths: branches::BranchLengths,
}
