// The tree of one net, from the bytes of a job sheet: the public entry.
#![tactic(auto)]

mod entry; // entry.rt: the order of judgement, and what is lent
mod memory; // memory.rt: lent work memory
mod job; // job.rt: an accepted job, over work memory of exactly V cells

pub use entry::{clear_work, route_net_tree};
pub use job::{grow_job, plant};
pub use memory::Memory;

// A routed tree: how many cells it occupies, how many repeaters it has, and its branches' lengths in sheet order.
#[derive(Clone, Copy)]
pub struct Tree {
    pub occupied: usize,
    pub repeaters: usize,
    pub lengths: branches::BranchLengths,
}

// Why there is no tree: the number that is due, and its detail. A number and no `numbers::Refusal`, since `stop-of` and the
// theorems on it speak of the numbers of outcomes.
#[derive(Clone, Copy)]
pub struct Refused {
    pub number: u32,
    pub detail: usize,
}

// The lengths of the lent buffers.
#[derive(Clone, Copy)]
pub struct Lengths {
    pub branches: usize,
    pub occupied: usize,
    pub repeaters: usize,
    pub kinds: usize,
    pub blocked: usize,
    pub classes: usize,
    pub joinable: usize,
    pub known: usize,
    pub previous: usize,
    pub path: usize,
    pub best: usize,
    pub queue: usize,
}
