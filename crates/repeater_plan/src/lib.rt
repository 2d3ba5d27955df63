// The repeaters of a net in one call: its source, sinks, branches and limits are judged, then the runs of all sinks are planned
// and only then the tails.
#![tactic(auto)]

mod entry; // entry.rt: the public call
mod judge; // judge.rt: numbers 2 to 6

pub use entry::plan_net;

// Why a net has no plan: a number with its detail.
#[derive(Clone, Copy)]
pub struct Refused {
    pub number: u32,
    pub detail: usize,
}

// How long the lent slices are.
#[derive(Clone, Copy)]
pub struct Lengths {
    pub repeaters: usize,
    pub forbidden: usize,
    pub links: usize,
    pub parents: usize,
    pub line: usize,
}
