// "Why couldn't this sink be reached?": the tree of one net, and where a sink's turn stopped it, what may be said of that sink.
#![tactic(auto)]

mod entry; // entry.rt: the public question, over lent memory
mod growth; // growth.rt: the growth again, to the turn that stopped it
mod reason; // reason.rt: what is told of the sink that had that turn

pub use entry::why_no_goal;

// Why there is no tree; for numbers 13 and 14 also what may be said of the sink whose turn it was.
#[derive(Clone, Copy)]
pub struct Unrouted {
    pub refused: net_tree::Refused,
    pub told: Option<Told>,
}

// The net's ends, the lengths of the branches that it has when its growth stops, the sink whose turn it is, and whether number
// 14 is due for it.
#[derive(Clone, Copy)]
pub struct Stopping {
    pub source: usize,
    pub taps: ends::Taps,
    pub lengths: branches::BranchLengths,
    pub sink: usize,
    pub unreached: bool,
}

// A sink's place in the sheet, from 1, and what may be said of it: 1 its approach is taken, 2 it is shut in, 3 conflicts, 4 the
// search was cut short. The verdict is a number, as `verdict_for` has it and C reads it.
#[derive(Clone, Copy)]
pub struct Told {
    pub place: usize,
    pub verdict: u32,
}
