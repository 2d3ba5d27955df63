// What may be said of a sink that could not be reached: where wire gets to from its approach, and what stands against it.
#![tactic(auto)]

mod obstacles; // obstacles.rt: what stands against entering each cell
mod sink; // sink.rt: what may be said of one sink

pub use sink::tell_sink;

// The verdicts are numbers: `verdict_for` and the theorems on it speak of them, and C reads them.

// No search may begin at the approach.
pub const APPROACH_TAKEN: u32 = 1;

// No joinable cell is reached from the approach.
pub const SHUT_IN: u32 = 2;

// Wire gets to a joinable cell, and no search was cut short.
pub const ONLY_CONFLICTS: u32 = 3;

// A search was cut short.
pub const CUT_SHORT: u32 = 4;
