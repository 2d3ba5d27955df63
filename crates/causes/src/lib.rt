// Why each cell is blocked at a sink's turn: one bit a reason.
#![tactic(auto)]

mod bits; // bits.rt: a bit added where cells are marked
mod reasons; // reasons.rt: reason by reason
mod telling; // telling.rt: all of them

pub use telling::tell_causes;
