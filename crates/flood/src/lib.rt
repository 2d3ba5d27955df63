// Which cells free moves lead to from a start, and what stands against each move out of them, over any obstacle bytes: 0 where
// a cell may be entered, else a number that tells why not.
#![tactic(auto)]

mod marks; // marks.rt: the cells that free moves lead to
mod walls; // walls.rt: what stands against each move

pub use marks::flood;
pub use walls::{tell_walls, write_walls};

// What stands against a move is a byte and no enum: C reads it.

// Nothing stands against a move.
pub const ALLOWED: u8 = 0;

// It leads out of the room.
pub const OUTSIDE: u8 = 1;
