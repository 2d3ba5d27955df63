// Answers as other languages get them, a number and values; the promises of the exported functions are in specs/.
#![tactic(auto)]

mod plain_values; // plain_values.rt: the plain engine's
mod search_values; // search_values.rt: a search's
mod tree_values; // tree_values.rt: a tree's

pub use plain_values::{PLAIN_VALUES, tell_plain};
pub use search_values::{short_refusal, tell};
pub use tree_values::{TREE_VALUES, mode_of, short_number, tell_tree};
