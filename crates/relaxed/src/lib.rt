// The least that any route of a sink's turn can cost, for all of its goals at once. One search from the sink's approach,
// without a goal and with supports that cost nothing, over every cell that some search of the turn may enter, labels each
// cell with its cost. The labels are then looked at step by step: where no step undercuts one, no way is cheaper than its
// goal's label, however they were found.
#![tactic(auto)]

mod opening; // opening.rt: the cells that some search of the turn may enter
mod check; // check.rt: whether no step undercuts a label
mod labelling; // labelling.rt: the turn's labels

pub use labelling::label_cells;
