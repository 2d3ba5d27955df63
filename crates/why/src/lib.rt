// Why a search found no route: which cells lawful steps lead to, and what stands against each move out of them.
#![tactic(auto)]

mod obstacles; // obstacles.rt: what stands against entering each cell
mod why; // why.rt: the public question

pub use why::why_no_route;

// What becomes of the two outputs: three cases with nothing beside them, so neither an Option nor a Result.
#[derive(Clone, Copy)]
pub enum Outputs {
    Kept,
    Told,
    Zero,
}
