// What a tree grows on. It goes through all functions of a tree as one value, so that a further part of it moves none of
// their heads.
#![tactic(auto)]

use room::{Room, RouterConfig};

// What blocked Air is to a search: Solid, as in the published router; or, strictly, a cell that is neither entered nor
// used as a support.
#[derive(Clone, Copy)]
pub enum Mode {
    Published,
    Strict,
}

// The room, what steps cost in it and how many cells a search may expand, the mode, and the run limit of the net's
// repeaters.
#[derive(Clone, Copy)]
pub struct Ground {
    pub room: Room,
    pub config: RouterConfig,
    pub mode: Mode,
    pub run: usize,
}
