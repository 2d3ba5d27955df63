// One route drawn into a room of kinds: supports and wire along a path, then repeaters; both public functions judge what they
// are given before they touch it.
#![tactic(auto)]

mod judge; // judge.rt: numbers 2, 6, 5 and 4
mod repeating; // repeating.rt: insert_repeaters
mod told; // told.rt: both, told as numbers
mod wiring; // wiring.rt: materialize_route

pub use repeating::insert_repeaters;
pub use told::{insert_repeaters_told, materialize_route_told};
pub use wiring::materialize_route;
