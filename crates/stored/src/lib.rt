// What the programs that replay the oracle's stored answers have in common: reading a file of them, memory that is full of
// rubbish before a run and looked through behind it, and what every stored case is put to.
#![tactic(auto)]

pub mod memory; // memory.rt: rubbish, and what must stand in its place afterwards
pub mod file_places; // file_places.rt: what stands at a place of a stored file
pub mod runs; // runs.rt: what every stored case is put to
