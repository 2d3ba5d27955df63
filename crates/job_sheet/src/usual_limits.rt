// "A version 1 sheet means 12 and 8 throughout": the run limit and the tail limit of a job whose sheet carries none.
pub const USUAL_RUN: usize = 12;

pub const USUAL_TAIL: usize = 8;
