// A function file: the lines that lay a room of kinds and facings in the game, written and read. Each of the two is there with
// an answer of its own, and told as numbers for other languages.
#![tactic(auto)]

mod words; // words.rt: the table of words, put into a buffer
mod lines; // lines.rt: numbers, states and lines
mod writing; // writing.rt: the whole text, written
mod guessing; // guessing.rt: which block a line is taken for
mod reading; // reading.rt: the whole text, read
mod told; // told.rt: both, told as numbers

pub use reading::read_function;
pub use told::{tell_read_function, tell_write_function};
pub use writing::write_function;

// Why a room isn't written: the refusals 2, 6, 5 and 18.
#[derive(Clone, Copy)]
pub enum WriteFault {
    Sides,
    Buffer,
    Code,
    Short,
}

// Why a text isn't read: the refusals 2, 6 and 19, with the number of the first bad line.
#[derive(Clone, Copy)]
pub enum ReadFault {
    Sides,
    Buffer,
    Bad(usize),
}

// The block that a line is taken for. Kinds and facings stay bytes: C lends them so.
#[derive(Clone, Copy)]
pub struct Guess {
    pub place: room::Pos,
    pub kind: u8,
    pub facing: u8,
}
