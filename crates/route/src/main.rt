// Reads a job sheet from standard input, routes it, and prints the tree or the refusal. The whole input is read before
// anything is routed, and the whole answer stands in one buffer before anything is written: no answer is printed in part.
#![tactic(auto)]

mod lines; // lines.rt: the lines that are printed
mod printing; // printing.rt: from a sheet's bytes to the lines

ghost use Rattle.std.specs.Prelude.{◌≤◌, length};

use crate::printing::put_sheet;
use input_bytes::read_full;
use std::io;

// A byte more than a sheet may have, so that a longer input is seen to be longer.
const INPUT_BYTES: usize = 60001;

// The longest text: see `longest_text` in specs/Printed.antt.
const TEXT_BYTES: usize = 430248;

// Writes a line to standard error: what failed, and the system's words for it, without the number that `io::Error` puts behind
// them. Where that can't be written either, nothing is left to do.
fn tell(rt: &(impl Eprint + AllocGlobal), what: &str, error: &io::Error) {
    if let Ok(said) = format!(in rt.alloc(); "{error}") {
        let text = said.as_str();
        let words = match text.split_once(" (os error ") {
            Some((words, _)) => words,
            None => text,
        };
        let _ = eprintln!(rt; "{what}: {words}");
    }
}

// An input that can't be read to its end counts as an empty one, which number 1 refuses: no part of it is routed.
fn read_input(rt: &(impl Input + Eprint + AllocGlobal), sheet: &mut [u8]) -> usize
    ensures { result ≤ length sheet.new }
{
    match read_full(&mut rt.reader(), sheet) {
        Ok(bytes) => bytes,
        Err(error) => {
            tell(rt, "route: reading", &error);
            0
        }
    }
}

fn main(rt: HostRuntime) {
    let mut sheet = [0u8; INPUT_BYTES];
    let mut text = [0u8; TEXT_BYTES];
    let read = read_input(&rt, &mut sheet);
    let end = put_sheet(&sheet[..read], &mut text);
    if let Err(error) = rt.write_all(&text[..end]) {
        tell(&rt, "route: writing", &error);
    }
}
