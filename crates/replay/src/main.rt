// Runs every search of the stored answers and compares number, detail, path, cost, expanded count and all lent memory.
#![tactic(auto)]

mod compare;
mod replay;
mod searches;

use crate::replay::{Stand, replay};
use input_bytes::read_full;
use std::{fs, io};
use stored::memory::{FILE_LENGTH, QUEUE_LENGTH, file_buffer};

// A line for each number that is met. Both programs have it: no clause can say what it prints, so no crate gives it out.
fn print_numbers(rt: &impl Print, met: [u32; 16]) -> io::Result<()> {
    for (number, count) in met.iter().enumerate() {
        if *count != 0 {
            println!(rt; "number {number}: {count}")?;
        }
    }
    Ok(())
}

fn print_agreed(rt: &impl Print, stand: Stand) -> io::Result<()> {
    println!(rt; "searches {}", stand.searches)?;
    print_numbers(rt, stand.met)?;
    println!(rt; "comparisons {}", stand.runs)?;
    println!(rt; "all agree")
}

// A file that has not come to its end is told as such before all else: what was read of it says nothing of the rest.
fn print_outcome(rt: &impl Print, file: &[u8], ended: bool, stand: Stand) -> io::Result<()> {
    let searches = stand.searches;
    if !ended {
        return println!(rt; "the file does not end after search {searches}");
    }
    if !stand.agreed {
        return println!(rt; "differs at search {searches}");
    }
    if stand.at != file.len() {
        return println!(rt; "the file does not end after search {searches}");
    }
    print_agreed(rt, stand)
}

fn main(rt: HostRuntime) -> io::Result<()> {
    let name = "searches.bin";
    let mut from = match fs::open(&rt, name) {
        Ok(from) => from,
        Err(error) => return eprintln!(rt; "{name}: {error}"),
    };
    let mut file = file_buffer();
    let bytes = read_full(&mut from, &mut file)?;
    let mut queue = [0u64; QUEUE_LENGTH];
    let stand = replay(&file[..bytes], &mut queue);
    print_outcome(&rt, &file[..bytes], bytes < FILE_LENGTH, stand)
}
