// Runs every sheet of the stored answers through `route_net_tree` and compares number, detail, branches, occupied cells, repeaters
// and all lent memory, at several lengths of the buffers.
#![tactic(auto)]

mod judging;
mod replay;
mod running;
mod sheets;
mod tallies;

use crate::tallies::{Comparison, Tally};
use input_bytes::read_full;
use std::{fs, io};
use stored::memory::{FILE_LENGTH, QUEUE_LENGTH, file_buffer};

// A line for each number that is met. Both programs have it: no clause can say what it prints, so no crate gives it out.
fn print_numbers(rt: &impl Print, met: [u32; 16]) -> io::Result<()> {
    for (number, count) in met.iter().enumerate() {
        if *count != 0 {
            println!(rt; "number {number}: {count}")?;
        }
    }
    Ok(())
}

fn word_for(comparison: Comparison) -> &'static str {
    match comparison {
        Comparison::Exact => "buffers of exactly V cells",
        Comparison::Longer => "longer buffers",
        Comparison::BranchFull => "branch buffer exactly full",
        Comparison::BranchShort => "branch buffer one cell short",
        Comparison::Queue => "least queue, and one place less",
    }
}

// A line for each kind of comparison, with the first sheet that differs, if any does.
fn print_comparisons(rt: &impl Print, tally: Tally) -> io::Result<()> {
    for comparison in Comparison::ALL {
        let word = word_for(comparison);
        let count = tally.counts[comparison as usize];
        print!(rt;
            "{word}: {} sheets, {} differ",
            count.compared, count.differ
        )?;
        if let Some(first) = count.first {
            print!(rt; ", the first is sheet {first}")?;
        }
        println!(rt)?;
    }
    Ok(())
}

fn print_tally(rt: &impl Print, tally: Tally, whole: bool) -> io::Result<()> {
    println!(rt; "sheets {}", tally.sheets)?;
    print_numbers(rt, tally.met)?;
    print_comparisons(rt, tally)?;
    if !whole {
        println!(rt; "the file does not end there")?;
    }
    Ok(())
}

// Reads the whole file.
fn main(rt: HostRuntime) -> io::Result<()> {
    let name = "sheets.bin";
    let mut from = match fs::open(&rt, name) {
        Ok(from) => from,
        Err(error) => return eprintln!(rt; "{name}: {error}"),
    };
    let mut file = file_buffer();
    let bytes = read_full(&mut from, &mut file)?;
    let mut queue = [0u64; QUEUE_LENGTH];
    let stand = replay::replay(&file[..bytes], &mut queue);
    // the file ends with the last record, and within the buffer that it was read into
    print_tally(&rt, stand.tally, bytes < FILE_LENGTH && stand.at == bytes)
}
