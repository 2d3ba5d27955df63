// The writer told as numbers, for other languages: all of `dustroute_write_sheet` but its exported name.
ghost use Rattle.std.specs.Prelude.{◌≡◌, [], ◌∷◌, ◌+◌, ◌/◌, ◌≤◌, length, drop, leb};
ghost use Rattle.job_sheet.specs.Sheet.{max_sinks};
ghost use Rattle.sheet_writer.specs.Writer.{Promise};
ghost use Rattle.basics.specs.Tests.{either};
ghost use Rattle.sheet_writer.specs.Export.{room_of, config_of, end_numbers, end_from, sink_numbers, sink_from, sinks_from, ends_good, value_count, Told, parts_told};
ghost use Rattle.sheet_writer.specs.ExportLaws.{number_told, values_told, Fit};

use crate::listed::{code_of, number, position_from, wide};
use crate::{ENDPOINT_NUMBERS, SINK_NUMBERS, write_sheet};
use job_sheet::{Endpoint, MAX_SINKS, Sink, Sinks};
use numbers::Refusal;
use room::{Cost, Nodes, Room, RouterConfig, as_index};

// How many values a writing comes to: its detail, and how many bytes were written.
const VALUES: usize = 2;

// "x, y, z, port, facing": the end whose numbers begin at a place.
pub fn end_from(numbers: &[u16], place: usize) -> Endpoint
    requires { place + end_numbers ≤ length numbers.now }
    ensures { result ≡ end_from (drop place numbers.now) }
{
    Endpoint {
        at: position_from(numbers, place, 0),
        port: code_of(number(numbers, place, 3)),
        facing: code_of(number(numbers, place, 4)),
    }
}

// "x, y, z, port, facing, tail limit": the sink whose numbers begin at a place.
fn sink_from(numbers: &[u16], place: usize) -> Sink
    requires { place + sink_numbers ≤ length numbers.now }
    ensures { result ≡ sink_from (drop place numbers.now) }
{
    Sink {
        end: end_from(numbers, place),
        tail: wide(number(numbers, place, 5)),
    }
}

// The sinks of a list of numbers, with their count.
pub fn sinks_of(numbers: &[u16]) -> Sinks
    requires { length numbers.now / sink_numbers ≤ max_sinks }
    ensures { result ≡ sinks_from numbers.now }
{
    let count = numbers.len() / SINK_NUMBERS;
    let mut ends = [job_sheet::no_sink(); MAX_SINKS];
    for k in 0..count {
        ends[k] = sink_from(numbers, SINK_NUMBERS * k);
    }
    Sinks { count, ends }
}

// Number 1 is due where this is false: of how many numbers tell the source, and how many the sinks.
#[tactic(auto, unfolding(crate::specs::Export::ends_good))]
fn ends_good(source: usize, sinks: usize) -> bool
    ensures { result ≡ ends_good source sinks }
{
    source == ENDPOINT_NUMBERS && sinks % SINK_NUMBERS == 0 && sinks / SINK_NUMBERS <= MAX_SINKS
}

// Writes a success' values and returns the number. A refusal writes nothing.
fn tell(writing: Result<usize, Refusal>, values: &mut [u64]) -> u32
    requires { Fit writing values.old }
    ensures value { result ≡ number_told writing }
    ensures values_after { values.new ≡ values_told writing values.old }
{
    match writing {
        Ok(bytes) => {
            lent::write_two(values, 0, bytes as u64);
            numbers::DONE_NUMBER
        }
        Err(why) => why.number(),
    }
}

// So much of the output is lent as the values allow: none where they are too few.
fn lent_bytes(sheet: usize, values: usize) -> usize
    ensures { result ≡ either (leb value_count values) sheet 0 }
{
    if values < VALUES { 0 } else { sheet }
}

// The sheet of a job's parts, all told as numbers, as `write_sheet`: the number comes back, 0 for a sheet that was written; the
// bytes go to the front of `sheet`, how many they are to the second of `values`. See the promise in specs/Export.antt.
pub fn write_sheet_told(
    wide: usize,
    high: usize,
    deep: usize,
    limit: u32,
    horizontal: u32,
    stair: u32,
    support: u32,
    run: u32,
    blocks: &[u16],
    conductors: &[u16],
    clearances: &[u16],
    terminals: &[u16],
    reserved: &[u16],
    source: &[u16],
    sinks: &[u16],
    sheet: &mut [u8],
    values: &mut [u64],
) -> u32
    ensures { Told (parts_told wide high deep limit horizontal stair support run blocks.now conductors.now clearances.now terminals.now reserved.now source.now sinks.now) (ends_good (length source.now) (length sinks.now)) sheet.old values.old result sheet.new values.new }
{
    if !ends_good(source.len(), sinks.len()) {
        return numbers::SHEET_NUMBER;
    }
    let room = Room { wide, high, deep };
    let config = RouterConfig {
        limit: Nodes(limit),
        horizontal: Cost(horizontal),
        stair: Cost(stair),
        support: Cost(support),
    };
    let lent = lent_bytes(sheet.len(), values.len());
    let writing = write_sheet(
        room,
        config,
        as_index(run),
        blocks,
        conductors,
        clearances,
        terminals,
        reserved,
        end_from(source, 0),
        sinks_of(sinks),
        &mut sheet[..lent],
    );
    tell(writing, values)
}
