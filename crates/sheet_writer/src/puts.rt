// The bytes of a sheet, put one after another: of each number its low byte, so that nothing is asked of the numbers. In a job
// without fault these are the numbers themselves. What is put is in the version that is written.
ghost use Rattle.std.specs.Prelude.{◌≡◌, [], ◌∷◌, ◌+◌, ◌%◌, ◌≤◌, length, drop, take};
ghost use Rattle.putting.specs.Putting.{Put, Fits};
ghost use Rattle.job_sheet.specs.Sheet.{max_sinks, two, four, coordinate, sides, costs, position, block, endpoint, limit, sink};
ghost use Rattle.sheet_writer.specs.Writer.{block_numbers, numbers_for, block_from, low};
ghost use Rattle.sheet_writer.specs.JobParts.{parts_in};
ghost use Rattle.sheet_writer.specs.Texts.{bytes_from, records_text, list_text, ends_text, sinks_text, head_text, lists_text, sheet_text};

use crate::listed::{number, position_from, wide};
use crate::{JobParts, Lists, Records};
use job_sheet::{Endpoint, Sink, Sinks, Version};
use putting::put_bytes;
use room::{Pos, RouterConfig, as_index};

// The low byte of a number.
fn low_byte(n: usize) -> u8
    ensures { result ≡ n % 256 }
{
    (n % 256) as u8
}

// In one byte.
fn put_one(out: &mut [u8], at: usize, n: usize) -> usize
    requires { Fits out.old at (low (n ∷ [])) }
    ensures { Put out.old at (low (n ∷ [])) out.new result }
{
    let bytes = [low_byte(n)];
    put_bytes(out, at, &bytes)
}

// "Big-endian", in two bytes.
fn put_two(out: &mut [u8], at: usize, n: usize) -> usize
    requires { Fits out.old at (low (two n)) }
    ensures { Put out.old at (low (two n)) out.new result }
{
    let bytes = [low_byte(n / 256), low_byte(n % 256)];
    put_bytes(out, at, &bytes)
}

// In four bytes.
fn put_four(out: &mut [u8], at: usize, n: usize) -> usize
    requires { Fits out.old at (low (four n)) }
    ensures { Put out.old at (low (four n)) out.new result }
{
    let end = put_two(out, at, n / 65536);
    put_two(out, end, n % 65536)
}

// A side or a coordinate, in two bytes where it is long.
fn put_coordinate(out: &mut [u8], at: usize, long: bool, n: usize) -> usize
    requires { Fits out.old at (low (coordinate long n)) }
    ensures { Put out.old at (low (coordinate long n)) out.new result }
{
    if long {
        put_two(out, at, n)
    } else {
        put_one(out, at, n)
    }
}

// "x, y, z".
fn put_position(out: &mut [u8], at: usize, long: bool, p: Pos) -> usize
    requires { Fits out.old at (low (position long p)) }
    ensures { Put out.old at (low (position long p)) out.new result }
{
    let first = put_coordinate(out, at, long, p.x);
    let second = put_coordinate(out, first, long, p.y);
    put_coordinate(out, second, long, p.z)
}

// A limit, where limits are carried.
fn put_limit(out: &mut [u8], at: usize, limits: bool, n: usize) -> usize
    requires { Fits out.old at (low (limit limits n)) }
    ensures { Put out.old at (low (limit limits n)) out.new result }
{
    if limits { put_one(out, at, n) } else { at }
}

// "kind, facing" of a block, "port kind, facing" of an end.
fn put_codes(out: &mut [u8], at: usize, first: usize, facing: usize) -> usize
    requires { Fits out.old at (low (first ∷ facing ∷ [])) }
    ensures { Put out.old at (low (first ∷ facing ∷ [])) out.new result }
{
    let bytes = [low_byte(first), low_byte(facing)];
    put_bytes(out, at, &bytes)
}

// "node two bytes, x, y, z, kind, facing": the block whose numbers begin at a place.
fn put_block(out: &mut [u8], at: usize, long: bool, numbers: &[u16], place: usize) -> usize
    requires block_numbers_in_bounds { place + block_numbers ≤ length numbers.now }
    requires fits { Fits out.old at (low (block long (block_from (drop place numbers.now)))) }
    ensures { Put out.old at (low (block long (block_from (drop place numbers.now)))) out.new result }
{
    let node = wide(number(numbers, place, 0));
    let p = position_from(numbers, place, 1);
    let kind = wide(number(numbers, place, 4));
    let facing = wide(number(numbers, place, 5));
    let noded = put_two(out, at, node);
    let placed = put_position(out, noded, long, p);
    put_codes(out, placed, kind, facing)
}

// "x, y, z, port kind, facing".
fn put_endpoint(out: &mut [u8], at: usize, long: bool, end: Endpoint) -> usize
    requires { Fits out.old at (low (endpoint long end)) }
    ensures { Put out.old at (low (endpoint long end)) out.new result }
{
    let placed = put_position(out, at, long, end.at);
    put_codes(out, placed, end.port as usize, end.facing as usize)
}

// "sinks as the source", "the tail limit follows the sink's facing".
fn put_sink(out: &mut [u8], at: usize, version: Version, end: Sink) -> usize
    requires { Fits out.old at (low (sink version end)) }
    ensures { Put out.old at (low (sink version end)) out.new result }
{
    let ended = put_endpoint(out, at, version.long, end.end);
    put_limit(out, ended, version.limits, end.tail)
}

// The record whose numbers begin at a place.
fn put_record(
    out: &mut [u8],
    at: usize,
    long: bool,
    records: Records,
    numbers: &[u16],
    place: usize,
) -> usize
    requires records_in_bounds { place + numbers_for records ≤ length numbers.now }
    requires fits { Fits out.old at (bytes_from long records (drop place numbers.now)) }
    ensures { Put out.old at (bytes_from long records (drop place numbers.now)) out.new result }
{
    match records {
        Records::Blocks => put_block(out, at, long, numbers, place),
        Records::Positions => put_position(out, at, long, position_from(numbers, place, 0)),
    }
}

// The records of a list, one after another.
fn put_records(out: &mut [u8], at: usize, long: bool, records: Records, numbers: &[u16]) -> usize
    requires { Fits out.old at (records_text long records numbers.now) }
    ensures { Put out.old at (records_text long records numbers.now) out.new result }
{
    let size = records.numbers();
    let mut end = at;
    for k in 0..numbers.len() / size {
        end = put_record(out, end, long, records, numbers, size * k);
    }
    end
}

// "lists with two-byte counts".
fn put_list(out: &mut [u8], at: usize, long: bool, records: Records, numbers: &[u16]) -> usize
    requires { Fits out.old at (list_text long records numbers.now) }
    ensures { Put out.old at (list_text long records numbers.now) out.new result }
{
    let size = records.numbers();
    let counted = put_two(out, at, numbers.len() / size);
    put_records(out, counted, long, records, numbers)
}

// The five lists.
fn put_lists(out: &mut [u8], at: usize, long: bool, lists: Lists) -> usize
    requires { Fits out.old at (lists_text long lists.blocks.now lists.conductors.now lists.clearances.now lists.terminals.now lists.reserved.now) }
    ensures { Put out.old at (lists_text long lists.entry.blocks.now lists.entry.conductors.now lists.entry.clearances.now lists.entry.terminals.now lists.entry.reserved.now) out.new result }
{
    let first = put_list(out, at, long, Records::Blocks, lists.blocks);
    let second = put_list(out, first, long, Records::Positions, lists.conductors);
    let third = put_list(out, second, long, Records::Positions, lists.clearances);
    let fourth = put_list(out, third, long, Records::Positions, lists.terminals);
    put_list(out, fourth, long, Records::Positions, lists.reserved)
}

// The sinks, one after another.
fn put_ends(out: &mut [u8], at: usize, version: Version, sinks: Sinks) -> usize
    requires count_le_max_sinks { sinks.count ≤ max_sinks }
    requires fits { Fits out.old at (ends_text version (take sinks.count sinks.ends)) }
    ensures { Put out.old at (ends_text version (take sinks.count sinks.ends)) out.new result }
{
    let mut end = at;
    for sink in &sinks.ends[..sinks.count] {
        end = put_sink(out, end, version, *sink);
    }
    end
}

// "one-byte sink count", and the sinks.
fn put_sinks(out: &mut [u8], at: usize, version: Version, sinks: Sinks) -> usize
    requires count_le_max_sinks { sinks.count ≤ max_sinks }
    requires fits { Fits out.old at (sinks_text version sinks) }
    ensures { Put out.old at (sinks_text version sinks) out.new result }
{
    let counted = put_one(out, at, sinks.count);
    put_ends(out, counted, version, sinks)
}

// "node limit, horizontal, stair, support cost (four bytes each)".
fn put_costs(out: &mut [u8], at: usize, config: RouterConfig) -> usize
    requires { Fits out.old at (low (costs config)) }
    ensures { Put out.old at (low (costs config)) out.new result }
{
    let first = put_four(out, at, as_index(config.limit.0));
    let second = put_four(out, first, as_index(config.horizontal.0));
    let third = put_four(out, second, as_index(config.stair.0));
    put_four(out, third, as_index(config.support.0))
}

impl JobParts<'_> {
    // "version byte, four-byte length of the rest, then X, Y, Z", the config, and the run limit.
    fn put_head(&self, out: &mut [u8], version: Version, rest: usize) -> usize
        requires { Fits out.old 0 (head_text version rest self.now.room self.now.config self.now.run) }
        ensures { Put out.old 0 (head_text version rest self.now.room self.now.config self.now.run) out.new result }
    {
        let versioned = put_one(out, 0, version.number as usize);
        let long = put_four(out, versioned, rest);
        let sides = Pos {
            x: self.room.wide,
            y: self.room.high,
            z: self.room.deep,
        };
        let sided = put_position(out, long, version.long, sides);
        let costed = put_costs(out, sided, self.config);
        put_limit(out, costed, version.limits, self.run)
    }

    // The whole sheet, whose rest behind the length has so many bytes.
    pub fn put_sheet(&self, out: &mut [u8], version: Version, rest: usize) -> usize
        requires count_le_max_sinks { self.now.sinks.count ≤ max_sinks }
        requires fits { Fits out.old 0 (sheet_text version rest (parts_in self.now)) }
        ensures { Put out.old 0 (sheet_text version rest (parts_in self.now)) out.new result }
    {
        let headed = self.put_head(out, version, rest);
        let listed = put_lists(out, headed, version.long, self.lists);
        let sourced = put_endpoint(out, listed, version.long, self.source);
        put_sinks(out, sourced, version, self.sinks)
    }
}
