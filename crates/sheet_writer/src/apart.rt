// A sheet taken apart: read, and its lists copied out as 16-bit numbers, as the writer takes them.
ghost use Rattle.std.specs.Prelude.{◌≡◌, ◌+◌, ◌*◌, ◌^◌, ◌%◌, ◌<◌, ◌≤◌, length, drop};
ghost use Rattle.lent.specs.Lent.{filled};
ghost use Rattle.putting.specs.Putting.{Put, Fits};
ghost use Rattle.job_sheet.specs.Sheet.{behind};
ghost use Rattle.sheet_writer.specs.Writer.{numbers_for};
ghost use Rattle.sheet_writer.specs.Apart.{numbers_in, list_in, Inside, lists_fit, lengths_lent, lists, TakesApart};

use crate::{BLOCK_NUMBERS, Lengths, POSITION_NUMBERS, Records};
use job_sheet::places::{block_from, position_from};
use job_sheet::{Job, Part};

// What comes of taking a sheet apart: the number, 0 where its lists were copied, and its job. No Result: `TakesApart` tells the
// job beside number 6 too.
#[derive(Clone, Copy)]
pub struct Taking {
    pub number: u32,
    pub job: Job,
}

// A number of a record, in sixteen bits.
fn short(n: usize) -> u16
    ensures { result ≡ n % 65536 }
{
    (n % 65536) as u16
}

// Puts numbers at a place, and answers the place behind them.
fn put_numbers(out: &mut [u16], at: usize, numbers: &[u16]) -> usize
    requires { Fits out.old at numbers.now }
    ensures { Put out.old at numbers.now out.new result }
{
    let end = at + numbers.len();
    out[at..end].copy_from_slice(numbers);
    end
}

// The record that begins at a place of the sheet, with long coordinates or not.
fn copy_record(
    out: &mut [u16],
    at: usize,
    sheet: &[u8],
    records: Records,
    long: bool,
    place: usize,
) -> usize
    requires place_bound { place + 9 < 2 ^ 64 }
    requires fits { Fits out.old at (numbers_in long records (drop place sheet.now)) }
    ensures { Put out.old at (numbers_in long records (drop place sheet.now)) out.new result }
{
    match records {
        Records::Blocks => {
            let b = block_from(sheet, long, place);
            let numbers = [
                b.node,
                short(b.at.x),
                short(b.at.y),
                short(b.at.z),
                short(b.kind as usize),
                short(b.facing as usize),
            ];
            put_numbers(out, at, &numbers)
        }
        Records::Positions => {
            let p = position_from(sheet, long, place, 0);
            let numbers = [short(p.x), short(p.y), short(p.z)];
            put_numbers(out, at, &numbers)
        }
    }
}

// The records of a part, one after another.
fn copy_records(out: &mut [u16], sheet: &[u8], records: Records, part: Part) -> usize
    requires part_in_bounds { behind part ≤ length sheet.now }
    requires fits { Fits out.old 0 (list_in records sheet.now part) }
    ensures { Put out.old 0 (list_in records sheet.now part) out.new result }
{
    let mut end: usize = 0;
    for k in 0..part.count {
        let place = part.from + part.size * k;
        end = copy_record(out, end, sheet, records, part.long, place);
    }
    end
}

// A list of the sheet, and zeros behind it.
fn copy_list(out: &mut [u16], sheet: &[u8], records: Records, part: Part)
    requires part_in_bounds { behind part ≤ length sheet.now }
    requires count_in_bounds { numbers_for records * part.count ≤ length out.old }
    ensures { out.new ≡ filled (list_in records sheet.now part) out.old }
{
    let end = copy_records(out, sheet, records, part);
    out[end..].fill(0);
}

// Whether the lists of a job find place: 6 is due where this is false.
#[tactic(auto, unfolding(crate::specs::Apart::lists_fit))]
fn lists_fit(job: Job, lent: Lengths) -> bool
    requires { Inside job }
    ensures { result ≡ lists_fit job lent }
{
    BLOCK_NUMBERS * job.blocks.count <= lent.blocks
        && POSITION_NUMBERS * job.conductors.count <= lent.conductors
        && POSITION_NUMBERS * job.clearances.count <= lent.clearances
        && POSITION_NUMBERS * job.terminals.count <= lent.terminals
        && POSITION_NUMBERS * job.reserved.count <= lent.reserved
}

// Takes a sheet apart: its job, and its lists as numbers, each to the front of its slice, with zeros behind it; or the number
// that is due, 1 to 5 as in the reader and 6 for a slice too short, and then nothing is touched. See the promise in
// specs/Apart.antt.
pub fn take_apart(
    sheet: &[u8],
    blocks: &mut [u16],
    conductors: &mut [u16],
    clearances: &mut [u16],
    terminals: &mut [u16],
    reserved: &mut [u16],
) -> Taking
    ensures { TakesApart sheet.now (lists blocks.old conductors.old clearances.old terminals.old reserved.old) result (lists blocks.new conductors.new clearances.new terminals.new reserved.new) }
{
    let reading = job_sheet::read_sheet(sheet);
    let judgement = reading.judgement;
    let job = reading.job;
    if !judgement.is_good() {
        return Taking {
            number: judgement.number(),
            job,
        };
    }
    let lent = Lengths {
        blocks: blocks.len(),
        conductors: conductors.len(),
        clearances: clearances.len(),
        terminals: terminals.len(),
        reserved: reserved.len(),
        sinks: 0,
    };
    if !lists_fit(job, lent) {
        return Taking {
            number: numbers::BUFFER_NUMBER,
            job,
        };
    }
    copy_list(blocks, sheet, Records::Blocks, job.blocks);
    copy_list(conductors, sheet, Records::Positions, job.conductors);
    copy_list(clearances, sheet, Records::Positions, job.clearances);
    copy_list(terminals, sheet, Records::Positions, job.terminals);
    copy_list(reserved, sheet, Records::Positions, job.reserved);
    Taking {
        number: numbers::DONE_NUMBER,
        job,
    }
}
