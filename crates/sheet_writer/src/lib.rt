// A job sheet written from the parts of a job: its room, config, source and sinks by value, its lists as 16-bit numbers, six a
// block, three a position. What was written is read as those parts, and an accepted sheet's parts give its own bytes back
// where it is of its job's version, which is the lowest that tells the job; any other gives back the same job.
#![tactic(auto)]

mod apart; // apart.rt: a sheet taken apart into such lists
mod choice; // choice.rt: the version that is written
mod export; // export.rt: the writer told as numbers, for other languages
mod faults; // faults.rt: numbers 1 to 5
mod listed; // listed.rt: records among 16-bit numbers
mod puts; // puts.rt: the bytes of records and lists, put one after another

ghost use Rattle.std.specs.Prelude.{◌≡◌, false, ◌-◌, ◌≤◌, length};
ghost use Rattle.lent.specs.Lent.{filled};
ghost use Rattle.job_sheet.specs.Version.{sides_place};
ghost use Rattle.job_sheet.specs.Sheet.{max_sinks, is_good, number_of};
ghost use Rattle.sheet_writer.specs.Writer.{numbers_for, refusal_of, parts, Promise};
ghost use Rattle.sheet_writer.specs.Texts.{sheet_text, Filling};

pub use apart::{Taking, take_apart};
pub use export::{end_from, sinks_of, write_sheet_told};
use job_sheet::{Endpoint, Judgement, Sinks, Version};
use numbers::Refusal;
use room::{Room, RouterConfig};

// How many numbers a record takes in a list.
const BLOCK_NUMBERS: usize = 6;

const POSITION_NUMBERS: usize = 3;

const ENDPOINT_NUMBERS: usize = 5;

const SINK_NUMBERS: usize = 6;

// The sorts of records in a list.
#[derive(Clone, Copy)]
enum Records {
    Blocks,
    Positions,
}

// The lists of a job, as numbers.
#[derive(Clone, Copy)]
struct Lists<'a> {
    pub blocks: &'a [u16],
    pub conductors: &'a [u16],
    pub clearances: &'a [u16],
    pub terminals: &'a [u16],
    pub reserved: &'a [u16],
}

// The parts of a job, as they are lent to the writer. `whole` is what the type of the ends says, which proofs cannot read
// behind a `&`.
#[derive(Clone, Copy)]
struct JobParts<'a> {
    room: Room,
    config: RouterConfig,
    run: usize,
    lists: Lists<'a>,
    source: Endpoint,
    sinks: Sinks,
    ghost whole: { length sinks.ends ≡ max_sinks },
}

// How many numbers each list of a job has, and how many sinks there are.
#[derive(Clone, Copy)]
struct Lengths {
    pub blocks: usize,
    pub conductors: usize,
    pub clearances: usize,
    pub terminals: usize,
    pub reserved: usize,
    pub sinks: usize,
}

impl Records {
    // How many numbers each takes in a list.
    fn numbers(self) -> usize
        ensures { result ≡ numbers_for self }
    {
        match self {
            Records::Blocks => BLOCK_NUMBERS,
            Records::Positions => POSITION_NUMBERS,
        }
    }
}

impl JobParts<'_> {
    ghost use Rattle.sheet_writer.specs.JobParts.{parts_in};

    // The sheet of parts that have no fault, in its so many bytes, and zeros behind them.
    fn fill_sheet(&self, out: &mut [u8], version: Version, bytes: usize)
        requires count_le_max_sinks { self.now.sinks.count ≤ max_sinks }
        requires filling { Filling version bytes (parts_in self.now) out.old }
        ensures { out.new ≡ filled (sheet_text version (bytes - sides_place) (parts_in self.now)) out.old }
    {
        self.put_sheet(out, version, bytes - job_sheet::versions::SIDES);
        lent::clear(&mut out[bytes..]);
    }
}

// The refusal that a judgement comes to.
fn refusal_for(judgement: Judgement) -> Refusal
    requires { is_good judgement ≡ false }
    ensures { result ≡ refusal_of (number_of judgement) }
{
    match judgement {
        Judgement::Good => unreachable!(),
        Judgement::Sheet => Refusal::Sheet,
        Judgement::Sides => Refusal::Sides,
        Judgement::Config => Refusal::Config,
        Judgement::Position => Refusal::Position,
        Judgement::Code => Refusal::Code,
    }
}

// Writes the sheet of a job's parts: its bytes to the front of `out`, and zeros behind them, and answers how many they are; or
// the refusal that is due, and then `out` is untouched. See the promise in specs/Writer.antt.
pub fn write_sheet(
    room: Room,
    config: RouterConfig,
    run: usize,
    blocks: &[u16],
    conductors: &[u16],
    clearances: &[u16],
    terminals: &[u16],
    reserved: &[u16],
    source: Endpoint,
    sinks: Sinks,
    out: &mut [u8],
) -> Result<usize, Refusal>
    ensures { Promise (parts room config run blocks.now conductors.now clearances.now terminals.now reserved.now source sinks) out.old result out.new }
{
    let parts = JobParts {
        room,
        config,
        run,
        lists: Lists {
            blocks,
            conductors,
            clearances,
            terminals,
            reserved,
        },
        source,
        sinks,
    };
    let version = parts.version_for();
    let judgement = parts.judge(version);
    if !judgement.is_good() {
        return Err(refusal_for(judgement));
    }
    let bytes = faults::sheet_length(version, parts.lengths_of());
    if out.len() < bytes {
        return Err(Refusal::Buffer);
    }
    parts.fill_sheet(out, version, bytes);
    Ok(bytes)
}
