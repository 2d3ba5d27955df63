// The job sheet over plain bytes: a job's room, config, source and sinks are read into one value; its lists of records
// stay in the sheet's bytes and are read there, record by record.
#![tactic(auto)]

pub mod faults; // faults.rt: numbers 2 to 5
pub mod places; // places.rt: what stands at a place of a sheet, and number 1
pub mod usual_limits; // usual_limits.rt: the limits of a sheet that carries none
pub mod versions; // versions.rt: what a sheet's first byte says of its records

ghost use Rattle.std.specs.Prelude.{◌≡◌, ◌≤◌, ◌<◌, length, get_or};
ghost use Rattle.job_sheet.specs.Sheet.{max_sinks, is_good, number_of, no_endpoint, no_sink, no_part, sinks_of, behind, job_of, refused, Read};
ghost use Rattle.job_sheet.specs.Places.{no_block, no_position, blocks_in, positions_in, sinks_in, layout_in, contents_in, Shaped};

use places::Layout;
use room::{Cost, Nodes, Pos, Room, RouterConfig};

// The limits of a sheet, in every version.
pub const MAX_BYTES: usize = 60000;

pub const MAX_SINKS: usize = 16;

// What the version of a sheet means: its number, whether sides and coordinates are long, that is of two bytes and not one,
// whether limits are carried, and the ranges that its job is judged at.
#[derive(Clone, Copy)]
pub struct Version {
    pub number: u8,
    pub long: bool,
    pub limits: bool,
    pub ranges: Ranges,
}

// The longest side, the most cells, the highest node limit and the highest cost.
#[derive(Clone, Copy)]
pub struct Ranges {
    pub side: usize,
    pub cells: usize,
    pub nodes: u32,
    pub cost: u32,
}

// A list that stays in the sheet's bytes: its first record begins at `from`, and each takes `size` bytes, with long
// coordinates or not.
#[derive(Clone, Copy)]
pub struct Part {
    pub from: usize,
    pub count: usize,
    pub size: usize,
    pub long: bool,
}

// "node two bytes, x, y, z, kind, facing". Codes stay bytes: `judged` speaks of a sheet with any byte there.
#[derive(Clone, Copy)]
pub struct Block {
    pub node: u16,
    pub at: Pos,
    pub kind: u8,
    pub facing: u8,
}

// Where the source or a sink stands, and how it is joined.
#[derive(Clone, Copy)]
pub struct Endpoint {
    pub at: Pos,
    pub port: u8,
    pub facing: u8,
}

// A sink is an endpoint with its tail limit; its record need not be as long as the source's.
#[derive(Clone, Copy)]
pub struct Sink {
    pub end: Endpoint,
    pub tail: usize,
}

// "The sixteen sinks with their count travel as one value": no heap.
#[derive(Clone, Copy)]
pub struct Sinks {
    pub count: usize,
    pub ends: [Sink; MAX_SINKS],
}

// What a sheet says; `run` is the run limit. Its lists are told by where they stand.
#[derive(Clone, Copy)]
pub struct Job {
    pub room: Room,
    pub config: RouterConfig,
    pub run: usize,
    pub blocks: Part,
    pub conductors: Part,
    pub clearances: Part,
    pub terminals: Part,
    pub reserved: Part,
    pub source: Endpoint,
    pub sinks: Sinks,
}

// What a sheet comes to: accepted, or the first of numbers 1 to 5 that is due.
#[derive(Clone, Copy)]
pub enum Judgement {
    Good,
    Sheet,
    Sides,
    Config,
    Position,
    Code,
}

// What comes of a sheet: its job where it is accepted, else zeros.
#[derive(Clone, Copy)]
pub struct Reading {
    pub judgement: Judgement,
    pub job: Job,
}

impl Judgement {
    // The number that comes back, 0 for none.
    pub fn number(self) -> u32
        ensures { result ≡ number_of self }
    {
        match self {
            Judgement::Good => numbers::DONE_NUMBER,
            Judgement::Sheet => numbers::SHEET_NUMBER,
            Judgement::Sides => numbers::SIDES_NUMBER,
            Judgement::Config => numbers::CONFIG_NUMBER,
            Judgement::Position => numbers::POSITION_NUMBER,
            Judgement::Code => numbers::CODE_NUMBER,
        }
    }

    // No number is due.
    pub fn is_good(self) -> bool
        ensures { result ≡ is_good self }
    {
        matches!(self, Judgement::Good)
    }
}

pub fn no_endpoint() -> Endpoint
    ensures { result ≡ no_endpoint }
{
    Endpoint {
        at: Pos { x: 0, y: 0, z: 0 },
        port: 0,
        facing: 0,
    }
}

// What stands in a place of `Sinks` that no sink takes.
pub fn no_sink() -> Sink
    ensures { result ≡ no_sink }
{
    Sink {
        end: no_endpoint(),
        tail: 0,
    }
}

// A list of none.
pub fn no_part() -> Part
    ensures { result ≡ no_part }
{
    Part {
        from: 0,
        count: 0,
        size: 0,
        long: false,
    }
}

// The sinks of a part, with their count.
pub fn sinks_from(sheet: &[u8], version: Version, part: Part) -> Sinks
    requires { (part.count ≤ max_sinks) × (behind part ≤ length sheet.now) }
    ensures { result ≡ sinks_of (sinks_in version sheet.now part) }
{
    let from = part.from;
    let count = part.count;
    let size = part.size;
    let mut ends = [no_sink(); MAX_SINKS];
    for k in 0..count {
        ends[k] = places::sink_from(sheet, version, from + size * k);
    }
    Sinks { count, ends }
}

fn job_from(sheet: &[u8], version: Version, layout: Layout) -> Job
    requires { (layout ≡ layout_in version sheet.now) × Shaped version sheet.now }
    ensures { result ≡ job_of version (contents_in version sheet.now) }
{
    let blocks = layout.blocks;
    let conductors = layout.conductors;
    let clearances = layout.clearances;
    let terminals = layout.terminals;
    let reserved = layout.reserved;
    Job {
        room: places::room_from(sheet, version.long),
        config: places::config_from(sheet, version),
        run: places::run_from(sheet, version),
        blocks,
        conductors,
        clearances,
        terminals,
        reserved,
        source: places::endpoint_from(sheet, version.long, layout.source.from),
        sinks: sinks_from(sheet, version, layout.sinks),
    }
}

// A refusal carries no job.
pub fn refusal(judgement: Judgement) -> Reading
    ensures { result ≡ refused judgement }
{
    let none = no_part();
    Reading {
        judgement,
        job: Job {
            room: Room {
                wide: 0,
                high: 0,
                deep: 0,
            },
            config: RouterConfig {
                limit: Nodes(0),
                horizontal: Cost(0),
                stair: Cost(0),
                support: Cost(0),
            },
            run: 0,
            blocks: none,
            conductors: none,
            clearances: none,
            terminals: none,
            reserved: none,
            source: no_endpoint(),
            sinks: Sinks {
                count: 0,
                ends: [no_sink(); MAX_SINKS],
            },
        },
    }
}

// Reads a sheet in the version of its first byte: what it means, judged, or number 1 where it means nothing.
pub fn read_sheet(sheet: &[u8]) -> Reading
    ensures { Read sheet.now result }
{
    let version = versions::version_in(sheet);
    let layout = places::layout_from(sheet, version);
    if !places::shaped(sheet, version, layout) {
        return refusal(Judgement::Sheet);
    }
    let judgement = faults::judge(sheet, version, layout);
    if !judgement.is_good() {
        return refusal(judgement);
    }
    Reading {
        judgement,
        job: job_from(sheet, version, layout),
    }
}

// Record i of a list of blocks.
pub fn block_at(sheet: &[u8], part: Part, i: usize) -> Block
    requires { (i < part.count) × (behind part ≤ length sheet.now) }
    ensures { result ≡ get_or (blocks_in sheet.now part) i no_block }
{
    places::block_from(sheet, part.long, part.from + part.size * i)
}

// Record i of a list of positions.
pub fn position_at(sheet: &[u8], part: Part, i: usize) -> Pos
    requires { (i < part.count) × (behind part ≤ length sheet.now) }
    ensures { result ≡ get_or (positions_in sheet.now part) i no_position }
{
    places::position_from(sheet, part.long, part.from + part.size * i, 0)
}
