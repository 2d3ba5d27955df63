// The job sheet through "a reader that holds the sheet's bytes and its place": a thin struct whose methods call functions
// over the bytes and the place, which the borrow checker covers. One reader goes from the front of a sheet to its end:
// `read_through` makes it, reads the head and hands it on to `read_body`. The records of the lists stay in the sheet's bytes,
// where they are judged.
#![tactic(auto)]

mod steps; // steps.rt: the reader's work over bytes and a place

ghost use Rattle.std.specs.Prelude.{◌≡◌, ◌+◌, ◌*◌, ◌<◌, ◌^◌, eqb, length, get_or, drop};
ghost use Rattle.job_sheet.specs.UsualLimits.{usual_run};
ghost use Rattle.job_sheet.specs.Version.{version_in, position_size, block_size, config_size, lists_place};
ghost use Rattle.job_sheet.specs.Sheet.{Read};
ghost use Rattle.job_sheet.specs.Places.{four_in, position_in, config_in, limit_in, endpoint_in, Listed, SourceListed, SinksListed, shaped};
ghost use Rattle.sheet_reader.specs.Reader.{Stands, onward, SidesListed, config_at, sinks_found, head_of, layout_found, body_of, PartsFound, found_of, AllFound, job_found};

use job_sheet::places::Layout;
use job_sheet::{
    Endpoint, Job, Judgement, Part, Reading, Sinks, Version, faults, places, versions,
};
use room::{Pos, Room, RouterConfig};

// The bytes of a list's count.
const LIST_COUNT_SIZE: usize = 2;

// The bytes of the sinks' count.
const SINKS_COUNT_SIZE: usize = 1;

// The sides, the config and the source have no count.
const NO_COUNT_SIZE: usize = 0;

// It stands on the sheet, at its end, or just off it. What is too short for a step leads it off, from where no step leads
// back: so it is not at the end, which refuses the sheet. What it reads past the end is 0, and is not used.
#[derive(Clone, Copy)]
pub struct Reader<'a> {
    pub sheet: &'a [u8],
    pub place: usize,
}

// What stands before the lists: "version byte, four-byte length of the rest, then X, Y, Z; node limit, horizontal, stair,
// support cost", and the run limit.
#[derive(Clone, Copy)]
struct Head {
    version: u8,
    rest: u32,
    room: Room,
    config: RouterConfig,
    run: usize,
}

// The lists, the source and the sinks, and whether the sheet ends right behind them.
#[derive(Clone, Copy)]
struct Body {
    layout: Layout,
    source: Endpoint,
    sinks: Sinks,
    whole: bool,
}

// All that a reader finds on its way through a sheet.
#[derive(Clone, Copy)]
struct Found {
    head: Head,
    body: Body,
}

impl<'a> Reader<'a> {
    // At the front of a sheet.
    pub fn new(sheet: &'a [u8]) -> Reader<'a>
        ensures { (result.sheet ≡ sheet.entry) × (result.place ≡ 0) }
    {
        Reader { sheet, place: 0 }
    }

    // The byte that stands here.
    pub fn byte(&self) -> u8
        requires { Stands self.now.sheet.now self.now.place }
        ensures { result ≡ get_or (drop self.now.place self.now.sheet.now) 0 0 }
    {
        places::byte(self.sheet, self.place, 0)
    }

    // The number whose four bytes stand here.
    pub fn four(&self) -> u32
        requires { Stands self.now.sheet.now self.now.place }
        ensures { result ≡ four_in (drop self.now.place self.now.sheet.now) 0 }
    {
        places::four_bytes(self.sheet, self.place, 0)
    }

    // "node limit, horizontal, stair, support cost (four bytes each)".
    pub fn config(&self) -> RouterConfig
        requires { Stands self.now.sheet.now self.now.place }
        ensures { result ≡ config_in (drop self.now.place self.now.sheet.now) }
    {
        places::config_at(self.sheet, self.place)
    }

    // The run limit, behind the config that begins here.
    pub fn run(&self) -> usize
        requires { Stands self.now.sheet.now self.now.place }
        ensures { result ≡ limit_in (version_in self.now.sheet.now).limits usual_run (drop self.now.place self.now.sheet.now) config_size }
    {
        steps::run(self.sheet, self.place)
    }

    // Where the config and the run limit stand, that begin here.
    pub fn config_list(&self) -> Part
        ensures { result ≡ config_at (version_in self.now.sheet.now) self.now.place }
    {
        steps::config_list(self.sheet, self.place)
    }

    // "X, Y, Z" or "x, y, z".
    pub fn position(&self) -> Pos
        requires { Stands self.now.sheet.now self.now.place }
        ensures { result ≡ position_in (version_in self.now.sheet.now).long (drop self.now.place self.now.sheet.now) 0 }
    {
        steps::position(self.sheet, self.place)
    }

    // Where the sides stand, that begin here.
    pub fn sides_list(&self) -> Part
        ensures { SidesListed (version_in self.now.sheet.now) self.now.place result }
    {
        steps::sides_list(self.sheet, self.place)
    }

    // The source.
    pub fn endpoint(&self) -> Endpoint
        requires { Stands self.now.sheet.now self.now.place }
        ensures { result ≡ endpoint_in (version_in self.now.sheet.now).long (drop self.now.place self.now.sheet.now) }
    {
        steps::endpoint(self.sheet, self.place)
    }

    // Where the source stands, that begins here.
    pub fn source_list(&self) -> Part
        ensures { SourceListed (version_in self.now.sheet.now) self.now.place result }
    {
        steps::source_list(self.sheet, self.place)
    }

    // The list of blocks whose two-byte count stands here.
    pub fn block_list(&self) -> Part
        requires { Stands self.now.sheet.now self.now.place }
        ensures { Listed self.now.sheet.now (version_in self.now.sheet.now).long (block_size (version_in self.now.sheet.now).long) self.now.place result }
    {
        steps::block_list(self.sheet, self.place)
    }

    // The list of positions whose two-byte count stands here.
    pub fn position_list(&self) -> Part
        requires { Stands self.now.sheet.now self.now.place }
        ensures { Listed self.now.sheet.now (version_in self.now.sheet.now).long (position_size (version_in self.now.sheet.now).long) self.now.place result }
    {
        steps::position_list(self.sheet, self.place)
    }

    // The sinks whose one-byte count stands here: where they stand.
    pub fn sinks_list(&self) -> Part
        requires { Stands self.now.sheet.now self.now.place }
        ensures { SinksListed (version_in self.now.sheet.now) self.now.sheet.now self.now.place result }
    {
        steps::sinks_list(self.sheet, self.place)
    }

    // The sinks whose one-byte count stands here: none where they are over sixteen, or the sheet is too short for them.
    pub fn sinks(&self) -> Sinks
        requires { Stands self.now.sheet.now self.now.place }
        ensures { result ≡ sinks_found self.now.sheet.now self.now.place }
    {
        steps::sinks(self.sheet, self.place)
    }

    // Moved on by `size` bytes; off the sheet where it has too few.
    pub fn past(self, size: usize) -> Reader<'a>
        ensures { (result.sheet ≡ self.entry.sheet) × (result.place ≡ onward self.entry.sheet.now self.entry.place size) }
    {
        Reader {
            sheet: self.sheet,
            place: steps::onward(self.sheet, self.place, size),
        }
    }

    // Moved on behind the part that stands here: its count, of `width` bytes, and its records; off the sheet where it has too
    // few.
    pub fn behind(self, width: usize, part: Part) -> Reader<'a>
        requires { width + part.size * part.count < 2 ^ 64 }
        ensures { (result.sheet ≡ self.entry.sheet) × (result.place ≡ onward self.entry.sheet.now self.entry.place (width + part.size * part.count)) }
    {
        Reader {
            sheet: self.sheet,
            place: steps::behind(self.sheet, self.place, width, part),
        }
    }

    // Whether nothing is left over and nothing was too short.
    pub fn at_end(&self) -> bool
        ensures { result ≡ eqb self.now.place (length self.now.sheet.now) }
    {
        steps::at_end(self.sheet, self.place)
    }
}

// What was read, put together: apart from `read_through`, whose proof by hand needs to know of it no more than its contract.
fn head_of(version: u8, rest: u32, sides: Pos, config: RouterConfig, run: usize) -> Head
    ensures { result ≡ head_of version rest sides config run }
{
    Head {
        version,
        rest,
        room: Room {
            wide: sides.x,
            high: sides.y,
            deep: sides.z,
        },
        config,
        run,
    }
}

// Where the parts were found.
fn layout_found(
    blocks: Part,
    conductors: Part,
    clearances: Part,
    terminals: Part,
    reserved: Part,
    source: Part,
    sinks: Part,
) -> Layout
    ensures { result ≡ layout_found blocks conductors clearances terminals reserved source sinks }
{
    Layout {
        blocks,
        conductors,
        clearances,
        terminals,
        reserved,
        source,
        sinks,
    }
}

// What was read, put together: apart from `read_body`, as `head_of` is from `read_through`.
fn body_of(layout: Layout, source: Endpoint, sinks: Sinks, whole: bool) -> Body
    ensures { result ≡ body_of layout source sinks whole }
{
    Body {
        layout,
        source,
        sinks,
        whole,
    }
}

// From a sheet's lists to its end, with the reader that has come to them.
fn read_body<'a>(reader: Reader<'a>) -> Body
    requires { reader.place ≡ onward reader.sheet.now 0 (lists_place (version_in reader.sheet.now)) }
    ensures { PartsFound reader.entry.sheet.now result }
{
    let blocks = reader.block_list();
    let reader = reader.behind(LIST_COUNT_SIZE, blocks);
    let conductors = reader.position_list();
    let reader = reader.behind(LIST_COUNT_SIZE, conductors);
    let clearances = reader.position_list();
    let reader = reader.behind(LIST_COUNT_SIZE, clearances);
    let terminals = reader.position_list();
    let reader = reader.behind(LIST_COUNT_SIZE, terminals);
    let reserved = reader.position_list();
    let reader = reader.behind(LIST_COUNT_SIZE, reserved);
    let stands = reader.source_list();
    let source = reader.endpoint();
    let reader = reader.behind(NO_COUNT_SIZE, stands);
    let listed = reader.sinks_list();
    let sinks = reader.sinks();
    let reader = reader.behind(SINKS_COUNT_SIZE, listed);
    let whole = reader.at_end();
    let layout = layout_found(
        blocks, conductors, clearances, terminals, reserved, stands, listed,
    );
    body_of(layout, source, sinks, whole)
}

// Head and body, put together: apart from `read_through`, as `head_of` is.
fn found_of(head: Head, body: Body) -> Found
    ensures { result ≡ found_of head body }
{
    Found { head, body }
}

// One reader from the front of a sheet to its end: it reads the head, and is handed on at the lists.
fn read_through(sheet: &[u8]) -> Found
    ensures { AllFound sheet.now result }
{
    let reader = Reader::new(sheet);
    let version = reader.byte();
    let reader = reader.past(1);
    let rest = reader.four();
    let reader = reader.past(4);
    let sides = reader.position();
    let stands = reader.sides_list();
    let reader = reader.behind(NO_COUNT_SIZE, stands);
    let config = reader.config();
    let run = reader.run();
    let settings = reader.config_list();
    let reader = reader.behind(NO_COUNT_SIZE, settings);
    let body = read_body(reader);
    let head = head_of(version, rest, sides, config, run);
    found_of(head, body)
}

// Number 1, over the whole sheet. A count past the end has led the reader off the sheet, so that it is not at the end.
fn shaped(sheet: &[u8], version: Version, found: Found) -> bool
    requires { (version ≡ version_in sheet.now) × AllFound sheet.now found }
    ensures { result ≡ shaped version sheet.now }
{
    places::shape_holds(
        sheet.len(),
        found.head.version,
        version.number,
        found.head.rest,
        found.body.layout.sinks.count,
        found.body.whole,
    )
}

// The job that was read.
fn job_found(found: Found) -> Job
    ensures { result ≡ job_found found }
{
    let room = found.head.room;
    let config = found.head.config;
    let run = found.head.run;
    let layout = found.body.layout;
    let blocks = layout.blocks;
    let conductors = layout.conductors;
    let clearances = layout.clearances;
    let terminals = layout.terminals;
    let reserved = layout.reserved;
    let source = found.body.source;
    let sinks = found.body.sinks;
    Job {
        room,
        config,
        run,
        blocks,
        conductors,
        clearances,
        terminals,
        reserved,
        source,
        sinks,
    }
}

// Reads a sheet through the reader: what it means, judged, or number 1 where it means nothing. The answer is that of the
// plain reading.
pub fn read_sheet(sheet: &[u8]) -> Reading
    ensures { Read sheet.now result }
{
    let version = versions::version_in(sheet);
    let found = read_through(sheet);
    if !shaped(sheet, version, found) {
        return job_sheet::refusal(Judgement::Sheet);
    }
    let judgement = faults::judge(sheet, version, found.body.layout);
    if !judgement.is_good() {
        return job_sheet::refusal(judgement);
    }
    Reading {
        judgement,
        job: job_found(found),
    }
}
