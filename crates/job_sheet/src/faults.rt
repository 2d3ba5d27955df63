// Numbers 2 to 5: what is wrong with a sheet that means something.
ghost use Rattle.std.specs.Prelude.{◌≡◌, ◌∷◌, ◌+◌, ◌^◌, ◌≤◌, ◌<◌, length, drop};
ghost use Rattle.room.specs.Room.{Good, between};
ghost use Rattle.job_sheet.specs.Version.{sides_within, costs_within, fits_ranges, config_within, limit_within, Searchable};
ghost use Rattle.job_sheet.specs.Sheet.{first_fault, limit_fault, position_fault, block_fault, endpoint_fault, sink_fault, judged, behind};
ghost use Rattle.job_sheet.specs.Places.{fault_in, faults_in, head_fault, layout_in, contents_in, Shaped};

use crate::places::Layout;
use crate::{Block, Endpoint, Judgement, Part, Ranges, Sink, Version, places};
use room::{Pos, Room, RouterConfig};

// "1 to 15".
const MOST_LIMIT: usize = 15;

// The sorts of records in a sheet.
#[derive(Clone, Copy)]
enum Records {
    Blocks,
    Positions,
    Endpoints,
    Sinks,
}

pub fn position_fault(room: Room, p: Pos) -> Judgement
    ensures { result ≡ position_fault room p }
{
    if room.within(p) {
        Judgement::Good
    } else {
        Judgement::Position
    }
}

pub fn block_fault(room: Room, block: Block) -> Judgement
    ensures { result ≡ block_fault room block }
{
    if !room.within(block.at) {
        return Judgement::Position;
    }
    if !room::kind_known(block.kind) {
        return Judgement::Code;
    }
    if block.kind == room::AIR {
        return Judgement::Code;
    }
    if room::facing_known(block.facing) {
        Judgement::Good
    } else {
        Judgement::Code
    }
}

pub fn endpoint_fault(room: Room, endpoint: Endpoint) -> Judgement
    ensures { result ≡ endpoint_fault room endpoint }
{
    if !room.within(endpoint.at) {
        return Judgement::Position;
    }
    if !room::port_known(endpoint.port) {
        return Judgement::Code;
    }
    if room::facing_known(endpoint.facing) {
        Judgement::Good
    } else {
        Judgement::Code
    }
}

// "3 for a limit outside 1 to 15".
pub fn limit_fault(limit: usize) -> Judgement
    ensures { result ≡ limit_fault limit }
{
    if limit_within(limit) {
        Judgement::Good
    } else {
        Judgement::Config
    }
}

// "The tail limit is judged with its record, after 4 and 5."
pub fn sink_fault(room: Room, sink: Sink) -> Judgement
    ensures { result ≡ sink_fault room sink }
{
    let fault = endpoint_fault(room, sink.end);
    if !fault.is_good() {
        return fault;
    }
    limit_fault(sink.tail)
}

// What is wrong with the record at a place.
fn record_fault(
    sheet: &[u8],
    version: Version,
    room: Room,
    records: Records,
    place: usize,
) -> Judgement
    requires { place + 9 < 2 ^ 64 }
    ensures { result ≡ fault_in version room records (drop place sheet.now) }
{
    let long = version.long;
    match records {
        Records::Blocks => block_fault(room, places::block_from(sheet, long, place)),
        Records::Positions => position_fault(room, places::position_from(sheet, long, place, 0)),
        Records::Endpoints => endpoint_fault(room, places::endpoint_from(sheet, long, place)),
        Records::Sinks => sink_fault(room, places::sink_from(sheet, version, place)),
    }
}

// The fault found so far or, where there is none, the first of a part's records.
fn first_fault(
    found: Judgement,
    sheet: &[u8],
    version: Version,
    room: Room,
    records: Records,
    part: Part,
) -> Judgement
    requires { behind part ≤ length sheet.now }
    ensures { result ≡ first_fault (found ∷ faults_in version room records sheet.now part) }
{
    let mut fault = found;
    for i in 0..part.count {
        if !fault.is_good() {
            return fault;
        }
        fault = record_fault(sheet, version, room, records, part.from + part.size * i);
    }
    fault
}

// Whether a side is from 1 to the longest.
#[tactic(auto, unfolding(room::specs::Room::between))]
fn side_within(side: usize, longest: usize) -> bool
    ensures { result ≡ between 1 side longest }
{
    1 <= side && side <= longest
}

// Whether a limit is from 1 to 15.
#[tactic(auto, unfolding(crate::specs::Version::limit_within))]
fn limit_within(limit: usize) -> bool
    ensures { result ≡ limit_within limit }
{
    side_within(limit, MOST_LIMIT)
}

impl Ranges {
    // Number 2 is due where this is false.
    fn sides_within(self, room: Room) -> bool
        requires { Searchable self }
        ensures { result ≡ sides_within self room }
    {
        // The proof did not close in one chain of `&&`: that the product fits is lost there.
        if !side_within(room.wide, self.side) {
            return false;
        }
        if !side_within(room.high, self.side) {
            return false;
        }
        if !side_within(room.deep, self.side) {
            return false;
        }
        room.wide * room.high * room.deep <= self.cells
    }

    // Whether each number of the config is in its range.
    #[tactic(auto, unfolding(crate::specs::Version::costs_within))]
    fn costs_within(self, config: RouterConfig) -> bool
        ensures { result ≡ costs_within self config }
    {
        config.limit.0 <= self.nodes
            && config.horizontal.0 <= self.cost
            && config.stair.0 <= self.cost
            && config.support.0 <= self.cost
    }

    // Whether sides and config are within these ranges, each number by itself.
    #[tactic(auto, unfolding(crate::specs::Version::fits_ranges))]
    pub fn hold(self, room: Room, config: RouterConfig) -> bool
        requires { Searchable self }
        ensures { result ≡ fits_ranges self room config }
    {
        self.sides_within(room) && self.costs_within(config)
    }

    // Number 3 is due where this is false, of the config: its ranges, then the product of cells and dearest step.
    #[tactic(auto, unfolding(crate::specs::Version::config_within))]
    fn config_within(self, room: Room, config: RouterConfig) -> bool
        requires { Good room }
        ensures { result ≡ config_within self room config }
    {
        self.costs_within(config) && config.good(room)
    }

    // Number 2, then 3, of the config and the run limit.
    pub fn head_fault(self, room: Room, config: RouterConfig, run: usize) -> Judgement
        requires { Searchable self }
        ensures { result ≡ head_fault self room config run }
    {
        if !self.sides_within(room) {
            return Judgement::Sides;
        }
        if !self.config_within(room, config) {
            return Judgement::Config;
        }
        limit_fault(run)
    }
}

// Numbers 2 and 3, then 4 and 5 "record by record".
pub fn judge(sheet: &[u8], version: Version, layout: Layout) -> Judgement
    requires layout_value { (layout ≡ layout_in version sheet.now) × Shaped version sheet.now }
    requires searchable { Searchable version.ranges }
    ensures { result ≡ judged version (contents_in version sheet.now) }
{
    let room = places::room_from(sheet, version.long);
    let config = places::config_from(sheet, version);
    let run = places::run_from(sheet, version);
    let mut fault = version.ranges.head_fault(room, config, run);
    fault = first_fault(fault, sheet, version, room, Records::Blocks, layout.blocks);
    fault = first_fault(
        fault,
        sheet,
        version,
        room,
        Records::Positions,
        layout.conductors,
    );
    fault = first_fault(
        fault,
        sheet,
        version,
        room,
        Records::Positions,
        layout.clearances,
    );
    fault = first_fault(
        fault,
        sheet,
        version,
        room,
        Records::Positions,
        layout.terminals,
    );
    fault = first_fault(
        fault,
        sheet,
        version,
        room,
        Records::Positions,
        layout.reserved,
    );
    fault = first_fault(
        fault,
        sheet,
        version,
        room,
        Records::Endpoints,
        layout.source,
    );
    first_fault(fault, sheet, version, room, Records::Sinks, layout.sinks)
}
