// What stands at a place of a sheet, where its parts stand, and number 1.
ghost use Rattle.std.specs.Prelude.{◌≡◌, ◌+◌, ◌^◌, ◌≤◌, ◌<◌, get_or, drop};
ghost use Rattle.job_sheet.specs.UsualLimits.{usual_run};
ghost use Rattle.job_sheet.specs.Version.{most_size, sides_place, config_place, run_place};
ghost use Rattle.job_sheet.specs.Places.{two_in, four_in, position_in, room_in, config_in, limit_in, block_in, endpoint_in, sink_in, shape_holds, shaped, Behind, LaidOut, Listed, SourceListed, SinksListed};

use crate::usual_limits::{USUAL_RUN, USUAL_TAIL};
use crate::{Block, Endpoint, Part, Sink, Version, versions};
use room::{Cost, Nodes, Pos, Room, RouterConfig};

// Where the parts of a sheet stand.
#[derive(Clone, Copy)]
pub struct Layout {
    pub blocks: Part,
    pub conductors: Part,
    pub clearances: Part,
    pub terminals: Part,
    pub reserved: Part,
    pub source: Part,
    pub sinks: Part,
}

// Byte k of what begins at a place. Past the end every byte is taken for 0: whether the parts end where the sheet does
// is asked once, of the whole.
pub fn byte(sheet: &[u8], place: usize, k: usize) -> u8
    requires { place + k < 2 ^ 64 }
    ensures { result ≡ get_or (drop place sheet.now) k 0 }
{
    let at = place + k;
    if at < sheet.len() { sheet[at] } else { 0 }
}

fn two_bytes(sheet: &[u8], place: usize, k: usize) -> u16
    requires { place + k + 1 < 2 ^ 64 }
    ensures { result ≡ two_in (drop place sheet.now) k }
{
    byte(sheet, place, k) as u16 * 256 + byte(sheet, place, k + 1) as u16
}

// "Big-endian": four bytes from byte k on of what begins at a place.
pub fn four_bytes(sheet: &[u8], place: usize, k: usize) -> u32
    requires { place + k + 3 < 2 ^ 64 }
    ensures { result ≡ four_in (drop place sheet.now) k }
{
    two_bytes(sheet, place, k) as u32 * 65536 + two_bytes(sheet, place, k + 2) as u32
}

// "x, y, z", from byte k on of what begins at a place. Whether coordinates are long is asked once a record, so that places within
// it are constants: lists are long, and each is read some times.
pub fn position_from(sheet: &[u8], long: bool, place: usize, k: usize) -> Pos
    requires { place + k + 5 < 2 ^ 64 }
    ensures { result ≡ position_in long (drop place sheet.now) k }
{
    if long {
        Pos {
            x: two_bytes(sheet, place, k) as usize,
            y: two_bytes(sheet, place, k + 2) as usize,
            z: two_bytes(sheet, place, k + 2 + 2) as usize,
        }
    } else {
        Pos {
            x: byte(sheet, place, k) as usize,
            y: byte(sheet, place, k + 1) as usize,
            z: byte(sheet, place, k + 1 + 1) as usize,
        }
    }
}

// A limit, byte k of what begins at a place, where limits are carried; else the usual one.
pub fn limit_from(sheet: &[u8], limits: bool, usual: usize, place: usize, k: usize) -> usize
    requires { place + k < 2 ^ 64 }
    ensures { result ≡ limit_in limits usual (drop place sheet.now) k }
{
    if limits {
        byte(sheet, place, k) as usize
    } else {
        usual
    }
}

// "node two bytes, x, y, z, kind, facing".
pub fn block_from(sheet: &[u8], long: bool, place: usize) -> Block
    requires { place + 9 < 2 ^ 64 }
    ensures { result ≡ block_in long (drop place sheet.now) }
{
    if long {
        Block {
            node: two_bytes(sheet, place, 0),
            at: position_from(sheet, true, place, 2),
            kind: byte(sheet, place, 8),
            facing: byte(sheet, place, 9),
        }
    } else {
        Block {
            node: two_bytes(sheet, place, 0),
            at: position_from(sheet, false, place, 2),
            kind: byte(sheet, place, 5),
            facing: byte(sheet, place, 6),
        }
    }
}

// "x, y, z, port kind, facing".
pub fn endpoint_from(sheet: &[u8], long: bool, place: usize) -> Endpoint
    requires { place + 7 < 2 ^ 64 }
    ensures { result ≡ endpoint_in long (drop place sheet.now) }
{
    let position = versions::position_size(long);
    Endpoint {
        at: position_from(sheet, long, place, 0),
        port: byte(sheet, place, position),
        facing: byte(sheet, place, position + 1),
    }
}

// "sinks as the source", "the tail limit follows the sink's facing".
pub fn sink_from(sheet: &[u8], version: Version, place: usize) -> Sink
    requires { place + 8 < 2 ^ 64 }
    ensures { result ≡ sink_in version (drop place sheet.now) }
{
    let endpoint = versions::endpoint_size(version.long);
    Sink {
        end: endpoint_from(sheet, version.long, place),
        tail: limit_from(sheet, version.limits, USUAL_TAIL, place, endpoint),
    }
}

// "X, Y, Z".
pub fn room_from(sheet: &[u8], long: bool) -> Room
    ensures { result ≡ room_in long (drop sides_place sheet.now) }
{
    let sides = position_from(sheet, long, versions::SIDES, 0);
    Room {
        wide: sides.x,
        high: sides.y,
        deep: sides.z,
    }
}

// "node limit, horizontal, stair, support cost (four bytes each)".
pub fn config_at(sheet: &[u8], place: usize) -> RouterConfig
    requires { place + 15 < 2 ^ 64 }
    ensures { result ≡ config_in (drop place sheet.now) }
{
    RouterConfig {
        limit: Nodes(four_bytes(sheet, place, 0)),
        horizontal: Cost(four_bytes(sheet, place, 4)),
        stair: Cost(four_bytes(sheet, place, 8)),
        support: Cost(four_bytes(sheet, place, 12)),
    }
}

// The config of a sheet.
pub fn config_from(sheet: &[u8], version: Version) -> RouterConfig
    ensures { result ≡ config_in (drop (config_place version) sheet.now) }
{
    config_at(sheet, versions::config_place(version))
}

// The run limit of a sheet.
pub fn run_from(sheet: &[u8], version: Version) -> usize
    ensures { result ≡ limit_in version.limits usual_run (drop (run_place version) sheet.now) 0 }
{
    let place = versions::run_place(version);
    limit_from(sheet, version.limits, USUAL_RUN, place, 0)
}

// The list whose count stands at a place, of records of `size` bytes, with long coordinates or not.
pub fn list_at(sheet: &[u8], long: bool, size: usize, place: usize) -> Part
    requires { place + 2 < 2 ^ 64 }
    ensures { Listed sheet.now long size place result }
{
    Part {
        from: place + 2,
        count: two_bytes(sheet, place, 0) as usize,
        size,
        long,
    }
}

// The source is one record.
pub fn source_at(version: Version, place: usize) -> Part
    ensures { SourceListed version place result }
{
    Part {
        from: place,
        count: 1,
        size: versions::endpoint_size(version.long),
        long: version.long,
    }
}

// The sinks whose one-byte count stands at a place.
pub fn sinks_at(sheet: &[u8], version: Version, place: usize) -> Part
    requires { place + 1 < 2 ^ 64 }
    ensures { SinksListed version sheet.now place result }
{
    Part {
        from: place + 1,
        count: byte(sheet, place, 0) as usize,
        size: versions::sink_size(version),
        long: version.long,
    }
}

// The place right behind a part.
fn behind(part: Part) -> usize
    requires { (part.size ≤ most_size) × (part.from < 2 ^ 32) × (part.count < 2 ^ 16) }
    ensures { Behind part result }
{
    part.from + part.size * part.count
}

// Where the parts of a sheet stand.
pub fn layout_from(sheet: &[u8], version: Version) -> Layout
    ensures { LaidOut version sheet.now result }
{
    let long = version.long;
    let position = versions::position_size(long);
    let block = versions::block_size(long);
    let blocks = list_at(sheet, long, block, versions::lists_place(version));
    let conductors = list_at(sheet, long, position, behind(blocks));
    let clearances = list_at(sheet, long, position, behind(conductors));
    let terminals = list_at(sheet, long, position, behind(clearances));
    let reserved = list_at(sheet, long, position, behind(terminals));
    let source = source_at(version, behind(reserved));
    Layout {
        blocks,
        conductors,
        clearances,
        terminals,
        reserved,
        source,
        sinks: sinks_at(sheet, version, behind(source)),
    }
}

// Number 1: "sheet length, version, count past the end, bytes left over, over 16 sinks". Of a sheet of so many bytes its
// first byte, its version's number, the length of the rest, its sink count, and whether its parts end where it does: past the
// end and left over are one question.
#[tactic(auto, unfolding(crate::specs::Places::shape_holds))]
pub fn shape_holds(
    bytes: usize,
    first: u8,
    number: u8,
    rest: u32,
    sinks: usize,
    whole: bool,
) -> bool
    ensures { result ≡ shape_holds bytes first number rest sinks whole }
{
    bytes <= crate::MAX_BYTES
        && first == number
        && rest as usize + versions::SIDES == bytes
        && sinks <= crate::MAX_SINKS
        && whole
}

// Whether a sheet means anything: all of number 1, over the whole sheet.
pub fn shaped(sheet: &[u8], version: Version, layout: Layout) -> bool
    requires { LaidOut version sheet.now layout }
    ensures { result ≡ shaped version sheet.now }
{
    let end = behind(layout.sinks);
    shape_holds(
        sheet.len(),
        byte(sheet, 0, 0),
        version.number,
        four_bytes(sheet, 1, 0),
        layout.sinks.count,
        end == sheet.len(),
    )
}
