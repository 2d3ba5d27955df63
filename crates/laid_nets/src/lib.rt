// All nets of a list laid into one room: its blocks with their facings, one net behind the other, whose each cell is, and
// where two nets overlap.
#![tactic(auto)]

ghost use Rattle.std.specs.Prelude.{◌≡◌, length, replicate};
ghost use Rattle.room.specs.Room.{Good, volume};
ghost use Rattle.job_sheet.specs.Accepted.{BlockList};
ghost use Rattle.job_sheet.specs.Places.{blocks_in};
ghost use Rattle.laid_nets.specs.LaidNets.{facings_of, met_after, owners_after};
ghost use Rattle.laid_nets.specs.Layings.{RoomAsked, RoomSet, Owning, NetLayable, NetLaid, SheetLayable, SheetLaid};

use blocks::Overlap;
use branches::BranchLengths;
use ends::Taps;
use job_sheet::{Job, Part};
use room::Room;

// Where two nets overlap: the first net to meet a lower one, and its least such cell. Number 16 with them.
#[derive(Clone, Copy)]
pub struct Meeting {
    pub net: usize,
    pub cell: usize,
}

// The facing of each block in its cell. Of two blocks in one cell the first counts, so the last is written first.
fn place_facings(sheet: &[u8], part: Part, room: Room, facings: &mut [u8])
    requires good { Good room }
    requires block_list { BlockList sheet.now room part (blocks_in sheet.now part) }
    requires facings_value { facings.old ≡ replicate (volume room) 0 }
    ensures { facings.new ≡ facings_of room (blocks_in sheet.now part) }
{
    for i in (0..part.count).rev() {
        let block = job_sheet::block_at(sheet, part, i);
        facings[room.cell(block.at)] = block.facing;
    }
}

// Lays the blocks of a sheet out with their facings, in cleared memory; or number 7 is due.
pub fn set_room(
    sheet: &[u8],
    job: Job,
    kinds: &mut [u8],
    facings: &mut [u8],
    nodes: &mut [u32],
) -> Result<(), Overlap>
    requires { RoomAsked sheet.now job kinds.old facings.old nodes.old }
    ensures { RoomSet sheet.now result kinds.new facings.new }
{
    let placement = blocks::place_blocks(sheet, job.blocks, job.room, kinds, nodes);
    place_facings(sheet, job.blocks, job.room, facings);
    placement
}

// Where two nets overlap, now that this net's least such cell is known.
fn met_after(met: Option<Meeting>, net: usize, overlap: Option<usize>) -> Option<Meeting>
    ensures { result ≡ met_after met net overlap }
{
    match met {
        Some(earlier) => Some(earlier),
        None => overlap.map(|cell| Meeting { net, cell }),
    }
}

// The cells that a net occupies become its own, unless two nets have met.
fn own_cells(met: Option<Meeting>, net: usize, occupied: &[u8], owners: &mut [u32])
    requires { Owning met net occupied.now owners.old }
    ensures { owners.new ≡ owners_after met net occupied.now owners.old }
{
    match met {
        None => laying::own(net as u32, occupied, owners),
        Some(_) => {}
    }
}

// Lays one net behind those so far, and returns where two nets overlap.
fn lay_next(
    room: Room,
    source: usize,
    taps: Taps,
    net: usize,
    met: Option<Meeting>,
    branches: &[u32],
    lengths: BranchLengths,
    occupied: &[u8],
    planned: &[u8],
    owners: &mut [u32],
    kinds: &mut [u8],
    facings: &mut [u8],
    links: &mut [u32],
    parents: &mut [u32],
    line: &mut [u32],
) -> Option<Meeting>
    requires { NetLayable room source taps net met lengths branches.now occupied.now planned.now owners.old kinds.old facings.old links.old parents.old line.old }
    ensures { NetLaid room source taps net met lengths branches.now occupied.now planned.now owners.old kinds.old facings.old result owners.new kinds.new facings.new }
{
    let meeting = met_after(met, net, laying::overlap(occupied, owners));
    own_cells(meeting, net, occupied, owners);
    laying::lay_net(
        room, source, taps, branches, lengths, occupied, planned, kinds, facings, links, parents,
        line,
    );
    meeting
}

// Lays the net of a sheet behind those so far. `links`, `parents` and `line` are work memory.
pub fn lay_sheet(
    sheet: &[u8],
    net: usize,
    met: Option<Meeting>,
    branches: &[u32],
    lengths: BranchLengths,
    occupied: &[u8],
    planned: &[u8],
    owners: &mut [u32],
    kinds: &mut [u8],
    facings: &mut [u8],
    links: &mut [u32],
    parents: &mut [u32],
    line: &mut [u32],
) -> Option<Meeting>
    requires { SheetLayable sheet.now net met lengths branches.now occupied.now planned.now owners.old kinds.old facings.old links.old parents.old line.old }
    ensures { SheetLaid sheet.now net met lengths branches.now occupied.now planned.now owners.old kinds.old facings.old result owners.new kinds.new facings.new }
{
    let reading = sheet_reader::read_sheet(sheet);
    let job = reading.job;
    let ends = ends::realize_ends(job.room, job.source, job.sinks).unwrap();
    lay_next(
        job.room,
        ends.source,
        ends.taps,
        net,
        met,
        branches,
        lengths,
        occupied,
        planned,
        owners,
        kinds,
        facings,
        links,
        parents,
        line,
    )
}
