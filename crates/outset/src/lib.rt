// The cells that are blocked at the outset of a tree, as marks: one byte a cell in a lent slice.
#![tactic(auto)]

mod setting_out; // setting_out.rt: the whole outset, from an accepted sheet

ghost use Rattle.std.specs.Prelude.{◌≡◌, ◌||◌, ◌<◌, eqb, length};
ghost use Rattle.routing_resources.specs.Resources.{in_keepout};
ghost use Rattle.basics.specs.Lists.{any};
ghost use Rattle.room.specs.Room.{Good, Within, volume};
ghost use Rattle.routing_resources.specs.Marks.{marked_by, unmarked_by};
ghost use Rattle.job_sheet.specs.Accepted.{BlockList};
ghost use Rattle.job_sheet.specs.Places.{positions_in, blocks_in};
ghost use Rattle.outset.specs.Outset.{stands_at, near_conductor, powers, solid_of, output_keepout, block_keepout, at_or_beneath, tap_cell, own_cell, PositionsListed, Sized, OutputKnown, OutsetReady, OutsetMarked};
ghost use Rattle.outset.specs.declared.Refusal.{Refusal};
ghost use Rattle.outset.specs.SetOut.{refusal_number, refusal_detail, told_at_end};
ghost use Rattle.ends.specs.Ends.{NetInside};

use blocks::Overlap;
use ends::{Ends, Fault, Tap, Taps, Unrealized};
use job_sheet::{Block, Job, Part};
use room::Room;
pub use setting_out::set_out;

// Why no tree is set out: number 7, or number 8 or 9 of one of its ends.
#[derive(Clone, Copy)]
pub enum Refusal {
    Blocks(Overlap),
    End(Fault),
}

impl Refusal {
    // The number that is due.
    pub fn number(self) -> u32
        ensures { result ≡ refusal_number self }
    {
        match self {
            Refusal::Blocks(_) => numbers::OVERLAP_NUMBER,
            Refusal::End(fault) => fault.number(),
        }
    }

    // Its detail: the cell of a repeat, or "0 source, k-th sink k".
    pub fn detail(self) -> usize
        ensures { result ≡ refusal_detail self }
    {
        match self {
            Refusal::Blocks(overlap) => overlap.cell,
            Refusal::End(fault) => fault.place,
        }
    }
}

impl From<Overlap> for Refusal {
    ghost from_gives = { λ overlap refusal. refusal ≡ Refusal.Blocks overlap };

    fn from(repeat: Overlap) -> Refusal {
        Refusal::Blocks(repeat)
    }
}

impl From<Fault> for Refusal {
    ghost from_gives = { λ fault refusal. refusal ≡ Refusal.End fault };

    fn from(wrong: Fault) -> Refusal {
        Refusal::End(wrong)
    }
}

// What is told where no tree is set out: why; what is wrong with the net's ends, also where 7 comes before it; and all of
// the ends, with zeros for each of which 8 or 9 is due.
#[derive(Clone, Copy)]
pub struct NotSetOut {
    pub refusal: Refusal,
    pub fault: Option<Fault>,
    pub ends: Ends,
}

impl From<Unrealized> for NotSetOut {
    ghost from_gives = { λ unrealized told. told ≡ told_at_end unrealized };

    fn from(unrealized: Unrealized) -> NotSetOut {
        NotSetOut {
            refusal: Refusal::from(unrealized.fault),
            fault: Some(unrealized.fault),
            ends: unrealized.ends,
        }
    }
}

// Marks the cells of a list of positions.
pub fn mark_positions(sheet: &[u8], part: Part, room: Room, marks: &mut [u8])
    requires { PositionsListed sheet.now room part marks.old }
    ensures { marks.new ≡ marked_by (λ v. any (stands_at room v) (positions_in sheet.now part)) marks.old }
{
    for i in 0..part.count {
        let at = job_sheet::position_at(sheet, part, i);
        routing_resources::mark(marks, room.cell(at));
    }
}

// A conductor of another net, and its keepout.
fn mark_conductor(room: Room, marks: &mut [u8], cell: usize)
    requires good { Good room }
    requires cell_bound { cell < volume room }
    requires marks_len { length marks.old ≡ volume room }
    ensures { marks.new ≡ marked_by (λ v. eqb cell v || in_keepout room cell v) marks.old }
{
    routing_resources::mark(marks, cell);
    routing_resources::electrical_keepout_for_wire(room, marks, cell);
}

// Marks other nets' conductors and their keepouts.
fn mark_conductors(sheet: &[u8], part: Part, room: Room, marks: &mut [u8])
    requires { PositionsListed sheet.now room part marks.old }
    ensures { marks.new ≡ marked_by (λ v. any (near_conductor room v) (positions_in sheet.now part)) marks.old }
{
    for i in 0..part.count {
        let at = job_sheet::position_at(sheet, part, i);
        mark_conductor(room, marks, room.cell(at));
    }
}

// RedstoneTorch, RedstoneBlock and Lever.
#[tactic(auto, unfolding(crate::specs::Outset::powers))]
fn powers(kind: u8) -> bool
    ensures { result ≡ powers kind }
{
    matches!(
        kind,
        room::REDSTONE_TORCH | room::REDSTONE_BLOCK | room::LEVER
    )
}

// Whether a cell holds a Solid block of that node.
#[tactic(auto, unfolding(crate::specs::Outset::solid_of))]
fn solid_of(kinds: &[u8], nodes: &[u32], node: u16, cell: usize) -> bool
    requires { (cell < length kinds.now) × (cell < length nodes.now) }
    ensures { result ≡ solid_of kinds.now nodes.now node cell }
{
    kinds[cell] == room::SOLID && nodes[cell] == node as u32 + 1
}

// Marks the keepout of a Repeater's output cell, where that is a Solid block of the same node.
fn output_keepout(
    room: Room,
    kinds: &[u8],
    nodes: &[u32],
    node: u16,
    output: Option<usize>,
    marks: &mut [u8],
)
    requires { OutputKnown room kinds.now nodes.now output marks.old }
    ensures { marks.new ≡ marked_by (output_keepout room kinds.now nodes.now node output) marks.old }
{
    if let Some(cell) = output {
        if solid_of(kinds, nodes, node, cell) {
            routing_resources::electrical_keepout_for_wire(room, marks, cell);
        }
    }
}

// Marks the keepout that a block asks for.
fn block_keepout(room: Room, block: Block, kinds: &[u8], nodes: &[u32], marks: &mut [u8])
    requires sized { Sized room kinds.now nodes.now marks.old }
    requires within { Within room block.at }
    ensures { marks.new ≡ marked_by (λ v. block_keepout room kinds.now nodes.now v block) marks.old }
{
    let cell = room.cell(block.at);
    if powers(block.kind) {
        routing_resources::electrical_keepout_for_wire(room, marks, cell);
        return;
    }
    if block.kind == room::REPEATER {
        output_keepout(
            room,
            kinds,
            nodes,
            block.node,
            room.ahead(cell, block.facing),
            marks,
        );
    }
}

// Marks the keepouts that the blocks ask for.
pub fn cell_source_keepout(
    sheet: &[u8],
    part: Part,
    room: Room,
    kinds: &[u8],
    nodes: &[u32],
    marks: &mut [u8],
)
    requires sized { Sized room kinds.now nodes.now marks.old }
    requires block_list { BlockList sheet.now room part (blocks_in sheet.now part) }
    ensures { marks.new ≡ marked_by (λ v. any (block_keepout room kinds.now nodes.now v) (blocks_in sheet.now part)) marks.old }
{
    for i in 0..part.count {
        let block = job_sheet::block_at(sheet, part, i);
        block_keepout(room, block, kinds, nodes, marks);
    }
}

// Takes out a cell and the one right beneath it.
fn take_out(room: Room, marks: &mut [u8], cell: usize)
    requires good { Good room }
    requires cell_bound { cell < volume room }
    requires marks_len { length marks.old ≡ volume room }
    ensures { marks.new ≡ unmarked_by (λ v. at_or_beneath room v cell) marks.old }
{
    routing_resources::unmark(marks, cell);
    routing_resources::put_mark(marks, room.beneath(cell), routing_resources::UNMARKED);
}

fn take_out_tap(room: Room, marks: &mut [u8], tap: Tap)
    requires good { Good room }
    requires terminal_bound { (tap.terminal < volume room) × (tap.approach < volume room) }
    requires marks_len { length marks.old ≡ volume room }
    ensures { marks.new ≡ unmarked_by (λ v. tap_cell room v tap) marks.old }
{
    take_out(room, marks, tap.terminal);
    take_out(room, marks, tap.approach);
}

// Takes out the net's own terminals and approaches, and the cells right beneath them.
pub fn take_out_ends(room: Room, source: usize, taps: Taps, marks: &mut [u8])
    requires good { Good room }
    requires net_inside { NetInside room source taps }
    requires marks_len { length marks.old ≡ volume room }
    ensures { marks.new ≡ unmarked_by (own_cell room source taps) marks.old }
{
    take_out(room, marks, source);
    for i in 0..taps.count {
        take_out_tap(room, marks, taps.taps[i]);
    }
}

// Marks what is blocked at the outset, in cleared marks.
pub fn block_outset(
    sheet: &[u8],
    job: Job,
    source: usize,
    taps: Taps,
    kinds: &[u8],
    nodes: &[u32],
    marks: &mut [u8],
)
    requires { OutsetReady sheet.now job source taps kinds.now nodes.now marks.old }
    ensures { OutsetMarked sheet.now job source taps kinds.now nodes.now marks.new }
{
    let room = job.room;
    mark_conductors(sheet, job.conductors, room, marks);
    mark_positions(sheet, job.clearances, room, marks);
    mark_positions(sheet, job.terminals, room, marks);
    mark_positions(sheet, job.reserved, room, marks);
    cell_source_keepout(sheet, job.blocks, room, kinds, nodes, marks);
    take_out_ends(room, source, taps, marks);
}
