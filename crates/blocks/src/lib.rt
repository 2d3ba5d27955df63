// The blocks of a sheet laid out in a room, and number 7: two blocks in one cell.
#![tactic(auto)]

ghost use Rattle.std.specs.Prelude.{◌≡◌, ◌^◌, ◌<◌, length, replicate};
ghost use Rattle.room.specs.Room.{Good, Within, volume};
ghost use Rattle.job_sheet.specs.Accepted.{BlockList};
ghost use Rattle.job_sheet.specs.Places.{blocks_in};
ghost use Rattle.blocks.specs.Blocks.{BlocksLaid};
ghost use Rattle.blocks.specs.Laying.{lesser_kept, repeat_number, BlockAdded, Kept};

use job_sheet::{Block, Part};
use room::{Room, as_index};

// A repeat is kept as one number, node times this plus cell plus 1, so that the least number is that of the least node,
// then the least cell.
const PER_NODE: usize = 65536;

// Number 7 is due, with the cell of the repeat.
#[derive(Clone, Copy)]
pub struct Overlap {
    pub cell: usize,
}

// The lesser of two numbers of which 0 stands for none: C lends `nodes`, where it does, and no plainer with an Option beside it.
fn lesser_kept(a: usize, b: usize) -> usize
    ensures { result ≡ lesser_kept a b }
{
    if a == 0 {
        return b;
    }
    if b == 0 {
        return a;
    }
    if b < a { b } else { a }
}

// The repeat that a block makes in a cell whose least node so far is known; both nodes are given as one more, and 0 is
// none. Whichever block came first, the one of the higher node is the repeat.
fn repeat_number(known: usize, node: usize, cell: usize) -> usize
    requires { (known < 2 ^ 32) × (node < 2 ^ 32) × (cell < 2 ^ 16) }
    ensures { result ≡ repeat_number known node cell }
{
    if known == 0 {
        return 0;
    }
    let higher = if known < node { node } else { known };
    (higher - 1) * PER_NODE + cell + 1
}

// Adds one block: its kind, the least node of its cell (as one more) and, of all repeats, the least.
fn place_block(block: Block, room: Room, kinds: &mut [u8], nodes: &mut [u32], found: usize) -> usize
    requires good { Good room }
    requires within { Within room block.at }
    requires kinds_len { (length kinds.old ≡ volume room) × (length nodes.old ≡ volume room) }
    ensures { BlockAdded room block kinds.old nodes.old found kinds.new nodes.new result }
{
    let cell = room.cell(block.at);
    let known = as_index(nodes[cell]);
    let node = block.node as usize + 1;
    kinds[cell] = block.kind;
    nodes[cell] = lesser_kept(known, node) as u32;
    lesser_kept(found, repeat_number(known, node, cell))
}

// Adds all blocks of a list, and returns the least repeat.
fn place_each(sheet: &[u8], part: Part, room: Room, kinds: &mut [u8], nodes: &mut [u32]) -> usize
    requires good { Good room }
    requires block_list { BlockList sheet.now room part (blocks_in sheet.now part) }
    requires kinds_value { kinds.old ≡ replicate (volume room) 0 }
    requires nodes_value { nodes.old ≡ replicate (volume room) 0 }
    ensures { Kept room (blocks_in sheet.now part) part.count kinds.new nodes.new result }
{
    let mut found: usize = 0;
    for i in 0..part.count {
        let block = job_sheet::block_at(sheet, part, i);
        found = place_block(block, room, kinds, nodes, found);
    }
    found
}

// Lays the blocks of a list out in a cleared room: the kind in each cell, and one more than the node of the block there.
// Where two blocks take one cell, the room is cleared again.
pub fn place_blocks(
    sheet: &[u8],
    part: Part,
    room: Room,
    kinds: &mut [u8],
    nodes: &mut [u32],
) -> Result<(), Overlap>
    requires good { Good room }
    requires block_list { BlockList sheet.now room part (blocks_in sheet.now part) }
    requires kinds_value { kinds.old ≡ replicate (volume room) 0 }
    requires nodes_value { nodes.old ≡ replicate (volume room) 0 }
    ensures { BlocksLaid room (blocks_in sheet.now part) kinds.new nodes.new result }
{
    let found = place_each(sheet, part, room, kinds, nodes);
    if found == 0 {
        return Ok(());
    }
    lent::clear(kinds);
    lent::clear(nodes);
    Err(Overlap {
        cell: (found - 1) % PER_NODE,
    })
}
