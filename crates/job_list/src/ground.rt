// Whether a sheet has the first one's room and blocks, and whether two of its blocks take one cell.
ghost use Rattle.std.specs.Prelude.{◌≡◌, ◌<◌, ◌≤◌, length, get_or, replicate};
ghost use Rattle.room.specs.Room.{Good, volume};
ghost use Rattle.job_sheet.specs.Accepted.{BlockList};
ghost use Rattle.job_sheet.specs.Places.{no_block, blocks_in};
ghost use Rattle.job_list.specs.Judged.{same_sides, same_place, same_block, same_blocks, same_ground, contents_at, repeats_in};
ghost use Rattle.job_list.specs.Grounds.{BlocksListed};

use job_sheet::{Block, Part, places, versions};
use room::{Pos, Room};

#[tactic(auto, unfolding(crate::specs::Judged::same_sides))]
fn same_sides(a: Room, b: Room) -> bool
    ensures { result ≡ same_sides a b }
{
    a.wide == b.wide && a.high == b.high && a.deep == b.deep
}

#[tactic(auto, unfolding(crate::specs::Judged::same_place))]
fn same_place(a: Pos, b: Pos) -> bool
    ensures { result ≡ same_place a b }
{
    a.x == b.x && a.y == b.y && a.z == b.z
}

#[tactic(auto, unfolding(crate::specs::Judged::same_block))]
fn same_block(a: Block, b: Block) -> bool
    ensures { result ≡ same_block a b }
{
    a.node == b.node && same_place(a.at, b.at) && a.kind == b.kind && a.facing == b.facing
}

// The blocks of a sheet, whatever its other bytes are.
fn blocks_of(sheet: &[u8]) -> Part
    ensures { BlocksListed sheet.now result }
{
    let version = versions::version_in(sheet);
    let size = versions::block_size(version.long);
    places::list_at(sheet, version.long, size, versions::lists_place(version))
}

fn block_in(sheet: &[u8], part: Part, i: usize) -> Block
    requires { (i < part.count) × BlocksListed sheet.now part }
    ensures { result ≡ get_or (blocks_in sheet.now part) i no_block }
{
    places::block_from(sheet, part.long, part.from + part.size * i)
}

// Whether the blocks of two sheets are the same, in the same order.
fn same_blocks(first: &[u8], sheet: &[u8]) -> bool
    ensures { result ≡ same_blocks (contents_at first.now).blocks (contents_at sheet.now).blocks }
{
    let a = blocks_of(first);
    let b = blocks_of(sheet);
    if a.count != b.count {
        return false;
    }
    for i in 0..a.count {
        if !same_block(block_in(first, a, i), block_in(sheet, b, i)) {
            return false;
        }
    }
    true
}

// The room of a sheet, whatever its other bytes are.
fn room_of(sheet: &[u8]) -> Room
    ensures { result ≡ (contents_at sheet.now).room }
{
    let version = versions::version_in(sheet);
    places::room_from(sheet, version.long)
}

// Whether a sheet has the first one's room and blocks, by value.
#[tactic(auto, unfolding(crate::specs::Judged::same_ground))]
pub fn same_ground(first: &[u8], sheet: &[u8]) -> bool
    ensures { result ≡ same_ground (contents_at first.now) (contents_at sheet.now) }
{
    same_sides(room_of(first), room_of(sheet)) && same_blocks(first, sheet)
}

// Marks the cell of each block, and whether one was marked already.
fn marked_twice(sheet: &[u8], part: Part, room: Room, seen: &mut [u8]) -> bool
    requires good { Good room }
    requires block_list { BlockList sheet.now room part (blocks_in sheet.now part) }
    requires room_in_bounds { volume room ≤ length seen.old }
    requires seen_value { seen.old ≡ replicate (length seen.old) 0 }
    ensures { result ≡ repeats_in room (blocks_in sheet.now part) }
{
    for i in 0..part.count {
        let block = job_sheet::block_at(sheet, part, i);
        let cell = room.cell(block.at);
        if seen[cell] != 0 {
            return true;
        }
        seen[cell] = 1;
    }
    false
}

// Whether two blocks of a list take one cell, found in memory of its own: number 7 of one net comes before numbers 1 to 6
// of the next, which touch nothing.
pub fn cell_repeats(sheet: &[u8], part: Part, room: Room) -> bool
    requires good { Good room }
    requires block_list { BlockList sheet.now room part (blocks_in sheet.now part) }
    ensures { result ≡ repeats_in room (blocks_in sheet.now part) }
{
    let mut seen = [0u8; room::MAX_VOLUME];
    marked_twice(sheet, part, room, &mut seen)
}
