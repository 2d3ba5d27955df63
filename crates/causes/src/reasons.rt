// Reason by reason: cleared marks of the cells for which it holds, and its bit added there. `marks` is work memory.
ghost use Rattle.std.specs.Prelude.{◌≡◌, ◌≤◌, length};
ghost use Rattle.basics.specs.Lists.{any};
ghost use Rattle.room.specs.Room.{Good, volume};
ghost use Rattle.routing_resources.specs.Marks.{marked_by};
ghost use Rattle.job_sheet.specs.Accepted.{BlockList};
ghost use Rattle.job_sheet.specs.Places.{positions_in, blocks_in};
ghost use Rattle.outset.specs.Outset.{stands_at, block_keepout, PositionsListed, Sized};
ghost use Rattle.branches.specs.Branches.{branches_of};
ghost use Rattle.causes.specs.Causes.{own_bit, block_bit, keepout_bit, beside_conductor, cleared_by, BitFree, BitAdded, OwnBranches};

use crate::bits::add_bit;
use branches::BranchLengths;
use job_sheet::Part;
use room::Room;

// A list of positions.
pub fn add_positions(
    sheet: &[u8],
    part: Part,
    room: Room,
    bit: u8,
    marks: &mut [u8],
    causes: &mut [u8],
)
    requires positions_listed { PositionsListed sheet.now room part marks.old }
    requires bit_free { BitFree (volume room) bit causes.old }
    requires bit_le_own_bit { bit ≤ own_bit }
    ensures { BitAdded (volume room) bit (λ v. any (stands_at room v) (positions_in sheet.now part)) causes.old causes.new }
{
    lent::clear(marks);
    outset::mark_positions(sheet, part, room, marks);
    add_bit(marks, bit, causes);
}

// Marks the keepouts of other nets' conductors.
fn mark_keepouts(sheet: &[u8], part: Part, room: Room, marks: &mut [u8])
    requires { PositionsListed sheet.now room part marks.old }
    ensures { marks.new ≡ marked_by (λ v. any (beside_conductor room v) (positions_in sheet.now part)) marks.old }
{
    for i in 0..part.count {
        let at = job_sheet::position_at(sheet, part, i);
        routing_resources::electrical_keepout_for_wire(room, marks, room.cell(at));
    }
}

// The keepouts of a list of conductors.
pub fn add_keepouts(sheet: &[u8], part: Part, room: Room, marks: &mut [u8], causes: &mut [u8])
    requires positions_listed { PositionsListed sheet.now room part marks.old }
    requires bit_free { BitFree (volume room) keepout_bit causes.old }
    ensures { BitAdded (volume room) keepout_bit (λ v. any (beside_conductor room v) (positions_in sheet.now part)) causes.old causes.new }
{
    lent::clear(marks);
    mark_keepouts(sheet, part, room, marks);
    add_bit(marks, 2, causes);
}

// The keepouts that the room's blocks ask for.
pub fn add_block_keepouts(
    sheet: &[u8],
    part: Part,
    room: Room,
    kinds: &[u8],
    nodes: &[u32],
    marks: &mut [u8],
    causes: &mut [u8],
)
    requires sized { Sized room kinds.now nodes.now marks.old }
    requires block_list { BlockList sheet.now room part (blocks_in sheet.now part) }
    requires bit_free { BitFree (volume room) block_bit causes.old }
    ensures { BitAdded (volume room) block_bit (λ v. any (block_keepout room kinds.now nodes.now v) (blocks_in sheet.now part)) causes.old causes.new }
{
    lent::clear(marks);
    outset::cell_source_keepout(sheet, part, room, kinds, nodes, marks);
    add_bit(marks, 32, causes);
}

// Marks the clearances of the net's branches, which stand one behind the other.
fn mark_own(room: Room, branches: &[u32], lengths: BranchLengths, marks: &mut [u8])
    requires good { Good room }
    requires own_branches { OwnBranches room lengths branches.now }
    requires marks_len { length marks.old ≡ volume room }
    ensures { marks.new ≡ marked_by (λ v. any (cleared_by room v) (branches_of lengths branches.now)) marks.old }
{
    let mut from: usize = 0;
    for k in 0..lengths.count {
        let to = from + lengths.each[k];
        routing_resources::branch_stair_clearances(room, &branches[from..to], marks);
        from = to;
    }
}

// The clearances of the net's own branches.
pub fn add_own(
    room: Room,
    branches: &[u32],
    lengths: BranchLengths,
    marks: &mut [u8],
    causes: &mut [u8],
)
    requires good { Good room }
    requires own_branches { OwnBranches room lengths branches.now }
    requires marks_len { length marks.old ≡ volume room }
    requires bit_free { BitFree (volume room) own_bit causes.old }
    ensures { BitAdded (volume room) own_bit (λ v. any (cleared_by room v) (branches_of lengths branches.now)) causes.old causes.new }
{
    lent::clear(marks);
    mark_own(room, branches, lengths, marks);
    add_bit(marks, 64, causes);
}
