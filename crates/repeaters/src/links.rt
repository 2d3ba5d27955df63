// The tree neighbours of each cell, as a mask of twelve bits.
ghost use Rattle.std.specs.Prelude.{◌≡◌, ◌&&◌, ◌≤◌, ◌<◌, ◌^◌, eqb, length, replicate};
ghost use Rattle.room.specs.Room.{Good, Within, volume, pos_of, Step};
ghost use Rattle.repeaters.specs.Links.{ordered_moves, ordered_move, linked_place, cells_by, linked_cells};
ghost use Rattle.branches.specs.Branches.{branches_of};
ghost use Rattle.repeaters.specs.Repeaters.{is_step, beside_on, tree_neighbours};
ghost use Rattle.repeaters.specs.Masks.{Steps, BranchesReady, Masked, NowLinked, move_index, step_index};

use branches::BranchLengths;
use room::{Move, Pos, Room, as_index};

// The places of the moves among Room::MOVES, in the number order of the cells that they lead to.
const NUMBER_ORDER: [usize; 12] = [3, 4, 5, 9, 6, 10, 7, 11, 8, 0, 1, 2];

// The k-th of the moves in number order.
fn ordered_move(k: usize) -> Move
    requires { k < 12 }
    ensures { result ≡ ordered_move k }
{
    Room::move_at(NUMBER_ORDER[k])
}

// The cell that the k-th move leads to, if the mask's lowest bit is set.
pub fn linked_place(room: Room, p: Pos, mask: u32, k: usize) -> Option<usize>
    requires good { Good room }
    requires within { Within room p }
    requires k_bound { k < 12 }
    ensures { result ≡ linked_place room p mask (ordered_move k) }
{
    if mask % 2 == 1 {
        room.neighbour_at(p, ordered_move(k))
    } else {
        None
    }
}

// How many tree neighbours a cell has.
pub fn count_links(room: Room, mask: u32, cell: usize) -> usize
    requires good { Good room }
    requires cell_bound { cell < volume room }
    ensures { result ≡ length (cells_by room (pos_of room cell) mask ordered_moves) }
{
    let p = room.pos(cell);
    let mut rest = mask;
    let mut count: usize = 0;
    for k in 0..NUMBER_ORDER.len() {
        let place = linked_place(room, p, rest, k);
        count += usize::from(place.is_some());
        rest /= 2;
    }
    count
}

// The values of the twelve bits.
const BITS: [u32; 12] = [1, 2, 4, 8, 16, 32, 64, 128, 256, 512, 1024, 2048];

fn bit_value(k: usize) -> u32
    requires { k < 12 }
    ensures { result ≡ 2 ^ k }
{
    BITS[k]
}

// The number of a move among those in number order.
fn move_index(m: Move) -> usize
    requires { (m.y ≤ 2) × (m.z ≤ 2) }
    ensures { result ≡ move_index m }
{
    if m.x == 0 {
        return m.y;
    }
    if m.x == 1 {
        return 3 + m.y * 2 + m.z / 2;
    }
    9 + m.y
}

// The number of the move that leads from a to b.
fn step_index(room: Room, a: usize, b: usize) -> usize
    requires good { Good room }
    requires step { Step room a b }
    ensures { result ≡ step_index room a b }
{
    let p = room.pos(a);
    let q = room.pos(b);
    move_index(Move {
        x: q.x + 1 - p.x,
        y: q.y + 1 - p.y,
        z: q.z + 1 - p.z,
    })
}

// Sets the bit of a's mask that leads to b.
fn link(room: Room, links: &mut [u32], a: usize, b: usize)
    requires good { Good room }
    requires step { Step room a b }
    requires masked { Masked room links.old }
    ensures { NowLinked room (λ u v. eqb a u && eqb b v) links.old links.new }
{
    let value = bit_value(step_index(room, a, b));
    let mask = links[a];
    if mask / value % 2 == 0 {
        links[a] = mask + value;
    }
}

// Joins two cells that are one step apart, both ways round.
fn link_both(room: Room, links: &mut [u32], a: usize, b: usize)
    requires good { Good room }
    requires step { Step room a b }
    requires masked { Masked room links.old }
    ensures { NowLinked room (is_step a b) links.old links.new }
{
    link(room, links, b, a);
    link(room, links, a, b);
}

// Joins each cell of a branch to the next.
fn link_branch(room: Room, branch: &[u32], links: &mut [u32])
    requires good { Good room }
    requires steps { Steps room branch.now }
    requires masked { Masked room links.old }
    ensures { NowLinked room (beside_on branch.now) links.old links.new }
{
    for step in branch.windows(2) {
        link_both(room, links, as_index(step[0]), as_index(step[1]));
    }
}

// The tree neighbours of each cell, over all branches, which stand one behind the other.
pub fn tree_adjacency(room: Room, branches: &[u32], lengths: BranchLengths, links: &mut [u32])
    requires good { Good room }
    requires branches_ready { BranchesReady room lengths branches.now }
    requires links_value { links.old ≡ replicate (volume room) 0 }
    ensures { linked_cells room links.new ≡ tree_neighbours (branches_of lengths branches.now) (volume room) }
{
    let mut from: usize = 0;
    for length in &lengths.each[..lengths.count] {
        let to = from + *length;
        link_branch(room, &branches[from..to], links);
        from = to;
    }
}
