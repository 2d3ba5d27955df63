// What a wire keeps clear of others, as marks: one byte a cell in a lent slice, 1 where the cell is marked and 0 where
// it is not. C lends them as bytes, so they are no `bool`s. Cells outside the room have no mark.
#![tactic(auto)]

ghost use Rattle.std.specs.Prelude.{◌≡◌, ℕ, ◌<◌, eqb, length};
ghost use Rattle.room.specs.Room.{Good, volume};
ghost use Rattle.routing_resources.specs.Marks.{with_byte, marked_by, unmarked_by, is_cell, AllCells};
ghost use Rattle.routing_resources.specs.Resources.{part_of, is_neighbour, in_keepout, clearance_of, is_clearance};

use room::{Room, as_index};

pub const UNMARKED: u8 = 0;

pub const MARKED: u8 = 1;

// Marks a cell.
pub fn mark(marks: &mut [u8], cell: usize)
    requires { cell < length marks.old }
    ensures { marks.new ≡ marked_by (eqb cell) marks.old }
{
    marks[cell] = MARKED;
}

// Takes a cell's mark away.
pub fn unmark(marks: &mut [u8], cell: usize)
    requires { cell < length marks.old }
    ensures { marks.new ≡ unmarked_by (eqb cell) marks.old }
{
    marks[cell] = UNMARKED;
}

// Writes a mark to the cell at a place, if there is one: a place outside the room has none.
pub fn put_mark(marks: &mut [u8], place: Option<usize>, mark: u8)
    requires { (v : ℕ) → place ≡ Some v → v < length marks.old }
    ensures { marks.new ≡ with_byte mark (is_cell place) marks.old }
{
    if let Some(cell) = place {
        marks[cell] = mark;
    }
}

// The level on which a neighbour stands.
#[derive(Clone, Copy, Debug, PartialEq, Eq)]
pub enum Rise {
    OneDown,
    SameLevel,
    OneUp,
}

impl Rise {
    // Which of three moves ends there: the moves stand in threes, one for each level.
    fn part(self) -> usize
        ensures value { result ≡ part_of self }
        ensures small { result < 3 }
    {
        match self {
            Rise::OneDown => 0,
            Rise::SameLevel => 1,
            Rise::OneUp => 2,
        }
    }
}

// Marks the four neighbours of a cell on one level.
pub fn horizontal_neighbors(room: Room, marks: &mut [u8], cell: usize, rise: Rise)
    requires good { Good room }
    requires cell_bound { cell < volume room }
    requires marks_len { length marks.old ≡ volume room }
    ensures { marks.new ≡ marked_by (is_neighbour room cell (part_of rise)) marks.old }
{
    let part = rise.part();
    let p = room.pos(cell);
    for k in 0..4 {
        let place = room.neighbour_at(p, Room::move_at(3 * k + part));
        put_mark(marks, place, MARKED);
    }
}

// Marks the keepout of a cell: its four neighbours, each also one up and one down. The cell itself and those right
// above and beneath it are none of them.
pub fn electrical_keepout_for_wire(room: Room, marks: &mut [u8], cell: usize)
    requires good { Good room }
    requires cell_bound { cell < volume room }
    requires marks_len { length marks.old ≡ volume room }
    ensures { marks.new ≡ marked_by (in_keepout room cell) marks.old }
{
    horizontal_neighbors(room, marks, cell, Rise::SameLevel);
    horizontal_neighbors(room, marks, cell, Rise::OneUp);
    horizontal_neighbors(room, marks, cell, Rise::OneDown);
}

// The clearance of a stair: the cell above its lower end. Two cells of one level have none.
pub fn clearance(room: Room, a: usize, b: usize) -> Option<usize>
    requires good { Good room }
    requires a_bound { a < volume room }
    requires b_bound { b < volume room }
    ensures { result ≡ clearance_of room a b }
{
    let p = room.pos(a);
    let q = room.pos(b);
    if p.y == q.y {
        None
    } else if p.y < q.y {
        room.above(a)
    } else {
        room.above(b)
    }
}

// Marks the clearances of all stairs along a branch.
pub fn branch_stair_clearances(room: Room, branch: &[u32], marks: &mut [u8])
    requires good { Good room }
    requires all_cells { AllCells room branch.now }
    requires marks_len { length marks.old ≡ volume room }
    ensures { marks.new ≡ marked_by (is_clearance room branch.now) marks.old }
{
    for i in 1..branch.len() {
        let place = clearance(room, as_index(branch[i - 1]), as_index(branch[i]));
        put_mark(marks, place, MARKED);
    }
}
