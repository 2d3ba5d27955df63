// Where a repeater may stand on a path.
ghost use Rattle.std.specs.Prelude.{◌≡◌, ◌<◌, length};
ghost use Rattle.room.specs.Room.{max_side, Good, SmallPos, volume};
ghost use Rattle.repeaters.specs.Repeaters.{steps_by, facing_by, facing_of, straight, fits};
ghost use Rattle.repeaters.specs.Links.{linked_cells};

use crate::Path;
use crate::links::count_links;
use room::{EAST, NO_FACING, NORTH, Pos, Room, SOUTH, WEST, as_index};
use routing_resources::MARKED;

// Whether b is one more than a, and c is d.
fn steps_by(a: usize, b: usize, c: usize, d: usize) -> bool
    requires { a < max_side }
    ensures { result ≡ steps_by a b c d }
{
    a + 1 == b && c == d
}

// The facing of a step between two positions: none unless it is a flat one.
fn facing_by(p: Pos, q: Pos) -> u8
    requires small_pos { SmallPos p }
    requires small_pos_2 { SmallPos q }
    ensures { result ≡ facing_by p q }
{
    if p.y != q.y {
        return NO_FACING;
    }
    if steps_by(p.x, q.x, p.z, q.z) {
        return EAST;
    }
    if steps_by(q.x, p.x, p.z, q.z) {
        return WEST;
    }
    if steps_by(p.z, q.z, p.x, q.x) {
        return SOUTH;
    }
    if steps_by(q.z, p.z, p.x, q.x) {
        return NORTH;
    }
    NO_FACING
}

// The facing of a step from cell a to cell b.
pub fn facing(room: Room, a: usize, b: usize) -> u8
    requires good { Good room }
    requires a_bound { a < volume room }
    requires b_bound { b < volume room }
    ensures { result ≡ facing_of room a b }
{
    let p = room.pos(a);
    let q = room.pos(b);
    facing_by(p, q)
}

// "Equal flat facing in and out".
fn goes_straight(room: Room, a: usize, b: usize, c: usize) -> bool
    requires good { Good room }
    requires a_bound { a < volume room }
    requires b_bound { b < volume room }
    requires c_bound { c < volume room }
    ensures { result ≡ straight room a b c }
{
    let into = facing(room, a, b);
    into != NO_FACING && into == facing(room, b, c)
}

impl Path<'_> {
    // Whether a repeater may stand at a place of the path: "not a terminal or approach of this net, has a next cell, two
    // tree neighbours and equal flat facing in and out".
    pub fn may_stand(&self, i: usize) -> bool
        requires { i < length self.now.cells.now }
        ensures { result ≡ fits self.now.room (linked_cells self.now.room self.now.links.now) self.now.forbidden.now self.now.cells.now i }
    {
        if i == 0 || self.cells.len() <= i + 1 {
            return false;
        }
        let cell = as_index(self.cells[i]);
        self.forbidden[cell] != MARKED
            && count_links(self.room, self.links[cell], cell) == 2
            && goes_straight(
                self.room,
                as_index(self.cells[i - 1]),
                cell,
                as_index(self.cells[i + 1]),
            )
    }
}
