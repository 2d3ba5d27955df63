// The path from the source to each cell, breadth first over the tree, neighbours in number order. A parent u stands as
// u + 1, and 0 for none.
ghost use Rattle.std.specs.Prelude.{◌≡◌, [], ◌∷◌, ℕ, ◌<◌, length, replicate};
ghost use Rattle.room.specs.Room.{Good, volume, pos_of};
ghost use Rattle.repeaters.specs.Links.{ordered_moves, cons_place, cells_by};
ghost use Rattle.repeaters.specs.Searches.{Went, Spread};
ghost use Rattle.repeaters.specs.Roots.{Rooted};

use crate::Search;
use crate::links::linked_place;
use room::{Room, as_index};

impl Search<'_> {
    // A cell met from another is reached, unless it was before, and waits at the line's end.
    fn meet(&mut self, from: usize, cell: usize)
        requires from_in_bounds { from < length self.old.parents.now }
        requires cell_in_bounds { cell < length self.old.parents.now }
        ensures { Went from (cell ∷ []) self.old self.new }
    {
        if self.parents[cell] != 0 {
            return;
        }
        // the count rises last: up to then the new place is behind the line's end
        let reached = self.reached;
        self.line[reached] = cell as u32;
        self.parents[cell] = from as u32 + 1;
        self.reached = reached + 1;
    }

    // The same for a place, which outside the room is none.
    fn meet_place(&mut self, from: usize, place: Option<usize>)
        requires from_in_bounds { from < length self.old.parents.now }
        requires by_index { (v : ℕ) → place ≡ Some v → v < length self.old.parents.now }
        ensures { Went from (cons_place place []) self.old self.new }
    {
        if let Some(cell) = place {
            self.meet(from, cell);
        }
    }

    // Meets the tree neighbours of a cell, in number order.
    fn visit(&mut self, room: Room, mask: u32, from: usize)
        requires good { Good room }
        requires parents_len { length self.old.parents.now ≡ volume room }
        requires from_bound { from < volume room }
        ensures { Went from (cells_by room (pos_of room from) mask ordered_moves) self.old self.new }
    {
        let p = room.pos(from);
        let mut rest = mask;
        for k in 0..12 {
            let place = linked_place(room, p, rest, k);
            self.meet_place(from, place);
            rest /= 2;
        }
    }

    // Reaches each cell that the tree links to the source, which counts as met from itself.
    fn spread(&mut self, room: Room, source: usize, links: &[u32])
        requires good { Good room }
        requires source_bound { source < volume room }
        requires links_len { length links.now ≡ volume room }
        requires parents_value { self.old.parents.now ≡ replicate (volume room) 0 }
        requires none_reached { self.old.reached ≡ 0 }
        ensures { Spread room source links.now self.old self.new }
    {
        self.meet(source, source);
        let mut head: usize = 0;
        // no counting loop: each visit may add to the line, and so move its end
        while head < self.reached {
            let cell = as_index(self.line[head]);
            head += 1;
            self.visit(room, links[cell], cell);
        }
    }
}

// The parent of each cell that the tree links to the source, which itself has none.
pub fn rooted_parent(
    room: Room,
    source: usize,
    links: &[u32],
    parents: &mut [u32],
    line: &mut [u32],
)
    requires good { Good room }
    requires source_bound { source < volume room }
    requires links_len { length links.now ≡ volume room }
    requires parents_value { parents.old ≡ replicate (volume room) 0 }
    requires line_len { length line.old ≡ volume room }
    ensures { Rooted room source links.now parents.new }
{
    let mut search = Search {
        parents,
        line,
        reached: 0,
    };
    search.spread(room, source, links);
    parents[source] = 0;
}
