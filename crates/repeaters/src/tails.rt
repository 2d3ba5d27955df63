// Repeaters near the ends of Wire sinks, by the sink's tail limit, which is 8 in: "with over 8 steps after its last repeater
// (or the source): the earliest such cell among the last 8 before the end, not the first cell, with no repeater next to it
// on the path".
ghost use Rattle.std.specs.Prelude.{◌≡◌, ◌+◌, ◌-◌, ◌≤◌, ◌<◌, length};
ghost use Rattle.room.specs.Room.{volume};
ghost use Rattle.repeaters.specs.Repeaters.{earliest, last_reset, alone, tail_fit, reinforced};
ghost use Rattle.repeaters.specs.Links.{fit_by};
ghost use Rattle.repeaters.specs.Strides.{place_of};
ghost use Rattle.routing_resources.specs.Marks.{CellsBelow};

use crate::Path;
use room::as_index;
use routing_resources::MARKED;

// The place of the last repeater on the path, or else of the source, which is 0.
fn last_reset(path: &[u32], repeaters: &[u8]) -> usize
    requires { CellsBelow (length repeaters.now) path.now }
    ensures { result ≡ last_reset path.now repeaters.now }
{
    let mut last: usize = 0;
    for (i, cell) in path.iter().enumerate() {
        if repeaters[as_index(*cell)] == MARKED {
            last = i;
        }
    }
    last
}

// Whether no repeater is next to this place on the path.
fn stands_alone(path: &[u32], repeaters: &[u8], i: usize) -> bool
    requires cells_below { CellsBelow (length repeaters.now) path.now }
    requires i_nonzero { 0 < i }
    requires i_in_bounds { i + 1 < length path.now }
    ensures { result ≡ alone path.now repeaters.now i }
{
    let before = as_index(path[i - 1]);
    let behind = as_index(path[i + 1]);
    repeaters[before] != MARKED && repeaters[behind] != MARKED
}

impl Path<'_> {
    // Whether a repeater may stand at this place with none next to it.
    fn may_reinforce(&self, repeaters: &[u8], i: usize) -> bool
        requires repeaters_len { length repeaters.now ≡ volume self.now.room }
        requires i_in_bounds { i < length self.now.cells.now }
        ensures { result ≡ tail_fit (fit_by self.now.room self.now.links.now self.now.forbidden.now self.now.cells.now) self.now.cells.now repeaters.now i }
    {
        self.may_stand(i) && stands_alone(self.cells, repeaters, i)
    }

    // The earliest such place from `start` to the end.
    fn tail_place(&self, repeaters: &[u8], start: usize, end: usize) -> Option<usize>
        requires repeaters_len { length repeaters.now ≡ volume self.now.room }
        requires start_le_end { (start ≤ end) × (end ≤ length self.now.cells.now) }
        ensures { result ≡ place_of (earliest (tail_fit (fit_by self.now.room self.now.links.now self.now.forbidden.now self.now.cells.now) self.now.cells.now repeaters.now) (end - start) start) }
    {
        for i in start..end {
            if self.may_reinforce(repeaters, i) {
                return Some(i);
            }
        }
        None
    }

    // Puts one repeater near the end of a path whose last one is too far from it.
    pub fn reinforce_path(&self, repeaters: &mut [u8], limit: usize)
        requires { length repeaters.old ≡ volume self.now.room }
        ensures { repeaters.new ≡ reinforced limit (fit_by self.now.room self.now.links.now self.now.forbidden.now self.now.cells.now) self.now.cells.now repeaters.old }
    {
        let last = last_reset(self.cells, repeaters);
        if self.cells.len() <= last + 1 {
            return;
        }
        let end = self.cells.len() - 1;
        if end - last <= limit {
            return;
        }
        let place = self.tail_place(repeaters, end - limit, end);
        if let Some(place) = place {
            repeaters[as_index(self.cells[place])] = MARKED;
        }
    }
}
