// The cells that free moves lead to, breadth first: a mark a cell, and a line of the cells marked, in the order in which
// they were reached.
ghost use Rattle.std.specs.Prelude.{◌≡◌, ℕ, ◌≤◌, ◌<◌, length, replicate};
ghost use Rattle.room.specs.Room.{Good, max_volume, volume};
ghost use Rattle.flood.specs.Walls.{byte_of, marks_by};
ghost use Rattle.flood.specs.Flooding.{Held, Met, OpenAt, OpenBy};

use room::{Room, as_index};

// A cell is reached, unless it was before, and waits at the line's end. Gives the line's new end.
fn meet(reached: &mut [u8], line: &mut [u32], end: usize, cell: usize) -> usize
    requires held { Held reached.old line.old end }
    requires reached_len_bound { length reached.old ≤ max_volume }
    requires cell_in_bounds { cell < length reached.old }
    ensures { Met (λ (w : ℕ). w ≡ cell) reached.old line.old end reached.new line.new result }
{
    if reached[cell] != 0 {
        return end;
    }
    reached[cell] = 1;
    line[end] = cell as u32;
    end + 1
}

// The same for a place, where nothing stands against it.
fn meet_place(
    obstacles: &[u8],
    reached: &mut [u8],
    line: &mut [u32],
    end: usize,
    place: Option<usize>,
) -> usize
    requires held { Held reached.old line.old end }
    requires reached_len_bound { length reached.old ≤ max_volume }
    requires obstacles_len { length obstacles.now ≡ length reached.old }
    requires by_index { (v : ℕ) → place ≡ Some v → v < length reached.old }
    ensures { Met (OpenAt (byte_of obstacles.now) place) reached.old line.old end reached.new line.new result }
{
    let Some(cell) = place else {
        return end;
    };
    if obstacles[cell] != 0 {
        return end;
    }
    meet(reached, line, end, cell)
}

// Meets the cells that the free moves of a cell lead to. Its position and the table of moves are made once, for all twelve.
fn visit(
    room: Room,
    obstacles: &[u8],
    from: usize,
    reached: &mut [u8],
    line: &mut [u32],
    end: usize,
) -> usize
    requires good { Good room }
    requires obstacles_len { length obstacles.now ≡ volume room }
    requires reached_len { length reached.old ≡ volume room }
    requires held { Held reached.old line.old end }
    requires from_bound { from < volume room }
    ensures { Met (OpenBy room (byte_of obstacles.now) from 12) reached.old line.old end reached.new line.new result }
{
    let at = room.pos(from);
    let mut last = end;
    for m in Room::MOVES {
        let place = room.neighbour_at(at, m);
        last = meet_place(obstacles, reached, line, last, place);
    }
    last
}

// Marks the start, and each cell that free moves lead to from it. `line` is work memory.
pub fn flood(room: Room, obstacles: &[u8], start: usize, reached: &mut [u8], line: &mut [u32])
    requires good { Good room }
    requires start_bound { start < volume room }
    requires obstacles_len { length obstacles.now ≡ volume room }
    requires reached_value { reached.old ≡ replicate (volume room) 0 }
    requires line_len { length line.old ≡ volume room }
    ensures { reached.new ≡ marks_by room (byte_of obstacles.now) start }
{
    reached[start] = 1;
    line[0] = start as u32;
    let mut head: usize = 0;
    let mut end: usize = 1;
    // No `for`: the line grows while it is walked.
    while head < end {
        let cell = as_index(line[head]);
        head += 1;
        end = visit(room, obstacles, cell, reached, line, end);
    }
}
