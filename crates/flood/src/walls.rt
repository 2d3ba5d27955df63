// What stands against each move out of the cells reached, as twelve bytes a cell.
ghost use Rattle.std.specs.Prelude.{◌≡◌, true, ℕ, ◌+◌, ◌*◌, ◌≤◌, ◌<◌, length, replicate};
ghost use Rattle.room.specs.Room.{Good, volume};
ghost use Rattle.flood.specs.Walls.{reason_at, wall_at, walls_over, byte_of, marked_in, WallsWritten, WallsTold};
ghost use Rattle.flood.specs.Flooding.{Written};

use crate::OUTSIDE;
use crate::marks::flood;
use room::Room;

// What stands against entering a place.
fn reason_at(obstacles: &[u8], place: Option<usize>) -> u8
    requires { (v : ℕ) → place ≡ Some v → v < length obstacles.now }
    ensures { result ≡ reason_at (byte_of obstacles.now) place }
{
    place.map_or(OUTSIDE, |cell| obstacles[cell])
}

// Writes the twelve bytes of a cell that is reached; those of the cells before it are written. Its position and the table of
// moves are made once, for all twelve.
fn write_cell(room: Room, obstacles: &[u8], reached: &[u8], cell: usize, walls: &mut [u8])
    requires good { Good room }
    requires obstacles_len { length obstacles.now ≡ volume room }
    requires cell_bound { cell < volume room }
    requires cell_value { marked_in reached.now cell ≡ true }
    requires written { Written (wall_at room (byte_of obstacles.now) (marked_in reached.now)) (12 * volume room) walls.old (12 * cell) }
    ensures { Written (wall_at room (byte_of obstacles.now) (marked_in reached.now)) (12 * volume room) walls.new (12 * (cell + 1)) }
{
    let at = room.pos(cell);
    for (i, m) in Room::MOVES.iter().enumerate() {
        let place = room.neighbour_at(at, *m);
        walls[12 * cell + i] = reason_at(obstacles, place);
    }
}

// Writes the byte of each move of each cell, over zeros: those of a cell that is not reached stay 0.
pub fn write_walls(room: Room, obstacles: &[u8], reached: &[u8], walls: &mut [u8])
    requires good { Good room }
    requires obstacles_len { length obstacles.now ≡ volume room }
    requires reached_len { length reached.now ≡ volume room }
    requires walls_value { walls.old ≡ replicate (12 * volume room) 0 }
    ensures { walls.new ≡ walls_over room (byte_of obstacles.now) (marked_in reached.now) }
{
    for (cell, mark) in reached.iter().enumerate() {
        if 0 < *mark {
            write_cell(room, obstacles, reached, cell, walls);
        }
    }
}

// The marks and the walls, over memory of exactly V cells.
fn tell_cells(
    room: Room,
    obstacles: &[u8],
    start: usize,
    line: &mut [u32],
    reached: &mut [u8],
    walls: &mut [u8],
)
    requires good { Good room }
    requires start_bound { start < volume room }
    requires obstacles_len { length obstacles.now ≡ volume room }
    requires line_len { length line.old ≡ volume room }
    requires reached_value { reached.old ≡ replicate (volume room) 0 }
    requires walls_value { walls.old ≡ replicate (12 * volume room) 0 }
    ensures { WallsWritten room (byte_of obstacles.now) start reached.new walls.new }
{
    flood(room, obstacles, start, reached, line);
    write_walls(room, obstacles, reached, walls);
}

// The marks and the walls, zeros behind both, whatever they held. `line` is work memory.
pub fn tell_walls(
    room: Room,
    obstacles: &[u8],
    start: usize,
    line: &mut [u32],
    reached: &mut [u8],
    walls: &mut [u8],
)
    requires good { Good room }
    requires start_bound { start < volume room }
    requires obstacles_len { length obstacles.now ≡ volume room }
    requires line_len { length line.old ≡ volume room }
    requires room_in_bounds { volume room ≤ length reached.old }
    requires room_in_bounds_2 { 12 * volume room ≤ length walls.old }
    ensures { WallsTold room (byte_of obstacles.now) start reached.old walls.old reached.new walls.new }
{
    let cells = room.volume();
    lent::clear(reached);
    lent::clear(walls);
    tell_cells(
        room,
        obstacles,
        start,
        line,
        &mut reached[..cells],
        &mut walls[..12 * cells],
    );
}
