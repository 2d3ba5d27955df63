// What stands against entering each cell, by what it takes to enter it.
ghost use Rattle.std.specs.Prelude.{◌≡◌, ◌<◌, length};
ghost use Rattle.room.specs.Room.{Good, volume};
ghost use Rattle.why.specs.Telling.{obstacle_by, obstacles_by, obstacles_in};

use blocked_world::an_end;
use room::Room;
use room_search::{fill_classes, make_end, routeable_kind};

// The cell isn't routeable.
const TAKEN: u8 = 2;

// It is, and what is beneath it bears nothing.
const BAD_SUPPORT: u8 = 3;

// What stands against entering a cell of that kind and class.
fn obstacle_by(endpoint: bool, kind: u8, class: u8) -> u8
    ensures { result ≡ obstacle_by endpoint kind class }
{
    if class != 0 {
        flood::ALLOWED
    } else if routeable_kind(endpoint, kind) {
        BAD_SUPPORT
    } else {
        TAKEN
    }
}

// Turns each cell's class into its obstacle.
fn turn_to_obstacles(kinds: &[u8], start: usize, goal: usize, classes: &mut [u8])
    requires { length classes.old ≡ length kinds.now }
    ensures { classes.new ≡ obstacles_by kinds.now start goal classes.old }
{
    for (v, kind) in kinds.iter().enumerate() {
        let endpoint = an_end(start, goal, v);
        classes[v] = obstacle_by(endpoint, *kind, classes[v]);
    }
}

// Fills in each cell's obstacle: the classes as a search has them, turned.
pub fn fill_obstacles(room: Room, kinds: &[u8], start: usize, goal: usize, obstacles: &mut [u8])
    requires good { Good room }
    requires kinds_len { length kinds.now ≡ volume room }
    requires obstacles_len { length obstacles.old ≡ volume room }
    requires start_bound { start < volume room }
    requires goal_bound { goal < volume room }
    ensures { obstacles.new ≡ obstacles_in room kinds.now start goal }
{
    fill_classes(room, kinds, obstacles);
    make_end(room, kinds, obstacles, start);
    make_end(room, kinds, obstacles, goal);
    turn_to_obstacles(kinds, start, goal, obstacles);
}
