// What stands against entering each cell at a sink's turn, where any joinable cell may be the goal.
ghost use Rattle.std.specs.Prelude.{◌≡◌, ◌<◌, length};
ghost use Rattle.room.specs.Room.{volume, beneath, holds_at};
ghost use Rattle.flood.specs.Walls.{tabled};
ghost use Rattle.why.specs.Why.{obstacle_for};
ghost use Rattle.why_tree.specs.WhyTree.{exempt, kept_free, blocking_for, tree_obstacle};
ghost use Rattle.why_tree.specs.Telling.{TurnFits};

use ground::{Ground, Mode};
use room::Room;
use room_search::{class_for, kind_beneath, routeable_kind};
use routing_resources::MARKED;

// The cell isn't routeable.
const TAKEN: u8 = 2;

// It is, and what is beneath it bears nothing.
const BAD_SUPPORT: u8 = 3;

// It is kept free.
const KEPT_FREE: u8 = 4;

// What is beneath it is kept free, in strict mode.
const SUPPORT_KEPT_FREE: u8 = 5;

// Whether a cell is exempt from blocking.
fn is_exempt(joinable: &[u8], approach: usize, cell: usize) -> bool
    requires { cell < length joinable.now }
    ensures { result ≡ exempt joinable.now approach cell }
{
    cell == approach || joinable[cell] == MARKED
}

// Whether a cell is blocked Air that is not exempt.
fn kept_free(kinds: &[u8], blocked: &[u8], joinable: &[u8], approach: usize, cell: usize) -> bool
    requires { (cell < length kinds.now) × (cell < length blocked.now) × (cell < length joinable.now) }
    ensures { result ≡ kept_free kinds.now blocked.now joinable.now approach cell }
{
    kinds[cell] == room::AIR && blocked[cell] == MARKED && !is_exempt(joinable, approach, cell)
}

// Whether the cell right beneath is; outside nothing is.
fn kept_beneath(
    room: Room,
    kinds: &[u8],
    blocked: &[u8],
    joinable: &[u8],
    approach: usize,
    cell: usize,
) -> bool
    requires turn_fits { TurnFits room kinds.now blocked.now joinable.now }
    requires cell_bound { cell < volume room }
    ensures { result ≡ holds_at (kept_free kinds.now blocked.now joinable.now approach) (beneath room cell) }
{
    match room.beneath(cell) {
        Some(below) => kept_free(kinds, blocked, joinable, approach, below),
        None => false,
    }
}

// What blocking has against a cell.
fn blocking_for(mode: Mode, free: bool, below: bool) -> u8
    ensures { result ≡ blocking_for mode free below }
{
    if free {
        KEPT_FREE
    } else if below && matches!(mode, Mode::Strict) {
        SUPPORT_KEPT_FREE
    } else {
        flood::ALLOWED
    }
}

// What its kind and what is beneath it have against a cell.
fn obstacle_for(end: bool, kind: u8, below: u8) -> u8
    ensures { result ≡ obstacle_for end kind below }
{
    if !routeable_kind(end, kind) {
        TAKEN
    } else if class_for(end, kind, below) == 0 {
        BAD_SUPPORT
    } else {
        flood::ALLOWED
    }
}

// Of both the least.
fn obstacle_at(
    ground: Ground,
    kinds: &[u8],
    blocked: &[u8],
    joinable: &[u8],
    approach: usize,
    cell: usize,
) -> u8
    requires turn_fits { TurnFits ground.room kinds.now blocked.now joinable.now }
    requires cell_bound { cell < volume ground.room }
    ensures { result ≡ tree_obstacle ground.mode ground.room kinds.now blocked.now joinable.now approach cell }
{
    let mode = ground.mode;
    let room = ground.room;
    let below = kind_beneath(room, kinds, cell);
    let first = obstacle_for(is_exempt(joinable, approach, cell), kinds[cell], below);
    if first == flood::ALLOWED {
        let free = kept_free(kinds, blocked, joinable, approach, cell);
        let beneath = kept_beneath(room, kinds, blocked, joinable, approach, cell);
        blocking_for(mode, free, beneath)
    } else {
        first
    }
}

// Fills in each cell's obstacle, whatever the bytes held.
pub fn fill_obstacles(
    ground: Ground,
    kinds: &[u8],
    blocked: &[u8],
    joinable: &[u8],
    approach: usize,
    obstacles: &mut [u8],
)
    requires turn_fits { TurnFits ground.room kinds.now blocked.now joinable.now }
    requires obstacles_len { length obstacles.old ≡ volume ground.room }
    ensures { obstacles.new ≡ tabled (volume ground.room) (tree_obstacle ground.mode ground.room kinds.now blocked.now joinable.now approach) }
{
    for (v, obstacle) in obstacles.iter_mut().enumerate() {
        *obstacle = obstacle_at(ground, kinds, blocked, joinable, approach, v);
    }
}
