// The cells that some search of a sink's turn may enter, as class bytes.
ghost use Rattle.std.specs.Prelude.{◌≡◌, ◌<◌, IfSome, length};
ghost use Rattle.room.specs.Room.{Good, volume};
ghost use Rattle.blocked_world.specs.BlockedWorld.{WorldFits, Says};
ghost use Rattle.relaxed.specs.Labels.{Opened, OpensBoth, ShutBelow};

use ground::Ground;
use room::Room;
use room_search::{OPEN, SHUT};

// Opens a cell and the one right above it.
fn open_both(room: Room, classes: &mut [u8], cell: usize)
    requires good { Good room }
    requires classes_len { length classes.old ≡ volume room }
    requires cell_bound { cell < volume room }
    ensures { OpensBoth room cell classes.old classes.new }
{
    classes[cell] = OPEN;
    if let Some(over) = room.above(cell) {
        classes[over] = OPEN;
    }
}

// Beside what can be entered at the turn, a search may enter its goal, and the cell above, which the goal may bear. Each
// joinable cell is some search's goal.
pub fn open_goals(room: Room, joinable: &[u8], classes: &mut [u8])
    requires good { Good room }
    requires joinable_len { length joinable.now ≡ volume room }
    requires classes_len { length classes.old ≡ volume room }
    ensures { Opened room joinable.now classes.old classes.new }
{
    for (cell, mark) in joinable.iter().enumerate() {
        if *mark == routing_resources::MARKED {
            open_both(room, classes, cell);
        }
    }
}

// The bytes say again what is seen at the turn: those of each joinable cell and of the one right above it are written anew.
pub fn shut_goals(
    ground: Ground,
    kinds: &[u8],
    joinable: &[u8],
    blocked: &[u8],
    classes: &mut [u8],
    start: usize,
)
    requires world_fits { WorldFits ground.room kinds.now blocked.now }
    requires joinable_len { length joinable.now ≡ volume ground.room }
    requires shut_below { ShutBelow ground.mode ground.room kinds.now joinable.now blocked.now start 0 classes.old }
    ensures { Says ground.mode ground.room kinds.now blocked.now start start classes.new }
{
    for (cell, mark) in joinable.iter().enumerate() {
        if *mark == routing_resources::MARKED {
            blocked_world::refresh(ground, kinds, blocked, start, start, classes, cell);
        }
    }
}

// The first cell that is not open, if there is one.
pub fn first_shut(classes: &[u8]) -> Option<usize>
    ensures { IfSome result (λ cell. cell < length classes.now) }
{
    classes.iter().position(|class| *class == SHUT)
}
