// What may be said of one sink at its turn, and the marks and walls that show it.
ghost use Rattle.std.specs.Prelude.{◌≡◌, ◌≤◌, length};
ghost use Rattle.room.specs.Room.{Good};
ghost use Rattle.why_tree.specs.WhyTree.{ample, open_verdict};
ghost use Rattle.why_tree.specs.Telling.{joined_by, none_joined, SinkAsked, SinkTold};

use crate::obstacles::fill_obstacles;
use crate::{APPROACH_TAKEN, CUT_SHORT, ONLY_CONFLICTS, SHUT_IN};
use ground::Ground;
use room::{Room, RouterConfig, as_index};
use room_search::routeable_kind;
use routing_resources::MARKED;

// Whether a cell with these marks is reached and joinable.
fn is_joined(reached: u8, joinable: u8) -> bool
    ensures { result ≡ joined_by reached joinable }
{
    0 < reached && joinable == MARKED
}

// Whether no joinable cell is reached.
fn reaches_none(reached: &[u8], joinable: &[u8]) -> bool
    requires { length joinable.now ≤ length reached.now }
    ensures { result ≡ none_joined reached.now joinable.now }
{
    for (v, mark) in joinable.iter().enumerate() {
        if is_joined(reached[v], *mark) {
            return false;
        }
    }
    true
}

// Whether estimates hold at these costs, and no search passes this node limit.
fn is_ample(room: Room, config: RouterConfig) -> bool
    requires { Good room }
    ensures { result ≡ ample room config }
{
    let estimates_hold = 10 <= config.horizontal.0 && 20 <= config.stair.0;
    estimates_hold && 5 * (room.volume() - 1) < as_index(config.limit.0)
}

// What may be said where neither the approach nor walls are to blame.
fn open_verdict(room: Room, config: RouterConfig) -> u32
    requires { Good room }
    ensures { result ≡ open_verdict room config }
{
    if is_ample(room, config) {
        ONLY_CONFLICTS
    } else {
        CUT_SHORT
    }
}

// What may be said of a sink for which number 14 is due, where these cells are joinable and these are blocked. `reached` and
// `walls` tell where wire gets to from its approach, zeros behind both; `obstacles` and `line` are work memory.
pub fn tell_sink(
    ground: Ground,
    kinds: &[u8],
    blocked: &[u8],
    joinable: &[u8],
    approach: usize,
    obstacles: &mut [u8],
    line: &mut [u32],
    reached: &mut [u8],
    walls: &mut [u8],
) -> u32
    requires { SinkAsked ground kinds.now blocked.now joinable.now approach obstacles.old line.old reached.old walls.old }
    ensures { SinkTold ground kinds.now blocked.now joinable.now approach reached.old walls.old result reached.new walls.new }
{
    fill_obstacles(ground, kinds, blocked, joinable, approach, obstacles);
    flood::tell_walls(ground.room, obstacles, approach, line, reached, walls);
    if !routeable_kind(true, kinds[approach]) {
        APPROACH_TAKEN
    } else if reaches_none(reached, joinable) {
        SHUT_IN
    } else {
        open_verdict(ground.room, ground.config)
    }
}
