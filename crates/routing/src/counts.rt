// The totals of a path beside its cost: what its steps come to without supports, and how many supports are new.
ghost use Rattle.std.specs.Prelude.{◌≡◌, ◌<◌, length};
ghost use Rattle.room.specs.Room.{Good, volume};
ghost use Rattle.routing.specs.Totals.{step_of, laid_at, totals_of};
ghost use Rattle.routing.specs.TotalLaws.{Countable};

use crate::Totals;
use room::{Cost, Room, RouterConfig, as_index};
use room_search::kind_beneath;

// What the step from one cell to another costs by itself: flat, or a stair.
fn step_between(room: Room, config: RouterConfig, from: usize, to: usize) -> u32
    requires { Good room }
    ensures { result ≡ step_of room config from to }
{
    let here = room.pos(from);
    let there = room.pos(to);
    if here.y == there.y {
        config.horizontal.0
    } else {
        config.stair.0
    }
}

// How many supports are new beneath a cell: one where Air stands there.
fn laid_beneath(room: Room, kinds: &[u8], cell: usize) -> usize
    requires good { Good room }
    requires kinds_len { length kinds.now ≡ volume room }
    requires cell_bound { cell < volume room }
    ensures { result ≡ laid_at room kinds.now cell }
{
    if kind_beneath(room, kinds, cell) == room::AIR {
        1
    } else {
        0
    }
}

// Along the path, each cell but the start: the step to it, and the support beneath it.
pub fn totals_of(room: Room, config: RouterConfig, kinds: &[u8], path: &[u32]) -> Totals
    requires { Countable room config kinds.now path.now }
    ensures { result ≡ totals_of room config kinds.now path.now }
{
    let mut steps: u32 = 0;
    let mut laid: usize = 0;
    for i in 1..path.len() {
        let from = as_index(path[i - 1]);
        let to = as_index(path[i]);
        steps += step_between(room, config, from, to);
        laid += laid_beneath(room, kinds, to);
    }
    Totals {
        steps: Cost(steps),
        supports: Cost(laid as u32 * config.support.0),
        laid: laid,
    }
}
