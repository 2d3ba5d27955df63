// Sweeps over the cells in number order, in place: from each known cell its twelve moves, until a sweep changes nothing.
ghost use Rattle.std.specs.Prelude.{◌≡◌, suc, ◌+◌, ◌<◌, ◌^◌, ltb, length, get_or};
ghost use Rattle.basics.specs.Lists.{In};
ghost use Rattle.basics.specs.Counts.{times};
ghost use Rattle.room.specs.Room.{max_volume, moves};
ghost use Rattle.room.specs.Units.{GoodRanges};
ghost use Rattle.room_search.specs.Routing.{total, price_of};
ghost use Rattle.plain.specs.Sweeping.{Lowered, Sweeping, MoveSwept, MovesSwept, Swept, Ready, Settled};

use crate::Errand;
use room::{Cost, Move, Room, RouterConfig};

// What the step of a move costs: flat, or a stair.
fn step_cost(config: RouterConfig, m: Move) -> Cost
    ensures { result.0 ≡ (price_of config m 0).step.0 }
{
    if m.y == 1 {
        config.horizontal
    } else {
        config.stair
    }
}

// What a move into a cell of that class costs: the step, and a new support where air is beneath.
fn move_cost(config: RouterConfig, m: Move, class: u8) -> Cost
    requires { GoodRanges config }
    ensures { result.0 ≡ total (price_of config m class) }
{
    let step = step_cost(config, m);
    if class == 2 {
        Cost(step.0 + config.support.0)
    } else {
        step
    }
}

// Lowers the cost of a cell, by way of `from`, where it is unknown or dearer; gives whether it was.
fn lower(known: &mut [u32], previous: &mut [u32], from: usize, cell: usize, cost: Cost) -> bool
    requires cell_in_bounds { (cell < length known.old) × (length previous.old ≡ length known.old) }
    requires from_lt_max_volume { (from < max_volume) × (cost.0 + 1 < 2 ^ 32) }
    ensures { Lowered from cell cost.0 known.old previous.old result known.new previous.new }
{
    let old = known[cell];
    if old != 0 && old <= cost.0 + 1 {
        return false;
    }
    known[cell] = cost.0 + 1;
    previous[cell] = (from + 1) as u32;
    true
}

// Tries one move of a cell that is known at that cost; gives whether it lowered a cost.
fn try_move(
    errand: Errand,
    classes: &[u8],
    known: &mut [u32],
    previous: &mut [u32],
    from: usize,
    cost: Cost,
    m: Move,
) -> bool
    requires sweeping { Sweeping errand classes.now known.old previous.old }
    requires from_value { get_or known.old from 0 ≡ suc cost.0 }
    requires fact { In m moves }
    ensures { MoveSwept errand classes.now from m known.old result known.new previous.new }
{
    let room = errand.room;
    let Some(cell) = room.neighbour(from, m) else {
        return false;
    };
    let class = classes[cell];
    if class == 0 {
        return false;
    }
    let step = move_cost(errand.config, m, class);
    lower(known, previous, from, cell, Cost(cost.0 + step.0))
}

// Tries the twelve moves of a cell in their order, if it is known; gives whether one of them lowered a cost.
fn try_moves(
    errand: Errand,
    classes: &[u8],
    known: &mut [u32],
    previous: &mut [u32],
    from: usize,
) -> bool
    requires sweeping { Sweeping errand classes.now known.old previous.old }
    requires from_in_bounds { from < length known.old }
    ensures { MovesSwept errand classes.now from known.old result known.new previous.new }
{
    let noted = known[from];
    if noted == 0 {
        return false;
    }
    let cost = Cost(noted - 1);
    let mut changed = false;
    for m in &Room::MOVES {
        changed |= try_move(errand, classes, known, previous, from, cost, *m);
    }
    changed
}

// One sweep over all cells; gives whether it lowered a cost.
fn sweep(errand: Errand, classes: &[u8], known: &mut [u32], previous: &mut [u32]) -> bool
    requires { Sweeping errand classes.now known.old previous.old }
    ensures { Swept errand classes.now known.old result known.new previous.new }
{
    let mut changed = false;
    for cell in 0..known.len() {
        changed |= try_moves(errand, classes, known, previous, cell);
    }
    changed
}

// From the start alone, sweeps until one changes nothing; gives how many sweeps were made: at most one a cell reached.
pub fn settle(errand: Errand, classes: &[u8], known: &mut [u32], previous: &mut [u32]) -> usize
    requires { Ready errand classes.now known.old previous.old }
    ensures { Settled errand classes.now known.new previous.new result }
{
    lent::clear(known);
    lent::clear(previous);
    let first = errand.start;
    known[first] = 1;
    let mut sweeps: usize = 0;
    let mut changed = true;
    // No `for`: how many sweeps it takes shows only as they are made.
    while changed {
        changed = sweep(errand, classes, known, previous);
        sweeps += 1;
    }
    sweeps
}

// How many cells are known.
pub fn count_known(known: &[u32]) -> usize
    ensures { result ≡ times (ltb 0) known.now }
{
    known.iter().filter(|cost| **cost != 0).count()
}
