// Numbers 2 to 6 of a net's source, sinks, branches and limits.
ghost use Rattle.std.specs.Prelude.{◌≡◌, ◌&&◌, ◌∷◌, map, ◌≤◌, ◌<◌, eqb, leb, length, drop};
ghost use Rattle.room.specs.Room.{Good, volume, holds_at};
ghost use Rattle.job_sheet.specs.Sheet.{max_sinks, first_fault, sink_fault};
ghost use Rattle.ends.specs.Ends.{sinks_in};
ghost use Rattle.branches.specs.Branches.{lengths_in, branches_of, sum};
ghost use Rattle.repeater_plan.specs.Plan.{is_move, head_good, branch_fault, net, judged};
ghost use Rattle.repeater_plan.specs.Judging.{held};

use branches::BranchLengths;
use job_sheet::faults::{endpoint_fault, limit_fault, sink_fault};
use job_sheet::{Endpoint, Judgement, MAX_SINKS, Sinks};
use room::{Room, as_index};

// How many of sixteen places a count takes, which may be too high.
#[tactic(auto, unfolding(crate::specs::Judging::shorter))]
fn held(count: usize) -> usize
    ensures { (result ≡ held count) × (result ≤ max_sinks) }
{
    count.min(MAX_SINKS)
}

// Whether this is the place of that cell.
fn is_at(place: Option<usize>, cell: usize) -> bool
    ensures { result ≡ holds_at (eqb cell) place }
{
    place == Some(cell)
}

// Whether one of the twelve moves leads from cell a to cell b, by their positions.
fn is_move(room: Room, a: usize, b: usize) -> bool
    requires good { Good room }
    requires a_bound { a < volume room }
    ensures { result ≡ is_move room a b }
{
    for k in 0..Room::MOVES.len() {
        if is_at(room.neighbour(a, Room::move_at(k)), b) {
            return true;
        }
    }
    false
}

// Whether a place of a branch is in the room, and the step to the next is one of the twelve moves.
fn place_good(room: Room, branch: &[u32], i: usize) -> bool
    requires good { Good room }
    requires i_in_bounds { i < length branch.now }
    ensures { result ≡ head_good room (drop i branch.now) }
{
    let cell = as_index(branch[i]);
    if room.volume() <= cell {
        return false;
    }
    branch.len() <= i + 1 || is_move(room, cell, as_index(branch[i + 1]))
}

// What is wrong with a branch: "4 also for a branch step that isn't one of the twelve moves".
fn branch_fault(room: Room, branch: &[u32]) -> Judgement
    requires { Good room }
    ensures { result ≡ branch_fault room branch.now }
{
    for i in 0..branch.len() {
        if !place_good(room, branch, i) {
            return Judgement::Position;
        }
    }
    Judgement::Good
}

// The fault found so far or, where there is none, the first of the sinks.
fn first_sink(found: Judgement, room: Room, sinks: Sinks) -> Judgement
    requires { length sinks.ends ≡ max_sinks }
    ensures { result ≡ first_fault (found ∷ map (sink_fault room) (sinks_in sinks)) }
{
    let count = held(sinks.count);
    let mut fault = found;
    for sink in &sinks.ends[..count] {
        if !fault.is_good() {
            return fault;
        }
        fault = sink_fault(room, *sink);
    }
    fault
}

// The fault found so far or, where there is none, the first of the branches; of a length that goes too far, what is there.
fn first_branch(found: Judgement, room: Room, branches: &[u32], lengths: BranchLengths) -> Judgement
    requires good { Good room }
    requires each_len { length lengths.each ≡ max_sinks }
    ensures { result ≡ first_fault (found ∷ map (branch_fault room) (branches_of lengths branches.now)) }
{
    let count = held(lengths.count);
    let mut fault = found;
    let mut from: usize = 0;
    for length in &lengths.each[..count] {
        if !fault.is_good() {
            return fault;
        }
        let held = (*length).min(branches.len() - from);
        let to = from + held;
        fault = branch_fault(room, &branches[from..to]);
        from = to;
    }
    fault
}

// "2, 3, 4 before 5 in each record (source, sinks, then branches)".
pub fn judge(
    room: Room,
    run: usize,
    source: Endpoint,
    sinks: Sinks,
    branches: &[u32],
    lengths: BranchLengths,
) -> Judgement
    requires { (length sinks.ends ≡ max_sinks) × (length lengths.each ≡ max_sinks) }
    ensures { result ≡ judged (net room run source sinks branches.now lengths) }
{
    if !room.good() {
        return Judgement::Sides;
    }
    let limit = limit_fault(run);
    if !limit.is_good() {
        return limit;
    }
    let mut fault = endpoint_fault(room, source);
    fault = first_sink(fault, room, sinks);
    first_branch(fault, room, branches, lengths)
}

// Whether the lengths add up to no more than the cells that are there; they are taken away one by one, since their sum may
// be too large.
fn add_up_within(lengths: BranchLengths, cells: usize) -> bool
    requires { (length lengths.each ≡ max_sinks) × (lengths.count ≤ max_sinks) }
    ensures { result ≡ leb (sum (lengths_in lengths)) cells }
{
    let mut left = cells;
    for length in &lengths.each[..lengths.count] {
        if left < *length {
            return false;
        }
        left -= *length;
    }
    true
}

// Number 6 is due where this is false, or `lent_good`.
pub fn counts_good(sinks: usize, lengths: BranchLengths, cells: usize) -> bool
    requires { length lengths.each ≡ max_sinks }
    ensures { result ≡ leb sinks max_sinks && (leb lengths.count max_sinks && leb (sum (lengths_in lengths)) cells) }
{
    sinks <= MAX_SINKS && lengths.count <= MAX_SINKS && add_up_within(lengths, cells)
}
