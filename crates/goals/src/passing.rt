// Goals that can't win are not searched. Where no queue is ever full, the first strictly cheapest route is the one that
// comes first by cost and goal number, in whatever order the goals are tried. A goal's bid is the least that its route can
// cost, with its number; goals are tried from the lowest bid on, until none is left that may come before what is kept.
ghost use Rattle.std.specs.Prelude.{◌≡◌, true, ◌+◌, ◌-◌, ◌≤◌, ◌<◌, min, length, Ok};
ghost use Rattle.room.specs.Room.{Good, SmallPos, volume, pos_of};
ghost use Rattle.room.specs.Units.{max_cost, GoodRanges};
ghost use Rattle.goals.specs.Goals.{route_to_tree};
ghost use Rattle.goals.specs.Trials.{Tells, length_of, site_in, Attemptable};
ghost use Rattle.goals.specs.NeverFull.{NeverFull};
ghost use Rattle.goals.specs.Labelled.{KeptInside};
ghost use Rattle.goals.specs.Passing.{least_at, precedes, route_of, bid_of, bid_to_beat, SmallKept, PassesOn, KeepsFirst, Passable, NextMarked, LowerBid, NextBid};

use crate::cheapest::copy_cells;
use crate::goal_by_goal::try_goal;
use crate::labelled::by_labels;
use crate::{Bid, Found, Kept, QueueFull, Tried, Turn};
use ground::Ground;
use room::{Pos, Room, RouterConfig};

// What the cost counts for in a bid: a goal's number is below it.
const PER_COST: u64 = room::MAX_VOLUME as u64;

// Above every bid: no cost of 32 bits comes to so much.
const NO_BID: u64 = 4294967296 * PER_COST;

// A route that is longer than twice the straight one by this many cells makes a detour.
const DETOUR: usize = 5;

// The cheaper of a flat step and a stair.
fn cheaper_step(config: RouterConfig) -> u32
    requires { GoodRanges config }
    ensures { (result ≡ min config.horizontal.0 config.stair.0) × (result ≤ max_cost) }
{
    config.horizontal.0.min(config.stair.0)
}

// What any route between two positions costs at least: a stair for each cell up or down, and the cheaper step for each cell
// aside that is then left.
pub fn least_at(config: RouterConfig, p: Pos, q: Pos) -> u32
    requires good_ranges { GoodRanges config }
    requires small_pos { SmallPos p }
    requires small_pos_2 { SmallPos q }
    ensures { result ≡ least_at config p q }
{
    let up = room::apart(p.y, q.y);
    let aside = room::apart(p.x, q.x) + room::apart(p.z, q.z);
    let rest = aside.saturating_sub(up);
    let cheaper = cheaper_step(config);
    up as u32 * config.stair.0 + rest as u32 * cheaper
}

// Whether a route of this cost to this goal comes before what is kept: it is cheaper, or as cheap and its goal has the
// lower number.
pub fn precedes(kept: Option<Kept>, cost: u32, goal: usize) -> bool
    ensures { result ≡ precedes cost goal kept }
{
    let Some(kept) = kept else {
        return true;
    };
    let other = kept.found.cost.0;
    if cost == other {
        goal < kept.goal
    } else {
        cost < other
    }
}

// The route that is kept, if there is one.
fn route_of(kept: Option<Kept>) -> Option<Found>
    ensures { result ≡ route_of kept }
{
    kept.map(|kept| kept.found)
}

// Of what is kept and what this goal came to, the one that comes first.
fn keep_first(
    kept: Option<Kept>,
    goal: usize,
    tried: Option<Found>,
    path: &[u32],
    best: &mut [u32],
) -> Option<Kept>
    requires { (length path.now ≡ length best.old) × (length_of (Ok tried) ≤ length path.now) }
    ensures { KeepsFirst kept goal (Ok tried) path.now best.old result best.new }
{
    let Some(found) = tried else {
        return kept;
    };
    if !precedes(kept, found.cost.0, goal) {
        return kept;
    }
    copy_cells(path, best, found.length);
    Some(Kept { found, goal })
}

// The first marked cell from here on, if one is left. A loop of its own, since most cells are unmarked.
fn next_marked(marks: &[u8], from: usize) -> Option<usize>
    ensures { NextMarked marks.now from result }
{
    for cell in from..marks.len() {
        if marks[cell] == routing_resources::MARKED {
            return Some(cell);
        }
    }
    None
}

// Where a turn's routes begin, and what steps cost there.
#[derive(Clone, Copy)]
pub struct Viewpoint {
    pub room: Room,
    pub config: RouterConfig,
    pub from: Pos,
    ghost good: { Good room },
    ghost good_ranges: { GoodRanges config },
    ghost small: { SmallPos from },
}

impl Viewpoint {
    // A sink's approach.
    pub fn new(ground: Ground, start: usize) -> Viewpoint
        requires good { Good ground.room }
        requires good_ranges { GoodRanges ground.config }
        requires start_in { start < volume ground.room }
        ensures { (result.room ≡ ground.room) × (result.config ≡ ground.config) × (result.from ≡ pos_of ground.room start) }
    {
        Viewpoint {
            room: ground.room,
            config: ground.config,
            from: ground.room.pos(start),
        }
    }

    // What a route to a cell costs at least.
    pub fn least_to(self, cell: usize) -> u32
        requires { cell < volume self.room }
        ensures { result ≡ least_at self.config self.from (pos_of self.room cell) }
    {
        least_at(self.config, self.from, self.room.pos(cell))
    }

    // A goal's bid.
    pub fn bid_of(self, goal: usize) -> u64
        requires { goal < volume self.room }
        ensures { result ≡ bid_of self.config self.room self.from goal }
    {
        room::as_long(self.least_to(goal)) * PER_COST + goal as u64
    }

    // One goal more: where its bid is `low` or higher and below `end`, it may be the lowest or the second.
    fn lower_bid(self, low: u64, end: u64, next: Option<Bid>, goal: usize) -> Option<Bid>
        requires { goal < volume self.room }
        ensures { LowerBid self.config self.room self.from low end goal next result }
    {
        let bid = self.bid_of(goal);
        if bid < low || end <= bid {
            return next;
        }
        let Some(lowest) = next else {
            return Some(Bid {
                bid,
                goal,
                second: end,
            });
        };
        if bid < lowest.bid {
            return Some(Bid {
                bid,
                goal,
                second: lowest.bid,
            });
        }
        if lowest.second <= bid {
            return next;
        }
        Some(Bid {
            bid: lowest.bid,
            goal: lowest.goal,
            second: bid,
        })
    }

    // The joinable cell of the lowest bid from `low` on and before `end`, if there is one.
    fn next_bid(self, joinable: &[u8], low: u64, end: u64) -> Option<Bid>
        requires { length joinable.now ≡ volume self.room }
        ensures { NextBid self.config self.room joinable.now self.from low end (volume self.room) result }
    {
        if end <= low {
            return None;
        }
        let mut next = None;
        let mut cell = 0;
        while let Some(goal) = next_marked(joinable, cell) {
            next = self.lower_bid(low, end, next, goal);
            cell = goal + 1;
        }
        next
    }

    // The joinable cell of the lowest bid from `low` on that may come before what is kept.
    fn bid_to_try(self, joinable: &[u8], low: u64, kept: Option<Kept>) -> Option<Bid>
        requires joinable_len { length joinable.now ≡ volume self.room }
        requires small_kept { SmallKept kept }
        ensures { NextBid self.config self.room joinable.now self.from low (bid_to_beat kept) (volume self.room) result }
    {
        self.next_bid(joinable, low, bid_to_beat(kept))
    }

    // Whether the kept route, if there is one, makes no detour.
    fn goes_on(self, kept: Option<Kept>) -> bool
        requires { KeptInside self.room kept }
    {
        match kept {
            Some(kept) => !makes_detour(self.from, self.room.pos(kept.goal), kept.found.length),
            None => true,
        }
    }
}

// The bid from which on no goal comes before what is kept.
fn bid_to_beat(kept: Option<Kept>) -> u64
    requires { SmallKept kept }
    ensures { result ≡ bid_to_beat kept }
{
    match kept {
        Some(kept) => room::as_long(kept.found.cost.0) * PER_COST + kept.goal as u64,
        None => NO_BID,
    }
}

// One goal is tried, and the route that comes first is kept.
fn pass_goal(
    turn: Turn,
    joinable: &mut [u8],
    blocked: &mut [u8],
    classes: &mut [u8],
    known: &mut [u32],
    previous: &mut [u32],
    path: &mut [u32],
    best: &mut [u32],
    queue: &mut [u64],
    goal: usize,
    kept: Option<Kept>,
) -> Result<Option<Kept>, QueueFull>
    requires attemptable { Attemptable (site_in turn joinable.old queue.old) blocked.old classes.old known.old previous.old path.old turn.start turn.start }
    requires passable { Passable (site_in turn joinable.old queue.old) turn.start blocked.old best.old goal kept }
    ensures passes { PassesOn (site_in turn.entry joinable.old queue.old) turn.entry.start blocked.old goal kept result best.new }
    ensures joinable_unchanged { (joinable.new ≡ joinable.old) × (blocked.new ≡ blocked.old) × (classes.new ≡ classes.old) }
{
    let tried = try_goal(
        turn, joinable, blocked, classes, known, previous, path, queue, goal,
    )?;
    Ok(keep_first(kept, goal, tried, path, best))
}

// Whether a route of so many cells between two positions makes a detour: it has more than twice as many steps as the
// shortest one could have. Labels know of walls and not of supports, so it is steps that are compared, and not costs.
fn makes_detour(p: Pos, q: Pos, length: usize) -> bool
    requires small_pos { SmallPos p }
    requires small_pos_2 { SmallPos q }
{
    let up = room::apart(p.y, q.y);
    let aside = room::apart(p.x, q.x) + room::apart(p.z, q.z);
    let straight = up + aside.saturating_sub(up);
    2 * straight + DETOUR < length
}

// Goals are tried from the lowest bid on, until none is left whose route may come before what is kept. Where the kept route
// makes a detour, labels tell more than distances, and the goals that are left are tried by these.
pub fn by_bids(
    turn: Turn,
    joinable: &mut [u8],
    blocked: &mut [u8],
    classes: &mut [u8],
    known: &mut [u32],
    previous: &mut [u32],
    path: &mut [u32],
    best: &mut [u32],
    queue: &mut [u64],
) -> Tried
    requires attemptable { Attemptable (site_in turn joinable.old queue.old) blocked.old classes.old known.old previous.old path.old turn.start turn.start }
    requires best_len { length best.old ≡ volume turn.ground.room }
    requires never_full { NeverFull (site_in turn joinable.old queue.old) turn.start blocked.old }
    ensures tells { Tells (route_to_tree (site_in turn.entry joinable.old queue.old) turn.entry.start blocked.old) result best.new }
    ensures joinable_unchanged { (joinable.new ≡ joinable.old) × (blocked.new ≡ blocked.old) × (classes.new ≡ classes.old) }
{
    let view = Viewpoint::new(turn.ground, turn.start);
    let mut kept = None;
    let mut next = view.next_bid(joinable, 0, NO_BID);
    while let Some(bid) = next {
        if !view.goes_on(kept) {
            return by_labels(
                turn, joinable, blocked, classes, known, previous, path, best, queue, kept, bid.bid,
            );
        }
        kept = pass_goal(
            turn, joinable, blocked, classes, known, previous, path, best, queue, bid.goal, kept,
        )?;
        next = view.bid_to_try(joinable, bid.second, kept);
    }
    Ok(route_of(kept))
}
