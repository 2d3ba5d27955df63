// The tree grows: one sink's turn after another.
ghost use Rattle.std.specs.Prelude.{◌≡◌, ◌<◌};
ghost use Rattle.job_sheet.specs.Sheet.{max_sinks};
ghost use Rattle.goals.specs.Goals.{route_to_tree};
ghost use Rattle.goals.specs.Trials.{Tells, site_of};
ghost use Rattle.multinet.specs.SinkTurns.{Findable, plot_of, Turnable, TurnCame, with_length, Plantable, GrowthTold};

use crate::adding::place_branch;
use crate::{Early, Grown, Stop, Stopped};
use branches::BranchLengths;
use ends::Taps;
use goals::Tried;
use ground::Ground;

// The cheapest route from a sink's approach to the tree, if there is one. Its path goes to the front of `best`.
fn find_route(
    ground: Ground,
    kinds: &[u8],
    joinable: &mut [u8],
    blocked: &mut [u8],
    classes: &mut [u8],
    known: &mut [u32],
    previous: &mut [u32],
    path: &mut [u32],
    best: &mut [u32],
    queue: &mut [u64],
    start: usize,
) -> Tried
    requires { Findable (site_of ground kinds.now joinable.old queue.old) blocked.old classes.old known.old previous.old path.old best.old start }
    ensures tells { Tells (route_to_tree (site_of ground kinds.now joinable.old queue.old) start blocked.old) result best.new }
    ensures joinable_unchanged { (joinable.new ≡ joinable.old) × (blocked.new ≡ blocked.old) }
{
    blocked_world::fill(ground, kinds, blocked, start, start, classes);
    goals::route_to_tree(
        ground, kinds, joinable, blocked, classes, known, previous, path, best, queue, start,
    )
}

// One turn: the route of the sink that has it is found and becomes a branch, or number 13, 14 or 15 is due.
fn grow_sink(
    ground: Ground,
    source: usize,
    taps: Taps,
    lengths: BranchLengths,
    turn: usize,
    kinds: &[u8],
    joinable: &mut [u8],
    blocked: &mut [u8],
    classes: &mut [u8],
    known: &mut [u32],
    previous: &mut [u32],
    path: &mut [u32],
    best: &mut [u32],
    queue: &mut [u64],
    branches: &mut [u32],
) -> Result<Grown, Stopped>
    requires { Turnable (plot_of ground kinds.now queue.old branches.old source taps) turn lengths joinable.old blocked.old classes.old known.old previous.old path.old best.old branches.old }
    ensures { TurnCame (plot_of ground kinds.now queue.old branches.old source taps) turn lengths joinable.old blocked.old branches.old result joinable.new blocked.new branches.new }
{
    let sink = turns::sink_at(ground.room, source, taps, turn);
    let tap = taps.taps[sink];
    let tried = find_route(
        ground,
        kinds,
        joinable,
        blocked,
        classes,
        known,
        previous,
        path,
        best,
        queue,
        tap.approach,
    );
    let found = match tried {
        Ok(found) => found,
        Err(full) => {
            let stop = Stop::QueueFull(full.0);
            return Err(Stopped { stop, sink });
        }
    };
    let Some(found) = found else {
        let stop = Stop::NoGoal(tap.approach);
        return Err(Stopped { stop, sink });
    };
    place_branch(
        ground.room,
        sink,
        lengths,
        tap,
        &best[..found.length],
        branches,
        joinable,
        blocked,
    )
}

// The branches' lengths with one more.
fn with_length(lengths: BranchLengths, sink: usize, length: usize) -> BranchLengths
    requires { sink < max_sinks }
    ensures { result ≡ with_length lengths sink length }
{
    let count = lengths.count;
    let mut each = lengths.each;
    each[sink] = length;
    BranchLengths { count, each }
}

// The tree from its outset: every sink has its turn, until a number is due for one; the slices hold the tree of that turn then.
pub fn grow_tree(
    ground: Ground,
    source: usize,
    taps: Taps,
    kinds: &[u8],
    joinable: &mut [u8],
    blocked: &mut [u8],
    classes: &mut [u8],
    known: &mut [u32],
    previous: &mut [u32],
    path: &mut [u32],
    best: &mut [u32],
    queue: &mut [u64],
    branches: &mut [u32],
) -> Result<BranchLengths, Early>
    requires { Plantable (plot_of ground kinds.now queue.old branches.old source taps) joinable.old blocked.old classes.old known.old previous.old path.old best.old }
    ensures { GrowthTold (plot_of ground kinds.now queue.old branches.old source taps) blocked.old branches.old result joinable.new blocked.new branches.new }
{
    let count = taps.count;
    let mut lengths = branches::no_lengths(count);
    for turn in 0..count {
        let turned = grow_sink(
            ground, source, taps, lengths, turn, kinds, joinable, blocked, classes, known,
            previous, path, best, queue, branches,
        );
        match turned {
            Ok(Grown { sink, length }) => lengths = with_length(lengths, sink, length),
            Err(Stopped { stop, sink }) => {
                return Err(Early {
                    stop,
                    sink,
                    lengths,
                });
            }
        }
    }
    Ok(lengths)
}
