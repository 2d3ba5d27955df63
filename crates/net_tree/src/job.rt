// The tree of an accepted job, over work memory of exactly V cells.
ghost use Rattle.std.specs.Prelude.{◌≡◌, ◌<◌, eqb, length, Err};
ghost use Rattle.routing_resources.specs.Marks.{marked_by, no_marks};
ghost use Rattle.net_tree.specs.Answers.{answer_of, lent};
ghost use Rattle.multinet.specs.SinkTurns.{plot_of};
ghost use Rattle.net_tree.specs.Entry.{Harvestable, Harvested, refused_by, Gatherable, Gathered, Growable, TreeGrown, Routable, JobRouted};

use crate::{Refused, Tree};
use branches::BranchLengths;
use ends::Taps;
use ground::{Ground, Mode};
use job_sheet::Job;
use multinet::{Early, Stop};

// Only the source is joinable at the outset.
pub fn plant(source: usize, joinable: &mut [u8])
    requires { source < length joinable.old }
    ensures { joinable.new ≡ marked_by (eqb source) (no_marks (length joinable.old)) }
{
    lent::clear(joinable);
    routing_resources::mark(joinable, source);
}

// A grown tree's occupied cells and repeaters, marked and counted. The searches' memory serves for the repeaters:
// `classes` for the marks of the cells that may hold none, `known` for the links between the tree's cells, `previous` for
// the parents, `path` for the line to a sink. Four buffers of the nine, and `grow_job` has no `Memory` to pass them in.
fn harvest(
    ground: Ground,
    source: usize,
    taps: Taps,
    lengths: BranchLengths,
    branches: &[u32],
    occupied: &mut [u8],
    repeaters: &mut [u8],
    classes: &mut [u8],
    known: &mut [u32],
    previous: &mut [u32],
    path: &mut [u32],
) -> Tree
    requires { Harvestable ground.room source taps lengths branches.now occupied.old repeaters.old classes.old known.old previous.old path.old }
    ensures { Harvested ground.room ground.run source taps lengths branches.now result occupied.new repeaters.new }
{
    lent::clear(classes);
    multinet::finish_tree(
        ground, source, taps, lengths, branches, occupied, repeaters, classes, known, previous,
        path,
    );
    Tree {
        occupied: branches::count_marks(occupied),
        repeaters: branches::count_marks(repeaters),
        lengths,
    }
}

// The number that ended the growth.
fn refusal_of(stop: Stop) -> Refused
    ensures { Err result ≡ answer_of (refused_by stop) }
{
    match stop {
        Stop::QueueFull(expanded) => Refused {
            number: numbers::QUEUE_FULL_NUMBER,
            detail: expanded.0 as usize,
        },
        Stop::NoGoal(approach) => Refused {
            number: numbers::NO_GOAL_NUMBER,
            detail: approach,
        },
        Stop::BufferFull(place) => Refused {
            number: numbers::BRANCHES_FULL_NUMBER,
            detail: place,
        },
    }
}

impl From<Early> for Refused {
    ghost from_gives = { λ e r. Err r ≡ answer_of (refused_by e.stop) };

    fn from(early: Early) -> Refused {
        refusal_of(early.stop)
    }
}

// What comes of a growth: the harvest of a whole tree, or a refusal.
fn gather(
    ground: Ground,
    source: usize,
    taps: Taps,
    growth: Result<BranchLengths, Early>,
    branches: &[u32],
    occupied: &mut [u8],
    repeaters: &mut [u8],
    classes: &mut [u8],
    known: &mut [u32],
    previous: &mut [u32],
    path: &mut [u32],
) -> Result<Tree, Refused>
    requires { Gatherable ground.room source taps growth branches.now occupied.old repeaters.old classes.old known.old previous.old path.old }
    ensures { Gathered ground.room ground.run source taps growth branches.now result occupied.new repeaters.new }
{
    let lengths = growth?;
    Ok(harvest(
        ground, source, taps, lengths, branches, occupied, repeaters, classes, known, previous,
        path,
    ))
}

// Grows and harvests the tree of a plot in which these cells are blocked; or number 13, 14 or 15 is due. It takes slices: a
// `Memory` would ask its callers to lend `kinds` to be written, and it is only read.
pub fn grow_job(
    ground: Ground,
    source: usize,
    taps: Taps,
    branches: &mut [u32],
    occupied: &mut [u8],
    repeaters: &mut [u8],
    kinds: &[u8],
    blocked: &mut [u8],
    classes: &mut [u8],
    joinable: &mut [u8],
    known: &mut [u32],
    previous: &mut [u32],
    path: &mut [u32],
    best: &mut [u32],
    queue: &mut [u64],
) -> Result<Tree, Refused>
    requires { Growable (plot_of ground kinds.now queue.old branches.old source taps) (lent branches.old occupied.old repeaters.old kinds.now blocked.old classes.old joinable.old known.old previous.old path.old best.old queue.old) }
    ensures { TreeGrown (plot_of ground kinds.now queue.old branches.old source taps) (lent branches.old occupied.old repeaters.old kinds.now blocked.old classes.old joinable.old known.old previous.old path.old best.old queue.old) result branches.new occupied.new repeaters.new }
{
    plant(source, joinable);
    let growth = multinet::grow_tree(
        ground, source, taps, kinds, joinable, blocked, classes, known, previous, path, best,
        queue, branches,
    );
    gather(
        ground, source, taps, growth, branches, occupied, repeaters, classes, known, previous, path,
    )
}

// The tree of an accepted job: set out, grown and harvested; or the first number from 7 on that is due. It takes slices, the
// first V numbers of each buffer: the proof did not close with a `Memory` made of parts of another's buffers, which the borrow
// check does not cover.
pub fn route_job(
    mode: Mode,
    sheet: &[u8],
    job: Job,
    branches: &mut [u32],
    occupied: &mut [u8],
    repeaters: &mut [u8],
    kinds: &mut [u8],
    blocked: &mut [u8],
    classes: &mut [u8],
    joinable: &mut [u8],
    known: &mut [u32],
    previous: &mut [u32],
    path: &mut [u32],
    best: &mut [u32],
    queue: &mut [u64],
) -> Result<Tree, Refused>
    requires { Routable sheet.now job (lent branches.old occupied.old repeaters.old kinds.old blocked.old classes.old joinable.old known.old previous.old path.old best.old queue.old) }
    ensures { JobRouted mode sheet.now (lent branches.old occupied.old repeaters.old kinds.old blocked.old classes.old joinable.old known.old previous.old path.old best.old queue.old) result branches.new occupied.new repeaters.new }
{
    let ends = match outset::set_out(sheet, job, kinds, known, blocked) {
        Ok(ends) => ends,
        Err(told) => {
            return Err(Refused {
                number: told.refusal.number(),
                detail: told.refusal.detail(),
            });
        }
    };
    let room = job.room;
    let config = job.config;
    let run = job.run;
    let ground = Ground {
        room,
        config,
        mode,
        run,
    };
    grow_job(
        ground,
        ends.source,
        ends.taps,
        branches,
        occupied,
        repeaters,
        kinds,
        blocked,
        classes,
        joinable,
        known,
        previous,
        path,
        best,
        queue,
    )
}
