// The growth again, over memory of exactly V cells, to the turn that stopped it: growing is a function of the plot.
ghost use Rattle.std.specs.Prelude.{◌≡◌, eqb};
ghost use Rattle.numbers.specs.Refusals.{no_goal_number};
ghost use Rattle.multinet.specs.SinkTurns.{stop_number};
ghost use Rattle.net_tree.specs.Held.{SameBuffers, SameLengths};
ghost use Rattle.sink_why.specs.Telling.{stopping_at, memory_of, memory_with, Regrowable, Regrown, SinkAsks, SinkReasoned};

use crate::reason::tell_reason;
use crate::{Stopping, Told};
use branches::BranchLengths;
use ends::Taps;
use ground::{Ground, Mode};
use job_sheet::Job;
use multinet::{Early, Stop};
use net_tree::Memory;

// Whether the number that is due is 14.
fn is_no_goal(stop: Stop) -> bool
    ensures { result ≡ eqb (stop_number stop) no_goal_number }
{
    match stop {
        Stop::QueueFull(_) => false,
        Stop::NoGoal(_) => true,
        Stop::BufferFull(_) => false,
    }
}

// What a growth that ended early has come to.
fn stopping_of(source: usize, taps: Taps, early: Early) -> Stopping
    ensures { result ≡ stopping_at source taps early }
{
    let grown = early.lengths;
    let each = grown.each;
    let count = taps.count;
    Stopping {
        source,
        taps,
        lengths: BranchLengths { count, each },
        sink: early.sink,
        unreached: is_no_goal(early.stop),
    }
}

// Grows the tree of a job whose growth stops early, to the turn that stops it.
fn regrow(
    mode: Mode,
    sheet: &[u8],
    job: Job,
    branches: &mut [u32],
    memory: &mut Memory<'_>,
) -> Stopping
    requires { Regrowable mode sheet.now job (memory_with job branches.old memory.old) }
    ensures same_buffers { SameBuffers memory.old memory.new }
    ensures same_lengths { SameLengths memory.old memory.new }
    ensures regrown { Regrown mode sheet.now job memory.old.queue.now branches.old result memory.new.kinds.now memory.new.joinable.now memory.new.blocked.now branches.new }
{
    let ends = outset::set_out(sheet, job, memory.kinds, memory.known, memory.blocked).unwrap();
    let source = ends.source;
    let taps = ends.taps;
    net_tree::plant(source, memory.joinable);
    let room = job.room;
    let config = job.config;
    let run = job.run;
    let ground = Ground {
        room,
        config,
        mode,
        run,
    };
    let kinds = &mut *memory.kinds;
    let growth = multinet::grow_tree(
        ground,
        source,
        taps,
        kinds,
        memory.joinable,
        memory.blocked,
        memory.classes,
        memory.known,
        memory.previous,
        memory.path,
        memory.best,
        memory.queue,
        branches,
    );
    match growth {
        Err(early) => stopping_of(source, taps, early),
        Ok(_) => unreachable!(),
    }
}

// Grows to the turn that stops the growth, and tells of the sink that has it. It takes slices, the first V numbers of each
// buffer: the proof did not close with a `Memory` made of parts of another's buffers, which the borrow check does not cover.
pub fn tell_growth(
    mode: Mode,
    sheet: &[u8],
    job: Job,
    branches: &mut [u32],
    kinds: &mut [u8],
    blocked: &mut [u8],
    classes: &mut [u8],
    joinable: &mut [u8],
    known: &mut [u32],
    previous: &mut [u32],
    path: &mut [u32],
    best: &mut [u32],
    queue: &mut [u64],
    reached: &mut [u8],
    walls: &mut [u8],
    causes: &mut [u8],
) -> Told
    requires regrowable { Regrowable mode sheet.now job (memory_of job branches.old kinds.old blocked.old classes.old joinable.old known.old previous.old path.old best.old queue.old) }
    requires sink_asks { SinkAsks job reached.old walls.old causes.old }
    ensures { SinkReasoned mode sheet.now job queue.old branches.old reached.old walls.old causes.old result reached.new walls.new causes.new }
{
    let mut memory = Memory {
        kinds,
        blocked,
        classes,
        joinable,
        known,
        previous,
        path,
        best,
        queue,
    };
    let stopping = regrow(mode, sheet, job, branches, &mut memory);
    let sink = stopping.sink;
    let taps = stopping.taps;
    let tap = taps.taps[sink];
    let room = job.room;
    let config = job.config;
    let run = job.run;
    let ground = Ground {
        room,
        config,
        mode,
        run,
    };
    let verdict = tell_reason(
        ground,
        sheet,
        job,
        stopping,
        tap.approach,
        branches,
        &mut memory,
        reached,
        walls,
        causes,
    );
    let place = sink + 1;
    Told { place, verdict }
}
