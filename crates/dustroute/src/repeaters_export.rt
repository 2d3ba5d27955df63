// One call for repeaters, exported for other languages: `repeater_reply::plan_and_tell` under its exported name.
ghost use Rattle.std.specs.Prelude.{length};
ghost use Rattle.repeater_plan.specs.Plan.{lent};
ghost use Rattle.repeater_reply.specs.Reply.{net_told, well_told, PlanTold};

// The repeaters of a net by its source, sinks, branches and limits, told as numbers: the runs of all sinks, and only then the
// tails. The number comes back, 0 for a plan; its marks go to the first V bytes of `repeaters`, zeros behind them, the detail
// and how many repeaters there are to the first two of `values`; the others are work memory. See the promise in
// repeater_reply/specs/Reply.antt.
#[unsafe(no_mangle)]
pub extern "C" fn dustroute_place_repeaters(
    wide: usize,
    high: usize,
    deep: usize,
    run: u32,
    source: &[u16],
    sinks: &[u16],
    branches: &[u32],
    lengths: &[u32],
    repeaters: &mut [u8],
    classes: &mut [u8],
    known: &mut [u32],
    previous: &mut [u32],
    path: &mut [u32],
    values: &mut [u64],
) -> u32
    ensures { PlanTold (net_told wide high deep run source.now sinks.now branches.now lengths.now) (well_told (length source.now) (length sinks.now) (length values.old)) (lent repeaters.old classes.old known.old previous.old path.old) values.old result (lent repeaters.new classes.new known.new previous.new path.new) values.new }
{
    repeater_reply::plan_and_tell(
        wide, high, deep, run, source, sinks, branches, lengths, repeaters, classes, known,
        previous, path, values,
    )
}
