// The repeaters of a net in one call, told as numbers, for other languages: all of `dustroute_place_repeaters` but its exported
// name.
#![tactic(auto)]

ghost use Rattle.std.specs.Prelude.{◌≡◌, Err, [], ◌∷◌, ◌≤◌, length};
ghost use Rattle.basics.specs.Tests.{either};
ghost use Rattle.lent.specs.Lent.{output_after};
ghost use Rattle.repeater_plan.specs.Plan.{lent};
ghost use Rattle.repeater_reply.specs.Reply.{source_told, sinks_told, lengths_told, net_told, value_count, well_told, PlanTold};
ghost use Rattle.repeater_reply.specs.ReplyLaws.{planned_number, planned_values, Fit};

use branches::BranchLengths;
use job_sheet::{Endpoint, MAX_SINKS, Sinks};
use repeater_plan::Refused;
use room::{Room, as_index};

// How many numbers tell an end, and a sink with its tail limit.
const END_NUMBERS: usize = 5;

const SINK_NUMBERS: usize = 6;

// How many values a plan comes to: its detail, and how many repeaters there are.
const VALUES: usize = 2;

// The source, if so many numbers tell it.
fn source_told(numbers: &[u16]) -> Endpoint
    ensures { result ≡ source_told numbers.now }
{
    if numbers.len() == END_NUMBERS {
        sheet_writer::end_from(numbers, 0)
    } else {
        job_sheet::no_endpoint()
    }
}

// The sinks: how many whole records there are, and the first sixteen.
fn sinks_told(numbers: &[u16]) -> Sinks
    ensures { result ≡ sinks_told numbers.now }
{
    let count = numbers.len() / SINK_NUMBERS;
    let most = numbers.len().min(SINK_NUMBERS * MAX_SINKS);
    let held = sheet_writer::sinks_of(&numbers[..most]);
    let ends = held.ends;
    Sinks { count, ends }
}

// The lengths of the branches: how many there are, and the first sixteen.
fn lengths_told(numbers: &[u32]) -> BranchLengths
    ensures { result ≡ lengths_told numbers.now }
{
    let count = numbers.len();
    let held = count.min(MAX_SINKS);
    let mut each = [0; MAX_SINKS];
    for (k, number) in numbers[..held].iter().enumerate() {
        each[k] = as_index(*number);
    }
    BranchLengths { count, each }
}

// Number 6 is due where this is false: of how many numbers tell the source and the sinks, and how many values are lent.
#[tactic(auto, unfolding(crate::specs::Reply::well_told))]
fn well_told(source: usize, sinks: usize, values: usize) -> bool
    ensures { result ≡ well_told source sinks values }
{
    source == END_NUMBERS && sinks % SINK_NUMBERS == 0 && VALUES <= values
}

// So much of the output is lent: none where what is told isn't well told.
fn lent_marks(well: bool, marks: usize) -> usize
    ensures { result ≡ either well marks 0 }
{
    if well { marks } else { 0 }
}

// A refusal's number; by 2 to 6 it writes nothing.
fn tell_refusal(refused: Refused, values: &mut [u64]) -> u32
    requires { Fit (Err refused) values.old }
    ensures value { result ≡ refused.number }
    ensures values_after { values.new ≡ output_after refused.number (refused.detail ∷ 0 ∷ []) values.old }
{
    if lent::touches(refused.number) {
        lent::write_two(values, refused.detail as u64, 0);
    }
    refused.number
}

// Writes the values and returns the number.
fn tell(answer: Result<usize, Refused>, values: &mut [u64]) -> u32
    requires { Fit answer values.old }
    ensures value { result ≡ planned_number answer }
    ensures values_after { values.new ≡ output_after (planned_number answer) (planned_values answer) values.old }
{
    match answer {
        Ok(count) => {
            lent::write_two(values, 0, count as u64);
            numbers::DONE_NUMBER
        }
        Err(refused) => tell_refusal(refused, values),
    }
}

// The repeaters of a net, told as numbers, as `repeater_plan::plan_net`: the number comes back, 0 for a plan; its marks go to the
// first V bytes of `repeaters`, its detail and how many repeaters there are to the first two of `values`. The others are work
// memory. See the promise in specs/Reply.antt.
pub fn plan_and_tell(
    wide: usize,
    high: usize,
    deep: usize,
    run: u32,
    source: &[u16],
    sinks: &[u16],
    branches: &[u32],
    lengths: &[u32],
    repeaters: &mut [u8],
    classes: &mut [u8],
    known: &mut [u32],
    previous: &mut [u32],
    path: &mut [u32],
    values: &mut [u64],
) -> u32
    ensures { PlanTold (net_told wide high deep run source.now sinks.now branches.now lengths.now) (well_told (length source.now) (length sinks.now) (length values.old)) (lent repeaters.old classes.old known.old previous.old path.old) values.old result (lent repeaters.new classes.new known.new previous.new path.new) values.new }
{
    let well = well_told(source.len(), sinks.len(), values.len());
    let marks = lent_marks(well, repeaters.len());
    let answer = repeater_plan::plan_net(
        Room { wide, high, deep },
        as_index(run),
        source_told(source),
        sinks_told(sinks),
        branches,
        lengths_told(lengths),
        &mut repeaters[..marks],
        classes,
        known,
        previous,
        path,
    );
    tell(answer, values)
}
