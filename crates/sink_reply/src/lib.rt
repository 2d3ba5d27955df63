// Why a sink couldn't be reached, told as numbers: the tree's number and twenty values, and two values behind them.
#![tactic(auto)]

ghost use Rattle.std.specs.Prelude.{◌≡◌, ◌≤◌, length};
ghost use Rattle.net_tree.specs.Answers.{lent};
ghost use Rattle.exports.specs.TreeExport.{mode_of, number_told};
ghost use Rattle.sink_why.specs.SinkWhy.{answer_in, place_in, verdict_in, outputs};
ghost use Rattle.sink_reply.specs.SinkReply.{why_count, why_values_after, WhyTreeExported};

use net_tree::{Refused, Tree};
use sink_why::{Told, Unrouted};

// The tree's twenty values, the sink's place and what may be said of it.
const VALUES: usize = 22;

// The tree's own answer.
fn answer_in(why: Result<Tree, Unrouted>) -> Result<Tree, Refused>
    ensures { result ≡ answer_in why }
{
    match why {
        Ok(tree) => Ok(tree),
        Err(unrouted) => Err(unrouted.refused),
    }
}

// What is told of the sink, zeros where nothing is.
fn told_in(why: Result<Tree, Unrouted>) -> Told
    ensures place { result.place ≡ place_in why }
    ensures verdict { result.verdict ≡ verdict_in why }
{
    let none = Told {
        place: 0,
        verdict: 0,
    };
    match why {
        Ok(_) => none,
        Err(unrouted) => match unrouted.told {
            Some(told) => told,
            None => none,
        },
    }
}

// Writes the values and returns the number. A refusal by 1 to 6 writes nothing.
fn tell_why(why: Result<Tree, Unrouted>, values: &mut [u64]) -> u32
    requires { why_count ≤ length values.old }
    ensures value { result ≡ number_told (answer_in why) }
    ensures values_after { values.new ≡ why_values_after (answer_in why) (place_in why) (verdict_in why) values.old }
{
    let number = exports::tell_tree(answer_in(why), values);
    if lent::touches(number) {
        let told = told_in(why);
        values[20] = told.place as u64;
        values[21] = told.verdict as u64;
    }
    number
}

// The tree of a sheet in a mode, and why a sink couldn't be reached, as `sink_why::why_no_goal`. The number comes back, 0 for a
// tree; its twenty values, the sink's place in the sheet and what may be said of it go to the first 22 of `values`. See the
// promise in specs/SinkReply.antt.
pub fn why_and_tell(
    strict: u32,
    sheet: &[u8],
    branches: &mut [u32],
    occupied: &mut [u8],
    repeaters: &mut [u8],
    reached: &mut [u8],
    walls: &mut [u8],
    causes: &mut [u8],
    kinds: &mut [u8],
    blocked: &mut [u8],
    classes: &mut [u8],
    joinable: &mut [u8],
    known: &mut [u32],
    previous: &mut [u32],
    path: &mut [u32],
    best: &mut [u32],
    queue: &mut [u64],
    values: &mut [u64],
) -> u32
    ensures { WhyTreeExported (mode_of strict) sheet.now (lent branches.old occupied.old repeaters.old kinds.old blocked.old classes.old joinable.old known.old previous.old path.old best.old queue.old) (outputs reached.old walls.old causes.old) values.old result (lent branches.new occupied.new repeaters.new kinds.new blocked.new classes.new joinable.new known.new previous.new path.new best.new queue.new) (outputs reached.new walls.new causes.new) values.new }
{
    if values.len() < VALUES {
        return exports::short_number(sheet);
    }
    let mode = exports::mode_of(strict);
    let why = sink_why::why_no_goal(
        mode, sheet, branches, occupied, repeaters, kinds, blocked, classes, joinable, known,
        previous, path, best, queue, reached, walls, causes,
    );
    tell_why(why, values)
}
