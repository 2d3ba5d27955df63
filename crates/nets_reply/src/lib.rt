// Several nets, told as numbers, for other languages: all of `dustroute_nets` but its exported name.
#![tactic(auto)]

ghost use Rattle.std.specs.Prelude.{◌≡◌, ◌≤◌, length, true};
ghost use Rattle.list_routing.specs.ListLent.{list_lent};
ghost use Rattle.nets_reply.specs.Reply.{value_count, values_of, values_after, NetsTold};
ghost use Rattle.several_nets.specs.Answers.{number_told};
ghost use Rattle.nets_reply.specs.ReplyLaws.{wiped_by};

use ground::Mode;
use list_routing::NetRefused;

// How many values a list comes to: the detail, the net's index, and how many nets there are.
const VALUES: usize = 3;

// Zeros, where lent memory is touched.
fn wipe(number: u32, values: &mut [u64])
    ensures { values.new ≡ wiped_by number values.old }
{
    if lent::touches(number) {
        lent::clear(values);
    }
}

// The number that comes back for an answer, 0 where all nets are laid.
fn number_told(answer: Result<usize, NetRefused>) -> u32
    ensures { result ≡ number_told answer }
{
    match answer {
        Ok(_) => numbers::DONE_NUMBER,
        Err(why) => why.number,
    }
}

// The values of an answer: the detail, the net's index, and how many nets there are.
fn values_of(answer: Result<usize, NetRefused>) -> [u64; VALUES]
    ensures { result ≡ values_of answer }
{
    match answer {
        Ok(nets) => [0, 0, nets as u64],
        Err(why) => [why.detail as u64, why.net as u64, 0],
    }
}

// Writes the values of an answer; behind them zeros, or where lent memory is not touched what was there. Not by
// `copy_from_slice`, which compares addresses: their width is another in a browser, for which the compiled module is compiled
// once more.
fn write_values(answer: Result<usize, NetRefused>, values: &mut [u64])
    requires { value_count ≤ length values.old }
    ensures { values.new ≡ values_after true answer values.old }
{
    wipe(number_told(answer), values);
    let front = values_of(answer);
    for i in 0..VALUES {
        values[i] = front[i];
    }
}

// A job list, told as numbers, as `several_nets::route_nets`: the number comes back, 0 where all nets are laid; its detail, the
// net that it is due for, and how many nets there are go to the first three of `values`. See the promise in specs/Reply.antt.
pub fn route_and_tell(
    mode: Mode,
    list: &[u8],
    branches: &mut [u32],
    lengths: &mut [u32],
    owners: &mut [u32],
    repeaters: &mut [u8],
    kinds: &mut [u8],
    facings: &mut [u8],
    occupied: &mut [u8],
    planned: &mut [u8],
    before: &mut [u8],
    unlaid: &mut [u8],
    blocked: &mut [u8],
    classes: &mut [u8],
    joinable: &mut [u8],
    known: &mut [u32],
    previous: &mut [u32],
    path: &mut [u32],
    best: &mut [u32],
    queue: &mut [u64],
    values: &mut [u64],
) -> u32
    ensures { NetsTold mode list.now (list_lent branches.old lengths.old owners.old repeaters.old kinds.old facings.old occupied.old planned.old before.old unlaid.old blocked.old classes.old joinable.old known.old previous.old path.old best.old queue.old) values.old result (list_lent branches.new lengths.new owners.new repeaters.new kinds.new facings.new occupied.new planned.new before.new unlaid.new blocked.new classes.new joinable.new known.new previous.new path.new best.new queue.new) values.new }
{
    if values.len() < VALUES {
        let short = several_nets::route_nets(
            mode,
            list,
            branches,
            lengths,
            owners,
            repeaters,
            kinds,
            facings,
            occupied,
            planned,
            before,
            unlaid,
            blocked,
            classes,
            joinable,
            known,
            previous,
            path,
            best,
            &mut queue[..0],
        );
        return number_told(short);
    }
    let answer = several_nets::route_nets(
        mode, list, branches, lengths, owners, repeaters, kinds, facings, occupied, planned,
        before, unlaid, blocked, classes, joinable, known, previous, path, best, queue,
    );
    write_values(answer, values);
    number_told(answer)
}
