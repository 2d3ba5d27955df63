// One net of a list routed and kept for the nets behind it and for the answer.
#![tactic(auto)]

ghost use Rattle.lent.specs.Lent.{Cleared};
ghost use Rattle.net_tree.specs.Answers.{lent};
ghost use Rattle.kept_nets.specs.Keep.{AnswerKeepable, AnswerKept, NextAsked, NextRouted};

use ground::Mode;
use net_tree::{Refused, Tree};
use room::Room;

// Keeps a net that was routed; of one that refuses nothing is kept.
fn keep_answer(
    room: Room,
    source: usize,
    answer: Result<Tree, Refused>,
    branches: &[u32],
    planned: &[u8],
    before: &mut [u8],
    repeaters: &mut [u8],
    lengths: &mut [u32],
)
    requires { AnswerKeepable room source answer branches.now planned.now before.old repeaters.old lengths.old }
    ensures { AnswerKept room source answer branches.now planned.now before.old repeaters.old lengths.old before.new repeaters.new lengths.new }
{
    if let Ok(tree) = answer {
        other_nets::keep_net(
            room,
            source,
            tree.lengths,
            branches,
            planned,
            before,
            repeaters,
            lengths,
        );
    }
}

fn clear_marks(occupied: &mut [u8], planned: &mut [u8])
    ensures { Cleared occupied.old occupied.new × Cleared planned.old planned.new }
{
    lent::clear(occupied);
    lent::clear(planned);
}

// The next net of a list: routed into what is left of the branch buffer, and kept. `occupied` and `planned` are left with
// its own marks, for those that lay it.
pub fn route_next(
    mode: Mode,
    list: &[u8],
    sheet: &[u8],
    net: usize,
    branches: &mut [u32],
    lengths: &mut [u32],
    repeaters: &mut [u8],
    occupied: &mut [u8],
    planned: &mut [u8],
    before: &mut [u8],
    kinds: &mut [u8],
    blocked: &mut [u8],
    classes: &mut [u8],
    joinable: &mut [u8],
    known: &mut [u32],
    previous: &mut [u32],
    path: &mut [u32],
    best: &mut [u32],
    queue: &mut [u64],
) -> Result<Tree, Refused>
    requires { NextAsked list.now sheet.now planned.old before.old lengths.old (lent branches.old occupied.old repeaters.old kinds.old blocked.old classes.old joinable.old known.old previous.old path.old best.old queue.old) }
    ensures { NextRouted mode list.now sheet.now net before.old lengths.old (lent branches.old occupied.old repeaters.old kinds.old blocked.old classes.old joinable.old known.old previous.old path.old best.old queue.old) result branches.new lengths.new repeaters.new before.new occupied.new planned.new }
{
    let reading = sheet_reader::read_sheet(sheet);
    let job = reading.job;
    let ends = ends::realize_ends(job.room, job.source, job.sinks).unwrap();
    clear_marks(occupied, planned);
    let answer = nets::route_net(
        mode, list, sheet, job, net, before, branches, occupied, planned, kinds, blocked, classes,
        joinable, known, previous, path, best, queue,
    );
    keep_answer(
        job.room,
        ends.source,
        answer,
        branches,
        planned,
        before,
        repeaters,
        lengths,
    );
    answer
}
