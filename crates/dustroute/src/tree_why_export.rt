// Why a sink couldn't be reached, exported for other languages.
ghost use Rattle.net_tree.specs.Answers.{lent};
ghost use Rattle.exports.specs.TreeExport.{mode_of};
ghost use Rattle.sink_why.specs.SinkWhy.{outputs};
ghost use Rattle.sink_reply.specs.SinkReply.{WhyTreeExported};

// The tree of the one net that a job sheet describes, as `dustroute_tree_mode`; and for numbers 13 and 14 the place in the sheet,
// from 1, of the sink whose turn it was, and what may be said of it: 1 its approach is taken, 2 it is shut in, 3 conflicts, 4
// cut short. They go to the last two of 22 `values`, and are 0 for any other number. Of a sink that is shut in `reached`
// marks the cells that wire gets to from its approach, `walls` says what stands against each move out of them, and `causes`
// why each cell is blocked; else the three are all zero. See the promise of crates/sink_reply, specs/SinkReply.antt.
#[unsafe(no_mangle)]
pub extern "C" fn dustroute_tree_why(
    strict: u32,
    sheet: &[u8],
    branches: &mut [u32],
    occupied: &mut [u8],
    repeaters: &mut [u8],
    reached: &mut [u8],
    walls: &mut [u8],
    causes: &mut [u8],
    kinds: &mut [u8],
    blocked: &mut [u8],
    classes: &mut [u8],
    joinable: &mut [u8],
    known: &mut [u32],
    previous: &mut [u32],
    path: &mut [u32],
    best: &mut [u32],
    queue: &mut [u64],
    values: &mut [u64],
) -> u32
    ensures { WhyTreeExported (mode_of strict) sheet.now (lent branches.old occupied.old repeaters.old kinds.old blocked.old classes.old joinable.old known.old previous.old path.old best.old queue.old) (outputs reached.old walls.old causes.old) values.old result (lent branches.new occupied.new repeaters.new kinds.new blocked.new classes.new joinable.new known.new previous.new path.new best.new queue.new) (outputs reached.new walls.new causes.new) values.new }
{
    sink_reply::why_and_tell(
        strict, sheet, branches, occupied, repeaters, reached, walls, causes, kinds, blocked,
        classes, joinable, known, previous, path, best, queue, values,
    )
}
