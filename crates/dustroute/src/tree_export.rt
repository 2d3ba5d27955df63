// The tree of one net, exported for other languages, in the published mode and in the mode that the caller chooses.
ghost use Rattle.ground.specs.declared.Mode.TheVariants.{Published};
ghost use Rattle.net_tree.specs.Answers.{lent};
ghost use Rattle.exports.specs.TreeExport.{mode_of, TreeExported};

use ground::Mode;

// The tree of a sheet in a mode, told as numbers.
fn route_and_tell(
    mode: Mode,
    sheet: &[u8],
    branches: &mut [u32],
    occupied: &mut [u8],
    repeaters: &mut [u8],
    kinds: &mut [u8],
    blocked: &mut [u8],
    classes: &mut [u8],
    joinable: &mut [u8],
    known: &mut [u32],
    previous: &mut [u32],
    path: &mut [u32],
    best: &mut [u32],
    queue: &mut [u64],
    values: &mut [u64],
) -> u32
    ensures { TreeExported mode sheet.now (lent branches.old occupied.old repeaters.old kinds.old blocked.old classes.old joinable.old known.old previous.old path.old best.old queue.old) values.old result (lent branches.new occupied.new repeaters.new kinds.new blocked.new classes.new joinable.new known.new previous.new path.new best.new queue.new) values.new }
{
    if values.len() < exports::TREE_VALUES {
        return exports::short_number(sheet);
    }
    let answer = net_tree::route_net_tree(
        mode, sheet, branches, occupied, repeaters, kinds, blocked, classes, joinable, known,
        previous, path, best, queue,
    );
    exports::tell_tree(answer, values)
}

// The tree of the one net that a job sheet describes, as `net_tree::route_net_tree`. The number comes back, 0 for a tree; its
// detail, how many branches, occupied cells and repeaters there are, and the branches' lengths in sheet order go to the
// first twenty of `values`. A place of the queue takes two numbers. See the promise in crate exports, specs/TreeExport.antt.
#[unsafe(no_mangle)]
pub extern "C" fn dustroute_tree(
    sheet: &[u8],
    branches: &mut [u32],
    occupied: &mut [u8],
    repeaters: &mut [u8],
    kinds: &mut [u8],
    blocked: &mut [u8],
    classes: &mut [u8],
    joinable: &mut [u8],
    known: &mut [u32],
    previous: &mut [u32],
    path: &mut [u32],
    best: &mut [u32],
    queue: &mut [u64],
    values: &mut [u64],
) -> u32
    ensures { TreeExported Published sheet.now (lent branches.old occupied.old repeaters.old kinds.old blocked.old classes.old joinable.old known.old previous.old path.old best.old queue.old) values.old result (lent branches.new occupied.new repeaters.new kinds.new blocked.new classes.new joinable.new known.new previous.new path.new best.new queue.new) values.new }
{
    let mode = Mode::Published;
    route_and_tell(
        mode, sheet, branches, occupied, repeaters, kinds, blocked, classes, joinable, known,
        previous, path, best, queue, values,
    )
}

// The same in the mode that the caller chooses: `strict` is 0 for the published router's way with blocked air, as in
// `dustroute_tree`, and any other number for strict mode.
#[unsafe(no_mangle)]
pub extern "C" fn dustroute_tree_mode(
    strict: u32,
    sheet: &[u8],
    branches: &mut [u32],
    occupied: &mut [u8],
    repeaters: &mut [u8],
    kinds: &mut [u8],
    blocked: &mut [u8],
    classes: &mut [u8],
    joinable: &mut [u8],
    known: &mut [u32],
    previous: &mut [u32],
    path: &mut [u32],
    best: &mut [u32],
    queue: &mut [u64],
    values: &mut [u64],
) -> u32
    ensures { TreeExported (mode_of strict) sheet.now (lent branches.old occupied.old repeaters.old kinds.old blocked.old classes.old joinable.old known.old previous.old path.old best.old queue.old) values.old result (lent branches.new occupied.new repeaters.new kinds.new blocked.new classes.new joinable.new known.new previous.new path.new best.new queue.new) values.new }
{
    let mode = exports::mode_of(strict);
    route_and_tell(
        mode, sheet, branches, occupied, repeaters, kinds, blocked, classes, joinable, known,
        previous, path, best, queue, values,
    )
}
