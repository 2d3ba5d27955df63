// Several nets, one after another, exported for other languages.
ghost use Rattle.exports.specs.TreeExport.{mode_of};
ghost use Rattle.list_routing.specs.ListLent.{list_lent};
ghost use Rattle.nets_reply.specs.Reply.{NetsTold};

// A job list over one room and its blocks, routed net by net in the order given and laid into the room, told as numbers. The
// number comes back, 0 where all nets are laid; its detail, the net that it is due for, and how many nets there are go to the
// first three of `values`. The nets' branches, their lengths, whose each cell is, the planned repeaters and the laid room go to
// the outputs; the others, `unlaid` for the room before any net among them, are work memory. See the promise in
// nets_reply/specs/Reply.antt.
#[unsafe(no_mangle)]
pub extern "C" fn dustroute_nets(
    strict: u32,
    list: &[u8],
    branches: &mut [u32],
    lengths: &mut [u32],
    owners: &mut [u32],
    repeaters: &mut [u8],
    kinds: &mut [u8],
    facings: &mut [u8],
    occupied: &mut [u8],
    planned: &mut [u8],
    before: &mut [u8],
    unlaid: &mut [u8],
    blocked: &mut [u8],
    classes: &mut [u8],
    joinable: &mut [u8],
    known: &mut [u32],
    previous: &mut [u32],
    path: &mut [u32],
    best: &mut [u32],
    queue: &mut [u64],
    values: &mut [u64],
) -> u32
    ensures { NetsTold (mode_of strict) list.now (list_lent branches.old lengths.old owners.old repeaters.old kinds.old facings.old occupied.old planned.old before.old unlaid.old blocked.old classes.old joinable.old known.old previous.old path.old best.old queue.old) values.old result (list_lent branches.new lengths.new owners.new repeaters.new kinds.new facings.new occupied.new planned.new before.new unlaid.new blocked.new classes.new joinable.new known.new previous.new path.new best.new queue.new) values.new }
{
    let mode = exports::mode_of(strict);
    nets_reply::route_and_tell(
        mode, list, branches, lengths, owners, repeaters, kinds, facings, occupied, planned,
        before, unlaid, blocked, classes, joinable, known, previous, path, best, queue, values,
    )
}
