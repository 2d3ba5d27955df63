// The walk along a job list, net by net: each is routed over what the others leave it, kept for those behind it, and laid.
#![tactic(auto)]

ghost use Rattle.std.specs.Prelude.{◌≡◌, ◌+◌, ◌≤◌, length, drop};
ghost use Rattle.job_list.specs.Split.{sheet_long};
ghost use Rattle.net_tree.specs.Answers.{lent};
ghost use Rattle.list_routing.specs.ListLent.{list_lent};
ghost use Rattle.list_routing.specs.Parts.{Span, PartAsked, PartRouted, AnswerLayable, AnswerLaid};
ghost use Rattle.list_routing.specs.Walking.{at_first, Walking, WalkingOn, Stepped, Walked};

use ground::Mode;
use job_sheet::MAX_SINKS;
use laid_nets::Meeting;
use net_tree::{Refused, Tree};

// How far the walk has come: where the next sheet begins, the number of its net, how many cells of the branch buffer are in
// use, and where two nets overlap.
#[derive(Clone, Copy)]
pub struct Stand {
    pub place: usize,
    pub net: usize,
    pub used: usize,
    pub met: Option<Meeting>,
}

// A net that refuses, and with it the list: its number in the list, the number that comes back, and the detail.
#[derive(Clone, Copy)]
pub struct NetRefused {
    pub net: usize,
    pub number: u32,
    pub detail: usize,
}

// Where the sheet that begins here ends.
fn sheet_end(list: &[u8], place: usize) -> usize
    requires { place ≤ length list.now }
    ensures { result ≡ place + sheet_long (drop place list.now) }
{
    place + job_list::sheet_size(&list[place..])
}

// The net of the sheet from the stand's place to this end, routed into what is left of the branch buffer and of the lengths.
fn route_part(
    mode: Mode,
    list: &[u8],
    stand: Stand,
    end: usize,
    branches: &mut [u32],
    lengths: &mut [u32],
    repeaters: &mut [u8],
    occupied: &mut [u8],
    planned: &mut [u8],
    before: &mut [u8],
    unlaid: &mut [u8],
    blocked: &mut [u8],
    classes: &mut [u8],
    joinable: &mut [u8],
    known: &mut [u32],
    previous: &mut [u32],
    path: &mut [u32],
    best: &mut [u32],
    queue: &mut [u64],
) -> Result<Tree, Refused>
    requires { PartAsked list.now stand end planned.old before.old lengths.old (lent branches.old occupied.old repeaters.old unlaid.old blocked.old classes.old joinable.old known.old previous.old path.old best.old queue.old) }
    ensures { PartRouted mode list.now stand end before.old lengths.old (lent branches.old occupied.old repeaters.old unlaid.old blocked.old classes.old joinable.old known.old previous.old path.old best.old queue.old) result branches.new lengths.new repeaters.new before.new occupied.new planned.new }
{
    let place = stand.place;
    let used = stand.used;
    let net = stand.net;
    let counted = MAX_SINKS * net;
    kept_nets::route_next(
        mode,
        list,
        &list[place..end],
        net,
        &mut branches[used..],
        &mut lengths[counted..],
        repeaters,
        occupied,
        planned,
        before,
        unlaid,
        blocked,
        classes,
        joinable,
        known,
        previous,
        path,
        best,
        queue,
    )
}

// Lays a net that was routed, and tells how far the walk has come; one that refuses ends it.
fn lay_answer(
    list: &[u8],
    stand: Stand,
    end: usize,
    answer: Result<Tree, Refused>,
    branches: &[u32],
    occupied: &[u8],
    planned: &[u8],
    owners: &mut [u32],
    kinds: &mut [u8],
    facings: &mut [u8],
    known: &mut [u32],
    previous: &mut [u32],
    path: &mut [u32],
) -> Result<Stand, NetRefused>
    requires { AnswerLayable list.now stand end answer branches.now occupied.now planned.now owners.old kinds.old facings.old known.old previous.old path.old }
    ensures { AnswerLaid list.now stand end answer branches.now occupied.now planned.now owners.old kinds.old facings.old result owners.new kinds.new facings.new }
{
    let net = stand.net;
    let tree = match answer {
        Ok(tree) => tree,
        Err(Refused { number, detail }) => {
            return Err(NetRefused {
                net,
                number,
                detail,
            });
        }
    };
    let place = stand.place;
    let used = stand.used;
    let overlap = stand.met;
    let each = tree.lengths;
    let met = laid_nets::lay_sheet(
        &list[place..end],
        net,
        overlap,
        &branches[used..],
        each,
        occupied,
        planned,
        owners,
        kinds,
        facings,
        known,
        previous,
        path,
    );
    Ok(Stand {
        place: end,
        net: net + 1,
        used: used + branches::joined_length(each, each.count),
        met,
    })
}

// One net more.
fn next_net(
    mode: Mode,
    list: &[u8],
    stand: Stand,
    branches: &mut [u32],
    lengths: &mut [u32],
    owners: &mut [u32],
    repeaters: &mut [u8],
    kinds: &mut [u8],
    facings: &mut [u8],
    occupied: &mut [u8],
    planned: &mut [u8],
    before: &mut [u8],
    unlaid: &mut [u8],
    blocked: &mut [u8],
    classes: &mut [u8],
    joinable: &mut [u8],
    known: &mut [u32],
    previous: &mut [u32],
    path: &mut [u32],
    best: &mut [u32],
    queue: &mut [u64],
) -> Result<Stand, NetRefused>
    requires { WalkingOn mode list.now stand (list_lent branches.old lengths.old owners.old repeaters.old kinds.old facings.old occupied.old planned.old before.old unlaid.old blocked.old classes.old joinable.old known.old previous.old path.old best.old queue.old) }
    ensures { Stepped mode list.now stand (list_lent branches.old lengths.old owners.old repeaters.old kinds.old facings.old occupied.old planned.old before.old unlaid.old blocked.old classes.old joinable.old known.old previous.old path.old best.old queue.old) result (list_lent branches.new lengths.new owners.new repeaters.new kinds.new facings.new occupied.new planned.new before.new unlaid.new blocked.new classes.new joinable.new known.new previous.new path.new best.new queue.new) }
{
    let end = sheet_end(list, stand.place);
    let answer = route_part(
        mode, list, stand, end, branches, lengths, repeaters, occupied, planned, before, unlaid,
        blocked, classes, joinable, known, previous, path, best, queue,
    );
    lay_answer(
        list, stand, end, answer, branches, occupied, planned, owners, kinds, facings, known,
        previous, path,
    )
}
// All nets of a list, from the first on; or the first that refuses.
pub fn walk_list(
    mode: Mode,
    list: &[u8],
    branches: &mut [u32],
    lengths: &mut [u32],
    owners: &mut [u32],
    repeaters: &mut [u8],
    kinds: &mut [u8],
    facings: &mut [u8],
    occupied: &mut [u8],
    planned: &mut [u8],
    before: &mut [u8],
    unlaid: &mut [u8],
    blocked: &mut [u8],
    classes: &mut [u8],
    joinable: &mut [u8],
    known: &mut [u32],
    previous: &mut [u32],
    path: &mut [u32],
    best: &mut [u32],
    queue: &mut [u64],
) -> Result<Stand, NetRefused>
    requires { Walking mode list.now at_first (list_lent branches.old lengths.old owners.old repeaters.old kinds.old facings.old occupied.old planned.old before.old unlaid.old blocked.old classes.old joinable.old known.old previous.old path.old best.old queue.old) }
    ensures { Walked mode list.now (list_lent branches.old lengths.old owners.old repeaters.old kinds.old facings.old occupied.old planned.old before.old unlaid.old blocked.old classes.old joinable.old known.old previous.old path.old best.old queue.old) result (list_lent branches.new lengths.new owners.new repeaters.new kinds.new facings.new occupied.new planned.new before.new unlaid.new blocked.new classes.new joinable.new known.new previous.new path.new best.new queue.new) }
{
    let mut stand = Stand {
        place: 0,
        net: 0,
        used: 0,
        met: None,
    };
    // no counting loop: each sheet says itself where it ends
    while stand.place < list.len() {
        stand = next_net(
            mode, list, stand, branches, lengths, owners, repeaters, kinds, facings, occupied,
            planned, before, unlaid, blocked, classes, joinable, known, previous, path, best,
            queue,
        )?;
    }
    Ok(stand)
}
