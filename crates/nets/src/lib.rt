// A job list routed net by net, each over what the nets before it and the other jobs leave it.
#![tactic(auto)]

ghost use Rattle.net_tree.specs.Answers.{lent};
ghost use Rattle.nets.specs.Routes.{PrepareAsked, Prepared, NetAsked, NetRouted};

use ends::Ends;
use ground::{Ground, Mode};
use job_sheet::Job;
use net_tree::{Refused, Tree};

// Sets one net out: the room's blocks, its ends, and what is blocked for it in the list.
fn prepare_net(
    list: &[u8],
    sheet: &[u8],
    job: Job,
    net: usize,
    before: &[u8],
    kinds: &mut [u8],
    nodes: &mut [u32],
    blocked: &mut [u8],
) -> Ends
    requires { PrepareAsked list.now sheet.now job before.now kinds.old nodes.old blocked.old }
    ensures { Prepared list.now sheet.now net before.now result kinds.new nodes.new blocked.new }
{
    let ends = outset::set_out(sheet, job, kinds, nodes, blocked).unwrap();
    other_nets::block_others(job.room, list, net, ends.source, ends.taps, before, blocked);
    ends
}

// The tree of one net of a list, or number 13, 14 or 15: what a single job comes to, over what is blocked in the list. The
// searches' known costs stand where the nodes stood.
pub fn route_net(
    mode: Mode,
    list: &[u8],
    sheet: &[u8],
    job: Job,
    net: usize,
    before: &[u8],
    branches: &mut [u32],
    occupied: &mut [u8],
    repeaters: &mut [u8],
    kinds: &mut [u8],
    blocked: &mut [u8],
    classes: &mut [u8],
    joinable: &mut [u8],
    known: &mut [u32],
    previous: &mut [u32],
    path: &mut [u32],
    best: &mut [u32],
    queue: &mut [u64],
) -> Result<Tree, Refused>
    requires { NetAsked list.now sheet.now job before.now (lent branches.old occupied.old repeaters.old kinds.old blocked.old classes.old joinable.old known.old previous.old path.old best.old queue.old) }
    ensures { NetRouted mode list.now sheet.now net before.now (lent branches.old occupied.old repeaters.old kinds.old blocked.old classes.old joinable.old known.old previous.old path.old best.old queue.old) result branches.new occupied.new repeaters.new }
{
    let ends = prepare_net(list, sheet, job, net, before, kinds, known, blocked);
    let room = job.room;
    let config = job.config;
    let run = job.run;
    let ground = Ground {
        room,
        config,
        mode,
        run,
    };
    net_tree::grow_job(
        ground,
        ends.source,
        ends.taps,
        branches,
        occupied,
        repeaters,
        kinds,
        blocked,
        classes,
        joinable,
        known,
        previous,
        path,
        best,
        queue,
    )
}
