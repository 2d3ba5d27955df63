// The public call: the order of judgement, and what is lent.
ghost use Rattle.std.specs.Prelude.{◌≡◌, Ok};
ghost use Rattle.lent.specs.Lent.{Cleared};
ghost use Rattle.room.specs.Room.{Good};
ghost use Rattle.branches.specs.Branches.{branches_of};
ghost use Rattle.repeaters.specs.NetEnds.{net_repeaters};
ghost use Rattle.ends.specs.declared.Ends.{Ends};
ghost use Rattle.repeater_plan.specs.Plan.{net, lent, lent_good, outcome_by, unplanned, answer_of, Promise};
ghost use Rattle.repeater_plan.specs.Entry.{Frontable, FrontPlaced, PlacedBy, fault_in, marks_with, Lendable, Settled};

use crate::judge::{counts_good, judge};
use crate::{Lengths, Refused};
use branches::BranchLengths;
use ends::{Ends, Taps, Unrealized};
use job_sheet::{Endpoint, Sinks};
use room::Room;

// A refusal carries no repeaters.
fn refuse(number: u32, detail: usize) -> Result<usize, Refused>
    ensures { result ≡ answer_of (unplanned number detail) }
{
    Err(Refused { number, detail })
}

// Whether marks and work memory suffice for each cell.
#[tactic(auto, unfolding(crate::specs::Plan::lent_good))]
fn lent_good(room: Room, lent: Lengths) -> bool
    requires { Good room }
    ensures { result ≡ lent_good room lent }
{
    let cells = room.volume();
    cells <= lent.repeaters
        && cells <= lent.forbidden
        && cells <= lent.links
        && cells <= lent.parents
        && cells <= lent.line
}

// The marks are cleared, to their very end.
fn clear_marks(repeaters: &mut [u8], forbidden: &mut [u8])
    ensures { Cleared repeaters.old repeaters.new × Cleared forbidden.old forbidden.new }
{
    lent::clear(repeaters);
    lent::clear(forbidden);
}

// Work memory is cleared, to its very end.
fn clear_work(forbidden: &mut [u8], links: &mut [u32], parents: &mut [u32], line: &mut [u32])
    ensures { Cleared forbidden.old forbidden.new × Cleared links.old links.new × Cleared parents.old parents.new × Cleared line.old line.new }
{
    lent::clear(forbidden);
    lent::clear(links);
    lent::clear(parents);
    lent::clear(line);
}

// The repeaters, marked in front of cleared memory, and counted.
fn place_front(
    room: Room,
    run: usize,
    source: usize,
    taps: Taps,
    branches: &[u32],
    lengths: BranchLengths,
    repeaters: &mut [u8],
    forbidden: &mut [u8],
    links: &mut [u32],
    parents: &mut [u32],
    line: &mut [u32],
) -> usize
    requires { Frontable room source taps lengths branches.now (lent repeaters.old forbidden.old links.old parents.old line.old) }
    ensures { FrontPlaced (net_repeaters room run source taps (branches_of lengths branches.now)) room repeaters.old result repeaters.new }
{
    let cells = room.volume();
    repeaters::place_repeaters(
        room,
        run,
        source,
        taps,
        branches,
        lengths,
        &mut repeaters[..cells],
        &mut forbidden[..cells],
        &mut links[..cells],
        &mut parents[..cells],
        &mut line[..cells],
    );
    branches::count_marks(&repeaters[..cells])
}

// The repeaters of a net whose ends these are; or number 8 or 9.
fn place_or_refuse(
    room: Room,
    run: usize,
    ends: Result<Ends, Unrealized>,
    branches: &[u32],
    lengths: BranchLengths,
    repeaters: &mut [u8],
    forbidden: &mut [u8],
    links: &mut [u32],
    parents: &mut [u32],
    line: &mut [u32],
) -> Result<usize, Refused>
    requires { (e : Ends) → ends ≡ Ok e → Frontable room e.source e.taps lengths branches.now (lent repeaters.old forbidden.old links.old parents.old line.old) }
    ensures { PlacedBy (fault_in ends) (marks_with room run (branches_of lengths branches.now) ends) room repeaters.old result repeaters.new }
{
    match ends {
        Ok(ends) => Ok(place_front(
            room,
            run,
            ends.source,
            ends.taps,
            branches,
            lengths,
            repeaters,
            forbidden,
            links,
            parents,
            line,
        )),
        Err(unrealized) => refuse(unrealized.fault.number(), unrealized.fault.place),
    }
}

// The repeaters of a net that numbers 2 to 6 do not refuse; or number 8 or 9, and then everything lent is zero.
fn plan_lent(
    room: Room,
    run: usize,
    ends: Result<Ends, Unrealized>,
    branches: &[u32],
    lengths: BranchLengths,
    repeaters: &mut [u8],
    forbidden: &mut [u8],
    links: &mut [u32],
    parents: &mut [u32],
    line: &mut [u32],
) -> Result<usize, Refused>
    requires { (e : Ends) → ends ≡ Ok e → Lendable room e.source e.taps lengths branches.now (lent repeaters.old forbidden.old links.old parents.old line.old) }
    ensures { Settled (outcome_by (marks_with room run (branches_of lengths branches.now) ends) (fault_in ends)) (lent repeaters.old forbidden.old links.old parents.old line.old) result (lent repeaters.new forbidden.new links.new parents.new line.new) }
{
    clear_marks(repeaters, forbidden);
    let planned = place_or_refuse(
        room, run, ends, branches, lengths, repeaters, forbidden, links, parents, line,
    );
    clear_work(forbidden, links, parents, line);
    planned
}

// The repeaters of a net, by its source, sinks, branches and limits: the runs of all sinks, and only then the tails. They are
// marked in the first V bytes of `repeaters`, zeros behind them, and counted; the other four slices are work memory. The
// branches stand one behind the other in one slice. See the promise in specs/Plan.antt.
pub fn plan_net(
    room: Room,
    run: usize,
    source: Endpoint,
    sinks: Sinks,
    branches: &[u32],
    lengths: BranchLengths,
    repeaters: &mut [u8],
    forbidden: &mut [u8],
    links: &mut [u32],
    parents: &mut [u32],
    line: &mut [u32],
) -> Result<usize, Refused>
    ensures { Promise (net room run source sinks branches.now lengths) (lent repeaters.old forbidden.old links.old parents.old line.old) result (lent repeaters.new forbidden.new links.new parents.new line.new) }
{
    let judgement = judge(room, run, source, sinks, branches, lengths);
    if !judgement.is_good() {
        return refuse(judgement.number(), 0);
    }
    let lent_lengths = Lengths {
        repeaters: repeaters.len(),
        forbidden: forbidden.len(),
        links: links.len(),
        parents: parents.len(),
        line: line.len(),
    };
    if !counts_good(sinks.count, lengths, branches.len()) {
        return refuse(numbers::BUFFER_NUMBER, 0);
    }
    if !lent_good(room, lent_lengths) {
        return refuse(numbers::BUFFER_NUMBER, 0);
    }
    let ends = ends::realize_ends(room, source, sinks);
    plan_lent(
        room, run, ends, branches, lengths, repeaters, forbidden, links, parents, line,
    )
}
