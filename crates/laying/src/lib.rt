// One routed net laid into a room that the nets before it have been laid into.
#![tactic(auto)]

mod bearing;
mod directions;
mod owners;
mod placing;
mod powering;
mod rooting;
mod wiring;

ghost use Rattle.std.specs.Prelude.{◌≡◌};
ghost use Rattle.laying.specs.Laying.{laid_room, laid_net};
ghost use Rattle.laying.specs.Layable.{net_of, Layable};

use branches::BranchLengths;
use directions::lay_repeaters;
use ends::Taps;
pub use owners::{overlap, own};
use powering::lay_sinks;
use room::Room;
use rooting::root_tree;
use wiring::lay_cells;

// Lays a net: supports and wire of its occupied cells, then its planned repeaters, then those of its BlockPower sinks. Its
// branches stand one behind the other, in sheet order. `links`, `parents` and `line` are work memory: what they hold does
// not matter, and nothing is promised of what is left in them.
pub fn lay_net(
    room: Room,
    source: usize,
    taps: Taps,
    branches: &[u32],
    lengths: BranchLengths,
    occupied: &[u8],
    repeaters: &[u8],
    kinds: &mut [u8],
    facings: &mut [u8],
    links: &mut [u32],
    parents: &mut [u32],
    line: &mut [u32],
)
    requires { Layable room source taps lengths branches.now occupied.now repeaters.now kinds.old facings.old links.old parents.old line.old }
    ensures { laid_room kinds.new facings.new ≡ laid_net room (net_of source taps lengths branches.now occupied.now repeaters.now) (laid_room kinds.old facings.old) }
{
    root_tree(room, source, branches, lengths, links, parents, line);
    lay_cells(room, taps, occupied, repeaters, links, kinds, facings);
    lay_repeaters(room, repeaters, parents, kinds, facings);
    lay_sinks(room, taps, kinds, facings);
}
