// The repeaters of a tree whose forbidden cells are marked: the runs of all sinks, and only then the tails.
ghost use Rattle.std.specs.Prelude.{◌≡◌};
ghost use Rattle.ends.specs.Ends.{taps_in};
ghost use Rattle.branches.specs.Branches.{branches_of};
ghost use Rattle.repeaters.specs.Repeaters.{repeater_marks};
ghost use Rattle.repeaters.specs.Sinks.{Plannable};

use crate::Tree;
use crate::links::tree_adjacency;
use crate::roots::rooted_parent;
use branches::BranchLengths;
use ends::Taps;
use room::Room;

// Marks where the repeaters stand, at this run limit and each sink's own tail limit.
pub fn plan_tree(
    room: Room,
    source: usize,
    taps: Taps,
    branches: &[u32],
    lengths: BranchLengths,
    forbidden: &[u8],
    repeaters: &mut [u8],
    links: &mut [u32],
    parents: &mut [u32],
    line: &mut [u32],
    run: usize,
)
    requires { Plannable room source taps lengths branches.now forbidden.now repeaters.old links.old parents.old line.old }
    ensures { repeaters.new ≡ repeater_marks room run source (taps_in taps) (branches_of lengths branches.now) forbidden.now }
{
    lent::clear(links);
    tree_adjacency(room, branches, lengths, links);
    lent::clear(parents);
    rooted_parent(room, source, links, parents, line);
    let tree = Tree {
        room,
        links,
        parents,
        forbidden,
    };
    tree.plan_repeaters(taps, repeaters, line, run);
    tree.reinforce_wire_sink_tails(taps, repeaters, line);
}
