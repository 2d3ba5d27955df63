// The net's tree in work memory: the tree neighbours of each cell, and its parent on the path from the source.
ghost use Rattle.std.specs.Prelude.{◌≡◌};
ghost use Rattle.branches.specs.Branches.{branches_of};
ghost use Rattle.laying.specs.Layable.{Rootable, TreeRooted};

use branches::BranchLengths;
use repeaters::{rooted_parent, tree_adjacency};
use room::Room;

// What `links`, `parents` and `line` hold before does not matter.
pub fn root_tree(
    room: Room,
    source: usize,
    branches: &[u32],
    lengths: BranchLengths,
    links: &mut [u32],
    parents: &mut [u32],
    line: &mut [u32],
)
    requires { Rootable room source lengths branches.now links.old parents.old line.old }
    ensures { TreeRooted room source (branches_of lengths branches.now) links.new parents.new }
{
    lent::clear(links);
    tree_adjacency(room, branches, lengths, links);
    lent::clear(parents);
    rooted_parent(room, source, links, parents, line);
}
