// Where the repeaters of a net's tree stand.
#![tactic(auto)]

mod candidates;
mod links;
mod net_ends;
mod planning;
mod roots;
mod sinks;
mod strides;
mod tails;

ghost use Rattle.std.specs.Prelude.{◌≡◌, ◌≤◌, length};
ghost use Rattle.room.specs.Room.{max_volume};
ghost use Rattle.branches.specs.Branches.{branches_of};
ghost use Rattle.repeaters.specs.Links.{PathReady};
ghost use Rattle.repeaters.specs.NetEnds.{net_repeaters};
ghost use Rattle.repeaters.specs.Roots.{LineHeld};
ghost use Rattle.repeaters.specs.Sinks.{Placeable, TreeReady};

use branches::BranchLengths;
pub use candidates::facing;
use ends::Taps;
pub use links::{linked_place, tree_adjacency};
use net_ends::mark_net_ends;
use planning::plan_tree;
use room::Room;
pub use roots::rooted_parent;

// How far the walk along a path has come: its last reset, its place, and the latest place after that reset and before this
// one where a repeater may stand.
#[derive(Clone, Copy)]
pub struct Stride {
    pub reset: usize,
    pub place: usize,
    pub latest: Option<usize>,
}

// A path over a tree, its cells in order: the room, the tree neighbours of each cell, and where no repeater may stand.
#[derive(Clone, Copy)]
struct Path<'a> {
    room: Room,
    links: &'a [u32],
    forbidden: &'a [u8],
    cells: &'a [u32],
    ghost ready: { PathReady room links.now forbidden.now cells.now },
}

// A tree with its parents: the room, the tree neighbours and the parent of each cell, and where no repeater may stand.
#[derive(Clone, Copy)]
struct Tree<'a> {
    room: Room,
    links: &'a [u32],
    parents: &'a [u32],
    forbidden: &'a [u8],
    ghost ready: { TreeReady room links.now parents.now forbidden.now },
}

// How far the search from the source has come: the parent of each cell, the line of the cells reached, and how many they are.
#[derive(Drop)]
struct Search<'a> {
    parents: &'a mut [u32],
    line: &'a mut [u32],
    reached: usize,
    ghost held: { LineHeld parents.now line.now reached },
    ghost few: { length parents.now ≤ max_volume },
}

// Marks where the repeaters of a net's tree stand, at this run limit and each sink's own tail limit: the runs of all sinks,
// and only then the tails. The tree's branches stand one behind the other. `forbidden` comes to mark the net's terminals
// and approaches, where none may stand. `links`, `parents` and `line` are work memory: what they hold does not matter,
// and nothing is promised of what is left in them.
pub fn place_repeaters(
    room: Room,
    run: usize,
    source: usize,
    taps: Taps,
    branches: &[u32],
    lengths: BranchLengths,
    repeaters: &mut [u8],
    forbidden: &mut [u8],
    links: &mut [u32],
    parents: &mut [u32],
    line: &mut [u32],
)
    requires { Placeable room source taps lengths branches.now repeaters.old forbidden.old links.old parents.old line.old }
    ensures { repeaters.new ≡ net_repeaters room run source taps (branches_of lengths branches.now) }
{
    mark_net_ends(source, taps, forbidden);
    plan_tree(
        room, source, taps, branches, lengths, forbidden, repeaters, links, parents, line, run,
    );
}
