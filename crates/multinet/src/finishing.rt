// The finished tree: what it occupies, and its repeaters.
ghost use Rattle.multinet.specs.Finishing.{Finishable, Finished};

use branches::BranchLengths;
use ends::Taps;
use ground::Ground;

// Marks the cells that the tree occupies, and its repeaters, in cleared marks.
pub fn finish_tree(
    ground: Ground,
    source: usize,
    taps: Taps,
    lengths: BranchLengths,
    branches: &[u32],
    occupied: &mut [u8],
    repeaters: &mut [u8],
    forbidden: &mut [u8],
    links: &mut [u32],
    parents: &mut [u32],
    line: &mut [u32],
)
    requires { Finishable ground.room source taps lengths branches.now occupied.old repeaters.old forbidden.old links.old parents.old line.old }
    ensures { Finished ground.room ground.run source taps lengths branches.now occupied.new repeaters.new }
{
    let used = branches::joined_length(lengths, lengths.count);
    routing_resources::mark(occupied, source);
    branches::mark_cells(occupied, &branches[..used]);
    repeaters::place_repeaters(
        ground.room,
        ground.run,
        source,
        taps,
        branches,
        lengths,
        repeaters,
        forbidden,
        links,
        parents,
        line,
    );
}
