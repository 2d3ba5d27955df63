// A sink's branch: written into what is left of the lent branch buffer, put in sheet order, its cells marked.
#![tactic(auto)]

ghost use Rattle.std.specs.Prelude.{◌≡◌, ◌++◌, reverse, ◌+◌, ◌^◌, ◌≤◌, ◌<◌, length, take, drop};
ghost use Rattle.job_sheet.specs.Sheet.{max_sinks};
ghost use Rattle.routing_resources.specs.Marks.{marked_by, CellsBelow};
ghost use Rattle.geometry.specs.Geometry.{stands_in};
ghost use Rattle.branches.specs.Branches.{branch_of, branch_length, no_lengths, inserted, marked_count, sum, Short};

use ends::Tap;
use job_sheet::MAX_SINKS;
use room::as_index;

// How long each sink's branch is, in sheet order, 0 for a sink that has none yet; as one value with the sinks' count. An
// array with its count, and no Vec: nothing is put on a heap, and a net has at most sixteen sinks.
#[derive(Clone, Copy)]
pub struct BranchLengths {
    pub count: usize,
    pub each: [usize; MAX_SINKS],
}

// So many sinks, none of which has a branch.
pub fn no_lengths(count: usize) -> BranchLengths
    ensures { result ≡ no_lengths count }
{
    BranchLengths {
        count,
        each: [0; MAX_SINKS],
    }
}

// How long a branch is whose path has so many cells: the terminal is one more if it differs from the approach.
pub fn branch_length(count: usize, tap: Tap) -> usize
    requires { count + 1 < 2 ^ 64 }
    ensures { result ≡ branch_length tap count }
{
    if tap.terminal == tap.approach {
        count
    } else {
        count + 1
    }
}

// Writes a path from its end: a search goes from the approach to the tree, a branch from the tree to the sink.
fn write_reversed(path: &[u32], out: &mut [u32])
    requires { length path.now ≤ length out.old }
    ensures { out.new ≡ reverse path.now ++ drop (length path.now) out.old }
{
    let n = path.len();
    for i in 0..n {
        out[i] = path[n - 1 - i];
    }
}

// Writes one branch to the front of what is left of the branch buffer.
fn write_branch(path: &[u32], tap: Tap, out: &mut [u32])
    requires path_in_bounds { length (branch_of tap path.now) ≤ length out.old }
    requires terminal_bound { tap.terminal < 2 ^ 32 }
    ensures { out.new ≡ branch_of tap path.now ++ drop (length (branch_of tap path.now)) out.old }
{
    write_reversed(path, out);
    if tap.terminal != tap.approach {
        let end = path.len();
        out[end] = tap.terminal as u32;
    }
}

// The cells from `mid` on come first, then those up to it: each part is reversed, and then the whole. Not by `rotate_left`,
// which calls `memmove`: the archive for C needs `memset` and `memcpy` alone.
fn rotate(cells: &mut [u32], mid: usize)
    requires { mid ≤ length cells.old }
    ensures { cells.new ≡ drop mid cells.old ++ take mid cells.old }
{
    cells[..mid].reverse();
    cells[mid..].reverse();
    cells.reverse();
}

// "Each branch goes into what is left of the branch buffer and is at last in sheet order": of the `used` cells those from `at`
// on belong to later sinks, and the new branch moves before them.
pub fn insert_branch(branches: &mut [u32], at: usize, used: usize, path: &[u32], tap: Tap)
    requires at_le_used { at ≤ used }
    requires path_in_bounds { used + length (branch_of tap path.now) ≤ length branches.old }
    requires terminal_bound { tap.terminal < 2 ^ 32 }
    ensures { branches.new ≡ inserted at used (branch_of tap path.now) branches.old }
{
    write_branch(path, tap, &mut branches[used..]);
    let end = used + branch_length(path.len(), tap);
    rotate(&mut branches[at..end], used - at);
}

// Marks these cells, among which one may stand twice.
pub fn mark_cells(marks: &mut [u8], cells: &[u32])
    requires { CellsBelow (length marks.old) cells.now }
    ensures { marks.new ≡ marked_by (stands_in cells.now) marks.old }
{
    for cell in cells {
        routing_resources::mark(marks, as_index(*cell));
    }
}

// How many cells are marked.
pub fn count_marks(marks: &[u8]) -> usize
    ensures { result ≡ marked_count marks.now }
{
    marks
        .iter()
        .filter(|mark| **mark == routing_resources::MARKED)
        .count()
}

// How many cells the branches of the first k sinks have together: where the branch of the next sink stands.
pub fn joined_length(lengths: BranchLengths, k: usize) -> usize
    requires short { Short lengths }
    requires k_le_max_sinks { k ≤ max_sinks }
    ensures { result ≡ sum (take k lengths.each) }
{
    let mut sum: usize = 0;
    for length in &lengths.each[..k] {
        sum += *length;
    }
    sum
}
