// The lines that the program prints, put one after another into one buffer.
ghost use Rattle.std.specs.Prelude.{IfOk};
ghost use Rattle.branches.specs.Branches.{branches_of, Branched};
ghost use Rattle.route.specs.Lines.{spaced, spaced_all, net_line, branch_line, branch_lines, repeaters_line, refused_line, tree_text, answer_text};
ghost use Rattle.putting.specs.Putting.{Put, Fits};
ghost use Rattle.route.specs.Marked.{if_marked, marked};

use branches::BranchLengths;
use net_tree::{Refused, Tree};
use putting::put_bytes;

// A space, then a number in decimal.
fn put_number(out: &mut [u8], at: usize, n: u64) -> usize
    requires { Fits out.old at (spaced n) }
    ensures { Put out.old at (spaced n) out.new result }
{
    let mut digits = [0u8; 20];
    let count = io::decimal(n, &mut digits);
    let spaced = put_bytes(out, at, b" ");
    put_bytes(out, spaced, &digits[..count])
}

fn put_cells(out: &mut [u8], at: usize, cells: &[u32]) -> usize
    requires { Fits out.old at (spaced_all cells.now) }
    ensures { Put out.old at (spaced_all cells.now) out.new result }
{
    let mut end = at;
    for cell in cells {
        end = put_number(out, end, u64::from(*cell));
    }
    end
}

// A cell's number, if it is marked.
fn put_if_marked(out: &mut [u8], at: usize, mark: u8, cell: usize) -> usize
    requires { Fits out.old at (spaced_all (if_marked mark cell)) }
    ensures { Put out.old at (spaced_all (if_marked mark cell)) out.new result }
{
    if mark == routing_resources::MARKED {
        put_number(out, at, cell as u64)
    } else {
        at
    }
}

// The marked cells, ascending.
fn put_marked(out: &mut [u8], at: usize, marks: &[u8]) -> usize
    requires { Fits out.old at (spaced_all (marked marks.now)) }
    ensures { Put out.old at (spaced_all (marked marks.now)) out.new result }
{
    let mut end = at;
    for (cell, mark) in marks.iter().enumerate() {
        end = put_if_marked(out, end, *mark, cell);
    }
    end
}

// "a line `net` with branch count and occupied count"
fn put_net(out: &mut [u8], at: usize, branches: usize, occupied: usize) -> usize
    requires { Fits out.old at (net_line branches occupied) }
    ensures { Put out.old at (net_line branches occupied) out.new result }
{
    let named = put_bytes(out, at, b"net");
    let first = put_number(out, named, branches as u64);
    let second = put_number(out, first, occupied as u64);
    put_bytes(out, second, b"\n")
}

// "a line `branch` with its cells"
fn put_branch(out: &mut [u8], at: usize, cells: &[u32]) -> usize
    requires { Fits out.old at (branch_line cells.now) }
    ensures { Put out.old at (branch_line cells.now) out.new result }
{
    let named = put_bytes(out, at, b"branch");
    let listed = put_cells(out, named, cells);
    put_bytes(out, listed, b"\n")
}

// "for each sink in sheet order"
fn put_branches(out: &mut [u8], at: usize, cells: &[u32], lengths: BranchLengths) -> usize
    requires branched { Branched lengths cells.now }
    requires fits { Fits out.old at (branch_lines (branches_of lengths cells.now)) }
    ensures { Put out.old at (branch_lines (branches_of lengths cells.now)) out.new result }
{
    let mut end = at;
    let mut from: usize = 0;
    for k in 0..lengths.count {
        let to = from + lengths.each[k];
        end = put_branch(out, end, &cells[from..to]);
        from = to;
    }
    end
}

// "a line `repeaters` with their cells ascending, the bare word if there are none"
fn put_repeaters(out: &mut [u8], at: usize, marks: &[u8]) -> usize
    requires { Fits out.old at (repeaters_line (marked marks.now)) }
    ensures { Put out.old at (repeaters_line (marked marks.now)) out.new result }
{
    let named = put_bytes(out, at, b"repeaters");
    let listed = put_marked(out, named, marks);
    put_bytes(out, listed, b"\n")
}

// "A refusal prints `refused`, number, detail"
pub fn put_refused(out: &mut [u8], at: usize, number: u32, detail: usize) -> usize
    requires { Fits out.old at (refused_line number detail) }
    ensures { Put out.old at (refused_line number detail) out.new result }
{
    let named = put_bytes(out, at, b"refused");
    let first = put_number(out, named, number as u64);
    let second = put_number(out, first, detail as u64);
    put_bytes(out, second, b"\n")
}

fn put_tree(
    out: &mut [u8],
    lengths: BranchLengths,
    occupied: usize,
    cells: &[u32],
    repeaters: &[u8],
) -> usize
    requires branched { Branched lengths cells.now }
    requires fits { Fits out.old 0 (tree_text lengths occupied cells.now repeaters.now) }
    ensures { Put out.old 0 (tree_text lengths occupied cells.now repeaters.now) out.new result }
{
    let counted = put_net(out, 0, lengths.count, occupied);
    let branched = put_branches(out, counted, cells, lengths);
    put_repeaters(out, branched, repeaters)
}

// All lines of an answer: the branches' cells and the repeaters' marks are as `route_net_tree` leaves them.
pub fn put_answer(
    out: &mut [u8],
    answer: Result<Tree, Refused>,
    cells: &[u32],
    repeaters: &[u8],
) -> usize
    requires branched { IfOk answer (λ tree. Branched tree.lengths cells.now) }
    requires fits { Fits out.old 0 (answer_text answer cells.now repeaters.now) }
    ensures { Put out.old 0 (answer_text answer cells.now repeaters.now) out.new result }
{
    match answer {
        Ok(tree) => put_tree(out, tree.lengths, tree.occupied, cells, repeaters),
        Err(Refused { number, detail }) => put_refused(out, 0, number, detail),
    }
}
