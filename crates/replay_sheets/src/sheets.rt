// A file of stored sheets, as bytes: big-endian records, each a sheet with its answer, as the oracle's README lays them out.
ghost use Rattle.std.specs.Prelude.{◌≤◌};
ghost use Rattle.job_sheet.specs.Sheet.{max_sinks};

use branches::BranchLengths;
use job_sheet::MAX_SINKS;
use stored::file_places::{byte_at, past, read_cells, word_at};

// The letters that the file begins with: DRT1.
pub const LETTERS: usize = 0x44525431;

// The lengths that a sheet comes with: the queue's places, the cells of the branch buffer, and the length of each other buffer.
#[derive(Clone, Copy)]
pub struct Asked {
    pub places: u32,
    pub branches: usize,
    pub lent: usize,
}

// A stored answer: its number, 0 for a tree, and its detail; the branches' lengths, and how many cells they have together; how many
// cells are occupied, and how many repeaters there are.
#[derive(Clone, Copy)]
pub struct Told {
    pub number: u32,
    pub detail: usize,
    pub lengths: BranchLengths,
    pub total: usize,
    pub occupied: usize,
    pub repeaters: usize,
}

// What is expected of the outputs: a tree's cells, in sheet order; marks on those cells; marks on its repeaters.
#[derive(Clone, Copy)]
pub struct Expected<'a> {
    pub cells: &'a [u32],
    pub covered: &'a [u8],
    pub marks: &'a [u8],
}

// A stored answer, and where its record ends.
#[derive(Clone, Copy)]
pub struct Answered {
    pub told: Told,
    pub end: usize,
}

// A tree's branches: the length of each, how many cells they have together, and where they end.
#[derive(Clone, Copy)]
struct Branches {
    each: [usize; MAX_SINKS],
    total: usize,
    end: usize,
}

pub(crate) fn asked_at(file: &[u8], at: usize) -> Asked {
    Asked {
        places: word_at(file, at, 0) as u32,
        branches: word_at(file, at, 4),
        lent: word_at(file, at, 8),
    }
}

// The branches that stand from a place on: their cells are written one behind the other, and marked.
fn branches_at(
    file: &[u8],
    at: usize,
    count: usize,
    cells: &mut [u32],
    covered: &mut [u8],
) -> Branches
    requires { count ≤ max_sinks }
{
    let mut each = [0usize; MAX_SINKS];
    let mut total: usize = 0;
    let mut end = at;
    for k in 0..count {
        let length = word_at(file, end, 0);
        end = read_cells(file, end, total, cells, covered);
        each[k] = length;
        total += length;
    }
    Branches { each, total, end }
}

// A tree's answer.
fn tree_at(
    file: &[u8],
    at: usize,
    cells: &mut [u32],
    covered: &mut [u8],
    marks: &mut [u8],
) -> Answered {
    let count = byte_at(file, at, 5);
    let branches = branches_at(file, past(at, 6), count.min(MAX_SINKS), cells, covered);
    let each = branches.each;
    let behind = branches.end;
    let end = read_cells(file, past(behind, 4), 0, &mut cells[..0], marks);
    Answered {
        told: Told {
            number: 0,
            detail: word_at(file, at, 1),
            lengths: BranchLengths { count, each },
            total: branches.total,
            occupied: word_at(file, behind, 0),
            repeaters: word_at(file, behind, 4),
        },
        end,
    }
}

// An answer: a tree's cells go to the front of `cells`, in sheet order, and are marked in `covered`; its repeaters are marked in `marks`.
pub(crate) fn answer_at(
    file: &[u8],
    at: usize,
    cells: &mut [u32],
    covered: &mut [u8],
    marks: &mut [u8],
) -> Answered {
    let number = byte_at(file, at, 0);
    if number == 0 {
        return tree_at(file, at, cells, covered, marks);
    }
    Answered {
        told: Told {
            number: number as u32,
            detail: word_at(file, at, 1),
            lengths: branches::no_lengths(0),
            total: 0,
            occupied: 0,
            repeaters: 0,
        },
        end: past(at, 5),
    }
}
