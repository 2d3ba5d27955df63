// Whether an answer, and all lent memory behind it, are as stored.
use crate::running::Memory;
use crate::sheets::{Expected, Told};
use branches::{BranchLengths, count_marks, no_lengths};
use net_tree::{Refused, Tree};
use stored::memory::hold;
use stored::runs::{Verdict, expected_length};

// What a buffer gives that is too short: a number, and the greatest detail that it can have. The least is 1.
#[derive(Clone, Copy)]
pub struct Shortage {
    pub number: u32,
    pub most: usize,
}

fn same_lengths(a: BranchLengths, b: BranchLengths) -> bool {
    a.count == b.count && a.each == b.each
}

// A tree has the detail 0.
fn same_end(answer: Result<Tree, Refused>, told: Told) -> bool {
    match answer {
        Ok(tree) => {
            told.number == 0
                && told.detail == 0
                && tree.occupied == told.occupied
                && tree.repeaters == told.repeaters
        }
        Err(Refused { number, detail }) => number == told.number && detail == told.detail,
    }
}

fn short_end(answer: Result<Tree, Refused>, shortage: Shortage) -> bool {
    match answer {
        Ok(_) => false,
        Err(Refused { number, detail }) => {
            number == shortage.number && 1 <= detail && detail <= shortage.most
        }
    }
}

// The answer, held to what is stored, or to what a buffer gives that is too short.
fn verdict_by(answer: Result<Tree, Refused>, told: Told, shortage: Shortage) -> Verdict {
    let lengths = match answer {
        Ok(tree) => tree.lengths,
        Err(_) => no_lengths(0),
    };
    if same_end(answer, told) && same_lengths(lengths, told.lengths) {
        Verdict::Same
    } else if short_end(answer, shortage) {
        Verdict::Full
    } else {
        Verdict::Other
    }
}

// Whether all are marks or 0, marks wherever one is expected.
fn covers(expected: &[u8], s: &[u8]) -> bool {
    s.iter().all(|mark| *mark <= 1) && expected.iter().zip(s).all(|(least, mark)| least <= mark)
}

// The cells that the tree occupies: marks on the branches' cells, and as many as are stored. A tree without a branch occupies its
// source alone.
fn occupied_holds(kept: bool, count: usize, covered: &[u8], occupied: &[u8]) -> bool {
    if kept {
        hold(true, covered, occupied)
    } else {
        covers(covered, occupied) && count_marks(occupied) == count
    }
}

impl Memory<'_> {
    // Branches, occupied cells and repeaters as stored, and zeros behind them, or zeros alone where a buffer was too short; or the
    // rubbish that was there.
    fn outputs_hold(&self, kept: bool, verdict: Verdict, told: Told, expected: Expected) -> bool {
        let cells = expected_length(verdict, expected.cells.len());
        let covered = expected_length(verdict, expected.covered.len());
        let marks = expected_length(verdict, expected.marks.len());
        let count = expected_length(verdict, told.occupied);
        hold(kept, &expected.cells[..cells], self.branches)
            && occupied_holds(kept, count, &expected.covered[..covered], self.occupied)
            && hold(kept, &expected.marks[..marks], self.repeaters)
    }

    // Work memory: the rubbish that was there, or zeros.
    fn work_holds(&self, kept: bool) -> bool {
        hold(kept, &[], self.kinds)
            && hold(kept, &[], self.blocked)
            && hold(kept, &[], self.classes)
            && hold(kept, &[], self.joinable)
            && hold(kept, &[], self.known)
            && hold(kept, &[], self.previous)
            && hold(kept, &[], self.path)
            && hold(kept, &[], self.best)
            && hold(kept, &[], self.queue)
    }

    // The answer and all memory, held to what is stored, or to what a buffer leaves that is too short.
    pub(crate) fn verdict_of(
        &self,
        answer: Result<Tree, Refused>,
        told: Told,
        shortage: Shortage,
        expected: Expected,
    ) -> Verdict {
        let verdict = verdict_by(answer, told, shortage);
        let kept = !lent::touches(told.number);
        if self.outputs_hold(kept, verdict, told, expected) && self.work_holds(kept) {
            verdict
        } else {
            Verdict::Other
        }
    }
}
