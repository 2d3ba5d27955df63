// Every stored sheet is run several times, and each run is held to the stored answer.
use crate::judging::Shortage;
use crate::running::{LentLengths, run_sheet};
use crate::sheets::{Asked, Expected, LETTERS, Told, answer_at, asked_at};
use crate::tallies::{Comparison, Tally};
use stored::file_places::{FIRST_PLACE, count_in, part, past, word_at};
use stored::memory::OWN_LENGTH;
use stored::runs::{Verdict, least_queue, longer_queue, longer_unless};

// How far the file has been replayed: where the next record stands, and what has come of those before it.
#[derive(Clone, Copy)]
pub struct Stand {
    pub at: usize,
    pub tally: Tally,
}

// A sheet's size: V, or the stored length where that is shorter, and the node limit. A sheet that is not accepted has the stored length.
#[derive(Clone, Copy)]
struct Size {
    cells: usize,
    limit: usize,
}

fn size_of(sheet: &[u8], lent: usize) -> Size {
    let reading = sheet_reader::read_sheet(sheet);
    let judgement = reading.judgement;
    if !judgement.is_good() {
        return Size {
            cells: lent,
            limit: 0,
        };
    }
    let job = reading.job;
    Size {
        cells: lent.min(job.room.volume()),
        limit: job.config.limit.0 as usize,
    }
}

// The lengths of a comparison. Longer buffers change no answer: numbers 6, 13 and 15 hang on lengths.
fn lengths_for(comparison: Comparison, asked: Asked, cells: usize, told: Told) -> LentLengths {
    let exact = LentLengths {
        cells,
        branches: asked.branches,
        queue: asked.places as usize * 2,
    };
    match comparison {
        Comparison::Exact | Comparison::Queue => exact,
        Comparison::Longer => LentLengths {
            cells: longer_unless(6, asked.lent, told.number),
            branches: longer_unless(15, asked.branches, told.number),
            queue: longer_queue(asked.places, told.number),
        },
        Comparison::BranchFull => LentLengths {
            branches: told.total,
            ..exact
        },
        Comparison::BranchShort => LentLengths {
            branches: told.total.saturating_sub(1),
            ..exact
        },
    }
}

// A buffer that is one cell short gives its number, any other the stored answer.
fn agreed_by(comparison: Comparison, verdict: Verdict) -> bool {
    let due = if comparison == Comparison::BranchShort {
        Verdict::Full
    } else {
        Verdict::Same
    };
    verdict == due
}

// Whether the least queue gives the stored answer, and one place less a full queue.
fn narrows(
    sheet: &[u8],
    asked: Asked,
    size: Size,
    told: Told,
    expected: Expected,
    queue: &mut [u64],
) -> bool {
    let shortage = Shortage {
        number: 13,
        most: size.limit,
    };
    let narrowed = least_queue(asked.places, |places| {
        let lent = LentLengths {
            cells: size.cells,
            branches: asked.branches,
            queue: places as usize * 2,
        };
        run_sheet(sheet, told, lent, shortage, expected, queue)
    });
    narrowed.is_some()
}

fn agrees_in(
    comparison: Comparison,
    sheet: &[u8],
    asked: Asked,
    told: Told,
    expected: Expected,
    queue: &mut [u64],
) -> bool {
    let size = size_of(sheet, asked.lent);
    if comparison == Comparison::Queue {
        return narrows(sheet, asked, size, told, expected, queue);
    }
    let lent = lengths_for(comparison, asked, size.cells, told);
    let shortage = Shortage {
        number: 15,
        most: told.lengths.count,
    };
    let verdict = run_sheet(sheet, told, lent, shortage, expected, queue);
    agreed_by(comparison, verdict)
}

// Whether a sheet is put to this comparison: every sheet to the first two kinds, a tree with a branch to the others.
fn is_compared(comparison: Comparison, told: Told) -> bool {
    0 < told.total || matches!(comparison, Comparison::Exact | Comparison::Longer)
}

// The record that stands there: its sheet in each comparison. The next one stands where it ends. A sheet that the file
// does not hold whole is run without a byte, which gives number 1, and the answer behind it reads as 0: so it differs.
fn replay_next(file: &[u8], stand: Stand, queue: &mut [u64]) -> Stand {
    let mut cells = [0u32; OWN_LENGTH];
    let mut covered = [0u8; OWN_LENGTH];
    let mut marks = [0u8; OWN_LENGTH];
    let length = word_at(file, stand.at, 12);
    let from = past(stand.at, 16);
    let sheet = part(file, from, length);
    let asked = asked_at(file, stand.at);
    let answered = answer_at(
        file,
        past(from, length),
        &mut cells,
        &mut covered,
        &mut marks,
    );
    let told = answered.told;
    let expected = Expected {
        cells: &cells,
        covered: &covered,
        marks: &marks,
    };
    let mut tally = stand.tally;
    tally.add_sheet(told.number);
    for comparison in Comparison::ALL {
        if is_compared(comparison, told) {
            tally.add_comparison(
                comparison,
                agrees_in(comparison, sheet, asked, told, expected, queue),
            );
        }
    }
    Stand {
        at: answered.end,
        tally,
    }
}

// All stored sheets in their order.
pub(crate) fn replay(file: &[u8], queue: &mut [u64]) -> Stand {
    let mut stand = Stand {
        at: FIRST_PLACE,
        tally: Tally::nothing_yet(),
    };
    for _ in 0..count_in(file, LETTERS) {
        stand = replay_next(file, stand, queue);
    }
    stand
}
