// One search, run over memory full of rubbish and held to the stored answer.
use crate::searches::{Stored, Told};
use reply::{detail_of, number_of, route_of};
use routing::{Route, Unrouted};
use stored::file_places::{part, read_cells};
use stored::memory::{OWN_LENGTH, hold, spoil};
use stored::runs::{Verdict, expected_length};

// The lengths at which buffers are lent: those of a number a cell, and the queue.
#[derive(Clone, Copy)]
pub struct LentLengths {
    pub cells: usize,
    pub queue: usize,
}

// All memory that a search is lent to write to.
#[derive(Drop)]
struct Memory<'a> {
    path: &'a mut [u32],
    known: &'a mut [u32],
    previous: &'a mut [u32],
    classes: &'a mut [u8],
    queue: &'a mut [u64],
}

// Of an answer other than a route, cost, expanded count and length are 0.
fn same_answer(answer: Result<Route, Unrouted>, told: Told) -> bool {
    let route = route_of(answer);
    number_of(answer) == told.number
        && detail_of(answer) == told.detail
        && route.cost.0 == told.cost
        && route.expanded.0 == told.expanded
        && route.length == told.length
}

// A queue may be found full at any of the cells that the stored search expanded. A refusal tells how many as its detail, a
// route as its expanded count, and the other of the two is 0.
fn full_early(answer: Result<Route, Unrouted>, told: Told) -> bool {
    let most = told.detail.max(told.expanded as usize);
    number_of(answer) == 13 && detail_of(answer) <= most
}

// The answer, held to what is stored, or to what a full queue gives.
fn verdict_by(answer: Result<Route, Unrouted>, told: Told) -> Verdict {
    if same_answer(answer, told) {
        Verdict::Same
    } else if full_early(answer, told) {
        Verdict::Full
    } else {
        Verdict::Other
    }
}

impl Memory<'_> {
    fn spoil(&mut self) {
        spoil(self.path);
        spoil(self.known);
        spoil(self.previous);
        spoil(self.classes);
        spoil(self.queue);
    }

    // "Numbers 1 to 6 touch nothing; 7 to 15 leave every lent writable buffer zero. A success writes the answer, zeros behind
    // it, and zeroes work memory."
    fn holds(&self, kept: bool, cells: &[u32]) -> bool {
        hold(kept, cells, self.path)
            && hold(kept, &[], self.known)
            && hold(kept, &[], self.previous)
            && hold(kept, &[], self.classes)
            && hold(kept, &[], self.queue)
    }

    // The search, and its answer and all memory held to what is stored, or to what a full queue leaves.
    fn judge(&mut self, stored: Stored, kinds: &[u8], cells: &[u32]) -> Verdict {
        self.spoil();
        let answer = routing::astar_route(
            stored.room,
            stored.config,
            kinds,
            stored.start,
            stored.goal,
            self.path,
            self.known,
            self.previous,
            self.classes,
            self.queue,
        );
        let verdict = verdict_by(answer, stored.told);
        let kept = !lent::touches(number_of(answer));
        let count = expected_length(verdict, cells.len());
        if self.holds(kept, &cells[..count]) {
            verdict
        } else {
            Verdict::Other
        }
    }
}

// A stored search, run in memory of its own but for the queue, in the front of each buffer. Lengths that a buffer doesn't have would
// be no search.
pub(crate) fn run_stored(
    file: &[u8],
    stored: Stored,
    lent: LentLengths,
    queue: &mut [u64],
) -> Verdict {
    let count = lent.cells;
    if OWN_LENGTH < count || queue.len() < lent.queue {
        return Verdict::Other;
    }
    let mut cells = [0u32; OWN_LENGTH];
    let mut path = [0u32; OWN_LENGTH];
    let mut known = [0u32; OWN_LENGTH];
    let mut previous = [0u32; OWN_LENGTH];
    let mut classes = [0u8; OWN_LENGTH];
    read_cells(file, stored.told.path_at, 0, &mut cells, &mut []);
    let mut memory = Memory {
        path: &mut path[..count],
        known: &mut known[..count],
        previous: &mut previous[..count],
        classes: &mut classes[..count],
        queue: &mut queue[..lent.queue],
    };
    memory.judge(stored, part(file, stored.from, stored.count), &cells)
}
