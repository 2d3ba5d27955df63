// What is counted of the sheets that have been replayed. A file of a million bytes has far too few of them for a count to wrap.
use std::num::wrapping_add_u32;

// The kinds of comparison: buffers of exactly V cells, longer ones, a branch buffer exactly full, one that is one cell short, and
// the least queue.
#[derive(Clone, Copy, PartialEq, Eq)]
pub enum Comparison {
    Exact,
    Longer,
    BranchFull,
    BranchShort,
    Queue,
}

// Of one kind of comparison, how many sheets were compared, how many of them differ, and which is the first that does, counted
// from 1.
#[derive(Clone, Copy)]
pub struct Count {
    pub compared: u32,
    pub differ: u32,
    pub first: Option<u32>,
}

// How many sheets there are, how many have each number, and what is counted of each kind of comparison.
#[derive(Clone, Copy)]
pub struct Tally {
    pub sheets: u32,
    pub met: [u32; 16],
    pub counts: [Count; 5],
}

impl Comparison {
    pub(crate) const ALL: [Comparison; 5] = [
        Comparison::Exact,
        Comparison::Longer,
        Comparison::BranchFull,
        Comparison::BranchShort,
        Comparison::Queue,
    ];
}

impl Tally {
    pub(crate) fn nothing_yet() -> Tally {
        let none = Count {
            compared: 0,
            differ: 0,
            first: None,
        };
        Tally {
            sheets: 0,
            met: [0; 16],
            counts: [none; 5],
        }
    }

    // One sheet more, which has this number.
    pub(crate) fn add_sheet(&mut self, number: u32) {
        let place = number as usize;
        if place < 16 {
            self.met[place] = wrapping_add_u32(self.met[place], 1);
        }
        self.sheets = wrapping_add_u32(self.sheets, 1);
    }

    // The last sheet, in this comparison.
    pub(crate) fn add_comparison(&mut self, comparison: Comparison, agreed: bool) {
        let place = comparison as usize;
        let count = self.counts[place];
        self.counts[place] = Count {
            compared: wrapping_add_u32(count.compared, 1),
            differ: wrapping_add_u32(count.differ, if agreed { 0 } else { 1 }),
            first: if agreed {
                count.first
            } else {
                count.first.or(Some(self.sheets))
            },
        };
    }
}
