// Every stored search is run several times, and each run is held to the stored answer.
use crate::compare::{LentLengths, run_stored};
use crate::searches::{LETTERS, Stored, stored_at};
use std::num::wrapping_add_u32;
use stored::file_places::{FIRST_PLACE, count_in};
use stored::runs::{Verdict, least_queue, longer_queue, longer_unless};

// How far the file has been replayed: to which place, how many searches and runs agreed, how many of the searches have each number,
// and whether all agreed. A file of a million bytes has far too few of them for a count to wrap.
#[derive(Clone, Copy)]
pub struct Stand {
    pub at: usize,
    pub searches: u32,
    pub runs: u32,
    pub met: [u32; 16],
    pub agreed: bool,
}

// Whether the stored answer comes at these lengths.
fn same_at(file: &[u8], stored: Stored, lent: LentLengths, queue: &mut [u64]) -> bool {
    run_stored(file, stored, lent, queue) == Verdict::Same
}

// Exactly the stored lengths.
fn stored_lengths(stored: Stored, places: u32) -> LentLengths {
    LentLengths {
        cells: stored.lent,
        queue: places as usize * 2,
    }
}

// Longer buffers that change no answer. Numbers 6 and 13 hang on lengths.
fn longer_lengths(stored: Stored) -> LentLengths {
    let number = stored.told.number;
    LentLengths {
        cells: longer_unless(6, stored.lent, number),
        queue: longer_queue(stored.places, number),
    }
}

// Small rooms whose search came to an end of its own: a route, no route, or the node limit passed.
fn is_narrowed(stored: Stored) -> bool {
    stored.lent <= 200 && matches!(stored.told.number, 0 | 11 | 12)
}

// The stored lengths, longer ones, and the least queue: how many runs agreed, or none where one did not.
fn replay_one(file: &[u8], stored: Stored, queue: &mut [u64]) -> Option<u32> {
    let exact = stored_lengths(stored, stored.places);
    if !same_at(file, stored, exact, queue)
        || !same_at(file, stored, longer_lengths(stored), queue)
    {
        return None;
    }
    if !is_narrowed(stored) {
        return Some(2);
    }
    let narrowed = least_queue(stored.places, |places| {
        run_stored(file, stored, stored_lengths(stored, places), queue)
    })?;
    Some(wrapping_add_u32(2, narrowed))
}

fn one_more(mut met: [u32; 16], number: u32) -> [u32; 16] {
    let place = number as usize;
    if place < 16 {
        met[place] = wrapping_add_u32(met[place], 1);
    }
    met
}

// The next search, unless one has differed.
fn replay_next(file: &[u8], stand: Stand, queue: &mut [u64]) -> Stand {
    if !stand.agreed {
        return stand;
    }
    let stored = stored_at(file, stand.at);
    match replay_one(file, stored, queue) {
        None => Stand {
            agreed: false,
            ..stand
        },
        Some(runs) => Stand {
            at: stored.next,
            searches: wrapping_add_u32(stand.searches, 1),
            runs: wrapping_add_u32(stand.runs, runs),
            met: one_more(stand.met, stored.told.number),
            agreed: true,
        },
    }
}

// All stored searches in their order, up to the first that differs.
pub(crate) fn replay(file: &[u8], queue: &mut [u64]) -> Stand {
    let mut stand = Stand {
        at: FIRST_PLACE,
        searches: 0,
        runs: 0,
        met: [0; 16],
        agreed: true,
    };
    for _ in 0..count_in(file, LETTERS) {
        stand = replay_next(file, stand, queue);
    }
    stand
}
