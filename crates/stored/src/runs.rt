// What every stored case is put to: the verdict on a run, and longer buffers.
ghost use Rattle.std.specs.Prelude.{◌*◌, ◌≤◌, ◌<◌, IfSome};

use std::num::wrapping_add_u32;

// All as stored; or the number that a buffer gives that is too short, and everything is zero; or something else.
#[derive(Clone, Copy, PartialEq, Eq)]
pub enum Verdict {
    Same,
    Full,
    Other,
}

// How much of a buffer that holds what is stored is expected in lent memory: all, or nothing where a buffer was too short.
pub fn expected_length(verdict: Verdict, length: usize) -> usize
    ensures { result ≤ length }
{
    match verdict {
        Verdict::Same => length,
        Verdict::Full | Verdict::Other => 0,
    }
}

// How long a buffer is lent without a change of the answer, where a number hangs on its length.
pub fn longer_unless(hanging: u32, length: usize, number: u32) -> usize
    ensures { length ≤ result }
{
    if number != hanging && length < 1000000 {
        length + 100
    } else {
        length
    }
}

// How many numbers a queue of so many places is lent without a change of the answer. Numbers 6 and 13 hang on its places: half a
// place more is none.
pub fn longer_queue(places: u32, number: u32) -> usize
    ensures { places * 2 < result }
{
    let exact = places as usize * 2;
    match number {
        6 | 13 => exact + 1,
        _ => exact + 51,
    }
}

// Looks for the least queue that gives the stored answer, by runs with fewer places than those that suffice: with one place
// less the queue is full. Tells how many runs it took, or none where one of them gave something else.
pub fn least_queue<F: FnMut(u32) -> Verdict>(places: u32, mut run: F) -> Option<u32>
    requires { F.IsAlwaysCallable run }
    ensures { IfSome result (λ runs. runs ≤ places) }
{
    let mut full: u32 = 0;
    let mut enough = places;
    let mut runs: u32 = 0;
    // no `for`: each turn halves what lies between
    while 1 < enough - full {
        let between = full + (enough - full) / 2;
        match run(between) {
            Verdict::Same => enough = between,
            Verdict::Full => full = between,
            Verdict::Other => return None,
        }
        runs = wrapping_add_u32(runs, 1);
    }
    Some(runs)
}
