// One run of a sheet, over memory full of rubbish.
ghost use Rattle.std.specs.Prelude.{◌≡◌, ◌≤◌, length};
ghost use Rattle.stored.specs.Memory.{own_length};

use crate::judging::Shortage;
use crate::sheets::{Expected, Told};
use ground::Mode;
use stored::memory::{Number, OWN_LENGTH, spoil};
use stored::runs::Verdict;

// The lengths at which buffers are lent: those of a number a cell, the branch buffer, and the queue.
#[derive(Clone, Copy)]
pub struct LentLengths {
    pub cells: usize,
    pub branches: usize,
    pub queue: usize,
}

// All memory that a tree is lent to write to.
#[derive(Drop)]
pub struct Memory<'a> {
    pub branches: &'a mut [u32],
    pub occupied: &'a mut [u8],
    pub repeaters: &'a mut [u8],
    pub kinds: &'a mut [u8],
    pub blocked: &'a mut [u8],
    pub classes: &'a mut [u8],
    pub joinable: &'a mut [u8],
    pub known: &'a mut [u32],
    pub previous: &'a mut [u32],
    pub path: &'a mut [u32],
    pub best: &'a mut [u32],
    pub queue: &'a mut [u64],
}

// A buffer of the program's own, full of rubbish.
fn rubbish_buffer<N: Number>() -> [N; OWN_LENGTH]
    ensures { own_length ≡ length result }
{
    let mut buffer = [N::of_byte(0); OWN_LENGTH];
    spoil(&mut buffer);
    buffer
}

impl Memory<'_> {
    // The answer over memory full of rubbish, and all memory behind it, held to what is stored.
    fn judge(
        &mut self,
        sheet: &[u8],
        told: Told,
        shortage: Shortage,
        expected: Expected,
    ) -> Verdict {
        let answer = net_tree::route_net_tree(
            Mode::Published,
            sheet,
            self.branches,
            self.occupied,
            self.repeaters,
            self.kinds,
            self.blocked,
            self.classes,
            self.joinable,
            self.known,
            self.previous,
            self.path,
            self.best,
            self.queue,
        );
        self.verdict_of(answer, told, shortage, expected)
    }
}

// The run in the front of each buffer; that of the queue is full of rubbish already.
fn run_lent(
    sheet: &[u8],
    told: Told,
    lent: LentLengths,
    shortage: Shortage,
    expected: Expected,
    queue: &mut [u64],
) -> Verdict
    requires { (lent.branches ≤ own_length) × (lent.cells ≤ own_length) × (lent.queue ≤ length queue.old) }
{
    let count = lent.cells;
    let words = rubbish_buffer::<u32>();
    let bytes = rubbish_buffer::<u8>();
    let mut branches = words;
    let mut occupied = bytes;
    let mut repeaters = bytes;
    let mut kinds = bytes;
    let mut blocked = bytes;
    let mut classes = bytes;
    let mut joinable = bytes;
    let mut known = words;
    let mut previous = words;
    let mut path = words;
    let mut best = words;
    let mut memory = Memory {
        branches: &mut branches[..lent.branches],
        occupied: &mut occupied[..count],
        repeaters: &mut repeaters[..count],
        kinds: &mut kinds[..count],
        blocked: &mut blocked[..count],
        classes: &mut classes[..count],
        joinable: &mut joinable[..count],
        known: &mut known[..count],
        previous: &mut previous[..count],
        path: &mut path[..count],
        best: &mut best[..count],
        queue: &mut queue[..lent.queue],
    };
    memory.judge(sheet, told, shortage, expected)
}

// The run at these lengths, the queue filled with rubbish first. Lengths that a buffer doesn't have would be no run.
pub(crate) fn run_sheet(
    sheet: &[u8],
    told: Told,
    lent: LentLengths,
    shortage: Shortage,
    expected: Expected,
    queue: &mut [u64],
) -> Verdict {
    let longs = lent.queue;
    if OWN_LENGTH < lent.branches || OWN_LENGTH < lent.cells || queue.len() < longs {
        return Verdict::Other;
    }
    spoil(&mut queue[..longs]);
    run_lent(sheet, told, lent, shortage, expected, queue)
}
