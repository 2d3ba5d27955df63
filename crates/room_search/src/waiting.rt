// The waiting entries, in one of two forms: an entry is one number of the queue where all that a search can meet fits, and two elsewhere. One
// number makes the heap half as large, and one comparison tells which of two entries comes first.
ghost use Rattle.std.specs.Prelude.{◌+◌, ◌≤◌, ◌<◌, length};
ghost use Rattle.room.specs.Room.{Good};
ghost use Rattle.room.specs.Units.{GoodRanges};
ghost use Rattle.room_search.specs.Held.{HeapIn, Holdable, Joined, Left};
ghost use Rattle.room_search.specs.TriedMoves.{WidthFits};

use crate::{Line, Width};
use room::{Room, RouterConfig, as_long};

// A rank is its key times this, plus its serial, which fits 32 bits.
const RANK_UNIT: u64 = 4294967296;

// In an entry of one number, the key stands behind 40 bits, the serial behind the 16 of the cell.
const KEY_UNIT: u64 = 1099511627776;

const SERIAL_UNIT: u64 = 65536;

// Keys below 2 ^ 24 fit an entry of one number: this, and the farthest estimate with some more.
const MOST_IN_ONE: u64 = 16767216;

// How many numbers hold an entry: one where every key fits. No cost is more than V times the sum of the three.
pub fn width_for(room: Room, config: RouterConfig) -> Width
    requires good { Good room }
    requires good_ranges { GoodRanges config }
    ensures { WidthFits room config result }
{
    let sum = as_long(config.horizontal.0 + config.stair.0 + config.support.0);
    if (room.volume() as u64) * sum <= MOST_IN_ONE {
        Width::One
    } else {
        Width::Two
    }
}

impl Line {
    // One more entry, with the last serial, is put behind those that wait.
    pub fn join(self, queue: &mut [u64], key: u64, cell: u64)
        requires n_in_bounds { self.waiting + self.waiting + 1 < length queue.old }
        requires heap_in { HeapIn self.width queue.old self.waiting }
        requires holdable { Holdable self.width key self.serial cell }
        ensures { Joined self.width queue.old self.waiting key self.serial cell queue.new }
    {
        match self.width {
            Width::One => packed_queue::push(
                queue,
                self.waiting,
                key * KEY_UNIT + self.serial * SERIAL_UNIT + cell,
            ),
            Width::Two => queue::push(queue, self.waiting, key * RANK_UNIT + self.serial, cell),
        }
    }

    // Of those that wait, the entry that comes first leaves; its cell is returned.
    pub fn leave(self, queue: &mut [u64]) -> u64
        requires n_in_bounds { self.waiting + self.waiting ≤ length queue.old }
        requires n_nonzero { 0 < self.waiting }
        requires heap_in { HeapIn self.width queue.old self.waiting }
        ensures { Left self.width queue.old self.waiting result queue.new }
    {
        match self.width {
            Width::One => packed_queue::take(queue, self.waiting) % SERIAL_UNIT,
            Width::Two => queue::take(queue, self.waiting),
        }
    }
}
