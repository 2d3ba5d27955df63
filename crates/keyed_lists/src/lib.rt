// The waiting entries of a search in a lent slice, a list a key in place of a heap: where keys taken never fall and all that wait lie within 64
// of each other, the list of the least key is found by going up, and of one key the first in is the first out. Nothing is moved to let an
// entry in or out. The slice has, in this order: the two ends of each of 64 lists, the least key that may still come, how many places are
// used, and the places. A place is used once: entries are put in the order of their serials, and the place tells the serial.
#![tactic(auto)]

ghost use Rattle.std.specs.Prelude.{◌+◌, ◌*◌, ◌%◌, ◌^◌, ◌<◌, ◌≡◌, ◌≢◌, true, length, get_or, set};
ghost use Rattle.keyed_lists.specs.KeyedLists.{keyed_entries, Keyed, Begun, KeyedJoined, KeyedLeft};
ghost use Rattle.keyed_lists.specs.Steps.{EndsCleared, Open, Hangable, Hung, LeastKey, FirstGone};

// Behind 16 bits of the cell stand 24 of the key, and behind these the next place.
const CELL_UNIT: u64 = 65536;

const NEXT_UNIT: u64 = 1099511627776;

// The first place of a list stands behind 32 bits of its last one.
const FIRST_UNIT: u64 = 4294967296;

// Writes one word. A call is easier to reason about than a write, and costs nothing.
fn put(queue: &mut [u64], at: usize, word: u64)
    requires { at < length queue.old }
    ensures { queue.new ≡ set queue.old at word }
{
    queue[at] = word;
}

// Empties the 64 lists.
fn clear_ends(queue: &mut [u64])
    requires { 66 < length queue.old }
    ensures { EndsCleared queue.new }
{
    queue[..64].fill(0);
}

// The last place used becomes the last of its list, as it is the greatest.
fn hang(queue: &mut [u64], list: usize, place: u64)
    requires { Hangable queue.old list place }
    ensures { Hung queue.old list place queue.new }
{
    let ends = queue[list];
    if ends == 0 {
        put(queue, list, place * FIRST_UNIT + place);
        return;
    }
    let last = ends % FIRST_UNIT;
    let at = 65 + last as usize;
    let word = queue[at];
    put(queue, at, word + place * NEXT_UNIT);
    put(queue, list, ends - last + place);
}

// One more entry waits, at the next place.
fn add(queue: &mut [u64], key: u64, serial: u64, cell: u64)
    requires keyed { Keyed queue.old }
    requires fact { Open queue.old key serial }
    requires key_bound { (key + 1 < 2 ^ 24) × (serial + 1 < 2 ^ 24) × (cell < 2 ^ 16) }
    ensures { KeyedJoined queue.old key serial cell queue.new }
{
    put(queue, 66 + serial as usize, (key + 1) * CELL_UNIT + cell);
    put(queue, 65, serial + 1);
    hang(queue, (key % 64) as usize, serial + 1);
}

// Whether an entry has a place, the next one, and its key is in the window.
fn open(queue: &[u64], key: u64, serial: u64) -> bool
    requires keyed { Keyed queue.now }
    requires serial_bound { serial + 1 < 2 ^ 24 }
    ensures { result ≡ true → Open queue.now key serial }
{
    let floor = queue[64];
    queue[65] == serial && 66 + (serial as usize) < queue.len() && floor <= key && key - floor < 64
}

// Empties the lists, and puts in the first entry, of serial 0.
pub fn begin(queue: &mut [u64], key: u64, cell: u64)
    requires in_bounds { 66 < length queue.old }
    requires key_bound { (key + 1 < 2 ^ 24) × (cell < 2 ^ 16) }
    ensures { Begun key cell queue.new }
{
    clear_ends(queue);
    put(queue, 64, key);
    put(queue, 65, 0);
    add(queue, key, 0, cell);
}

// One more entry waits, unless it has no place or its key is out of the window: then false, and nothing is promised of the slice.
pub fn join(queue: &mut [u64], key: u64, serial: u64, cell: u64) -> bool
    requires keyed { Keyed queue.old }
    requires key_bound { (key + 1 < 2 ^ 24) × (serial + 1 < 2 ^ 24) × (cell < 2 ^ 16) }
    ensures { result ≡ true → KeyedJoined queue.old key serial cell queue.new }
{
    let has_place = open(queue, key, serial);
    if has_place {
        add(queue, key, serial, cell);
    }
    has_place
}

// The least key that waits: lists are passed over while they are empty.
fn least_key(queue: &[u64]) -> u64
    requires keyed { Keyed queue.now }
    requires nonzero { 0 < length (keyed_entries queue.now) }
    ensures { LeastKey queue.now result }
{
    let mut key = queue[64];
    // No plainer as a `for`: that would need an end, and an answer behind it that never comes.
    while queue[(key % 64) as usize] == 0 {
        key += 1;
    }
    key
}

// The first of a key's list leaves, and no lesser key comes any more. Its cell is returned.
fn take_first(queue: &mut [u64], key: u64) -> u64
    requires keyed { Keyed queue.old }
    requires key_nonzero { get_or queue.old (key % 64) 0 ≢ 0 }
    ensures { FirstGone queue.old key result queue.new }
{
    let list = (key % 64) as usize;
    let ends = queue[list];
    let at = 65 + (ends / FIRST_UNIT) as usize;
    let word = queue[at];
    let next = word / NEXT_UNIT;
    put(queue, 64, key);
    put(queue, at, 0);
    if next == 0 {
        put(queue, list, 0);
        return word % CELL_UNIT;
    }
    put(queue, list, next * FIRST_UNIT + ends % FIRST_UNIT);
    word % CELL_UNIT
}

// The entry that comes first leaves; its cell is returned.
pub fn leave(queue: &mut [u64]) -> u64
    requires keyed { Keyed queue.old }
    requires nonzero { 0 < length (keyed_entries queue.old) }
    ensures { KeyedLeft queue.old result queue.new }
{
    let key = least_key(queue);
    take_first(queue, key)
}
