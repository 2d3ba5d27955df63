// Lent memory: filled with rubbish before a run, and looked through to its very end behind it.
ghost use Rattle.std.specs.Prelude.{◌≡◌, ℕ, ◌<◌, length};
ghost use Rattle.stored.specs.Memory.{file_length, rubbish, Rubbish, due_at, holds};

// How many numbers the programs' own buffers have: those of the longest buffer that is stored, 16,484, and some more.
pub const OWN_LENGTH: usize = 16600;

// How many bytes their buffer for a stored file has: those of the longest that is stored, 839,526, and some more.
pub const FILE_LENGTH: usize = 1000000;

// How many numbers their queue has: two for each of the 196,608 places of the largest that is stored, and some more, since each is lent longer too.
pub const QUEUE_LENGTH: usize = 393300;

pub fn file_buffer() -> [u8; FILE_LENGTH]
    ensures { file_length ≡ length result }
{
    [0; FILE_LENGTH]
}

// The rubbish at a place: a small number, which could pass for a cell, a cost or an entry, and is never 0 nor a mark.
fn rubbish(i: usize) -> u8
    ensures { (result ≡ rubbish i) × (result < 256) }
{
    (i % 251 + 2) as u8
}

// A number of lent memory: a byte, a word or a long.
pub trait Number: Copy + PartialEq {
    // the number of this width that is a byte's value
    ghost of: { ℕ → Self };

    fn of_byte(byte: u8) -> Self
        ensures { result ≡ of byte };
}

impl Number for u8 {
    ghost of = { λ n. n };

    fn of_byte(byte: u8) -> u8 {
        byte
    }
}

impl Number for u32 {
    ghost of = { λ n. n };

    fn of_byte(byte: u8) -> u32 {
        u32::from(byte)
    }
}

impl Number for u64 {
    ghost of = { λ n. n };

    fn of_byte(byte: u8) -> u64 {
        u64::from(byte)
    }
}

// Fills memory with rubbish.
pub fn spoil<N: Number>(s: &mut [N])
    ensures { Rubbish N.of s.new }
{
    for i in 0..s.len() {
        s[i] = N::of_byte(rubbish(i));
    }
}

// What is due at a place: the rubbish, where it is to be kept; else what is expected there, and 0 behind that.
fn due<N: Number>(kept: bool, expected: &[N], i: usize) -> N
    ensures { result ≡ due_at N.of kept expected.now i }
{
    if kept {
        N::of_byte(rubbish(i))
    } else if i < expected.len() {
        expected[i]
    } else {
        N::of_byte(0)
    }
}

// Whether each place holds what is due.
pub fn hold<N: Number>(kept: bool, expected: &[N], s: &[N]) -> bool
    ensures { result ≡ holds N.eq N.of kept expected.now s.now }
{
    for i in 0..s.len() {
        if s[i] != due(kept, expected, i) {
            return false;
        }
    }
    true
}
