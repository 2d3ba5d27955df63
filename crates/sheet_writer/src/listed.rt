// Records among 16-bit numbers.
ghost use Rattle.std.specs.Prelude.{◌≡◌, ◌+◌, ◌<◌, ◌≤◌, length, get_or, drop};
ghost use Rattle.sheet_writer.specs.Writer.{block_numbers, position_numbers, block_from, position_from};
ghost use Rattle.sheet_writer.specs.Narrow.{code_of, narrowed};

use job_sheet::Block;
use room::Pos;

// Number k of what begins at a place.
pub fn number(numbers: &[u16], place: usize, k: usize) -> u16
    requires { place + k < length numbers.now }
    ensures { result ≡ get_or (drop place numbers.now) k 0 }
{
    numbers[place + k]
}

// A 16-bit number as one of any size.
pub fn wide(number: u16) -> usize
    ensures { result ≡ number }
{
    usize::from(number)
}

// "x, y, z", from number k on of what begins at a place.
pub fn position_from(numbers: &[u16], place: usize, k: usize) -> Pos
    requires { place + k + position_numbers ≤ length numbers.now }
    ensures { result ≡ position_from (drop place numbers.now) k }
{
    Pos {
        x: wide(number(numbers, place, k)),
        y: wide(number(numbers, place, k + 1)),
        z: wide(number(numbers, place, k + 2)),
    }
}

// A code in one byte. A number that no byte holds is no code; nor is 255, which stands for it.
#[tactic(auto, unfolding(crate::specs::Narrow::code_of))]
pub fn code_of(number: u16) -> u8
    ensures { result ≡ code_of number }
{
    u8::try_from(number).unwrap_or(255)
}

// "node, x, y, z, kind, facing", its codes in one byte each.
pub fn block_from(numbers: &[u16], place: usize) -> Block
    requires { place + block_numbers ≤ length numbers.now }
    ensures { result ≡ narrowed (block_from (drop place numbers.now)) }
{
    Block {
        node: number(numbers, place, 0),
        at: position_from(numbers, place, 1),
        kind: code_of(number(numbers, place, 4)),
        facing: code_of(number(numbers, place, 5)),
    }
}
