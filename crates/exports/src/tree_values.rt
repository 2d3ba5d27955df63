// A tree's answer as values.
ghost use Rattle.std.specs.Prelude.{◌≡◌, ◌∷◌, ◌++◌, ◌≤◌, length, drop};
ghost use Rattle.lent.specs.Lent.{filled};
ghost use Rattle.job_sheet.specs.Sheet.{max_sinks};
ghost use Rattle.exports.specs.TreeExport.{mode_of, value_count, number_told, values_after, ShortNumber};

use crate::search_values::write_front;
use branches::BranchLengths;
use ground::Mode;
use net_tree::{Refused, Tree};

// How many values a tree comes to: its detail and three counts, then the lengths of sixteen branches.
pub const TREE_VALUES: usize = 20;

// Fewer values are lent than a tree comes to: 6, unless one of 1 to 5 comes before it.
pub fn short_number(sheet: &[u8]) -> u32
    ensures { ShortNumber sheet.now result }
{
    let reading = sheet_reader::read_sheet(sheet);
    let judgement = reading.judgement;
    if !judgement.is_good() {
        return judgement.number();
    }
    numbers::BUFFER_NUMBER
}

// Sixteen lengths, to the front of what is left of the values.
// `other_nets` writes them in four bytes each: no trait of std makes a number of either width from a `usize` that is known to fit.
fn write_lengths(lengths: BranchLengths, out: &mut [u64])
    requires { max_sinks ≤ length out.old }
    ensures { out.new ≡ lengths.each ++ drop (length lengths.each) out.old }
{
    for (sink, length) in lengths.each.iter().enumerate() {
        out[sink] = *length as u64;
    }
}

// Twenty values, and zeros behind them.
fn write_values(
    values: &mut [u64],
    detail: usize,
    occupied: usize,
    repeaters: usize,
    lengths: BranchLengths,
)
    requires { value_count ≤ length values.old }
    ensures { values.new ≡ filled (detail ∷ lengths.count ∷ occupied ∷ repeaters ∷ lengths.each) values.old }
{
    let front = [
        detail as u64,
        lengths.count as u64,
        occupied as u64,
        repeaters as u64,
    ];
    write_front(values, &front);
    write_lengths(lengths, &mut values[4..]);
}

// Writes a tree's values and returns its number. A refusal by 1 to 6 writes nothing.
pub fn tell_tree(answer: Result<Tree, Refused>, values: &mut [u64]) -> u32
    requires { value_count ≤ length values.old }
    ensures value { result ≡ number_told answer }
    ensures values_after { values.new ≡ values_after answer values.old }
{
    match answer {
        Ok(tree) => {
            write_values(values, 0, tree.occupied, tree.repeaters, tree.lengths);
            numbers::DONE_NUMBER
        }
        Err(Refused { number, detail }) => {
            if lent::touches(number) {
                write_values(values, detail, 0, 0, branches::no_lengths(0));
            }
            number
        }
    }
}

// The mode that a number stands for: 0 is the published router's, any other number is strict.
pub fn mode_of(strict: u32) -> Mode
    ensures { result ≡ mode_of strict }
{
    if strict == 0 {
        Mode::Published
    } else {
        Mode::Strict
    }
}
