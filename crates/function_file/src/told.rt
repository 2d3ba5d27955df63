// Writing and reading, told as numbers: for other languages.
ghost use Rattle.std.specs.Prelude.{◌≡◌, [], ◌∷◌, ◌≤◌, length};
ghost use Rattle.lent.specs.Lent.{output_after};
ghost use Rattle.function_file.specs.Written.{written_number};
ghost use Rattle.function_file.specs.Reading.{read_number, read_detail};
ghost use Rattle.function_file.specs.WriteTold.{value_count, few_number, bytes_written, written_values, WriteTold};
ghost use Rattle.function_file.specs.ReadTold.{lines_read, read_values, ReadTold};

use crate::reading::read_function;
use crate::writing::write_function;
use crate::{ReadFault, WriteFault};
use room::Room;

// How many values are asked: the detail, and a count.
const VALUES: usize = 2;

// Fewer values are lent: 6, unless 2 comes before it.
#[tactic(auto, unfolding(crate::specs::WriteTold::few_number))]
fn few_number(room: Room) -> u32
    ensures { result ≡ few_number room }
{
    if room.good() {
        numbers::BUFFER_NUMBER
    } else {
        numbers::SIDES_NUMBER
    }
}

fn written_number(answer: Result<usize, WriteFault>) -> u32
    ensures { result ≡ written_number answer }
{
    match answer {
        Ok(_) => numbers::DONE_NUMBER,
        Err(WriteFault::Sides) => numbers::SIDES_NUMBER,
        Err(WriteFault::Buffer) => numbers::BUFFER_NUMBER,
        Err(WriteFault::Code) => numbers::CODE_NUMBER,
        Err(WriteFault::Short) => numbers::TEXT_SHORT_NUMBER,
    }
}

fn bytes_written(answer: Result<usize, WriteFault>) -> usize
    ensures { result ≡ bytes_written answer }
{
    answer.unwrap_or(0)
}

fn read_number(answer: Result<usize, ReadFault>) -> u32
    ensures { result ≡ read_number answer }
{
    match answer {
        Ok(_) => numbers::DONE_NUMBER,
        Err(ReadFault::Sides) => numbers::SIDES_NUMBER,
        Err(ReadFault::Buffer) => numbers::BUFFER_NUMBER,
        Err(ReadFault::Bad(_)) => numbers::BAD_LINE_NUMBER,
    }
}

fn read_detail(answer: Result<usize, ReadFault>) -> usize
    ensures { result ≡ read_detail answer }
{
    match answer {
        Err(ReadFault::Bad(line)) => line,
        _ => 0,
    }
}

fn lines_read(answer: Result<usize, ReadFault>) -> usize
    ensures { result ≡ lines_read answer }
{
    answer.unwrap_or(0)
}

// Writes the values of what was written and returns its number. 2, 6 and 5 write none.
fn tell_written(answer: Result<usize, WriteFault>, values: &mut [u64]) -> u32
    requires { value_count ≤ length values.old }
    ensures value { result ≡ written_number answer }
    ensures values_after { values.new ≡ output_after (written_number answer) (written_values answer) values.old }
{
    let number = written_number(answer);
    if lent::touches(number) {
        let length = bytes_written(answer);
        lent::write_two(values, 0, length as u64);
    }
    number
}

// Writes the values of what was read and returns its number. 2 and 6 write none.
fn tell_read(answer: Result<usize, ReadFault>, values: &mut [u64]) -> u32
    requires { value_count ≤ length values.old }
    ensures value { result ≡ read_number answer }
    ensures values_after { values.new ≡ output_after (read_number answer) (read_values answer) values.old }
{
    let number = read_number(answer);
    if lent::touches(number) {
        let detail = read_detail(answer);
        let lines = lines_read(answer);
        lent::write_two(values, detail as u64, lines as u64);
    }
    number
}

// Writes the text of a room, as `write_function`. The number comes back, 0 for a text; the detail, always 0, and the text's
// length go to the first two of `values`. See the promise in specs/WriteTold.antt.
pub fn tell_write_function(
    room: Room,
    kinds: &[u8],
    facings: &[u8],
    text: &mut [u8],
    values: &mut [u64],
) -> u32
    ensures { WriteTold room kinds.now facings.now text.old values.old result text.new values.new }
{
    if values.len() < VALUES {
        return few_number(room);
    }
    let answer = write_function(room, kinds, facings, text);
    tell_written(answer, values)
}

// Reads the text of a room, as `read_function`. The number comes back, 0 where all lines are good; the number of the first bad
// line, and how many were read, go to the first two of `values`. See the promise in specs/ReadTold.antt.
pub fn tell_read_function(
    room: Room,
    text: &[u8],
    kinds: &mut [u8],
    facings: &mut [u8],
    values: &mut [u64],
) -> u32
    ensures { ReadTold room text.now kinds.old facings.old values.old result kinds.new facings.new values.new }
{
    if values.len() < VALUES {
        return few_number(room);
    }
    let answer = read_function(room, text, kinds, facings);
    tell_read(answer, values)
}
