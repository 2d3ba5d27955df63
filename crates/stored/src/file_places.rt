// What stands at a place of a stored file, whose numbers are big-endian. Past its end every byte is taken for 0.
ghost use Rattle.std.specs.Prelude.{◌*◌, ◌^◌, ◌≤◌, ◌<◌, length};
ghost use Rattle.stored.specs.Memory.{file_length};

use crate::memory::FILE_LENGTH;

// The place of the first record, behind the letters and the count of records.
pub const FIRST_PLACE: usize = 8;

// The place so many bytes further on, at most the end of the buffer that the file is read into.
pub fn past(at: usize, bytes: usize) -> usize
    ensures { result ≤ file_length }
{
    at.saturating_add(bytes).min(FILE_LENGTH)
}

// The byte that stands so many behind a place.
pub fn byte_at(file: &[u8], at: usize, behind: usize) -> usize
    ensures { result < 256 }
{
    file.get(past(at, behind)).copied().map_or(0, usize::from)
}

// Two bytes, as a cell is stored.
pub fn cell_at(file: &[u8], at: usize, behind: usize) -> usize
    ensures { result < 65536 }
{
    let place = past(at, behind);
    byte_at(file, place, 0) * 256 + byte_at(file, place, 1)
}

// Four bytes.
pub fn word_at(file: &[u8], at: usize, behind: usize) -> usize
    ensures { result < 2 ^ 32 }
{
    let place = past(at, behind);
    cell_at(file, place, 0) * 65536 + cell_at(file, place, 2)
}

// How many records the file says that it holds: none, unless it begins with its letters.
pub fn count_in(file: &[u8], letters: usize) -> usize
    ensures { result < 2 ^ 32 }
{
    if word_at(file, 0, 0) == letters {
        word_at(file, 0, 4)
    } else {
        0
    }
}

// So many bytes from a place on, none where the file does not hold them all.
pub fn part(file: &[u8], at: usize, bytes: usize) -> &[u8]
    ensures { length result.now ≤ bytes }
{
    if at <= file.len() && bytes <= file.len() - at {
        &file[at..at + bytes]
    } else {
        &file[..0]
    }
}

fn put_cell(cells: &mut [u32], place: usize, cell: u32) {
    if let Some(there) = cells.get_mut(place) {
        *there = cell;
    }
}

fn mark_cell(marks: &mut [u8], cell: usize) {
    if let Some(mark) = marks.get_mut(cell) {
        *mark = 1;
    }
}

// A list of cells behind its count, as many as a file can hold: each is written, the first at a place of `cells`, and marked, if there is a
// place for it. Tells where the list ends.
pub fn read_cells(
    file: &[u8],
    at: usize,
    place: usize,
    cells: &mut [u32],
    marks: &mut [u8],
) -> usize
    requires { place ≤ 16 * 2 ^ 32 }
    ensures { result ≤ file_length }
{
    let count = word_at(file, at, 0);
    let from = past(at, 4);
    for k in 0..count.min((FILE_LENGTH - from) / 2) {
        let cell = cell_at(file, from, k * 2);
        put_cell(cells, place + k, cell as u32);
        mark_cell(marks, cell);
    }
    past(from, count * 2)
}
