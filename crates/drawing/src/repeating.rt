// Repeaters along a path.
ghost use Rattle.std.specs.Prelude.{◌≡◌, ◌+◌, ◌<◌, length, replicate};
ghost use Rattle.room.specs.Room.{Good};
ghost use Rattle.routing_resources.specs.Marks.{AllCells};
ghost use Rattle.drawing.specs.Answers.{list_enough, ListPromise};
ghost use Rattle.drawing.specs.Listing.{Listable, due_facing, AllListed};

use crate::judge::judge;
use room::{NO_FACING, REPEATER, Room, as_index};
use routing::Refusal;

#[tactic(auto, unfolding(crate::specs::Answers::list_enough))]
// Whether both slices of the list are at least as long as the path.
fn list_enough(path: &[u32], cells: &[u32], facings: &[u8]) -> bool
    ensures { result ≡ list_enough path.now cells.now facings.now }
{
    path.len() <= cells.len() && path.len() <= facings.len()
}

// The facing of the repeater that is due at an inner place of the path, if one is: where the count has reached the limit, and
// the steps in and out have the same flat facing.
fn due_facing(room: Room, run: usize, path: &[u32], i: usize, count: usize) -> Option<u8>
    requires good { Good room }
    requires all_cells { AllCells room path.now }
    requires i_nonzero { 0 < i }
    requires i_in_bounds { i + 1 < length path.now }
    ensures { result ≡ due_facing room run path.now i count }
{
    if count < run {
        return None;
    }
    let cell = as_index(path[i]);
    let into = repeaters::facing(room, as_index(path[i - 1]), cell);
    if into == NO_FACING {
        return None;
    }
    let out = repeaters::facing(room, cell, as_index(path[i + 1]));
    if into == out { Some(out) } else { None }
}

// Each place from the second to the last but one in turn, over a list that is all zero; how many repeaters are listed.
fn list_repeaters(
    room: Room,
    run: usize,
    kinds: &mut [u8],
    path: &[u32],
    cells: &mut [u32],
    facings: &mut [u8],
) -> usize
    requires listable { Listable room kinds.old path.now cells.old facings.old }
    requires cells_value { cells.old ≡ replicate (length cells.old) 0 }
    requires facings_value { facings.old ≡ replicate (length facings.old) 0 }
    ensures { AllListed room run path.now kinds.old (length cells.old) (length facings.old) result kinds.new cells.new facings.new }
{
    let mut listed: usize = 0;
    let mut count: usize = 0;
    for i in 1..path.len().saturating_sub(1) {
        count += 1;
        let Some(facing) = due_facing(room, run, path, i, count) else {
            continue;
        };
        let cell = path[i];
        kinds[as_index(cell)] = REPEATER;
        cells[listed] = cell;
        facings[listed] = facing;
        listed += 1;
        count = 0;
    }
    listed
}

// Swaps straight cells of the path for repeaters at the given run limit, lists each with its facing, and answers how many are
// listed. See the promise in specs/Answers.antt.
pub fn insert_repeaters(
    room: Room,
    run: usize,
    kinds: &mut [u8],
    path: &[u32],
    cells: &mut [u32],
    facings: &mut [u8],
) -> Result<usize, Refusal>
    ensures { ListPromise room run kinds.old path.now cells.old facings.old result kinds.new cells.new facings.new }
{
    let enough = list_enough(path, cells, facings);
    judge(room, enough, true, kinds, path)?;
    lent::clear(cells);
    lent::clear(facings);
    Ok(list_repeaters(room, run, kinds, path, cells, facings))
}
