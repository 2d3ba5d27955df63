// A job list: whole job sheets one behind the other. Where each ends, and numbers 1 to 9 of all of them, before any is
// routed and with no lent memory touched.
#![tactic(auto)]

mod ground; // ground.rt: whether a sheet has the first one's room and blocks, and whether two blocks take one cell
mod judge; // judge.rt: the numbers, net by net

ghost use Rattle.std.specs.Prelude.{◌≡◌};
ghost use Rattle.job_list.specs.Split.{sheet_long};

use job_sheet::{places, versions};
pub use judge::judge_list;

// What is lent, as far as number 6 asks: the cells of the shortest buffer that has one a cell of the room, the places of
// the queue, and how many lengths of branches there is place for.
#[derive(Clone, Copy)]
pub struct Memory {
    pub cells: usize,
    pub places: usize,
    pub lengths: usize,
}

// The number that is due for a net, and its detail. Of number 7 the detail is told later, by `place_blocks`.
#[derive(Clone, Copy)]
pub struct Due {
    pub number: u32,
    pub detail: usize,
}

// The number that is due for a list, the net that it is due for, from 0, and its detail.
#[derive(Clone, Copy)]
pub struct Verdict {
    pub number: u32,
    pub net: usize,
    pub detail: usize,
}

// How many bytes the sheet takes that these bytes begin with: as many as its own length says, or all.
pub fn sheet_size(bytes: &[u8]) -> usize
    ensures { result ≡ sheet_long bytes.now }
{
    let told = versions::SIDES + places::four_bytes(bytes, 1, 0) as usize;
    if bytes.len() < told {
        bytes.len()
    } else {
        told
    }
}
