// Numbers 1 to 9 of a list, net by net: the first that is due decides.
ghost use Rattle.std.specs.Prelude.{◌≡◌};
ghost use Rattle.room.specs.Room.{Good};
ghost use Rattle.job_sheet.specs.Accepted.{Accepted};
ghost use Rattle.job_list.specs.Split.{sheet_long, first_sheet, behind_first, sheets_in};
ghost use Rattle.job_list.specs.Judged.{contents_at, memory_good, due, told_due, ends_told, ends_due, net_due, refused_at, judged_from, judged_list};
ghost use Rattle.job_list.specs.Told.{told_list};

use crate::{Due, Memory, Verdict, ground, sheet_size};
use blocks::Overlap;
use ends::Ends;
use job_sheet::Job;
use outset::Refusal;
use room::Room;

// Number 6 is due where this is false: sixteen lengths for each net up to this one.
#[tactic(auto, unfolding(crate::specs::Judged::memory_good))]
fn memory_good(memory: Memory, room: Room, net: usize) -> bool
    requires { Good room }
    ensures { result ≡ memory_good memory room net }
{
    room.volume() <= memory.cells
        && 1 <= memory.places
        && net < memory.lengths / job_sheet::MAX_SINKS
}

// Number 7, 8 or 9 of an accepted sheet. Lent memory is not touched: the cell of a repeat is told later.
fn ends_refused(sheet: &[u8], job: Job) -> Result<Ends, Refusal>
    requires { Accepted sheet.now job }
    ensures { result ≡ ends_told (contents_at sheet.now) }
{
    if ground::cell_repeats(sheet, job.blocks, job.room) {
        return Err(Refusal::Blocks(Overlap { cell: 0 }));
    }
    match ends::realize_ends(job.room, job.source, job.sinks) {
        Ok(ends) => Ok(ends),
        Err(unrealized) => Err(Refusal::End(unrealized.fault)),
    }
}

// The number of that, and its detail.
fn ends_due(sheet: &[u8], job: Job) -> Result<(), Due>
    requires { Accepted sheet.now job }
    ensures { result ≡ told_due (ends_due (contents_at sheet.now)) }
{
    match ends_refused(sheet, job) {
        Ok(_) => Ok(()),
        Err(refusal) => Err(Due {
            number: refusal.number(),
            detail: refusal.detail(),
        }),
    }
}

// A number without a detail.
fn due_alone(number: u32) -> Due
    ensures { result ≡ due number 0 }
{
    Due { number, detail: 0 }
}

// The first of numbers 1 to 9 that is due for a net, whose sheet this is, in a list with that first sheet.
fn judge_net(memory: Memory, first: &[u8], net: usize, sheet: &[u8]) -> Result<(), Due>
    ensures { result ≡ told_due (net_due memory (contents_at first.now) net sheet.now) }
{
    // Another room than the first one's is number 1, with the other reasons for it, so before 2 to 5.
    if !ground::same_ground(first, sheet) {
        return Err(due_alone(numbers::SHEET_NUMBER));
    }
    let reading = sheet_reader::read_sheet(sheet);
    let judgement = reading.judgement;
    if !judgement.is_good() {
        return Err(due_alone(judgement.number()));
    }
    let job = reading.job;
    if !memory_good(memory, job.room, net) {
        return Err(due_alone(numbers::BUFFER_NUMBER));
    }
    ends_due(sheet, job)
}

// The number that is due for a net of the list.
fn refused_at(net: usize, due: Due) -> Verdict
    ensures { result ≡ refused_at net due }
{
    Verdict {
        number: due.number,
        net,
        detail: due.detail,
    }
}

// The nets behind the first, which ends there.
fn judge_others(memory: Memory, list: &[u8], first: usize) -> Result<(), Verdict>
    requires { first ≡ sheet_long list.now }
    ensures { result ≡ told_list (judged_from memory (contents_at (first_sheet list.now)) 1 (sheets_in (behind_first list.now))) }
{
    let mut place = first;
    let mut net: usize = 1;
    // no counting loop: each sheet says itself where it ends
    while place < list.len() {
        let end = place + sheet_size(&list[place..]);
        if let Err(due) = judge_net(memory, &list[..first], net, &list[place..end]) {
            return Err(refused_at(net, due));
        }
        place = end;
        net += 1;
    }
    Ok(())
}

// Numbers 1 to 9 of a whole list; no lent memory is touched.
pub fn judge_list(memory: Memory, list: &[u8]) -> Result<(), Verdict>
    ensures { result ≡ told_list (judged_list memory list.now) }
{
    let first = sheet_size(list);
    if let Err(due) = judge_net(memory, &list[..first], 0, &list[..first]) {
        return Err(refused_at(0, due));
    }
    judge_others(memory, list, first)
}
