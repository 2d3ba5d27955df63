// The protected cells of the other jobs of a list, and what is blocked for one of its nets.
ghost use Rattle.std.specs.Prelude.{◌≡◌, ◌<◌, length, eqb};
ghost use Rattle.room.specs.Room.{Good, volume};
ghost use Rattle.routing_resources.specs.Marks.{marked_by, is_marked};
ghost use Rattle.ends.specs.Ends.{NetInside};
ghost use Rattle.basics.specs.Tests.{either};
ghost use Rattle.other_nets.specs.Others.{tap_protects, protects, sheet_protects, protected_from};
ghost use Rattle.other_nets.specs.OtherLaws.{ListReady, SheetReady, OthersBlocked, OthersReady};
ghost use Rattle.job_list.specs.Split.{sheets_of};

use crate::mark_near;
use ends::{Tap, Taps};
use room::Room;

// A sink's terminal and approach, with their keepouts.
fn mark_tap(room: Room, marks: &mut [u8], tap: Tap)
    requires good { Good room }
    requires terminal_bound { (tap.terminal < volume room) × (tap.approach < volume room) }
    requires marks_len { length marks.old ≡ volume room }
    ensures { marks.new ≡ marked_by (λ v. tap_protects room v tap) marks.old }
{
    mark_near(room, marks, tap.terminal);
    mark_near(room, marks, tap.approach);
}

// The protected cells of a job.
fn mark_ends(room: Room, source: usize, taps: Taps, marks: &mut [u8])
    requires good { Good room }
    requires net_inside { NetInside room source taps }
    requires marks_len { length marks.old ≡ volume room }
    ensures { marks.new ≡ marked_by (protects room source taps) marks.old }
{
    mark_near(room, marks, source);
    for tap in &taps.taps[..taps.count] {
        mark_tap(room, marks, *tap);
    }
}

// The protected cells of the job of one sheet, but none of a net's own.
fn mark_sheet(room: Room, sheet: &[u8], own: bool, marks: &mut [u8])
    requires { SheetReady room sheet.now marks.old }
    ensures { marks.new ≡ marked_by (sheet_protects room own sheet.now) marks.old }
{
    if !own {
        let reading = sheet_reader::read_sheet(sheet);
        let job = reading.job;
        let ends = ends::realize_ends(job.room, job.source, job.sinks).unwrap();
        mark_ends(room, ends.source, ends.taps, marks);
    }
}

// The protected cells of all jobs of a list but one.
fn mark_jobs(room: Room, list: &[u8], net: usize, marks: &mut [u8])
    requires { ListReady room list.now marks.old }
    ensures { marks.new ≡ marked_by (protected_from room net 0 (sheets_of list.now)) marks.old }
{
    let mut place: usize = 0;
    let mut k: usize = 0;
    // no counting loop: each sheet says itself where it ends
    while place < list.len() {
        let end = place + job_list::sheet_size(&list[place..]);
        mark_sheet(room, &list[place..end], k == net, marks);
        place = end;
        k += 1;
    }
}

fn with_mark(more: u8, mark: u8) -> u8
    ensures { result ≡ either (eqb more 1) 1 mark }
{
    if more == routing_resources::MARKED {
        routing_resources::MARKED
    } else {
        mark
    }
}

// Adds marks to others.
pub fn add_marks(more: &[u8], marks: &mut [u8])
    requires { length more.now ≡ length marks.old }
    ensures { marks.new ≡ marked_by (is_marked more.now) marks.old }
{
    for (i, more) in more.iter().enumerate() {
        marks[i] = with_mark(*more, marks[i]);
    }
}

// What is blocked for a net of a list, from what is blocked by its own sheet: the marks of the nets before and the other
// jobs' protected cells are added, its own ends taken out.
pub fn block_others(
    room: Room,
    list: &[u8],
    net: usize,
    source: usize,
    taps: Taps,
    before: &[u8],
    blocked: &mut [u8],
)
    requires { OthersReady room list.now source taps before.now blocked.old }
    ensures { OthersBlocked room list.now net source taps before.now blocked.old blocked.new }
{
    add_marks(before, blocked);
    mark_jobs(room, list, net, blocked);
    outset::take_out_ends(room, source, taps, blocked);
}
