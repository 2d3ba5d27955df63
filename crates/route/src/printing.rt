// From the bytes of a sheet to the lines that are printed.
ghost use Rattle.std.specs.Prelude.{◌≡◌, ◌≤◌, length, drop};
ghost use Rattle.room.specs.Room.{volume};
ghost use Rattle.job_sheet.specs.Version.{version_in, sides_place};
ghost use Rattle.job_sheet.specs.Places.{room_in};
ghost use Rattle.ground.specs.declared.Mode.TheVariants.{Published};
ghost use Rattle.route.specs.Printed.{program_lengths, SizeJudged, Shown, Printed, longest_text};
ghost use Rattle.net_tree.specs.Answers.{Comes};

use crate::lines::{put_answer, put_refused};
use ground::Mode;
use job_sheet::{places, versions};

// "Over 4,096 cells it prints `refused 2 0`; its queue holds 12,288 places, its branch buffer 16,384 cells." A place of the
// queue takes two numbers.
const MAX_CELLS: usize = 4096;

const MAX_BRANCH_CELLS: usize = 16384;

const QUEUE_NUMBERS: usize = 24576;

// How many cells the sheet's room has.
fn cells_in(sheet: &[u8]) -> usize
    ensures { result ≡ volume (room_in (version_in sheet.now).long (drop sides_place sheet.now)) }
{
    let room = places::room_from(sheet, versions::version_in(sheet).long);
    room.wide * room.high * room.deep
}

// Whether a sheet that means something has a room over this program's limit.
fn too_large(sheet: &[u8]) -> bool
    ensures { SizeJudged sheet.now result }
{
    let reading = sheet_reader::read_sheet(sheet);
    let judgement = reading.judgement;
    let means_nothing = judgement.number() == numbers::SHEET_NUMBER;
    if means_nothing {
        return false;
    }
    MAX_CELLS < cells_in(sheet)
}

// Routes in memory of this program's own, and puts the answer's lines.
fn put_routed(sheet: &[u8], out: &mut [u8]) -> usize
    requires { longest_text ≤ length out.old }
    ensures { Shown (Comes Published sheet.now program_lengths) out.new result }
{
    let mut branches = [0u32; MAX_BRANCH_CELLS];
    let mut occupied = [0u8; MAX_CELLS];
    let mut repeaters = [0u8; MAX_CELLS];
    let mut kinds = [0u8; MAX_CELLS];
    let mut blocked = [0u8; MAX_CELLS];
    let mut classes = [0u8; MAX_CELLS];
    let mut joinable = [0u8; MAX_CELLS];
    let mut known = [0u32; MAX_CELLS];
    let mut previous = [0u32; MAX_CELLS];
    let mut path = [0u32; MAX_CELLS];
    let mut best = [0u32; MAX_CELLS];
    let mut queue = [0u64; QUEUE_NUMBERS];
    let mode = Mode::Published;
    let answer = net_tree::route_net_tree(
        mode,
        sheet,
        &mut branches,
        &mut occupied,
        &mut repeaters,
        &mut kinds,
        &mut blocked,
        &mut classes,
        &mut joinable,
        &mut known,
        &mut previous,
        &mut path,
        &mut best,
        &mut queue,
    );
    put_answer(out, answer, &branches, &repeaters)
}

// Puts what this program prints of a sheet, and answers how many bytes those are. The limit of 4,096 cells stands at 2's place:
// after 1, which `too_large` passes over, and before 3.
pub fn put_sheet(sheet: &[u8], out: &mut [u8]) -> usize
    requires { longest_text ≤ length out.old }
    ensures { Printed sheet.now out.new result }
{
    if too_large(sheet) {
        return put_refused(out, 0, numbers::SIDES_NUMBER, 0);
    }
    put_routed(sheet, out)
}
