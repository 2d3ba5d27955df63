// The reader's work over the sheet's bytes and a place: where it stands next, and what it finds that takes a test.
ghost use Rattle.std.specs.Prelude.{◌≡◌, ◌+◌, ◌*◌, ◌≤◌, ◌<◌, ◌^◌, eqb, length, drop};
ghost use Rattle.job_sheet.specs.UsualLimits.{usual_run};
ghost use Rattle.job_sheet.specs.Version.{version_in, position_size, block_size, most_size, config_size};
ghost use Rattle.job_sheet.specs.Places.{position_in, limit_in, endpoint_in, Listed, SourceListed, SinksListed};
ghost use Rattle.sheet_reader.specs.Reader.{Stands, onward, SidesListed, config_at, whole_sinks, sinks_found};

use job_sheet::usual_limits::USUAL_RUN;
use job_sheet::{Endpoint, Part, Sinks, places, versions};
use room::Pos;

// The place behind `size` more bytes. Where the sheet has too few it is the one just off the sheet, and no step leads back.
pub fn onward(sheet: &[u8], place: usize, size: usize) -> usize
    ensures { result ≡ onward sheet.now place size }
{
    let end = sheet.len();
    if end < place {
        return end + 1;
    }
    if end - place < size {
        end + 1
    } else {
        place + size
    }
}

// The place behind a part's count, of `width` bytes, and its records. It goes on from the reader's own place, which may be
// off the sheet, and not from where the part's records would begin.
pub fn behind(sheet: &[u8], place: usize, width: usize, part: Part) -> usize
    requires { width + part.size * part.count < 2 ^ 64 }
    ensures { result ≡ onward sheet.now place (width + part.size * part.count) }
{
    onward(sheet, place, width + part.size * part.count)
}

// Whether nothing is left over and nothing was too short.
pub fn at_end(sheet: &[u8], place: usize) -> bool
    ensures { result ≡ eqb place (length sheet.now) }
{
    place == sheet.len()
}

// "X, Y, Z" or "x, y, z", in the sheet's version.
pub fn position(sheet: &[u8], place: usize) -> Pos
    requires { Stands sheet.now place }
    ensures { result ≡ position_in (version_in sheet.now).long (drop place sheet.now) 0 }
{
    places::position_from(sheet, versions::version_in(sheet).long, place, 0)
}

// The source, in the sheet's version.
pub fn endpoint(sheet: &[u8], place: usize) -> Endpoint
    requires { Stands sheet.now place }
    ensures { result ≡ endpoint_in (version_in sheet.now).long (drop place sheet.now) }
{
    places::endpoint_from(sheet, versions::version_in(sheet).long, place)
}

// Where the sides stand: one record, as long as a position.
pub fn sides_list(sheet: &[u8], place: usize) -> Part
    ensures { SidesListed (version_in sheet.now) place result }
{
    let long = versions::version_in(sheet).long;
    Part {
        from: place,
        count: 1,
        size: versions::position_size(long),
        long,
    }
}

// The run limit, behind the config that begins at a place, in the sheet's version.
pub fn run(sheet: &[u8], place: usize) -> usize
    requires { Stands sheet.now place }
    ensures { result ≡ limit_in (version_in sheet.now).limits usual_run (drop place sheet.now) config_size }
{
    let limits = versions::version_in(sheet).limits;
    places::limit_from(sheet, limits, USUAL_RUN, place, versions::CONFIG_SIZE)
}

// Where the config and the run limit stand: one record.
pub fn config_list(sheet: &[u8], place: usize) -> Part
    ensures { result ≡ config_at (version_in sheet.now) place }
{
    let version = versions::version_in(sheet);
    let size = versions::CONFIG_SIZE + versions::limit_size(version.limits);
    Part {
        from: place,
        count: 1,
        size,
        long: version.long,
    }
}

// The list of blocks whose count stands at a place.
pub fn block_list(sheet: &[u8], place: usize) -> Part
    requires { Stands sheet.now place }
    ensures { Listed sheet.now (version_in sheet.now).long (block_size (version_in sheet.now).long) place result }
{
    let long = versions::version_in(sheet).long;
    places::list_at(sheet, long, versions::block_size(long), place)
}

// The list of positions whose count stands at a place.
pub fn position_list(sheet: &[u8], place: usize) -> Part
    requires { Stands sheet.now place }
    ensures { Listed sheet.now (version_in sheet.now).long (position_size (version_in sheet.now).long) place result }
{
    let long = versions::version_in(sheet).long;
    places::list_at(sheet, long, versions::position_size(long), place)
}

// Where the source stands.
pub fn source_list(sheet: &[u8], place: usize) -> Part
    ensures { SourceListed (version_in sheet.now) place result }
{
    places::source_at(versions::version_in(sheet), place)
}

// Where the sinks stand, whose one-byte count stands at a place.
pub fn sinks_list(sheet: &[u8], place: usize) -> Part
    requires { Stands sheet.now place }
    ensures { SinksListed (version_in sheet.now) sheet.now place result }
{
    places::sinks_at(sheet, versions::version_in(sheet), place)
}

// The part itself where it is of at most sixteen sinks that the sheet has whole, else a part of none.
fn whole_sinks(sheet: &[u8], part: Part) -> Part
    requires { (part.from ≤ length sheet.now + 2) × (part.size ≤ most_size) }
    ensures { result ≡ whole_sinks sheet.now part }
{
    if job_sheet::MAX_SINKS < part.count {
        return job_sheet::no_part();
    }
    if sheet.len() < part.from + part.size * part.count {
        job_sheet::no_part()
    } else {
        part
    }
}

// The sinks themselves: none where they are over sixteen, or the sheet is too short for them.
pub fn sinks(sheet: &[u8], place: usize) -> Sinks
    requires { Stands sheet.now place }
    ensures { result ≡ sinks_found sheet.now place }
{
    let version = versions::version_in(sheet);
    job_sheet::sinks_from(sheet, version, whole_sinks(sheet, sinks_list(sheet, place)))
}
