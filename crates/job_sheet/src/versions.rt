// What a sheet's first byte says of the rest: the version it names, and of that the sizes of the records and where the head
// ends.
ghost use Rattle.std.specs.Prelude.{◌≡◌, ◌≤◌};
ghost use Rattle.job_sheet.specs.Version.{first_ranges, hall_ranges, version_one, version_two, version_three, version_of, version_in, width, position_size, block_size, endpoint_size, limit_size, sink_size, config_place, run_place, lists_place};

use crate::{Ranges, Version, places};

// Where the sides begin: behind the version's byte and the length of the rest.
pub const SIDES: usize = 5;

// The bytes of the config.
pub const CONFIG_SIZE: usize = 16;

// The ranges of versions 1 and 2.
pub fn first_ranges() -> Ranges
    ensures { result ≡ first_ranges }
{
    Ranges {
        side: 64,
        cells: 16384,
        nodes: 200000,
        cost: 100000,
    }
}

pub fn version_one() -> Version
    ensures { result ≡ version_one }
{
    Version {
        number: 1,
        long: false,
        limits: false,
        ranges: first_ranges(),
    }
}

// As version 1, and limits are carried.
pub fn version_two() -> Version
    ensures { result ≡ version_two }
{
    Version {
        number: 2,
        long: false,
        limits: true,
        ranges: first_ranges(),
    }
}

// The ranges of version 3, which are the search's.
fn hall_ranges() -> Ranges
    ensures { result ≡ hall_ranges }
{
    Ranges {
        side: 300,
        cells: 65536,
        nodes: 800000,
        cost: 1000000,
    }
}

// As version 2, with sides and coordinates of two bytes.
pub fn version_three() -> Version
    ensures { result ≡ version_three }
{
    Version {
        number: 3,
        long: true,
        limits: true,
        ranges: hall_ranges(),
    }
}

// The version that a first byte names; a byte that names none is taken for version 1, whose number it isn't: no TryFrom, since
// `read-nothing` speaks of the contents of such a sheet too.
#[tactic(auto, unfolding(crate::specs::Version::version_of))]
pub fn version_of(first: u8) -> Version
    ensures { result ≡ version_of first }
{
    match first {
        3 => version_three(),
        2 => version_two(),
        _ => version_one(),
    }
}

// The version of a sheet.
pub fn version_in(sheet: &[u8]) -> Version
    ensures { result ≡ version_in sheet.now }
{
    version_of(places::byte(sheet, 0, 0))
}

// The bytes of a coordinate.
pub fn width(long: bool) -> usize
    ensures { (result ≡ width long) × (result ≤ 2) }
{
    if long { 2 } else { 1 }
}

// The bytes of a record, by what is in it.
pub fn position_size(long: bool) -> usize
    ensures { (result ≡ position_size long) × (result ≤ 6) }
{
    3 * width(long)
}

pub fn block_size(long: bool) -> usize
    ensures { (result ≡ block_size long) × (result ≤ 10) }
{
    4 + position_size(long)
}

pub fn endpoint_size(long: bool) -> usize
    ensures { (result ≡ endpoint_size long) × (result ≤ 8) }
{
    position_size(long) + 2
}

// The bytes of a limit.
pub fn limit_size(limits: bool) -> usize
    ensures { (result ≡ limit_size limits) × (result ≤ 1) }
{
    if limits { 1 } else { 0 }
}

pub fn sink_size(version: Version) -> usize
    ensures { (result ≡ sink_size version) × (result ≤ 9) }
{
    endpoint_size(version.long) + limit_size(version.limits)
}

// Where the config begins, the run limit, and the first list.
pub fn config_place(version: Version) -> usize
    ensures { (result ≡ config_place version) × (result ≤ 11) }
{
    SIDES + position_size(version.long)
}

pub fn run_place(version: Version) -> usize
    ensures { (result ≡ run_place version) × (result ≤ 27) }
{
    config_place(version) + CONFIG_SIZE
}

pub fn lists_place(version: Version) -> usize
    ensures { (result ≡ lists_place version) × (result ≤ 28) }
{
    run_place(version) + limit_size(version.limits)
}
