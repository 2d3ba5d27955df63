// The conflict of a path with the joinable cells. Conductors are both together: in the lent bytes a joinable cell has 1,
// and a cell of the path that is not joinable has 2 while the test runs, so that one look-up tells a conductor.
#![tactic(auto)]

ghost use Rattle.std.specs.Prelude.{◌≡◌, ℕ, ◌<◌, length};
ghost use Rattle.room.specs.Room.{Good, volume};
ghost use Rattle.routing_resources.specs.Marks.{is_marked, Marks, CellsBelow, AllCells};
ghost use Rattle.routing_resources.specs.Resources.{clearance_of};
ghost use Rattle.geometry.specs.Geometry.{NoPair, first_pair, if_passed, at_clearance, stair_conflict, conflict_among, conflict_of};
ghost use Rattle.geometry.specs.Along.{replaced, conducts_by, pair_with, lesser_place, OnPath};

use room::{Room, as_index};

// The byte of a cell of the path that is not joinable.
const ON_PATH: u8 = 2;

// Along the path, each byte `old` is made `new`. The path may hold a cell twice.
fn replace(bytes: &mut [u8], path: &[u32], old: u8, new: u8)
    requires { CellsBelow (length bytes.old) path.now }
    ensures { bytes.new ≡ replaced old new path.now bytes.old }
{
    for cell in path {
        let cell = as_index(*cell);
        if bytes[cell] == old {
            bytes[cell] = new;
        }
    }
}

// The cell at a place where it is a conductor.
fn conductor_at(bytes: &[u8], place: Option<usize>) -> Option<usize>
    requires { (v : ℕ) → place ≡ Some v → v < length bytes.now }
    ensures { result ≡ if_passed (conducts_by bytes.now) place }
{
    place.filter(|cell| bytes[*cell] != routing_resources::UNMARKED)
}

// A conductor stands in a pair with the one beneath it or with the one above it: the upper cell of the lower pair.
fn pair_with(room: Room, bytes: &[u8], cell: usize) -> Option<usize>
    requires good { Good room }
    requires bytes_len { length bytes.now ≡ volume room }
    requires cell_bound { cell < volume room }
    ensures { result ≡ pair_with room (conducts_by bytes.now) cell }
{
    if conductor_at(bytes, room.beneath(cell)).is_some() {
        Some(cell)
    } else {
        conductor_at(bytes, room.above(cell))
    }
}

// The lesser of a number and the cell at a place.
fn lesser_of(place: Option<usize>, n: usize) -> usize
    ensures { result ≡ lesser_place place n }
{
    place.map_or(n, |cell| cell.min(n))
}

// The first pair in number order has a cell of the path, so it is the least of those along the path.
fn first_pair(room: Room, bytes: &[u8], path: &[u32]) -> Option<usize>
    requires good { Good room }
    requires bytes_len { length bytes.now ≡ volume room }
    requires all_cells { AllCells room path.now }
    requires on_path { OnPath room (conducts_by bytes.now) path.now }
    ensures { result ≡ first_pair room (conducts_by bytes.now) }
{
    let none = bytes.len();
    let mut least = none;
    for cell in path {
        let found = pair_with(room, bytes, as_index(*cell));
        least = lesser_of(found, least);
    }
    if least < none { Some(least) } else { None }
}

// What a stair from one cell to a second gives. The path is not looked through for a cell at the clearance: where the stairs
// decide, conductors make no pair, and none of the path's cells stands there (`conflict_as_written_lem`).
fn stair_at(room: Room, kinds: &[u8], bytes: &[u8], from: usize, second: usize) -> Option<usize>
    requires good { Good room }
    requires kinds_len { (length kinds.now ≡ volume room) × (length bytes.now ≡ volume room) }
    requires from_bound { (from < volume room) × (second < volume room) }
    ensures { result ≡ at_clearance room kinds.now (conducts_by bytes.now) second (clearance_of room from second) }
{
    let free = routing_resources::clearance(room, from, second)?;
    if kinds[free] != room::AIR {
        return Some(second);
    }
    conductor_at(bytes, room.above(free))
}

// The first conflict along the path's stairs.
fn stair_conflict(room: Room, kinds: &[u8], bytes: &[u8], path: &[u32]) -> Option<usize>
    requires good { Good room }
    requires kinds_len { (length kinds.now ≡ volume room) × (length bytes.now ≡ volume room) }
    requires all_cells { AllCells room path.now }
    ensures { result ≡ stair_conflict room kinds.now (conducts_by bytes.now) path.now }
{
    for i in 1..path.len() {
        let found = stair_at(room, kinds, bytes, as_index(path[i - 1]), as_index(path[i]));
        if found.is_some() {
            return found;
        }
    }
    None
}

// Pairs first, then stairs.
fn first_conflict(room: Room, kinds: &[u8], bytes: &[u8], path: &[u32]) -> Option<usize>
    requires good { Good room }
    requires kinds_len { (length kinds.now ≡ volume room) × (length bytes.now ≡ volume room) }
    requires all_cells { AllCells room path.now }
    requires on_path { OnPath room (conducts_by bytes.now) path.now }
    ensures { result ≡ conflict_among room kinds.now (conducts_by bytes.now) path.now }
{
    first_pair(room, bytes, path).or_else(|| stair_conflict(room, kinds, bytes, path))
}

// The conflict of a path with the joinable cells, `None` where there is none. Joinable cells among themselves make no
// pair; their marks are as they were when it returns.
pub fn geometry_conflict(
    room: Room,
    kinds: &[u8],
    joinable: &mut [u8],
    path: &[u32],
) -> Option<usize>
    requires good { Good room }
    requires kinds_len { (length kinds.now ≡ volume room) × (length joinable.old ≡ volume room) }
    requires all_cells { AllCells room path.now }
    requires marks { Marks joinable.old }
    requires no_pair { NoPair room (is_marked joinable.old) }
    ensures value { result ≡ conflict_of room kinds.now joinable.old path.now }
    ensures joinable_unchanged { joinable.new ≡ joinable.old }
{
    replace(joinable, path, routing_resources::UNMARKED, ON_PATH);
    let found = first_conflict(room, kinds, joinable, path);
    replace(joinable, path, ON_PATH, routing_resources::UNMARKED);
    found
}
