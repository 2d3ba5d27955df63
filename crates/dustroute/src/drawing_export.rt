// One route drawn into a room of kinds, exported for other languages.
ghost use Rattle.drawing.specs.Told.{RouteTold, ListTold};
ghost use Rattle.exports.specs.Export.{room_of};

use room::Room;

// Supports and wire along a path, in place, as `drawing::materialize_route`: cell by cell a support of the given kind where the
// cell beneath is Air, then wire where the cell is Air. The number comes back; the one value is its detail, 0. See the
// promise in drawing/specs/Told.antt.
#[unsafe(no_mangle)]
pub extern "C" fn dustroute_materialize_route(
    wide: usize,
    high: usize,
    deep: usize,
    support: u32,
    kinds: &mut [u8],
    path: &[u32],
    values: &mut [u64],
) -> u32
    ensures { RouteTold (room_of wide high deep) support kinds.old path.now values.old result kinds.new values.new }
{
    let room = Room {
        wide: wide,
        high: high,
        deep: deep,
    };
    drawing::materialize_route_told(room, support, kinds, path, values)
}

// Repeaters along a path at a run limit, in place, as `drawing::insert_repeaters`: each is listed with its facing, in path
// order, zeros behind. The number comes back; the values are its detail, 0, and how many repeaters there are. See the promise in
// drawing/specs/Told.antt.
#[unsafe(no_mangle)]
pub extern "C" fn dustroute_insert_repeaters(
    wide: usize,
    high: usize,
    deep: usize,
    run: u32,
    kinds: &mut [u8],
    path: &[u32],
    cells: &mut [u32],
    facings: &mut [u8],
    values: &mut [u64],
) -> u32
    ensures { ListTold (room_of wide high deep) run kinds.old path.now cells.old facings.old values.old result kinds.new cells.new facings.new values.new }
{
    let room = Room {
        wide: wide,
        high: high,
        deep: deep,
    };
    drawing::insert_repeaters_told(room, run, kinds, path, cells, facings, values)
}
