// The class byte of each cell: what it takes to enter it. 0: it can't be entered; 1: the step alone; 2: the step and a
// new support.
ghost use Rattle.std.specs.Prelude.{◌≡◌, ◌-◌, ◌≤◌, ◌<◌, ltb, length, get_or};
ghost use Rattle.basics.specs.Tests.{either};
ghost use Rattle.room.specs.Units.{solid};
ghost use Rattle.room.specs.Room.{Good, volume, beneath};
ghost use Rattle.room_search.specs.Routing.{kind_at, bearing, routeable_kind, class_for};
ghost use Rattle.room_search.specs.Classes.{Plain, with_end};

use room::Room;

// The class bytes.
pub const SHUT: u8 = 0;

pub const OPEN: u8 = 1;

pub const OPEN_WITH_SUPPORT: u8 = 2;

// What a block of that kind is to the cell above it: nothing that bears, a support, or air.
fn bearing_of(kind: u8) -> u8
    ensures { result ≡ bearing kind }
{
    match kind {
        room::AIR => OPEN_WITH_SUPPORT,
        room::SOLID | room::TRANSPARENT | room::REDSTONE_BLOCK => OPEN,
        _ => SHUT,
    }
}

// A cell is routeable if Air; start and goal may also hold RedstoneWire.
pub fn routeable_kind(endpoint: bool, kind: u8) -> bool
    ensures { result ≡ routeable_kind endpoint kind }
{
    kind == room::AIR || (endpoint && kind == room::REDSTONE_WIRE)
}

// What it takes to enter a cell of that kind, by what stands beneath it.
pub fn class_for(endpoint: bool, kind: u8, below: u8) -> u8
    ensures { result ≡ class_for endpoint kind below }
{
    if routeable_kind(endpoint, kind) {
        bearing_of(below)
    } else {
        SHUT
    }
}

// The kind right beneath a cell; outside is Solid.
pub fn kind_beneath(room: Room, kinds: &[u8], cell: usize) -> u8
    requires good { Good room }
    requires kinds_len { length kinds.now ≡ volume room }
    requires cell_bound { cell < volume room }
    ensures { result ≡ kind_at kinds.now (beneath room cell) }
{
    match room.beneath(cell) {
        Some(below) => kinds[below],
        None => room::SOLID,
    }
}

// Gives a cell the class of an end: start and goal may hold RedstoneWire.
pub fn make_end(room: Room, kinds: &[u8], classes: &mut [u8], cell: usize)
    requires good { Good room }
    requires kinds_len { length kinds.now ≡ volume room }
    requires classes_len { length classes.old ≡ volume room }
    requires cell_bound { cell < volume room }
    ensures { classes.new ≡ with_end room kinds.now cell classes.old }
{
    classes[cell] = class_for(true, kinds[cell], kind_beneath(room, kinds, cell));
}

// The kind right beneath the cell v, which is the `layer`-th of those that share its x: the first `deep` of them have
// nothing but the room's floor beneath. It stands beside `kind_beneath` for where the whole room is filled in: it spares
// two divisions a cell.
fn kind_below(kinds: &[u8], v: usize, layer: usize, deep: usize) -> u8
    requires { (v < length kinds.now) × (layer ≤ v) }
    ensures { result ≡ either (ltb layer deep) solid (get_or kinds.now (v - deep) 0) }
{
    if layer < deep {
        room::SOLID
    } else {
        kinds[v - deep]
    }
}

// Fills in each cell's class, where no cell is an end.
pub fn fill_classes(room: Room, kinds: &[u8], classes: &mut [u8])
    requires good { Good room }
    requires kinds_len { length kinds.now ≡ volume room }
    requires classes_len { length classes.old ≡ volume room }
    ensures { Plain room kinds.now classes.new }
{
    let area = room.high * room.deep;
    let mut layer = 0;
    for (v, kind) in kinds.iter().enumerate() {
        classes[v] = class_for(false, *kind, kind_below(kinds, v, layer, room.deep));
        layer += 1;
        if layer == area {
            layer = 0;
        }
    }
}
