// The room: its sides, the numbers of its cells, the twelve moves, the cells beneath, above and ahead, distances; kinds,
// facings and port kinds; cost and node count as units of their own; the config with its ranges.
#![tactic(auto)]

ghost use Rattle.std.specs.Prelude.{◌≡◌, ◌≤◌, ◌<◌, ◌^◌};
ghost use Rattle.room.specs.Room.{Good, Within, SmallPos, between, sides_good, volume, cell_of, pos_of, within, move_at, neighbour_at, neighbour, beneath, above, apart, distance_at, distance};
ghost use Rattle.room.specs.Units.{kind_known, facing_known, facing_horizontal, facing_move, ahead, port_known, dearest, ranges_good, config_good, GoodRanges};

const MAX_SIDE: usize = 300;

pub const MAX_VOLUME: usize = 65536;

const MAX_COST: u32 = 1000000;

const MAX_NODES: u32 = 800000;

// The most that V times the dearest step with a new support may come to.
const MAX_PRODUCT: u64 = 3300000000;

// The kinds of a block, in the order of DustRoute's BlockKind: all of them, though some are named by no rule. Kinds,
// facings and port kinds are bytes and no enums: C lends rooms of such bytes, and a sheet holds them, also unknown ones.
pub const AIR: u8 = 0;

pub const SOLID: u8 = 1;

pub const TRANSPARENT: u8 = 2;

pub const REDSTONE_WIRE: u8 = 3;

pub const REDSTONE_TORCH: u8 = 4;

pub const REPEATER: u8 = 5;

pub const COMPARATOR: u8 = 6;

pub const LEVER: u8 = 7;

pub const BUTTON: u8 = 8;

pub const PRESSURE_PLATE: u8 = 9;

pub const REDSTONE_LAMP: u8 = 10;

pub const REDSTONE_BLOCK: u8 = 11;

pub const PISTON: u8 = 12;

// The facings: none, four horizontal ones, two others. All of them, though no rule names Up.
pub const NO_FACING: u8 = 0;

pub const NORTH: u8 = 1;

pub const EAST: u8 = 2;

pub const SOUTH: u8 = 3;

pub const WEST: u8 = 4;

pub const UP: u8 = 5;

pub const DOWN: u8 = 6;

// The port kinds.
pub const WIRE: u8 = 0;

pub const BLOCK_POWER: u8 = 1;

// A cost, in tenths. A struct of its own, so that it can't be mixed with a count.
#[derive(Clone, Copy, Debug, PartialEq, Eq)]
pub struct Cost(pub u32);

// A count of cells expanded.
#[derive(Clone, Copy, Debug, PartialEq, Eq)]
pub struct Nodes(pub u32);

// What a search pays for its steps, and how many cells it may expand.
#[derive(Clone, Copy, Debug, PartialEq, Eq)]
pub struct RouterConfig {
    pub limit: Nodes,
    pub horizontal: Cost,
    pub stair: Cost,
    pub support: Cost,
}

// A room by its sides X, Y and Z. Everything outside is Solid. No ghost field says that the sides are good: `astar_route`
// and all that judge number 2 take a room of any sides, and definitions as `sides_good` and `room_in` speak of such rooms.
#[derive(Clone, Copy, Debug, PartialEq, Eq)]
pub struct Room {
    pub wide: usize,
    pub high: usize,
    pub deep: usize,
}

#[derive(Clone, Copy, Debug, PartialEq, Eq)]
pub struct Pos {
    pub x: usize,
    pub y: usize,
    pub z: usize,
}

// A move. Each part is one more than its change: 0, 1 and 2 stand for -1, 0 and 1, as in the definitions `moves` and `shifted`.
#[derive(Clone, Copy, Debug, PartialEq, Eq)]
pub struct Move {
    pub x: usize,
    pub y: usize,
    pub z: usize,
}

// Whether a is from low to high.
#[tactic(auto, unfolding(crate::specs::Room::between))]
fn in_range(low: usize, a: usize, high: usize) -> bool
    ensures { result ≡ between low a high }
{
    low <= a && a <= high
}

// Number 5 is due where this is false.
pub fn kind_known(kind: u8) -> bool
    ensures { result ≡ kind_known kind }
{
    kind <= PISTON
}

// Number 5 is due where this is false.
pub fn facing_known(facing: u8) -> bool
    ensures { result ≡ facing_known facing }
{
    facing <= DOWN
}

pub fn facing_horizontal(facing: u8) -> bool
    ensures { result ≡ facing_horizontal facing }
{
    in_range(NORTH as usize, facing as usize, WEST as usize)
}

// The flat move of a horizontal facing.
#[tactic(auto, unfolding(crate::specs::Units::facing_move))]
fn facing_move(facing: u8) -> Move
    ensures { result ≡ facing_move facing }
{
    match facing {
        NORTH => Move { x: 1, y: 1, z: 0 },
        EAST => Move { x: 2, y: 1, z: 1 },
        SOUTH => Move { x: 1, y: 1, z: 2 },
        _ => Move { x: 0, y: 1, z: 1 },
    }
}

// Number 5 is due where this is false.
pub fn port_known(port: u8) -> bool
    ensures { result ≡ port_known port }
{
    port <= BLOCK_POWER
}

impl RouterConfig {
    // Whether the node limit and each cost are in their single ranges.
    #[tactic(auto, unfolding(crate::specs::Units::ranges_good))]
    fn ranges_good(self) -> bool
        ensures { result ≡ ranges_good self }
    {
        self.limit.0 <= MAX_NODES
            && self.horizontal.0 <= MAX_COST
            && self.stair.0 <= MAX_COST
            && self.support.0 <= MAX_COST
    }

    // The dearest step, with a new support.
    #[tactic(auto, unfolding(crate::specs::Units::dearest))]
    fn dearest(self) -> u32
        requires { GoodRanges self }
        ensures { result ≡ dearest self }
    {
        self.horizontal.0.max(self.stair.0) + self.support.0
    }

    // Number 3 is due where this is false: the single ranges, then the product, which takes 64 bits.
    #[tactic(auto, unfolding(crate::specs::Units::config_good))]
    pub fn good(self, room: Room) -> bool
        requires { Good room }
        ensures { result ≡ config_good room self }
    {
        self.ranges_good() && room.volume() as u64 * u64::from(self.dearest()) <= MAX_PRODUCT
    }
}

// A number kept in four bytes, as an index. No `From`: a `usize` has none of a `u32`.
pub fn as_index(number: u32) -> usize
    ensures { (result ≡ number) × (result < 2 ^ 32) }
{
    number as usize
}

// A number kept in four bytes, in eight.
pub fn as_long(number: u32) -> u64
    ensures { result ≡ number }
{
    number as u64
}

// |a - b|
pub fn apart(a: usize, b: usize) -> usize
    ensures { result ≡ apart a b }
{
    a.abs_diff(b)
}

// The distance |dx|+|dy|+|dz| of two positions, of which each part is below the longest side that a room may have.
pub fn distance_at(p: Pos, q: Pos) -> usize
    requires small_pos { SmallPos p }
    requires small_pos_2 { SmallPos q }
    ensures { result ≡ distance_at p q }
{
    apart(p.x, q.x) + apart(p.y, q.y) + apart(p.z, q.z)
}

impl Room {
    // The moves in their order: east, west, south, north, each down, level, up.
    pub const MOVES: [Move; 12] = [
        Move { x: 2, y: 0, z: 1 },
        Move { x: 2, y: 1, z: 1 },
        Move { x: 2, y: 2, z: 1 },
        Move { x: 0, y: 0, z: 1 },
        Move { x: 0, y: 1, z: 1 },
        Move { x: 0, y: 2, z: 1 },
        Move { x: 1, y: 0, z: 2 },
        Move { x: 1, y: 1, z: 2 },
        Move { x: 1, y: 2, z: 2 },
        Move { x: 1, y: 0, z: 0 },
        Move { x: 1, y: 1, z: 0 },
        Move { x: 1, y: 2, z: 0 },
    ];

    // Number 2 is due where this is false.
    #[tactic(auto, unfolding(crate::specs::Room::sides_good, crate::specs::Room::between))]
    pub fn good(self) -> bool
        ensures { result ≡ sides_good self }
    {
        in_range(1, self.wide, MAX_SIDE)
            && in_range(1, self.high, MAX_SIDE)
            && in_range(1, self.deep, MAX_SIDE)
            && self.wide * self.high * self.deep <= MAX_VOLUME
    }

    // V, the number of cells.
    pub fn volume(self) -> usize
        requires { Good self }
        ensures { result ≡ volume self }
    {
        self.wide * self.high * self.deep
    }

    // Whether a position is in the room.
    #[tactic(auto, unfolding(crate::specs::Room::within))]
    pub fn within(self, p: Pos) -> bool
        ensures { result ≡ within self p }
    {
        p.x < self.wide && p.y < self.high && p.z < self.deep
    }

    // The number of the cell at a position.
    #[tactic(auto, unfolding(crate::specs::Room::cell_of))]
    pub fn cell(self, p: Pos) -> usize
        requires good { Good self }
        requires within { Within self p }
        ensures { result ≡ cell_of self p }
    {
        (p.x * self.high + p.y) * self.deep + p.z
    }

    // The position of a cell.
    #[tactic(auto, unfolding(crate::specs::Room::pos_of))]
    pub fn pos(self, cell: usize) -> Pos
        requires { Good self }
        ensures { result ≡ pos_of self cell }
    {
        let row = cell / self.deep;
        Pos {
            x: row / self.high,
            y: row % self.high,
            z: cell % self.deep,
        }
    }

    // The k-th of the moves.
    #[tactic(auto, unfolding(crate::specs::Room::moves))]
    pub fn move_at(k: usize) -> Move
        requires { k < 12 }
        ensures { result ≡ move_at k }
    {
        Room::MOVES[k]
    }

    // Where a move leads from a position.
    #[tactic(auto, unfolding(crate::specs::Room::stays, crate::specs::Room::between))]
    pub fn neighbour_at(self, p: Pos, m: Move) -> Option<usize>
        requires good { Good self }
        requires within { Within self p }
        requires x_bound { (m.x ≤ 2) × (m.y ≤ 2) × (m.z ≤ 2) }
        ensures { result ≡ neighbour_at self p m }
    {
        let x = p.x + m.x;
        let y = p.y + m.y;
        let z = p.z + m.z;
        if in_range(1, x, self.wide) && in_range(1, y, self.high) && in_range(1, z, self.deep) {
            Some(self.cell(Pos {
                x: x - 1,
                y: y - 1,
                z: z - 1,
            }))
        } else {
            None
        }
    }

    // Where a move leads from a cell.
    pub fn neighbour(self, cell: usize, m: Move) -> Option<usize>
        requires good { Good self }
        requires cell_bound { cell < volume self }
        requires x_bound { (m.x ≤ 2) × (m.y ≤ 2) × (m.z ≤ 2) }
        ensures { result ≡ neighbour self cell m }
    {
        self.neighbour_at(self.pos(cell), m)
    }

    // The cell ahead of a cell in a facing's direction: none unless the facing is horizontal.
    #[tactic(auto, using(crate::specs::MoveLaws::small, crate::specs::MoveLaws::facing_in), unfolding(crate::specs::Units::ahead))]
    pub fn ahead(self, cell: usize, facing: u8) -> Option<usize>
        requires good { Good self }
        requires cell_bound { cell < volume self }
        ensures { result ≡ ahead self cell facing }
    {
        if facing_horizontal(facing) {
            self.neighbour(cell, facing_move(facing))
        } else {
            None
        }
    }

    // The cell right beneath a cell.
    #[tactic(auto, using(crate::specs::RoomLaws::deep_enough), unfolding(crate::specs::Room::beneath))]
    pub fn beneath(self, cell: usize) -> Option<usize>
        requires { Good self }
        ensures { result ≡ beneath self cell }
    {
        let p = self.pos(cell);
        if 0 < p.y {
            Some(cell - self.deep)
        } else {
            None
        }
    }

    // The cell right above a cell.
    #[tactic(auto, using(crate::specs::RoomLaws::small_pos), unfolding(crate::specs::Room::above))]
    pub fn above(self, cell: usize) -> Option<usize>
        requires good { Good self }
        requires cell_bound { cell < volume self }
        ensures { result ≡ above self cell }
    {
        let p = self.pos(cell);
        if p.y + 1 < self.high {
            Some(cell + self.deep)
        } else {
            None
        }
    }

    // The distance of two cells.
    pub fn distance(self, a: usize, b: usize) -> usize
        requires good { Good self }
        requires a_bound { a < volume self }
        requires b_bound { b < volume self }
        ensures { result ≡ distance self a b }
    {
        distance_at(self.pos(a), self.pos(b))
    }
}
