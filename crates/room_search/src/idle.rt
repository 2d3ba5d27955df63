// Which sides of a cell are worth a try. Most moves of a search lead back, to cells that are known no dearer, and nothing comes of them: they
// are passed over here, where nothing is written, before a column is tried in earnest.
ghost use Rattle.std.specs.Prelude.{◌≤◌, ◌<◌, ◌*◌, ◌≡◌};
ghost use Rattle.room.specs.Room.{move_at};
ghost use Rattle.room_search.specs.TriedMoves.{Aside};
ghost use Rattle.room_search.specs.IdleMoves.{Scannable, IdleTold, ColumnTold};

use crate::{Field, Reached, Spot, Work};
use room::Move;

// The first move of each side.
static SIDES: [Move; 4] = [
    Move { x: 2, y: 0, z: 1 },
    Move { x: 0, y: 0, z: 1 },
    Move { x: 1, y: 0, z: 2 },
    Move { x: 1, y: 0, z: 0 },
];

// The first move of a side.
pub fn side_move(side: usize) -> Move
    requires { side < 4 }
    ensures { result ≡ move_at (side * 3) }
{
    SIDES[side]
}

impl Work<'_> {
    // Whether nothing comes of the move m, which goes aside to `beside` and from there up or down.
    fn idle(&self, field: &Field, from: Reached, beside: Spot, m: Move) -> bool
        requires scannable { Scannable field.now self.now.known.now from }
        requires aside { Aside field.now.room from.spot beside m }
        requires y_bound { m.y ≤ 2 }
        ensures { IdleTold field.now self.now.known.now from m result }
    {
        match field.step(from, beside, m) {
            Some(to) => {
                let old = self.known[to.spot.cell];
                old != 0 && old <= to.cost.0 + 1
            }
            None => true,
        }
    }

    // Whether nothing comes of the three moves that go aside to `beside`.
    fn column_idle(&self, field: &Field, from: Reached, beside: Spot, m: Move) -> bool
        requires scannable { Scannable field.now self.now.known.now from }
        requires aside { Aside field.now.room from.spot beside m }
        ensures { ColumnTold field.now self.now.known.now from m result }
    {
        for y in 0..3 {
            if !self.idle(field, from, beside, Move { x: m.x, y, z: m.z }) {
                return false;
            }
        }
        true
    }

    // Whether nothing comes of the three moves that go aside as m does.
    pub fn side_idle(&self, field: &Field, from: Reached, m: Move) -> bool
        requires scannable { Scannable field.now self.now.known.now from }
        requires x_bound { (m.x ≤ 2) × (m.z ≤ 2) }
        ensures { ColumnTold field.now self.now.known.now from m result }
    {
        match field.beside(from.spot, m) {
            Some(beside) => self.column_idle(field, from, beside, m),
            None => true,
        }
    }
}
