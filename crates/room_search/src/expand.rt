// The moves of one cell: each neighbour that can be entered is offered at its cost.
ghost use Rattle.std.specs.Prelude.{◌≡◌, ◌+◌, ◌*◌, ◌≤◌, ◌<◌, ◌^◌, length, [], ◌∷◌};
ghost use Rattle.room.specs.Room.{max_volume, SmallPos, moves, distance_at};
ghost use Rattle.room.specs.Units.{max_cost};
ghost use Rattle.room_search.specs.Routing.{price_of, estimate_of};
ghost use Rattle.room_search.specs.Fields.{Placed};
ghost use Rattle.room_search.specs.TriedMoves.{max_known, HeapReady, Offered, Able, Aside, Beside, Stepped, Kept, setting, MovesCame, column, Offerable};

use crate::idle::side_move;
use crate::{Field, Line, OPEN_WITH_SUPPORT, Price, QueueFull, Reached, SHUT, Spot, Work};
use room::{Cost, Move, Pos, RouterConfig, as_long};

// Ten times the distance of two positions, of which each part is below the longest side.
pub fn estimate(p: Pos, q: Pos) -> u64
    requires small_pos { SmallPos p }
    requires small_pos_2 { SmallPos q }
    ensures { result ≡ estimate_of (distance_at p q) }
{
    10 * (room::distance_at(p, q) as u64)
}

// What the step of a move costs: flat, or a stair.
fn step_cost(config: RouterConfig, m: Move) -> Cost
    ensures { result.0 ≡ (price_of config m 0).step.0 }
{
    if m.y == 1 {
        config.horizontal
    } else {
        config.stair
    }
}

// What entering a cell of that class costs: the step, and a new support where there is none.
pub fn price(config: RouterConfig, m: Move, class: u8) -> Price
    ensures { result ≡ price_of config m class }
{
    let support = if class == OPEN_WITH_SUPPORT {
        config.support
    } else {
        Cost(0)
    };
    Price {
        step: step_cost(config, m),
        support,
    }
}

impl Field<'_> {
    // The cell aside on the same level, as m goes, where that is in the room.
    pub fn beside(&self, from: Spot, m: Move) -> Option<Spot>
        requires placed { Placed self.now.room from }
        requires x_bound { (m.x ≤ 2) × (m.z ≤ 2) }
        ensures { Beside self.now.room from m result }
    {
        let x = from.at.x + m.x;
        let z = from.at.z + m.z;
        if x < 1 || self.room.wide < x || z < 1 || self.room.deep < z {
            return None;
        }
        let at = Pos {
            x: x - 1,
            y: from.at.y,
            z: z - 1,
        };
        Some(Spot {
            cell: self.room.cell(at),
            at,
        })
    }

    // Where the move m, which goes aside to `beside` and from there up or down, leads and at what cost; None where no cell
    // can be entered so.
    pub fn step(&self, from: Reached, beside: Spot, m: Move) -> Option<Reached>
        requires aside { Aside self.now.room from.spot beside m }
        requires from_fits { (Placed self.now.room from.spot) × (from.cost.0 ≤ max_known) × (m.y ≤ 2) }
        ensures { Stepped self.now from m result }
    {
        let y = beside.at.y + m.y;
        if y < 1 || self.room.high < y {
            return None;
        }
        let cell = beside.cell + m.y * self.room.deep - self.room.deep;
        let class = self.classes[cell];
        if class == SHUT {
            return None;
        }
        let at = Pos {
            x: beside.at.x,
            y: y - 1,
            z: beside.at.z,
        };
        let paid = price(self.config, m, class);
        Some(Reached {
            spot: Spot { cell, at },
            cost: Cost(from.cost.0 + (paid.step.0 + paid.support.0)),
        })
    }
}

impl Work<'_> {
    // Offers a cell at a cost, by way of `from`: it is pushed where that is lower than its known cost.
    fn offer(&mut self, from: usize, to: Reached, goal: Pos) -> Result<(), QueueFull>
        requires offerable { Offerable from to self.old }
        requires small_pos { SmallPos to.spot.at }
        requires small_pos_2 { SmallPos goal }
        ensures kept { Kept self.old self.new }
        ensures offered { Offered from to (estimate_of (distance_at to.spot.at goal)) self.old result self.new }
    {
        let cell = to.spot.cell;
        let old = self.known[cell];
        if old != 0 && old <= to.cost.0 + 1 {
            return Ok(());
        }
        let waiting = self.line.waiting;
        if self.queue.len() / 2 <= waiting {
            return Err(QueueFull);
        }
        let key = as_long(to.cost.0) + estimate(to.spot.at, goal);
        let line = Line {
            waiting,
            serial: self.line.serial + 1,
            width: self.line.width,
        };
        self.known[cell] = to.cost.0 + 1;
        self.previous[cell] = (from + 1) as u32;
        line.join(self.queue, key, cell as u64);
        self.line = Line {
            waiting: waiting + 1,
            serial: line.serial,
            width: line.width,
        };
        Ok(())
    }

    // Tries the move m, which goes aside to `beside` and from there up or down.
    fn try_move(
        &mut self,
        field: &Field,
        from: Reached,
        beside: Spot,
        m: Move,
    ) -> Result<(), QueueFull>
        requires able { Able 1 field.now from self.old }
        requires aside { Aside field.now.room from.spot beside m }
        requires y_bound { m.y ≤ 2 }
        ensures kept { Kept self.old self.new }
        ensures came { MovesCame (setting field.now self.old from) (m ∷ []) self.old result self.new }
    {
        match field.step(from, beside, m) {
            Some(to) => self.offer(from.spot.cell, to, field.goal.at),
            None => Ok(()),
        }
    }

    // Tries the three moves that go aside to `beside`: down, level, up.
    fn try_beside(
        &mut self,
        field: &Field,
        from: Reached,
        beside: Spot,
        m: Move,
    ) -> Result<(), QueueFull>
        requires able { Able 3 field.now from self.old }
        requires aside { Aside field.now.room from.spot beside m }
        ensures kept { Kept self.old self.new }
        ensures came { MovesCame (setting field.now self.old from) (column m) self.old result self.new }
    {
        for y in 0..3 {
            self.try_move(field, from, beside, Move { x: m.x, y, z: m.z })?;
        }
        Ok(())
    }

    // Tries the three moves that go aside as m does, where that stays in the room.
    fn try_column(&mut self, field: &Field, from: Reached, m: Move) -> Result<(), QueueFull>
        requires able { Able 3 field.now from self.old }
        requires x_bound { (m.x ≤ 2) × (m.z ≤ 2) }
        ensures kept { Kept self.old self.new }
        ensures came { MovesCame (setting field.now self.old from) (column m) self.old result self.new }
    {
        match field.beside(from.spot, m) {
            Some(beside) => self.try_beside(field, from, beside, m),
            None => Ok(()),
        }
    }

    // Tries the twelve moves of a cell in their order, a column at a time; those of which nothing comes are passed over.
    pub fn expand(&mut self, field: &Field, from: Reached) -> Result<(), QueueFull>
        requires { Able 12 field.now from self.old }
        ensures kept { Kept self.old self.new }
        ensures came { MovesCame (setting field.now self.old from) moves self.old result self.new }
    {
        for side in 0..4 {
            let m = side_move(side);
            if !self.side_idle(field, from, m) {
                self.try_column(field, from, m)?;
            }
        }
        Ok(())
    }
}
