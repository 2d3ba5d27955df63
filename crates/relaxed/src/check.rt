// Whether no step undercuts a label: then no way is cheaper than the labels say.
ghost use Rattle.std.specs.Prelude.{◌≡◌, ◌≤◌, ◌<◌};
ghost use Rattle.room.specs.Room.{Within, volume};
ghost use Rattle.room_search.specs.Routing.{price_of};
ghost use Rattle.relaxed.specs.Labels.{Fits, MoveTold, CellTold, LabelsTold};

use room::{Move, Pos, Room, RouterConfig, as_long};

// What a step costs, without a support.
fn bare_step(config: RouterConfig, m: Move) -> u32
    ensures { result ≡ (price_of config m 0).step.0 }
{
    if m.y == 1 {
        config.horizontal.0
    } else {
        config.stair.0
    }
}

// A room's open cells and their labels.
#[derive(Clone, Copy)]
pub struct Labelled<'a> {
    pub room: Room,
    pub config: RouterConfig,
    pub classes: &'a [u8],
    pub labels: &'a [u32],
    ghost fits: { Fits room config classes.now labels.now },
}

impl Labelled<'_> {
    // Whether a move, from a position with this label, leads to no open cell, or to one with a label no higher than by this
    // step.
    fn move_agrees(&self, at: Pos, label: u32, m: Move) -> bool
        requires within { Within self.now.room at }
        requires small_move { (m.x ≤ 2) × (m.y ≤ 2) × (m.z ≤ 2) }
        ensures { MoveTold self.now.room self.now.config self.now.classes.now self.now.labels.now at label m result }
    {
        let Some(cell) = self.room.neighbour_at(at, m) else {
            return true;
        };
        if self.classes[cell] == room_search::SHUT {
            return true;
        }
        let other = self.labels[cell];
        other != 0 && as_long(other) <= as_long(label) + as_long(bare_step(self.config, m))
    }

    // Whether all twelve moves of a cell agree with its label, if it has one.
    fn cell_agrees(&self, cell: usize) -> bool
        requires { cell < volume self.now.room }
        ensures { CellTold self.now.room self.now.config self.now.classes.now self.now.labels.now cell result }
    {
        let label = self.labels[cell];
        if label == 0 {
            return true;
        }
        let at = self.room.pos(cell);
        for k in 0..12 {
            if !self.move_agrees(at, label, Room::move_at(k)) {
                return false;
            }
        }
        true
    }

    // Whether the start is labelled with cost 0 and no step undercuts a label.
    pub fn labels_agree(&self, start: usize) -> bool
        requires { start < volume self.now.room }
        ensures { LabelsTold self.now.room self.now.config self.now.classes.now start self.now.labels.now result }
    {
        if self.labels[start] != 1 {
            return false;
        }
        for cell in 0..self.labels.len() {
            if !self.cell_agrees(cell) {
                return false;
            }
        }
        true
    }
}
