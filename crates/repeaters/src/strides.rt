// Repeaters along the runs: at a cell more steps past the last reset than the run limit, the latest cell that may hold one.
ghost use Rattle.std.specs.Prelude.{◌≡◌, ◌+◌, ◌^◌, ◌<◌, length};
ghost use Rattle.room.specs.Room.{volume};
ghost use Rattle.repeaters.specs.Repeaters.{run};
ghost use Rattle.repeaters.specs.Links.{fit_by};
ghost use Rattle.repeaters.specs.Strides.{at_reset, Walking, Strode};

use crate::{Path, Stride};
use room::as_index;
use routing_resources::MARKED;

// The walk at a reset: it goes on behind it, and no place since then is known.
fn at_reset(reset: usize) -> Stride
    requires { reset + 1 < 2 ^ 64 }
    ensures { result ≡ at_reset reset }
{
    Stride {
        reset,
        place: reset + 1,
        latest: None,
    }
}

impl Path<'_> {
    // One step of the walk. A repeater met is a reset; where one is due, it is put at the latest place that may hold it,
    // which becomes the reset, and the walk resumes after it.
    fn stride(&self, repeaters: &mut [u8], limit: usize, s: Stride) -> Stride
        requires repeaters_len { length repeaters.old ≡ volume self.now.room }
        requires walking { Walking (fit_by self.now.room self.now.links.now self.now.forbidden.now self.now.cells.now) s }
        requires place_in_bounds { s.place < length self.now.cells.now }
        ensures { Strode limit (fit_by self.now.room self.now.links.now self.now.forbidden.now self.now.cells.now) self.now.cells.now repeaters.old s repeaters.new result }
    {
        let place = s.place;
        let cell = as_index(self.cells[place]);
        if repeaters[cell] == MARKED {
            return at_reset(place);
        }
        let passes = self.may_stand(place);
        let latest = passes.then_some(place).or(s.latest);
        match latest {
            Some(chosen) if limit < place - s.reset => {
                repeaters[as_index(self.cells[chosen])] = MARKED;
                at_reset(chosen)
            }
            _ => Stride {
                reset: s.reset,
                place: place + 1,
                latest,
            },
        }
    }

    // Puts repeaters along the path.
    pub fn plan_path(&self, repeaters: &mut [u8], limit: usize)
        requires { length repeaters.old ≡ volume self.now.room }
        ensures { repeaters.new ≡ run limit (fit_by self.now.room self.now.links.now self.now.forbidden.now self.now.cells.now) self.now.cells.now repeaters.old }
    {
        let mut s = at_reset(0);
        // no counting loop: a stride may go back to behind the reset that it puts
        while s.place < self.cells.len() {
            s = self.stride(repeaters, limit, s);
        }
    }
}
