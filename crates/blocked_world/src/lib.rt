// The class bytes of a room in which cells are blocked. For a search, each blocked Air cell other than its start and goal
// counts as Solid, as a support too; in strict mode it is neither entered nor used as a support. The bytes are filled in
// once, and after a change at one cell two of them are written anew.
#![tactic(auto)]

ghost use Rattle.std.specs.Prelude.{◌≡◌, ◌<◌, length};
ghost use Rattle.room.specs.Room.{volume, beneath};
ghost use Rattle.room_search.specs.Routing.{kind_at, an_end};
ghost use Rattle.blocked_world.specs.BlockedWorld.{wall_of, seen_kind, seen_kinds, class_seen, Says, WorldFits, renewed, refreshed};

use ground::{Ground, Mode};
use room::Room;

// The first code that is no kind: neither routeable nor bearing.
const NO_KIND: u8 = 13;

// Whether a cell is the start or the goal of a search.
pub fn an_end(start: usize, goal: usize, cell: usize) -> bool
    ensures { result ≡ an_end start goal cell }
{
    cell == start || cell == goal
}

// The kind that blocked Air is seen as.
fn wall_of(mode: Mode) -> u8
    ensures { result ≡ wall_of mode }
{
    match mode {
        Mode::Published => room::SOLID,
        Mode::Strict => NO_KIND,
    }
}

// The room as one search sees it.
#[derive(Clone, Copy)]
struct World<'a> {
    ground: Ground,
    kinds: &'a [u8],
    blocked: &'a [u8],
    start: usize,
    goal: usize,
    ghost fits: { WorldFits ground.room kinds.now blocked.now },
}

impl World<'_> {
    // The kind that the search sees at a cell. A blocked cell that isn't Air keeps its kind.
    fn seen_kind(&self, cell: usize) -> u8
        requires { cell < volume self.now.ground.room }
        ensures { result ≡ seen_kind self.now.ground.mode self.now.kinds.now self.now.blocked.now self.now.start self.now.goal cell }
    {
        let kind = self.kinds[cell];
        if kind != room::AIR || self.blocked[cell] != routing_resources::MARKED {
            return kind;
        }
        if an_end(self.start, self.goal, cell) {
            kind
        } else {
            wall_of(self.ground.mode)
        }
    }

    // The kind that the search sees right beneath a cell; outside is Solid.
    fn seen_beneath(&self, cell: usize) -> u8
        requires { cell < volume self.now.ground.room }
        ensures { result ≡ kind_at (seen_kinds self.now.ground.mode self.now.kinds.now self.now.blocked.now self.now.start self.now.goal) (beneath self.now.ground.room cell) }
    {
        match self.ground.room.beneath(cell) {
            Some(below) => self.seen_kind(below),
            None => room::SOLID,
        }
    }

    // What it takes the search to enter a cell. What is beneath comes first, so that nothing stands between the look at the
    // cell and the test that it is Air: a `fill` is a third longer the other way round.
    fn class_seen(&self, cell: usize) -> u8
        requires { cell < volume self.now.ground.room }
        ensures { result ≡ class_seen self.now.ground.mode self.now.ground.room self.now.kinds.now self.now.blocked.now self.now.start self.now.goal cell }
    {
        let below = self.seen_beneath(cell);
        let kind = self.seen_kind(cell);
        room_search::class_for(an_end(self.start, self.goal, cell), kind, below)
    }

    // Writes one cell's class anew.
    fn renew(&self, classes: &mut [u8], cell: usize)
        requires classes_len { length classes.old ≡ volume self.now.ground.room }
        requires cell_bound { cell < volume self.now.ground.room }
        ensures { classes.new ≡ renewed self.now.ground.mode self.now.ground.room self.now.kinds.now self.now.blocked.now self.now.start self.now.goal cell classes.old }
    {
        classes[cell] = self.class_seen(cell);
    }
}

// Fills in each cell's class, whatever the bytes held. Here and in `refresh` the caller hands the parts of a `World` apart,
// since the ends change from one search of a turn to the next: a World for each call is no plainer there.
pub fn fill(
    ground: Ground,
    kinds: &[u8],
    blocked: &[u8],
    start: usize,
    goal: usize,
    classes: &mut [u8],
)
    requires world_fits { WorldFits ground.room kinds.now blocked.now }
    requires classes_len { length classes.old ≡ volume ground.room }
    ensures { Says ground.mode ground.room kinds.now blocked.now start goal classes.new }
{
    let world = World {
        ground,
        kinds,
        blocked,
        start,
        goal,
    };
    for v in 0..kinds.len() {
        world.renew(classes, v);
    }
}

// After a change at a cell: its class is written anew, and that of the cell above, which it bears. No other class depends
// on what is seen at it, or on whether it is an end.
pub fn refresh(
    ground: Ground,
    kinds: &[u8],
    blocked: &[u8],
    start: usize,
    goal: usize,
    classes: &mut [u8],
    cell: usize,
)
    requires world_fits { WorldFits ground.room kinds.now blocked.now }
    requires classes_len { length classes.old ≡ volume ground.room }
    requires cell_bound { cell < volume ground.room }
    ensures { classes.new ≡ refreshed ground.mode ground.room kinds.now blocked.now start goal cell classes.old }
{
    let world = World {
        ground,
        kinds,
        blocked,
        start,
        goal,
    };
    world.renew(classes, cell);
    if let Some(over) = ground.room.above(cell) {
        world.renew(classes, over);
    }
}
