// The labels of a sink's turn.
ghost use Rattle.std.specs.Prelude.{◌≡◌, ◌<◌, length};
ghost use Rattle.room.specs.Room.{volume};
ghost use Rattle.room.specs.Units.{GoodConfig};
ghost use Rattle.room_search.specs.TriedMoves.{places_of};
ghost use Rattle.relaxed.specs.Labels.{Fits, LabelsTold, Labelable, TurnTold};

use crate::check::Labelled;
use crate::opening::{first_shut, open_goals, shut_goals};
use ground::Ground;
use room::{Cost, Nodes, Room, RouterConfig};
use room_search::Outcome;

// The highest node limit.
const MOST_NODES: u32 = 800000;

// Costs at which supports are free.
fn without_supports(room: Room, config: RouterConfig) -> RouterConfig
    requires { GoodConfig room config }
    ensures { GoodConfig room result }
{
    RouterConfig {
        limit: Nodes(MOST_NODES),
        support: Cost(0),
        ..config
    }
}

// Labels each cell that open cells lead to, by a search for a cell that is not open: it goes on until nothing waits. Says
// whether these are labels.
fn label_open(
    room: Room,
    config: RouterConfig,
    classes: &[u8],
    known: &mut [u32],
    previous: &mut [u32],
    queue: &mut [u64],
    start: usize,
) -> bool
    requires fits { Fits room config classes.now known.old }
    requires previous_len { (length previous.old ≡ volume room) × (start < volume room) × (0 < places_of queue.old) }
    ensures { LabelsTold room config classes.now start known.new result }
{
    let Some(shut) = first_shut(classes) else {
        return false;
    };
    let outcome = room_search::search_classes(
        room,
        without_supports(room, config),
        classes,
        known,
        previous,
        queue,
        start,
        shut,
    );
    let Outcome::NoRoute(_) = outcome else {
        return false;
    };
    let labelled = Labelled {
        room,
        config,
        classes,
        labels: known,
    };
    labelled.labels_agree(start)
}

// Labels the cells at a sink's turn, in `known`, and says whether these are labels. The class bytes are as they were when
// this returns. The labels stay in the lent `known`: an Option of them is no plainer, since the caller holds that slice.
pub fn label_cells(
    ground: Ground,
    kinds: &[u8],
    joinable: &[u8],
    blocked: &[u8],
    classes: &mut [u8],
    known: &mut [u32],
    previous: &mut [u32],
    queue: &mut [u64],
    start: usize,
) -> bool
    requires { Labelable ground kinds.now joinable.now blocked.now classes.old known.old previous.old queue.old start }
    ensures turn_told { TurnTold ground.room ground.config joinable.now classes.old start known.new result }
    ensures classes_unchanged { classes.new ≡ classes.old }
{
    open_goals(ground.room, joinable, classes);
    let labelled = label_open(
        ground.room,
        ground.config,
        classes,
        known,
        previous,
        queue,
        start,
    );
    shut_goals(ground, kinds, joinable, blocked, classes, start);
    labelled
}
