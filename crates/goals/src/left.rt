// Which goals are left, by their labels: the least that a route to each can cost, one above, so that 0 says that a goal need
// not be tried.
ghost use Rattle.std.specs.Prelude.{◌≡◌, ◌<◌, length, get_or, IfSome};
ghost use Rattle.room.specs.Room.{volume};
ghost use Rattle.relaxed.specs.Labels.{Labelable};
ghost use Rattle.goals.specs.Trials.{site_in};
ghost use Rattle.goals.specs.Labelled.{LabelOf, LabelsOf, bound_at, bound_of, GoalLabels, LeastLabel, LowerLabel};

use crate::Turn;
use crate::passing::Viewpoint;

// What a route to a cell costs at least by its distance, and 1 where that is 0.
fn distance_label(view: Viewpoint, cell: usize) -> u32
    requires { cell < volume view.room }
    ensures { result ≡ bound_at view.config view.room view.from cell }
{
    view.least_to(cell).max(1)
}

// The label of one cell: none where it is not joinable or was passed, its bid being below `low`.
fn label_of(
    view: Viewpoint,
    joinable: &[u8],
    known: &[u32],
    low: u64,
    labelled: bool,
    cell: usize,
) -> u32
    requires { (cell < volume view.room) × (length joinable.now ≡ volume view.room) × (length known.now ≡ volume view.room) }
    ensures { LabelOf view.config view.room view.from low cell (get_or joinable.now cell 0) (bound_of labelled known.now view.config view.room view.from cell) result }
{
    if joinable[cell] != routing_resources::MARKED || view.bid_of(cell) < low {
        return 0;
    }
    if labelled {
        known[cell]
    } else {
        distance_label(view, cell)
    }
}

// Writes each cell's label.
fn write_labels(
    view: Viewpoint,
    joinable: &[u8],
    known: &[u32],
    labels: &mut [u32],
    low: u64,
    labelled: bool,
)
    requires { (length joinable.now ≡ volume view.room) × (length known.now ≡ volume view.room) × (length labels.old ≡ volume view.room) }
    ensures { LabelsOf view.config view.room view.from low joinable.now (bound_of labelled known.now view.config view.room view.from) labels.new (volume view.room) }
{
    for (cell, label) in labels.iter_mut().enumerate() {
        *label = label_of(view, joinable, known, low, labelled, cell);
    }
}

// Labels the goals whose bids are `low` or higher, in `labels`: by one search for all of them, or by distance where that
// gives no labels.
pub fn label_goals(
    turn: Turn,
    joinable: &[u8],
    blocked: &[u8],
    classes: &mut [u8],
    known: &mut [u32],
    previous: &mut [u32],
    labels: &mut [u32],
    queue: &mut [u64],
    low: u64,
)
    requires labelable { Labelable turn.ground turn.kinds.now joinable.now blocked.now classes.old known.old previous.old queue.old turn.start }
    requires labels_len { length labels.old ≡ volume turn.ground.room }
    ensures goal_labels { GoalLabels (site_in turn.entry joinable.now queue.old) turn.entry.start blocked.now low labels.new }
    ensures classes_unchanged { classes.new ≡ classes.old }
{
    let labelled = relaxed::label_cells(
        turn.ground,
        turn.kinds,
        joinable,
        blocked,
        classes,
        known,
        previous,
        queue,
        turn.start,
    );
    let view = Viewpoint::new(turn.ground, turn.start);
    write_labels(view, joinable, known, labels, low, labelled);
}

// Whether a cell's label is lower than the lowest so far, if there is one.
fn lower_label(labels: &[u32], lowest: Option<usize>, cell: usize) -> bool
    requires cell_in { cell < length labels.now }
    requires lowest_in { IfSome lowest (λ v. v < length labels.now) }
    ensures { LowerLabel labels.now lowest cell result }
{
    let label = labels[cell];
    if label == 0 {
        return false;
    }
    match lowest {
        Some(other) => label < labels[other],
        None => true,
    }
}

// The cell of the lowest label, the first of equal ones, or none where none has one.
pub fn lowest_label(labels: &[u32]) -> Option<usize>
    ensures { LeastLabel labels.now (length labels.now) result }
{
    let mut lowest = None;
    for cell in 0..labels.len() {
        if lower_label(labels, lowest, cell) {
            lowest = Some(cell);
        }
    }
    lowest
}
