// One net's router, exported for other languages: numbers pass as themselves, a slice as a pointer and then a length. Here is
// the search; the others are in the files beside.
#![tactic(auto)]

mod drawing_export; // drawing_export.rt: one route drawn
mod function_export; // function_export.rt: a function file
mod nets_export; // nets_export.rt: several nets, one after another
mod plain_export; // plain_export.rt: the plain engine
mod repeaters_export; // repeaters_export.rt: one call for repeaters
mod sheet_export; // sheet_export.rt: a sheet written
mod tree_export; // tree_export.rt: the tree
mod tree_why_export; // tree_why_export.rt: why a sink couldn't be reached
mod why_export; // why_export.rt: why a search found no route

ghost use Rattle.routing.specs.Answers.{input, lengths_of};
ghost use Rattle.exports.specs.Export.{room_of, config_of, Exported};

pub use drawing_export::{dustroute_insert_repeaters, dustroute_materialize_route};
pub use function_export::{dustroute_read_function, dustroute_write_function};
pub use nets_export::dustroute_nets;
pub use plain_export::dustroute_plain;
pub use repeaters_export::dustroute_place_repeaters;
use room::{Cost, Nodes, Room, RouterConfig};
pub use sheet_export::dustroute_write_sheet;
pub use tree_export::{dustroute_tree, dustroute_tree_mode};
pub use tree_why_export::dustroute_tree_why;
pub use why_export::dustroute_why;

// One search over a room of kinds, as `routing::astar_route`. The number comes back, 0 for a route; its detail, and the
// route's length, cost and expanded count, go to the first four of `values`; what its steps and its new supports come to, and
// how many supports are new, each behind these where so many are lent. The path goes to the front of `path`; a place of the
// queue takes two numbers. See the promise in crate exports, specs/Export.antt.
#[unsafe(no_mangle)]
pub extern "C" fn dustroute_search(
    wide: usize,
    high: usize,
    deep: usize,
    limit: u32,
    horizontal: u32,
    stair: u32,
    support: u32,
    kinds: &[u8],
    start: usize,
    goal: usize,
    path: &mut [u32],
    known: &mut [u32],
    previous: &mut [u32],
    classes: &mut [u8],
    queue: &mut [u64],
    values: &mut [u64],
) -> u32
    ensures { Exported (input (room_of wide high deep) (config_of limit horizontal stair support) kinds.now start goal (lengths_of path.old known.old previous.old classes.old queue.old)) path.old known.old previous.old classes.old queue.old values.old result path.new known.new previous.new classes.new queue.new values.new }
{
    let room = Room {
        wide: wide,
        high: high,
        deep: deep,
    };
    let config = RouterConfig {
        limit: Nodes(limit),
        horizontal: Cost(horizontal),
        stair: Cost(stair),
        support: Cost(support),
    };
    if values.len() < 4 {
        return reply::refusal_number(exports::short_refusal(room, config));
    }
    let answer = routing::astar_route(
        room, config, kinds, start, goal, path, known, previous, classes, queue,
    );
    exports::tell(answer, values)
}
