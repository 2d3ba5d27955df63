// The plain engine, exported for other languages.
ghost use Rattle.plain.specs.Answers.{input_of};
ghost use Rattle.exports.specs.Export.{room_of};
ghost use Rattle.exports.specs.PlainExport.{cost_of, PlainExported};

use room::{Cost, Nodes, Room, RouterConfig};

// A cheapest route by the plain engine, as `plain::plain_route`. The number comes back, 0 for a route; its detail, and the
// route's length and cost, go to the first three of `values`. The path goes to the front of `path`. See the promise in
// crate exports, specs/PlainExport.antt.
#[unsafe(no_mangle)]
pub extern "C" fn dustroute_plain(
    wide: usize,
    high: usize,
    deep: usize,
    horizontal: u32,
    stair: u32,
    support: u32,
    kinds: &[u8],
    start: usize,
    goal: usize,
    path: &mut [u32],
    known: &mut [u32],
    previous: &mut [u32],
    classes: &mut [u8],
    values: &mut [u64],
) -> u32
    ensures { PlainExported (input_of (room_of wide high deep) (cost_of horizontal) (cost_of stair) (cost_of support) kinds.now start goal path.old known.old previous.old classes.old) path.old known.old previous.old classes.old values.old result path.new known.new previous.new classes.new values.new }
{
    let room = Room {
        wide: wide,
        high: high,
        deep: deep,
    };
    if values.len() < exports::PLAIN_VALUES {
        let config = RouterConfig {
            limit: Nodes(0),
            horizontal: Cost(horizontal),
            stair: Cost(stair),
            support: Cost(support),
        };
        return reply::refusal_number(exports::short_refusal(room, config));
    }
    let answer = plain::plain_route(
        room,
        Cost(horizontal),
        Cost(stair),
        Cost(support),
        kinds,
        start,
        goal,
        path,
        known,
        previous,
        classes,
    );
    exports::tell_plain(answer, values)
}
