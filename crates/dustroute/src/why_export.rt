// Why a search found no route, exported for other languages.
ghost use Rattle.routing.specs.Answers.{input, lengths_of};
ghost use Rattle.why.specs.Why.{memory};
ghost use Rattle.exports.specs.Export.{room_of, config_of};
ghost use Rattle.exports.specs.WhyExport.{WhyExported};

use room::{Cost, Nodes, Room, RouterConfig};

// One search, as `dustroute_search`, that tells why it finds no route, as `why::why_no_route`: on number 11 `reached` marks the
// cells that lawful steps lead to from the start, and twelve bytes a cell of `walls` say what stands against each of its
// moves. The number comes back; the values are the search's. See the promise in crate exports, specs/WhyExport.antt.
#[unsafe(no_mangle)]
pub extern "C" fn dustroute_why(
    wide: usize,
    high: usize,
    deep: usize,
    limit: u32,
    horizontal: u32,
    stair: u32,
    support: u32,
    kinds: &[u8],
    start: usize,
    goal: usize,
    path: &mut [u32],
    reached: &mut [u8],
    walls: &mut [u8],
    known: &mut [u32],
    previous: &mut [u32],
    classes: &mut [u8],
    queue: &mut [u64],
    values: &mut [u64],
) -> u32
    ensures { WhyExported (input (room_of wide high deep) (config_of limit horizontal stair support) kinds.now start goal (lengths_of path.old known.old previous.old classes.old queue.old)) (memory path.old known.old previous.old classes.old queue.old reached.old walls.old) values.old result (memory path.new known.new previous.new classes.new queue.new reached.new walls.new) values.new }
{
    let room = Room {
        wide: wide,
        high: high,
        deep: deep,
    };
    let config = RouterConfig {
        limit: Nodes(limit),
        horizontal: Cost(horizontal),
        stair: Cost(stair),
        support: Cost(support),
    };
    if values.len() < 4 {
        return reply::refusal_number(exports::short_refusal(room, config));
    }
    let answer = why::why_no_route(
        room, config, kinds, start, goal, path, known, previous, classes, queue, reached, walls,
    );
    exports::tell(answer, values)
}
