// A search's answer as values.
ghost use Rattle.std.specs.Prelude.{◌≡◌, ◌≤◌, length, take};
ghost use Rattle.lent.specs.Lent.{filled};
ghost use Rattle.routing.specs.Answers.{number_of};
ghost use Rattle.exports.specs.Export.{short_refusal, values_told};

use room::{Room, RouterConfig};
use routing::{Refusal, Route, Unrouted};

// Fewer than four values are lent: 6, unless 2 or 3 comes before it.
pub fn short_refusal(room: Room, config: RouterConfig) -> Refusal
    ensures { result ≡ short_refusal room config }
{
    if !room.good() {
        return Refusal::Sides;
    }
    if !config.good(room) {
        return Refusal::Config;
    }
    Refusal::Buffer
}

// As many of these values as are lent, and zeros behind them. Not by `copy_from_slice`, which compares addresses: their width is
// another in a browser, for which the compiled module is compiled once more.
pub fn write_front(values: &mut [u64], front: &[u64])
    ensures { values.new ≡ filled (take (length values.old) front.now) values.old }
{
    let count = values.len().min(front.len());
    lent::clear(values);
    for i in 0..count {
        values[i] = front[i];
    }
}

// Writes an answer's seven values, as many of them as are lent, and returns its number. A refusal by 2 to 6 writes nothing.
pub fn tell(answer: Result<Route, Unrouted>, values: &mut [u64]) -> u32
    requires { 4 ≤ length values.old }
    ensures value { result ≡ number_of answer }
    ensures values_after { values.new ≡ values_told answer values.old }
{
    let number = reply::number_of(answer);
    if lent::touches(number) {
        let detail = reply::detail_of(answer);
        let route = reply::route_of(answer);
        let front = [
            detail as u64,
            route.length as u64,
            route.cost.0 as u64,
            route.expanded.0 as u64,
            route.steps.0 as u64,
            route.supports.0 as u64,
            route.laid as u64,
        ];
        write_front(values, &front);
    }
    number
}
