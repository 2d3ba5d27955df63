// The plain engine's answer as values.
ghost use Rattle.std.specs.Prelude.{◌≡◌, ◌≤◌, length};
ghost use Rattle.lent.specs.Lent.{output_after};
ghost use Rattle.plain.specs.Answers.{number_of, detail_of};
ghost use Rattle.exports.specs.PlainExport.{plain_value_count, plain_route_of, plain_values};

use crate::search_values::write_front;
use plain::{PlainRoute, PlainUnrouted};
use room::Cost;

// How many values an answer of the plain engine comes to: its detail, and a route's length and cost.
pub const PLAIN_VALUES: usize = 3;

// The number of an answer, 0 for a route.
fn plain_number(answer: Result<PlainRoute, PlainUnrouted>) -> u32
    ensures { result ≡ number_of answer }
{
    match answer {
        Ok(_) => numbers::DONE_NUMBER,
        Err(PlainUnrouted::Refused(why)) => reply::refusal_number(why),
        Err(PlainUnrouted::NotRouteable(_)) => numbers::NOT_ROUTEABLE_NUMBER,
        Err(PlainUnrouted::NoRoute(_)) => numbers::NO_ROUTE_NUMBER,
    }
}

// The detail of an answer: the cell that is not routeable, or the count of cells reached; else 0.
fn plain_detail(answer: Result<PlainRoute, PlainUnrouted>) -> usize
    ensures { result ≡ detail_of answer }
{
    match answer {
        Ok(_) | Err(PlainUnrouted::Refused(_)) => 0,
        Err(PlainUnrouted::NotRouteable(cell)) => cell,
        Err(PlainUnrouted::NoRoute(reached)) => reached.0,
    }
}

// The route of an answer, all zero where there is none.
fn plain_route_of(answer: Result<PlainRoute, PlainUnrouted>) -> PlainRoute
    ensures { result ≡ plain_route_of answer }
{
    answer.unwrap_or(PlainRoute {
        length: 0,
        cost: Cost(0),
    })
}

// Writes an answer's values and returns its number. A refusal by 2 to 6 writes nothing.
pub fn tell_plain(answer: Result<PlainRoute, PlainUnrouted>, values: &mut [u64]) -> u32
    requires { plain_value_count ≤ length values.old }
    ensures value { result ≡ number_of answer }
    ensures values_after { values.new ≡ output_after (number_of answer) (plain_values answer) values.old }
{
    let number = plain_number(answer);
    if lent::touches(number) {
        let detail = plain_detail(answer);
        let route = plain_route_of(answer);
        let front = [detail as u64, route.length as u64, route.cost.0 as u64];
        write_front(values, &front);
    }
    number
}
