// An answer by its number and detail, as "Numbers that come back" lists them.
#![tactic(auto)]

ghost use Rattle.std.specs.Prelude.{◌≡◌};
ghost use Rattle.routing.specs.Answers.{refusal_number, number_of, detail_of};
ghost use Rattle.reply.specs.Replies.{route_of};

use room::{Cost, Nodes};
use routing::{Refusal, Route, Unrouted};

// The number of a refusal. No `From`: the type is crate `routing`'s and the number std's, so that none may be written here.
pub fn refusal_number(why: Refusal) -> u32
    ensures { result ≡ refusal_number why }
{
    match why {
        Refusal::Sides => numbers::SIDES_NUMBER,
        Refusal::Config => numbers::CONFIG_NUMBER,
        Refusal::Position => numbers::POSITION_NUMBER,
        Refusal::Code => numbers::CODE_NUMBER,
        Refusal::Buffer => numbers::BUFFER_NUMBER,
    }
}

// The number of a search's answer, 0 for a route.
pub fn number_of(answer: Result<Route, Unrouted>) -> u32
    ensures { result ≡ number_of answer }
{
    match answer {
        Ok(_) => numbers::DONE_NUMBER,
        Err(Unrouted::Refused(why)) => refusal_number(why),
        Err(Unrouted::NotRouteable(_)) => numbers::NOT_ROUTEABLE_NUMBER,
        Err(Unrouted::NoRoute(_)) => numbers::NO_ROUTE_NUMBER,
        Err(Unrouted::LimitPassed(_)) => numbers::LIMIT_PASSED_NUMBER,
        Err(Unrouted::QueueFull(_)) => numbers::QUEUE_FULL_NUMBER,
    }
}

// The detail of a search's answer: the cell that is not routeable, or the expanded count; else 0.
pub fn detail_of(answer: Result<Route, Unrouted>) -> usize
    ensures { result ≡ detail_of answer }
{
    match answer {
        Ok(_) | Err(Unrouted::Refused(_)) => 0,
        Err(Unrouted::NotRouteable(cell)) => cell,
        Err(
            Unrouted::NoRoute(expanded)
            | Unrouted::LimitPassed(expanded)
            | Unrouted::QueueFull(expanded),
        ) => expanded.0 as usize,
    }
}

// The route of a search's answer, all zero where there is none.
pub fn route_of(answer: Result<Route, Unrouted>) -> Route
    ensures { result ≡ route_of answer }
{
    answer.unwrap_or(Route {
        length: 0,
        cost: Cost(0),
        expanded: Nodes(0),
        steps: Cost(0),
        supports: Cost(0),
        laid: 0,
    })
}
