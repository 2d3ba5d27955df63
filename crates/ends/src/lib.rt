// The ends of one net: numbers 8 and 9, else the source's terminal, and each sink's terminal and approach.
#![tactic(auto)]

ghost use Rattle.std.specs.Prelude.{◌≡◌};
ghost use Rattle.room.specs.Room.{Good, Within};
ghost use Rattle.job_sheet.specs.Accepted.{SinkList};
ghost use Rattle.ends.specs.Ends.{sinks_in, source_end, sink_end, first_due, ends_at, no_tap, tap_of, taps_of, terminal_in, fault_number, fault_of, realized_ends};

use job_sheet::{Endpoint, MAX_SINKS, Sink, Sinks};
use port_realization::{EndFault, Realized};
use room::Room;

// A sink as the wire meets it: where its branch ends, where its searches start, whether its port is Wire, and its tail limit.
#[derive(Clone, Copy)]
pub struct Tap {
    pub terminal: usize,
    pub approach: usize,
    pub wire: bool,
    pub tail: usize,
}

// The sinks' taps with their count, as one value: no heap.
#[derive(Clone, Copy)]
pub struct Taps {
    pub count: usize,
    pub taps: [Tap; MAX_SINKS],
}

// What is wrong with a net's ends: of one of them a number is due, of 0, the source, or k, the k-th sink.
#[derive(Clone, Copy)]
pub struct Fault {
    pub due: EndFault,
    pub place: usize,
}

impl Fault {
    // The number that is due: 8 or 9.
    pub fn number(self) -> u32
        ensures { result ≡ fault_number self.due }
    {
        match self.due {
            EndFault::NoFacing => numbers::PORT_FACING_NUMBER,
            EndFault::Outside => numbers::END_OUTSIDE_NUMBER,
        }
    }
}

// The source's terminal and the sinks' taps.
#[derive(Clone, Copy)]
pub struct Ends {
    pub source: usize,
    pub taps: Taps,
}

// What is told of a net where a number is due for one of its ends: the fault, and all of the ends, with zeros for each of
// which 8 or 9 is due.
#[derive(Clone, Copy)]
pub struct Unrealized {
    pub fault: Fault,
    pub ends: Ends,
}

// A source has no approach.
fn source_end(room: Room, source: Endpoint) -> Result<Realized, EndFault>
    requires good { Good room }
    requires within { Within room source.at }
    ensures { result ≡ source_end room source }
{
    let terminal = port_realization::terminal_for_endpoint(
        room,
        source.at,
        source.port,
        source.facing,
    )?;
    Ok(Realized {
        terminal,
        approach: terminal,
    })
}

fn sink_end(room: Room, sink: Sink) -> Result<Realized, EndFault>
    requires good { Good room }
    requires within { Within room sink.end.at }
    ensures { result ≡ sink_end room sink }
{
    let end = sink.end;
    port_realization::realize_sink_endpoint(room, end.at, end.port, end.facing)
}

// The place of the first end for which that fault is due.
fn first_due(room: Room, source: Endpoint, sinks: Sinks, due: EndFault) -> Option<usize>
    requires good { Good room }
    requires within { Within room source.at }
    requires sink_list { SinkList room sinks }
    ensures { result ≡ first_due due 0 (ends_at room source (sinks_in sinks)) }
{
    if source_end(room, source).err() == Some(due) {
        return Some(0);
    }
    for (k, sink) in sinks.ends[..sinks.count].iter().enumerate() {
        if sink_end(room, *sink).err() == Some(due) {
            return Some(k + 1);
        }
    }
    None
}

fn no_tap() -> Tap
    ensures { result ≡ no_tap }
{
    Tap {
        terminal: 0,
        approach: 0,
        wire: false,
        tail: 0,
    }
}

fn tap_of(room: Room, sink: Sink) -> Tap
    requires good { Good room }
    requires within { Within room sink.end.at }
    ensures { result ≡ tap_of room sink }
{
    match sink_end(room, sink) {
        Ok(end) => Tap {
            terminal: end.terminal,
            approach: end.approach,
            wire: sink.end.port == room::WIRE,
            tail: sink.tail,
        },
        Err(_) => no_tap(),
    }
}

fn taps_of(room: Room, sinks: Sinks) -> Taps
    requires good { Good room }
    requires sink_list { SinkList room sinks }
    ensures { result ≡ taps_of room (sinks_in sinks) }
{
    let count = sinks.count;
    let mut taps = [no_tap(); MAX_SINKS];
    for k in 0..count {
        taps[k] = tap_of(room, sinks.ends[k]);
    }
    Taps { count, taps }
}

// The terminal of a source, 0 where a number is due for it.
fn terminal_in(end: Result<Realized, EndFault>) -> usize
    ensures { result ≡ terminal_in end }
{
    match end {
        Ok(end) => end.terminal,
        Err(_) => 0,
    }
}

// "All of 8, all of 9": 8 is judged of every end before 9 is of any.
fn fault_of(room: Room, source: Endpoint, sinks: Sinks) -> Option<Fault>
    requires good { Good room }
    requires within { Within room source.at }
    requires sink_list { SinkList room sinks }
    ensures { result ≡ fault_of room source (sinks_in sinks) }
{
    if let Some(place) = first_due(room, source, sinks, EndFault::NoFacing) {
        return Some(Fault {
            due: EndFault::NoFacing,
            place,
        });
    }
    let place = first_due(room, source, sinks, EndFault::Outside)?;
    Some(Fault {
        due: EndFault::Outside,
        place,
    })
}

// The ends of one net, or what is wrong with one of them, beside those that are good.
pub fn realize_ends(room: Room, source: Endpoint, sinks: Sinks) -> Result<Ends, Unrealized>
    requires good { Good room }
    requires within { Within room source.at }
    requires sink_list { SinkList room sinks }
    ensures { result ≡ realized_ends room source (sinks_in sinks) }
{
    let ends = Ends {
        source: terminal_in(source_end(room, source)),
        taps: taps_of(room, sinks),
    };
    match fault_of(room, source, sinks) {
        Some(fault) => Err(Unrealized { fault, ends }),
        None => Ok(ends),
    }
}
