// Where an end of a net meets the wire. An end is its position, which lies in the room, its port kind and its facing.
#![tactic(auto)]

ghost use Rattle.std.specs.Prelude.{◌≡◌, ◌<◌};
ghost use Rattle.room.specs.Room.{Good, Within, volume};
ghost use Rattle.port_realization.specs.Ports.{terminal_of, approach_of, approached, realized_of};

use room::{Pos, Room};

// What is wrong with an end: number 8 is due for NoFacing, number 9 for Outside.
#[derive(Clone, Copy, PartialEq, Eq)]
pub enum EndFault {
    NoFacing,
    Outside,
}

// The terminal and the approach of a sink, from which its searches start.
#[derive(Clone, Copy)]
pub struct Realized {
    pub terminal: usize,
    pub approach: usize,
}

// "Wire: terminal = position. BlockPower: position plus its facing, which must be horizontal."
pub fn terminal_for_endpoint(room: Room, at: Pos, port: u8, facing: u8) -> Result<usize, EndFault>
    requires good { Good room }
    requires within { Within room at }
    ensures { result ≡ terminal_of room at port facing }
{
    let cell = room.cell(at);
    if port == room::WIRE {
        return Ok(cell);
    }
    if !room::facing_horizontal(facing) {
        return Err(EndFault::NoFacing);
    }
    room.ahead(cell, facing).ok_or(EndFault::Outside)
}

// A terminal with its approach: the cell ahead of it where its facing is horizontal, else itself.
fn with_approach(room: Room, terminal: usize, facing: u8) -> Result<Realized, EndFault>
    requires good { Good room }
    requires terminal_bound { terminal < volume room }
    ensures { result ≡ approached terminal (approach_of room terminal facing) }
{
    let approach = if room::facing_horizontal(facing) {
        room.ahead(terminal, facing).ok_or(EndFault::Outside)?
    } else {
        terminal
    };
    Ok(Realized { terminal, approach })
}

// The terminal and the approach of a sink. A source has a terminal alone.
pub fn realize_sink_endpoint(
    room: Room,
    at: Pos,
    port: u8,
    facing: u8,
) -> Result<Realized, EndFault>
    requires good { Good room }
    requires within { Within room at }
    ensures { result ≡ realized_of room at port facing }
{
    let terminal = terminal_for_endpoint(room, at, port, facing)?;
    with_approach(room, terminal, facing)
}
