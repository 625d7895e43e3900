//! What the reader of a connection does.

ghost use Rattle.std.specs.Prelude.{◌≡◌, false, IfErr, OnOk};
ghost use Rattle.floor_wire.specs.Message.{messages, rest};
ghost use Rattle.floor_serve.specs.Read.{Ended, Gained, Refuses, fault_of};

use crate::desk::Desk;
use crate::fault::ReadFault;
use crate::gate::Gate;
use crate::marked::Source;
use crate::seat::Seat;
use floor_room::{Refusal, RoomRefusal};
use floor_wire::Framer;
use std::sync::Wait;

/// How many reads a connection is served at most.
pub const MAX_TURNS: u64 = 100_000_000;

/// How many bytes are read at once at most.
const READ_LEN: usize = 4096;

/// How a stream ended.
#[derive(Clone, Copy, Debug, PartialEq, Eq)]
pub enum ReadEnd {
    /// Behind a whole message, or before the first.
    Closed,
    /// Inside a message, of which so many bytes had come.
    Cut(usize),
}

/// Reads to the end of the source, in at most 100,000,000 reads, and submits each message for the
/// seat. The seat keeps the messages of all bytes that were read, or where the conference or memory
/// refuses one, those before it. It stops before the end by `Read` at a read that failed, by
/// `Refused` at a message that the conference refuses for another cause than memory, by `Memory`, and
/// by `TurnLimit` behind the last of the reads.
pub fn read_loop<S: Source, G: Gate, R: Wait>(
    rt: &R,
    source: &mut S,
    desk: &Desk,
    seat: &mut Seat,
    gate: &G,
) -> Result<ReadEnd, ReadFault>
    requires unmarked { S.marked source.old ≡ false }
    requires seat { seat.old.conference ≡ desk.now.conference }
    ensures { Ended MAX_TURNS result seat.old seat.new
        (S.remaining source.old) (S.remaining source.new) (S.marked source.new) }
{
    read_turns(MAX_TURNS, rt, source, desk, seat, gate)
}

/// The same in at most so many reads: the end of the source is found by a read of its own.
pub fn read_turns<S: Source, G: Gate, R: Wait>(
    limit: u64,
    rt: &R,
    source: &mut S,
    desk: &Desk,
    seat: &mut Seat,
    gate: &G,
) -> Result<ReadEnd, ReadFault>
    requires unmarked { S.marked source.old ≡ false }
    requires seat { seat.old.conference ≡ desk.now.conference }
    ensures { Ended limit result seat.old seat.new
        (S.remaining source.old) (S.remaining source.new) (S.marked source.new) }
{
    let mut framer = Framer::new(desk.alloc);
    let mut buffer = [0u8; READ_LEN];
    for _turn in 0..limit {
        let Some(count) = source.read(&mut buffer) else {
            return Err(ReadFault::Read);
        };
        if count == 0 {
            let left = framer.rest_len();
            if left == 0 {
                return Ok(ReadEnd::Closed);
            }
            return Ok(ReadEnd::Cut(left));
        }
        let Ok(()) = framer.push(&buffer[..count]) else {
            return Err(ReadFault::Memory);
        };
        match submit_all(rt, &mut framer, desk, seat, gate) {
            Ok(()) => {}
            Err(refusal) => return Err(fault_of(refusal)),
        }
    }
    Err(ReadFault::TurnLimit)
}

/// Submits each message that is held.
fn submit_all<G: Gate, R: Wait>(
    rt: &R,
    framer: &mut Framer,
    desk: &Desk,
    seat: &mut Seat,
    gate: &G,
) -> Result<(), RoomRefusal>
    requires { seat.old.conference ≡ desk.now.conference }
    ensures took { OnOk result (Gained seat.old seat.new (messages framer.old)) }
    ensures rest { OnOk result (framer.new ≡ rest framer.old) }
    ensures left { IfErr result (λ refusal.
        Refuses refusal seat.old seat.new (messages framer.old)) }
{
    while let Some(frame) = framer.next()? {
        desk.submit(rt, seat, frame, gate)?;
    }
    Ok(())
}

/// The fault of a reader whose conference refuses a message.
fn fault_of(refusal: RoomRefusal) -> ReadFault
    ensures { result ≡ fault_of refusal }
{
    match refusal {
        RoomRefusal::Refused(Refusal::Memory) => ReadFault::Memory,
        RoomRefusal::JournalFull | RoomRefusal::Refused(_) => ReadFault::Refused(refusal),
    }
}
