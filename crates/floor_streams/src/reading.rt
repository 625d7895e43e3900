//! What a stream gives is handed in.

ghost use Rattle.floor_streams.specs.Read.{Hears, ReadsSome};

use floor_loop::{ConnNo, HubRefusal, Loop};
use std::io::{ErrorKind, Read};

/// What a read found.
#[derive(Clone, Copy, Debug)]
pub enum Found {
    /// So many bytes.
    Bytes(usize),
    /// Nothing at present.
    Nothing,
    /// The end of the stream; or the buffer has no room.
    End,
    /// A failure.
    Failure,
}

/// What came of a read, and of handing it in.
#[derive(Clone, Copy, Debug)]
pub enum Came {
    /// So many bytes, which were handed in.
    Bytes {
        /// How many.
        count: usize,
        /// Whether further messages may wait.
        more: bool,
    },
    /// Bytes, of which the loop refuses something: the connection is to be shut down.
    Refused(HubRefusal),
    /// Nothing at present.
    Nothing,
    /// The end of the stream; or the buffer has no room.
    End,
    /// A failure.
    Failure,
}

/// Reads once. It gives no byte where a signal came between.
pub fn read_some<S: Read>(stream: &mut S, buffer: &mut [u8]) -> Found
    ensures value { ReadsSome (S.remaining stream.old) (S.remaining stream.new) buffer.new result }
{
    match stream.read(buffer) {
        Ok(0) => Found::End,
        Ok(count) => Found::Bytes(count),
        Err(error) => match error.kind() {
            ErrorKind::WouldBlock => Found::Nothing,
            ErrorKind::Interrupted => Found::Bytes(0),
            _ => Found::Failure,
        },
    }
}

/// Reads once from a connection's stream, hands in just what came, and serves `most` of its messages at most.
pub fn read_once<S: Read>(
    hub: &mut Loop,
    stream: &mut S,
    buffer: &mut [u8],
    number: ConnNo,
    most: u32,
    now: u64,
) -> Came
    ensures value { Hears number most hub.old hub.new
        (S.remaining stream.old) (S.remaining stream.new) result }
{
    match read_some(stream, buffer) {
        Found::Bytes(count) => match hub.read(number, &buffer[..count], most, now) {
            Ok(more) => Came::Bytes { count, more },
            Err(refusal) => Came::Refused(refusal),
        },
        Found::Nothing => Came::Nothing,
        Found::End => Came::End,
        Found::Failure => Came::Failure,
    }
}
