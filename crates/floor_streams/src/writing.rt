//! What the loop lends, a stream takes.

ghost use Rattle.floor_streams.specs.Wrote.{Writes, WritesSome};

use floor_loop::{ConnNo, Loop};
use std::io::{ErrorKind, Write};

/// What a write came to.
#[derive(Clone, Copy, Debug)]
pub enum Written {
    /// There is nothing to write.
    All,
    /// So many bytes were taken.
    Bytes(usize),
    /// None at present.
    Nothing,
    /// A failure.
    Failure,
}

/// Writes once. No byte is taken where a signal came between.
pub fn write_some<S: Write>(stream: &mut S, bytes: &[u8]) -> Written
    ensures value { WritesSome (S.contents stream.old) (S.contents stream.new) bytes.now result }
{
    if bytes.is_empty() {
        return Written::All;
    }
    match stream.write(bytes) {
        Ok(0) => Written::Failure,
        Ok(count) => Written::Bytes(count),
        Err(error) => match error.kind() {
            ErrorKind::WouldBlock => Written::Nothing,
            ErrorKind::Interrupted => Written::Bytes(0),
            _ => Written::Failure,
        },
    }
}

/// Writes once what is to be written to a connection, and tells the loop how much its stream took.
pub fn write_once<S: Write>(hub: &mut Loop, stream: &mut S, number: ConnNo, now: u64) -> Written
    ensures value { Writes number hub.old hub.new
        (S.contents stream.old) (S.contents stream.new) result }
{
    let written = write_some(stream, hub.writing(number));
    match written {
        Written::Bytes(count) => hub.wrote(number, count, now),
        _ => {}
    }
    written
}
