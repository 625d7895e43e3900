//! What the console does after a read.

ghost use Rattle.floor_listen.specs.Console.{IsNext};

use floor_words::cut_line;
use std::io;
use std::io::ErrorKind;

/// What the console does next.
#[derive(Clone, Copy, Debug)]
pub enum Next<'a> {
    /// It carries out this line, and answers it.
    Line(&'a str),
    /// It stops the server, as the line `stop` does: the input has ended, or can't be read.
    Stop,
    /// It ends by want of memory.
    Memory,
}

/// What follows from a read of the next line into `piece`, which was empty: the line, without its
/// line feed, if there was one.
pub fn after_read<'a>(read: io::Result<usize>, piece: &'a str) -> Next<'a>
    ensures value { IsNext read piece.now result }
{
    match read {
        Ok(_) => match cut_line(piece) {
            Some(cut) => Next::Line(cut.line),
            None => Next::Stop,
        },
        Err(error) => match error.kind() {
            ErrorKind::OutOfMemory => Next::Memory,
            _ => Next::Stop,
        },
    }
}
