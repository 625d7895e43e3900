//! The runs that the input names.

use crate::{client, loops, meetings, threads};
use floor_words::{read_u32, words};
use std::alloc::{AllocError, AllocFailed, Global};
use std::io;
use std::io::{Read, Write};
use std::sync::Wait;

/// How often a call is made that is refused: memory is refused but once.
pub const TRIES: u32 = 2;

/// A run ended early: what may not be refused was, as its beginning or what it prints.
#[derive(Clone, Copy, Debug)]
pub struct Ended;

impl From<AllocError> for Ended {
    fn from(_e: AllocError) -> Ended {
        Ended
    }
}

impl<T: Drop> From<AllocFailed<T>> for Ended {
    fn from(_e: AllocFailed<T>) -> Ended {
        Ended
    }
}

impl From<io::Error> for Ended {
    fn from(_e: io::Error) -> Ended {
        Ended
    }
}

/// Makes the runs that the input names, one after another, each with so many allocations ahead as the
/// input begins with.
pub fn run<R: Wait, I: Read, W: Write, E: Write>(
    rt: &R,
    alloc: Global,
    input: &mut I,
    output: &mut W,
    errors: &mut E,
) -> Result<(), Ended> {
    let mut buffer = [0u8; 64];
    let count = input.read(&mut buffer)?;
    let Ok(text) = std::str::from_utf8(&buffer[..count]) else {
        return Err(Ended);
    };
    let words = words(alloc, text.trim())?;
    let [ahead, names @ ..] = words.as_slice() else {
        return Err(Ended);
    };
    let ahead = read_u32(ahead).ok_or(Ended)?;
    for name in names {
        run_named(rt, alloc, name, ahead, output, errors)?;
    }
    Ok(())
}

fn run_named<R: Wait, W: Write, E: Write>(
    rt: &R,
    alloc: Global,
    name: &str,
    ahead: u32,
    output: &mut W,
    errors: &mut E,
) -> Result<(), Ended> {
    if name == "meetings" {
        return meetings::run(alloc, ahead, output, errors);
    }
    if name == "loops" {
        return loops::run(alloc, ahead, output, errors);
    }
    if name == "threads" {
        return threads::run(rt, alloc, ahead, output, errors);
    }
    if name == "client" {
        return client::run(alloc, ahead, output, errors);
    }
    Err(Ended)
}

/// Makes so many allocations, and gives each back at once.
pub fn allocate(alloc: Global, count: u32) -> Result<(), Ended> {
    for _ in 0..count {
        let _block = Vec::from_slice(alloc, &[0u8])?;
    }
    Ok(())
}

/// Prints bytes in hexadecimal. Takes no memory.
pub fn print_bytes<W: Write>(bytes: &[u8], output: &mut W) -> Result<(), Ended> {
    for byte in bytes {
        write!(output, "{byte:02x}")?;
    }
    Ok(())
}
