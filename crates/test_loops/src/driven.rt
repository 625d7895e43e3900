//! What a server does for a loop, with sockets that take all that they are given.

use crate::calls::{Ended, attach, configuration, leave, open, read, watch, write};
use crate::words::{Run, Turn};
use floor_loop::{ConnNo, Loop};
use std::alloc::{AllocError, Global};

/// A Hello of user 10 (RFC 8855, section 5.3.11).
const HELLO: [u8; 12] = [0x20, 11, 0, 0, 0, 0, 0, 1, 0, 1, 0, 10];

/// User 11 watches floor 1 (section 5.3.7).
const WATCH: [u8; 16] = [0x20, 7, 0, 1, 0, 0, 0, 1, 0, 1, 0, 11, 0x04, 4, 0, 1];

/// User 10 asks for floor 1 (section 5.3.1).
const REQUEST: [u8; 16] = [0x20, 1, 0, 1, 0, 0, 0, 1, 0, 1, 0, 10, 0x04, 4, 0, 1];

/// How often a read goes on, how many connections are ready behind one, and how often a socket takes what is on
/// its way to it, at most.
const MAX_TIMES: u32 = 1_000;

/// Has the first member send the messages of all turns, and gives how many bytes the sockets took of what
/// they tell.
pub fn run(alloc: Global, run: Run) -> Result<u64, Ended> {
    let mut serving = Loop::new(alloc);
    open_one(&mut serving, alloc)?;
    let first = attach(&mut serving, alloc, 10)?;
    attach_others(&mut serving, alloc, run)?;
    let _told = write_all(&mut serving);
    if run.is_watched {
        watch(&mut serving)?;
    }
    match run.turn {
        Turn::Hello | Turn::Pair => send_all(&mut serving, alloc, run, first),
        Turn::Coming => come_all(&mut serving, alloc, run),
    }
}

fn open_one(serving: &mut Loop, alloc: Global) -> Result<(), Ended> {
    match configuration(alloc) {
        Some(config) => open(serving, alloc, config),
        None => Err(Ended),
    }
}

/// Attaches all members but the first: connections of user 11, some of which watch floor 1.
fn attach_others(serving: &mut Loop, alloc: Global, run: Run) -> Result<(), Ended> {
    for place in 1..run.members {
        attach_other(serving, alloc, place <= run.watching)?;
    }
    Ok(())
}

fn attach_other(serving: &mut Loop, alloc: Global, watches: bool) -> Result<(), Ended> {
    let other = attach(serving, alloc, 11)?;
    if watches {
        return receive(serving, other, &WATCH);
    }
    Ok(())
}

/// Has a connection send all messages, so many at a time.
fn send_all(serving: &mut Loop, alloc: Global, run: Run, connection: ConnNo) -> Result<u64, Ended> {
    let mut bytes = Vec::new(alloc);
    let mut waiting = 0u32;
    let mut taken = 0u64;
    for place in 0..run.messages() {
        push_message(&mut bytes, run.turn, place)?;
        waiting = waiting.wrapping_add(1);
        if run.depth <= waiting {
            let told = exchange(serving, connection, bytes.as_slice(), run)?;
            taken = taken.wrapping_add(told);
            bytes.clear();
            waiting = 0;
        }
    }
    let last = exchange(serving, connection, bytes.as_slice(), run)?;
    Ok(taken.wrapping_add(last))
}

/// Has connections come, say Hello and leave, one after another.
fn come_all(serving: &mut Loop, alloc: Global, run: Run) -> Result<u64, Ended> {
    let mut taken = 0u64;
    for _ in 0..run.turns {
        taken = taken.wrapping_add(come(serving, alloc, run)?);
    }
    Ok(taken)
}

fn come(serving: &mut Loop, alloc: Global, run: Run) -> Result<u64, Ended> {
    let connection = attach(serving, alloc, 10)?;
    let taken = exchange(serving, connection, &HELLO, run)?;
    leave(serving, connection)?;
    Ok(taken)
}

/// Puts the message at this place behind those that come with it.
fn push_message(bytes: &mut Vec<u8>, turn: Turn, place: u32) -> Result<(), AllocError> {
    match turn {
        Turn::Hello | Turn::Coming => bytes.extend_from_slice(&HELLO),
        Turn::Pair if place % 2 == 0 => bytes.extend_from_slice(&REQUEST),
        Turn::Pair => bytes.extend_from_slice(&release_of(place / 2)),
    }
}

/// User 10's FloorRelease of the request that was the first but so many (section 5.3.2).
fn release_of(before: u32) -> [u8; 16] {
    let [_, _, high, low] = before.wrapping_add(1).to_be_bytes();
    [0x20, 2, 0, 1, 0, 0, 0, 1, 0, 1, 0, 10, 0x06, 4, high, low]
}

/// Hands in what came from a connection, writes what that tells, and gives how many bytes the sockets took.
fn exchange(serving: &mut Loop, connection: ConnNo, bytes: &[u8], run: Run) -> Result<u64, Ended> {
    receive(serving, connection, bytes)?;
    let taken = write_all(serving);
    if run.is_watched {
        serving.clear_news();
    }
    Ok(taken)
}

/// Hands in what came from a connection, and reads on while more may wait.
fn receive(serving: &mut Loop, connection: ConnNo, bytes: &[u8]) -> Result<(), Ended> {
    let mut more = read(serving, connection, bytes)?;
    for _ in 0..MAX_TIMES {
        if !more {
            break;
        }
        more = read(serving, connection, &[])?;
    }
    Ok(())
}

/// Writes to each connection that has something to write, and gives how many bytes they took.
fn write_all(serving: &mut Loop) -> u64 {
    let mut taken = 0u64;
    for _ in 0..MAX_TIMES {
        match serving.ready() {
            Some(number) => taken = taken.wrapping_add(write_to_end(serving, number)),
            None => break,
        }
    }
    taken
}

/// Has the socket of a connection take all that is to be written to it, and gives how many bytes it took.
fn write_to_end(serving: &mut Loop, number: ConnNo) -> u64 {
    let mut taken = 0u64;
    for _ in 0..MAX_TIMES {
        let count = write(serving, number);
        if count == 0 {
            break;
        }
        taken = taken.wrapping_add(count as u64);
    }
    taken
}
