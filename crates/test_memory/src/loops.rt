//! Three conferences of a loop hold the meetings of `meetings`, and all is done for it that a server
//! does: each socket takes some bytes at a time, and whoever is to be shut down is, and leaves.

use crate::meeting::{Line, Meeting};
use crate::meetings::{MEETINGS, TURNS, UNLUCKY, configurations, place_at};
use crate::run::{Ended, allocate, print_bytes};
use floor_loop::{ConnNo, HubRefusal, Loop};
use floor_script::Command;
use std::alloc::Global;
use std::io::Write;

/// How many bytes a socket takes at most at a time.
const MAX_TAKEN: usize = 100;

/// How often a read goes on, how many connections are ready behind a turn, and how often a socket takes
/// bytes of what is on its way to it, at most.
const MAX_TIMES: u32 = 1_000;

/// Opens the conferences, makes so many allocations, holds the meetings, and prints what the sockets of
/// the lucky conferences' connections take, and tells what those of the unlucky one take, and what it is
/// refused.
pub fn run<W: Write, E: Write>(
    alloc: Global,
    ahead: u32,
    output: &mut W,
    errors: &mut E,
) -> Result<(), Ended> {
    let mut serving = Loop::new(alloc);
    let mut meetings = open_all(alloc, &mut serving)?;
    allocate(alloc, ahead)?;
    for turn in 0..TURNS {
        for meeting in &mut meetings {
            go_on(alloc, &mut serving, meeting, turn, output, errors)?;
        }
        write_all(&mut serving, meetings.as_slice(), output, errors)?;
    }
    tell_end(&serving, errors)
}

/// Opens the conferences, at whose meetings nobody is yet.
fn open_all(alloc: Global, serving: &mut Loop) -> Result<Vec<Meeting>, Ended> {
    let mut meetings = Vec::new(alloc);
    for (conference, lines) in MEETINGS {
        open(alloc, serving, conference)?;
        let Ok(meeting) = Meeting::new(alloc, conference, lines) else {
            return Err(Ended);
        };
        meetings.push(meeting)?;
    }
    Ok(meetings)
}

fn open(alloc: Global, serving: &mut Loop, conference: u32) -> Result<(), Ended> {
    for config in configurations(alloc, conference)? {
        match serving.open(alloc, config) {
            Ok(()) => {}
            Err(_) => return Err(Ended),
        }
    }
    Ok(())
}

/// A turn of a conference. What a lucky one is refused is printed, and want of memory ends the run; what
/// the unlucky one is refused is told.
fn go_on<W: Write, E: Write>(
    alloc: Global,
    serving: &mut Loop,
    meeting: &mut Meeting,
    turn: usize,
    output: &mut W,
    errors: &mut E,
) -> Result<(), Ended> {
    let conference = meeting.conference;
    let Some(place) = place_at(conference, turn) else {
        return Ok(());
    };
    match play(alloc, serving, meeting, place) {
        Ok(()) => {}
        Err(refusal) if conference == UNLUCKY => {
            writeln!(errors, "refused {} loops line {turn}", refusal.name())?;
        }
        Err(refusal) if refusal.is_memory() => return Err(Ended),
        Err(refusal) => {
            writeln!(output, "loops {conference} refused {}", refusal.name())?;
        }
    }
    Ok(())
}

/// Does the line of a meeting at this place, if there is one. What is acknowledged the loop decides.
fn play(
    alloc: Global,
    serving: &mut Loop,
    meeting: &mut Meeting,
    place: usize,
) -> Result<(), HubRefusal> {
    let (conference, user) = match meeting.line(place) {
        Some(Line::Script(Command::Attach { conference, user })) => (*conference, *user),
        Some(Line::Script(command)) => return carry_out(alloc, serving, meeting, command),
        Some(Line::Took { .. }) | None => return Ok(()),
    };
    let connection = serving.attach(alloc, conference, user, 0)?;
    meeting.add(connection)
}

/// What a line asks for that attaches nobody.
fn carry_out(
    alloc: Global,
    serving: &mut Loop,
    meeting: &Meeting,
    command: &Command,
) -> Result<(), HubRefusal> {
    match command {
        Command::Send { connection, bytes } => match meeting.connection(*connection) {
            Some(connection) => receive(serving, connection, bytes.as_slice()),
            None => Ok(()),
        },
        Command::Leave { connection } => match meeting.connection(*connection) {
            Some(connection) => serving.leave(connection, 0),
            None => Ok(()),
        },
        Command::Admin { conference, act } => match act.copy(alloc) {
            Ok(act) => serving.admin(*conference, act, 0),
            Err(_) => Err(HubRefusal::Memory),
        },
        Command::Say {
            conference,
            user,
            message,
        } => match serving.say(alloc, *conference, *user, message.as_slice(), 0) {
            Ok(_said) => Ok(()),
            Err(refusal) => Err(refusal),
        },
        _ => Ok(()),
    }
}

/// Hands in what came from a connection, and reads on while more may wait.
fn receive(serving: &mut Loop, connection: ConnNo, bytes: &[u8]) -> Result<(), HubRefusal> {
    let mut more = serving.read(connection, bytes, 64, 0)?;
    for _ in 0..MAX_TIMES {
        if !more {
            break;
        }
        more = serving.read(connection, &[], 64, 0)?;
    }
    Ok(())
}

/// Writes to each connection that has something to write, and shuts those down that are to be.
fn write_all<W: Write, E: Write>(
    serving: &mut Loop,
    meetings: &[Meeting],
    output: &mut W,
    errors: &mut E,
) -> Result<(), Ended> {
    for _ in 0..MAX_TIMES {
        let Some(connection) = serving.ready() else {
            break;
        };
        let (conference, number) = place_of(meetings, connection);
        write(serving, connection, conference, number, output, errors)?;
        match serving.until(connection) {
            Some(until) => shut_down(serving, connection, until, conference, number, errors)?,
            None => {}
        }
    }
    Ok(())
}

/// The conference of a connection, and as which one of its meeting it was attached; 0 where it is none
/// of theirs, since memory was refused to the meeting of the unlucky one.
fn place_of(meetings: &[Meeting], connection: ConnNo) -> (u32, usize) {
    for meeting in meetings {
        match meeting.number_of(connection) {
            Some(number) => return (meeting.conference, number),
            None => {}
        }
    }
    (UNLUCKY, 0)
}

/// Has the socket of a connection take all that is to be written to it.
fn write<W: Write, E: Write>(
    serving: &mut Loop,
    connection: ConnNo,
    conference: u32,
    number: usize,
    output: &mut W,
    errors: &mut E,
) -> Result<(), Ended> {
    for _ in 0..MAX_TIMES {
        let bytes = serving.writing(connection);
        let count = bytes.len().min(MAX_TAKEN);
        if count == 0 {
            break;
        }
        if conference == UNLUCKY {
            write!(errors, "taken {number} ")?;
            print_bytes(&bytes[..count], errors)?;
            writeln!(errors)?;
        } else {
            write!(output, "loops {conference} {number} ")?;
            print_bytes(&bytes[..count], output)?;
            writeln!(output)?;
        }
        serving.wrote(connection, count, 0);
    }
    Ok(())
}

/// Shuts a connection down, which is to be by a time, and leaves. In a lucky conference, which isn't
/// closed, none is, unless it has met want of memory, which ends the run. In the unlucky one it is
/// told, with how that stands, unless that was closed and what was on its way was written.
fn shut_down<E: Write>(
    serving: &mut Loop,
    connection: ConnNo,
    until: u64,
    conference: u32,
    number: usize,
    errors: &mut E,
) -> Result<(), Ended> {
    if conference != UNLUCKY {
        return Err(Ended);
    }
    let phase = phase_of(serving)?;
    if phase != "ended" || until == 0 {
        writeln!(errors, "refused {phase} loops connection {number}")?;
    }
    match serving.leave(connection, 0) {
        Ok(()) => {}
        Err(refusal) => writeln!(errors, "refused {} loops leave", refusal.name())?,
    }
    Ok(())
}

/// How the unlucky conference stands: open, ended or broken.
fn phase_of(serving: &Loop) -> Result<&'static str, Ended> {
    match serving.status(UNLUCKY) {
        Ok(status) => Ok(status.phase.name()),
        Err(_) => Err(Ended),
    }
}

/// Tells how the unlucky conference ends, and with how many connections, unless it was closed.
fn tell_end<E: Write>(serving: &Loop, errors: &mut E) -> Result<(), Ended> {
    let phase = phase_of(serving)?;
    let count = match serving.members(UNLUCKY) {
        Ok(members) => members.len(),
        Err(_) => return Err(Ended),
    };
    if phase != "ended" || count != 0 {
        writeln!(errors, "refused {phase} loops end {count}")?;
    }
    Ok(())
}
