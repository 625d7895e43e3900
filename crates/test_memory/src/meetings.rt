//! Three conferences of one hub hold meetings, a line of each in turn.

use crate::meeting::{CONFIGURATION, LONG, Meeting, SHORT};
use crate::run::{Ended, allocate};
use floor_config::{Config, read_configs};
use floor_hub::Hub;
use std::alloc::Global;
use std::io::Write;

/// The conferences in the order of opening, and their meetings. The middle one is unlucky: it goes
/// on whatever it is refused, and nothing of it is printed.
pub const MEETINGS: [(u32, &str); 3] = [(1, SHORT), (UNLUCKY, LONG), (3, SHORT)];

pub const UNLUCKY: u32 = 2;

/// Behind how many lines of the long meeting a line of the short ones is done.
const LONG_LINES: usize = 3;

/// How many turns there are: a line of the long meeting is done in each.
pub const TURNS: usize = 31;

/// How many parcels wait for a connection after one line at most.
const MAX_PARCELS: u32 = 1000;

/// Opens the conferences, makes so many allocations, holds the meetings, and prints what the lucky
/// conferences' connections are sent, and what the unlucky one is refused.
pub fn run<W: Write, E: Write>(
    alloc: Global,
    ahead: u32,
    output: &mut W,
    errors: &mut E,
) -> Result<(), Ended> {
    let mut hub = Hub::new(alloc);
    let mut meetings = open_all(alloc, &mut hub)?;
    allocate(alloc, ahead)?;
    for turn in 0..TURNS {
        for meeting in &mut meetings {
            if meeting.conference == UNLUCKY {
                go_on(alloc, &mut hub, meeting, turn, errors)?;
            } else {
                go_well(alloc, &mut hub, meeting, turn, output)?;
            }
        }
    }
    Ok(())
}

/// A turn of the unlucky conference: what it is refused is told.
fn go_on<E: Write>(
    alloc: Global,
    hub: &mut Hub,
    meeting: &mut Meeting,
    turn: usize,
    errors: &mut E,
) -> Result<(), Ended> {
    match meeting.play(alloc, hub, turn) {
        Ok(()) => Ok(()),
        Err(refusal) => {
            writeln!(errors, "refused {} meetings line {turn}", refusal.name())?;
            Ok(())
        }
    }
}

/// A turn of a lucky conference: what is sent is printed, and what is refused. Want of memory ends
/// the run.
fn go_well<W: Write>(
    alloc: Global,
    hub: &mut Hub,
    meeting: &mut Meeting,
    turn: usize,
    output: &mut W,
) -> Result<(), Ended> {
    let Some(place) = place_at(meeting.conference, turn) else {
        return Ok(());
    };
    match meeting.play(alloc, hub, place) {
        Ok(()) => print_waiting(alloc, hub, meeting, output),
        Err(refusal) if refusal.is_memory() => Err(Ended),
        Err(refusal) => {
            writeln!(output, "{} refused {}", meeting.conference, refusal.name())?;
            Ok(())
        }
    }
}

/// Which line of its meeting a conference does in a turn, if it does any.
pub fn place_at(conference: u32, turn: usize) -> Option<usize> {
    if conference == UNLUCKY {
        return Some(turn);
    }
    if turn % LONG_LINES != 0 {
        return None;
    }
    Some(turn / LONG_LINES)
}

/// Opens the conferences, at whose meetings nobody is yet.
fn open_all(alloc: Global, hub: &mut Hub) -> Result<Vec<Meeting>, Ended> {
    let mut meetings = Vec::new(alloc);
    for (conference, lines) in MEETINGS {
        open(alloc, hub, conference)?;
        let Ok(meeting) = Meeting::new(alloc, conference, lines) else {
            return Err(Ended);
        };
        meetings.push(meeting)?;
    }
    Ok(meetings)
}

/// Opens a conference.
fn open(alloc: Global, hub: &mut Hub, conference: u32) -> Result<(), Ended> {
    for config in configurations(alloc, conference)? {
        match hub.open(alloc, config) {
            Ok(()) => {}
            Err(_) => return Err(Ended),
        }
    }
    Ok(())
}

/// The configuration of a conference, and none besides.
pub fn configurations(alloc: Global, conference: u32) -> Result<Vec<Config>, Ended> {
    let text = format!(in alloc; "[[conference]]\nid = {conference}\n{CONFIGURATION}")?;
    let Ok(configs) = read_configs(alloc, text.as_str()) else {
        return Err(Ended);
    };
    Ok(configs)
}

/// Takes and prints the parcels that wait for the connections of a meeting: the conference, the
/// number of the connection in it, and the bytes.
fn print_waiting<W: Write>(
    alloc: Global,
    hub: &mut Hub,
    meeting: &Meeting,
    output: &mut W,
) -> Result<(), Ended> {
    for (place, connection) in meeting.connections().iter().enumerate() {
        for _ in 0..MAX_PARCELS {
            let Ok(Some(parcel)) = hub.take(*connection) else {
                break;
            };
            let header = hex::encode(alloc, parcel.header())?;
            let payload = hex::encode(alloc, parcel.payload())?;
            writeln!(
                output,
                "{} {} {}{}",
                meeting.conference,
                place.saturating_add(1),
                header.as_str(),
                payload.as_str()
            )?;
        }
    }
    Ok(())
}
