//! Scripts that drive a session, or the sessions of users.
//!
//! - `begin 1 10 1200 10000 1`: a session of conference 1, user 10, of datagrams of 1,200 bytes at most,
//!   with 10,000 milliseconds of silence and a first request of Transaction ID 1.
//! - `peer 500 400b0000 ..`: at 500 milliseconds this datagram comes; `server 500 ..`: this piece of the
//!   server's stream; `time 500`: it is so late; `ended 500`: the server's stream ended; `lose 500` and
//!   `shut 500`: the session is ended.
//!
//! - `user 1 10 7 0`: user 10 of conference 1 may come from address 7, and from any port; `from 7 50000
//!   500 ..`: at 500 milliseconds this datagram comes from there. What becomes of it is printed first:
//!   `dropped`, `refused`, or its way, as `Begins`.
//!
//! What is to be sent is printed behind each line: `up` with the bytes for the server, `down` with each
//! datagram; and `end` with the name of the reason, once it has ended.

use bytes::Bytes;
use floor_datagram::{End, Session, Terms, error};
use floor_sessions::{Admission, Sessions, Source, User, admit};
use std::alloc::Global;
use std::io::Write;
use test_cases::{Fault, Runner};

/// Runs scripts.
#[derive(Drop)]
pub struct Scripts;

/// What a script drives: a session, and the sessions of users.
#[derive(Drop)]
struct Driven {
    session: Session,
    users: Vec<User>,
    sessions: Sessions,
}

impl Runner for Scripts {
    fn run(&mut self, alloc: Global, script: &str, printed: &mut Vec<u8>) -> Result<(), Fault> {
        let mut driven = Driven {
            session: begun(alloc, 1, 10, 1200, 10_000, 1)?,
            users: Vec::new(alloc),
            sessions: Sessions::new(alloc),
        };
        for line in script.lines() {
            if line.is_empty() || line.starts_with('#') {
                continue;
            }
            let (word, words) = line.split_once(' ').unwrap_or((line, ""));
            match word {
                "begin" => driven.session = begin(alloc, words)?,
                "user" => add_user(&mut driven, words)?,
                "from" => run_from(alloc, &mut driven, words, printed)?,
                _ => run_line(alloc, &mut driven.session, line, printed)?,
            }
        }
        Ok(())
    }
}

/// Adds a user.
fn add_user(driven: &mut Driven, words: &str) -> Result<(), Fault> {
    let mut numbers = words.split(' ').map(number_of);
    let conference = numbers.next().unwrap_or(0);
    let user = numbers.next().unwrap_or(0);
    let address = numbers.next().unwrap_or(0);
    let port = numbers.next().unwrap_or(0);
    if user > 65_535 || port > 65_535 {
        return Err(Fault::Layout("numbers of a user"));
    }
    let port = port as u16;
    driven.users.push(User {
        conference,
        user: user as u16,
        address: u128::from(address),
        port: if port == 0 { None } else { Some(port) },
    })?;
    driven.sessions.add()?;
    Ok(())
}

/// Takes a datagram that came from an address and a port, and prints what becomes of it.
fn run_from(
    alloc: Global,
    driven: &mut Driven,
    words: &str,
    printed: &mut Vec<u8>,
) -> Result<(), Fault> {
    let (address, words) = words.split_once(' ').unwrap_or((words, ""));
    let (port, words) = words.split_once(' ').unwrap_or((words, ""));
    let (now, hexadecimal) = words.split_once(' ').unwrap_or((words, ""));
    let port = number_of(port);
    let now = u64::from(number_of(now));
    let datagram = bytes_of(alloc, hexadecimal)?;
    if port > 65_535 {
        return Err(Fault::Layout("a port"));
    }
    let from = Source {
        address: u128::from(number_of(address)),
        port: port as u16,
    };
    let mut up = Vec::new(alloc);
    let mut down = Vec::new(alloc);
    match admit(driven.users.as_slice(), from, &datagram) {
        Admission::Dropped => {
            let _written = writeln!(printed, "dropped");
        }
        Admission::Refused(code) if datagram.len() >= 12 => {
            let _written = writeln!(printed, "refused");
            down.push(error(alloc, code, &datagram)?)?;
        }
        Admission::Admitted(place) if datagram.len() >= 12 && place < driven.sessions.len() => {
            let terms = Terms {
                conference: 1,
                user: 10,
                limit: 1200,
                probe: 10_000,
            };
            let way = driven.sessions.way(place, from, &datagram, now);
            let _written = writeln!(printed, "{way:?}");
            driven.sessions.datagram(place, way, terms, from, &datagram, now, &mut up, &mut down)?;
        }
        _ => return Err(Fault::Layout("a datagram")),
    }
    print(alloc, &up, &down, printed)
}

/// The bytes of hexadecimal.
fn bytes_of(alloc: Global, hexadecimal: &str) -> Result<Vec<u8>, Fault> {
    let digits = hexadecimal.replace(alloc, " ", "")?;
    match hex::decode(alloc, digits.as_bytes()) {
        Ok(bytes) => Ok(bytes),
        Err(_) => Err(Fault::Layout("no bytes")),
    }
}

/// The session that these numbers begin.
fn begin(alloc: Global, words: &str) -> Result<Session, Fault> {
    let mut numbers = words.split(' ').map(number_of);
    let conference = numbers.next().unwrap_or(0);
    let user = numbers.next().unwrap_or(0);
    let limit = numbers.next().unwrap_or(0);
    let probe = numbers.next().unwrap_or(0);
    let first = numbers.next().unwrap_or(0);
    begun(alloc, conference, user, limit, probe, first)
}

fn begun(
    alloc: Global,
    conference: u32,
    user: u32,
    limit: u32,
    probe: u32,
    first: u32,
) -> Result<Session, Fault> {
    if limit < 576 || limit > 8192 || user > 65_535 || first > 65_535 {
        return Err(Fault::Layout("numbers of a session"));
    }
    let terms = Terms {
        conference,
        user: user as u16,
        limit: limit as usize,
        probe: u64::from(probe),
    };
    Ok(Session::new(alloc, terms, first as u16, 0))
}

/// A number, or 0.
fn number_of(word: &str) -> u32 {
    match word.parse() {
        Ok(number) => number,
        Err(_) => 0,
    }
}

/// Runs a line, and prints what is to be sent.
fn run_line(
    alloc: Global,
    session: &mut Session,
    line: &str,
    printed: &mut Vec<u8>,
) -> Result<(), Fault> {
    let (word, words) = line.split_once(' ').unwrap_or((line, ""));
    let (now, hexadecimal) = words.split_once(' ').unwrap_or((words, ""));
    let now = u64::from(number_of(now));
    let bytes = bytes_of(alloc, hexadecimal)?;
    let had_ended = session.end().is_some();
    let mut up = Vec::new(alloc);
    let mut down = Vec::new(alloc);
    apply(session, word, now, &bytes, &mut up, &mut down)?;
    print(alloc, &up, &down, printed)?;
    match session.end() {
        Some(end) if !had_ended => {
            let _written = writeln!(printed, "end {}", end.name());
        }
        _ => {}
    }
    Ok(())
}

/// Calls the session as a line says.
fn apply(
    session: &mut Session,
    word: &str,
    now: u64,
    bytes: &[u8],
    up: &mut Vec<u8>,
    down: &mut Vec<Bytes>,
) -> Result<(), Fault> {
    match word {
        "peer" if bytes.len() >= 12 => session.datagram(bytes, now, up, down)?,
        "server" => session.server(bytes, now, down)?,
        "ended" => session.server_ended(now, down)?,
        "time" => session.time(now, up, down)?,
        "lose" => session.lose(End::Moved, now, up, down)?,
        "shut" => session.shut_out(End::ShutOut, now, up, down)?,
        _ => return Err(Fault::Layout("no line of a script")),
    }
    Ok(())
}

/// Prints what is to be sent.
fn print(alloc: Global, up: &[u8], down: &Vec<Bytes>, printed: &mut Vec<u8>) -> Result<(), Fault> {
    if !up.is_empty() {
        let text = hex::encode(alloc, up)?;
        let _written = writeln!(printed, "up {text}");
    }
    for datagram in down {
        let text = hex::encode(alloc, datagram.as_slice())?;
        let _written = writeln!(printed, "down {text}");
    }
    Ok(())
}
