//! What is watched of runs of one conference.

use crate::cases::{assert_told, number};
use crate::hexadecimal::frame;
use floor_control::{Config, Event, Floor, Text, User, Watcher};
use floor_machine::AddedUser;
use std::alloc::{AllocError, Global};

/// Each event, and behind a `>` the lines that it shows: users 10 and 11 ask for floor 1, one after another.
const ONE_FLOOR: &str = "\
join 10 > ! 1 1 joined 1 user 10|! 1 1 .|
message 1 20010001 00000001 0001000a 04040001 > ! 1 2 request 1 user 10 Granted:0 floors 1 reason -|! 1 2 .|
join 11 > ! 1 3 joined 2 user 11|! 1 3 .|
message 2 20010001 00000001 0001000b 04040001 > ! 1 4 request 2 user 11 Accepted:1 floors 1 reason -|! 1 4 .|
message 1 200b0000 00000001 0002000a > 
message 1 20020001 00000001 0003000a 06040001 > ! 1 6 request 1 user 10 Released:0 floors 1 reason -|! 1 6 request 2 user 11 Granted:0 floors 1 reason -|! 1 6 .|
took 1 1 > 
revoke 2 > ! 1 8 request 2 user 11 Revoked:0 floors 1 reason -|! 1 8 .|
leave 2 > ! 1 9 left 2 user 11|! 1 9 .|
user 13 > ! 1 10 user 13 proxy name 416e6e|! 1 10 .|
floor 5 11 > ! 1 11 floor 5 room 1 chair 11|! 1 11 .|
message 1 20010002 00000001 0004000a 04040001 04040005 > ! 1 12 request 3 user 10 Pending:0 floors 1:Accepted 5 reason -|! 1 12 .|
chair 5 > ! 1 13 chair 5 -|! 1 13 request 3 user 10 Granted:0 floors 1 5 reason -|! 1 13 .|
close > ! 1 14 closed|! 1 14 .|
join 10 > Ended";

#[test]
fn each_event_shows_its_lines(rt: HostRuntime) {
    assert_told(&rt, watched(rt.alloc(), false), ONE_FLOOR);
}

#[test]
fn an_event_behind_silent_ones_shows_the_same(rt: HostRuntime) {
    assert_told(&rt, watched(rt.alloc(), true), ONE_FLOOR);
}

/// The events of the run, each with what is watched of it; where it is asked so by a watcher of its own, which
/// takes those before it silently.
fn watched(alloc: Global, alone: bool) -> Result<String, AllocError> {
    let mut text = String::new(alloc);
    let mut events = Vec::new(alloc);
    let mut watcher = Watcher::new(alloc, Config::demonstration(alloc)?)?;
    for line in ONE_FLOOR.split('\n') {
        let (asked, _wanted) = line.split_once(" >").unwrap_or((line, ""));
        if !text.is_empty() {
            text.push('\n')?;
        }
        text.push_str(asked)?;
        text.push_str(" > ")?;
        if alone {
            watcher = behind(alloc, &events)?;
        }
        match event(alloc, asked)? {
            Some(event) => {
                add(alloc, &mut watcher, &event, &mut text)?;
                events.push(event)?;
            }
            None => text.push_str("no event")?,
        }
    }
    Ok(text)
}

/// A watcher that took these events silently.
fn behind(alloc: Global, events: &[Event]) -> Result<Watcher, AllocError> {
    let mut watcher = Watcher::new(alloc, Config::demonstration(alloc)?)?;
    for event in events {
        let copy = event.copy(alloc)?;
        let _passed = watcher.pass(&copy);
    }
    Ok(watcher)
}

/// Adds the lines of an event, each with a bar in place of its line feed, or why it isn't taken.
fn add(
    alloc: Global,
    watcher: &mut Watcher,
    event: &Event,
    text: &mut String,
) -> Result<(), AllocError> {
    let mut lines = String::new(alloc);
    match watcher.next(event, &mut lines) {
        Ok(()) => {}
        Err(refusal) => return text.push_str(refusal.name()),
    }
    for line in lines.split('\n') {
        if !line.is_empty() {
            text.push_str(line)?;
            text.push('|')?;
        }
    }
    Ok(())
}

/// The event that a line says.
fn event(alloc: Global, line: &str) -> Result<Option<Event>, AllocError> {
    let (word, rest) = line.split_once(' ').unwrap_or((line, ""));
    let (first, second) = rest.split_once(' ').unwrap_or((rest, ""));
    let n = u32::from(number(first));
    Ok(Some(match word {
        "join" => Event::Join {
            user: number(first),
        },
        "message" => match frame(alloc, second)? {
            Some(frame) => Event::Message { n, frame },
            None => return Ok(None),
        },
        "took" => Event::Took { n, k: 1 },
        "leave" => Event::Leave { n },
        "revoke" => Event::Revoke {
            request: number(first),
        },
        "close" => Event::Close,
        "user" => Event::AddUser {
            user: ann(alloc, number(first))?,
        },
        "floor" => Event::AddFloor {
            floor: Floor {
                id: number(first),
                room: 1,
                chair: Some(number(second)),
            },
        },
        "chair" => Event::SetChair {
            floor: number(first),
            chair: None,
        },
        _ => return Ok(None),
    }))
}

/// Ann, who may ask on behalf of others.
fn ann(alloc: Global, id: u16) -> Result<AddedUser, AllocError> {
    let user = User {
        id,
        name: Some(Text::from_string(String::from_str(alloc, "Ann")?)),
        uri: None,
        proxy: true,
        port: None,
    };
    AddedUser::new(alloc, user)
}
