//! Which messages can be written: each limit, and what is one beyond it.

use crate::cases::{assert_told, differing, number, part};
use crate::hexadecimal::payload;
use floor_message::{
    Ask, FloorStatuses, Info, Infos, Tell, Verdict, Verdicts, Who, ask_fits, tell_fits,
};
use floor_wire::{Numbers, Octets};
use floor_words::read_u16;
use std::alloc::{AllocError, Global};

/// Each line: its name and the ask: a FloorRequest for the floors below a number, with a priority and
/// a text in pieces; a FloorQuery for floors; a ChairAction with a verdict on each floor below a
/// number, and on another, and a reason in pieces. Behind `=>` whether it fits.
const ASKS: &str = "\
no floor | FloorRequest | 0 | 2 => false
priority 4 | FloorRequest | 1 | 4 => true
priority 5 | FloorRequest | 1 | 5 => false
60,001 floors | FloorRequest | 60001 | 0 => false
an empty text | FloorRequest | 1 | 2 | 0 x 61 => false
a letter | FloorRequest | 1 | 2 | 1 x 61 => true
62 bytes | FloorRequest | 1 | 2 | 60 x 61, c3a9 => true
63 bytes | FloorRequest | 1 | 2 | 61 x 61, c3a9 => false
half a character | FloorRequest | 1 | 2 | 61 c3 => false
a floor twice | FloorQuery | 2 1 2 => false
three floors | FloorQuery | 2 1 3 => true
no verdict | ChairAction | 0 | - => false
31 verdicts | ChairAction | 30 | 99 => true
32 verdicts | ChairAction | 31 | 99 => false
a verdict on a floor twice | ChairAction | 2 | 0 => false
26 verdicts and a reason | ChairAction | 26 | - | 30 x 61 => true
27 verdicts and a reason | ChairAction | 27 | - | 1 x 61 => false
an empty reason | ChairAction | 1 | - | 0 x 61 => false
a reason of 30 bytes | ChairAction | 1 | - | 28 x 61, c3a9 => true
a reason of 31 bytes | ChairAction | 1 | - | 29 x 61, c3a9 => false
half a character as a reason | ChairAction | 1 | - | 61 c3 => false";

#[test]
fn an_ask_fits_up_to_its_limits(rt: HostRuntime) {
    let told = differing(rt.alloc(), ASKS, "\n", " => ", does_ask_fit);
    assert_told(&rt, told, "21 cases");
}

fn does_ask_fit(alloc: Global, case: &str) -> Result<String, AllocError> {
    let ask = match part(case, 1) {
        "FloorRequest" => floor_request(alloc, case)?,
        "FloorQuery" => floor_query(alloc, part(case, 2))?,
        _ => chair_action(alloc, case)?,
    };
    format!(in alloc; "{}", ask_fits(&ask))
}

fn floor_request(alloc: Global, case: &str) -> Result<Ask, AllocError> {
    let mut floors = Vec::new(alloc);
    for floor in 0..number(part(case, 2)) {
        floors.push(floor)?;
    }
    Ok(Ask::FloorRequest {
        beneficiary: None,
        floors: Numbers::from_vec(floors),
        priority: byte(part(case, 3)),
        info: text(alloc, part(case, 4))?,
    })
}

/// The text in pieces, where there are any.
fn text(alloc: Global, pieces: &str) -> Result<Option<Octets>, AllocError> {
    match pieces {
        "" => Ok(None),
        pieces => Ok(Some(Octets::from_vec(payload(alloc, pieces)?))),
    }
}

/// The number of at most 255 that a word writes.
fn byte(word: &str) -> u8 {
    number(word).min(255) as u8
}

fn floor_query(alloc: Global, words: &str) -> Result<Ask, AllocError> {
    let mut floors = Vec::new(alloc);
    for word in words.split(' ') {
        floors.push(number(word))?;
    }
    Ok(Ask::FloorQuery {
        floors: Numbers::from_vec(floors),
    })
}

fn chair_action(alloc: Global, case: &str) -> Result<Ask, AllocError> {
    let mut verdicts = Vec::new(alloc);
    for floor in 0..number(part(case, 2)) {
        verdicts.push((floor, Verdict::Accepted))?;
    }
    if let Some(other) = read_u16(part(case, 3)) {
        verdicts.push((other, Verdict::Denied))?;
    }
    Ok(Ask::ChairAction {
        request: 1,
        verdicts: Verdicts::from_vec(verdicts),
        reason: text(alloc, part(case, 4))?,
    })
}

/// Each line: its name and the tell: a UserStatus with a name of so many bytes; a FloorRequestStatus
/// with a priority and so many floors; an Error with so many details; a HelloAck with so many
/// primitives, so many attributes and one attribute more; a FloorStatus with so many requests of a
/// priority, or of none. Behind `=>` whether it fits.
const TELLS: &str = "\
a group of 252 bytes | UserStatus | 246 => true
a group of 256 bytes | UserStatus | 247 => false
priority 4 | FloorRequestStatus | 4 | 1 => true
priority 5 | FloorRequestStatus | 5 | 1 => false
30 floors | FloorRequestStatus | 0 | 30 => true
31 floors | FloorRequestStatus | 0 | 31 => false
252 details | Error | 252 => true
253 details | Error | 253 => false
253 primitives and attributes | HelloAck | 253 | 252 | 1 => true
254 primitives | HelloAck | 254 | 0 | 1 => false
254 attributes | HelloAck | 1 | 253 | 1 => false
attribute type 127 | HelloAck | 1 | 0 | 127 => true
attribute type 128 | HelloAck | 1 | 0 | 128 => false
65,535 units, two for each request | FloorStatus | 32767 | 4 => true
65,537 units, two for each request | FloorStatus | 32768 | 4 => false
65,535 units, one for each request | FloorStatus | 65534 | - => true
65,536 units, one for each request | FloorStatus | 65535 | - => false";

#[test]
fn a_tell_fits_up_to_its_limits(rt: HostRuntime) {
    let told = differing(rt.alloc(), TELLS, "\n", " => ", does_tell_fit);
    assert_told(&rt, told, "17 cases");
}

fn does_tell_fit(alloc: Global, case: &str) -> Result<String, AllocError> {
    let tell = match part(case, 1) {
        "UserStatus" => user_status(alloc, number(part(case, 2)))?,
        "FloorRequestStatus" => {
            let priority = Some(byte(part(case, 2)));
            let info = info(alloc, priority, number(part(case, 3)))?;
            Tell::FloorRequestStatus { info }
        }
        "Error" => Tell::Error {
            code: 4,
            details: Octets::from_vec(ones(alloc, number(part(case, 2)))?),
        },
        "HelloAck" => hello_ack(alloc, case)?,
        _ => floor_status(alloc, case)?,
    };
    format!(in alloc; "{}", tell_fits(&tell))
}

/// So many bytes of 1.
fn ones(alloc: Global, len: u16) -> Result<Vec<u8>, AllocError> {
    vec![in alloc; 1; usize::from(len)]
}

fn user_status(alloc: Global, len: u16) -> Result<Tell, AllocError> {
    let who = Who {
        user: 1,
        name: Some(Octets::from_vec(ones(alloc, len)?)),
        uri: None,
    };
    Ok(Tell::UserStatus {
        who: Some(who),
        infos: Infos::from_vec(Vec::new(alloc)),
    })
}

/// A request for floor 1, named so many times.
fn info(alloc: Global, priority: Option<u8>, floors: u16) -> Result<Info, AllocError> {
    let named = vec![in alloc; (1, Some((2, 0))); usize::from(floors)]?;
    Ok(Info {
        request: 1,
        overall: None,
        reason: None,
        floors: FloorStatuses::from_vec(named),
        beneficiary: None,
        requester: None,
        priority,
        info: None,
    })
}

fn hello_ack(alloc: Global, case: &str) -> Result<Tell, AllocError> {
    let mut kinds = ones(alloc, number(part(case, 3)))?;
    kinds.push(byte(part(case, 4)))?;
    let primitives = ones(alloc, number(part(case, 2)))?;
    Ok(Tell::HelloAck {
        primitives: Octets::from_vec(primitives),
        attributes: Octets::from_vec(kinds),
    })
}

fn floor_status(alloc: Global, case: &str) -> Result<Tell, AllocError> {
    let priority = match read_u16(part(case, 3)) {
        Some(priority) => Some(priority.min(255) as u8),
        None => None,
    };
    let mut infos = Vec::new(alloc);
    for _ in 0..number(part(case, 2)) {
        infos.push(info(alloc, priority, 0)?)?;
    }
    Ok(Tell::FloorStatus {
        floor: Some(1),
        infos: Infos::from_vec(infos),
    })
}
