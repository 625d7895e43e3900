//! Many payloads of one word: what they ask is read back where it is written.

use super::shown::{asked, is_read_back, written};
use crate::cases::assert_told;
use crate::framed::message;
use floor_message::{Ask, Frame};
use std::alloc::{AllocError, Global};
use std::fmt::Write;

const PRIMITIVES: [u8; 8] = [1, 2, 3, 4, 5, 7, 9, 11];

/// How many of the payloads ask something of user 10, by each of the primitives. Before it the payloads
/// whose ask isn't read back where it is written.
fn told_of_payloads(alloc: Global, payloads: &[[u8; 4]]) -> Result<String, AllocError> {
    let mut told = String::new(alloc);
    let mut asks = 0u32;
    for primitive in PRIMITIVES {
        for payload in payloads {
            if is_asked(alloc, &mut told, primitive, payload)? {
                asks = asks.saturating_add(1);
            }
        }
    }
    write!(told, "{asks} asks")?;
    Ok(told)
}

/// Whether something is asked by a primitive and a payload.
fn is_asked(
    alloc: Global,
    told: &mut String,
    primitive: u8,
    payload: &[u8],
) -> Result<bool, AllocError> {
    match ask_of(alloc, &message(alloc, primitive, 1, payload)?)? {
        None => Ok(false),
        Some(ask) => {
            if !is_written_back(alloc, &ask)? {
                write!(told, "{primitive} {payload:?}, ")?;
            }
            Ok(true)
        }
    }
}

/// What the message of these bytes asks, where it asks something.
fn ask_of(alloc: Global, bytes: &[u8]) -> Result<Option<Ask>, AllocError> {
    match Frame::of(alloc, bytes)? {
        None => Ok(None),
        Some(frame) => match asked(alloc, &frame) {
            Ok(ask) => Ok(ask),
            Err(_) => Ok(None),
        },
    }
}

/// Whether the ask fits, and is read back where it is written.
fn is_written_back(alloc: Global, ask: &Ask) -> Result<bool, AllocError> {
    match written(alloc, 1, ask)? {
        None => Ok(false),
        Some(frame) => is_read_back(alloc, &frame, ask),
    }
}

const TYPES: [u8; 16] = [
    0x00, 0x01, 0x02, 0x04, 0x05, 0x06, 0x08, 0x0a, 0x10, 0x1c, 0x1e, 0x20, 0x22, 0x24, 0x28, 0x29,
];

const LENGTHS: [u8; 7] = [0, 1, 2, 3, 4, 5, 8];

const CONTENTS: [[u8; 2]; 7] = [
    [0, 0],
    [0, 1],
    [0x20, 0],
    [0x61, 0x62],
    [0x80, 0],
    [0xc3, 0xa9],
    [0xff, 0xff],
];

/// An attribute of each type, length and contents.
fn attributes(alloc: Global) -> Result<Vec<[u8; 4]>, AllocError> {
    let mut attributes = Vec::new(alloc);
    for kind in TYPES {
        for len in LENGTHS {
            for [first, second] in CONTENTS {
                attributes.push([kind, len, first, second])?;
            }
        }
    }
    Ok(attributes)
}

#[test]
fn what_an_attribute_of_any_type_and_length_asks_is_read_back(
    rt: HostRuntime,
) -> Result<(), AllocError> {
    // UserQuery, FloorQuery and Hello need no attribute: 140 words are attributes that keep their
    // shape without an unknown mandatory one. FloorRequest needs FLOOR-ID, with M or without (14),
    // FloorRelease and FloorRequestQuery need FLOOR-REQUEST-ID (7 each). So there are
    // 3 * 140 + 14 + 7 + 7 asks.
    let told = told_of_payloads(rt.alloc(), &attributes(rt.alloc())?);
    assert_told(&rt, told, "448 asks");
    Ok(())
}

const LETTERS: [u8; 8] = [0x00, 0x02, 0x04, 0x06, 0x08, 0x10, 0x1e, 0xff];

/// Each word of four letters.
fn four_letters(alloc: Global) -> Result<Vec<[u8; 4]>, AllocError> {
    let mut words = Vec::new(alloc);
    for first in LETTERS {
        for second in LETTERS {
            for third in LETTERS {
                for fourth in LETTERS {
                    words.push([first, second, third, fourth])?;
                }
            }
        }
    }
    Ok(words)
}

#[test]
fn what_any_payload_of_four_letters_asks_is_read_back(rt: HostRuntime) -> Result<(), AllocError> {
    // UserQuery, FloorQuery and Hello are asked by 576 words, 64 for each type of the alphabet and
    // each Length that it may have. FloorRequest, FloorRelease and FloorRequestQuery need one type,
    // of Length 4. So there are 3 * 576 + 3 * 64 asks.
    let told = told_of_payloads(rt.alloc(), &four_letters(rt.alloc())?);
    assert_told(&rt, told, "1920 asks");
    Ok(())
}

#[test]
fn three_primitives_ask_without_a_payload(rt: HostRuntime) {
    // UserQuery, FloorQuery and Hello.
    assert_told(&rt, told_of_none(rt.alloc()), "3 asks");
}

fn told_of_none(alloc: Global) -> Result<String, AllocError> {
    let mut told = String::new(alloc);
    let mut asks = 0u32;
    for primitive in PRIMITIVES {
        if is_asked(alloc, &mut told, primitive, &[])? {
            asks = asks.saturating_add(1);
        }
    }
    write!(told, "{asks} asks")?;
    Ok(told)
}
