//! Bytes and messages from hexadecimal, and bytes as hexadecimal.

use crate::cases::number;
use floor_wire::Frame;
use std::alloc::{AllocError, Global};

/// The bytes that pairs of hexadecimal digits say. All other characters are passed over.
pub fn bytes(alloc: Global, text: &str) -> Result<Vec<u8>, AllocError> {
    let mut out = Vec::new(alloc);
    let mut high = None;
    for character in text.as_bytes() {
        let digit = match *character {
            b'0'..=b'9' => *character - b'0',
            b'a'..=b'f' => *character - b'a' + 10,
            _ => continue,
        };
        match high {
            None => high = Some(digit.wrapping_mul(16)),
            Some(first) => {
                out.push(first | digit)?;
                high = None;
            }
        }
    }
    Ok(out)
}

/// The message of this hexadecimal, where it is one.
pub fn frame(alloc: Global, text: &str) -> Result<Option<Frame>, AllocError> {
    Frame::of(alloc, &bytes(alloc, text)?)
}

/// Bytes as hexadecimal, with a blank before each four.
pub fn spelled(alloc: Global, bytes: &[u8]) -> Result<String, AllocError> {
    let mut text = String::new(alloc);
    for four in bytes.chunks(4) {
        text.push(' ')?;
        text.push_str(&hex::encode(alloc, four)?)?;
    }
    Ok(text)
}

/// Groups of the type 15, each in the one before it, 63 deep.
pub fn deep_groups(alloc: Global) -> Result<Vec<u8>, AllocError> {
    let mut groups = Vec::new(alloc);
    for depth in 0..63u8 {
        groups.extend_from_slice(&[0x1e, 252 - 4 * depth, 0, 0])?;
    }
    Ok(groups)
}

/// The bytes of a payload that is written in pieces, with a comma between each two: hexadecimal, or
/// `31 x 2208#0a040300`, which is so many times these bytes, each with its place from 0 for `#`.
pub fn payload(alloc: Global, pieces: &str) -> Result<Vec<u8>, AllocError> {
    let mut out = Vec::new(alloc);
    for piece in pieces.split(',') {
        push_piece(alloc, &mut out, piece)?;
    }
    Ok(out)
}

fn push_piece(alloc: Global, out: &mut Vec<u8>, piece: &str) -> Result<(), AllocError> {
    let (count, words) = piece.split_once(" x ").unwrap_or(("1", piece));
    let (front, behind) = words.split_once('#').unwrap_or((words, ""));
    let has_place = words.contains('#');
    let front = bytes(alloc, front)?;
    let behind = bytes(alloc, behind)?;
    for place in 0..number(count.trim()) {
        out.extend_from_slice(&front)?;
        if has_place {
            out.extend_from_slice(&place.to_be_bytes())?;
        }
        out.extend_from_slice(&behind)?;
    }
    Ok(())
}
