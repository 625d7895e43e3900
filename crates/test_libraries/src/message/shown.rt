//! Answers as a text to compare.

use crate::hexadecimal::payload;
use floor_message::{Ask, AskFault, Binding, Frame, Head, ask_fits, read_ask, write_ask};
use std::alloc::{AllocError, Global};

/// The users of the conference that all tests speak of.
const USERS: [u16; 3] = [10, 11, 12];

/// What the message asks of conference 1, on the connection of user 10.
pub fn asked(alloc: Global, frame: &Frame) -> Result<Option<Ask>, AskFault> {
    let users = USERS;
    let binding = Binding {
        conference: 1,
        user: 10,
        users: &users,
    };
    read_ask(alloc, frame, &binding)
}

/// The answer as a text: what is asked, an error code with its details, or `no answer`.
pub fn shown(alloc: Global, answer: &Result<Option<Ask>, AskFault>) -> Result<String, AllocError> {
    match answer {
        Ok(Some(ask)) => format!(in alloc; "{ask:?}"),
        Ok(None) => String::from_str(alloc, "no answer"),
        Err(AskFault::Error { code, details }) => {
            format!(in alloc; "{code:?} {:?}", details.as_slice())
        }
        Err(AskFault::Memory) => String::from_str(alloc, "no memory"),
    }
}

/// The bytes of a case's message, which stands behind `>`.
pub fn bytes_of(alloc: Global, case: &str) -> Result<Vec<u8>, AllocError> {
    let (_name, message) = case.split_once('>').unwrap_or((case, ""));
    payload(alloc, message)
}

/// The answer to a case's message, as a text.
pub fn answer(alloc: Global, case: &str) -> Result<String, AllocError> {
    answer_to_bytes(alloc, &bytes_of(alloc, case)?)
}

/// The answer to the message of these bytes, as a text.
pub fn answer_to_bytes(alloc: Global, bytes: &[u8]) -> Result<String, AllocError> {
    match Frame::of(alloc, bytes)? {
        None => String::from_str(alloc, "no message"),
        Some(frame) => shown(alloc, &asked(alloc, &frame)),
    }
}

/// The ask as user 10 writes it to conference 1, where it fits.
pub fn written(alloc: Global, transaction: u16, ask: &Ask) -> Result<Option<Frame>, AllocError> {
    let head = Head {
        conference: 1,
        transaction,
        user: 10,
    };
    if ask_fits(ask) {
        Ok(Some(write_ask(alloc, &head, ask)?))
    } else {
        Ok(None)
    }
}

/// Whether the message asks what this ask does.
pub fn is_read_back(alloc: Global, frame: &Frame, ask: &Ask) -> Result<bool, AllocError> {
    let found = shown(alloc, &asked(alloc, frame))?;
    let own = format!(in alloc; "{ask:?}")?;
    Ok(found.as_str() == own.as_str())
}
