//! Messages as lines.

use floor_client::{Frame, Head, Heard, Tell, render};
use floor_machine::Parcel;
use floor_message::{TellFault, read_tell};
use std::alloc::{AllocError, Global};
use std::fmt::Write;

/// What of the messages is told.
#[derive(Clone, Copy, Debug)]
pub struct Telling {
    /// The one member whose messages are told; those of all where none is said.
    pub member: Option<u32>,
    /// As text, not in hexadecimal.
    pub as_text: bool,
}

/// Adds a line for each of the messages that an event told, where it is told.
pub fn add_told(
    alloc: Global,
    place: u32,
    parcels: &[Parcel],
    telling: Telling,
    lines: &mut String,
) -> Result<(), AllocError> {
    for parcel in parcels {
        let n = parcel.n();
        if telling.member.is_some_and(|member| member != n) {
            continue;
        }
        if telling.as_text {
            let text = text_of(alloc, parcel)?;
            write!(lines, "{place} {n} {}\n", text.as_str())?;
        } else {
            let header = hex::encode(alloc, parcel.header())?;
            let payload = hex::encode(alloc, parcel.payload())?;
            write!(
                lines,
                "{place} {n} {}{}\n",
                header.as_str(),
                payload.as_str()
            )?;
        }
    }
    Ok(())
}

/// A message as a client prints it: a response where it bears a number.
fn text_of(alloc: Global, parcel: &Parcel) -> Result<String, AllocError> {
    let heard = match read_of(alloc, parcel)? {
        Some((head, tell)) if head.transaction == 0 => Heard::Notice(tell),
        Some((head, tell)) => Heard::Reply(head.transaction, tell),
        None => Heard::BadMessage,
    };
    render(alloc, &heard)
}

/// What a message tells.
pub fn tell_of(alloc: Global, parcel: &Parcel) -> Result<Option<Tell>, AllocError> {
    match read_of(alloc, parcel)? {
        Some((_head, tell)) => Ok(Some(tell)),
        None => Ok(None),
    }
}

/// A message's head, and what it tells.
fn read_of(alloc: Global, parcel: &Parcel) -> Result<Option<(Head, Tell)>, AllocError> {
    let mut bytes = Vec::new(alloc);
    bytes.extend_from_slice(parcel.header())?;
    bytes.extend_from_slice(parcel.payload())?;
    let Some(frame) = Frame::of(alloc, bytes.as_slice())? else {
        return Ok(None);
    };
    match read_tell(alloc, &frame) {
        Ok(read) => Ok(Some(read)),
        Err(TellFault::BadMessage) => Ok(None),
        Err(TellFault::Memory) => Err(AllocError),
    }
}
