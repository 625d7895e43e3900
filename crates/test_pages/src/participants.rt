//! Who has which token, by a configuration's text.

use floor_web::{Participants, ParticipantsFault, read_participants};
use std::alloc::{AllocError, Global};
use std::fmt::Write;

/// The participants of a text, or its fault. Behind a line `---` stand tokens, and whose each is.
pub fn participants(alloc: Global, text: &str) -> Result<String, AllocError> {
    let (configuration, tokens) = text.split_once("---\n").unwrap_or((text, ""));
    let mut told = String::new(alloc);
    match read_participants(alloc, configuration) {
        Ok(participants) => push_found(&mut told, &participants, tokens)?,
        Err(fault) => push_fault(&mut told, fault)?,
    }
    Ok(told)
}

/// Appends how many participants there are, and whose each token is.
fn push_found(
    told: &mut String,
    participants: &Participants,
    tokens: &str,
) -> Result<(), AllocError> {
    write!(told, "participants {}\n", participants.len())?;
    for token in tokens.lines() {
        push_participant(told, participants, token)?;
    }
    Ok(())
}

fn push_participant(
    told: &mut String,
    participants: &Participants,
    token: &str,
) -> Result<(), AllocError> {
    match participants.find(token.as_bytes()) {
        None => told.push_str("nobody\n"),
        Some(found) => {
            let (conference, user) = (found.conference, found.user);
            write!(told, "conference {conference} user {user}")?;
            if let Some(port) = found.port {
                write!(told, " port {port}")?;
            }
            write!(told, "\n{}\n", found.meeting.as_str())
        }
    }
}

fn push_fault(told: &mut String, fault: ParticipantsFault) -> Result<(), AllocError> {
    told.push_str(fault.name())?;
    match fault {
        ParticipantsFault::WeakToken { conference, user }
        | ParticipantsFault::DoubleToken { conference, user } => {
            write!(told, " conference {conference} user {user}\n")
        }
        ParticipantsFault::Config(_) | ParticipantsFault::NoToken | ParticipantsFault::Memory => {
            told.push('\n')
        }
    }
}
