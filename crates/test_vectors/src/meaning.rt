//! What a message means, as a line.

use floor_client::{Client, Heard, render};
use floor_message::{Ask, AskFault, Binding, Frame, Numbers, Octets, Verdict, read_ask};
use std::alloc::{AllocError, Global};
use std::fmt::Write;

/// The users of the conference of which all messages are.
const USERS: [u16; 3] = [10, 11, 12];

/// How many messages the client has asked: their responses are awaited.
const ASKED: u16 = 9;

/// What a message means to a server, on the connection of user 10 of conference 1.
pub fn to_server(alloc: Global, bytes: &[u8]) -> Result<String, AllocError> {
    let Some(frame) = Frame::of(alloc, bytes)? else {
        return String::from_str(alloc, "no message");
    };
    let users = USERS;
    let binding = Binding {
        conference: 1,
        user: 10,
        users: &users,
    };
    match read_ask(alloc, &frame, &binding) {
        Ok(Some(ask)) => asked(alloc, &ask),
        Ok(None) => String::from_str(alloc, "unanswered"),
        Err(AskFault::Memory) => Err(AllocError),
        Err(AskFault::Error { code, details }) => {
            let mut text = format!(in alloc; "Error {}", code.number())?;
            push_bytes(alloc, &mut text, "details", &details)?;
            Ok(text)
        }
    }
}

/// What a message means to a client, which is user 10 of conference 1 and waits for the responses to
/// its transactions 1 to 9.
pub fn to_client(alloc: Global, bytes: &[u8]) -> Result<String, AllocError> {
    let Some(frame) = Frame::of(alloc, bytes)? else {
        return String::from_str(alloc, "no message");
    };
    let mut client = Client::new(alloc, 1, 10);
    for _ in 0..ASKED {
        if client.ask(Ask::Hello).is_err() {
            return Err(AllocError);
        }
    }
    render(alloc, &client.heard(&frame)?)
}

/// What is asked, as a line.
fn asked(alloc: Global, ask: &Ask) -> Result<String, AllocError> {
    let mut text = String::new(alloc);
    match ask {
        Ask::FloorRequest {
            beneficiary,
            floors,
            priority,
            info,
        } => {
            text.push_str("FloorRequest")?;
            push_numbers(&mut text, "floor", floors)?;
            push_number(&mut text, "for", *beneficiary)?;
            write!(text, " priority {priority}")?;
            push_text(alloc, &mut text, "info", info)?;
        }
        Ask::FloorRelease { request } => write!(text, "FloorRelease request {request}")?,
        Ask::FloorRequestQuery { request } => write!(text, "FloorRequestQuery request {request}")?,
        Ask::UserQuery { beneficiary } => {
            text.push_str("UserQuery")?;
            push_number(&mut text, "user", *beneficiary)?;
        }
        Ask::FloorQuery { floors } => {
            text.push_str("FloorQuery")?;
            push_numbers(&mut text, "floor", floors)?;
        }
        Ask::ChairAction {
            request,
            verdicts,
            reason,
        } => {
            write!(text, "ChairAction request {request}")?;
            for (floor, verdict) in verdicts.as_slice() {
                write!(text, " floor {floor} {}", name_of(*verdict))?;
            }
            push_text(alloc, &mut text, "reason", reason)?;
        }
        Ask::Hello => text.push_str("Hello")?,
    }
    Ok(text)
}

/// The status that a verdict gives (RFC 8855, section 5.2.5).
fn name_of(verdict: Verdict) -> &'static str {
    match verdict {
        Verdict::Accepted => "Accepted",
        Verdict::Granted => "Granted",
        Verdict::Denied => "Denied",
        Verdict::Revoked => "Revoked",
    }
}

/// Appends each number behind a word.
fn push_numbers(text: &mut String, word: &str, numbers: &Numbers) -> Result<(), AllocError> {
    for number in numbers.as_slice() {
        write!(text, " {word} {number}")?;
    }
    Ok(())
}

/// Appends a number behind a word, where there is one.
fn push_number(text: &mut String, word: &str, number: Option<u16>) -> Result<(), AllocError> {
    match number {
        None => Ok(()),
        Some(number) => write!(text, " {word} {number}"),
    }
}

/// Appends the bytes of a text behind a word, where there is one.
fn push_text(
    alloc: Global,
    text: &mut String,
    word: &str,
    bytes: &Option<Octets>,
) -> Result<(), AllocError> {
    match bytes {
        None => Ok(()),
        Some(bytes) => push_bytes(alloc, text, word, bytes),
    }
}

/// Appends bytes in hexadecimal behind a word, where there are any.
fn push_bytes(
    alloc: Global,
    text: &mut String,
    word: &str,
    bytes: &Octets,
) -> Result<(), AllocError> {
    if bytes.as_slice().is_empty() {
        return Ok(());
    }
    let spelled = hex::encode(alloc, bytes.as_slice())?;
    write!(text, " {word} {}", spelled.as_str())
}
