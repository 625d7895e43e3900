//! What a client asks and hears. Each call that is refused is made once more, so all of it is the same.

use crate::run::{Ended, TRIES, allocate, print_bytes};
use floor_client::{Ask, AskRefusal, Client, Frame, Heard, Numbers, Octets, ask_fits, render};
use floor_words::{read_hexadecimal, words};
use std::alloc::{AllocError, Global};
use std::io::Write;

/// A message that user 10 of conference 1 asks (RFC 8855, sections 5.3.1 and 5.3.11).
#[derive(Clone, Copy, Debug)]
enum Question {
    Hello,
    FloorRequest,
}

/// What comes behind the Hello: its answer twice, the second of which is astray.
const BEHIND_HELLO: &str = "\
200c0009 00000001 0001 000a 160f0102 03040506 0708090a 0b0c0d00 14140204 06080a0c 0e101214 16181a1c 1e202224
200c0009 00000001 0001 000a 160f0102 03040506 0708090a 0b0c0d00 14140204 06080a0c 0e101214 16181a1c 1e202224
";

/// What comes behind the FloorRequest: a notice, and its answer.
const BEHIND_REQUEST: &str = "\
20080001 00000001 0000 000a 04040001
20040009 00000001 0002 000a 1e240001 24080001 0a040300 22080001 0a040300 1c0c000a 1805416e 6e000000 08044000
";

/// Makes so many allocations, has a client ask and hear, and prints its messages and what it hears, and
/// what it is refused.
pub fn run<W: Write, E: Write>(
    alloc: Global,
    ahead: u32,
    output: &mut W,
    errors: &mut E,
) -> Result<(), Ended> {
    let behind_hello = frames(alloc, BEHIND_HELLO)?;
    let behind_request = frames(alloc, BEHIND_REQUEST)?;
    allocate(alloc, ahead)?;
    let mut client = Client::new(alloc, 1, 10);
    ask(alloc, &mut client, Question::Hello, output, errors)?;
    hear_all(alloc, &mut client, &behind_hello, output, errors)?;
    ask(alloc, &mut client, Question::FloorRequest, output, errors)?;
    hear_all(alloc, &mut client, &behind_request, output, errors)
}

/// The messages of the lines.
fn frames(alloc: Global, text: &str) -> Result<Vec<Frame>, Ended> {
    let mut frames = Vec::new(alloc);
    for line in text.lines() {
        frames.push(frame(alloc, line)?)?;
    }
    Ok(frames)
}

fn frame(alloc: Global, line: &str) -> Result<Frame, Ended> {
    let words = words(alloc, line)?;
    let Ok(bytes) = read_hexadecimal(alloc, words.as_slice()) else {
        return Err(Ended);
    };
    Frame::of(alloc, bytes.as_slice())?.ok_or(Ended)
}

fn ask_of(alloc: Global, question: Question) -> Result<Ask, AllocError> {
    match question {
        Question::Hello => Ok(Ask::Hello),
        Question::FloorRequest => {
            let floors = Numbers::from_vec(Vec::from_slice(alloc, &[1, 2])?);
            let info = Octets::from_vec(Vec::from_slice(alloc, b"my turn")?);
            Ok(Ask::FloorRequest {
                beneficiary: Some(11),
                floors,
                priority: 3,
                info: Some(info),
            })
        }
    }
}

/// The message that asks it, or `None` where it fits none.
fn asked(
    alloc: Global,
    client: &mut Client,
    question: Question,
) -> Result<Option<Frame>, AskRefusal> {
    let ask = ask_of(alloc, question)?;
    if !ask_fits(&ask) {
        return Ok(None);
    }
    let frame = client.ask(ask)?;
    Ok(Some(frame))
}

fn ask<W: Write, E: Write>(
    alloc: Global,
    client: &mut Client,
    question: Question,
    output: &mut W,
    errors: &mut E,
) -> Result<(), Ended> {
    for _ in 0..TRIES {
        match asked(alloc, client, question) {
            Ok(Some(frame)) => return print_asked(&frame, output),
            Ok(None) => return Err(Ended),
            Err(refusal) => writeln!(errors, "refused {} client", refusal.name())?,
        }
    }
    Ok(())
}

fn print_asked<W: Write>(frame: &Frame, output: &mut W) -> Result<(), Ended> {
    write!(output, "client asks ")?;
    print_bytes(frame.bytes(), output)?;
    writeln!(output)?;
    Ok(())
}

fn hear_all<W: Write, E: Write>(
    alloc: Global,
    client: &mut Client,
    frames: &[Frame],
    output: &mut W,
    errors: &mut E,
) -> Result<(), Ended> {
    for frame in frames {
        hear(alloc, client, frame, output, errors)?;
    }
    Ok(())
}

fn hear<W: Write, E: Write>(
    alloc: Global,
    client: &mut Client,
    frame: &Frame,
    output: &mut W,
    errors: &mut E,
) -> Result<(), Ended> {
    for _ in 0..TRIES {
        match client.heard(frame) {
            Ok(heard) => return print_heard(alloc, &heard, output, errors),
            Err(_) => writeln!(errors, "refused Memory client")?,
        }
    }
    Ok(())
}

fn print_heard<W: Write, E: Write>(
    alloc: Global,
    heard: &Heard,
    output: &mut W,
    errors: &mut E,
) -> Result<(), Ended> {
    for _ in 0..TRIES {
        match render(alloc, heard) {
            Ok(line) => {
                writeln!(output, "client hears {}", line.as_str())?;
                return Ok(());
            }
            Err(_) => writeln!(errors, "refused Memory client")?,
        }
    }
    Ok(())
}
