//! The cases of a file.
//!
//! An empty line parts one case from the next. A case is what it is, the bytes of a message, and
//! behind `= ` what they mean. A line `server` or `client` says who reads the messages below it, and
//! a line that begins with `#` is a comment.

use crate::fault::{Difference, Fault};
use crate::meaning::{to_client, to_server};
use floor_words::{read_hexadecimal, words};
use std::alloc::Global;
use std::fs;
use std::io::Write;
use std::rt::Files;

/// How many messages each of the two reads.
#[derive(Clone, Copy, Debug)]
struct Counts {
    server: u32,
    client: u32,
}

/// Who reads messages.
#[derive(Clone, Copy, Debug)]
enum Reader {
    Server,
    Client,
}

/// Reads the messages of a file, and prints how many there are.
pub fn read_file<R, W>(rt: &R, path: &str, output: &mut W) -> Result<(), Fault>
where
    R: Files + AllocGlobal,
    W: Write,
{
    let text = fs::read_to_string(rt, path)?;
    let counts = read_cases(rt.alloc(), text.as_str())?;
    writeln!(
        output,
        "{path}: {} to a server, {} to a client",
        counts.server, counts.client
    )?;
    Ok(())
}

/// Reads the messages of a text, and counts them.
fn read_cases(alloc: Global, text: &str) -> Result<Counts, Fault> {
    let mut counts = Counts {
        server: 0,
        client: 0,
    };
    let mut reader = None;
    for block in text.split("\n\n") {
        match block.trim() {
            "" => {}
            "server" => reader = Some(Reader::Server),
            "client" => reader = Some(Reader::Client),
            block if is_comment(block) => {}
            block => {
                let Some(reader) = reader else {
                    return Err(layout(alloc, block));
                };
                read_case(alloc, reader, block)?;
                counts = counted(counts, reader);
            }
        }
    }
    Ok(counts)
}

/// Whether each line is a comment.
fn is_comment(block: &str) -> bool {
    block.lines().all(|line| line.starts_with('#'))
}

/// The counts with one more for this reader.
fn counted(counts: Counts, reader: Reader) -> Counts {
    match reader {
        Reader::Server => Counts {
            server: counts.server.saturating_add(1),
            ..counts
        },
        Reader::Client => Counts {
            client: counts.client.saturating_add(1),
            ..counts
        },
    }
}

/// The fault of a text that is no case.
fn layout(alloc: Global, block: &str) -> Fault {
    match String::from_str(alloc, block) {
        Ok(block) => Fault::Layout(block),
        Err(_) => Fault::Memory,
    }
}

/// Reads the message of a case, which means what the case says.
fn read_case(alloc: Global, reader: Reader, block: &str) -> Result<(), Fault> {
    let Some((about, wanted)) = block.split_once("\n= ") else {
        return Err(layout(alloc, block));
    };
    let Some((case, bytes)) = about.split_once('\n') else {
        return Err(layout(alloc, block));
    };
    let mut spelled = Vec::new(alloc);
    for line in bytes.lines() {
        for word in words(alloc, line)? {
            spelled.push(word)?;
        }
    }
    let Ok(bytes) = read_hexadecimal(alloc, spelled.as_slice()) else {
        return Err(layout(alloc, block));
    };
    let found = match reader {
        Reader::Server => to_server(alloc, bytes.as_slice())?,
        Reader::Client => to_client(alloc, bytes.as_slice())?,
    };
    if found.as_str() == wanted {
        return Ok(());
    }
    Err(Fault::Differs(Difference {
        case: String::from_str(alloc, case)?,
        wanted: String::from_str(alloc, wanted)?,
        found,
    }))
}
