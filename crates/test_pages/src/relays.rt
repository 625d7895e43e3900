//! Relays between a browser's WebSocket and a server's stream, whose bytes come cut everywhere.

use floor_web::{Relay, Side};
use floor_words::{read_hexadecimal, words};
use std::alloc::{AllocError, Global};
use std::fmt::Write;

/// The bytes that words of hexadecimal spell; none where they spell none.
fn bytes(alloc: Global, text: &str) -> Result<Vec<u8>, AllocError> {
    match read_hexadecimal(alloc, &words(alloc, text)?) {
        Ok(bytes) => Ok(bytes),
        Err(_) => Ok(Vec::new(alloc)),
    }
}

/// Appends bytes in hexadecimal behind a word.
fn push_bytes(
    alloc: Global,
    told: &mut String,
    word: &str,
    bytes: &[u8],
) -> Result<(), AllocError> {
    told.push_str(word)?;
    told.push_str(hex::encode(alloc, bytes)?.as_str())?;
    told.push('\n')
}

/// What is sent up and down of a browser's frames, and how the relay ends. Each line is a frame: its first
/// byte, and its payload behind a space, under a masking key of 0; `bytes` begins a line of other bytes.
pub fn of_browser(alloc: Global, text: &str) -> Result<String, AllocError> {
    let mut sent = Vec::new(alloc);
    for line in text.lines() {
        push_frame(alloc, &mut sent, line)?;
    }
    let whole = browser_in_pieces(alloc, &sent, sent.len())?;
    for piece in 1..sent.len() {
        let told = browser_in_pieces(alloc, &sent, piece)?;
        if told.as_str() != whole.as_str() {
            return format!(in alloc; "in pieces of {piece}\n{}", told.as_str());
        }
    }
    Ok(whole)
}

fn push_frame(alloc: Global, sent: &mut Vec<u8>, line: &str) -> Result<(), AllocError> {
    match line.split_once(' ') {
        Some(("bytes", others)) => sent.extend_from_slice(&bytes(alloc, others)?),
        Some((first, payload)) => {
            let payload = bytes(alloc, payload)?;
            sent.extend_from_slice(&bytes(alloc, first)?)?;
            sent.push(0x80 | (payload.len() % 126) as u8)?;
            sent.extend_from_slice(&[0, 0, 0, 0])?;
            sent.extend_from_slice(&payload)
        }
        None => Ok(()),
    }
}

fn browser_in_pieces(alloc: Global, sent: &[u8], piece: usize) -> Result<String, AllocError> {
    let mut up = Vec::new(alloc);
    let mut down = Vec::new(alloc);
    let mut relay = Relay::new(alloc);
    for piece in sent.chunks(piece.max(1)) {
        relay.browser(piece, &mut up, &mut down);
    }
    let mut told = String::new(alloc);
    push_bytes(alloc, &mut told, "up ", &up)?;
    push_bytes(alloc, &mut told, "down ", &down)?;
    push_end(&mut told, &relay)?;
    Ok(told)
}

fn push_end(told: &mut String, relay: &Relay) -> Result<(), AllocError> {
    match relay.end() {
        None => told.push_str("goes on\n"),
        Some(end) => write!(told, "end {}\n", end.name()),
    }
}

/// What is sent down of a server's bytes, which are the first line, and how the relay ends. Behind them
/// `ping` sends a ping, `gone server` and `gone browser` end a side, `no server` says that there is none,
/// `refused` that it said nothing, and other bytes come from the server.
pub fn of_server(alloc: Global, text: &str) -> Result<String, AllocError> {
    let (first, lines) = text.split_once('\n').unwrap_or((text, ""));
    let said = bytes(alloc, first)?;
    let whole = server_in_pieces(alloc, &said, said.len(), lines)?;
    for piece in 1..said.len() {
        let told = server_in_pieces(alloc, &said, piece, lines)?;
        if told.as_str() != whole.as_str() {
            return format!(in alloc; "in pieces of {piece}\n{}", told.as_str());
        }
    }
    Ok(whole)
}

fn server_in_pieces(
    alloc: Global,
    said: &[u8],
    piece: usize,
    lines: &str,
) -> Result<String, AllocError> {
    let mut down = Vec::new(alloc);
    let mut relay = Relay::new(alloc);
    for piece in said.chunks(piece.max(1)) {
        relay.server(piece, &mut down);
    }
    for line in lines.lines() {
        act(alloc, &mut relay, &mut down, line)?;
    }
    let mut told = String::new(alloc);
    push_bytes(alloc, &mut told, "down ", &down)?;
    push_end(&mut told, &relay)?;
    Ok(told)
}

fn act(alloc: Global, relay: &mut Relay, down: &mut Vec<u8>, line: &str) -> Result<(), AllocError> {
    match line {
        "ping" => relay.ping(down),
        "gone server" => relay.close(Side::Server, down),
        "gone browser" => relay.close(Side::Browser, down),
        "no server" => relay.lack_server(down),
        "refused" => relay.refuse(down),
        said => relay.server(&bytes(alloc, said)?, down),
    }
    Ok(())
}
