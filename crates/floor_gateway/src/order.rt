//! What the operator's page has done: a line of the control socket, asked by a client of its own.

ghost use Rattle.std.specs.Prelude.{◌≡◌, IfOk, map, option_map, string_bytes};
ghost use Rattle.floor_gateway.specs.Order.{close_line, in_line, line_of, of_words, out_line, revoke_line, three_words, two_words};

use floor_follow::{Lines, NextLine};
use floor_web::{let_in_line, show_out_line};
use floor_words::{read_u16, read_u32, words};
use std::alloc::{AllocError, Global};
use std::io::{Read, Write};
use std::net::{Net, TcpListener, TcpStream};
use std::os::unix::net::UnixStream;
use std::time::Duration;

/// How long an answer is waited for, in seconds.
const ANSWER_SECONDS: u64 = 10;

/// How many reads an answer may take at most.
const READS: u32 = 64;

/// The line of an order: `close <c>`, `revoke <c> <r>`, `out <c> <u>` or `in <c> <u>`; `None` where it is none of these.
pub fn line_of(alloc: Global, order: &str) -> Result<Option<String>, AllocError>
    ensures value { IfOk result (λ line. option_map string_bytes line ≡ line_of order.now) }
{
    let words = words(alloc, order)?;
    of_words(alloc, &words)
}

fn of_words(alloc: Global, words: &[&str]) -> Result<Option<String>, AllocError>
    ensures value { IfOk result (λ line. option_map string_bytes line
        ≡ of_words (map (λ w. w.now) words.now)) }
{
    match words {
        [name, conference] => of_two_words(alloc, name, conference),
        [name, conference, other] => of_three_words(alloc, name, conference, other),
        _ => Ok(None),
    }
}

fn of_two_words(alloc: Global, name: &str, conference: &str) -> Result<Option<String>, AllocError>
    ensures value { IfOk result (λ line. option_map string_bytes line
        ≡ two_words name.now conference.now) }
{
    if name == "close" {
        close_line(alloc, conference)
    } else {
        Ok(None)
    }
}

fn of_three_words(
    alloc: Global,
    name: &str,
    conference: &str,
    other: &str,
) -> Result<Option<String>, AllocError>
    ensures value { IfOk result (λ line. option_map string_bytes line
        ≡ three_words name.now conference.now other.now) }
{
    if name == "revoke" {
        revoke_line(alloc, conference, other)
    } else if name == "out" {
        out_line(alloc, conference, other)
    } else if name == "in" {
        in_line(alloc, conference, other)
    } else {
        Ok(None)
    }
}

fn close_line(alloc: Global, conference: &str) -> Result<Option<String>, AllocError>
    ensures value { IfOk result (λ line. option_map string_bytes line ≡ close_line conference.now) }
{
    match read_u32(conference) {
        Some(c) => Ok(Some(format!(in alloc; "close {c}\n")?)),
        None => Ok(None),
    }
}

fn revoke_line(alloc: Global, conference: &str, request: &str) -> Result<Option<String>, AllocError>
    ensures value { IfOk result (λ line. option_map string_bytes line
        ≡ revoke_line conference.now request.now) }
{
    match (read_u32(conference), read_u16(request)) {
        (Some(c), Some(r)) => Ok(Some(format!(in alloc; "revoke {c} {r}\n")?)),
        _ => Ok(None),
    }
}

fn out_line(alloc: Global, conference: &str, user: &str) -> Result<Option<String>, AllocError>
    ensures value { IfOk result (λ line. option_map string_bytes line
        ≡ out_line conference.now user.now) }
{
    match (read_u32(conference), read_u16(user)) {
        (Some(c), Some(user)) => Ok(Some(show_out_line(alloc, c, user)?)),
        _ => Ok(None),
    }
}

fn in_line(alloc: Global, conference: &str, user: &str) -> Result<Option<String>, AllocError>
    ensures value { IfOk result (λ line. option_map string_bytes line
        ≡ in_line conference.now user.now) }
{
    match (read_u32(conference), read_u16(user)) {
        (Some(c), Some(user)) => Ok(Some(let_in_line(alloc, c, user)?)),
        _ => Ok(None),
    }
}

/// What the server answers to a line; `None` where it can't be asked, or doesn't answer.
pub fn asked<R>(rt: &R, alloc: Global, path: &str, line: &str) -> Result<Option<String>, AllocError>
where
    R: Net<Listener = TcpListener, Stream = TcpStream>,
{
    let Ok(mut stream) = UnixStream::connect(rt, path) else {
        return Ok(None);
    };
    let wait = Some(Duration::from_secs(ANSWER_SECONDS));
    let _outcome = stream.set_read_timeout(wait);
    let _outcome = stream.set_write_timeout(wait);
    if stream.write_all(line.as_bytes()).is_err() {
        return Ok(None);
    }
    let mut lines = Lines::new(alloc);
    let mut piece = [0u8; 1_024];
    for _ in 0..READS {
        match stream.read(&mut piece) {
            Ok(0) | Err(_) => return Ok(None),
            Ok(count) => lines.take_in(&piece[..count])?,
        }
        match lines.next()? {
            NextLine::Line(text) => return Ok(Some(String::from_str(alloc, text.as_str())?)),
            NextLine::Nothing => {}
            NextLine::NotText | NextLine::TooLong => return Ok(None),
        }
    }
    Ok(None)
}
