//! Whole runs: the words, and a session over TCP with a thread that plays the server.

use super::peer::{HELLO_ACK, bytes};
use crate::run::run;
use std::alloc::Global;
use std::io::{Read, Write};
use std::net::TcpListener;
use std::test::Fail;
use std::{io, thread};

/// Accepts one connection, and answers each message of 12 bytes by the next of these messages of
/// hexadecimal. Tells the bytes that it read.
fn serve(alloc: Global, listener: &TcpListener, answers: &[&str]) -> io::Result<Vec<u8>> {
    let (mut stream, _) = listener.accept()?;
    let mut heard = Vec::new(alloc);
    for answer in answers {
        let mut message = [0u8; 12];
        stream.read_exact(&mut message)?;
        heard.extend_from_slice(&message)?;
        let answer = bytes(alloc, answer)?;
        stream.write_all(answer.as_slice())?;
    }
    Ok(heard)
}

#[test]
fn a_run_converses_over_tcp(rt: HostRuntime) -> Result<(), Fail> {
    let alloc = rt.alloc();
    let listener = TcpListener::bind(&rt, "127.0.0.1:0")?;
    let address = format!(in alloc; "{}", listener.local_addr()?)?;
    let server = thread::spawn(&rt, move || {
        let answers = [HELLO_ACK, "20080000 00000001 0002 000a"];
        match serve(alloc, &listener, &answers) {
            Ok(heard) => heard,
            Err(_) => Vec::new(alloc),
        }
    })?;
    let words = ["floorc", address.as_str(), "1", "10"];
    let mut lines: &[u8] = b"hello\nfly\nwatch\n";
    let mut output: Vec<u8> = Vec::new(alloc);
    let mut errors: Vec<u8> = Vec::new(alloc);
    let status = run(&rt, alloc, &words, &mut lines, &mut output, &mut errors);
    let heard = server.join(&rt);
    assert_eq!(rt; status, 0);
    let printed: &[u8] = b"reply 1 HelloAck\nerror BadLine\nreply 2 FloorStatus\n";
    assert_eq!(rt; output.as_slice(), printed);
    assert!(rt; errors.is_empty());
    let wanted = bytes(
        alloc,
        "200b0000 00000001 0001 000a 20070000 00000001 0002 000a",
    )?;
    assert_eq!(rt; heard.as_slice(), wanted.as_slice());
    Ok(())
}

#[test]
fn a_server_that_goes_away_ends_the_run(rt: HostRuntime) -> Result<(), Fail> {
    let alloc = rt.alloc();
    let listener = TcpListener::bind(&rt, "127.0.0.1:0")?;
    let address = format!(in alloc; "{}", listener.local_addr()?)?;
    let server = thread::spawn(&rt, move || {
        let answers = ["200c0009 00000001 0001"];
        serve(alloc, &listener, &answers).is_ok()
    })?;
    let words = ["floorc", address.as_str(), "1", "10"];
    let mut lines: &[u8] = b"hello\n";
    let mut output: Vec<u8> = Vec::new(alloc);
    let mut errors: Vec<u8> = Vec::new(alloc);
    let status = run(&rt, alloc, &words, &mut lines, &mut output, &mut errors);
    let served = server.join(&rt);
    assert!(rt; served);
    assert_eq!(rt; status, 1);
    assert!(rt; output.is_empty());
    let wanted: &[u8] = b"closed: the server ended the connection\nfloorc: Socket\n";
    assert_eq!(rt; errors.as_slice(), wanted);
    Ok(())
}

/// Words, the status, and what is printed to the errors, with `/` between its lines.
const WORDS: &str = "127.0.0.1:9 x 10|2|floorc: BadNumber
127.0.0.1:9 4294967296 10|2|floorc: BadNumber
127.0.0.1:9 1 65536|2|floorc: BadNumber
127.0.0.1:9 1 00000000010|2|floorc: BadNumber
nowhere 1 10|1|unresolved: no such address and port, as 127.0.0.1:7010/floorc: Socket
127.0.0.1:99999 1 10|1|unresolved: no such address and port, as 127.0.0.1:7010/floorc: Socket
127.0.0.1:9 1 10|1|refused: nothing listens at this port/floorc: Socket";

#[test]
fn words_that_are_refused_have_their_status(rt: HostRuntime) -> Result<(), Fail> {
    let alloc = rt.alloc();
    for row in WORDS.lines() {
        let (line, rest) = row.split_once('|').ok_or("a row has a status")?;
        let (status, text) = rest.split_once('|').ok_or("a row has a text")?;
        let mut words: Vec<&str> = Vec::new(alloc);
        words.push("floorc")?;
        for word in line.split(' ') {
            words.push(word)?;
        }
        let mut lines: &[u8] = b"hello\n";
        let mut output: Vec<u8> = Vec::new(alloc);
        let mut errors: Vec<u8> = Vec::new(alloc);
        let found = run(
            &rt,
            alloc,
            words.as_slice(),
            &mut lines,
            &mut output,
            &mut errors,
        );
        let found = format!(in alloc; "{found}")?;
        assert_eq!(rt; found.as_str(), status, "{line}");
        let text = text.replace(alloc, "/", "\n")?;
        let text = format!(in alloc; "{text}\n")?;
        assert_eq!(rt; errors.as_slice(), text.as_bytes(), "{line}");
        assert!(rt; output.is_empty(), "{line}");
    }
    Ok(())
}

#[test]
fn a_run_without_words_tells_what_is_missing(rt: HostRuntime) -> Result<(), Fail> {
    let alloc = rt.alloc();
    let mut lines: &[u8] = b"hello\n";
    let mut output: Vec<u8> = Vec::new(alloc);
    let mut errors: Vec<u8> = Vec::new(alloc);
    let status = run(
        &rt,
        alloc,
        &["floorc"],
        &mut lines,
        &mut output,
        &mut errors,
    );
    assert_eq!(rt; status, 2);
    assert!(rt; output.is_empty());
    assert!(rt; !errors.is_empty());
    Ok(())
}

#[test]
fn the_help_explains_each_word_and_line_and_the_version_is_told(
    rt: HostRuntime,
) -> Result<(), Fail> {
    let alloc = rt.alloc();
    let mut lines: &[u8] = b"hello\n";
    let mut output: Vec<u8> = Vec::new(alloc);
    let mut errors: Vec<u8> = Vec::new(alloc);
    let words = ["floorc", "--help"];
    let status = run(&rt, alloc, &words, &mut lines, &mut output, &mut errors);
    assert_eq!(rt; status, 0);
    assert!(rt; errors.is_empty());
    let text = String::from_utf8(output).ok().ok_or("text")?;
    let wanted = "127.0.0.1:7010
The number of the conference
The number of the user
request 1 2 for 11 priority 3 info my turn
release 1
query 1
user 11
watch 1 2
chair 1 2 grant
listen 3
quit
   7  Floor Request ID Does Not Exist
  14  Generic Error
--version";
    for piece in wanted.lines() {
        assert!(rt; text.as_str().contains(piece), "{piece}");
    }
    let mut output: Vec<u8> = Vec::new(alloc);
    let words = ["floorc", "--version"];
    let status = run(&rt, alloc, &words, &mut lines, &mut output, &mut errors);
    assert_eq!(rt; status, 0);
    let version: &[u8] = b"floorc 0.2.0 (logic dac8208d650f15bf)\n";
    assert_eq!(rt; output.as_slice(), version);
    Ok(())
}
