//! The doors: who is let in by a header as whom, who isn't, and what the log has of it.

use super::clients::{
    Server, ask, connect, free_port, hear, line, log_lines, prepare, run_logged, send, two_ends,
};
use std::alloc::Global;
use std::fs::File;
use std::io::{Read, Write};
use std::net::{Net, Shutdown, TcpListener, TcpStream};
use std::rt::Files;
use std::sync::Wait;
use std::test::Fail;
use std::thread::Threads;
use std::time::{Clock, Duration};
use std::{fs, thread};

/// What HAProxy writes in front of what a client sends whose certificate's name is 1.10, over TLS 1.3.
const BY_CERTIFICATE: &str = "0d0a0d0a 000d0a51 5549540a 21110025 7f000001 7f000001 d6161edd \
    20001607 00000000 21000754 4c537631 2e332200 04312e31 30";

/// A header whose unique-id is 1.10.
const BY_ID: &str =
    "0d0a0d0a 000d0a51 5549540a 21110013 7f000001 7f000001 d6161edd 05000431 2e3130";

/// A Hello of user 10 of conference 1, and how many bytes its answer has.
const HELLO: &str = "200b0000 00000001 0001 000a";

const ANSWER: usize = 48;

/// How often a status is asked for at most, 10 milliseconds apart.
const MAX_ASKS: u32 = 2_000;

/// What is sent at the door before the stream ends, and why it isn't let in, as the log tells; behind `by id` it is sent at the
/// door by id.
const REFUSED: &str = "\
=NoHeader
0d0a0d0a 000d0a51 5549540a 21110025 7f=NoHeader
50524f58 59205443 5034=BadHeader
200b0000 00000001 0001 000a=BadHeader
0d0a0d0a 000d0a51 5549540a 2111ffff=BadHeader
0d0a0d0a 000d0a51 5549540a 2111000c 7f000001 7f000001 d6161edd=NoCertificate
0d0a0d0a 000d0a51 5549540a 21110014 7f000001 7f000001 d6161edd 20000501 00000000=NoCertificate
0d0a0d0a 000d0a51 5549540a 2111001b 7f000001 7f000001 d6161edd 20000c07 00000015 22000431 2e3130=NotVerified
0d0a0d0a 000d0a51 5549540a 21110014 7f000001 7f000001 d6161edd 20000507 00000000=NoName
0d0a0d0a 000d0a51 5549540a 2111001c 7f000001 7f000001 d6161edd 20000d07 00000000 22000531 2e303130=BadName
0d0a0d0a 000d0a51 5549540a 2111001b 7f000001 7f000001 d6161edd 20000c07 00000000 22000431 2e3131=NoUser
0d0a0d0a 000d0a51 5549540a 2111001b 7f000001 7f000001 d6161edd 20000c07 00000000 22000432 2e3130=NoConference
0d0a0d0a 000d0a51 5549540a 2111000c 7f000001 7f000001 d6161edd=by id NoName
0d0a0d0a 000d0a51 5549540a 21110025 7f000001 7f000001 d6161edd 20001607 00000000 21000754 4c537631 2e332200 04312e31 30=by id NoName";

/// A server with its log, and its doors.
#[derive(Drop)]
struct Doors {
    server: Server,
    log: TcpStream,
    by_certificate: u16,
    by_id: u16,
    health: u16,
}

/// Starts a server with conference 1, one user of which may have so many connections.
fn open<R>(rt: R, path: &str, most: u8) -> Result<Doors, Fail>
where
    R: Net<Listener = TcpListener, Stream = TcpStream>
        + Files<File = File>
        + AllocGlobal
        + Clock
        + Threads
        + Wait
        + Copy
        + Drop
        + Send
        + 'static,
    R::Dir: Send,
{
    let alloc = rt.alloc();
    let port = free_port(&rt)?;
    let (console, mut start) = prepare(&rt, path, &[(1, port)])?;
    let text = fs::read_to_string(&rt, path)?.replace(
        alloc,
        "id = 1\n[[conference.user]]",
        format!(in alloc; "id = 1\nconnections = {most}\n[[conference.user]]")?.as_str(),
    )?;
    fs::write(&rt, path, text.as_str())?;
    let (by_certificate, by_id, health) = (free_port(&rt)?, free_port(&rt)?, free_port(&rt)?);
    for (word, port) in [
        ("--door", by_certificate),
        ("--door-by-id", by_id),
        ("--health", health),
    ] {
        start.add_word(alloc, word)?;
        start.add_word(alloc, format!(in alloc; "{port}")?.as_str())?;
    }
    start.ask_for_log(alloc)?;
    let (log, sink) = two_ends(&rt)?;
    let thread = thread::spawn(&rt, move || run_logged(rt, alloc, start, sink))?;
    let server = Server { console, thread };
    if line(&rt, &server)?.as_str() != "ready" {
        return Err(Fail::new("it isn't ready"));
    }
    Ok(Doors {
        server,
        log,
        by_certificate,
        by_id,
        health,
    })
}

/// Stops the server, and gives the lines that its log has of its doors, each with a name in place of the
/// port, in the order of the alphabet.
fn close<R: Files + AllocGlobal + Threads>(
    rt: &R,
    doors: Doors,
    path: &str,
) -> Result<String, Fail> {
    let alloc = rt.alloc();
    let Doors {
        server,
        mut log,
        by_certificate,
        by_id,
        health,
    } = doors;
    if !ask(rt, &server, "stop")?.as_str().starts_with("ok stopped") || server.end(rt) != 0 {
        return Err(Fail::new("it doesn't stop"));
    }
    fs::remove_file(rt, path)?;
    let mut told = Vec::new(alloc);
    for line in log_lines(alloc, &mut log)?.as_str().lines() {
        if line.starts_with("door") || line.starts_with("health") {
            let mut line = String::from_str(alloc, line)?;
            for (port, name) in [
                (by_certificate, " ONE "),
                (by_id, " BY-ID "),
                (health, " PROBED "),
            ] {
                line = line.replace(alloc, format!(in alloc; " {port} ")?.as_str(), name)?;
            }
            told.push(line)?;
        }
    }
    sorted(alloc, told)
}

/// The lines in the order of the alphabet.
fn sorted(alloc: Global, mut lines: Vec<String>) -> Result<String, Fail> {
    lines.sort()?;
    let mut text = String::new(alloc);
    for line in lines {
        text.push_str(line.as_str())?;
        text.push('\n')?;
    }
    Ok(text)
}

/// Whether conference 1 was found to stand so before it was asked for too often.
fn stands(rt: &HostRuntime, doors: &Doors, wanted: &str) -> Result<bool, Fail> {
    for _ in 0..MAX_ASKS {
        if ask(rt, &doors.server, "status 1")?
            .as_str()
            .starts_with(wanted)
        {
            return Ok(true);
        }
        thread::sleep(rt, Duration::from_millis(10));
    }
    Ok(false)
}

/// The bytes of spaced hexadecimal.
fn bytes_of(rt: &HostRuntime, parts: &[&str]) -> Result<Vec<u8>, Fail> {
    let mut digits = String::new(rt.alloc());
    for part in parts {
        for word in part.split(' ') {
            digits.push_str(word)?;
        }
    }
    Ok(hex::decode(rt.alloc(), digits.as_str())?)
}

/// What comes of a connection that is sent so much and then nothing more: how many bytes it hears until its
/// end.
fn heard(rt: &HostRuntime, port: u16, sent: &str) -> Result<usize, Fail> {
    let mut client = connect(rt, port)?;
    client.write_all(bytes_of(rt, &[sent])?.as_slice())?;
    client.shutdown(Shutdown::Write)?;
    let mut bytes = Vec::new(rt.alloc());
    // A reset is an end, too.
    let _outcome = client.read_to_end(&mut bytes);
    Ok(bytes.len())
}

/// Whoever a header names is that user, wherever the bytes are cut; and what stands behind the header is
/// served.
#[test]
fn whom_a_header_names_comes_in(rt: HostRuntime) -> Result<(), Fail> {
    let doors = open(rt, "doors_in.toml", 64)?;
    for (port, header) in [(doors.by_certificate, BY_CERTIFICATE), (doors.by_id, BY_ID)] {
        let bytes = bytes_of(&rt, &[header, HELLO])?;
        for at in 1..bytes.len() {
            let mut client = connect(&rt, port)?;
            client.set_nodelay(true)?;
            client.write_all(&bytes[..at])?;
            if at % 4 == 1 {
                thread::sleep(&rt, Duration::from_millis(2));
            }
            client.write_all(&bytes[at..])?;
            let answer = hear(&rt, &mut client, ANSWER).ok_or("is answered")?;
            assert!(rt; answer.as_str().starts_with("200c"), "{at}");
            // A second message, so that the socket itself is read from behind the header.
            send(&rt, &mut client, HELLO).ok_or("is there")?;
            hear(&rt, &mut client, ANSWER).ok_or("is answered again")?;
        }
        assert!(rt; stands(&rt, &doors, "conference 1 members 0 ")?);
    }
    let told = close(&rt, doors, "doors_in.toml")?;
    assert_eq!(rt;
        told.as_str(),
        "door BY-ID ended\ndoor BY-ID listens\ndoor ONE ended\ndoor ONE listens\nhealth PROBED ended\nhealth PROBED listens\n"
    );
    Ok(())
}

/// Who isn't named is let go, hears nothing, and the log says why; who only looks is told of nowhere.
#[test]
fn whom_no_header_names_is_let_go(rt: HostRuntime) -> Result<(), Fail> {
    let alloc = rt.alloc();
    let doors = open(rt, "doors_out.toml", 64)?;
    let mut wanted = Vec::new(alloc);
    for row in REFUSED.lines() {
        let (sent, name) = row.split_once('=').ok_or("a row has a sign")?;
        let (port, told) = match name.strip_prefix("by id ") {
            Some(name) => (doors.by_id, format!(in alloc; "door BY-ID refused {name}")?),
            None => (
                doors.by_certificate,
                format!(in alloc; "door ONE refused {name}")?,
            ),
        };
        assert_eq!(rt; heard(&rt, port, sent)?, 0, "{row}");
        wanted.push(told)?;
    }
    // A look by LOCAL, and a probe.
    assert_eq!(rt;
        heard(
            &rt,
            doors.by_certificate,
            "0d0a0d0a 000d0a51 5549540a 20000000"
        )?,
        0
    );
    assert_eq!(rt; heard(&rt, doors.health, "")?, 0);
    // Who says nothing is let go after five seconds.
    let mut silent = connect(&rt, doors.by_certificate)?;
    let mut bytes = Vec::new(alloc);
    silent.read_to_end(&mut bytes)?;
    assert!(rt; bytes.is_empty());
    wanted.push(String::from_str(alloc, "door ONE refused NoHeader")?)?;
    let status = ask(&rt, &doors.server, "status 1")?;
    assert_eq!(rt;
        status.as_str(),
        "conference 1 members 0 ongoing 0 events 0 open"
    );
    for line in [
        "door BY-ID ended",
        "door BY-ID listens",
        "door ONE ended",
        "door ONE listens",
        "health PROBED ended",
        "health PROBED listens",
    ] {
        wanted.push(String::from_str(alloc, line)?)?;
    }
    let lines = sorted(alloc, wanted)?;
    let told = close(&rt, doors, "doors_out.toml")?;
    assert_eq!(rt; told.as_str(), lines.as_str());
    Ok(())
}

/// One user has no more connections than one may have, and one more once another has left.
#[test]
fn a_user_has_so_many_connections(rt: HostRuntime) -> Result<(), Fail> {
    let alloc = rt.alloc();
    let doors = open(rt, "doors_most.toml", 2)?;
    let named = bytes_of(&rt, &[BY_ID, HELLO])?;
    let mut members = Vec::new(alloc);
    for _ in 0..2 {
        let mut client = connect(&rt, doors.by_id)?;
        client.write_all(named.as_slice())?;
        hear(&rt, &mut client, ANSWER).ok_or("is answered")?;
        members.push(client)?;
    }
    let mut third = connect(&rt, doors.by_id)?;
    third.write_all(named.as_slice())?;
    let mut bytes = Vec::new(alloc);
    let _outcome = third.read_to_end(&mut bytes);
    assert!(rt; bytes.is_empty());
    drop(members.pop());
    assert!(rt; stands(&rt, &doors, "conference 1 members 1 ")?);
    let mut fourth = connect(&rt, doors.by_id)?;
    fourth.write_all(named.as_slice())?;
    hear(&rt, &mut fourth, ANSWER).ok_or("is answered")?;
    let told = close(&rt, doors, "doors_most.toml")?;
    let refused = told
        .as_str()
        .lines()
        .filter(|line| *line == "door BY-ID refused UserConnections")
        .count();
    assert_eq!(rt; refused, 1);
    Ok(())
}
