//! What stands between a connection's last bytes and its end.

use super::clients::{
    Server, ask, connect, free_port, greet, line, log_lines, prepare, run_logged, run_to_end, send,
    two_ends,
};
use std::io::{Read, Write};
use std::net::{Shutdown, TcpStream};
use std::test::Fail;
use std::time::Duration;
use std::{fs, thread};
use test_clients::hear_message;

const HELLO: &str = "200b0000 00000001 0001 000a";

/// User 10 asks for floor 1 (RFC 8855, section 5.3.1).
const FLOOR_REQUEST: &str = "20010001 00000001 0002 000a 04040001";

/// User 11 asks how floor 1 is, and is told of it from now on (section 5.3.7).
const FLOOR_QUERY: &str = "20070001 00000001 0003 000b 04040001";

/// How many bytes a FloorStatus has of a floor that nobody has.
const FREE: usize = 16;

/// How often something is asked for at most, 10 milliseconds apart.
const MAX_ASKS: u32 = 2_000;

/// How often a case is tried of which the server's thread has to find both halves at once.
const ROUNDS: u32 = 20;

/// So many Hellos fill what is read at a time but for 4 bytes.
const HELLOS: usize = 341;

/// Waits until conference 1 has no members.
fn await_nobody(rt: &HostRuntime, server: &Server) -> Result<(), Fail> {
    for _ in 0..MAX_ASKS {
        let status = ask(rt, server, "status 1")?;
        if status.as_str().starts_with("conference 1 members 0 ") {
            return Ok(());
        }
        thread::sleep(rt, Duration::from_millis(10));
    }
    Err("somebody stays".into())
}

/// How many messages are events of conference 1.
fn messages(rt: &HostRuntime, server: &Server) -> Result<usize, Fail> {
    let mut found = ask(rt, server, "journal 1")?;
    let mut count = 0usize;
    for _ in 0..100_000 {
        if found.as_str().starts_with("end ") {
            return Ok(count);
        }
        if found.as_str().contains(" message ") {
            count = count.saturating_add(1);
        }
        found = line(rt, server)?;
    }
    Err("the journal has an end".into())
}

/// At which line of the journal of conference 1 a member leaves.
fn place_of_leave(rt: &HostRuntime, server: &Server, n: u32) -> Result<usize, Fail> {
    let wanted = format!(in rt.alloc(); " leave {n}")?;
    let mut found = ask(rt, server, "journal 1")?;
    let mut place = None;
    for line_number in 0..100_000 {
        if found.as_str().starts_with("end ") {
            return Ok(place.ok_or("it leaves")?);
        }
        if found.as_str().ends_with(wanted.as_str()) {
            place = Some(line_number);
        }
        found = line(rt, server)?;
    }
    Err("the journal has an end".into())
}

/// What of a connection is heard until its end.
fn hear_out(rt: &HostRuntime, client: &mut TcpStream) -> Result<usize, Fail> {
    let mut heard = Vec::new(rt.alloc());
    client.read_to_end(&mut heard)?;
    Ok(heard.len())
}

#[test]
fn what_was_sent_before_a_reset_is_served_to_its_end(rt: HostRuntime) -> Result<(), Fail> {
    let alloc = rt.alloc();
    let port = free_port(&rt)?;
    let (console, start) = prepare(&rt, "edges-reset.toml", &[(1, port)])?;
    let thread = thread::spawn(&rt, move || run_to_end(rt, alloc, start))?;
    let server = Server { console, thread };
    line(&rt, &server)?;
    let hello = hex::decode(alloc, "200b0000000000010001000a")?;
    let word = hex::decode(alloc, "20010001000000010002000a04040001")?;
    let mut sent = Vec::new(alloc);
    for _ in 0..HELLOS {
        sent.extend_from_slice(hello.as_slice())?;
    }
    sent.extend_from_slice(word.as_slice())?;
    for _ in 0..ROUNDS {
        // What is closed with bytes that it has not read is reset.
        let mut client = greet(&rt, port, HELLO, 47)?;
        client.write_all(sent.as_slice())?;
        drop(client);
        await_nobody(&rt, &server)?;
    }
    let wanted = (HELLOS + 2) * ROUNDS as usize;
    assert_eq!(rt; messages(&rt, &server)?, wanted);
    ask(&rt, &server, "stop")?;
    assert_eq!(rt; server.end(&rt), 0);
    fs::remove_file(&rt, "edges-reset.toml")?;
    Ok(())
}

#[test]
fn who_ends_its_sending_hears_what_anothers_leave_tells_it(rt: HostRuntime) -> Result<(), Fail> {
    let alloc = rt.alloc();
    let (port, other) = (free_port(&rt)?, free_port(&rt)?);
    let _removed = fs::remove_dir_all(&rt, "edges-kept-folder");
    fs::create_dir(&rt, "edges-kept-folder")?;
    let (console, mut start) = prepare(&rt, "edges-kept.toml", &[(1, port)])?;
    start.add_word(alloc, "--keep")?;
    start.add_word(alloc, "edges-kept-folder")?;
    let thread = thread::spawn(&rt, move || run_to_end(rt, alloc, start))?;
    let server = Server { console, thread };
    line(&rt, &server)?;
    let added = format!(in alloc; "user 1 11 port {other}")?;
    assert_eq!(rt; ask(&rt, &server, added.as_str())?.as_str(), "ok user 1 11");
    for round in 0..ROUNDS {
        let n = 2 * round + 1;
        let mut holder = greet(&rt, port, HELLO, 48)?;
        send(&rt, &mut holder, FLOOR_REQUEST).ok_or("sent")?;
        hear_message(alloc, &mut holder).ok_or("heard")?;
        let mut watcher = connect(&rt, other)?;
        send(&rt, &mut watcher, FLOOR_QUERY).ok_or("sent")?;
        hear_message(alloc, &mut watcher).ok_or("heard")?;
        holder.shutdown(Shutdown::Write)?;
        watcher.shutdown(Shutdown::Write)?;
        let heard = hear_out(&rt, &mut watcher)?;
        await_nobody(&rt, &server)?;
        // Whose turn comes first leaves first.
        let is_told = place_of_leave(&rt, &server, n)? < place_of_leave(&rt, &server, n + 1)?;
        assert_eq!(rt; heard, if is_told { FREE } else { 0 });
    }
    ask(&rt, &server, "stop")?;
    assert_eq!(rt; server.end(&rt), 0);
    fs::remove_dir_all(&rt, "edges-kept-folder")?;
    fs::remove_file(&rt, "edges-kept.toml")?;
    Ok(())
}

/// What is sent, how many bytes are heard until the end, and how many messages are events by then, where a message
/// may have 64 bytes: with one of 64, 68 or 262,152 bytes that is begun only, alone and behind others.
const LONGEST: &[(&str, usize, usize)] = &[
    ("200b000e", 0, 0),
    ("200bffff", 0, 0),
    ("200b0000 00000001 0001 000a 200b000e 00000001", 48, 1),
    (
        "200b000d 00000001 0001 000a c8340000 00000000 00000000 00000000 00000000 00000000 00000000 00000000 00000000 00000000 00000000 00000000 00000000 200b000e",
        48,
        2,
    ),
];

#[test]
fn a_message_longer_than_the_longest_ends_its_connection(rt: HostRuntime) -> Result<(), Fail> {
    let alloc = rt.alloc();
    let port = free_port(&rt)?;
    let (mut log, sink) = two_ends(&rt)?;
    let (console, mut start) = prepare(&rt, "edges-longest.toml", &[(1, port)])?;
    start.ask_for_log(alloc)?;
    start.add_word(alloc, "--longest")?;
    start.add_word(alloc, "64")?;
    let thread = thread::spawn(&rt, move || run_logged(rt, alloc, start, sink))?;
    let server = Server { console, thread };
    line(&rt, &server)?;
    for (sent, heard, events) in LONGEST {
        let mut client = connect(&rt, port)?;
        send(&rt, &mut client, sent).ok_or("sent")?;
        assert_eq!(rt; hear_out(&rt, &mut client)?, *heard, "{sent}");
        await_nobody(&rt, &server)?;
        assert_eq!(rt; messages(&rt, &server)?, *events, "{sent}");
    }
    ask(&rt, &server, "stop")?;
    assert_eq!(rt; server.end(&rt), 0);
    let told = log_lines(alloc, &mut log)?;
    assert_eq!(rt;
        told.as_str().matches(" left TooLong\n").count(),
        LONGEST.len(),
        "{told}"
    );
    fs::remove_file(&rt, "edges-longest.toml")?;
    Ok(())
}
