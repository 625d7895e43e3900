//! How connections end: at the end of a stream, cut, at a stop, and where a socket fails.

use super::clients::{
    Server, ask, connect, free_port, greet, hear, line, prepare, run_to_end, send,
};
use std::alloc::Global;
use std::io::{Read, Write};
use std::net::Shutdown;
use std::test::Fail;
use std::time::Duration;
use std::{fs, thread};

const HELLO: &str = "200b0000 00000001 0001 000a";

const OTHER_HELLO: &str = "200b0000 00000002 0001 000a";

/// How many Hellos one client sends before it reads an answer: more than a turn serves.
const MANY: usize = 200;

/// The bytes of a HelloAck.
const ANSWER: usize = 48;

/// A floor request, by whose hundreds a watcher that reads nothing is cut.
const MAX_ASKS: u32 = 2_000;

fn many(alloc: Global) -> Result<Vec<u8>, Fail> {
    let hello = hex::decode(alloc, "200b0000000000010001000a")?;
    let mut bytes = Vec::new(alloc);
    for _ in 0..MANY {
        bytes.extend_from_slice(hello.as_slice())?;
    }
    Ok(bytes)
}

/// Who ends the stream behind many messages is answered each of them, and then shut down.
#[test]
fn all_is_answered_before_the_end(rt: HostRuntime) -> Result<(), Fail> {
    let alloc = rt.alloc();
    let port = free_port(&rt)?;
    let (console, start) = prepare(&rt, "half.toml", &[(1, port)])?;
    let thread = thread::spawn(&rt, move || run_to_end(rt, alloc, start))?;
    let server = Server { console, thread };
    assert_eq!(rt; line(&rt, &server)?.as_str(), "ready");
    let mut client = connect(&rt, port)?;
    client.write_all(many(alloc)?.as_slice())?;
    client.shutdown(Shutdown::Write)?;
    let mut heard = Vec::new(alloc);
    client.read_to_end(&mut heard)?;
    assert_eq!(rt; heard.len(), MANY * ANSWER);
    assert!(rt; is_empty(&rt, &server)?);
    let stopped = ask(&rt, &server, "stop")?;
    assert!(rt;
        stopped.as_str().starts_with("ok stopped seats 1 "),
        "{stopped}"
    );
    assert_eq!(rt; server.end(&rt), 0);
    fs::remove_file(&rt, "half.toml")?;
    Ok(())
}

/// Whether conference 1 was found without members before it was asked for too often.
fn is_empty(rt: &HostRuntime, server: &Server) -> Result<bool, Fail> {
    for _ in 0..MAX_ASKS {
        if ask(rt, server, "status 1")?
            .as_str()
            .starts_with("conference 1 members 0 ")
        {
            return Ok(true);
        }
        thread::sleep(rt, Duration::from_millis(10));
    }
    Ok(false)
}

/// Conferences of several loops: each is served, closed and stopped as one of its own.
#[test]
fn two_loops_serve_beside_each_other(rt: HostRuntime) -> Result<(), Fail> {
    let alloc = rt.alloc();
    let ports = [free_port(&rt)?, free_port(&rt)?];
    let conferences = [(1, ports[0]), (2, ports[1])];
    let (console, mut start) = prepare(&rt, "loops.toml", &conferences)?;
    start.add_word(alloc, "--loops")?;
    start.add_word(alloc, "2")?;
    let thread = thread::spawn(&rt, move || run_to_end(rt, alloc, start))?;
    let server = Server { console, thread };
    assert_eq!(rt; line(&rt, &server)?.as_str(), "ready");
    let _first = greet(&rt, ports[0], HELLO, ANSWER)?;
    let mut second = greet(&rt, ports[1], OTHER_HELLO, ANSWER)?;
    for (asked, wanted) in [
        ("close 1", "ok closed 1"),
        ("close 1", "error Ended"),
        ("revoke 2 1", "error NoRequest"),
        ("status 3", "error NoConference"),
    ] {
        assert_eq!(rt; ask(&rt, &server, asked)?.as_str(), wanted);
    }
    send(&rt, &mut second, OTHER_HELLO).ok_or("sent")?;
    hear(&rt, &mut second, ANSWER).ok_or("heard")?;
    let stopped = ask(&rt, &server, "stop")?;
    assert!(rt;
        stopped.as_str().starts_with("ok stopped seats 2 "),
        "{stopped}"
    );
    let mut byte = [0u8; 1];
    assert_eq!(rt; second.read(&mut byte)?, 0);
    assert_eq!(rt; server.end(&rt), 0);
    fs::remove_file(&rt, "loops.toml")?;
    Ok(())
}
