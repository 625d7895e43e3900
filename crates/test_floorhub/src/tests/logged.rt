//! What the log tells.

use super::clients::{
    Server, ask, free_port, greet, line, log_lines, prepare, run_logged, two_ends,
};
use std::io::{Read, Write};
use std::net::Shutdown;
use std::test::Fail;
use std::time::Duration;
use std::{fs, thread};

const HELLO: &str = "200b0000 00000001 0001 000a";

const OTHER_HELLO: &str = "200b0000 00000002 0001 000a";

/// The lines of a run, in the order of the alphabet. Member 1 ends its stream, 2 does inside a message,
/// 3 resets its connection, 4 is there at the stop; conference 2 is closed while its member is there.
const RUN: &str = "conference 1 opened
conference 1 user 10 port FIRST ended
conference 1 user 10 port FIRST listens
conference 1 user 10 port FIRST n 1 joined
conference 1 user 10 port FIRST n 1 left EndOfStream
conference 1 user 10 port FIRST n 2 joined
conference 1 user 10 port FIRST n 2 left InsideMessage
conference 1 user 10 port FIRST n 3 joined
conference 1 user 10 port FIRST n 3 left Reset
conference 1 user 10 port FIRST n 4 joined
conference 1 user 10 port FIRST n 4 left Stopped
conference 2 closed
conference 2 opened
conference 2 user 10 port SECOND ended
conference 2 user 10 port SECOND listens
conference 2 user 10 port SECOND n 1 joined
conference 2 user 10 port SECOND n 1 left Closed
stopping
";

/// How often a status is asked for at most, 10 milliseconds apart.
const MAX_ASKS: u32 = 2_000;

/// Whether conference 1 was found without members before it was asked for too often.
fn is_left(rt: &HostRuntime, server: &Server) -> Result<bool, Fail> {
    for _ in 0..MAX_ASKS {
        if ask(rt, server, "status 1")?
            .as_str()
            .starts_with("conference 1 members 0 ")
        {
            return Ok(true);
        }
        thread::sleep(rt, Duration::from_millis(10));
    }
    Ok(false)
}

/// Three members of conference 1 come and go, each in another way.
fn come_and_go(rt: &HostRuntime, server: &Server, port: u16) -> Result<bool, Fail> {
    let first = greet(rt, port, HELLO, 48)?;
    first.shutdown(Shutdown::Write)?;
    let first_left = is_left(rt, server)?;
    let mut second = greet(rt, port, HELLO, 48)?;
    second.write_all(&[0x20, 11, 0])?;
    second.shutdown(Shutdown::Write)?;
    let second_left = is_left(rt, server)?;
    // What is closed with bytes that it has not read is reset.
    let third = greet(rt, port, HELLO, 47)?;
    drop(third);
    Ok(first_left && second_left && is_left(rt, server)?)
}

#[test]
fn a_run_is_told_line_by_line(rt: HostRuntime) -> Result<(), Fail> {
    let alloc = rt.alloc();
    let ports = [free_port(&rt)?, free_port(&rt)?];
    let (mut log, sink) = two_ends(&rt)?;
    let conferences = [(1, ports[0]), (2, ports[1])];
    let (console, mut start) = prepare(&rt, "logged.toml", &conferences)?;
    start.ask_for_log(alloc)?;
    let thread = thread::spawn(&rt, move || run_logged(rt, alloc, start, sink))?;
    let server = Server { console, thread };
    assert_eq!(rt; line(&rt, &server)?.as_str(), "ready");
    assert!(rt; come_and_go(&rt, &server, ports[0])?);
    let mut closed = greet(&rt, ports[1], OTHER_HELLO, 48)?;
    assert_eq!(rt; ask(&rt, &server, "close 2")?.as_str(), "ok closed 2");
    let mut byte = [0u8; 1];
    assert_eq!(rt; closed.read(&mut byte)?, 0);
    let _stopped = greet(&rt, ports[0], HELLO, 48)?;
    let stopped = ask(&rt, &server, "stop")?;
    assert!(rt;
        stopped.as_str().starts_with("ok stopped seats 5 "),
        "{stopped}"
    );
    assert_eq!(rt; server.end(&rt), 0);
    let first = format!(in alloc; "{}", ports[0])?;
    let second = format!(in alloc; "{}", ports[1])?;
    let told = log_lines(alloc, &mut log)?
        .replace(alloc, first.as_str(), "FIRST")?
        .replace(alloc, second.as_str(), "SECOND")?;
    assert_eq!(rt; told.as_str(), RUN);
    fs::remove_file(&rt, "logged.toml")?;
    Ok(())
}
