//! Where the log goes: a sink that takes nothing, a slow one, one that fails, and one that isn't asked for.

use super::clients::{
    Closed, Server, ask, free_port, greet, line, next_line, prepare, run_logged, two_ends,
};
use floor_serve::FreePass;
use std::alloc::Global;
use std::io::Write;
use std::net::{Net, TcpListener, TcpStream};
use std::rt::Files;
use std::sync::atomic::{AtomicBool, AtomicU64, Ordering};
use std::sync::{Arc, Wait};
use std::test::Fail;
use std::thread::Threads;
use std::time::{Clock, Duration};
use std::{fs, io, thread};

const HELLO: &str = "200b0000 00000001 0001 000a";

/// How long something is waited for at most, in milliseconds.
const WAIT_MILLIS: u32 = 20_000;

/// Whether the mark was set before it was waited for too long.
fn is_set<R: Clock>(rt: &R, mark: &AtomicBool) -> bool {
    for _ in 0..WAIT_MILLIS {
        if mark.load(Ordering::SeqCst) {
            return true;
        }
        thread::sleep(rt, Duration::from_millis(1));
    }
    false
}

/// A sink that takes nothing until it is let go, or has waited too long.
#[derive(Drop)]
struct Stalled<R> {
    rt: R,
    is_asked: Arc<AtomicBool, Global>,
    lets_go: Arc<AtomicBool, Global>,
    gave_up: Arc<AtomicBool, Global>,
}

impl<R: Clock> Write for Stalled<R> {
    fn write(&mut self, buf: &[u8]) -> io::Result<usize> {
        self.is_asked.store(true, Ordering::SeqCst);
        if !is_set(&self.rt, &self.lets_go) {
            self.gave_up.store(true, Ordering::SeqCst);
            self.lets_go.store(true, Ordering::SeqCst);
        }
        Ok(buf.len())
    }

    fn flush(&mut self) -> io::Result<()> {
        Ok(())
    }
}

/// Whether the server says so of one connection when it stops.
fn stops<R: AllocGlobal>(rt: &R, server: &Server) -> Result<bool, Fail> {
    Ok(
        ask(rt, server, "stop")?
            .as_str()
            .starts_with("ok stopped seats 1 "),
    )
}

#[test]
fn a_log_that_nobody_reads_holds_nobody_up(rt: HostRuntime) -> Result<(), Fail> {
    let alloc = rt.alloc();
    let is_asked = Arc::new(alloc, AtomicBool::new(false))?;
    let lets_go = Arc::new(alloc, AtomicBool::new(false))?;
    let gave_up = Arc::new(alloc, AtomicBool::new(false))?;
    let sink = Stalled {
        rt,
        is_asked: Arc::try_clone(&is_asked)?,
        lets_go: Arc::try_clone(&lets_go)?,
        gave_up: Arc::try_clone(&gave_up)?,
    };
    let port = free_port(&rt)?;
    let (console, mut start) = prepare(&rt, "stalled.toml", &[(1, port)])?;
    start.ask_for_log(alloc)?;
    let thread = thread::spawn(&rt, move || run_logged(rt, alloc, start, sink, FreePass))?;
    let server = Server { console, thread };
    assert_eq!(rt; line(&rt, &server)?.as_str(), "ready");
    assert!(rt; is_set(&rt, &is_asked), "the sink is given a line");
    let _client = greet(&rt, port, HELLO, 48)?;
    assert!(rt; stops(&rt, &server)?);
    assert_eq!(rt; server.end(&rt), 0);
    assert!(rt;
        !gave_up.load(Ordering::SeqCst),
        "nobody waits for the sink"
    );
    lets_go.store(true, Ordering::SeqCst);
    fs::remove_file(&rt, "stalled.toml")?;
    Ok(())
}

/// The first line of a log that ends so, of those that are looked at.
fn line_of(alloc: Global, log: &TcpStream, end: &str) -> Result<String, Fail> {
    for _ in 0..10 {
        let line = next_line(alloc, log)?;
        if line.as_str().ends_with(end) {
            return Ok(line);
        }
    }
    Err(Fail::from("no line ends so"))
}

#[test]
fn a_line_is_written_at_once_with_its_time_and_the_peer(rt: HostRuntime) -> Result<(), Fail> {
    let alloc = rt.alloc();
    let (log, sink) = two_ends(&rt)?;
    log.set_read_timeout(Some(Duration::from_secs(20)))?;
    let port = free_port(&rt)?;
    let (console, mut start) = prepare(&rt, "at_once.toml", &[(1, port)])?;
    start.ask_for_log(alloc)?;
    let thread = thread::spawn(&rt, move || run_logged(rt, alloc, start, sink, FreePass))?;
    let server = Server { console, thread };
    assert_eq!(rt; line(&rt, &server)?.as_str(), "ready");
    let client = greet(&rt, port, HELLO, 48)?;
    let joined = line_of(alloc, &log, " joined")?;
    let (time, text) = joined.as_str().split_once(' ').ok_or("a line has a time")?;
    // As 2026-11-27T10:43:20.123Z; no run of this was before 2026.
    assert!(rt; "2026" <= time && time.ends_with('Z'), "{time}");
    let peer = client.local_addr()?.port();
    let wanted = format!(in alloc; "conference 1 user 10 port {port} peer {peer} n 1 joined")?;
    assert_eq!(rt; text, wanted.as_str());
    assert!(rt; stops(&rt, &server)?);
    assert_eq!(rt; server.end(&rt), 0);
    fs::remove_file(&rt, "at_once.toml")?;
    Ok(())
}

/// A sink that takes a while for each line, and counts those that it took.
#[derive(Drop)]
struct Slow<R> {
    rt: R,
    lines: Arc<AtomicU64, Global>,
}

impl<R: Clock> Write for Slow<R> {
    fn write(&mut self, buf: &[u8]) -> io::Result<usize> {
        thread::sleep(&self.rt, Duration::from_millis(50));
        self.lines.fetch_add(1, Ordering::SeqCst);
        Ok(buf.len())
    }

    fn flush(&mut self) -> io::Result<()> {
        Ok(())
    }
}

/// Runs a server with such a sink, to which one client comes, to its end. Gives whether all of it went well.
fn serves<R, L>(rt: R, path: &str, has_log: bool, sink: L) -> Result<bool, Fail>
where
    R: Net<Listener = TcpListener, Stream = TcpStream>
        + Files
        + AllocGlobal
        + Clock
        + Threads
        + Wait
        + Copy
        + Drop
        + Send
        + 'static,
    L: Write + Send + Drop + 'static,
{
    let alloc = rt.alloc();
    let port = free_port(&rt)?;
    let (console, mut start) = prepare(&rt, path, &[(1, port)])?;
    if has_log {
        start.ask_for_log(alloc)?;
    }
    let thread = thread::spawn(&rt, move || run_logged(rt, alloc, start, sink, FreePass))?;
    let server = Server { console, thread };
    let is_ready = line(&rt, &server)?.as_str() == "ready";
    let _client = greet(&rt, port, HELLO, 48)?;
    let has_stopped = stops(&rt, &server)?;
    fs::remove_file(&rt, path)?;
    Ok(server.end(&rt) == 0 && is_ready && has_stopped)
}

#[test]
fn the_last_lines_are_written_before_the_end(rt: HostRuntime) -> Result<(), Fail> {
    let lines = Arc::new(rt.alloc(), AtomicU64::new(0))?;
    let sink = Slow {
        rt,
        lines: Arc::try_clone(&lines)?,
    };
    assert!(rt; serves(rt, "last_lines.toml", true, sink)?);
    // Its port listens, the conference is opened, the member joins and leaves, the port ends.
    assert_eq!(rt; lines.load(Ordering::SeqCst), 5);
    Ok(())
}

#[test]
fn a_log_that_cannot_be_written_is_given_up(rt: HostRuntime) -> Result<(), Fail> {
    let asked = Arc::new(rt.alloc(), AtomicU64::new(0))?;
    let sink = Closed {
        asked: Arc::try_clone(&asked)?,
    };
    assert!(rt; serves(rt, "unlogged.toml", true, sink)?);
    assert_eq!(rt; asked.load(Ordering::SeqCst), 1);
    Ok(())
}

#[test]
fn nothing_is_logged_where_nobody_asks_for_it(rt: HostRuntime) -> Result<(), Fail> {
    let asked = Arc::new(rt.alloc(), AtomicU64::new(0))?;
    let sink = Closed {
        asked: Arc::try_clone(&asked)?,
    };
    assert!(rt; serves(rt, "unasked.toml", false, sink)?);
    assert_eq!(rt; asked.load(Ordering::SeqCst), 0);
    Ok(())
}
