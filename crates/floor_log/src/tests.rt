//! A log over sinks that take all, nothing, and what they can't be given.

use crate::log::Log;
use crate::waiting::MAX_WAITING;
use std::alloc::Global;
use std::io::{ErrorKind, Read, Write};
use std::net::{Net, TcpListener, TcpStream};
use std::sync::atomic::{AtomicBool, AtomicU64, Ordering};
use std::sync::{Arc, Wait};
use std::test::Fail;
use std::time::{Clock, Duration};
use std::{io, thread};

/// How often a count is looked at most, 10 milliseconds apart.
const MAX_LOOKS: u32 = 500;

/// How often a sink that takes nothing looks at most whether it is let go, 10 milliseconds apart.
const MAX_STALLED_LOOKS: u32 = 3_000;

/// Two ends of a connection.
fn two_ends<R: Net<Listener = TcpListener, Stream = TcpStream>>(
    rt: &R,
) -> Result<(TcpStream, TcpStream), Fail> {
    let listener = TcpListener::bind(rt, "127.0.0.1:0")?;
    let first = TcpStream::connect(rt, listener.local_addr()?)?;
    let (second, _) = listener.accept()?;
    Ok((first, second))
}

/// The next line of a log, without its line feed; what there is where the stream ends before.
fn next_line(alloc: Global, log: &mut TcpStream) -> Result<String, Fail> {
    let mut bytes = Vec::new(alloc);
    for _ in 0..1_000 {
        let mut byte = [0u8; 1];
        if log.read(&mut byte)? == 0 || byte[0] == b'\n' {
            break;
        }
        bytes.push(byte[0])?;
    }
    Ok(String::from_utf8(bytes)?)
}

#[test]
fn a_line_is_written_at_once_and_the_last_before_the_end(rt: HostRuntime) -> Result<(), Fail> {
    let alloc = rt.alloc();
    let (mut heard, sink) = two_ends(&rt)?;
    heard.set_read_timeout(Some(Duration::from_secs(20)))?;
    let log = Log::start(rt, alloc, sink).ok_or("a log starts")?;
    log.tell(&rt, String::from_str(alloc, "first"));
    let first = next_line(alloc, &mut heard)?;
    let (time, text) = first.as_str().split_once(' ').ok_or("a line has a time")?;
    // As 2026-11-27T10:43:20.123Z; no run of this was before 2026.
    assert_eq!(rt; time.len(), 24);
    assert!(rt; "2026" <= time && time.ends_with('Z'), "{time}");
    assert_eq!(rt; text, "first");
    log.tell(&rt, String::from_str(alloc, "second"));
    log.tell(&rt, String::from_str(alloc, "third"));
    log.end(&rt);
    log.tell(&rt, String::from_str(alloc, "behind the end"));
    let second = next_line(alloc, &mut heard)?;
    assert!(rt; second.as_str().ends_with(" second"), "{second}");
    let third = next_line(alloc, &mut heard)?;
    assert!(rt; third.as_str().ends_with(" third"), "{third}");
    let end = next_line(alloc, &mut heard)?;
    assert_eq!(rt; end.as_str(), "");
    Ok(())
}

/// A sink that takes nothing, and counts what it is asked for.
#[derive(Drop)]
struct Broken {
    asked: Arc<AtomicU64, Global>,
}

impl Write for Broken {
    fn write(&mut self, _buf: &[u8]) -> io::Result<usize> {
        self.asked.fetch_add(1, Ordering::SeqCst);
        Err(io::Error::from(ErrorKind::BrokenPipe))
    }

    fn flush(&mut self) -> io::Result<()> {
        Ok(())
    }
}

/// Waits until the count is 1, for a while.
fn wait_for_one<R: Clock>(rt: &R, count: &AtomicU64) {
    for _ in 0..MAX_LOOKS {
        if count.load(Ordering::SeqCst) == 1 {
            return;
        }
        thread::sleep(rt, Duration::from_millis(10));
    }
}

#[test]
fn a_log_that_cannot_be_written_is_given_up_at_once(rt: HostRuntime) -> Result<(), Fail> {
    let alloc = rt.alloc();
    let asked = Arc::new(alloc, AtomicU64::new(0))?;
    let sink = Broken {
        asked: Arc::try_clone(&asked)?,
    };
    let log = Log::start(rt, alloc, sink).ok_or("a log starts")?;
    log.tell(&rt, String::from_str(alloc, "first"));
    wait_for_one(&rt, &asked);
    for _ in 0..10 {
        log.tell(&rt, String::from_str(alloc, "another"));
    }
    log.end(&rt);
    assert_eq!(rt; asked.load(Ordering::SeqCst), 1);
    Ok(())
}

/// A sink that takes nothing until it is let go, or has waited too long.
#[derive(Drop)]
struct Stalled<R> {
    rt: R,
    lets_go: Arc<AtomicBool, Global>,
    gave_up: Arc<AtomicBool, Global>,
}

impl<R: Clock> Write for Stalled<R> {
    fn write(&mut self, buf: &[u8]) -> io::Result<usize> {
        for _ in 0..MAX_STALLED_LOOKS {
            if self.lets_go.load(Ordering::SeqCst) {
                return Ok(buf.len());
            }
            thread::sleep(&self.rt, Duration::from_millis(10));
        }
        self.gave_up.store(true, Ordering::SeqCst);
        self.lets_go.store(true, Ordering::SeqCst);
        Ok(buf.len())
    }

    fn flush(&mut self) -> io::Result<()> {
        Ok(())
    }
}

#[test]
fn a_sink_that_takes_nothing_holds_nobody_up(rt: HostRuntime) -> Result<(), Fail> {
    let alloc = rt.alloc();
    let lets_go = Arc::new(alloc, AtomicBool::new(false))?;
    let gave_up = Arc::new(alloc, AtomicBool::new(false))?;
    let sink = Stalled {
        rt,
        lets_go: Arc::try_clone(&lets_go)?,
        gave_up: Arc::try_clone(&gave_up)?,
    };
    let log = Log::start(rt, alloc, sink).ok_or("a log starts")?;
    // One is with the sink, as many wait as may, and one is more than these.
    for _ in 0..MAX_WAITING + 2 {
        log.tell(&rt, String::from_str(alloc, "a line that nobody reads"));
    }
    log.end(&rt);
    assert!(rt; !gave_up.load(Ordering::SeqCst));
    lets_go.store(true, Ordering::SeqCst);
    Ok(())
}
