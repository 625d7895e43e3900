//! What a connection's stream gave is handed in, and what the loop lends it takes, and nothing else; and the run of which
//! it is proved that what was written is what the floor machine alone calls for.

use crate::cases::assert_told;
use crate::hexadecimal::{bytes, spelled};
use floor_claims::{Stopped, serve_while_another_returns};
use floor_config::Config;
use floor_loop::{ConnNo, Loop};
use floor_streams::{Came, Stream, Written, read_once, shut_down, write_once};
use std::alloc::{AllocError, Global};
use std::fmt::Write as Text;
use std::io;
use std::io::{ErrorKind, Read, Write};

/// User 10 asks for floor 1.
const REQUEST: &str = "20010001 00000001 0001000a 04040001";

/// It is granted at once.
const GRANTED: &str =
    " 20040007 00000001 0001000a 1e1c0001 24080001 0a040300 22080001 0a040300 1c04000a 08044000";

/// A stream that takes 15 bytes of each second write, and else fails by each of these in turn.
#[derive(Drop)]
struct Slow {
    taken: Vec<u8>,
    writes: usize,
}

/// How the writes fail, one after another, and then no more.
const FAILURES: [ErrorKind; 2] = [ErrorKind::WouldBlock, ErrorKind::Interrupted];

impl Write for Slow {
    fn write(&mut self, buf: &[u8]) -> io::Result<usize> {
        let place = self.writes;
        self.writes = place.saturating_add(1);
        match FAILURES.get(place) {
            Some(kind) => return Err(io::Error::from(*kind)),
            None => {}
        }
        let count = buf.len().min(15);
        let Some(part) = buf.get(..count) else {
            return Ok(0);
        };
        self.taken.extend_from_slice(part)?;
        Ok(count)
    }

    fn flush(&mut self) -> io::Result<()> {
        Ok(())
    }
}

/// What came of a read.
fn push_came(text: &mut String, came: Came) -> Result<(), AllocError> {
    match came {
        Came::Bytes { count, more } => write!(text, "{count} {more}"),
        Came::Refused(refusal) => text.push_str(refusal.name()),
        Came::Nothing => text.push_str("nothing"),
        Came::End => text.push_str("end"),
        Came::Failure => text.push_str("failure"),
    }
}

/// What a write came to.
fn push_written(text: &mut String, written: Written) -> Result<(), AllocError> {
    match written {
        Written::All => text.push_str("all"),
        Written::Bytes(count) => write!(text, "{count}"),
        Written::Nothing => text.push_str("nothing"),
        Written::Failure => text.push_str("failure"),
    }
}

/// All that a stream gives, ten bytes at a time.
fn read_all(
    hub: &mut Loop,
    number: ConnNo,
    mut stream: &[u8],
    text: &mut String,
) -> Result<(), AllocError> {
    let mut buffer = [0u8; 10];
    for _ in 0..3 {
        let came = read_once(hub, &mut stream, &mut buffer, number, 64, 0);
        push_came(text, came)?;
        text.push_str(", ")?;
    }
    Ok(())
}

/// A request comes in two reads, and its answer is taken in four writes, before which two fail.
fn a_request(alloc: Global) -> Result<String, AllocError> {
    let mut text = String::new(alloc);
    let mut hub = Loop::new(alloc);
    let _opened = hub.open(alloc, Config::demonstration(alloc)?);
    let number = hub.attach(alloc, 1, 10, 0).unwrap_or(0);
    read_all(&mut hub, number, &bytes(alloc, REQUEST)?, &mut text)?;
    let _ready = hub.ready();
    let mut stream = Slow {
        taken: Vec::new(alloc),
        writes: 0,
    };
    for _ in 0..6 {
        let written = write_once(&mut hub, &mut stream, number, 0);
        push_written(&mut text, written)?;
        text.push_str(", ")?;
    }
    let events = hub.status(1).map_or(0, |status| status.events);
    write!(text, "{events} events:")?;
    text.push_str(&spelled(alloc, &stream.taken)?)?;
    Ok(text)
}

#[test]
fn what_a_stream_gives_is_handed_in_and_what_is_lent_it_takes(rt: HostRuntime) {
    let told = a_request(rt.alloc());
    let wanted = "10 false, 6 false, end, nothing, 0, 15, 15, 10, all, 3 events: 20040007 00000001 \
        0001000a 1e1c0001 24080001 0a040300 22080001 0a040300 1c04000a 08044000";
    assert_told(&rt, told, wanted);
}

/// What the socket took in the run, and why it has no result.
fn run(alloc: Global, user: u16, other: u16) -> Result<String, AllocError> {
    let config = Config::demonstration(alloc)?;
    let came = bytes(alloc, REQUEST)?;
    match serve_while_another_returns(alloc, config, user, other, &came, 0) {
        Ok(run) => spelled(alloc, &run.taken),
        Err(stopped) => {
            let mut text = String::new(alloc);
            push_stopped(&mut text, stopped)?;
            Ok(text)
        }
    }
}

fn push_stopped(text: &mut String, stopped: Stopped) -> Result<(), AllocError> {
    match stopped {
        Stopped::Refused(refusal) => text.push_str(refusal.name()),
        Stopped::Gone => text.push_str("Gone"),
        Stopped::Broken => text.push_str("Broken"),
        Stopped::Memory => text.push_str("Memory"),
    }
}

#[test]
fn an_answer_is_written_whole_while_another_is_lost_and_returns(rt: HostRuntime) {
    assert_told(&rt, run(rt.alloc(), 10, 11), GRANTED);
}

#[test]
fn who_comes_in_ones_own_name_is_lost_too(rt: HostRuntime) {
    assert_told(&rt, run(rt.alloc(), 10, 10), GRANTED);
}

#[test]
fn a_user_of_no_conference_is_refused(rt: HostRuntime) {
    assert_told(&rt, run(rt.alloc(), 99, 11), "NoUser");
}

/// A stream that has so many bytes left, and says whether it was ended behind the last of them.
#[derive(Drop)]
struct Ending {
    left: usize,
    is_ended: bool,
}

impl Read for Ending {
    fn read(&mut self, buf: &mut [u8]) -> io::Result<usize> {
        let count = buf.len().min(self.left);
        self.left = self.left.saturating_sub(count);
        Ok(count)
    }
}

impl Write for Ending {
    fn write(&mut self, buf: &[u8]) -> io::Result<usize> {
        Ok(buf.len())
    }

    fn flush(&mut self) -> io::Result<()> {
        Ok(())
    }
}

impl Stream for Ending {
    fn end(&mut self) {
        self.is_ended = self.left == 0;
    }
}

#[test]
fn a_stream_is_ended_once_what_has_come_is_read(rt: HostRuntime) {
    let mut stream = Ending {
        left: 100,
        is_ended: false,
    };
    shut_down(&mut stream, &mut [0u8; 7]);
    assert!(rt; stream.is_ended, "100 bytes, 7 at a time");
}
