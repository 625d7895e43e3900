//! A stream of a browser, or of the server, as a case plays it.

use std::alloc::Global;
use std::io::{ErrorKind, Read, Write};
use std::net::{Shutdown, TcpStream};
use std::sync::Wait;
use std::thread;
use std::thread::Threads;
use std::time::{Clock, Duration};
use test_cases::Fault;

/// How long it waits between two bytes that drip, in milliseconds.
const DRIP_MILLIS: u64 = 100;

/// A stream, with the bytes that were read of it beyond what was asked for.
#[derive(Drop)]
pub struct Stream {
    pub name: String,
    socket: TcpStream,
    held: Vec<u8>,
}

/// How a read went on.
#[derive(Clone, Copy, Debug, PartialEq, Eq)]
pub enum Heard {
    /// There are as many bytes as were asked for.
    Enough,
    /// The stream has ended.
    End,
    /// It was reset.
    Reset,
    /// Nothing came in time.
    Nothing,
}

impl Heard {
    pub fn name(self) -> &'static str {
        match self {
            Heard::Enough => "enough",
            Heard::End => "end",
            Heard::Reset => "reset",
            Heard::Nothing => "nothing",
        }
    }
}

impl Stream {
    pub fn new(alloc: Global, name: &str, socket: TcpStream) -> Result<Stream, Fault> {
        Ok(Stream {
            name: String::from_str(alloc, name)?,
            socket,
            held: Vec::new(alloc),
        })
    }

    /// Has it wait for so many seconds at most.
    pub fn wait_for(&self, seconds: u64) -> Result<(), Fault> {
        self.socket
            .set_read_timeout(Some(Duration::from_secs(seconds)))?;
        Ok(())
    }

    /// Sends bytes. Where the peer has gone nothing happens.
    pub fn send(&self, bytes: &[u8]) {
        let mut socket = &self.socket;
        let _outcome = socket.write_all(bytes);
    }

    /// Sends so many times these bytes by a thread of its own, until the peer has gone.
    pub fn flood<R>(&self, rt: &R, count: u64, bytes: Vec<u8>) -> Result<(), Fault>
    where
        R: Threads,
    {
        let mut socket = self.socket.try_clone()?;
        let started = thread::spawn(rt, move || {
            for _ in 0..count {
                if socket.write_all(bytes.as_slice()).is_err() {
                    break;
                }
            }
        });
        match started {
            Ok(_handle) => Ok(()),
            Err(_) => Err(Fault::Wrong("no thread")),
        }
    }

    /// Sends so many bytes, one after another, and tells whether the peer took them. One whose socket is
    /// closed resets the stream at the first, so a later one can't be sent.
    pub fn drip<R: Clock + Wait>(&self, rt: &R, count: u64) -> bool {
        let mut socket = &self.socket;
        for _ in 0..count {
            if socket.write_all(b"x").is_err() {
                return false;
            }
            thread::sleep(rt, Duration::from_millis(DRIP_MILLIS));
        }
        true
    }

    /// Ends its sending side.
    pub fn end_sending(&self) {
        let _outcome = self.socket.shutdown(Shutdown::Write);
    }

    /// Reads until so many bytes are held.
    fn hold(&mut self, count: usize) -> Result<Heard, Fault> {
        let mut piece = [0u8; 4_096];
        while self.held.len() < count {
            let mut socket = &self.socket;
            match socket.read(&mut piece) {
                Ok(0) => return Ok(Heard::End),
                Ok(count) => self.held.extend_from_slice(&piece[..count])?,
                Err(error) => match error.kind() {
                    ErrorKind::WouldBlock | ErrorKind::TimedOut => return Ok(Heard::Nothing),
                    _ => return Ok(Heard::Reset),
                },
            }
        }
        Ok(Heard::Enough)
    }

    /// Takes the first bytes that are held.
    fn take(&mut self, alloc: Global, count: usize) -> Result<Vec<u8>, Fault> {
        let count = count.min(self.held.len());
        let taken = Vec::from_slice(alloc, &self.held[..count])?;
        let left = Vec::from_slice(alloc, &self.held[count..])?;
        self.held = left;
        Ok(taken)
    }

    /// The next so many bytes, or why there aren't as many.
    pub fn bytes(&mut self, alloc: Global, count: usize) -> Result<(Heard, Vec<u8>), Fault> {
        let heard = self.hold(count)?;
        let bytes = match heard {
            Heard::Enough => self.take(alloc, count)?,
            _ => Vec::new(alloc),
        };
        Ok((heard, bytes))
    }

    /// The next line, without its line feed.
    pub fn line(&mut self, alloc: Global) -> Result<(Heard, Vec<u8>), Fault> {
        for _ in 0..100_000 {
            if let Some(end) = self.held.iter().position(|byte| *byte == b'\n') {
                let line = self.take(alloc, end)?;
                let _feed = self.take(alloc, 1)?;
                return Ok((Heard::Enough, line));
            }
            let wanted = self.held.len().saturating_add(1);
            let heard = self.hold(wanted)?;
            if heard != Heard::Enough {
                return Ok((heard, Vec::new(alloc)));
            }
        }
        Ok((Heard::Nothing, Vec::new(alloc)))
    }

    /// All that comes until the stream ends.
    pub fn rest(&mut self, alloc: Global) -> Result<(Heard, Vec<u8>), Fault> {
        let heard = self.hold(usize::MAX)?;
        let count = self.held.len();
        Ok((heard, self.take(alloc, count)?))
    }

    /// The head of an answer, without the empty line behind it.
    pub fn head(&mut self, alloc: Global) -> Result<(Heard, Vec<u8>), Fault> {
        for _ in 0..100_000 {
            if let Some(end) = end_of_head(self.held.as_slice()) {
                return Ok((Heard::Enough, self.take(alloc, end)?));
            }
            let wanted = self.held.len().saturating_add(1);
            let heard = self.hold(wanted)?;
            if heard != Heard::Enough {
                return Ok((heard, Vec::new(alloc)));
            }
        }
        Ok((Heard::Nothing, Vec::new(alloc)))
    }

    /// The status of the answer that comes next, which stays to be read; none where no answer comes.
    pub fn status(&mut self) -> Result<Option<u16>, Fault> {
        for _ in 0..100_000 {
            if let Some(end) = end_of_head(self.held.as_slice()) {
                let head = std::str::from_utf8(&self.held[..end]).unwrap_or("");
                let status = head.split(' ').nth(1).unwrap_or("");
                return Ok(status.parse().ok());
            }
            let wanted = self.held.len().saturating_add(1);
            if self.hold(wanted)? != Heard::Enough {
                return Ok(None);
            }
        }
        Ok(None)
    }

    /// The next frame of a WebSocket: its first byte and its payload.
    pub fn frame(&mut self, alloc: Global) -> Result<(Heard, u8, Vec<u8>), Fault> {
        let (heard, front) = self.bytes(alloc, 2)?;
        if heard != Heard::Enough {
            return Ok((heard, 0, Vec::new(alloc)));
        }
        let len = match front[1] {
            126 => {
                let (_heard, bytes) = self.bytes(alloc, 2)?;
                number(bytes.as_slice())
            }
            127 => {
                let (_heard, bytes) = self.bytes(alloc, 8)?;
                number(bytes.as_slice())
            }
            len => usize::from(len),
        };
        let (heard, payload) = self.bytes(alloc, len)?;
        Ok((heard, front[0], payload))
    }
}

fn number(bytes: &[u8]) -> usize {
    let mut number = 0usize;
    for byte in bytes {
        number = number
            .saturating_mul(256)
            .saturating_add(usize::from(*byte));
    }
    number
}

/// Where the head of an answer ends, behind its empty line.
fn end_of_head(bytes: &[u8]) -> Option<usize> {
    let at = bytes
        .windows(4)
        .position(|four| four == b"\r\n\r\n".as_slice())?;
    at.checked_add(4)
}
