//! A stream of the server's, as a case plays it.

use std::alloc::Global;
use std::io::{ErrorKind, Read, Write};
use std::net::{Shutdown, TcpStream};
use std::time::Duration;
use test_cases::Fault;

/// A stream, with the bytes that were read of it beyond what was asked for.
#[derive(Drop)]
pub struct Stream {
    pub name: String,
    socket: TcpStream,
    held: Vec<u8>,
}

/// How a read went on.
#[derive(Clone, Copy, Debug, PartialEq, Eq)]
pub enum Heard {
    /// There are as many bytes as were asked for.
    Enough,
    /// The stream has ended.
    End,
    /// It was reset.
    Reset,
    /// Nothing came in time.
    Nothing,
}

impl Heard {
    pub fn name(self) -> &'static str {
        match self {
            Heard::Enough => "enough",
            Heard::End => "end",
            Heard::Reset => "reset",
            Heard::Nothing => "nothing",
        }
    }
}

impl Stream {
    pub fn new(alloc: Global, name: &str, socket: TcpStream) -> Result<Stream, Fault> {
        Ok(Stream {
            name: String::from_str(alloc, name)?,
            socket,
            held: Vec::new(alloc),
        })
    }

    /// Has it wait for so many milliseconds at most.
    pub fn wait_for(&self, millis: u64) -> Result<(), Fault> {
        self.socket
            .set_read_timeout(Some(Duration::from_millis(millis)))?;
        Ok(())
    }

    /// Sends bytes. Where the peer has gone nothing happens.
    pub fn send(&self, bytes: &[u8]) {
        let mut socket = &self.socket;
        let _outcome = socket.write_all(bytes);
    }

    /// Ends its sending side.
    pub fn end_sending(&self) {
        let _outcome = self.socket.shutdown(Shutdown::Write);
    }

    /// Reads until so many bytes are held.
    fn hold(&mut self, count: usize) -> Result<Heard, Fault> {
        let mut piece = [0u8; 4_096];
        while self.held.len() < count {
            let mut socket = &self.socket;
            match socket.read(&mut piece) {
                Ok(0) => return Ok(Heard::End),
                Ok(count) => self.held.extend_from_slice(&piece[..count])?,
                Err(error) => match error.kind() {
                    ErrorKind::WouldBlock | ErrorKind::TimedOut => return Ok(Heard::Nothing),
                    _ => return Ok(Heard::Reset),
                },
            }
        }
        Ok(Heard::Enough)
    }

    /// Takes the first bytes that are held.
    fn take(&mut self, alloc: Global, count: usize) -> Result<Vec<u8>, Fault> {
        let count = count.min(self.held.len());
        let taken = Vec::from_slice(alloc, &self.held[..count])?;
        let left = Vec::from_slice(alloc, &self.held[count..])?;
        self.held = left;
        Ok(taken)
    }

    /// The next so many bytes, or why there aren't as many.
    pub fn bytes(&mut self, alloc: Global, count: usize) -> Result<(Heard, Vec<u8>), Fault> {
        let heard = self.hold(count)?;
        let bytes = match heard {
            Heard::Enough => self.take(alloc, count)?,
            _ => Vec::new(alloc),
        };
        Ok((heard, bytes))
    }

    /// All that comes until the stream ends.
    pub fn rest(&mut self, alloc: Global) -> Result<(Heard, Vec<u8>), Fault> {
        let heard = self.hold(usize::MAX)?;
        let count = self.held.len();
        Ok((heard, self.take(alloc, count)?))
    }

    /// The next line, without its line feed.
    pub fn line(&mut self, alloc: Global) -> Result<(Heard, Vec<u8>), Fault> {
        for _ in 0..100_000 {
            if let Some(end) = self.held.iter().position(|byte| *byte == b'\n') {
                let line = self.take(alloc, end)?;
                let _feed = self.take(alloc, 1)?;
                return Ok((Heard::Enough, line));
            }
            let wanted = self.held.len().saturating_add(1);
            let heard = self.hold(wanted)?;
            if heard != Heard::Enough {
                return Ok((heard, Vec::new(alloc)));
            }
        }
        Ok((Heard::Nothing, Vec::new(alloc)))
    }
}
