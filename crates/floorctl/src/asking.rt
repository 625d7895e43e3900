//! The connection: a line out, and lines in.

ghost use Rattle.std.specs.Prelude.{◌≡◌, ◌++◌, ◌<◌, [], length, option_map, IfOk, IfSome, OnErr, OnOk};
ghost use Rattle.floorctl.specs.Lines as spec;

use bytes::BytesMut;
use std::alloc::{AllocError, Global};
use std::io::{Read, Write};
use std::marker::Model;
use std::os::unix::net::UnixStream;

/// How many bytes are read at a time.
const PIECE: usize = 65_536;

/// Why no line comes.
#[derive(Debug, Drop)]
pub enum Ended {
    /// The connection has ended, or failed.
    Gone,
    /// Memory was refused.
    Memory,
}

impl From<AllocError> for Ended {
    fn from(_e: AllocError) -> Ended {
        Ended::Memory
    }
}

/// What came, cut anywhere, and stands in no line that was taken.
#[derive(Drop)]
pub struct Incoming {
    held: BytesMut,
}

impl Model for Incoming {
    ghost use Rattle.std.specs.Prelude.{List, ℕ};

    ghost Value = { List ℕ };

    ghost view = { λ i. i.held.items };
}

impl Incoming {
    /// Nothing came. Takes no memory.
    pub fn new(alloc: Global) -> Incoming
        ensures value { result ≡ [] }
    {
        Incoming {
            held: BytesMut::new(alloc),
        }
    }

    /// Takes bytes that came.
    pub fn put(&mut self, bytes: &[u8]) -> Result<(), AllocError>
        ensures took { OnOk result (self.new ≡ self.old ++ bytes.now) }
        ensures left { OnErr result (self.new ≡ self.old) }
    {
        self.held.extend_from_slice(bytes)
    }

    /// The next line, without its line feed, where one has come.
    pub fn next(&mut self, alloc: Global) -> Result<Option<Vec<u8>>, AllocError>
        ensures took { IfOk result (λ line.
            spec.Takes self.old (option_map (λ found. found.items) line) self.new) }
        ensures left { OnErr result (self.new ≡ self.old) }
    {
        let Some(len) = line_len(self.held.as_slice()) else {
            return Ok(None);
        };
        let mut line = Vec::new(alloc);
        line.extend_from_slice(&self.held.as_slice()[..len])?;
        self.held.advance(len + 1);
        Ok(Some(line))
    }
}

/// How many bytes stand before the first line feed, where there is one.
fn line_len(bytes: &[u8]) -> Option<usize>
    ensures value { result ≡ spec.line_len bytes.now }
    ensures within { IfSome result (λ len. len < length bytes.now) }
{
    bytes.iter().position(|byte| *byte == b'\n')
}

/// A connection, and what came of it.
#[derive(Drop)]
pub struct Connection {
    stream: UnixStream,
    incoming: Incoming,
    buffer: Vec<u8>,
}

impl Connection {
    /// A connection of which nothing came.
    pub fn new(alloc: Global, stream: UnixStream) -> Result<Connection, AllocError> {
        Ok(Connection {
            stream,
            incoming: Incoming::new(alloc),
            buffer: Vec::from_elem(alloc, 0u8, PIECE)?,
        })
    }

    /// Sends a line.
    pub fn send(&mut self, line: &[u8]) -> Result<(), Ended> {
        match self.stream.write_all(line) {
            Ok(()) => Ok(()),
            Err(_) => Err(Ended::Gone),
        }
    }

    /// The next line, without its line feed.
    pub fn next(&mut self, alloc: Global) -> Result<Vec<u8>, Ended> {
        for _ in 0..u64::MAX {
            if let Some(line) = self.incoming.next(alloc)? {
                return Ok(line);
            }
            self.read()?;
        }
        Err(Ended::Gone)
    }

    fn read(&mut self) -> Result<(), Ended> {
        match self.stream.read(self.buffer.as_mut_slice()) {
            Ok(0) | Err(_) => Err(Ended::Gone),
            Ok(count) => {
                let piece = self.buffer.get(..count).unwrap_or(&[]);
                self.incoming.put(piece)?;
                Ok(())
            }
        }
    }
}
