//! The way to the server: a connection to its door, for one session.

use floor_proxy::unique_id_header;
use mio::net::TcpStream;
use mio::{Interest, Registry, Token};
use std::alloc::Global;
use std::io::{ErrorKind, Read, Write};
use std::net::{Ipv4Addr, Net, Shutdown, SocketAddr};

/// A byte that begins a message which doesn't come: the server takes whose stream ends behind it as lost.
const UNFINISHED: u8 = 0x20;

/// How many bytes that were written may stand in front of those that wait before these are moved.
const MAX_WRITTEN: usize = 4_096;

/// How a connection goes on.
#[derive(Clone, Copy, Debug, PartialEq, Eq)]
pub enum Flow {
    /// So many bytes were read.
    Bytes(usize),
    /// Nothing at present.
    Nothing,
    /// It has ended, or failed.
    Over,
}

/// A connection to the server's door.
///
/// What is put into `up` is sent behind the header. Once it is `ending`, it is shut down behind that and read to
/// its end: where bytes are unread, a close would take back what was sent.
#[derive(Drop)]
pub struct Link {
    stream: TcpStream,
    /// Whose session it is for; nobody's once that has ended.
    pub place: Option<usize>,
    /// What is left of the header.
    header: Vec<u8>,
    /// What the server is to be sent, and how much of it was.
    pub up: Vec<u8>,
    written: usize,
    /// Whether there may be something to read.
    pub is_readable: bool,
    /// Whether the socket takes nothing at present.
    is_blocked: bool,
    /// Whether it stands among those that are to be served.
    pub is_queued: bool,
    /// Whether anything came of the server.
    pub has_heard: bool,
    /// Whether it is to be ended.
    pub is_ending: bool,
    is_shut_down: bool,
    /// By when the server has to have said something, or else to have ended, in milliseconds.
    pub until: u64,
    /// The number of the connection that ends once the server has said something to this one.
    pub before: Option<u64>,
}

impl Link {
    /// Begins to connect to the door at a port of this machine, for a user of a conference.
    pub fn open<R: Net>(
        rt: &R,
        alloc: Global,
        registry: &Registry,
        token: Token,
        door: u16,
        conference: u32,
        user: u16,
    ) -> std::io::Result<Link> {
        let header = unique_id_header(alloc, conference, user)?;
        let address = SocketAddr::from((Ipv4Addr::LOCALHOST, door));
        let mut stream = TcpStream::connect(rt, address)?;
        let interests = Interest::READABLE | Interest::WRITABLE;
        registry.register(&mut stream, token, interests)?;
        // Without it a small request waits for the one before.
        let _outcome = stream.set_nodelay(true);
        Ok(Link {
            stream,
            place: None,
            header,
            up: Vec::new(alloc),
            written: 0,
            is_readable: false,
            // It is connected once it is told to be writable.
            is_blocked: true,
            is_queued: false,
            has_heard: false,
            is_ending: false,
            is_shut_down: false,
            until: 0,
            before: None,
        })
    }

    /// Whether the server was connected to.
    pub fn is_connected(&self) -> bool {
        self.header.is_empty()
    }

    /// Takes down that the socket takes something again.
    pub fn unblock(&mut self) {
        self.is_blocked = false;
    }

    /// Ends it behind what is to be sent.
    pub fn end(&mut self, until: u64) {
        self.place = None;
        self.is_ending = true;
        self.until = until;
    }

    /// Ends it so that the server takes the member as lost. Where memory is refused it is closed at once.
    pub fn lose(&mut self, until: u64) {
        if self.up.push(UNFINISHED).is_err() {
            self.is_shut_down = true;
        }
        self.end(until);
    }

    /// Writes what is to be written, as far as the socket takes it. Tells whether it goes on.
    pub fn write(&mut self) -> bool {
        if !self.header.is_empty() && !self.is_blocked {
            match write_some(&mut self.stream, self.header.as_slice()) {
                Flow::Bytes(count) if count == self.header.len() => self.header.clear(),
                // A header goes whole into an empty socket.
                Flow::Bytes(_) | Flow::Over => return false,
                Flow::Nothing => self.is_blocked = true,
            }
        }
        if !self.header.is_empty() {
            return true;
        }
        for _ in 0..self.up.len() {
            if self.is_blocked || self.up.len() <= self.written {
                break;
            }
            let rest = self.up.as_slice().get(self.written..).unwrap_or(&[]);
            match write_some(&mut self.stream, rest) {
                Flow::Bytes(count) => self.written = self.written.saturating_add(count),
                Flow::Nothing => self.is_blocked = true,
                Flow::Over => return false,
            }
        }
        self.tidy();
        if self.is_ending && self.up.is_empty() && !self.is_shut_down {
            self.is_shut_down = true;
            let _outcome = self.stream.shutdown(Shutdown::Write);
        }
        true
    }

    /// Lets go of what was written.
    fn tidy(&mut self) {
        if self.up.len() <= self.written {
            self.up.clear();
            self.written = 0;
        } else if MAX_WRITTEN <= self.written {
            let alloc = *self.up.allocator();
            let rest = self.up.as_slice().get(self.written..).unwrap_or(&[]);
            // Without memory for it they stay where they are.
            if let Ok(rest) = Vec::from_slice(alloc, rest) {
                self.up = rest;
                self.written = 0;
            }
        }
    }

    /// Reads once.
    pub fn read(&mut self, buffer: &mut [u8]) -> Flow {
        match self.stream.read(buffer) {
            Ok(0) => Flow::Over,
            Ok(count) => {
                self.has_heard = true;
                Flow::Bytes(count)
            }
            Err(error) => match error.kind() {
                ErrorKind::WouldBlock => {
                    self.is_readable = false;
                    Flow::Nothing
                }
                ErrorKind::Interrupted => Flow::Bytes(0),
                _ => Flow::Over,
            },
        }
    }
}

/// Writes once.
fn write_some(stream: &mut TcpStream, bytes: &[u8]) -> Flow {
    match stream.write(bytes) {
        Ok(count) => Flow::Bytes(count),
        Err(error) => match error.kind() {
            ErrorKind::WouldBlock => Flow::Nothing,
            ErrorKind::Interrupted => Flow::Bytes(0),
            _ => Flow::Over,
        },
    }
}
