//! The port at which the server is asked by HTTP: its listener and connections, over mio.
//!
//! What is asked and answered is floor_http's; here the sockets are read and written, and those whose time is over closed.

use floor_http::{Asked, Page};
use floor_streams::{Found, Written, read_some, shut_down, write_some};
use mio::net::{TcpListener, TcpStream};
use mio::{Interest, Registry, Token};
use std::alloc::{AllocError, Global};
use std::io;

/// How many connections there are at most at once.
pub const MAX_PAGES: usize = 64;

/// How long a connection may last, in microseconds.
const LASTS: u64 = 5_000_000;

/// How often a connection is read, and its answer written, at a time.
const MAX_MOVES: u32 = 64;

/// A connection.
#[derive(Drop)]
struct Peer {
    stream: TcpStream,
    page: Page,
    /// When it is closed, in microseconds.
    until: u64,
    /// Whether the poll has told of it.
    is_ready: bool,
}

/// The listener, and who is connected.
///
/// `note` takes what the poll tells; `turn` accepts, reads and writes, and says whether the figures are awaited, which
/// `tell` gives. `due` says when the first connection is to be closed.
#[derive(Drop)]
pub struct HttpPort {
    listener: TcpListener,
    /// The token of the listener; those of connections follow.
    first: usize,
    is_knocked: bool,
    peers: Vec<Option<Peer>>,
}

impl HttpPort {
    /// Has the poll tell of a listener by this token, and of connections by the `MAX_PAGES` that follow.
    pub fn new(
        alloc: Global,
        registry: &Registry,
        mut listener: TcpListener,
        first: usize,
    ) -> io::Result<HttpPort> {
        registry.register(&mut listener, Token(first), Interest::READABLE)?;
        Ok(HttpPort {
            listener,
            first,
            is_knocked: true,
            peers: Vec::new(alloc),
        })
    }

    /// The poll told of this token.
    pub fn note(&mut self, token: usize) {
        let place = token.saturating_sub(self.first);
        if place == 0 {
            self.is_knocked = true;
            return;
        }
        if let Some(Some(peer)) = self.peers.get_mut(place.saturating_sub(1)) {
            peer.is_ready = true;
        }
    }

    /// Whether something is to be done at once.
    pub fn is_ready(&self) -> bool {
        self.is_knocked || self.peers.iter().any(is_ready)
    }

    /// When the first connection is to be closed, in microseconds.
    pub fn due(&self) -> Option<u64> {
        let mut due = None;
        for peer in self.peers.iter() {
            if let Some(peer) = peer {
                due = Some(peer.until.min(due.unwrap_or(u64::MAX)));
            }
        }
        due
    }

    /// Lets in who waits, reads and writes where the poll has told so, and closes who is answered or whose time is over.
    /// Says whether the figures are awaited.
    pub fn turn(
        &mut self,
        alloc: Global,
        registry: &Registry,
        is_draining: bool,
        now: u64,
        buffer: &mut [u8],
    ) -> bool {
        self.let_in(alloc, registry, now);
        let mut awaits = false;
        for place in self.peers.iter_mut() {
            let ends = match place {
                Some(peer) => peer.is_over(is_draining, now, buffer),
                None => false,
            };
            if ends {
                if let Some(mut peer) = place.take() {
                    shut_down(&mut peer.stream, buffer);
                }
            }
            awaits = awaits || does_await(place);
        }
        awaits
    }

    /// Whoever awaits the figures is told this, or closed where there is no memory for it.
    pub fn tell(&mut self, text: Result<&str, AllocError>) {
        for place in self.peers.iter_mut() {
            let ends = match place {
                Some(peer) => peer.page.awaits() && !peer.is_told(text),
                None => false,
            };
            if ends {
                *place = None;
            }
        }
    }

    /// Accepts who waits. Where there is no place they are closed.
    fn let_in(&mut self, alloc: Global, registry: &Registry, now: u64) {
        if !self.is_knocked {
            return;
        }
        for _ in 0..MAX_PAGES {
            match self.listener.accept() {
                Ok((stream, _address)) => {
                    let _placed = self.place(alloc, registry, stream, now);
                }
                Err(error) => {
                    // Who waited may have gone again: another may wait.
                    self.is_knocked = error.kind() == io::ErrorKind::ConnectionAborted;
                    return;
                }
            }
        }
    }

    /// Gives a connection a place.
    fn place(
        &mut self,
        alloc: Global,
        registry: &Registry,
        mut stream: TcpStream,
        now: u64,
    ) -> Result<(), AllocError> {
        let index = self.free_index()?;
        let token = Token(self.first.saturating_add(index).saturating_add(1));
        let interests = Interest::READABLE | Interest::WRITABLE;
        let told = registry.register(&mut stream, token, interests);
        if let (Ok(()), Some(place)) = (told, self.peers.get_mut(index)) {
            *place = Some(Peer {
                stream,
                page: Page::new(alloc),
                until: now.saturating_add(LASTS),
                is_ready: true,
            });
        }
        Ok(())
    }

    /// A place that is free.
    fn free_index(&mut self) -> Result<usize, AllocError> {
        if let Some(index) = self.peers.iter().position(|peer| peer.is_none()) {
            return Ok(index);
        }
        let index = self.peers.len();
        if MAX_PAGES <= index {
            return Err(AllocError);
        }
        self.peers.push(None)?;
        Ok(index)
    }
}

/// Whether the poll has told of a connection.
fn is_ready(peer: &Option<Peer>) -> bool {
    match peer {
        Some(peer) => peer.is_ready,
        None => false,
    }
}

/// Whether the figures are awaited at a place.
fn does_await(peer: &Option<Peer>) -> bool {
    match peer {
        Some(peer) => peer.page.awaits(),
        None => false,
    }
}

impl Peer {
    /// Reads and writes where the poll has told so, and says whether it is answered, has failed, or its time is over.
    fn is_over(&mut self, is_draining: bool, now: u64, buffer: &mut [u8]) -> bool {
        if self.until <= now {
            return true;
        }
        if !self.is_ready {
            return false;
        }
        self.is_ready = false;
        self.read(is_draining, buffer) || self.write()
    }

    /// The figures are told; `false` where there is no memory for it.
    fn is_told(&mut self, text: Result<&str, AllocError>) -> bool {
        self.is_ready = true;
        match text {
            Ok(text) => self.page.tell_metrics(text).is_ok(),
            Err(_) => false,
        }
    }

    /// Reads what has come, and says whether the stream has failed, or ended before anything was asked.
    fn read(&mut self, is_draining: bool, buffer: &mut [u8]) -> bool {
        for _ in 0..MAX_MOVES {
            match read_some(&mut self.stream, buffer) {
                Found::Bytes(count) => {
                    if self.hear(&buffer[..count], is_draining).is_err() {
                        return true;
                    }
                }
                Found::Nothing => return false,
                Found::End => return !self.page.is_asked(),
                Found::Failure => return true,
            }
        }
        self.is_ready = true;
        false
    }

    /// Takes bytes that came, and answers what the server's state has no part in.
    fn hear(&mut self, bytes: &[u8], is_draining: bool) -> Result<(), AllocError> {
        match self.page.came(bytes)? {
            Some(Asked::Health) => self.page.tell_health(),
            Some(Asked::Ready) => self.page.tell_ready(is_draining),
            Some(Asked::Metrics) | None => Ok(()),
        }
    }

    /// Writes what waits, and says whether all of an answer is written, or a write failed.
    fn write(&mut self) -> bool {
        for _ in 0..MAX_MOVES {
            match write_some(&mut self.stream, self.page.lent()) {
                Written::Bytes(count) => self.page.took(count),
                Written::All => return self.page.is_done(),
                Written::Nothing => return false,
                Written::Failure => return true,
            }
        }
        self.is_ready = true;
        false
    }
}
