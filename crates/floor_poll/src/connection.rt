//! One connection: its socket, and what is known of it.

ghost use Rattle.std.specs.Prelude.{◌≡◌, ◌≤◌, ℕ, length};
ghost use Rattle.floor_streams.specs.declared.reading.Found.TheVariants.{Bytes};

use crate::announced::Announced;
use crate::departure::End;
use floor_server::{MAX_LONGEST, Peer};
use floor_streams::{Found, read_some};
use mio::net::TcpStream;

/// A connection of a member.
#[derive(Drop)]
pub struct Connection {
    pub stream: TcpStream,
    pub peer: Peer,
    /// The member's number.
    pub n: u32,
    /// Whether something may be read from the socket.
    pub is_readable: bool,
    /// Whether the peer has ended its stream, so that a short read isn't the last.
    pub is_half_closed: bool,
    /// Whether messages may wait that a turn has left over.
    pub has_more: bool,
    /// Whether its last turn took long, so that the next one waits behind the others and begins with one message.
    pub is_long: bool,
    /// Whether the socket takes nothing at present.
    pub is_blocked: bool,
    /// Whether a write to the socket has failed: it is shut down once it was read to its end.
    pub has_failed: bool,
    /// Whether it stands among those that are to be served.
    pub is_queued: bool,
    /// Whether it stands among those that are to be shut down, or whose socket has failed.
    pub is_over: bool,
    /// How its reading ended, if it did.
    pub end: Option<End>,
    /// How many bytes came that aren't counted as its conference's yet.
    pub received: u64,
    /// Whether it has begun a message that is too long: once what stands before that is served, nothing more is read.
    pub is_too_long: bool,
    announced: Announced,
}

impl Connection {
    /// A connection that has just joined.
    pub fn new(stream: TcpStream, peer: Peer, n: u32) -> Connection {
        Connection {
            stream,
            peer,
            n,
            is_readable: false,
            is_half_closed: false,
            has_more: false,
            is_long: false,
            is_blocked: false,
            has_failed: false,
            is_queued: false,
            is_over: false,
            end: None,
            received: 0,
            announced: Announced::begin(),
            is_too_long: false,
        }
    }

    /// Takes down that a write has failed. What the system has of the peer still is read to its end, turn by turn: a
    /// reset may stand behind many messages.
    pub fn note_failure(&mut self) {
        self.end = self.end.or(Some(End::Failure));
        self.has_failed = true;
        self.is_readable = true;
        self.is_half_closed = true;
    }

    /// Reads once, and takes down whether more may be read: none where the buffer wasn't filled, unless the peer
    /// has ended its stream. Of a message of more than `longest` bytes, and of all behind it, nothing is given.
    pub fn read(&mut self, buffer: &mut [u8], longest: u32) -> Found
        ensures within { (count : ℕ) → result ≡ Bytes count → count ≤ length buffer.new }
    {
        let room = buffer.len();
        let found = read_some(&mut self.stream, buffer);
        match found {
            Found::Bytes(count) => {
                self.is_readable = self.is_half_closed || count == room || count == 0;
                self.received = self.received.saturating_add(count as u64);
                let bytes = buffer.get(..count).unwrap_or(&[]);
                Found::Bytes(self.pass(bytes, longest))
            }
            Found::Nothing => {
                self.is_readable = false;
                Found::Nothing
            }
            found => found,
        }
    }

    /// How many of these bytes, which come next, are served: all, or those before a message of more than `longest`
    /// bytes, by which the connection is to be ended.
    pub fn pass(&mut self, bytes: &[u8], longest: u32) -> usize
        ensures within { result ≤ length bytes.now }
    {
        if MAX_LONGEST <= longest {
            return bytes.len();
        }
        match self.announced.pass(bytes, longest) {
            Some(at) => {
                self.is_too_long = true;
                self.is_readable = true;
                at
            }
            None => bytes.len(),
        }
    }
}
