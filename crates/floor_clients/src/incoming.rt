//! The bytes that came from a client, cut into lines.

ghost use Rattle.std.specs.Prelude.{◌≡◌, ◌≤◌, ◌<◌, ◌+◌, ◌++◌, [], IfSome, OnErr, OnOk, drop, length, take};
ghost use Rattle.std.specs.List.{position_or_len};
ghost use Rattle.floor_clients.specs.Lines.{is_line_feed, line_len};

use bytes::BytesMut;
use std::alloc::{AllocError, Global};
use std::marker::Model;

/// The bytes that came and are in no line that was served, and how many of them were looked at for a line feed.
#[derive(Drop)]
pub(crate) struct Incoming {
    held: BytesMut,
    searched: usize,
}

impl Model for Incoming {
    ghost use Rattle.std.specs.Prelude.{◌≤◌, List, ℕ};
    ghost use Rattle.std.specs.List.{position_or_len};
    ghost use Rattle.floor_clients.specs.Lines.{is_line_feed};

    ghost Value = { List ℕ };

    ghost view = { λ i. i.held.items };

    ghost invariant = { λ i. i.searched ≤ position_or_len is_line_feed i.held.items };
}

impl Incoming {
    /// Nothing came. Takes no memory.
    pub(crate) fn new(alloc: Global) -> Incoming
        ensures value { result ≡ [] }
    {
        Incoming {
            held: BytesMut::new(alloc),
            searched: 0,
        }
    }

    /// How many bytes are held.
    pub(crate) fn len(&self) -> usize
        ensures value { result ≡ length self.now }
    {
        self.held.len()
    }

    /// Takes bytes that came. After an error nothing has changed.
    pub(crate) fn take_in(&mut self, bytes: &[u8]) -> Result<(), AllocError>
        ensures took { OnOk result (self.new ≡ self.old ++ bytes.now) }
        ensures left { OnErr result (self.new ≡ self.old) }
    {
        self.held.extend_from_slice(bytes)
    }

    /// How many bytes stand before the first line feed, where one came. No byte is looked at twice for it.
    pub(crate) fn find(&mut self) -> Option<usize>
        ensures value { result ≡ line_len self.old }
        ensures within { IfSome result (λ len. len < length self.old) }
        ensures same { self.new ≡ self.old }
    {
        let found = line_len_behind(self.held.as_slice(), self.searched);
        match found {
            Some(len) => self.searched = len,
            None => self.searched = self.held.len(),
        }
        found
    }

    /// The first so many bytes.
    pub(crate) fn front(&self, len: usize) -> &[u8]
        requires { len ≤ length self.now }
        ensures value { result.now ≡ take len self.now }
    {
        &self.held.as_slice()[..len]
    }

    /// So many bytes are served.
    pub(crate) fn pass(&mut self, count: usize)
        requires { count ≤ length self.old }
        ensures next { self.new ≡ drop count self.old }
    {
        self.held.advance(count);
        self.searched = 0;
    }
}

/// How many bytes stand before the first line feed, where there is one, none of which is among the first `searched`.
fn line_len_behind(bytes: &[u8], searched: usize) -> Option<usize>
    requires { searched ≤ position_or_len is_line_feed bytes.now }
    ensures value { result ≡ line_len bytes.now }
    ensures within { IfSome result (λ len. (len < length bytes.now)
        × (len ≤ position_or_len is_line_feed bytes.now)) }
    ensures none { result ≡ None → length bytes.now ≤ position_or_len is_line_feed bytes.now }
{
    let (_, rest) = bytes.split_at(searched);
    match line_len(rest) {
        Some(len) => Some(searched + len),
        None => None,
    }
}

/// How many bytes stand before the first line feed, where there is one.
fn line_len(bytes: &[u8]) -> Option<usize>
    ensures value { result ≡ line_len bytes.now }
{
    bytes.iter().position(|byte| *byte == b'\n')
}
