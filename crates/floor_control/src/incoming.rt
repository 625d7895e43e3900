//! The bytes that came from a client, cut into lines.

ghost use Rattle.std.specs.Prelude.{◌≡◌, [], false, IfOk, OnErr, OnOk};
ghost use Rattle.floor_control.specs.Incoming.{ended, is_spent, line_len, line_next, next_of, rest_of, rest_without_line, room_of, took_in, without_line};

use bytes::BytesMut;
use floor_config::Text;
use std::alloc::{AllocError, Global};
use std::marker::Model;

/// How many bytes a line has at most without its line feed: our choice, far more than any line needs.
pub const MAX_LINE: usize = 65_536;

/// How many bytes are read at once at most.
pub const MAX_READ: usize = 4_096;

/// What comes next from a client.
#[derive(Debug, Drop)]
pub enum Next {
    /// A line, without its line feed.
    Line(Text),
    /// A line that isn't UTF-8.
    NotText {
        /// How many bytes it has without its line feed.
        len: usize,
    },
    /// A line that is too long. Neither it nor what stands behind it is read.
    TooLong,
    /// No whole line has come yet.
    Nothing,
    /// No line comes any more.
    Ended,
}

/// The bytes that came and are in no line that was given.
#[derive(Drop)]
pub(crate) struct Incoming {
    held: BytesMut,
    has_ended: bool,
}

impl Model for Incoming {
    ghost use Rattle.floor_control.specs.Incoming.{Incoming};

    ghost Value = { Incoming };

    ghost view = { λ i. record { held = i.held.items; has_ended = i.has_ended } };
}

impl Incoming {
    /// Nothing came. Takes no memory.
    pub(crate) fn new(alloc: Global) -> Incoming
        ensures value { result ≡ record { held = []; has_ended = false } }
    {
        Incoming {
            held: BytesMut::new(alloc),
            has_ended: false,
        }
    }

    /// How many bytes may be read.
    pub(crate) fn room(&self) -> usize
        ensures value { result ≡ room_of self.now }
    {
        if self.has_ended || MAX_LINE < self.held.len() {
            return 0;
        }
        MAX_READ
    }

    /// Takes bytes that came. After an error nothing has changed.
    pub(crate) fn take_in(&mut self, bytes: &[u8]) -> Result<(), AllocError>
        ensures took { OnOk result (self.new ≡ took_in bytes.now self.old) }
        ensures left { OnErr result (self.new ≡ self.old) }
    {
        if self.has_ended {
            return Ok(());
        }
        self.held.extend_from_slice(bytes)
    }

    /// Takes it that no more bytes come.
    pub(crate) fn end(&mut self)
        ensures value { self.new ≡ ended self.old }
    {
        self.has_ended = true;
    }

    /// What comes next, cut off. After an error nothing has changed.
    pub(crate) fn next(&mut self, alloc: Global) -> Result<Next, AllocError>
        ensures value { IfOk result (λ next. next ≡ next_of self.old) }
        ensures took { OnOk result (self.new ≡ rest_of self.old) }
        ensures left { OnErr result (self.new ≡ self.old) }
    {
        match line_len(self.held.as_slice()) {
            Some(len) if len <= MAX_LINE => {
                let next = line_of(alloc, &self.held.as_slice()[..len])?;
                self.held.advance(len + 1);
                Ok(next)
            }
            _ => Ok(self.without_line()),
        }
    }

    /// What comes next where no line does that may.
    fn without_line(&mut self) -> Next
        ensures value { result ≡ without_line self.old }
        ensures took { self.new ≡ rest_without_line self.old }
    {
        if MAX_LINE < self.held.len() {
            self.held.clear();
            self.has_ended = true;
            return Next::TooLong;
        }
        if self.has_ended {
            return Next::Ended;
        }
        Next::Nothing
    }

    /// Whether no line comes any more.
    pub(crate) fn is_spent(&self) -> bool
        ensures value { result ≡ is_spent self.now }
    {
        self.has_ended && self.held.len() <= MAX_LINE && line_len(self.held.as_slice()).is_none()
    }
}

/// How many bytes stand before the first line feed, where there is one.
fn line_len(bytes: &[u8]) -> Option<usize>
    ensures value { result ≡ line_len bytes.now }
{
    bytes.iter().position(|byte| *byte == b'\n')
}

/// The line of these bytes.
fn line_of(alloc: Global, bytes: &[u8]) -> Result<Next, AllocError>
    ensures value { IfOk result (λ next. next ≡ line_next bytes.now) }
{
    match std::str::from_utf8(bytes) {
        Ok(line) => {
            let text = String::from_str(alloc, line)?;
            Ok(Next::Line(Text::from_string(text)))
        }
        Err(_) => Ok(Next::NotText { len: bytes.len() }),
    }
}
