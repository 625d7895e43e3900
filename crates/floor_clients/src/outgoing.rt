//! The bytes that go out to a client, in order.

ghost use Rattle.std.specs.Prelude.{◌≡◌, ◌≤◌, OnErr, OnOk, length, take};
ghost use Rattle.floor_clients.specs.Outgoing.{answered, is_empty, lent, notices_len, nothing_waits, told, took};

use bytes::BytesMut;
use std::alloc::{AllocError, Global};
use std::marker::Model;

/// How many bytes are lent at once at most: our choice, far more than a system's call takes as a rule.
pub const MAX_LENT: usize = 65_536;

/// What waits to be taken: notifications, then what is left of an answer, if one is under way, then notifications.
#[derive(Drop)]
pub(crate) struct Outgoing {
    bytes: BytesMut,
    /// How many bytes stand in front of the answer that is under way.
    ahead: usize,
    /// How many bytes of it are left.
    answer: usize,
}

impl Model for Outgoing {
    ghost use Rattle.std.specs.Prelude.{◌≤◌, ◌+◌, length};
    ghost use Rattle.floor_clients.specs.Outgoing.{Outgoing};

    ghost Value = { Outgoing };

    ghost view = { λ o. record { bytes = o.bytes.items; ahead = o.ahead; answer = o.answer } };

    ghost invariant = { λ o. o.ahead + o.answer ≤ length o.bytes.items };
}

impl Outgoing {
    /// Nothing waits. Takes no memory.
    pub(crate) fn new(alloc: Global) -> Outgoing
        ensures value { result ≡ nothing_waits }
    {
        Outgoing {
            bytes: BytesMut::new(alloc),
            ahead: 0,
            answer: 0,
        }
    }

    /// How many bytes of an answer are left.
    pub(crate) fn answer_len(&self) -> usize
        ensures value { result ≡ self.now.answer }
    {
        self.answer
    }

    /// How many bytes of notifications wait.
    pub(crate) fn notices_len(&self) -> usize
        ensures value { result ≡ notices_len self.now }
    {
        self.bytes.len() - self.answer
    }

    /// Whether nothing waits.
    pub(crate) fn is_empty(&self) -> bool
        ensures value { result ≡ is_empty self.now }
    {
        self.bytes.is_empty()
    }

    /// Puts an answer behind what waits. After an error nothing has changed.
    pub(crate) fn answer(&mut self, line: &[u8]) -> Result<(), AllocError>
        ensures took { OnOk result (self.new ≡ answered line.now self.old) }
        ensures left { OnErr result (self.new ≡ self.old) }
    {
        let before = self.bytes.len();
        self.bytes.extend_from_slice(line)?;
        self.ahead = before;
        self.answer = line.len();
        Ok(())
    }

    /// Puts a notification behind what waits. After an error nothing has changed.
    pub(crate) fn tell(&mut self, line: &[u8]) -> Result<(), AllocError>
        ensures took { OnOk result (self.new ≡ told line.now self.old) }
        ensures left { OnErr result (self.new ≡ self.old) }
    {
        self.bytes.extend_from_slice(line)
    }

    /// What is to be taken next.
    pub(crate) fn lent(&self) -> &[u8]
        ensures value { result.now ≡ lent self.now }
    {
        first_of(self.bytes.as_slice(), MAX_LENT)
    }

    /// So many bytes were taken.
    pub(crate) fn took(&mut self, count: usize)
        requires { count ≤ length self.old.bytes }
        ensures next { self.new ≡ took count self.old }
    {
        let past = count.saturating_sub(self.ahead);
        self.ahead = self.ahead.saturating_sub(count);
        self.answer = self.answer.saturating_sub(past);
        self.bytes.advance(count);
    }
}

/// The first so many bytes, or all.
fn first_of(bytes: &[u8], most: usize) -> &[u8]
    ensures value { result.now ≡ take most bytes.now }
{
    bytes.get(..most).unwrap_or(bytes)
}
