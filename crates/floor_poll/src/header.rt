//! What comes at a door in front of the first message: a header that says who it is.

ghost use Rattle.std.specs.Prelude.{◌≡◌, ◌++◌, ◌+◌, ◌-◌, drop, length, OnErr, OnOk};
ghost use Rattle.floor_poll.specs.Doors.{follows, read_at};

use floor_proxy::{MAX_HEADER, NamedBy, ProxyRead, ProxyRefusal, read_proxy};
use floor_server::{Entrance, Refused};
use std::alloc::{AllocError, Global};

/// What came at a door, a header's length at most in front of what it says it is.
#[derive(Drop)]
pub struct Header {
    bytes: Vec<u8>,
    /// How many of the bytes are the header's.
    len: usize,
}

/// What follows for a connection from what came.
#[derive(Clone, Copy, Debug, PartialEq, Eq)]
pub enum Verdict {
    /// More has to come.
    Wait,
    /// It is this user of this conference, and the header has so many bytes.
    Enter {
        conference: u32,
        user: u16,
        len: usize,
    },
    /// It only looks whether the server lives.
    LetGo,
    /// It isn't let in.
    Refuse(Refused),
}

impl Header {
    /// Nothing came. Takes no memory.
    pub fn new(alloc: Global) -> Header
        ensures bytes { length result.bytes.items ≡ 0 }
        ensures len { result.len ≡ 0 }
    {
        Header {
            bytes: Vec::new(alloc),
            len: 0,
        }
    }

    /// How many bytes more can be of use.
    pub fn room(&self) -> usize
        ensures value { result ≡ MAX_HEADER - length self.now.bytes.items }
    {
        MAX_HEADER.saturating_sub(self.bytes.len())
    }

    /// Adds bytes that came. After an error nothing has changed.
    pub fn push(&mut self, bytes: &[u8]) -> Result<(), AllocError>
        ensures took { OnOk result (self.new.bytes.items ≡ self.old.bytes.items ++ bytes.now) }
        ensures left { OnErr result (self.new.bytes.items ≡ self.old.bytes.items) }
        ensures len { self.new.len ≡ self.old.len }
    {
        self.bytes.extend_from_slice(bytes)
    }

    /// What follows at a door, where the time or the stream is over or isn't.
    pub fn verdict(&self, entrance: Entrance, is_over: bool) -> Verdict
        ensures value { result ≡ follows (read_at entrance self.now.bytes.items) is_over }
    {
        verdict_of(read_at(entrance, self.bytes.as_slice()), is_over)
    }

    /// Takes it that so many of the bytes are the header's.
    pub fn cut(self, len: usize) -> Header
        ensures len { result.len ≡ len }
        ensures bytes { result.bytes ≡ self.bytes }
    {
        Header {
            bytes: self.bytes,
            len,
        }
    }

    /// What came behind the header.
    pub fn rest(&self) -> &[u8]
        ensures value { result.now ≡ drop self.now.len self.now.bytes.items }
    {
        self.bytes.as_slice().get(self.len..).unwrap_or(&[])
    }
}

/// What a header says that came at this door. At the one for health no header is read.
fn read_at(entrance: Entrance, bytes: &[u8]) -> Result<ProxyRead, ProxyRefusal>
    ensures value { result ≡ read_at entrance bytes.now }
{
    match entrance {
        Entrance::ByCertificate => read_proxy(NamedBy::Certificate, bytes),
        Entrance::ById => read_proxy(NamedBy::UniqueId, bytes),
        Entrance::Health => Ok(ProxyRead::Local),
    }
}

/// What follows from what a header says so far, where the time or the stream is over or isn't.
fn verdict_of(read: Result<ProxyRead, ProxyRefusal>, is_over: bool) -> Verdict
    ensures value { result ≡ follows read is_over }
{
    match read {
        Ok(ProxyRead::More) if is_over => Verdict::Refuse(Refused::NoHeader),
        Ok(ProxyRead::More) => Verdict::Wait,
        Ok(ProxyRead::Local) => Verdict::LetGo,
        Ok(
            ProxyRead::Named {
                conference,
                user,
                len,
            },
        ) => Verdict::Enter {
            conference,
            user,
            len,
        },
        Err(refusal) => Verdict::Refuse(Refused::ByHeader(refusal)),
    }
}
