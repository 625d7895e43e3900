//! What happens to a server from outside, as data: a line for each, as it is printed for debugging.
//!
//! Peers have numbers. A peer says something, and so many bytes of what it has said are sent later, so that they
//! are cut anywhere. What a peer does that isn't there, or one that connects twice, is nothing, so that a line that
//! is left out leaves the others standing.

use floor_turn::{NamedBy, Place};
use floor_words::{read_u16, read_u32, read_u64};

/// So many bytes that it is all of them.
pub const ALL: usize = 1_000_000_000;

/// Where a certificate names users, where a unique-id does, and where it is looked whether the server lives.
pub const DOOR: Place = Place::Door {
    named_by: NamedBy::Certificate,
    port: 7_000,
};

pub const ID: Place = Place::Door {
    named_by: NamedBy::UniqueId,
    port: 7_001,
};

pub const HEALTH: Place = Place::Health { port: 7_002 };

/// The port of a user of a conference: 5000, a hundred times the conference, and the user.
pub fn port_of(conference: u32, user: u16) -> Place {
    let hundreds = u16::try_from(conference).unwrap_or(0).wrapping_mul(100);
    Place::Port {
        conference,
        user,
        port: hundreds.wrapping_add(user).wrapping_add(5_000),
    }
}

/// What a peer says: a message (RFC 8855, section 5.3), a header of the PROXY protocol, or bytes.
#[derive(Clone, Copy, Debug, PartialEq, Eq)]
pub enum Message {
    Hello,
    /// A FloorRequest of this floor.
    Request(u16),
    /// A FloorRelease of this floor request.
    Release(u16),
    /// A FloorQuery of this floor, which is watched from then on.
    Watch(u16),
    /// A ChairAction that grants this floor request floor 3, or denies it that.
    Grant(u16),
    Refuse(u16),
    /// A Hello with so many times four bytes of attributes that nobody knows.
    Long(u16),
    /// Four bytes.
    Bytes(u32),
    /// A header that names this user.
    Header { conference: u32, user: u16 },
    /// A header of the proxy's own, one whose seventh byte is wrong, and one that names nobody.
    Local,
    Broken,
    Nameless,
}

/// What a peer does.
#[derive(Clone, Copy, Debug, PartialEq, Eq)]
pub enum Does {
    Connect(Place),
    /// It says something so many times, of which nothing is sent yet.
    Say { times: u32, message: Message },
    /// So many bytes of what it has said reach the server's system.
    Send(usize),
    /// Behind what it has sent its stream ends.
    End,
    /// It resets its connection, behind what it has sent.
    Reset,
    /// Writes to it fail from now on; what it sent may be read still.
    Break,
    /// It takes so many bytes more.
    Take(usize),
    /// It takes nothing from now on.
    Stall,
}

/// What happens.
#[derive(Clone, Copy, Debug, PartialEq, Eq)]
pub enum Happening {
    /// Members that are lost outlive their sockets for so many milliseconds, or all members do: the first line, or nothing.
    Grace(u64),
    GraceForAll(u64),
    /// A conference is opened, closed by its administrator, or forgotten.
    Open(u32),
    Close(u32),
    Forget(u32),
    /// The administrator of conference 1 revokes a floor request.
    Revoke(u16),
    /// The server is stopped, and all is done that is to be done then.
    Stop,
    /// No port can be had from now on, or each can again.
    Deny,
    Allow,
    /// No descriptor is left for who connects, or there are some again.
    Starve,
    Feed,
    /// So many deeds are done.
    Deeds(u32),
    /// The poll tells what it has to tell, and all is done that is to be done.
    Turn,
    /// So many microseconds go by.
    Pass(u64),
    /// The clock goes back by so many microseconds.
    Back(u64),
    /// The server is given an answer of this kind that nobody asked for, of this slot.
    Stray { kind: u16, slot: usize },
    /// A peer does something.
    Of { peer: usize, does: Does },
}

/// The names and numbers of a line, one after another: of a line that was printed, or without its braces, commas and fields.
#[derive(Drop)]
struct Words<'a> {
    rest: &'a str,
}

impl<'a> Words<'a> {
    fn word(&mut self) -> Option<&'a str> {
        loop {
            let rest = self
                .rest
                .trim_start_matches(|letter: char| is_between(letter));
            let cut = rest.split_once(|letter: char| is_between(letter));
            let (word, rest) = cut.unwrap_or((rest, ""));
            self.rest = rest;
            if !word.chars().next()?.is_ascii_lowercase() {
                return Some(word);
            }
        }
    }

    fn u16(&mut self) -> Option<u16> {
        read_u16(self.word()?)
    }

    fn u32(&mut self) -> Option<u32> {
        read_u32(self.word()?)
    }

    fn u64(&mut self) -> Option<u64> {
        read_u64(self.word()?)
    }

    fn usize(&mut self) -> Option<usize> {
        Some(self.u32()? as usize)
    }

    fn place(&mut self) -> Option<Place> {
        Some(match self.word()? {
            "Port" => Place::Port {
                conference: self.u32()?,
                user: self.u16()?,
                port: self.u16()?,
            },
            "Door" => Place::Door {
                named_by: match self.word()? {
                    "Certificate" => NamedBy::Certificate,
                    _ => NamedBy::UniqueId,
                },
                port: self.u16()?,
            },
            "Health" => Place::Health { port: self.u16()? },
            _ => return None,
        })
    }

    fn message(&mut self) -> Option<Message> {
        Some(match self.word()? {
            "Hello" => Message::Hello,
            "Request" => Message::Request(self.u16()?),
            "Release" => Message::Release(self.u16()?),
            "Watch" => Message::Watch(self.u16()?),
            "Grant" => Message::Grant(self.u16()?),
            "Refuse" => Message::Refuse(self.u16()?),
            "Long" => Message::Long(self.u16()?),
            "Bytes" => Message::Bytes(self.u32()?),
            "Header" => Message::Header {
                conference: self.u32()?,
                user: self.u16()?,
            },
            "Local" => Message::Local,
            "Broken" => Message::Broken,
            "Nameless" => Message::Nameless,
            _ => return None,
        })
    }

    fn does(&mut self) -> Option<Does> {
        Some(match self.word()? {
            "Connect" => Does::Connect(self.place()?),
            "Say" => Does::Say {
                times: self.u32()?,
                message: self.message()?,
            },
            "Send" => Does::Send(self.usize()?),
            "End" => Does::End,
            "Reset" => Does::Reset,
            "Break" => Does::Break,
            "Take" => Does::Take(self.usize()?),
            "Stall" => Does::Stall,
            _ => return None,
        })
    }
}

fn is_between(letter: char) -> bool {
    !letter.is_ascii_alphanumeric()
}

/// What a line says that happens; `None` where it says nothing of that kind.
pub fn read_happening(line: &str) -> Option<Happening> {
    let mut words = Words { rest: line };
    Some(match words.word()? {
        "Grace" => Happening::Grace(words.u64()?),
        "GraceForAll" => Happening::GraceForAll(words.u64()?),
        "Open" => Happening::Open(words.u32()?),
        "Close" => Happening::Close(words.u32()?),
        "Forget" => Happening::Forget(words.u32()?),
        "Revoke" => Happening::Revoke(words.u16()?),
        "Stop" => Happening::Stop,
        "Deny" => Happening::Deny,
        "Allow" => Happening::Allow,
        "Starve" => Happening::Starve,
        "Feed" => Happening::Feed,
        "Deeds" => Happening::Deeds(words.u32()?),
        "Turn" => Happening::Turn,
        "Pass" => Happening::Pass(words.u64()?),
        "Back" => Happening::Back(words.u64()?),
        "Stray" => Happening::Stray {
            kind: words.u16()?,
            slot: words.usize()?,
        },
        "Of" => Happening::Of {
            peer: words.usize()?,
            does: words.does()?,
        },
        _ => return None,
    })
}
