//! What happens to a service from outside, as data.
//!
//! Peers have numbers. What a client asks and a member says is sent later, so many bytes at a time, so that it is cut
//! anywhere. What a peer does that isn't there, or one that connects twice, is nothing, so that what is left out leaves the
//! rest standing.

/// So many bytes that it is all of them.
pub const ALL: usize = 1_000_000_000;

/// As what somebody connects: as a control client, as one that reads alone, or as a user of a conference by its port.
#[derive(Clone, Copy, Debug, PartialEq, Eq)]
pub enum Way {
    Control,
    Observe,
    Member { conference: u32, user: u16 },
}

/// The port of a user of a conference: 5000, a hundred times the conference, and the user.
pub fn port_of(conference: u32, user: u16) -> u16 {
    let hundreds = u16::try_from(conference).unwrap_or(0).wrapping_mul(100);
    hundreds.wrapping_add(user).wrapping_add(5_000)
}

/// What a client asks for.
#[derive(Clone, Copy, Debug, PartialEq, Eq)]
pub enum Ask {
    Open(u32),
    OpenText(u32),
    List,
    Get(u32),
    Close(u32),
    Forget(u32),
    AddUser(u32),
    /// A user with a port.
    AddPort {
        conference: u32,
        user: u16,
    },
    AddFloor(u32),
    SetChair {
        conference: u32,
        floor: u16,
        user: u16,
    },
    Remove {
        conference: u32,
        user: u16,
    },
    RemoveMember {
        conference: u32,
        n: u32,
    },
    Admit {
        conference: u32,
        user: u16,
    },
    Create {
        conference: u32,
        user: u16,
        floor: u16,
    },
    Release {
        conference: u32,
        request: u16,
    },
    Accept {
        conference: u32,
        request: u16,
    },
    Grant {
        conference: u32,
        request: u16,
    },
    Deny {
        conference: u32,
        request: u16,
    },
    Revoke {
        conference: u32,
        request: u16,
    },
    /// A word that observers aren't told.
    SetWord {
        conference: u32,
        user: u16,
    },
    Words(u32),
    Watch {
        conference: u32,
        from: Option<u64>,
    },
    WatchAll,
    Unwatch(u32),
    UnwatchAll,
    Journal {
        conference: u32,
        from: u64,
    },
    Status,
    Help,
    /// A line that isn't JSON, one with a method that isn't there, and one without what it needs.
    NoJson,
    NoMethod,
    NoParams,
}

/// What a member says (RFC 8855, section 5.3).
#[derive(Clone, Copy, Debug, PartialEq, Eq)]
pub enum Message {
    Hello,
    /// A FloorRequest of this floor.
    Request(u16),
    /// A FloorRelease of this floor request.
    Release(u16),
    /// A FloorQuery of this floor, which is watched from then on.
    Watch(u16),
}

/// What a peer does.
#[derive(Clone, Copy, Debug, PartialEq, Eq)]
pub enum Does {
    Connect(Way),
    /// A client asks for something, with an id or without.
    Ask { ask: Ask, is_answered: bool },
    Say { times: u32, message: Message },
    /// So many bytes of what it has asked or said reach the service's system.
    Send(usize),
    /// It takes so many bytes more.
    Take(usize),
    /// It takes nothing from now on.
    Stall,
    /// Behind what it has sent its stream ends.
    End,
    /// It resets its connection, behind what it has sent.
    Reset,
}

/// What happens.
#[derive(Clone, Copy, Debug, PartialEq, Eq)]
pub enum Happening {
    /// From now on all is done of one peer's before anything else happens, a client's line at a time.
    Serially,
    /// So many microseconds go by.
    Pass(u64),
    /// The poll tells what it has to tell, and all is done that is to be done.
    Turn,
    /// A peer does something.
    Of { peer: usize, does: Does },
}
