//! A socket's life, from its accept until it is shut: what is known of it, and what is asked of it next.

ghost use Rattle.std.specs.Prelude.{◌≡◌};
ghost use Rattle.floor_sockets.specs.Life.{at_deadline, came, deed_of, held, is_accepting, is_awaiting, is_shutting, lent, next_asked, none_came, one_came, opened, over, put_off, renamed, served, taken, unblocked, worded};

use crate::role::Role;

/// How many bytes are read at a time at most: our choice. A read of fewer, of a stream that doesn't end, was the last.
pub const MAX_READ: usize = 4_096;

/// What was asked of a socket, and isn't answered yet.
#[derive(Clone, Copy, Debug, PartialEq, Eq)]
pub enum Asked {
    Nothing,
    Accept,
    Read,
    Serve,
    Write,
    Shut,
}

/// What is to be done next, of the socket in this slot.
#[derive(Clone, Copy, Debug, PartialEq, Eq)]
pub enum Deed {
    /// Accept one who waits. Answered by `accepted`, `nothing` or `unaccepted`.
    Accept(usize),
    /// Read up to `MAX_READ` bytes, once. Answered by `came`, `nothing`, `end` or `fail`.
    Read(usize),
    /// Serve what a turn has left over; no call of the system. Answered by `served`, `end` or `fail`.
    Serve(usize),
    /// Write what is lent, once. Answered by `took`, `end` or `fail`.
    Write(usize),
    /// Shut the socket. Answered by `shut`.
    Shut(usize),
}

/// What is known of a socket.
#[derive(Clone, Copy, Debug, PartialEq, Eq)]
pub struct Life {
    pub role: Role,
    /// With whom it shares its turns, as all connections of a conference do.
    pub group: usize,
    /// Whether the poll told that something may be read, or somebody accepted, and nobody has found nothing since.
    pub is_readable: bool,
    /// Whether the poll told that the stream ends, so that a short read isn't the last.
    pub ends: bool,
    /// Whether a turn has left messages over: it isn't read before they are served.
    pub has_more: bool,
    /// Whether it is neither read nor served at present.
    pub is_held: bool,
    /// Whether bytes are lent to be written to it.
    pub has_bytes: bool,
    /// Whether it took fewer bytes than it was lent, and the poll hasn't told since that it takes more.
    pub is_blocked: bool,
    /// Whether it is to be shut down: what is lent is written, and nothing is read, served or accepted.
    pub is_over: bool,
    /// What was asked of it.
    pub asked: Asked,
}

impl Life {
    /// A socket that was opened.
    pub(crate) fn new(role: Role, group: usize) -> Life
        ensures value { result ≡ opened role group }
    {
        Life {
            role,
            group,
            is_readable: false,
            ends: false,
            has_more: false,
            is_held: false,
            has_bytes: false,
            is_blocked: false,
            is_over: false,
            asked: Asked::Nothing,
        }
    }

    /// What is to be asked of it next.
    pub(crate) fn next_asked(self) -> Asked
        ensures value { result ≡ next_asked self }
    {
        match self.asked {
            Asked::Nothing => {}
            Asked::Accept | Asked::Read | Asked::Serve | Asked::Write | Asked::Shut => {
                return Asked::Nothing;
            }
        }
        if self.has_bytes && !self.is_blocked {
            return Asked::Write;
        }
        if self.is_over || self.is_held {
            return Asked::Nothing;
        }
        if self.has_more {
            return Asked::Serve;
        }
        if !self.is_readable {
            return Asked::Nothing;
        }
        match self.role {
            Role::Listener => Asked::Accept,
            Role::Member
            | Role::AtDoor
            | Role::MemberByDoor
            | Role::Control
            | Role::Observer
            | Role::Console
            | Role::Probe
            | Role::Http => Asked::Read,
        }
    }

    /// Whether something is to be asked of it.
    pub(crate) fn is_awaiting(self) -> bool
        ensures value { result ≡ is_awaiting self }
    {
        match self.next_asked() {
            Asked::Nothing => false,
            Asked::Accept | Asked::Read | Asked::Serve | Asked::Write | Asked::Shut => true,
        }
    }

    /// The poll told that something may be read, and whether the stream ends.
    pub(crate) fn worded(self, ends: bool) -> Life
        ensures value { result ≡ worded ends self }
    {
        Life {
            is_readable: true,
            ends: self.ends || ends,
            ..self
        }
    }

    /// The poll told that it takes bytes.
    pub(crate) fn unblocked(self) -> Life
        ensures value { result ≡ unblocked self }
    {
        Life {
            is_blocked: false,
            ..self
        }
    }

    /// Bytes are lent to be written to it, or none.
    pub(crate) fn lent(self, has_bytes: bool) -> Life
        ensures value { result ≡ lent has_bytes self }
    {
        Life { has_bytes, ..self }
    }

    /// It is neither read nor served from now on, or is again.
    pub(crate) fn held(self, is_held: bool) -> Life
        ensures value { result ≡ held is_held self }
    {
        Life { is_held, ..self }
    }

    /// A read found so many bytes, of which a turn has left messages over or hasn't.
    pub(crate) fn came(self, count: usize, has_more: bool) -> Life
        ensures value { result ≡ came count has_more self }
    {
        match self.asked {
            Asked::Read => Life {
                is_readable: self.ends || MAX_READ <= count,
                has_more,
                asked: Asked::Nothing,
                ..self
            },
            Asked::Nothing | Asked::Accept | Asked::Serve | Asked::Write | Asked::Shut => self,
        }
    }

    /// A read found nothing, or nobody waits to be accepted.
    pub(crate) fn none_came(self) -> Life
        ensures value { result ≡ none_came self }
    {
        match self.asked {
            Asked::Read | Asked::Accept => Life {
                is_readable: false,
                asked: Asked::Nothing,
                ..self
            },
            Asked::Nothing | Asked::Serve | Asked::Write | Asked::Shut => self,
        }
    }

    /// One was accepted: others may wait.
    pub(crate) fn one_came(self) -> Life
        ensures value { result ≡ one_came self }
    {
        match self.asked {
            Asked::Accept => Life {
                asked: Asked::Nothing,
                ..self
            },
            Asked::Nothing | Asked::Read | Asked::Serve | Asked::Write | Asked::Shut => self,
        }
    }

    /// An accept failed: it waits.
    pub(crate) fn put_off(self) -> Life
        ensures value { result ≡ put_off self }
    {
        match self.asked {
            Asked::Accept => Life {
                is_held: true,
                asked: Asked::Nothing,
                ..self
            },
            Asked::Nothing | Asked::Read | Asked::Serve | Asked::Write | Asked::Shut => self,
        }
    }

    /// What a turn had left over was served, but for what it has left over.
    pub(crate) fn served(self, has_more: bool) -> Life
        ensures value { result ≡ served has_more self }
    {
        match self.asked {
            Asked::Serve => Life {
                has_more,
                asked: Asked::Nothing,
                ..self
            },
            Asked::Nothing | Asked::Accept | Asked::Read | Asked::Write | Asked::Shut => self,
        }
    }

    /// It took so many bytes of those that were lent.
    pub(crate) fn taken(self, count: usize, lent: usize) -> Life
        ensures value { result ≡ taken count lent self }
    {
        match self.asked {
            Asked::Write => Life {
                is_blocked: count < lent,
                has_bytes: count < lent,
                asked: Asked::Nothing,
                ..self
            },
            Asked::Nothing | Asked::Accept | Asked::Read | Asked::Serve | Asked::Shut => self,
        }
    }

    /// It is to be shut down, which answers whatever was asked.
    pub(crate) fn over(self) -> Life
        ensures value { result ≡ over self }
    {
        match self.asked {
            Asked::Shut => self,
            Asked::Nothing | Asked::Accept | Asked::Read | Asked::Serve | Asked::Write => Life {
                is_over: true,
                asked: Asked::Nothing,
                ..self
            },
        }
    }

    /// Whether it is being shut.
    pub(crate) fn is_shutting(self) -> bool
        ensures value { result ≡ is_shutting self.asked }
    {
        match self.asked {
            Asked::Shut => true,
            Asked::Nothing | Asked::Accept | Asked::Read | Asked::Serve | Asked::Write => false,
        }
    }

    /// Whether it is a listener of which an accept is awaited.
    pub(crate) fn is_accepting(self) -> bool
        ensures value { result ≡ is_accepting self.asked }
    {
        match self.asked {
            Asked::Accept => true,
            Asked::Nothing | Asked::Read | Asked::Serve | Asked::Write | Asked::Shut => false,
        }
    }

    /// It is for something else from now on, and shares its turns with these.
    pub(crate) fn renamed(self, role: Role, group: usize) -> Life
        ensures value { result ≡ renamed role group self }
    {
        Life {
            role,
            group,
            ..self
        }
    }

    /// Its time has come: a listener that waits accepts again, any other is shut.
    pub(crate) fn at_deadline(self) -> Life
        ensures value { result ≡ at_deadline self }
    {
        match self.role {
            Role::Listener if !self.is_over => Life {
                is_held: false,
                asked: Asked::Accept,
                ..self
            },
            Role::Listener
            | Role::Member
            | Role::AtDoor
            | Role::MemberByDoor
            | Role::Control
            | Role::Observer
            | Role::Console
            | Role::Probe
            | Role::Http => Life {
                is_over: true,
                asked: Asked::Shut,
                ..self
            },
        }
    }
}

/// What is to be done where this is asked of the socket in this slot.
pub(crate) fn deed_of(asked: Asked, slot: usize) -> Option<Deed>
    ensures value { result ≡ deed_of asked slot }
{
    match asked {
        Asked::Nothing => None,
        Asked::Accept => Some(Deed::Accept(slot)),
        Asked::Read => Some(Deed::Read(slot)),
        Asked::Serve => Some(Deed::Serve(slot)),
        Asked::Write => Some(Deed::Write(slot)),
        Asked::Shut => Some(Deed::Shut(slot)),
    }
}
