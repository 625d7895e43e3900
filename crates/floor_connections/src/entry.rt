//! What the log is told.

use crate::departure::Departure;
use crate::place::{Peer, Place};
use crate::refusal::Refusal;

/// A member, as it is told: its conference, its user, and the how-manieth it was to join.
#[derive(Clone, Copy, Debug, PartialEq, Eq)]
pub struct Who {
    pub conference: u32,
    pub user: u16,
    pub n: u32,
}

/// What became of a conference, a listener or a connection. The time stands in none: whoever writes the log knows it.
#[derive(Clone, Copy, Debug, PartialEq, Eq)]
pub enum Entry {
    /// A conference was opened.
    Opened {
        conference: u32,
    },
    /// A conference was closed.
    Closed {
        conference: u32,
    },
    /// Want of memory has broken a conference off.
    BrokenOff {
        conference: u32,
    },
    /// The memory of a conference was given back.
    Forgotten {
        conference: u32,
    },
    /// The members of a conference have sent so many megabytes, in hundreds: a hundred more than before.
    Large {
        conference: u32,
        megabytes: u64,
    },
    /// A port is listened on.
    Listens(Place),
    /// A port can't be listened on.
    CannotListen(Place),
    /// A port isn't listened on any more.
    Ended(Place),
    /// An accept failed at a port, as it does without a descriptor left.
    CannotAccept(Place),
    /// An accept succeeded again there.
    Accepts(Place),
    /// Who has connected joins no conference.
    Refused {
        peer: Peer,
        refusal: Refusal,
    },
    /// Who has connected has joined.
    Joined {
        peer: Peer,
        who: Who,
    },
    /// A member has left, since its socket was shut.
    Left {
        peer: Peer,
        who: Who,
        departure: Departure,
    },
    /// The socket of a member was shut, and the member stays, away.
    Away {
        peer: Peer,
        who: Who,
        departure: Departure,
    },
    /// A member that was away has left, since its user is back by another.
    Back(Who),
    /// A member that was away has left: its time is over.
    Gone(Who),
    /// The server stops.
    Stopping,
    /// So many entries weren't told, since memory was refused.
    Untold(u64),
}
