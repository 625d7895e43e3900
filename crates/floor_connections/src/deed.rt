//! What is to be done.

use crate::entry::Entry;
use crate::place::Place;

/// Why the server ends where nobody stopped it.
#[derive(Clone, Copy, Debug, PartialEq, Eq)]
pub enum Fault {
    /// A port can't be listened on at the start.
    CannotListen(Place),
}

/// What is to be done next: at most one call of the system. It is done at once, and its answer handed in by the call
/// that is named here, before the next one is asked for.
#[derive(Clone, Copy, Debug, PartialEq, Eq)]
pub enum Deed {
    /// Listen there, and name the listener so to the poll. Answered by `listened`.
    Listen { listener: usize, place: Place },
    /// Listen there no more. Answered by `shut`.
    Unlisten(usize),
    /// Accept one who waits at this listener. Answered by `accepted`, `nobody` or `unaccepted`.
    Accept(usize),
    /// Read up to `MAX_READ` bytes of this socket, once. Answered by `came`, `nothing`, `ended` or `failed`.
    Read(usize),
    /// Write what `lent` lends to this socket, once. Answered by `took`, or by `unwritten` where the write failed.
    Write(usize),
    /// Shut this socket down, both ways, and close it; what stands unread is read and thrown away first, so that no
    /// reset takes back what was sent. Answered by `shut`.
    Shut(usize),
    /// Serve a turn of what a control client has left over. Answered by `client_served`.
    Serve(usize),
    /// Tell the log. Not answered.
    Log(Entry),
    /// A turn was served, or somebody was seen to, without a call of the system. Not answered: the poll may be asked
    /// before the next one.
    Turn,
    /// All is done: nothing is to be done any more. Not answered.
    End(Option<Fault>),
}
