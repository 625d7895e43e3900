//! What the log tells: a line for what becomes of a conference, a port or a connection.

ghost use Rattle.std.specs.Prelude.{◌≡◌};
ghost use Rattle.floor_server.specs.Doors.{name_of_door};

use crate::departure::{Departure, Refused};
use floor_keep::{KeepFault, Left, Unkept};
use std::alloc::{AllocError, Global};

/// What became of a conference, a port or a connection.
#[derive(Clone, Copy, Debug)]
pub enum Entry {
    /// A conference was opened.
    Opened {
        conference: u32,
    },
    /// A conference was closed.
    Closed {
        conference: u32,
    },
    /// Want of memory has broken a conference off.
    BrokenOff {
        conference: u32,
    },
    /// A user's port is listened on.
    Listens(UserPort),
    /// It isn't any more, and none of its connections runs.
    Ended(UserPort),
    /// It can't accept connections, as without a descriptor left.
    CannotAccept(UserPort),
    /// It accepts connections again.
    Accepts(UserPort),
    /// A door is listened on.
    DoorListens(Door),
    /// It isn't any more.
    DoorEnded(Door),
    /// It can't accept connections.
    DoorCannotAccept(Door),
    /// It accepts connections again.
    DoorAccepts(Door),
    /// A connection at a door joins no conference. `peer` is its own port; 0 where the system doesn't tell.
    RefusedAtDoor {
        door: Door,
        peer: u16,
        cause: Refused,
    },
    /// A connection has joined its conference as member n.
    Joined {
        peer: Peer,
        n: u32,
    },
    /// A connection doesn't join its conference.
    Refused {
        peer: Peer,
        cause: Refused,
    },
    /// Member n has left.
    Left {
        peer: Peer,
        n: u32,
        departure: Departure,
    },
    /// The connection of member n is lost, and the member stays, away.
    Away {
        peer: Peer,
        n: u32,
        departure: Departure,
    },
    /// The user of member n is back, by another member.
    Back {
        conference: u32,
        user: u16,
        n: u32,
    },
    /// Member n, which was away, has left: its time is over, or it was shown out or cut.
    Gone {
        conference: u32,
        user: u16,
        n: u32,
    },
    /// The members of a conference have sent so many megabytes, which is a hundred more than was told before.
    Large {
        conference: u32,
        megabytes: u64,
    },
    /// A conference isn't kept any more.
    Unkept(Unkept),
    /// A conference goes on from its file, which has so many events. So many bytes of a last line that lacked its end
    /// were cut off.
    Resumed {
        conference: u32,
        events: u32,
        torn: usize,
    },
    /// A conference that the configuration has too goes on from its file.
    FromFile {
        conference: u32,
    },
    /// A conference of the configuration was closed before the start, and isn't opened.
    WasClosed {
        conference: u32,
    },
    /// A conference of the configuration isn't opened, since it has a file from which it doesn't go on. Why was told.
    NotOpened {
        conference: u32,
    },
    /// A conference's file is none: the conference isn't opened.
    NotAJournal {
        conference: u32,
        /// The place of the event that can't be read or isn't taken; 0 where the head can't be read.
        place: u32,
        /// The number of the line; 0 for the head.
        line: usize,
    },
    /// The folder of kept conferences is another server's now, or that can't be told: nothing more is sent.
    Lost(KeepFault),
    /// An administrator has done something in a conference, which is the event of this place.
    Did {
        conference: u32,
        act: Did,
        place: u32,
    },
    /// An administrator has a word kept beside a conference.
    WordKept {
        conference: u32,
    },
    /// An administrator has a word taken away.
    WordRemoved {
        conference: u32,
    },
    /// An administrator has a conference forgotten.
    Forgotten {
        conference: u32,
    },
    /// An administrator has no conference opened any more.
    Draining,
    /// The server stops.
    Stopping,
}

/// What an administrator has done in a conference.
#[derive(Clone, Copy, Debug, PartialEq, Eq)]
pub enum Did {
    /// A floor request was revoked.
    Revoked(u16),
    /// A user was added.
    UserAdded(u16),
    /// A floor was added.
    FloorAdded(u16),
    /// A floor has this chair, or none.
    ChairSet { floor: u16, chair: Option<u16> },
    /// A member was shown out.
    ShownOut(u32),
}

/// A port that is no user's.
#[derive(Clone, Copy, Debug, PartialEq, Eq)]
pub struct Door {
    pub entry: Entrance,
    pub port: u16,
}

/// Who is let in at a door.
#[derive(Clone, Copy, Debug, PartialEq, Eq)]
pub enum Entrance {
    /// Who the certificate names that a proxy has checked.
    ByCertificate,
    /// Who the unique-id names that a proxy or a gateway gives.
    ById,
    /// Nobody: whoever looks whether the server lives.
    Health,
}

impl Door {
    /// What a person is told that it is. Takes no memory.
    pub fn name(&self) -> &'static str
        ensures value { result.now ≡ name_of_door self.now.entry }
    {
        match self.entry {
            Entrance::ByCertificate | Entrance::ById => "door",
            Entrance::Health => "health",
        }
    }
}

/// The port of a user of a conference.
#[derive(Clone, Copy, Debug)]
pub struct UserPort {
    pub conference: u32,
    pub user: u16,
    pub port: u16,
}

/// Who has connected: the port that it connected to, and its own; 0 where the system doesn't tell.
#[derive(Clone, Copy, Debug)]
pub struct Peer {
    pub to: UserPort,
    pub port: u16,
}

impl Entry {
    /// What a line of the log says, without the time and the line feed.
    pub fn text(&self, alloc: Global) -> Result<String, AllocError> {
        match self {
            Entry::Opened { conference } => format!(in alloc; "conference {conference} opened"),
            Entry::Closed { conference } => format!(in alloc; "conference {conference} closed"),
            Entry::BrokenOff { conference } => {
                format!(in alloc; "conference {conference} broken off")
            }
            Entry::Listens(port) => of_port(alloc, port, "listens"),
            Entry::Ended(port) => of_port(alloc, port, "ended"),
            Entry::CannotAccept(port) => of_port(alloc, port, "cannot accept"),
            Entry::Accepts(port) => of_port(alloc, port, "accepts again"),
            Entry::DoorListens(door) => of_door(alloc, door, "listens"),
            Entry::DoorEnded(door) => of_door(alloc, door, "ended"),
            Entry::DoorCannotAccept(door) => of_door(alloc, door, "cannot accept"),
            Entry::DoorAccepts(door) => of_door(alloc, door, "accepts again"),
            Entry::RefusedAtDoor { door, peer, cause } => {
                let told = format!(in alloc; "peer {peer} refused {}", cause.name())?;
                of_door(alloc, door, told.as_str())
            }
            Entry::Joined { peer, n } => of_member(alloc, peer, *n, "joined"),
            Entry::Refused { peer, cause } => {
                let told = format!(in alloc; "refused {}", cause.name())?;
                of_peer(alloc, peer, told.as_str())
            }
            Entry::Left { peer, n, departure } => {
                let told = format!(in alloc; "left {}", departure.name())?;
                of_member(alloc, peer, *n, told.as_str())
            }
            Entry::Away { peer, n, departure } => {
                let told = format!(in alloc; "away {}", departure.name())?;
                of_member(alloc, peer, *n, told.as_str())
            }
            Entry::Back {
                conference,
                user,
                n,
            } => format!(in alloc; "conference {conference} user {user} member {n} back"),
            Entry::Gone {
                conference,
                user,
                n,
            } => format!(in alloc; "conference {conference} user {user} member {n} gone"),
            Entry::Large {
                conference,
                megabytes,
            } => format!(in alloc; "conference {conference} received {megabytes} MB"),
            Entry::Unkept(unkept) => of_unkept(alloc, unkept),
            Entry::Resumed {
                conference,
                events,
                torn,
            } => format!(in alloc; "conference {conference} resumed events {events} torn {torn}"),
            Entry::FromFile { conference } => {
                format!(in alloc; "conference {conference} goes on from its file")
            }
            Entry::WasClosed { conference } => {
                format!(in alloc; "conference {conference} was closed")
            }
            Entry::NotOpened { conference } => {
                format!(in alloc; "conference {conference} is not opened")
            }
            Entry::NotAJournal {
                conference,
                place,
                line,
            } => format!(in alloc; "conference {conference} NotAJournal {place} line {line}"),
            Entry::Lost(KeepFault::Lost) => String::from_str(alloc, "folder lost"),
            Entry::Lost(fault) => format!(in alloc; "folder {}", fault.name()),
            Entry::Did {
                conference,
                act,
                place,
            } => of_act(alloc, *conference, *act, *place),
            Entry::WordKept { conference } => {
                format!(in alloc; "conference {conference} word kept")
            }
            Entry::WordRemoved { conference } => {
                format!(in alloc; "conference {conference} word removed")
            }
            Entry::Forgotten { conference } => {
                format!(in alloc; "conference {conference} forgotten")
            }
            Entry::Draining => String::from_str(alloc, "draining"),
            Entry::Stopping => String::from_str(alloc, "stopping"),
        }
    }
}

/// What an administrator has done.
fn of_act(alloc: Global, conference: u32, act: Did, place: u32) -> Result<String, AllocError> {
    let told = match act {
        Did::Revoked(request) => format!(in alloc; "request {request} revoked"),
        Did::UserAdded(user) => format!(in alloc; "user {user} added"),
        Did::FloorAdded(floor) => format!(in alloc; "floor {floor} added"),
        Did::ChairSet {
            floor,
            chair: Some(user),
        } => format!(in alloc; "floor {floor} chair {user}"),
        Did::ChairSet { floor, chair: None } => format!(in alloc; "floor {floor} chair -"),
        Did::ShownOut(n) => format!(in alloc; "member {n} shown out"),
    }?;
    format!(in alloc; "conference {conference} {} at {place}", told.as_str())
}

fn of_port(alloc: Global, at: &UserPort, told: &str) -> Result<String, AllocError> {
    let (conference, user, port) = (at.conference, at.user, at.port);
    format!(in alloc; "conference {conference} user {user} port {port} {told}")
}

fn of_door(alloc: Global, door: &Door, told: &str) -> Result<String, AllocError> {
    format!(in alloc; "{} {} {told}", door.name(), door.port)
}

fn of_peer(alloc: Global, peer: &Peer, told: &str) -> Result<String, AllocError> {
    let told = format!(in alloc; "peer {} {told}", peer.port)?;
    of_port(alloc, &peer.to, told.as_str())
}

fn of_member(alloc: Global, peer: &Peer, n: u32, told: &str) -> Result<String, AllocError> {
    let told = format!(in alloc; "n {n} {told}")?;
    of_peer(alloc, peer, told.as_str())
}

/// Why a conference isn't kept any more, and what became of its file.
fn of_unkept(alloc: Global, unkept: &Unkept) -> Result<String, AllocError> {
    let conference = unkept.conference;
    let cause = unkept.cause.name();
    let left = match unkept.left {
        Left::Renamed => "renamed",
        Left::Spoiled => "spoiled",
        Left::Emptied => "emptied",
        Left::Resumes => "resumes",
        Left::Stands => "stands",
        Left::Missing => "missing",
    };
    format!(in alloc; "conference {conference} unkept {cause} file {left}")
}
