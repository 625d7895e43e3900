//! The meeting that each conference holds, and one line of it.

use floor_hub::{ConnNo, Hub, HubRefusal};
use floor_script::{Command, parse_line};
use floor_words::{read_u32, read_u64, words};
use std::alloc::{AllocError, AllocFailed, Global};

/// What follows the number of a conference in its configuration.
pub const CONFIGURATION: &str = "
limit = 2
[[conference.user]]
id = 10
name = \"Ann\"
uri = \"sip:ann@example.com\"
[[conference.user]]
id = 11
name = \"Bob\"
[[conference.user]]
id = 12
name = \"Cid\"
proxy = true
[[conference.floor]]
id = 1
room = 2
[[conference.floor]]
id = 2
chair = 10
";

/// The lines of a long meeting: those of a script of floorsim, in which `%` stands for the conference's
/// number, a digit, and `took <connection> <parcels>`, by which parcels are acknowledged.
pub const LONG: &str = "\
attach % 10
attach % 11
attach % 12
send 1 200b0000 0000000% 0001 000a
send 1 20070002 0000000% 0002 000a 04040001 04040002
took 1 2
user % 13 proxy name Dave
floor % 3 room 2 chair 11
send 3 20070001 0000000% 0001 000c 04040002
send 1 20010001 0000000% 0003 000a 04040001
send 2 20010004 0000000% 0002 000b 04040001 1005 686921 000000 08046000
send 3 20010002 0000000% 0002 000c 04040001 0204000b
send 2 20010001 0000000% 0003 000b 04040002
send 3 20030001 0000000% 0004 000c 06040003
send 3 20050001 0000000% 0005 000c 0204000b
send 1 20090003 0000000% 0004 000a 1e0c0004 22080002 0a040200
send 2 20020001 0000000% 0005 000b 06040002
send 3 20010003 0000000% 0006 000c 04040001 04040002 0204000d
chair % 2 12
chair % 2
send 2 20010002 0000000% 0006 000b 04040001 ff040000
send 2 20020001 0000000% 0007 000b 06040063
revoke % 3
chair % 1 11
chair % 1
leave 3
attach % 12
send 4 20010002 0000000% 0001 000c 04040002 08048000
leave 1
say % 12 20010002 0000000% 0002 000c 04040001 08046000
close %
";

/// The lines of a short meeting. Each is done behind so many of the long one.
pub const SHORT: &str = "\
attach % 10
attach % 11
send 1 20070001 0000000% 0001 000a 04040001
send 1 20010001 0000000% 0002 000a 04040001
send 2 20010001 0000000% 0001 000b 04040001
send 1 20020001 0000000% 0003 000a 06040001
leave 2
";

/// How many bytes the first piece of a message has: each comes in two.
const FIRST_PIECE: usize = 9;

/// One line of a meeting.
#[derive(Debug, Drop)]
pub enum Line {
    Script(Command),
    Took { connection: u64, parcels: u32 },
}

/// Memory was refused to reading the lines, or they are no lines of a meeting.
#[derive(Clone, Copy, Debug)]
pub struct Unread;

impl From<AllocError> for Unread {
    fn from(_e: AllocError) -> Unread {
        Unread
    }
}

impl<T: Drop> From<AllocFailed<T>> for Unread {
    fn from(_e: AllocFailed<T>) -> Unread {
        Unread
    }
}

/// A conference and its meeting.
#[derive(Drop)]
pub struct Meeting {
    pub conference: u32,
    lines: Vec<Line>,
    /// The number in the hub of each connection that was attached, in order. It has room for one a
    /// line.
    connections: Vec<ConnNo>,
}

impl Meeting {
    /// The meeting of these lines, at which nobody is yet.
    pub fn new(alloc: Global, conference: u32, text: &str) -> Result<Meeting, Unread> {
        let number = format!(in alloc; "{conference}")?;
        let text = text.replace(alloc, "%", number.as_str())?;
        let mut lines = Vec::new(alloc);
        for line in text.lines() {
            lines.push(read_line(alloc, line)?)?;
        }
        let connections = Vec::with_capacity(alloc, lines.len())?;
        Ok(Meeting {
            conference,
            lines,
            connections,
        })
    }

    /// Its connections so far, by their numbers in the hub.
    pub fn connections(&self) -> &[ConnNo] {
        self.connections.as_slice()
    }

    /// Its line at this place, if there is one.
    pub fn line(&self, place: usize) -> Option<&Line> {
        self.lines.get(place)
    }

    /// One more connection was attached.
    pub fn add(&mut self, connection: ConnNo) -> Result<(), HubRefusal> {
        match self.connections.push(connection) {
            Ok(()) => Ok(()),
            Err(_) => Err(HubRefusal::Memory),
        }
    }

    /// Does the line at this place, if there is one. A connection that isn't there does nothing.
    pub fn play(&mut self, alloc: Global, hub: &mut Hub, place: usize) -> Result<(), HubRefusal> {
        match self.lines.get(place) {
            None => Ok(()),
            Some(
                Line::Took {
                    connection,
                    parcels,
                },
            ) => match self.connection(*connection) {
                Some(connection) => hub.took(connection, *parcels),
                None => Ok(()),
            },
            Some(Line::Script(Command::Attach { conference, user })) => {
                let connection = hub.attach(alloc, *conference, *user)?;
                self.add(connection)
            }
            Some(Line::Script(command)) => self.carry_out(alloc, hub, command),
        }
    }

    /// What a line asks for that attaches nobody.
    fn carry_out(&self, alloc: Global, hub: &mut Hub, command: &Command) -> Result<(), HubRefusal> {
        match command {
            Command::Send { connection, bytes } => match self.connection(*connection) {
                Some(connection) => send(hub, connection, bytes.as_slice()),
                None => Ok(()),
            },
            Command::Leave { connection } => match self.connection(*connection) {
                Some(connection) => hub.leave(connection),
                None => Ok(()),
            },
            Command::Admin { conference, act } => match act.copy(alloc) {
                Ok(act) => hub.admin(*conference, act),
                Err(_) => Err(HubRefusal::Memory),
            },
            Command::Say {
                conference,
                user,
                message,
            } => match hub.say(alloc, *conference, *user, message.as_slice()) {
                Ok(_said) => Ok(()),
                Err(refusal) => Err(refusal),
            },
            _ => Ok(()),
        }
    }

    /// The number in the hub of the connection that was attached as this one of the meeting, counted
    /// from 1.
    pub fn connection(&self, number: u64) -> Option<ConnNo> {
        let place = number.checked_sub(1)? as usize;
        self.connections.get(place).copied()
    }

    /// As which one of the meeting the connection with this number in the hub was attached, counted
    /// from 1.
    pub fn number_of(&self, connection: ConnNo) -> Option<usize> {
        let place = self.connections.iter().position(|it| *it == connection)?;
        Some(place.saturating_add(1))
    }
}

/// The line of a meeting that the text says.
fn read_line(alloc: Global, text: &str) -> Result<Line, Unread> {
    let words = words(alloc, text)?;
    if let ["took", connection, parcels] = words.as_slice() {
        return Ok(Line::Took {
            connection: read_u64(connection).ok_or(Unread)?,
            parcels: read_u32(parcels).ok_or(Unread)?,
        });
    }
    match parse_line(alloc, text) {
        Ok(command) => Ok(Line::Script(command)),
        Err(_) => Err(Unread),
    }
}

/// Hands in a message in two pieces, and serves the connection after each.
fn send(hub: &mut Hub, connection: ConnNo, message: &[u8]) -> Result<(), HubRefusal> {
    let (first, rest) = message.split_at(FIRST_PIECE.min(message.len()));
    hub.piece(connection, first)?;
    hub.serve(connection)?;
    hub.piece(connection, rest)?;
    hub.serve(connection)?;
    Ok(())
}
