//! What the log says, a line each: of what the value tells, and of what an administrator does.

use floor_turn::{Act, Entry, Peer, Place, Who};
use std::alloc::{AllocError, Global};

/// What the log says of what the value tells. What wasn't told since memory was refused ends the log, as a line does for
/// which there is no memory.
pub fn text_of(alloc: Global, entry: Entry) -> Result<String, AllocError> {
    match entry {
        Entry::Opened { conference } => of_conference(alloc, conference, "opened"),
        Entry::Closed { conference } => of_conference(alloc, conference, "closed"),
        Entry::BrokenOff { conference } => of_conference(alloc, conference, "broken off"),
        Entry::Forgotten { conference } => of_conference(alloc, conference, "forgotten"),
        Entry::Large {
            conference,
            megabytes,
        } => {
            let told = format!(in alloc; "received {megabytes} MB")?;
            of_conference(alloc, conference, told.as_str())
        }
        Entry::Listens(place) => of_place(alloc, place, "listens"),
        Entry::CannotListen(place) => of_place(alloc, place, "cannot listen"),
        Entry::Ended(place) => of_place(alloc, place, "ended"),
        Entry::CannotAccept(place) => of_place(alloc, place, "cannot accept"),
        Entry::Accepts(place) => of_place(alloc, place, "accepts again"),
        Entry::Refused { peer, refusal } => {
            let told = format!(in alloc; "peer {} refused {refusal}", peer.port)?;
            of_place(alloc, peer.place, told.as_str())
        }
        Entry::Joined { peer, who } => of_member(alloc, peer, who, "joined"),
        Entry::Left {
            peer,
            who,
            departure,
        } => {
            let told = format!(in alloc; "left {}", departure.name())?;
            of_member(alloc, peer, who, told.as_str())
        }
        Entry::Away {
            peer,
            who,
            departure,
        } => {
            let told = format!(in alloc; "away {}", departure.name())?;
            of_member(alloc, peer, who, told.as_str())
        }
        Entry::Back(who) => of_away(alloc, who, "back"),
        Entry::Gone(who) => of_away(alloc, who, "gone"),
        Entry::Stopping => String::from_str(alloc, "stopping"),
        Entry::Untold(_) => Err(AllocError),
    }
}

/// What the log says that an act has done; `None` of the end of a conference, of which the value tells.
pub fn done_by(alloc: Global, act: &Act) -> Result<Option<String>, AllocError> {
    let told = match act {
        Act::Close => return Ok(None),
        Act::Revoke(request) => format!(in alloc; "request {request} revoked"),
        Act::AddUser(user) => format!(in alloc; "user {} added", user.as_user().id),
        Act::AddFloor(floor) => format!(in alloc; "floor {} added", floor.id),
        Act::SetChair(floor, Some(user)) => format!(in alloc; "floor {floor} chair {user}"),
        Act::SetChair(floor, None) => format!(in alloc; "floor {floor} chair -"),
    }?;
    Ok(Some(told))
}

/// The port of a place; 0 of the sockets of control clients.
fn port_of(place: Place) -> u16 {
    match place {
        Place::Port { port, .. } | Place::Door { port, .. } | Place::Health { port } => port,
        Place::Control | Place::Observe => 0,
    }
}

fn of_conference(alloc: Global, conference: u32, told: &str) -> Result<String, AllocError> {
    format!(in alloc; "conference {conference} {told}")
}

fn of_place(alloc: Global, place: Place, told: &str) -> Result<String, AllocError> {
    match place {
        Place::Port {
            conference,
            user,
            port,
        } => format!(in alloc; "conference {conference} user {user} port {port} {told}"),
        Place::Door { port, .. } => format!(in alloc; "door {port} {told}"),
        Place::Health { port } => format!(in alloc; "health {port} {told}"),
        Place::Control => format!(in alloc; "control {told}"),
        Place::Observe => format!(in alloc; "observe {told}"),
    }
}

/// Who came by a door is told of by its own conference and user too.
fn of_member(alloc: Global, peer: Peer, who: Who, told: &str) -> Result<String, AllocError> {
    let told = format!(in alloc; "peer {} n {} {told}", peer.port, who.n)?;
    let place = Place::Port {
        conference: who.conference,
        user: who.user,
        port: port_of(peer.place),
    };
    of_place(alloc, place, told.as_str())
}

fn of_away(alloc: Global, who: Who, told: &str) -> Result<String, AllocError> {
    let told = format!(in alloc; "user {} member {} {told}", who.user, who.n)?;
    of_conference(alloc, who.conference, told.as_str())
}
