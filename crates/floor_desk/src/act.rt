//! What the log is told of what clients have done.

use crate::caller::ClientId;
use floor_rpc::{Answer, Call, ErrorName, Failure, Method, UserAddition, Whom};
use std::alloc::{AllocError, Global};

/// What a client had done, or was refused: a request that changes something.
#[derive(Clone, Copy, Debug, PartialEq, Eq)]
pub struct Act {
    /// The number of the client, which no other has or had, and its socket.
    pub client: u64,
    pub socket: usize,
    pub method: Method,
    pub conference: Option<u32>,
    pub named: Named,
    /// The user for whom it was said.
    pub user: Option<u16>,
    pub outcome: Outcome,
}

/// What of a conference an act is about.
#[derive(Clone, Copy, Debug, PartialEq, Eq)]
pub enum Named {
    /// The conference as a whole, or the server.
    Nothing,
    User(u16),
    Member(u32),
    Floor(u16),
    Request(u16),
}

/// What became of an act.
#[derive(Clone, Copy, Debug, PartialEq, Eq)]
pub enum Outcome {
    Done,
    /// It is the event of this place.
    At(u64),
    Refused(ErrorName),
}

impl Act {
    /// What a request of a client does, of which nothing has become yet; nothing where it changes nothing.
    pub fn of(by: ClientId, call: &Call) -> Option<Act> {
        let (conference, named) = named_by(call)?;
        Some(Act::by(by, call.method(), conference, named))
    }

    /// A conference that a client opens, once its text was read or its ports are listened on.
    pub fn opening(by: ClientId) -> Act {
        Act::by(by, Method::ConferenceOpen, None, Named::Nothing)
    }

    /// A user whom a client adds, once its port is listened on.
    pub fn adding(by: ClientId, addition: &UserAddition) -> Act {
        let named = user_where(addition.user.id);
        Act::by(by, Method::UserAdd, Some(addition.conference), named)
    }

    fn by(by: ClientId, method: Method, conference: Option<u32>, named: Named) -> Act {
        Act {
            client: by.client,
            socket: by.socket,
            method,
            conference,
            named,
            user: None,
            outcome: Outcome::Done,
        }
    }

    /// The same, said for this user, with what became of it.
    pub fn ended(self, user: Option<u16>, outcome: Result<&Answer, &Failure>) -> Act {
        let answer = match outcome {
            Ok(answer) => answer,
            Err(failure) => {
                return Act {
                    user,
                    outcome: Outcome::Refused(failure.name),
                    ..self
                };
            }
        };
        Act {
            conference: conference_in(answer).or(self.conference),
            named: named_in(answer, self.named),
            user,
            outcome: outcome_of(answer),
            ..self
        }
    }

    /// What a line of the log says, without the time and the line feed.
    pub fn text(&self, alloc: Global) -> Result<String, AllocError> {
        let mut text = String::from_str(alloc, "act ")?;
        match self.conference {
            Some(conference) => write!(text, "conference {conference} ")?,
            None => {}
        }
        text.push_str(self.method.name())?;
        match self.named {
            Named::Nothing => {}
            // All members of a user.
            Named::User(user) if self.method == Method::MemberRemove => {
                write!(text, " user {user}")?;
            }
            Named::User(number) | Named::Floor(number) | Named::Request(number) => {
                write!(text, " {number}")?;
            }
            Named::Member(number) => write!(text, " {number}")?,
        }
        match self.user {
            Some(user) => write!(text, " as {user}")?,
            None => {}
        }
        match self.outcome {
            Outcome::Done => {}
            Outcome::At(place) => write!(text, " at {place}")?,
            Outcome::Refused(name) => write!(text, " refused {}", name.name())?,
        }
        write!(text, " by client {}", self.client)?;
        Ok(text)
    }
}

/// The conference of a request that changes something, and what it is about there; nothing of one that doesn't.
fn named_by(call: &Call) -> Option<(Option<u32>, Named)> {
    match call {
        Call::ConferenceOpen(_) | Call::ServerDrain | Call::ServerStop => {
            Some((None, Named::Nothing))
        }
        Call::ConferenceClose(of) | Call::ConferenceForget(of) => {
            Some((Some(of.conference), Named::Nothing))
        }
        Call::UserAdd(addition) => {
            Some((Some(addition.conference), user_where(addition.user.id)))
        }
        Call::FloorAdd(addition) => {
            Some((Some(addition.conference), floor_where(addition.floor.id)))
        }
        Call::FloorChair(setting) => {
            Some((Some(setting.conference), Named::Floor(setting.floor)))
        }
        Call::MemberRemove(removal) => Some((Some(removal.conference), named_whom(&removal.whom))),
        Call::UserAdmit(of) => Some((Some(of.conference), Named::User(of.user))),
        Call::RequestCreate(creation) => Some((Some(creation.conference), Named::Nothing)),
        Call::RequestRelease(release) => {
            Some((Some(release.conference), Named::Request(release.request)))
        }
        Call::RequestAccept(decision)
        | Call::RequestGrant(decision)
        | Call::RequestDeny(decision) => {
            Some((Some(decision.conference), Named::Request(decision.request)))
        }
        Call::RequestRevoke(of) => Some((Some(of.conference), Named::Request(of.request))),
        Call::WordSet(setting) => Some((Some(setting.conference), Named::Nothing)),
        Call::ConferenceList(_)
        | Call::ConferenceGet(_)
        | Call::WordGet(_)
        | Call::Watch(_)
        | Call::Unwatch(_)
        | Call::Journal(_)
        | Call::ServerStatus
        | Call::Help => None,
    }
}

fn user_where(user: Option<u16>) -> Named {
    match user {
        Some(user) => Named::User(user),
        None => Named::Nothing,
    }
}

fn floor_where(floor: Option<u16>) -> Named {
    match floor {
        Some(floor) => Named::Floor(floor),
        None => Named::Nothing,
    }
}

fn named_whom(whom: &Whom) -> Named {
    match whom {
        Whom::Member(n) => Named::Member(*n),
        Whom::User(user) => Named::User(*user),
    }
}

/// The conference that an answer says was opened.
fn conference_in(answer: &Answer) -> Option<u32> {
    match answer {
        Answer::Opened(opened) => Some(opened.conference),
        _ => None,
    }
}

/// What an answer says was made; what was named where it says nothing of it.
fn named_in(answer: &Answer, named: Named) -> Named {
    match answer {
        Answer::UserAdded(added) => Named::User(added.user),
        Answer::FloorChanged(changed) => Named::Floor(changed.floor),
        Answer::Created(created) => Named::Request(created.request),
        _ => named,
    }
}

/// The place that an answer says.
fn outcome_of(answer: &Answer) -> Outcome {
    match answer {
        Answer::Placed(placed) => Outcome::At(placed.place),
        Answer::UserAdded(added) => Outcome::At(added.place),
        Answer::FloorChanged(changed) => Outcome::At(changed.place),
        Answer::Created(created) => Outcome::At(created.place),
        _ => Outcome::Done,
    }
}
