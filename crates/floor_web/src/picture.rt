//! What pages are told of a conference that is followed at the control socket, as JSON: a user's page of its
//! meeting, and the operator's of all.
//!
//! What floorhub doesn't know stands in words beside the conference:
//!
//! | key | value |
//! |---|---|
//! | `token.10` | the token of user 10 |
//! | `title`, `title.2` | what the page calls the conference, and its floor 2 |
//! | `kind.2` | what floor 2 is for, by which the page chooses its texts: `microphone`, `screen` |
//! | `priorities` | `chair` where the page is to offer nobody but a chair a priority above normal |
//! | `grace` | for how many seconds the server keeps the place of whoever is lost: 1 to 65,535 |
//! | `limit.2` | for how many seconds one should have floor 2: 1 to 65,535 |
//! | `guest.60000` | the token of user 60000, who has joined by the link for all |
//!
//! [`admission`](crate::admission) has those by which a chair says who is let in.

ghost use Rattle.std.specs.Prelude.{◌≡◌, find, is_some, option_copied};
ghost use Rattle.floor_web.specs.Bearer as spec;

use crate::admission::{Admission, admission_of, is_chair, is_out, is_shut, user_behind};
use crate::participants::is_strong_token;
use crate::titles::Titles;
use floor_follow::{Conference, Fact, Member, Octets, Person, Phase, RequestStatus};
use floor_words::read_u16;
use serde::Serialize;
use std::alloc::{AllocError, Global};

/// What a user's page is told.
#[derive(Drop, Serialize)]
struct Meeting<'a> {
    conference: u32,
    title: &'a str,
    user: u16,
    name: &'a str,
    proxy: bool,
    ended: bool,
    grace: Option<u16>,
    priorities: &'a str,
    /// Whether nobody new is let in.
    locked: bool,
    /// The token of the link for guests, which only a chair is told; empty where there is none.
    guests: &'a str,
    floors: Vec<ShownFloor<'a>>,
    users: Vec<ShownParticipant<'a>>,
}

/// What a page is told whose user isn't let in.
#[derive(Drop, Serialize)]
struct NotAdmitted<'a> {
    conference: u32,
    title: &'a str,
    refused: &'static str,
}

/// What the page of somebody is told who has the link for guests.
#[derive(Drop, Serialize)]
struct Welcome<'a> {
    conference: u32,
    title: &'a str,
    guest: bool,
    locked: bool,
    ended: bool,
}

/// A floor, with how many hold it at once.
#[derive(Drop, Serialize)]
struct ShownFloor<'a> {
    id: u16,
    title: &'a str,
    room: u16,
    chair: Option<u16>,
    kind: &'a str,
    limit: Option<u16>,
}

/// A user of the conference.
#[derive(Drop, Serialize)]
struct ShownUser<'a> {
    id: u16,
    name: &'a str,
    out: bool,
}

/// A user of the conference, and how a page is told whether the user is in it: `here`, `away` (the connection is
/// lost, and the place is kept) or `gone`; whether the user has joined by the link for guests, and was shown out.
#[derive(Drop, Serialize)]
struct ShownParticipant<'a> {
    id: u16,
    name: &'a str,
    presence: &'static str,
    guest: bool,
    out: bool,
}

/// What the operator's page is told.
#[derive(Drop, Serialize)]
struct Overview<'a> {
    conference: u32,
    title: &'a str,
    phase: &'static str,
    events: u64,
    locked: bool,
    floors: Vec<ShownFloor<'a>>,
    users: Vec<ShownUser<'a>>,
    members: Vec<ShownMember>,
    requests: Vec<ShownRequest>,
    reasons: Vec<ShownReason<'a>>,
}

/// A live member.
#[derive(Drop, Serialize)]
struct ShownMember {
    n: u32,
    user: u16,
    away: bool,
}

/// A floor request at one of its floors.
#[derive(Drop, Serialize)]
struct ShownRequest {
    request: u16,
    floor: u16,
    user: Option<u16>,
    by: Option<u16>,
    status: &'static str,
    position: u16,
}

/// What is said of a floor request.
#[derive(Drop, Serialize)]
struct ShownReason<'a> {
    request: u16,
    text: &'a str,
}

/// Whom a token stands for by a word of the conference: the first word whose key is `token.` and a user, and
/// which is this token, if it is a strong one.
pub fn bearer(conference: &Conference, token: &[u8]) -> Option<u16>
    ensures found { result ≡ spec.bearer token.now conference.now.facts }
{
    if is_strong_token(token) {
        return bearer_among(conference.facts.as_slice(), token);
    }
    None
}

/// The user whose token this is by the first fact that says so.
fn bearer_among(facts: &[Fact], token: &[u8]) -> Option<u16>
    ensures found { result ≡ spec.bearer_among token.now facts.now }
{
    match token_word(facts, token) {
        None => None,
        Some(fact) => user_of_token(fact, token),
    }
}

/// The first fact that says whose token this is.
fn token_word<'a>(facts: &'a [Fact], token: &[u8]) -> Option<&'a Fact>
    ensures found { option_copied result
        ≡ find (λ fact. is_some (spec.user_of_token token.now fact)) facts.now }
{
    facts
        .iter()
        .find(|fact| user_of_token(fact, token).is_some())
}

/// The user whose token a fact says this to be.
fn user_of_token(fact: &Fact, token: &[u8]) -> Option<u16>
    ensures value { result ≡ spec.user_of_token token.now fact.now }
{
    match fact {
        Fact::Word(word) if word.value.as_slice() == token => user_of_key(word.key.as_str()),
        _ => None,
    }
}

/// The user of a word's key, `token.` or `guest.` and the User ID.
fn user_of_key(key: &str) -> Option<u16>
    ensures value { result ≡ spec.user_of_key key.now }
{
    match user_behind("token", key) {
        Some(user) => Some(user),
        None => user_behind("guest", key),
    }
}

/// What the page of a user is told of a conference, or that the user isn't let in; `None` where it has no such user.
pub fn meeting_of(
    alloc: Global,
    conference: &Conference,
    user: u16,
    titles: &Titles,
) -> Result<Option<String>, AllocError> {
    let Some(person) = person_of(conference, user) else {
        return Ok(None);
    };
    let refused = match admission_of(conference, user) {
        Admission::Admitted => "",
        Admission::ShownOut => "out",
        Admission::Locked => "locked",
    };
    if !refused.is_empty() {
        let told = NotAdmitted {
            conference: conference.number,
            title: title_of(alloc, conference, None, titles)?,
            refused,
        };
        return written(serde_json::to_string(alloc, &told)).map(Some);
    }
    let guests = if is_chair(conference, user) {
        value_of(conference, "guests").unwrap_or("")
    } else {
        ""
    };
    let meeting = Meeting {
        conference: conference.number,
        title: title_of(alloc, conference, None, titles)?,
        user,
        name: text_of(&person.name),
        proxy: person.proxy,
        ended: conference.phase != Phase::Running,
        grace: read_seconds(value_of(conference, "grace").unwrap_or("")),
        priorities: value_of(conference, "priorities").unwrap_or(""),
        locked: is_shut(conference),
        guests,
        floors: floors_of(alloc, conference, titles)?,
        users: participants_of(alloc, conference)?,
    };
    written(serde_json::to_string(alloc, &meeting)).map(Some)
}

/// What the page of somebody is told who has the link for guests.
pub fn guest_of(
    alloc: Global,
    conference: &Conference,
    titles: &Titles,
) -> Result<String, AllocError> {
    let welcome = Welcome {
        conference: conference.number,
        title: title_of(alloc, conference, None, titles)?,
        guest: true,
        locked: is_shut(conference),
        ended: conference.phase != Phase::Running,
    };
    written(serde_json::to_string(alloc, &welcome))
}

/// What was written; only memory can have been refused.
fn written(text: Result<String, serde_json::Error>) -> Result<String, AllocError> {
    match text {
        Ok(text) => Ok(text),
        Err(_) => Err(AllocError),
    }
}

/// What the operator's page is told of a conference.
pub fn overview_of<'a>(
    alloc: Global,
    conference: &'a Conference,
    titles: &'a Titles,
) -> Result<String, AllocError> {
    let overview = Overview {
        conference: conference.number,
        title: title_of(alloc, conference, None, titles)?,
        phase: conference.phase.name(),
        events: conference.events,
        locked: is_shut(conference),
        floors: floors_of(alloc, conference, titles)?,
        users: users_of(alloc, conference)?,
        members: members_of(alloc, conference)?,
        requests: requests_of(alloc, conference)?,
        reasons: reasons_of(alloc, conference)?,
    };
    written(serde_json::to_string(alloc, &overview))
}

fn person_of(conference: &Conference, user: u16) -> Option<&Person> {
    for fact in conference.facts.as_slice() {
        match fact {
            Fact::User(person) if person.id == user => return Some(person),
            _ => {}
        }
    }
    None
}

fn floors_of<'a>(
    alloc: Global,
    conference: &'a Conference,
    titles: &'a Titles,
) -> Result<Vec<ShownFloor<'a>>, AllocError> {
    let mut floors = Vec::new(alloc);
    for fact in conference.facts.as_slice() {
        if let Fact::Floor(floor) = fact {
            floors.push(ShownFloor {
                id: floor.id,
                title: title_of(alloc, conference, Some(floor.id), titles)?,
                room: floor.room,
                chair: floor.chair,
                kind: word_of(alloc, conference, "kind", floor.id)?,
                limit: read_seconds(word_of(alloc, conference, "limit", floor.id)?),
            })?;
        }
    }
    Ok(floors)
}

fn users_of<'a>(
    alloc: Global,
    conference: &'a Conference,
) -> Result<Vec<ShownUser<'a>>, AllocError> {
    let mut users = Vec::new(alloc);
    for fact in conference.facts.as_slice() {
        if let Fact::User(person) = fact {
            users.push(ShownUser {
                id: person.id,
                name: text_of(&person.name),
                out: is_out(conference.facts.as_slice(), person.id),
            })?;
        }
    }
    Ok(users)
}

fn participants_of<'a>(
    alloc: Global,
    conference: &'a Conference,
) -> Result<Vec<ShownParticipant<'a>>, AllocError> {
    let facts = conference.facts.as_slice();
    let mut users = Vec::new(alloc);
    for fact in facts {
        if let Fact::User(person) = fact {
            users.push(ShownParticipant {
                id: person.id,
                name: text_of(&person.name),
                presence: "gone",
                guest: false,
                out: false,
            })?;
        }
    }
    // Once for all users: a conference may have hundreds, and a word for each.
    for fact in facts {
        match fact {
            Fact::Member(member) => show_presence(&mut users, member),
            Fact::Word(word) => show_admission(&mut users, word.key.as_str()),
            _ => {}
        }
    }
    Ok(users)
}

/// Shows that a user has a connection: one who has one that isn't lost is here.
fn show_presence(users: &mut Vec<ShownParticipant<'_>>, member: &Member) {
    if let Some(user) = with_id(users, member.user) {
        if !member.is_away {
            user.presence = "here";
        } else if user.presence == "gone" {
            user.presence = "away";
        }
    }
}

/// Shows what a word's key says of a user.
fn show_admission(users: &mut Vec<ShownParticipant<'_>>, key: &str) {
    if let Some(user) = named(users, "guest", key) {
        user.guest = true;
    }
    if let Some(user) = named(users, "out", key) {
        user.out = true;
    }
}

/// The user whom a key names behind a name and a dot.
fn named<'b, 'a>(
    users: &'b mut Vec<ShownParticipant<'a>>,
    name: &str,
    key: &str,
) -> Option<&'b mut ShownParticipant<'a>> {
    with_id(users, user_behind(name, key)?)
}

fn with_id<'b, 'a>(
    users: &'b mut Vec<ShownParticipant<'a>>,
    id: u16,
) -> Option<&'b mut ShownParticipant<'a>> {
    users.iter_mut().find(|user| user.id == id)
}

fn members_of(alloc: Global, conference: &Conference) -> Result<Vec<ShownMember>, AllocError> {
    let mut members = Vec::new(alloc);
    for fact in conference.facts.as_slice() {
        if let Fact::Member(member) = fact {
            members.push(ShownMember {
                n: member.n,
                user: member.user,
                away: member.is_away,
            })?;
        }
    }
    Ok(members)
}

fn requests_of(alloc: Global, conference: &Conference) -> Result<Vec<ShownRequest>, AllocError> {
    let mut requests = Vec::new(alloc);
    for fact in conference.facts.as_slice() {
        if let Fact::Request(requested) = fact {
            requests.push(ShownRequest {
                request: requested.request,
                floor: requested.floor,
                user: requested.user,
                by: requested.requester,
                status: status_name(requested.status),
                position: requested.position,
            })?;
        }
    }
    Ok(requests)
}

fn reasons_of<'a>(
    alloc: Global,
    conference: &'a Conference,
) -> Result<Vec<ShownReason<'a>>, AllocError> {
    let mut reasons = Vec::new(alloc);
    for fact in conference.facts.as_slice() {
        if let Fact::Reason(reason) = fact {
            reasons.push(ShownReason {
                request: reason.request,
                text: utf8_of(reason.text.as_slice()),
            })?;
        }
    }
    Ok(reasons)
}

/// The name of a status (RFC 8855, section 5.2.5).
fn status_name(status: RequestStatus) -> &'static str {
    match status {
        RequestStatus::Pending => "Pending",
        RequestStatus::Accepted => "Accepted",
        RequestStatus::Granted => "Granted",
        RequestStatus::Denied => "Denied",
        RequestStatus::Cancelled => "Cancelled",
        RequestStatus::Released => "Released",
        RequestStatus::Revoked => "Revoked",
    }
}

/// What the conference, or a floor of it, is called: by its words, and else by the file.
fn title_of<'a>(
    alloc: Global,
    conference: &'a Conference,
    floor: Option<u16>,
    titles: &'a Titles,
) -> Result<&'a str, AllocError> {
    let key = match floor {
        None => String::from_str(alloc, "title")?,
        Some(floor) => format!(in alloc; "title.{floor}")?,
    };
    match value_of(conference, key.as_str()) {
        Some(title) => Ok(title),
        None => Ok(titles.find(conference.number, floor)),
    }
}

/// What a word of a floor says; empty where there is none.
fn word_of<'a>(
    alloc: Global,
    conference: &'a Conference,
    name: &str,
    floor: u16,
) -> Result<&'a str, AllocError> {
    let key = format!(in alloc; "{name}.{floor}")?;
    Ok(value_of(conference, key.as_str()).unwrap_or(""))
}

/// What the word with this key says, if there is one.
fn value_of<'a>(conference: &'a Conference, key: &str) -> Option<&'a str> {
    for fact in conference.facts.as_slice() {
        match fact {
            Fact::Word(word) if word.key.as_str() == key => {
                return Some(utf8_of(word.value.as_slice()));
            }
            _ => {}
        }
    }
    None
}

/// The seconds that a word writes; none where it writes no number, or 0.
fn read_seconds(text: &str) -> Option<u16> {
    match read_u16(text) {
        Some(seconds) if 0 < seconds => Some(seconds),
        _ => None,
    }
}

/// A name; empty where there is none.
fn text_of(name: &Option<Octets>) -> &str {
    match name {
        Some(name) => utf8_of(name.as_slice()),
        None => "",
    }
}

/// A text; empty where it is no UTF-8.
fn utf8_of(bytes: &[u8]) -> &str {
    std::str::from_utf8(bytes).unwrap_or("")
}
