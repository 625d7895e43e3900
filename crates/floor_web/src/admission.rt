//! Who is let into a meeting, by what is known of its conference.
//!
//! What a chair has ordered stands in words beside the conference, so that it outlives whoever tells it to pages:
//!
//! | key | means |
//! |---|---|
//! | `out.10` | user 10 was shown out, and stays out until the word is taken away: no token of the user's counts |
//! | `lock` | nobody new is let in: only the chairs are, and who has a connection, be it lost for now |
//! | `guests` | whoever has the token that is its value may join as a guest, a new user of the conference |

ghost use Rattle.std.specs.Prelude.{◌≡◌};
ghost use Rattle.std.specs.List.{list_any};
ghost use Rattle.floor_web.specs.Admission as spec;

use crate::participants::is_strong_token;
use floor_follow::{Conference, Fact};
use floor_words::read_u16;

/// Whether a user is let into a meeting.
#[derive(Clone, Copy, Debug, PartialEq, Eq)]
pub enum Admission {
    /// The user is let in.
    Admitted,
    /// A chair or the operator has shown the user out.
    ShownOut,
    /// Nobody new is let in.
    Locked,
}

/// Whether a user is let into a conference. Takes no memory.
pub fn admission_of(conference: &Conference, user: u16) -> Admission
    ensures value { result ≡ spec.admission user conference.now.facts }
{
    let facts = conference.facts.as_slice();
    if is_out(facts, user) {
        return Admission::ShownOut;
    }
    if is_locked(facts) && !is_connected(facts, user) && !has_chair(facts, user) {
        return Admission::Locked;
    }
    Admission::Admitted
}

/// Whether a user is the chair of one of a conference's floors. Takes no memory.
pub fn is_chair(conference: &Conference, user: u16) -> bool
    ensures value { result ≡ spec.is_chair user conference.now.facts }
{
    has_chair(conference.facts.as_slice(), user)
}

/// Whether nobody new is let into a conference. Takes no memory.
pub(crate) fn is_shut(conference: &Conference) -> bool
    ensures value { result ≡ spec.is_locked conference.now.facts }
{
    is_locked(conference.facts.as_slice())
}

/// The number of the connection that a fact is of a conference, where its user was shown out: it is to be ended.
/// Takes no memory.
pub fn put_out(conference: &Conference, fact: &Fact) -> Option<u32>
    ensures value { result ≡ spec.put_out conference.now.facts fact.now }
{
    match fact {
        Fact::Member(member) if is_out(conference.facts.as_slice(), member.user) => Some(member.n),
        _ => None,
    }
}

/// Whether whoever has the token may join a conference as a guest. Takes no memory.
pub fn is_invitation(conference: &Conference, token: &[u8]) -> bool
    ensures value { result ≡ spec.is_invitation token.now conference.now.facts }
{
    is_strong_token(token) && invites_any(conference.facts.as_slice(), token)
}

pub(crate) fn is_out(facts: &[Fact], user: u16) -> bool
    ensures value { result ≡ spec.is_out user facts.now }
{
    facts.iter().any(|fact| shows_out(fact, user))
}

pub(crate) fn is_locked(facts: &[Fact]) -> bool
    ensures value { result ≡ spec.is_locked facts.now }
{
    facts.iter().any(|fact| locks(fact))
}

fn is_connected(facts: &[Fact], user: u16) -> bool
    ensures value { result ≡ spec.is_connected user facts.now }
{
    facts.iter().any(|fact| is_connection(fact, user))
}

pub(crate) fn has_chair(facts: &[Fact], user: u16) -> bool
    ensures value { result ≡ spec.is_chair user facts.now }
{
    facts.iter().any(|fact| is_chaired_by(fact, user))
}

pub(crate) fn has_user(facts: &[Fact], user: u16) -> bool
    ensures value { result ≡ spec.has_user user facts.now }
{
    facts.iter().any(|fact| is_person(fact, user))
}

fn invites_any(facts: &[Fact], token: &[u8]) -> bool
    ensures value { result ≡ list_any (spec.invites token.now) facts.now }
{
    facts.iter().any(|fact| invites(fact, token))
}

/// Whether the fact is a user of the conference, this one.
fn is_person(fact: &Fact, user: u16) -> bool
    ensures value { result ≡ spec.is_user user fact.now }
{
    match fact {
        Fact::User(person) => person.id == user,
        _ => false,
    }
}

/// Whether the fact is a floor whose chair is this user.
fn is_chaired_by(fact: &Fact, user: u16) -> bool
    ensures value { result ≡ spec.has_chair user fact.now }
{
    match fact {
        Fact::Floor(floor) => is_this(floor.chair, user),
        _ => false,
    }
}

/// Whether the user is the chair of this floor.
pub(crate) fn is_chair_of(facts: &[Fact], user: u16, floor: u16) -> bool
    ensures value { result ≡ spec.is_chair_of user floor facts.now }
{
    facts.iter().any(|fact| is_chaired(fact, user, floor))
}

/// Whether the fact is this floor, and its chair this user.
fn is_chaired(fact: &Fact, user: u16, floor: u16) -> bool
    ensures value { result ≡ spec.is_chaired user floor fact.now }
{
    match fact {
        Fact::Floor(found) => found.id == floor && is_this(found.chair, user),
        _ => false,
    }
}

/// Whether the fact is a connection of this user's.
fn is_connection(fact: &Fact, user: u16) -> bool
    ensures value { result ≡ spec.is_connection user fact.now }
{
    match fact {
        Fact::Member(member) => member.user == user,
        _ => false,
    }
}

/// Whether the fact is the word that this user was shown out.
fn shows_out(fact: &Fact, user: u16) -> bool
    ensures value { result ≡ spec.shows_out user fact.now }
{
    match fact {
        Fact::Word(word) => is_this(user_behind("out", word.key.as_str()), user),
        _ => false,
    }
}

/// Whether the fact is the word that nobody new is let in.
fn locks(fact: &Fact) -> bool
    ensures value { result ≡ spec.locks fact.now }
{
    match fact {
        Fact::Word(word) => word.key.as_str() == "lock",
        _ => false,
    }
}

/// Whether the fact is the word that whoever has this token may join as a guest.
fn invites(fact: &Fact, token: &[u8]) -> bool
    ensures value { result ≡ spec.invites token.now fact.now }
{
    match fact {
        Fact::Word(word) => word.key.as_str() == "guests" && word.value.as_slice() == token,
        _ => false,
    }
}

/// The user whom a word's key names behind a name and a dot.
pub(crate) fn user_behind(name: &str, key: &str) -> Option<u16>
    ensures value { result ≡ spec.user_behind name.now key.now }
{
    match key.split_once('.') {
        Some((found, number)) if found == name => read_u16(number),
        _ => None,
    }
}

fn is_this(found: Option<u16>, user: u16) -> bool
    ensures value { result ≡ spec.is_some_of user found }
{
    match found {
        Some(other) => other == user,
        None => false,
    }
}
