//! What a live line says of its conference, behind its place.

ghost use Rattle.std.specs.Prelude.{◌≡◌, [], Ok};
ghost use Rattle.floor_words.specs.Words.{words};
ghost use Rattle.floor_follow.specs.Reading.{Reads};
ghost use Rattle.floor_follow.specs.Live as spec;

use crate::change::{Change, Subject};
use crate::fact::{Fact, Facts, Member, Person, Reason, RequestedFloor};
use crate::fault::FollowFault;
use crate::rest::Rest;
use floor_config::Floor;
use floor_message::RequestStatus;
use floor_wire::Octets;
use floor_words::cut_word;
use std::alloc::Global;

/// What a line of an event changes.
pub(crate) fn event(alloc: Global, text: Rest) -> Result<Change, FollowFault>
    ensures { Reads (spec.event text.entry) result }
{
    let (kind, rest) = text.word()?;
    match kind.as_str() {
        "joined" => member(alloc, rest, false),
        "left" => left(alloc, rest),
        "user" => user(alloc, rest),
        "floor" => floor(alloc, rest),
        "chair" => chair(rest),
        "closed" => alone(rest, Change::Closed),
        "request" => request(alloc, rest),
        "cut" => cut(rest),
        "." => alone(rest, Change::Nothing),
        _ => Err(FollowFault::UnknownLine),
    }
}

/// What a line changes that tells no event.
pub(crate) fn notice(alloc: Global, text: Rest) -> Result<Change, FollowFault>
    ensures { Reads (spec.notice text.entry) result }
{
    let (kind, rest) = text.word()?;
    match kind.as_str() {
        "away" => member(alloc, rest, true),
        // Its user is back by another member, which was told to have joined.
        "back" => left(alloc, rest),
        "broken" => alone(rest, Change::Broken),
        "unkept" => alone(rest, Change::Nothing),
        _ => Err(FollowFault::UnknownLine),
    }
}

/// A line of one word.
fn alone(text: Rest, change: Change) -> Result<Change, FollowFault>
    ensures { result ≡ spec.alone text.entry change }
{
    text.end()?;
    Ok(change)
}

/// `<n> user <u>`, of a member that is there.
fn member(alloc: Global, text: Rest, is_away: bool) -> Result<Change, FollowFault>
    ensures { Reads (spec.member text.entry is_away) result }
{
    let (n, user) = number_and_user(text)?;
    let member = Member { n, user, is_away };
    let facts = Facts::one(alloc, Fact::Member(member))?;
    Ok(Change::About(Subject::Member(n), facts))
}

/// `<n> user <u>`, of a member that is there no more.
fn left(alloc: Global, text: Rest) -> Result<Change, FollowFault>
    ensures { result ≡ spec.left text.entry }
{
    let (n, _user) = number_and_user(text)?;
    Ok(Change::About(Subject::Member(n), Facts::new(alloc)))
}

/// `<n> user <u>`, of a member that is told nothing more.
fn cut(text: Rest) -> Result<Change, FollowFault>
    ensures { result ≡ spec.cut_off text.entry }
{
    let (_n, _user) = number_and_user(text)?;
    Ok(Change::Nothing)
}

fn number_and_user(text: Rest) -> Result<(u32, u16), FollowFault>
    ensures { result ≡ spec.number_and_user text.entry }
{
    let (n, rest) = text.number32()?;
    let rest = rest.behind("user")?;
    let (user, rest) = rest.number16()?;
    rest.end()?;
    Ok((n, user))
}

/// `<id> [proxy] [port <p>] [name <hex>]`
fn user(alloc: Global, text: Rest) -> Result<Change, FollowFault>
    ensures { Reads (spec.user text.entry) result }
{
    let person = person(alloc, text)?;
    let id = person.id;
    let facts = Facts::one(alloc, Fact::User(person))?;
    Ok(Change::About(Subject::User(id), facts))
}

/// `<id> [proxy] [port <p>] [name <hex>]`
pub(crate) fn person(alloc: Global, text: Rest) -> Result<Person, FollowFault>
    ensures { Reads (spec.person text.entry) result }
{
    let (id, rest) = text.number16()?;
    let (proxy, rest) = proxy_mark(rest)?;
    let (port, rest) = port(rest)?;
    let name = name(alloc, rest)?;
    Ok(Person {
        id,
        proxy,
        port,
        name,
    })
}

fn proxy_mark(text: Rest<'_>) -> Result<(bool, Rest<'_>), FollowFault>
    ensures { result ≡ spec.proxy_mark text.entry }
{
    if text.begins_with("proxy") {
        return Ok((true, text.behind("proxy")?));
    }
    Ok((false, text))
}

fn port(text: Rest<'_>) -> Result<(Option<u16>, Rest<'_>), FollowFault>
    ensures { result ≡ spec.port text.entry }
{
    if text.begins_with("port") {
        let (port, rest) = text.behind("port")?.number16()?;
        return Ok((Some(port), rest));
    }
    Ok((None, text))
}

fn name(alloc: Global, text: Rest) -> Result<Option<Octets>, FollowFault>
    ensures { Reads (spec.name text.entry) result }
{
    if text.is_empty() {
        return Ok(None);
    }
    let (name, rest) = text.behind("name")?.octets(alloc)?;
    rest.end()?;
    Ok(Some(name))
}

/// `<id> room <r> chair <u or ->`
fn floor(alloc: Global, text: Rest) -> Result<Change, FollowFault>
    ensures { Reads (spec.floor text.entry) result }
{
    let (floor, rest) = floor_words(text)?;
    rest.end()?;
    let facts = Facts::one(alloc, Fact::Floor(floor))?;
    Ok(Change::About(Subject::Floor(floor.id), facts))
}

/// `<id> room <r> chair <u or ->`, and what is left.
pub(crate) fn floor_words(text: Rest<'_>) -> Result<(Floor, Rest<'_>), FollowFault>
    ensures { result ≡ spec.floor_words text.entry }
{
    let (id, rest) = text.number16()?;
    let (room, rest) = rest.behind("room")?.number16()?;
    let (chair, rest) = rest.behind("chair")?.optional16()?;
    Ok((Floor { id, room, chair }, rest))
}

/// `<floor> <u or ->`
fn chair(text: Rest) -> Result<Change, FollowFault>
    ensures { result ≡ spec.chair text.entry }
{
    let (floor, rest) = text.number16()?;
    let (chair, rest) = rest.optional16()?;
    rest.end()?;
    Ok(Change::Chair { floor, chair })
}

/// What stands in a floor request's line in front of its floors.
#[derive(Clone, Copy)]
struct Head {
    request: u16,
    user: u16,
    requester: Option<u16>,
    status: RequestStatus,
    position: u16,
}

/// `<r> user <u> [by <u>] <Status>:<position> floors <f>[:<Status>] .. reason <hex or ->`
fn request(alloc: Global, text: Rest) -> Result<Change, FollowFault>
    ensures { Reads (spec.request text.entry) result }
{
    let (head, rest) = head_of(text)?;
    let facts = requested_floors(alloc, head, rest.as_str())?;
    Ok(Change::About(Subject::Request(head.request), facts))
}

fn head_of(text: Rest<'_>) -> Result<(Head, Rest<'_>), FollowFault>
    ensures { result ≡ spec.head text.entry }
{
    let (request, rest) = text.number16()?;
    let (user, rest) = rest.behind("user")?.number16()?;
    let (requester, rest) = requester(rest)?;
    let (word, rest) = rest.word()?;
    let (status, position) = status_and_position(word)?;
    let rest = rest.behind("floors")?;
    let head = Head {
        request,
        user,
        requester,
        status,
        position,
    };
    Ok((head, rest))
}

fn requester(text: Rest<'_>) -> Result<(Option<u16>, Rest<'_>), FollowFault>
    ensures { result ≡ spec.requester text.entry }
{
    if text.begins_with("by") {
        let (requester, rest) = text.behind("by")?.number16()?;
        return Ok((Some(requester), rest));
    }
    Ok((None, text))
}

/// `<Status>:<position>`
fn status_and_position(word: Rest) -> Result<(RequestStatus, u16), FollowFault>
    ensures { result ≡ spec.status_and_position word.entry }
{
    let (name, number) = word.parted();
    let status = status(name)?;
    let (position, _) = number.number16()?;
    Ok((status, position))
}

/// The status of this name (RFC 8855, section 5.2.5).
fn status(name: Rest) -> Result<RequestStatus, FollowFault>
    ensures { result ≡ spec.status name.entry }
{
    match name.as_str() {
        "Pending" => Ok(RequestStatus::Pending),
        "Accepted" => Ok(RequestStatus::Accepted),
        "Granted" => Ok(RequestStatus::Granted),
        "Denied" => Ok(RequestStatus::Denied),
        "Cancelled" => Ok(RequestStatus::Cancelled),
        "Released" => Ok(RequestStatus::Released),
        "Revoked" => Ok(RequestStatus::Revoked),
        _ => Err(FollowFault::UnknownLine),
    }
}

/// The floor request at each of its floors, and what is said of it, where it is ongoing; nothing where it
/// has ended.
fn requested_floors(alloc: Global, head: Head, text: &str) -> Result<Facts, FollowFault>
    ensures { Reads (spec.floors_of head [] (words text.now)) result }
{
    let mut facts = Facts::new(alloc);
    let mut rest = text;
    'floors: loop {
        match cut_word(rest) {
            None => return Err(FollowFault::UnknownLine),
            Some(cut) => {
                if cut.word == "reason" {
                    return with_reason(alloc, head, facts, cut.rest);
                }
                let fact = requested_floor(head, cut.word)?;
                facts.push(fact)?;
                rest = cut.rest;
            }
        }
    }
}

/// `<f>[:<Status>]`
fn requested_floor(head: Head, word: &str) -> Result<Fact, FollowFault>
    ensures { result ≡ spec.requested_floor head word.now }
{
    let (number, name) = Rest::of(word).parted();
    let (floor, _) = number.number16()?;
    let status = own_status(head, name)?;
    Ok(Fact::Request(RequestedFloor {
        request: head.request,
        floor,
        user: Some(head.user),
        requester: head.requester,
        status,
        position: head.position,
    }))
}

/// The status of a floor of the request: that of the whole, where none is said.
fn own_status(head: Head, name: Rest) -> Result<RequestStatus, FollowFault>
    ensures { result ≡ spec.own_status head name.entry }
{
    if name.as_str().is_empty() {
        return Ok(head.status);
    }
    status(name)
}

/// The facts, and what is said of the request, by what stands behind `reason`.
fn with_reason(alloc: Global, head: Head, facts: Facts, text: &str) -> Result<Facts, FollowFault>
    ensures { Reads (spec.with_reason head facts (words text.now)) result }
{
    let Some(cut) = cut_word(text) else {
        return Err(FollowFault::UnknownLine);
    };
    if cut_word(cut.rest).is_some() {
        return Err(FollowFault::UnknownLine);
    }
    let (reason, _) = Rest::of(cut.word).optional_octets(alloc)?;
    if !is_ongoing(head.status) {
        return Ok(Facts::new(alloc));
    }
    said(head.request, facts, reason)
}

/// The facts, and what is said of the request, if anything is.
fn said(request: u16, facts: Facts, reason: Option<Octets>) -> Result<Facts, FollowFault>
    ensures { Reads (Ok (spec.said request facts reason)) result }
{
    let mut facts = facts;
    match reason {
        None => {}
        Some(text) => facts.push(Fact::Reason(Reason { request, text }))?,
    }
    Ok(facts)
}

/// Whether a request with this status goes on (RFC 8855, section 10.1.2).
fn is_ongoing(status: RequestStatus) -> bool
    ensures { result ≡ spec.is_ongoing status }
{
    match status {
        RequestStatus::Pending | RequestStatus::Accepted | RequestStatus::Granted => true,
        RequestStatus::Denied
        | RequestStatus::Cancelled
        | RequestStatus::Released
        | RequestStatus::Revoked => false,
    }
}
