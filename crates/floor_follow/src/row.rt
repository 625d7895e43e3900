//! What a line of an answer tells of the conference that was asked about.

ghost use Rattle.std.specs.Prelude.{◌≡◌};
ghost use Rattle.floor_words.specs.Words.{words};
ghost use Rattle.floor_follow.specs.Reading.{Reads};
ghost use Rattle.floor_follow.specs.Row as spec;

use crate::fact::{Fact, Facts, Member, RequestedFloor, Word};
use crate::fault::FollowFault;
use crate::live::{floor_words, person};
use crate::rest::Rest;
use floor_config::Text;
use floor_message::RequestStatus;
use floor_words::cut_word;
use std::alloc::Global;

/// The facts of the line of this name.
pub(crate) fn row(alloc: Global, name: Rest, text: Rest) -> Result<Facts, FollowFault>
    ensures { Reads (spec.row name.entry text.entry) result }
{
    match name.as_str() {
        "user" => user(alloc, text),
        "floor" => floor(alloc, text),
        "member" => member(alloc, text),
        "word" => word(alloc, text),
        _ => Err(FollowFault::UnknownLine),
    }
}

/// `<id> [proxy] [port <p>] [name <hex>]`
fn user(alloc: Global, text: Rest) -> Result<Facts, FollowFault>
    ensures { Reads (spec.user text.entry) result }
{
    let person = person(alloc, text)?;
    Ok(Facts::one(alloc, Fact::User(person))?)
}

/// `<n> user <u> behind <b> [cut] [away <seconds>]`
fn member(alloc: Global, text: Rest) -> Result<Facts, FollowFault>
    ensures { Reads (spec.member text.entry) result }
{
    let member = member_words(text)?;
    Ok(Facts::one(alloc, Fact::Member(member))?)
}

fn member_words(text: Rest) -> Result<Member, FollowFault>
    ensures { result ≡ spec.member_words text.entry }
{
    let (n, rest) = text.number32()?;
    let (user, rest) = rest.behind("user")?.number16()?;
    let (_behind, rest) = rest.behind("behind")?.number32()?;
    let rest = cut_mark(rest)?;
    let is_away = away_mark(rest)?;
    Ok(Member { n, user, is_away })
}

/// What is left behind `cut`, where that stands there.
fn cut_mark(text: Rest<'_>) -> Result<Rest<'_>, FollowFault>
    ensures { result ≡ spec.cut_mark text.entry }
{
    if text.begins_with("cut") {
        return text.behind("cut");
    }
    Ok(text)
}

/// Whether `away <seconds>` stands there, to the end, or nothing.
fn away_mark(text: Rest) -> Result<bool, FollowFault>
    ensures { result ≡ spec.away_mark text.entry }
{
    if text.is_empty() {
        return Ok(false);
    }
    let (_seconds, rest) = text.behind("away")?.place()?;
    rest.end()?;
    Ok(true)
}

/// `<key> <hex>`
fn word(alloc: Global, text: Rest) -> Result<Facts, FollowFault>
    ensures { Reads (spec.word text.entry) result }
{
    let (key, rest) = text.word()?;
    let (value, rest) = rest.octets(alloc)?;
    rest.end()?;
    let key = Text::from_string(String::from_str(alloc, key.as_str())?);
    Ok(Facts::one(alloc, Fact::Word(Word { key, value }))?)
}

/// `<id> room <r> chair <u or ->`, then the floor requests for it.
fn floor(alloc: Global, text: Rest) -> Result<Facts, FollowFault>
    ensures { Reads (spec.floor text.entry) result }
{
    let (floor, rest) = floor_words(text)?;
    let facts = Facts::one(alloc, Fact::Floor(floor))?;
    requests(floor.id, facts, rest.as_str())
}

/// How the floor requests stand whose words come: as the last part's name says.
#[derive(Clone, Copy)]
struct Part {
    status: RequestStatus,
    /// The queue position of the last that waits.
    position: u16,
}

/// `[holders <request>:<user or -> ..] [waiting ..] [pending ..]`, of which these facts come first.
fn requests(floor: u16, first: Facts, text: &str) -> Result<Facts, FollowFault>
    ensures { Reads (spec.requests floor spec.no_part first (words text.now)) result }
{
    let mut facts = first;
    let mut part = None;
    let mut rest = text;
    'words: loop {
        match cut_word(rest) {
            None => return Ok(facts),
            Some(cut) => {
                part = take_word(floor, part, &mut facts, cut.word)?;
                rest = cut.rest;
            }
        }
    }
}

/// Takes a word: a part's name, or a request of the last part that was named. Gives the part that it is in.
fn take_word(
    floor: u16,
    part: Option<Part>,
    facts: &mut Facts,
    word: &str,
) -> Result<Option<Part>, FollowFault>
    ensures { spec.Steps (spec.step (spec.part_named word.now) floor part facts.old word.now)
        facts.new result }
{
    match part_named(word) {
        Some(named) => Ok(Some(named)),
        None => {
            let next = next_part(part)?;
            let fact = entry(floor, next, word)?;
            facts.push(fact)?;
            Ok(Some(next))
        }
    }
}

/// The part that a word begins, if it does.
fn part_named(word: &str) -> Option<Part>
    ensures { result ≡ spec.part_named word.now }
{
    match word {
        "holders" => Some(Part {
            status: RequestStatus::Granted,
            position: 0,
        }),
        "waiting" => Some(Part {
            status: RequestStatus::Accepted,
            position: 0,
        }),
        "pending" => Some(Part {
            status: RequestStatus::Pending,
            position: 0,
        }),
        _ => None,
    }
}

/// The part with one more request in it.
fn next_part(part: Option<Part>) -> Result<Part, FollowFault>
    ensures { result ≡ spec.next_part part }
{
    match part {
        None => Err(FollowFault::UnknownLine),
        Some(part) if part.status == RequestStatus::Accepted => match part.position.checked_add(1) {
            Some(position) => Ok(Part {
                status: part.status,
                position,
            }),
            None => Err(FollowFault::BadNumber),
        },
        Some(part) => Ok(part),
    }
}

/// `<request>:<user or ->`
fn entry(floor: u16, part: Part, word: &str) -> Result<Fact, FollowFault>
    ensures { result ≡ spec.entry floor part word.now }
{
    let (number, who) = Rest::of(word).parted();
    let (request, _) = number.number16()?;
    let (user, _) = who.optional16()?;
    Ok(Fact::Request(RequestedFloor {
        request,
        floor,
        user,
        requester: None,
        status: part.status,
        position: part.position,
    }))
}
