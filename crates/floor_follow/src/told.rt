//! What a line of the control socket tells.

ghost use Rattle.std.specs.Prelude.{◌≡◌};
ghost use Rattle.floor_follow.specs.Reading.{Reads};
ghost use Rattle.floor_follow.specs.Told as spec;

use crate::change::Change;
use crate::fact::Facts;
use crate::fault::FollowFault;
use crate::live::{event, notice};
use crate::rest::Rest;
use crate::row::row;
use floor_room::Phase;
use std::alloc::Global;

/// How a conference is listed.
#[derive(Clone, Copy)]
pub struct Listed {
    /// The conference.
    pub conference: u32,
    /// Whether it runs.
    pub phase: Phase,
    /// How many events it had.
    pub events: u64,
}

/// What a line tells.
#[derive(Drop)]
pub enum Told {
    /// What became of a conference that is watched.
    Live { conference: u32, change: Change },
    /// A line of an answer, of the conference that was asked about.
    Row(Facts),
    /// A line of the list of the conferences.
    Listed(Listed),
    /// The end of an answer, with the next place of the journal where that is said.
    End { next: Option<u64> },
    /// What was asked is done.
    Done,
    /// What was asked isn't done.
    Refused,
}

/// What a line tells, which has no line feed and no tag. Of what is wrong with it the first from the left is
/// told.
pub fn read_line(alloc: Global, line: &str) -> Result<Told, FollowFault>
    ensures value { Reads (spec.told line.now) result }
{
    let (name, rest) = Rest::of(line).word()?;
    match name.as_str() {
        "!" => live(alloc, rest),
        "~" => noticed(alloc, rest),
        "conference" => conference(rest),
        "end" => end(rest),
        "ok" => Ok(Told::Done),
        "error" => Ok(Told::Refused),
        _ => Ok(Told::Row(row(alloc, name, rest)?)),
    }
}

/// `<c> <place> ..`
fn live(alloc: Global, text: Rest) -> Result<Told, FollowFault>
    ensures { Reads (spec.live text.entry) result }
{
    let (conference, rest) = text.number32()?;
    let (_place, rest) = rest.place()?;
    let change = event(alloc, rest)?;
    Ok(Told::Live { conference, change })
}

/// `<c> ..`
fn noticed(alloc: Global, text: Rest) -> Result<Told, FollowFault>
    ensures { Reads (spec.noticed text.entry) result }
{
    let (conference, rest) = text.number32()?;
    let change = notice(alloc, rest)?;
    Ok(Told::Live { conference, change })
}

/// `<c> members <m> ongoing <k> events <e> <phase> [unkept]`
fn conference(text: Rest) -> Result<Told, FollowFault>
    ensures { result ≡ spec.listed text.entry }
{
    let (conference, rest) = text.number32()?;
    let (_members, rest) = rest.behind("members")?.number32()?;
    let (_ongoing, rest) = rest.behind("ongoing")?.number32()?;
    let (events, rest) = rest.behind("events")?.place()?;
    let (word, rest) = rest.word()?;
    let phase = phase(word)?;
    let rest = unkept_mark(rest)?;
    rest.end()?;
    Ok(Told::Listed(Listed {
        conference,
        phase,
        events,
    }))
}

/// The phase of this name.
fn phase(name: Rest) -> Result<Phase, FollowFault>
    ensures { result ≡ spec.phase name.entry }
{
    match name.as_str() {
        "open" => Ok(Phase::Running),
        "ended" => Ok(Phase::Ended),
        "broken" => Ok(Phase::Broken),
        _ => Err(FollowFault::UnknownLine),
    }
}

/// What is left behind `unkept`, where that stands there.
fn unkept_mark(text: Rest<'_>) -> Result<Rest<'_>, FollowFault>
    ensures { result ≡ spec.unkept_mark text.entry }
{
    if text.begins_with("unkept") {
        return text.behind("unkept");
    }
    Ok(text)
}

/// `<count> [<next place>]`
fn end(text: Rest) -> Result<Told, FollowFault>
    ensures { result ≡ spec.ending text.entry }
{
    let (_count, rest) = text.place()?;
    if rest.is_empty() {
        return Ok(Told::End { next: None });
    }
    let (next, rest) = rest.place()?;
    rest.end()?;
    Ok(Told::End { next: Some(next) })
}
