//! The text of each answer, without its tag.
//!
//! Each call appends to a text; after an error the text may have a part of what was to be appended.

ghost use Rattle.std.specs.Prelude.{◌≡◌, ◌++◌, Err, IfOk, Ok, OnOk, codes, string_bytes};
ghost use Rattle.floor_console.specs.Answer.{opened, stopped};
ghost use Rattle.floor_control.specs.Answer.{did, done, draining, end_at, end_line, faulty_at, forgotten, notice_line, refused, standing_line, status_words, unkept_mark, unread, unwatched, watching, word, word_kept};

use crate::line::LineFault;
use crate::refusal::ControlRefusal;
use floor_config::ConfigFault;
use floor_console::{StopRefusal, Stopped};
use floor_room::{Place, Status};
use std::alloc::{AllocError, Global};
use std::fmt::Write;

/// What a line has done to a conference.
#[derive(Clone, Copy, Debug, PartialEq, Eq)]
pub enum Done {
    /// It closed the conference.
    Closed,
    /// It revoked the floor request with this number.
    Revoked(u16),
    /// It added the user with this id.
    UserAdded(u16),
    /// It added the floor with this id.
    FloorAdded(u16),
    /// It gave the floor with this id a chair, or took it away.
    ChairSet(u16),
    /// It showed the member with this number out.
    Left(u32),
}

/// How a conference stands, for an administrator.
#[derive(Clone, Copy, Debug)]
pub struct Standing {
    pub conference: u32,
    pub status: Status,
    /// Whether a file was to have its events, and hasn't.
    pub is_unkept: bool,
}

/// What is told to those who watch a conference, and is no event.
#[derive(Clone, Copy, Debug, PartialEq, Eq)]
pub enum Notice {
    /// A member's connection was lost, and may come back.
    Away { n: u32, user: u16 },
    /// It came back.
    Back { n: u32, user: u16 },
    /// The conference is broken off.
    Broken,
    /// A file was to have the conference's events, and hasn't.
    Unkept,
}

/// Adds the answer to a line that is none.
pub fn add_unread(out: &mut String, fault: LineFault) -> Result<(), AllocError>
    ensures { OnOk result (string_bytes out.new ≡ string_bytes out.old ++ unread fault) }
{
    let name = fault.name();
    write!(out, "error {name}\n")
}

/// Adds the answer to a line that isn't done.
pub fn add_refused(out: &mut String, refusal: ControlRefusal) -> Result<(), AllocError>
    ensures { OnOk result (string_bytes out.new ≡ string_bytes out.old ++ refused refusal) }
{
    let name = refusal.name();
    write!(out, "error {name}\n")
}

/// Adds the answer to a configuration that is refused, with the line of the fault, counted from 1.
pub fn add_faulty_at(out: &mut String, fault: ConfigFault, line: usize) -> Result<(), AllocError>
    ensures { OnOk result (string_bytes out.new ≡ string_bytes out.old ++ faulty_at fault line) }
{
    let name = fault.name();
    write!(out, "error {name} line {line}\n")
}

/// Adds the answer to `open`, by how many conferences were opened.
pub fn add_opened(out: &mut String, count: usize) -> Result<(), AllocError>
    ensures { OnOk result (string_bytes out.new ≡ string_bytes out.old ++ opened (Ok count)) }
{
    write!(out, "ok opened {count}\n")
}

/// Adds the answer to a line that has done something to a conference, with its place in the journal, if
/// that is told.
pub fn add_done(
    out: &mut String,
    conference: u32,
    act: Done,
    place: Option<Place>,
) -> Result<(), AllocError>
    ensures { OnOk result (string_bytes out.new
        ≡ string_bytes out.old ++ done conference act place) }
{
    add_did(out, conference, act)?;
    match place {
        None => write!(out, "\n"),
        Some(place) => write!(out, " at {place}\n"),
    }
}

/// Adds what was done, and nothing behind it.
fn add_did(out: &mut String, conference: u32, act: Done) -> Result<(), AllocError>
    ensures { OnOk result (string_bytes out.new ≡ string_bytes out.old ++ did conference act) }
{
    match act {
        Done::Closed => write!(out, "ok closed {conference}"),
        Done::Revoked(request) => write!(out, "ok revoked {conference} {request}"),
        Done::UserAdded(id) => write!(out, "ok user {conference} {id}"),
        Done::FloorAdded(id) => write!(out, "ok floor {conference} {id}"),
        Done::ChairSet(floor) => write!(out, "ok chair {conference} {floor}"),
        Done::Left(n) => write!(out, "ok left {conference} {n}"),
    }
}

/// Adds how a conference stands: the answer to `status`, and a line of the answer to `list`.
pub fn add_standing(out: &mut String, standing: Standing) -> Result<(), AllocError>
    ensures { OnOk result (string_bytes out.new ≡ string_bytes out.old ++ standing_line standing) }
{
    let Standing {
        conference,
        status,
        is_unkept,
    } = standing;
    let words = status_words(*out.allocator(), conference, status)?;
    let unkept = unkept_mark(is_unkept);
    add_both(out, words.as_str(), unkept)
}

/// Adds two words as a line, with no space between them.
fn add_both(out: &mut String, first: &str, second: &str) -> Result<(), AllocError>
    ensures { OnOk result (string_bytes out.new
        ≡ string_bytes out.old ++ (first.now ++ (second.now ++ codes "\n"))) }
{
    write!(out, "{first}{second}\n")
}

/// How a conference stands, without the end of the line.
fn status_words(alloc: Global, conference: u32, status: Status) -> Result<String, AllocError>
    ensures { IfOk result (λ words. string_bytes words ≡ status_words conference status) }
{
    let Status {
        members,
        ongoing,
        events,
        phase,
    } = status;
    let phase = phase.name();
    format!(in alloc;
        "conference {conference} members {members} ongoing {ongoing} events {events} {phase}"
    )
}

/// What stands behind a conference of which a file was to have the events, and hasn't.
fn unkept_mark(is_unkept: bool) -> &'static str
    ensures { result.now ≡ unkept_mark is_unkept }
{
    if is_unkept { " unkept" } else { "" }
}

/// Adds the answer to `stop`.
pub fn add_stopped(
    out: &mut String,
    outcome: Result<Stopped, StopRefusal>,
) -> Result<(), AllocError>
    ensures { OnOk result (string_bytes out.new ≡ string_bytes out.old ++ stopped outcome) }
{
    match outcome {
        Ok(Stopped { seats, events }) => write!(out, "ok stopped seats {seats} events {events}\n"),
        Err(refusal) => add_stop_refused(out, refusal),
    }
}

fn add_stop_refused(out: &mut String, refusal: StopRefusal) -> Result<(), AllocError>
    ensures { OnOk result (string_bytes out.new ≡ string_bytes out.old ++ stopped (Err refusal)) }
{
    match refusal {
        StopRefusal::Broken { conference } => write!(out, "error Broken {conference}\n"),
        StopRefusal::Mismatch { conference, n } => write!(out, "error Mismatch {conference} {n}\n"),
    }
}

/// Adds the answer to `forget`.
pub fn add_forgotten(out: &mut String, conference: u32) -> Result<(), AllocError>
    ensures { OnOk result (string_bytes out.new ≡ string_bytes out.old ++ forgotten conference) }
{
    write!(out, "ok forgotten {conference}\n")
}

/// Adds the answer to `watch`, with the next place of the conference's journal.
pub fn add_watching(out: &mut String, conference: u32, next: Place) -> Result<(), AllocError>
    ensures { OnOk result (string_bytes out.new ≡ string_bytes out.old ++ watching conference next) }
{
    write!(out, "ok watching {conference} {next}\n")
}

/// Adds the answer to `unwatch`.
pub fn add_unwatched(out: &mut String, conference: u32) -> Result<(), AllocError>
    ensures { OnOk result (string_bytes out.new ≡ string_bytes out.old ++ unwatched conference) }
{
    write!(out, "ok unwatched {conference}\n")
}

/// Adds the answer to `word`.
pub fn add_word_kept(out: &mut String, conference: u32, key: &str) -> Result<(), AllocError>
    ensures { OnOk result (string_bytes out.new ≡ string_bytes out.old ++ word_kept conference key.now) }
{
    write!(out, "ok word {conference} {key}\n")
}

/// Adds a word that is kept, a line of the answer to `words`.
pub fn add_word(out: &mut String, key: &str, value: &[u8]) -> Result<(), AllocError>
    ensures { OnOk result (string_bytes out.new ≡ string_bytes out.old ++ word key.now value.now) }
{
    let value = hex::encode(*out.allocator(), value)?;
    write!(out, "word {key} {value}\n")
}

/// Adds the answer to `drain`.
pub fn add_draining(out: &mut String) -> Result<(), AllocError>
    ensures { OnOk result (string_bytes out.new ≡ string_bytes out.old ++ draining) }
{
    out.push_str("ok draining\n")
}

/// Adds the last line of an answer of so many lines.
pub fn add_end(out: &mut String, count: usize) -> Result<(), AllocError>
    ensures { OnOk result (string_bytes out.new ≡ string_bytes out.old ++ end_line count) }
{
    write!(out, "end {count}\n")
}

/// Adds the last line of an answer of so many lines, with the next place of the conference's journal.
pub fn add_end_at(out: &mut String, count: usize, next: Place) -> Result<(), AllocError>
    ensures { OnOk result (string_bytes out.new ≡ string_bytes out.old ++ end_at count next) }
{
    write!(out, "end {count} {next}\n")
}

/// Adds what is told to those who watch a conference, and is no event.
pub fn add_notice(out: &mut String, conference: u32, notice: Notice) -> Result<(), AllocError>
    ensures { OnOk result (string_bytes out.new ≡ string_bytes out.old ++ notice_line conference notice) }
{
    match notice {
        Notice::Away { n, user } => write!(out, "~ {conference} away {n} user {user}\n"),
        Notice::Back { n, user } => write!(out, "~ {conference} back {n} user {user}\n"),
        Notice::Broken => write!(out, "~ {conference} broken\n"),
        Notice::Unkept => write!(out, "~ {conference} unkept\n"),
    }
}
