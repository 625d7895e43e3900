//! What happened in a conference, event by event.

ghost use Rattle.std.specs.Prelude.{◌≡◌, ◌+◌, ◌-◌, ◌++◌, ◌<◌, ◌≤◌, IfOk, OnOk, drop, length, string_bytes, take};
ghost use Rattle.floor_machine.specs.declared.event.Event.TheVariants.{AddUser};
ghost use Rattle.floor_room.specs.Text.{end_line, journal_text, line, lines, number_word, text_word};

use floor_config::Text;
use floor_machine::{Event, User};
use std::alloc::{AllocError, Global};
use std::fmt::Write;

/// The place of an event in the journal, from 1.
pub type Place = u32;

/// The most events whose lines are added at once.
const MOST_AT_ONCE: usize = 4_096;

/// Behind so many bytes of lines no further event is begun.
const ENOUGH_AT_ONCE: usize = 262_144;

/// The lines of a journal: the place of each event and what happened; then `end` and their number.
///
/// Messages are in hexadecimal, lower case. Each line ends with a line feed.
pub fn journal_text(alloc: Global, events: &[Event]) -> Result<String, AllocError>
    ensures { IfOk result (λ text. string_bytes text ≡ journal_text events.now) }
{
    let mut text = String::new(alloc);
    let mut done = 0;
    while done < events.len() {
        done += add_lines(alloc, &mut text, events, done)?;
    }
    add_end(alloc, &mut text, done)?;
    Ok(text)
}

/// Adds to a text the lines of the events behind the first `done`, and gives how many it added: at least
/// one where there is one, at most 4,096, and no further one behind 256 KiB of lines. So whoever holds a
/// journal that others wait for can let go of it between the pieces; as a journal only grows, they are
/// one text. With want of memory the text may have some lines more.
pub fn add_lines(
    alloc: Global,
    text: &mut String,
    events: &[Event],
    done: usize,
) -> Result<usize, AllocError>
    ensures lines { IfOk result (λ added. string_bytes text.new
        ≡ string_bytes text.old ++ lines (done + 1) (take added (drop done events.now))) }
    ensures one { IfOk result (λ added. done < length events.now → 1 ≤ added) }
    ensures most { IfOk result (λ added. added ≤ 4096) }
    ensures within { IfOk result (λ added. added ≤ length events.now - done) }
{
    let enough = text.len() + ENOUGH_AT_ONCE;
    if done >= events.len() {
        return Ok(0);
    }
    add_line(alloc, text, done + 1, &events[done])?;
    let mut added = 1;
    while added < events.len() - done && added < MOST_AT_ONCE && text.len() < enough {
        add_line(alloc, text, done + added + 1, &events[done + added])?;
        added += 1;
    }
    Ok(added)
}

/// Adds to a text the last line of a journal of so many events. With want of memory the text may have a
/// part of it.
pub fn add_end(alloc: Global, text: &mut String, count: usize) -> Result<(), AllocError>
    ensures { OnOk result (string_bytes text.new ≡ string_bytes text.old ++ end_line count) }
{
    let end = format!(in alloc; "end {count}\n")?;
    text.push_str(end.as_str())
}

/// Adds to a text the line of the event at this place. With want of memory the text may have a part of it.
fn add_line(alloc: Global, text: &mut String, place: usize, event: &Event) -> Result<(), AllocError>
    ensures { OnOk result (string_bytes text.new ≡ string_bytes text.old ++ line place event.now) }
{
    match event {
        Event::Join { user } => write!(text, "{place} join {user}\n"),
        Event::Message { n, frame } => {
            let bytes = hex::encode(alloc, frame.bytes())?;
            write!(text, "{place} message {n} {bytes}\n")
        }
        Event::Took { n, k } => write!(text, "{place} took {n} {k}\n"),
        Event::Leave { n } => write!(text, "{place} leave {n}\n"),
        Event::Revoke { request } => write!(text, "{place} revoke {request}\n"),
        Event::Close => write!(text, "{place} close\n"),
        Event::AddUser { user } => add_user_line(alloc, text, place, user.as_user()),
        Event::AddFloor { floor } => {
            let id = floor.id;
            let room = floor.room;
            let chair = number_word(alloc, floor.chair)?;
            write!(text, "{place} floor {id} {room} {chair}\n")
        }
        Event::SetChair { floor, chair } => {
            let chair = number_word(alloc, *chair)?;
            write!(text, "{place} chair {floor} {chair}\n")
        }
        Event::Say { user, frame } => {
            let bytes = hex::encode(alloc, frame.bytes())?;
            write!(text, "{place} say {user} {bytes}\n")
        }
    }
}

/// Adds to a text the line of a user that was added at this place.
fn add_user_line(
    alloc: Global,
    text: &mut String,
    place: usize,
    user: &User,
) -> Result<(), AllocError>
    ensures { OnOk result (string_bytes text.new
        ≡ string_bytes text.old ++ line place (AddUser user.now)) }
{
    let id = user.id;
    let proxy = if user.proxy { "1" } else { "0" };
    let name = text_word(alloc, &user.name)?;
    let uri = text_word(alloc, &user.uri)?;
    write!(text, "{place} user {id} {proxy} {name} {uri}\n")
}

/// A text in hexadecimal, lower case, and `-` for an absent or empty one.
fn text_word(alloc: Global, text: &Option<Text>) -> Result<String, AllocError>
    ensures { IfOk result (λ word. string_bytes word ≡ text_word text.now) }
{
    match text {
        Some(text) => {
            let bytes = text.as_str().as_bytes();
            if bytes.is_empty() {
                String::from_str(alloc, "-")
            } else {
                hex::encode(alloc, bytes)
            }
        }
        None => String::from_str(alloc, "-"),
    }
}

/// A number, and `-` for none.
fn number_word(alloc: Global, number: Option<u16>) -> Result<String, AllocError>
    ensures { IfOk result (λ word. string_bytes word ≡ number_word number) }
{
    match number {
        Some(number) => format!(in alloc; "{number}"),
        None => String::from_str(alloc, "-"),
    }
}
