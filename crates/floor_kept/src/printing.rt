//! Lines as the file has them.

ghost use Rattle.std.specs.Prelude.{◌≡◌, ◌++◌, ◌≤◌, IfOk, OnOk, string_bytes};
ghost use Rattle.floor_kept.specs.Entries.{entry_line};
ghost use Rattle.floor_room.specs.Text.{end_line, line, text_word};

use crate::entry::Entry;
use floor_machine::Event;
use floor_room::{add_end, add_lines};
use floor_wire::Octets;
use std::alloc::{AllocError, Global};
use std::slice;

/// The line of an entry, where the next event is the one at this place.
pub fn entry_line(alloc: Global, place: usize, entry: &Entry) -> Result<String, AllocError>
    ensures { IfOk result (λ text. string_bytes text ≡ entry_line place entry.now) }
{
    match entry {
        Entry::Happened(event) => event_line(alloc, place, event),
        Entry::Port { user, port } => format!(in alloc; "# port {user} {port}\n"),
        Entry::Word { key, value } => {
            let key = key.as_str();
            let value = octets_word(alloc, value)?;
            format!(in alloc; "# word {key} {value}\n")
        }
        Entry::End => {
            let mut text = String::new(alloc);
            add_end(alloc, &mut text, place.saturating_sub(1))?;
            Ok(text)
        }
    }
}

/// The line of the event at this place.
fn event_line(alloc: Global, place: usize, event: &Event) -> Result<String, AllocError>
    ensures { IfOk result (λ text. string_bytes text ≡ line place event.now) }
{
    // The lines of a journal begin with place 1: behind that digit each is as at any place.
    let mut first = String::new(alloc);
    add_lines(alloc, &mut first, slice::from_ref(event), 0)?;
    let mut text = format!(in alloc; "{place}")?;
    match first.as_str().strip_prefix("1") {
        Some(rest) => text.push_str(rest)?,
        None => unreachable!(),
    }
    Ok(text)
}

/// Octets in hexadecimal, lower case, and `-` for none.
fn octets_word(alloc: Global, octets: &Option<Octets>) -> Result<String, AllocError>
    ensures { IfOk result (λ word. string_bytes word ≡ text_word octets.now) }
{
    match octets {
        Some(octets) => {
            let bytes = octets.as_slice();
            if bytes.is_empty() {
                String::from_str(alloc, "-")
            } else {
                hex::encode(alloc, bytes)
            }
        }
        None => String::from_str(alloc, "-"),
    }
}
