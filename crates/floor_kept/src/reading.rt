//! The line of an entry, read.

ghost use Rattle.std.specs.Prelude.{◌≡◌, ◌++◌, IfOk, IfSome, None, codes};
ghost use Rattle.floor_kept.specs.Entries.{IsLineOf, entry_line, is_within};
ghost use Rattle.floor_kept.specs.declared.entry.Entry.{Entry as Given};
ghost use Rattle.floor_kept.specs.steps.Parsed.{checked};
ghost use Rattle.std.specs.Str.{bytes_eq};

use crate::entry::Entry;
use crate::parsing::entry_of;
use crate::printing::entry_line;
use floor_machine::MAX_EVENTS;
use floor_room::Place;
use floor_words::{numbers_are_read_back, words, words_are_read_back};
use std::alloc::{AllocError, Global};

/// The entry whose line this is without its line feed, where the next event is the one at this place;
/// `None` where it is no entry's. A line has one spelling, the printed one.
pub fn read_entry(alloc: Global, place: Place, text: &str) -> Result<Option<Entry>, AllocError>
    ensures found { IfOk result (λ found. IfSome found (IsLineOf place text.now)) }
    ensures none { IfOk result (λ found. found ≡ None
        → (entry : Given) → ¬ IsLineOf place text.now entry) }
{
    words_are_read_back();
    numbers_are_read_back();
    let words = words(alloc, text)?;
    match entry_of(alloc, &words)? {
        None => Ok(None),
        Some(entry) => checked(alloc, place, text, entry),
    }
}

/// The entry, where a journal may have it at this place and this is its line.
fn checked(
    alloc: Global,
    place: Place,
    text: &str,
    entry: Entry,
) -> Result<Option<Entry>, AllocError>
    ensures { IfOk result (λ found. found ≡ checked place text.now entry) }
{
    if !is_within(place, &entry) {
        return Ok(None);
    }
    if !is_line(alloc, place, text, &entry)? {
        return Ok(None);
    }
    Ok(Some(entry))
}

/// Whether the entry is no event, or one that a journal may have at this place.
fn is_within(place: Place, entry: &Entry) -> bool
    ensures { result ≡ is_within place entry.now }
{
    match entry {
        Entry::Happened(_) => place as usize <= MAX_EVENTS,
        _ => true,
    }
}

/// Whether the entry's line at this place is this text with a line feed.
fn is_line(alloc: Global, place: Place, text: &str, entry: &Entry) -> Result<bool, AllocError>
    ensures { IfOk result (λ same. same
        ≡ bytes_eq (entry_line place entry.now) (text.now ++ codes "\n")) }
{
    let printed = entry_line(alloc, place as usize, entry)?;
    let line = format!(in alloc; "{text}\n")?;
    Ok(printed.as_str() == line.as_str())
}
