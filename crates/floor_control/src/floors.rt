//! The line of a floor, with the floor requests for it.

ghost use Rattle.std.specs.Prelude.{◌≡◌, ◌==◌, ◌++◌, IfOk, OnOk, find, option_copied, option_to_list, string_bytes};
ghost use Rattle.floor_control.specs.Floors.{entries_of, entry_of, entry_word, floor_line, floor_words, is_same_part, named, part_in, part_of, waiting, word_if, words_of};

use floor_config::Floor;
use floor_message::{Info, RequestStatus, SharedInfo};
use std::alloc::{AllocError, Global};
use std::fmt::Write;

/// What a floor request is to one of its floors.
#[derive(Clone, Copy, Debug)]
enum Part {
    /// It holds the floor.
    Holds,
    /// It waits for the floor, at this queue position.
    Waits(u8),
    /// It is for the floor, and neither holds it nor waits for it.
    Pends,
}

impl Part {
    /// Whether both are the same.
    fn is_same(self, other: Part) -> bool
        ensures { result ≡ is_same_part self other }
    {
        match (self, other) {
            (Part::Holds, Part::Holds) => true,
            (Part::Waits(a), Part::Waits(b)) => a == b,
            (Part::Pends, Part::Pends) => true,
            _ => false,
        }
    }
}

/// A floor request that is for a floor.
#[derive(Clone, Copy, Debug)]
struct Entry {
    request: u16,
    /// Whom the request is for.
    user: Option<u16>,
    part: Part,
}

/// Adds the line of a floor: who holds it, who waits for it, by queue position, and who else asks for it,
/// of the floor requests that are shown, in their order. After an error the text may have a part of it.
pub fn add_floor(out: &mut String, floor: &Floor, shown: &[SharedInfo]) -> Result<(), AllocError>
    ensures { OnOk result (string_bytes out.new ≡ string_bytes out.old ++ floor_line floor.now shown.now) }
{
    let alloc = *out.allocator();
    let entries = entries_of(alloc, floor.id, shown)?;
    let holders = words_of(alloc, &entries, Part::Holds)?;
    let waiting = waiting(alloc, &entries)?;
    let pending = words_of(alloc, &entries, Part::Pends)?;
    add_floor_words(out, floor)?;
    add_named(out, " holders", holders.as_str())?;
    add_named(out, " waiting", waiting.as_str())?;
    add_named(out, " pending", pending.as_str())?;
    out.push_str("\n")
}

/// Adds what a floor is: the words of its line, and of the line of an event that adds it.
pub(crate) fn add_floor_words(out: &mut String, floor: &Floor) -> Result<(), AllocError>
    ensures { OnOk result (string_bytes out.new ≡ string_bytes out.old ++ floor_words floor.now) }
{
    let Floor { id, room, chair } = *floor;
    match chair {
        Some(user) => write!(out, "floor {id} room {room} chair {user}"),
        None => write!(out, "floor {id} room {room} chair -"),
    }
}

/// Adds words behind their name, where there are any.
fn add_named(out: &mut String, name: &str, words: &str) -> Result<(), AllocError>
    ensures { OnOk result (string_bytes out.new ≡ string_bytes out.old ++ named name.now words.now) }
{
    if words.is_empty() {
        return Ok(());
    }
    write!(out, "{name}{words}")
}

/// Those of the floor requests that are for the floor.
fn entries_of(alloc: Global, floor: u16, shown: &[SharedInfo]) -> Result<Vec<Entry>, AllocError>
    ensures { IfOk result (λ entries. entries.items ≡ entries_of floor shown.now) }
{
    let mut entries = Vec::new(alloc);
    for info in shown {
        push_entry(&mut entries, floor, info.as_info())?;
    }
    Ok(entries)
}

/// Adds a floor request, where it is for the floor.
fn push_entry(entries: &mut Vec<Entry>, floor: u16, info: &Info) -> Result<(), AllocError>
    ensures { OnOk result (entries.new.items
        ≡ entries.old.items ++ option_to_list (entry_of floor info.now)) }
{
    if let Some(entry) = entry_of(floor, info) {
        entries.push(entry)?;
    }
    Ok(())
}

/// What a floor request is to a floor; `None` where it isn't for it.
fn entry_of(floor: u16, info: &Info) -> Option<Entry>
    ensures { result ≡ entry_of floor info.now }
{
    let part = part_in(floor, info)?;
    let user = match &info.beneficiary {
        Some(who) => Some(who.user),
        None => None,
    };
    Some(Entry {
        request: info.request,
        user,
        part,
    })
}

/// The part of a floor request in a floor.
fn part_in(floor: u16, info: &Info) -> Option<Part>
    ensures { result ≡ part_in floor info.now }
{
    match shown_in(floor, info.floors.as_slice()) {
        Some(shown) => Some(part_of(shown.1)),
        None => None,
    }
}

/// The floor as it is shown, where it is among these.
fn shown_in(floor: u16, floors: &[(u16, Option<(u8, u8)>)]) -> Option<&(u16, Option<(u8, u8)>)>
    ensures { option_copied result ≡ find (λ f. f.0 == floor) floors.now }
{
    floors.iter().find(|shown| shown.0 == floor)
}

/// The part that a status and a queue position say.
fn part_of(status: Option<(u8, u8)>) -> Part
    ensures { result ≡ part_of status }
{
    match status {
        Some((status, position)) => {
            if status == RequestStatus::Granted.number() {
                Part::Holds
            } else if position == 0 {
                Part::Pends
            } else {
                Part::Waits(position)
            }
        }
        None => Part::Pends,
    }
}

/// Those that wait, by ascending position.
fn waiting(alloc: Global, entries: &[Entry]) -> Result<String, AllocError>
    ensures { IfOk result (λ words. string_bytes words ≡ waiting entries.now) }
{
    let mut words = String::new(alloc);
    for before in 0..255u8 {
        add_words(&mut words, entries, Part::Waits(before + 1))?;
    }
    Ok(words)
}

/// Those that have this part, in their order.
fn words_of(alloc: Global, entries: &[Entry], part: Part) -> Result<String, AllocError>
    ensures { IfOk result (λ words. string_bytes words ≡ words_of part entries.now) }
{
    let mut words = String::new(alloc);
    add_words(&mut words, entries, part)?;
    Ok(words)
}

/// Adds those that have this part, in their order.
fn add_words(words: &mut String, entries: &[Entry], part: Part) -> Result<(), AllocError>
    ensures { OnOk result (string_bytes words.new ≡ string_bytes words.old ++ words_of part entries.now) }
{
    for entry in entries {
        add_word_if(words, *entry, part)?;
    }
    Ok(())
}

/// Adds a floor request, where it has this part.
fn add_word_if(words: &mut String, entry: Entry, part: Part) -> Result<(), AllocError>
    ensures { OnOk result (string_bytes words.new ≡ string_bytes words.old ++ word_if part entry) }
{
    if entry.part.is_same(part) {
        return add_entry(words, entry);
    }
    Ok(())
}

/// Adds a floor request, and whom it is for.
fn add_entry(words: &mut String, entry: Entry) -> Result<(), AllocError>
    ensures { OnOk result (string_bytes words.new ≡ string_bytes words.old ++ entry_word entry) }
{
    let request = entry.request;
    match entry.user {
        Some(user) => write!(words, " {request}:{user}"),
        None => write!(words, " {request}:-"),
    }
}
