//! What the words of a line say. A line has more spellings here than one: `read_entry` prints what they
//! say, and compares.

ghost use Rattle.std.specs.Prelude.{◌≡◌, IfOk, map, option_map};
ghost use Rattle.floor_kept.specs.Entries.{is_key};
ghost use Rattle.floor_kept.specs.steps.Parsed as spec;

use crate::entry::Entry;
use floor_config::{Floor, Text, User};
use floor_machine::{AddedUser, Event};
use floor_wire::{Frame, Octets};
use floor_words::{read_u16, read_u32};
use hex::FromHexError;
use std::alloc::{AllocError, Global};

/// The entry of words, by the first of them.
pub fn entry_of(alloc: Global, words: &[&str]) -> Result<Option<Entry>, AllocError>
    ensures { IfOk result (λ found. found ≡ spec.entry_words (map (λ w. w.now) words.now)) }
{
    let [first, rest @ ..] = words else {
        return Ok(None);
    };
    if *first == "#" {
        return note_of(alloc, rest);
    }
    if *first == "end" {
        return Ok(Some(Entry::End));
    }
    match event_of(alloc, rest)? {
        Some(event) => Ok(Some(Entry::Happened(event))),
        None => Ok(None),
    }
}

/// What is kept beside the journal, by the words behind `#`.
fn note_of(alloc: Global, words: &[&str]) -> Result<Option<Entry>, AllocError>
    ensures { IfOk result (λ found. found ≡ spec.note_words (map (λ w. w.now) words.now)) }
{
    let [name, first, second] = words else {
        return Ok(None);
    };
    if *name == "port" {
        return Ok(port_of(first, second));
    }
    if *name == "word" {
        return word_of(alloc, first, second);
    }
    Ok(None)
}

/// `port <user> <port>`
fn port_of(first: &str, second: &str) -> Option<Entry>
    ensures { result ≡ spec.port_words first.now second.now }
{
    let user = read_u16(first)?;
    let port = read_u16(second)?;
    Some(Entry::Port { user, port })
}

/// `word <key> <octets>`
fn word_of(alloc: Global, key: &str, second: &str) -> Result<Option<Entry>, AllocError>
    ensures { IfOk result (λ found. found ≡ spec.word_words key.now second.now) }
{
    if !is_key(key) {
        return Ok(None);
    }
    let Some(value) = octets_where(alloc, second)? else {
        return Ok(None);
    };
    let key = Text::from_string(String::from_str(alloc, key)?);
    Ok(Some(Entry::Word { key, value }))
}

/// Whether a word can be kept by this.
pub fn is_key(key: &str) -> bool
    ensures value { result ≡ is_key key.now }
{
    !key.is_empty() && has_no_space(key) && has_no_line_feed(key)
}

fn has_no_space(key: &str) -> bool
    ensures { result ≡ spec.has_no_space key.now }
{
    key.as_bytes().iter().all(|byte| *byte != b' ')
}

fn has_no_line_feed(key: &str) -> bool
    ensures { result ≡ spec.has_no_line_feed key.now }
{
    key.as_bytes().iter().all(|byte| *byte != b'\n')
}

/// The event of the words behind its place.
fn event_of(alloc: Global, words: &[&str]) -> Result<Option<Event>, AllocError>
    ensures { IfOk result (λ found. found ≡ spec.event_words (map (λ w. w.now) words.now)) }
{
    match words {
        [name] => Ok(of_one_word(name)),
        [name, word] => Ok(of_two_words(name, word)),
        [name, first, second] => of_three_words(alloc, name, first, second),
        [name, id, room, chair] => Ok(floor_of(name, id, room, chair)),
        [name, id, proxy, shown, uri] => user_of(alloc, name, id, proxy, shown, uri),
        _ => Ok(None),
    }
}

/// `close`
fn of_one_word(name: &str) -> Option<Event>
    ensures { result ≡ spec.one_word name.now }
{
    if name == "close" {
        return Some(Event::Close);
    }
    None
}

/// `join <user>`, `leave <n>`, `revoke <request>`
fn of_two_words(name: &str, word: &str) -> Option<Event>
    ensures { result ≡ spec.two_words name.now word.now }
{
    if name == "join" {
        let user = read_u16(word)?;
        return Some(Event::Join { user });
    }
    if name == "leave" {
        let n = read_u32(word)?;
        return Some(Event::Leave { n });
    }
    if name == "revoke" {
        let request = read_u16(word)?;
        return Some(Event::Revoke { request });
    }
    None
}

/// `message <n> <bytes>`, `took <n> <k>`, `chair <floor> <user>`, `say <user> <bytes>`
fn of_three_words(
    alloc: Global,
    name: &str,
    first: &str,
    second: &str,
) -> Result<Option<Event>, AllocError>
    ensures { IfOk result (λ found. found ≡ spec.three_words name.now first.now second.now) }
{
    if name == "message" {
        return message_of(alloc, first, second);
    }
    if name == "took" {
        return Ok(took_of(first, second));
    }
    if name == "chair" {
        return Ok(chair_of(first, second));
    }
    if name == "say" {
        return say_of(alloc, first, second);
    }
    Ok(None)
}

fn message_of(alloc: Global, first: &str, second: &str) -> Result<Option<Event>, AllocError>
    ensures { IfOk result (λ found. found ≡ spec.message_words first.now second.now) }
{
    let Some(n) = read_u32(first) else {
        return Ok(None);
    };
    let Some(frame) = frame_of(alloc, second)? else {
        return Ok(None);
    };
    Ok(Some(Event::Message { n, frame }))
}

fn say_of(alloc: Global, first: &str, second: &str) -> Result<Option<Event>, AllocError>
    ensures { IfOk result (λ found. found ≡ spec.say_words first.now second.now) }
{
    let Some(user) = read_u16(first) else {
        return Ok(None);
    };
    let Some(frame) = frame_of(alloc, second)? else {
        return Ok(None);
    };
    Ok(Some(Event::Say { user, frame }))
}

fn took_of(first: &str, second: &str) -> Option<Event>
    ensures { result ≡ spec.took_words first.now second.now }
{
    let n = read_u32(first)?;
    let k = read_u32(second)?;
    Some(Event::Took { n, k })
}

fn chair_of(first: &str, second: &str) -> Option<Event>
    ensures { result ≡ spec.chair_words first.now second.now }
{
    let floor = read_u16(first)?;
    let chair = number_where(second)?;
    Some(Event::SetChair { floor, chair })
}

/// `floor <id> <room> <chair>`
fn floor_of(name: &str, id: &str, room: &str, chair: &str) -> Option<Event>
    ensures { result ≡ spec.floor_words name.now id.now room.now chair.now }
{
    if name != "floor" {
        return None;
    }
    let id = read_u16(id)?;
    let room = read_u16(room)?;
    let chair = number_where(chair)?;
    Some(Event::AddFloor {
        floor: Floor { id, room, chair },
    })
}

/// `user <id> <proxy> <name> <uri>`
fn user_of(
    alloc: Global,
    name: &str,
    id: &str,
    proxy: &str,
    shown: &str,
    uri: &str,
) -> Result<Option<Event>, AllocError>
    ensures { IfOk result (λ found. found
        ≡ spec.user_words name.now id.now proxy.now shown.now uri.now) }
{
    if name != "user" {
        return Ok(None);
    }
    let Some(id) = read_u16(id) else {
        return Ok(None);
    };
    let Some(proxy) = mark_of(proxy) else {
        return Ok(None);
    };
    let Some(name) = text_where(alloc, shown)? else {
        return Ok(None);
    };
    let Some(uri) = text_where(alloc, uri)? else {
        return Ok(None);
    };
    let user = User {
        id,
        name,
        uri,
        proxy,
        port: None,
    };
    let user = AddedUser::new(alloc, user)?;
    Ok(Some(Event::AddUser { user }))
}

/// `1` for a mark, `0` for none.
fn mark_of(word: &str) -> Option<bool>
    ensures { result ≡ spec.mark_of word.now }
{
    if word == "1" {
        return Some(true);
    }
    if word == "0" {
        return Some(false);
    }
    None
}

/// A number of 16 bits, and `-` for none.
fn number_where(word: &str) -> Option<Option<u16>>
    ensures { result ≡ spec.number_where word.now }
{
    if word == "-" {
        return Some(None);
    }
    let number = read_u16(word)?;
    Some(Some(number))
}

/// A text in hexadecimal, and `-` for none.
fn text_where(alloc: Global, word: &str) -> Result<Option<Option<Text>>, AllocError>
    ensures { IfOk result (λ found. found ≡ spec.text_where word.now) }
{
    if word == "-" {
        return Ok(Some(None));
    }
    match text_of(alloc, word)? {
        Some(text) => Ok(Some(Some(text))),
        None => Ok(None),
    }
}

/// A text in hexadecimal that isn't empty.
fn text_of(alloc: Global, word: &str) -> Result<Option<Text>, AllocError>
    ensures { IfOk result (λ found. found
        ≡ spec.and_then (spec.bytes_of word.now) spec.text_of) }
{
    let Some(bytes) = bytes_of(alloc, word)? else {
        return Ok(None);
    };
    let Ok(text) = std::str::from_utf8(bytes.as_slice()) else {
        return Ok(None);
    };
    if text.is_empty() {
        return Ok(None);
    }
    Ok(Some(Text::from_string(String::from_str(alloc, text)?)))
}

/// Octets in hexadecimal, and `-` for none.
fn octets_where(alloc: Global, word: &str) -> Result<Option<Option<Octets>>, AllocError>
    ensures { IfOk result (λ found. found ≡ spec.octets_where word.now) }
{
    if word == "-" {
        return Ok(Some(None));
    }
    match octets_of(alloc, word)? {
        Some(octets) => Ok(Some(Some(octets))),
        None => Ok(None),
    }
}

/// Octets in hexadecimal, at least one.
fn octets_of(alloc: Global, word: &str) -> Result<Option<Octets>, AllocError>
    ensures { IfOk result (λ found. found
        ≡ spec.and_then (spec.bytes_of word.now) spec.some_bytes) }
{
    let Some(bytes) = bytes_of(alloc, word)? else {
        return Ok(None);
    };
    if bytes.is_empty() {
        return Ok(None);
    }
    Ok(Some(Octets::from_vec(bytes)))
}

/// The message that hexadecimal spells.
fn frame_of(alloc: Global, word: &str) -> Result<Option<Frame>, AllocError>
    ensures { IfOk result (λ found. found
        ≡ spec.and_then (spec.bytes_of word.now) spec.message_of) }
{
    match bytes_of(alloc, word)? {
        Some(bytes) => Frame::of(alloc, bytes.as_slice()),
        None => Ok(None),
    }
}

/// The bytes that hexadecimal spells.
fn bytes_of(alloc: Global, word: &str) -> Result<Option<Vec<u8>>, AllocError>
    ensures { IfOk result (λ found. option_map (λ v. v.items) found ≡ spec.bytes_of word.now) }
{
    match hex::decode(alloc, word) {
        Ok(bytes) => Ok(Some(bytes)),
        Err(FromHexError::OutOfMemory) => Err(AllocError),
        Err(_) => Ok(None),
    }
}
