//! Keys that a configuration has and that say nothing, as one that is misspelled.

use crate::seeking::{Lines, Sought};
use std::alloc::{AllocError, Global};
use std::fmt::Write;
use toml::{Table, Value};

/// How many bytes of beginnings of a text are read at most to find lines.
const MAX_BYTES: usize = 268_435_456;

/// How many keys are told of at most.
const MAX_TOLD: usize = 100;

/// The keys of a conference's table, of a user's and of a floor's. `title` and `token` say nothing to a
/// server, and something to the gateway for browsers, as `udp` does to the gateway for room systems:
/// they read the same file.
const CONFERENCE: [&str; 6] = ["id", "limit", "connections", "user", "floor", "title"];

const USER: [&str; 7] = ["id", "name", "uri", "proxy", "port", "token", "udp"];

const FLOOR: [&str; 4] = ["id", "room", "chair", "title"];

/// A key that says nothing, neither to a server nor to a gateway.
#[derive(Debug, Drop)]
pub struct UnknownKey {
    /// The line, counted from 1, that it stands in, or that its value begins in where that is an array
    /// over several lines; `None` where it would take too long to find.
    pub line: Option<usize>,
    /// The table that it stands in and the key itself, as `conference 1, user 2: nmae`, without a line
    /// feed.
    pub place: String,
}

/// The first 100 keys of a text that say nothing, table by table; none of a text that isn't TOML.
pub fn unknown_keys(alloc: Global, text: &str) -> Result<Vec<UnknownKey>, AllocError> {
    let mut keys = Vec::new(alloc);
    let mut lines = Lines::new(alloc, text, MAX_BYTES)?;
    for place in places(alloc, text)?.unwrap_or(Vec::new(alloc)) {
        if keys.len() == MAX_TOLD {
            break;
        }
        let line = lines.line_of(&Sought::Unknown(place.as_str()))?;
        keys.push(UnknownKey { line, place })?;
    }
    Ok(keys)
}

/// The places of all keys of a text that say nothing; `None` where it isn't TOML.
fn places(alloc: Global, text: &str) -> Result<Option<Vec<String>>, AllocError> {
    match toml::table_from_str(alloc, text) {
        Err(error) if error.is_memory() => Err(AllocError),
        Err(_) => Ok(None),
        Ok(table) => Ok(Some(unknown_places(alloc, &table)?)),
    }
}

/// The places of all keys of a document that say nothing.
pub fn unknown_places(alloc: Global, table: &Table) -> Result<Vec<String>, AllocError> {
    let mut found = Vec::new(alloc);
    push_document(alloc, table, &mut found)?;
    Ok(found)
}

/// Appends those of a document.
fn push_document(alloc: Global, table: &Table, found: &mut Vec<String>) -> Result<(), AllocError> {
    push_others(alloc, table, "", &["conference"], found)?;
    for (index, conference) in tables(table, "conference").iter().enumerate() {
        let above = numbered(alloc, "", "conference", index)?;
        push_table(alloc, conference, above.as_str(), &CONFERENCE, found)?;
        push_kind(alloc, conference, above.as_str(), "user", &USER, found)?;
        push_kind(alloc, conference, above.as_str(), "floor", &FLOOR, found)?;
    }
    Ok(())
}

/// Appends those of a conference's users, or of its floors.
fn push_kind(
    alloc: Global,
    conference: &Value,
    above: &str,
    kind: &str,
    known: &[&str],
    found: &mut Vec<String>,
) -> Result<(), AllocError> {
    let Some(table) = conference.as_table() else {
        return Ok(());
    };
    for (index, item) in tables(table, kind).iter().enumerate() {
        let place = numbered(alloc, above, kind, index)?;
        push_table(alloc, item, place.as_str(), known, found)?;
    }
    Ok(())
}

/// Appends those of a value that is a table.
fn push_table(
    alloc: Global,
    value: &Value,
    place: &str,
    known: &[&str],
    found: &mut Vec<String>,
) -> Result<(), AllocError> {
    match value.as_table() {
        Some(table) => push_others(alloc, table, place, known, found),
        None => Ok(()),
    }
}

/// Appends the keys of a table that aren't among the known.
fn push_others(
    alloc: Global,
    table: &Table,
    place: &str,
    known: &[&str],
    found: &mut Vec<String>,
) -> Result<(), AllocError> {
    let between = if place.is_empty() { "" } else { ": " };
    for (key, _value) in table.iter() {
        if known.iter().all(|name| *name != key.as_str()) {
            let key = key.replace(alloc, "\n", " ")?;
            found.push(format!(in alloc; "{place}{between}{}", key.as_str())?)?;
        }
    }
    Ok(())
}

/// The place of a table, the first of its kind being 1.
fn numbered(alloc: Global, above: &str, kind: &str, index: usize) -> Result<String, AllocError> {
    let between = if above.is_empty() { "" } else { ", " };
    let mut place = String::from_str(alloc, above)?;
    write!(place, "{between}{kind} {}", index.saturating_add(1))?;
    Ok(place)
}

/// The values of an array at a key.
fn tables<'a>(table: &'a Table, key: &str) -> &'a [Value] {
    match table.get(key) {
        None => &[],
        Some(value) => match value.as_array() {
            None => &[],
            Some(array) => array.as_slice(),
        },
    }
}
