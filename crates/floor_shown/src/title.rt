//! Titles of a conference and of its floors: words under keys of their own, which a configuration may have too.

use crate::texts::text;
use crate::words::Words;
use floor_rpc::Text;
use std::alloc::{AllocError, Global};
use toml::Value;

/// The key of a conference's title.
pub(crate) const TITLE: &str = "title";

/// The key of a floor's title.
pub fn floor_key(alloc: Global, floor: u16) -> Result<Text, AllocError> {
    Ok(Text::from_string(format!(in alloc; "title.{floor}")?))
}

/// The titles that a configuration's text gives to each of its conferences and their floors, by the keys `title` of their
/// tables, in the order of the text; none where it can't be read, or the words of a conference have no room for them.
pub fn titles_of(alloc: Global, config: &str) -> Result<Option<Vec<Words>>, AllocError> {
    let table = match toml::table_from_str(alloc, config) {
        Ok(table) => table,
        Err(error) if error.is_memory() => return Err(AllocError),
        Err(_) => return Ok(None),
    };
    let mut titles = Vec::new(alloc);
    for one in tables_of(table.get("conference")) {
        let mut words = Words::new(alloc);
        if !keep_all(alloc, &mut words, one)? {
            return Ok(None);
        }
        titles.push(words)?;
    }
    Ok(Some(titles))
}

/// Keeps the titles of a conference's table. Says whether there is room for them.
fn keep_all(alloc: Global, words: &mut Words, conference: &Value) -> Result<bool, AllocError> {
    let key = text(alloc, TITLE)?;
    if !keep_of(alloc, words, key, conference)? {
        return Ok(false);
    }
    for floor in tables_of(conference.get("floor")) {
        let Some(id) = id_of(floor) else {
            continue;
        };
        let Ok(id) = u16::try_from(id) else {
            continue;
        };
        let key = floor_key(alloc, id)?;
        if !keep_of(alloc, words, key, floor)? {
            return Ok(false);
        }
    }
    Ok(true)
}

/// Keeps the title of a table, where it has one. Says whether there is room for it.
fn keep_of(alloc: Global, words: &mut Words, key: Text, table: &Value) -> Result<bool, AllocError> {
    match table.get("title").and_then(Value::as_str) {
        Some(title) => keep_title(alloc, words, key, title),
        None => Ok(true),
    }
}

/// Keeps a title. Says whether there is room for it; where there isn't nothing has changed.
pub(crate) fn keep_title(
    alloc: Global,
    words: &mut Words,
    key: Text,
    title: &str,
) -> Result<bool, AllocError> {
    if !words.fits(key.as_str(), title) {
        return Ok(false);
    }
    words.keep(key, text(alloc, title)?)?;
    Ok(true)
}

/// The tables of a key.
fn tables_of(value: Option<&Value>) -> &[Value] {
    match value.and_then(Value::as_array) {
        Some(array) => array.as_slice(),
        None => &[],
    }
}

/// The number of a table.
fn id_of(table: &Value) -> Option<i64> {
    table.get("id").and_then(Value::as_integer)
}
