//! One value of a table: its kind, and then its range.

use crate::place::{Fault, Place, shown};
use std::alloc::Global;
use toml::Value;

/// A number that has to stand at a key, from `least` to `most`.
pub fn needed(
    alloc: Global,
    place: &Place,
    key: &'static str,
    least: i64,
    most: i64,
) -> Result<(), Fault> {
    if place.table.get(key).is_none() {
        let what = format!(in alloc; "{key} is missing")?;
        return place.stop(alloc, None, what.as_str());
    }
    optional(alloc, place, key, least, most)
}

/// A number that may stand at a key, from `least` to `most`.
pub fn optional(
    alloc: Global,
    place: &Place,
    key: &'static str,
    least: i64,
    most: i64,
) -> Result<(), Fault> {
    let Some(value) = place.table.get(key) else {
        return Ok(());
    };
    match value.as_integer() {
        Some(number) if least <= number && number <= most => Ok(()),
        _ => {
            let what = format!(in alloc; "{key} is a number, {least} to {most}")?;
            wrong(alloc, place, key, what.as_str(), value)
        }
    }
}

/// A text that may stand at a key, of at most so many bytes.
pub fn text(alloc: Global, place: &Place, key: &'static str, most: usize) -> Result<(), Fault> {
    let Some(value) = place.table.get(key) else {
        return Ok(());
    };
    let Some(text) = value.as_str() else {
        let what = format!(in alloc; "{key} is a text")?;
        return wrong(alloc, place, key, what.as_str(), value);
    };
    if text.len() <= most {
        return Ok(());
    }
    let what = format!(in alloc; "{key} has at most {most} bytes, not {}", text.len())?;
    place.stop(alloc, Some(key), what.as_str())
}

/// True or false that may stand at a key.
pub fn flag(alloc: Global, place: &Place, key: &'static str) -> Result<(), Fault> {
    let Some(value) = place.table.get(key) else {
        return Ok(());
    };
    if value.is_bool() {
        return Ok(());
    }
    let what = format!(in alloc; "{key} is true or false")?;
    wrong(alloc, place, key, what.as_str(), value)
}

/// The items of an array that stands at a key or is absent, each of them a table.
pub fn tables<'a>(
    alloc: Global,
    place: &Place<'a>,
    key: &'static str,
    most: usize,
) -> Result<&'a [Value], Fault> {
    let Some(value) = place.table.get(key) else {
        return Ok(&[]);
    };
    let Some(array) = value.as_array() else {
        let what = format!(in alloc; "{key} is an array of tables")?;
        return wrong(alloc, place, key, what.as_str(), value);
    };
    for (index, item) in array.as_slice().iter().enumerate() {
        if !item.is_table() {
            let number = index.saturating_add(1);
            let what = format!(in alloc; "{key} {number} is a table")?;
            return wrong(alloc, place, key, what.as_str(), item);
        }
    }
    if array.len() <= most {
        return Ok(array.as_slice());
    }
    let what = format!(in alloc;
        "there are at most {most} tables {key}, not {}",
        array.len()
    )?;
    place.stop(alloc, Some(key), what.as_str())
}

/// Ends the walk with what has to stand at a place, and what does.
fn wrong<T>(
    alloc: Global,
    place: &Place,
    key: &'static str,
    what: &str,
    value: &Value,
) -> Result<T, Fault> {
    let value = shown(alloc, value)?;
    let line = format!(in alloc; "{what}, not {}", value.as_str())?;
    place.stop(alloc, Some(key), line.as_str())
}
