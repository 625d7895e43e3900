//! One value of a TOML document: its kind, and then its range.

ghost use Rattle.std.specs.Prelude.{◌≡◌, ◌≤◌, true, is_some, option_map, IfOk, IfSome, length};
ghost use Rattle.std.specs.List.{list_all};
ghost use Rattle.std.specs.Result.{result_map_both};
ghost use Rattle.floor_config.specs.Outcome.{Gives};
ghost use Rattle.floor_config.specs.Values.{number_of, text_of, flag_of, tables, are_tables, tables_of, few_tables_of, needed, optional, optional_text};
ghost use Rattle.toml.specs.Data.{as_table, get_member};
ghost use Rattle.toml.specs.View.{view, table_view, items_view};

use crate::fault::ConfigFault;
use crate::text::Text;
use std::alloc::Global;
use toml::{Table, Value};

/// The value at a key.
pub fn find<'a>(table: &'a Table, key: &str) -> Option<&'a Value>
    ensures found { option_map (λ v. view v.now) result
        ≡ get_member key.now (table_view table.now) }
{
    table.get(key)
}

/// The number that has to stand at a key, from `least` to `most`.
pub fn number_needed(table: &Table, key: &str, least: u32, most: u32) -> Result<u32, ConfigFault>
    ensures value { result
        ≡ needed (number_of least most) (get_member key.now (table_view table.now)) }
    ensures range { IfOk result (λ n. (least ≤ n) × (n ≤ most)) }
{
    match find(table, key) {
        None => Err(ConfigFault::MissingKey),
        Some(value) => number(value, least, most),
    }
}

/// The number at a key, from `least` to `most`.
fn number_at(table: &Table, key: &str, least: u32, most: u32) -> Result<Option<u32>, ConfigFault>
    ensures value { result
        ≡ optional (number_of least most) (get_member key.now (table_view table.now)) }
    ensures range { IfOk result (λ o. IfSome o (λ n. (least ≤ n) × (n ≤ most))) }
{
    match find(table, key) {
        None => Ok(None),
        Some(value) => Ok(Some(number(value, least, most)?)),
    }
}

/// The number of 16 bits that has to stand at a key, from `least` to `most`.
pub fn short_needed(table: &Table, key: &str, least: u16, most: u16) -> Result<u16, ConfigFault>
    ensures value { result
        ≡ needed (number_of least most) (get_member key.now (table_view table.now)) }
    ensures range { IfOk result (λ n. (least ≤ n) × (n ≤ most)) }
{
    Ok(number_needed(table, key, u32::from(least), u32::from(most))? as u16)
}

/// The number of 16 bits at a key, from `least` to `most`.
pub fn short_at(table: &Table, key: &str, least: u16, most: u16) -> Result<Option<u16>, ConfigFault>
    ensures value { result
        ≡ optional (number_of least most) (get_member key.now (table_view table.now)) }
    ensures range { IfOk result (λ o. IfSome o (λ n. (least ≤ n) × (n ≤ most))) }
{
    match number_at(table, key, u32::from(least), u32::from(most))? {
        None => Ok(None),
        Some(number) => Ok(Some(number as u16)),
    }
}

/// The text at a key, of at most `most` bytes. An empty one counts as absent.
pub fn text_at(
    alloc: Global,
    table: &Table,
    key: &str,
    most: usize,
) -> Result<Option<Text>, ConfigFault>
    ensures value { Gives (λ t. t) result
        (optional_text most (get_member key.now (table_view table.now))) }
    ensures range { IfOk result (λ o. IfSome o (λ t. (1 ≤ length t) × (length t ≤ most))) }
{
    match find(table, key) {
        None => Ok(None),
        Some(value) => text(alloc, value, most),
    }
}

/// The truth at a key.
pub fn flag_at(table: &Table, key: &str) -> Result<Option<bool>, ConfigFault>
    ensures value { result
        ≡ optional flag_of (get_member key.now (table_view table.now)) }
{
    match find(table, key) {
        None => Ok(None),
        Some(value) => Ok(Some(flag(value)?)),
    }
}

/// The items of an array, each of them a table.
#[tactic(auto, using(crate::proofs::Tables::are_tables_all))]
pub fn tables(value: &Value) -> Result<&[Value], ConfigFault>
    ensures value { result_map_both (λ a. tables (items_view a.now)) (λ fault. fault) result
        ≡ tables_of (view value.now) }
    ensures all { IfOk result (λ a. are_tables (items_view a.now) ≡ true) }
{
    let Some(array) = value.as_array() else {
        return Err(ConfigFault::WrongType);
    };
    if !are_tables(array.as_slice()) {
        return Err(ConfigFault::WrongType);
    }
    Ok(array.as_slice())
}

/// The items of an array, each of them a table, and at most `most` of them.
#[tactic(auto, using(crate::proofs::Tables::length_tables))]
pub fn few_tables(value: &Value, most: usize) -> Result<&[Value], ConfigFault>
    ensures value { result_map_both (λ a. tables (items_view a.now)) (λ fault. fault) result
        ≡ few_tables_of most (view value.now) }
    ensures few { IfOk result (λ a. length a.now ≤ most) }
{
    let items = tables(value)?;
    if items.len() <= most {
        Ok(items)
    } else {
        Err(ConfigFault::OutOfRange)
    }
}

/// Whether each of the values is a table.
fn are_tables(values: &[Value]) -> bool
    ensures { result ≡ list_all (λ value. is_some (as_table (view value))) values.now }
{
    values.iter().all(|value| value.is_table())
}

/// The number that a value is, from `least` to `most`.
fn number(value: &Value, least: u32, most: u32) -> Result<u32, ConfigFault>
    ensures value { result ≡ number_of least most (view value.now) }
    ensures range { IfOk result (λ n. (least ≤ n) × (n ≤ most)) }
{
    let Some(integer) = value.as_integer() else {
        return Err(ConfigFault::WrongType);
    };
    match u32::try_from(integer) {
        Ok(number) if least <= number && number <= most => Ok(number),
        _ => Err(ConfigFault::OutOfRange),
    }
}

/// The text that a value is, of at most `most` bytes. An empty one counts as absent.
fn text(alloc: Global, value: &Value, most: usize) -> Result<Option<Text>, ConfigFault>
    ensures value { Gives (λ t. t) result (text_of most (view value.now)) }
    ensures range { IfOk result (λ o. IfSome o (λ t. (1 ≤ length t) × (length t ≤ most))) }
{
    let Some(text) = value.as_str() else {
        return Err(ConfigFault::WrongType);
    };
    if text.len() > most {
        return Err(ConfigFault::OutOfRange);
    }
    if text.is_empty() {
        return Ok(None);
    }
    Ok(Some(Text::from_string(String::from_str(alloc, text)?)))
}

/// The truth that a value is.
fn flag(value: &Value) -> Result<bool, ConfigFault>
    ensures value { result ≡ flag_of (view value.now) }
{
    match value.as_bool() {
        Some(flag) => Ok(flag),
        None => Err(ConfigFault::WrongType),
    }
}
