//! What a parameter says.

ghost use Rattle.std.specs.Prelude.{◌≡◌, ◌⊎◌, Some, find, map, not, option_map};
ghost use Rattle.std.specs.List.{list_any};
ghost use Rattle.std.specs.Str.{bytes_eq};
ghost use Rattle.json.specs.Strict.{keys};
ghost use Rattle.json.specs.Value.{members_view, value_view};
ghost use Rattle.floor_rpc.specs.Params.{Reads, bool_of, flag, first_unknown, item_only, named, needed, only, optional, or_null, place_of, priority_of, text_of, u16_of, u32_of};
ghost use Rattle.floor_rpc.specs.declared.fault.RequestFault.TheVariants.{BadParam, Memory};

use crate::fault::{RequestFault, Why};
use floor_config::Text;
use floor_words::{read_u16, read_u32, read_u64};
use json::Value;
use std::alloc::Global;

/// The greatest priority (RFC 8855, section 5.2.4).
const MAX_PRIORITY: u16 = 4;

/// A value that a parameter can have.
pub(crate) trait Param: Drop {
    ghost use Rattle.std.specs.Prelude.{Result};
    ghost use Rattle.json.specs.Json.{Json};
    ghost use Rattle.json.specs.Value.{value_view};
    ghost use Rattle.floor_rpc.specs.Params.{Reads, named};
    ghost use Rattle.floor_rpc.specs.declared.fault.Why.{Why};

    ghost reads: { Json → Result Self Why };

    /// What a value says, as that of the parameter of this name.
    fn read(alloc: Global, value: &Value<'_>, name: &str) -> Result<Self, RequestFault>
        ensures { Reads (named name.now (reads (value_view value.now))) result };
}

/// A user, a floor, a floor request or a port.
impl Param for u16 {
    ghost reads = { u16_of };

    fn read(alloc: Global, value: &Value<'_>, name: &str) -> Result<u16, RequestFault> {
        match value.as_number() {
            None => Err(bad_param(alloc, name, Why::WrongType)),
            Some(digits) => match read_u16(digits) {
                None => Err(bad_param(alloc, name, Why::OutOfRange)),
                Some(number) => Ok(number),
            },
        }
    }
}

/// A conference or a member.
impl Param for u32 {
    ghost reads = { u32_of };

    fn read(alloc: Global, value: &Value<'_>, name: &str) -> Result<u32, RequestFault> {
        match value.as_number() {
            None => Err(bad_param(alloc, name, Why::WrongType)),
            Some(digits) => match read_u32(digits) {
                None => Err(bad_param(alloc, name, Why::OutOfRange)),
                Some(number) => Ok(number),
            },
        }
    }
}

/// A place or a count: a number of ten digits at most.
impl Param for u64 {
    ghost reads = { place_of };

    fn read(alloc: Global, value: &Value<'_>, name: &str) -> Result<u64, RequestFault> {
        match value.as_number() {
            None => Err(bad_param(alloc, name, Why::WrongType)),
            Some(digits) => match read_u64(digits) {
                None => Err(bad_param(alloc, name, Why::OutOfRange)),
                Some(number) => Ok(number),
            },
        }
    }
}

impl Param for bool {
    ghost reads = { bool_of };

    fn read(alloc: Global, value: &Value<'_>, name: &str) -> Result<bool, RequestFault> {
        match value.as_bool() {
            None => Err(bad_param(alloc, name, Why::WrongType)),
            Some(flag) => Ok(flag),
        }
    }
}

impl Param for Text {
    ghost reads = { text_of };

    fn read(alloc: Global, value: &Value<'_>, name: &str) -> Result<Text, RequestFault> {
        match value.as_str() {
            None => Err(bad_param(alloc, name, Why::WrongType)),
            Some(text) => Ok(Text::from_string(String::from_str(alloc, text)?)),
        }
    }
}

/// A value that may be `null`.
impl<T: Param> Param for Option<T> {
    ghost reads = { or_null T.reads };

    fn read(alloc: Global, value: &Value<'_>, name: &str) -> Result<Option<T>, RequestFault> {
        if value.is_null() {
            return Ok(None);
        }
        Ok(Some(T::read(alloc, value, name)?))
    }
}

/// The fault of the parameter of this name.
pub(crate) fn bad_param(alloc: Global, name: &str, why: Why) -> RequestFault
    ensures { (result ≡ BadParam (Some name.now) why) ⊎ (result ≡ Memory) }
{
    match String::from_str(alloc, name) {
        Ok(string) => RequestFault::BadParam {
            param: Some(Text::from_string(string)),
            why,
        },
        Err(_) => RequestFault::Memory,
    }
}

/// A parameter that has to be there.
pub(crate) fn needed<T: Param>(
    alloc: Global,
    params: &Value<'_>,
    name: &str,
) -> Result<T, RequestFault>
    ensures { Reads (needed T.reads name.now (value_view params.now)) result }
{
    match params.get(name) {
        None => Err(bad_param(alloc, name, Why::Missing)),
        Some(value) => T::read(alloc, value, name),
    }
}

/// A parameter that may be left out.
pub(crate) fn optional<T: Param>(
    alloc: Global,
    params: &Value<'_>,
    name: &str,
) -> Result<Option<T>, RequestFault>
    ensures { Reads (optional T.reads name.now (value_view params.now)) result }
{
    match params.get(name) {
        None => Ok(None),
        Some(value) => Ok(Some(T::read(alloc, value, name)?)),
    }
}

/// A priority.
fn priority_of(alloc: Global, value: &Value<'_>, name: &str) -> Result<u16, RequestFault>
    ensures { Reads (named name.now (priority_of (value_view value.now))) result }
{
    let priority = u16::read(alloc, value, name)?;
    if priority <= MAX_PRIORITY {
        Ok(priority)
    } else {
        Err(bad_param(alloc, name, Why::OutOfRange))
    }
}

/// A priority that may be left out.
pub(crate) fn optional_priority(
    alloc: Global,
    params: &Value<'_>,
    name: &str,
) -> Result<Option<u16>, RequestFault>
    ensures { Reads (optional priority_of name.now (value_view params.now)) result }
{
    match params.get(name) {
        None => Ok(None),
        Some(value) => Ok(Some(priority_of(alloc, value, name)?)),
    }
}

/// What is `false` where it is left out.
pub(crate) fn flag(alloc: Global, params: &Value<'_>, name: &str) -> Result<bool, RequestFault>
    ensures { Reads (flag name.now (value_view params.now)) result }
{
    match params.get(name) {
        None => Ok(false),
        Some(value) => bool::read(alloc, value, name),
    }
}

/// Whether a key is among the names.
fn is_among(names: &[&str], key: &str) -> bool
    ensures { result ≡ list_any (λ name. bytes_eq name key.now) (map (λ name. name.now) names.now) }
{
    for name in names {
        if *name == key {
            return true;
        }
    }
    false
}

/// The first key of an object that isn't among the names.
pub(crate) fn first_unknown<'v>(value: &'v Value<'_>, names: &[&str]) -> Option<&'v str>
    ensures { option_map (λ key. key.now) result
        ≡ first_unknown (map (λ name. name.now) names.now) (value_view value.now) }
{
    match value {
        Value::Object(members) => first_unknown_of(members, names),
        _ => None,
    }
}

/// The first key of some members that isn't among the names.
fn first_unknown_of<'v>(members: &'v Vec<(&str, Value<'_>)>, names: &[&str]) -> Option<&'v str>
    ensures { option_map (λ key. key.now) result
        ≡ find (λ key. not (list_any (λ name. bytes_eq name key) (map (λ name. name.now) names.now)))
        (keys (members_view members.now.items)) }
{
    for member in members {
        let known = is_among(names, member.0);
        if !known {
            return Some(member.0);
        }
    }
    None
}

/// Refuses an object that has another key than these.
pub(crate) fn only(alloc: Global, params: &Value<'_>, names: &[&str]) -> Result<(), RequestFault>
    ensures { Reads (only (map (λ name. name.now) names.now) (value_view params.now)) result }
{
    match first_unknown(params, names) {
        None => Ok(()),
        Some(name) => Err(bad_param(alloc, name, Why::Unknown)),
    }
}

/// Refuses an item of the list of this name that is no object, or has another key than these.
pub(crate) fn item_only(
    alloc: Global,
    value: &Value<'_>,
    list: &str,
    names: &[&str],
) -> Result<(), RequestFault>
    ensures { Reads (item_only list.now (map (λ name. name.now) names.now) (value_view value.now))
        result }
{
    match value {
        Value::Object(_) => only(alloc, value, names),
        _ => Err(bad_param(alloc, list, Why::WrongType)),
    }
}
