//! Lists among the parameters.

ghost use Rattle.std.specs.Prelude.{◌≡◌};
ghost use Rattle.json.specs.Value.{items_view, value_view};
ghost use Rattle.floor_rpc.specs.Calls.{floor_id, listed_floor, listed_user, unwatched, watched};
ghost use Rattle.floor_rpc.specs.Params.{Reads, each, list_of, list_or_empty, needed_list, optional_list};

use crate::call::{NewFloor, NewUser, OfConference, Watched};
use crate::fault::{RequestFault, Why};
use crate::list::List;
use crate::params::{Param, bad_param, item_only, needed, optional};
use crate::reading::{read_conference, read_new_floor, read_new_user};
use json::Value;
use std::alloc::Global;

/// An item of a list among the parameters.
pub(crate) trait ListItem: Drop {
    ghost use Rattle.std.specs.Prelude.{Result};
    ghost use Rattle.json.specs.Json.{Json};
    ghost use Rattle.json.specs.Value.{value_view};
    ghost use Rattle.floor_rpc.specs.Params.{Reads};
    ghost use Rattle.floor_rpc.specs.declared.fault.RequestFault.{RequestFault};

    ghost reads: { Json → Result Self RequestFault };

    /// What a value says as an item.
    fn read_item(alloc: Global, value: &Value<'_>) -> Result<Self, RequestFault>
        ensures { Reads (reads (value_view value.now)) result };
}

/// A floor.
impl ListItem for u16 {
    ghost reads = { floor_id };

    fn read_item(alloc: Global, value: &Value<'_>) -> Result<u16, RequestFault> {
        u16::read(alloc, value, "floors")
    }
}

impl ListItem for NewUser {
    ghost reads = { listed_user };

    fn read_item(alloc: Global, value: &Value<'_>) -> Result<NewUser, RequestFault> {
        item_only(
            alloc,
            value,
            "users",
            &["id", "name", "uri", "proxy", "port"],
        )?;
        read_new_user(alloc, value)
    }
}

impl ListItem for NewFloor {
    ghost reads = { listed_floor };

    fn read_item(alloc: Global, value: &Value<'_>) -> Result<NewFloor, RequestFault> {
        item_only(alloc, value, "floors", &["id", "room", "chair", "title"])?;
        read_new_floor(alloc, value)
    }
}

/// A conference that is to be watched.
impl ListItem for Watched {
    ghost reads = { watched };

    fn read_item(alloc: Global, value: &Value<'_>) -> Result<Watched, RequestFault> {
        item_only(alloc, value, "conferences", &["conference", "from"])?;
        let conference = needed(alloc, value, "conference")?;
        let from = optional(alloc, value, "from")?;
        Ok(Watched { conference, from })
    }
}

/// A conference that is to be watched no more.
impl ListItem for OfConference {
    ghost reads = { unwatched };

    fn read_item(alloc: Global, value: &Value<'_>) -> Result<OfConference, RequestFault> {
        item_only(alloc, value, "conferences", &["conference"])?;
        read_conference(alloc, value)
    }
}

/// What the items of a list say, up to the first that is bad.
fn each<T: ListItem>(alloc: Global, items: &Vec<Value<'_>>) -> Result<List<T>, RequestFault>
    ensures { Reads (each T.reads (items_view items.now.items)) result }
{
    let mut found = Vec::new(alloc);
    for item in items {
        let read = T::read_item(alloc, item)?;
        if found.push(read).is_err() {
            return Err(RequestFault::Memory);
        }
    }
    Ok(List::from_vec(found))
}

/// What the items of an array say that stands under the name.
fn list_of<T: ListItem>(
    alloc: Global,
    value: &Value<'_>,
    name: &str,
) -> Result<List<T>, RequestFault>
    ensures { Reads (list_of T.reads name.now (value_view value.now)) result }
{
    match value {
        Value::Array(items) => each(alloc, items),
        _ => Err(bad_param(alloc, name, Why::WrongType)),
    }
}

/// A list that has to be there.
pub(crate) fn read_needed_list<T: ListItem>(
    alloc: Global,
    params: &Value<'_>,
    name: &str,
) -> Result<List<T>, RequestFault>
    ensures { Reads (needed_list T.reads name.now (value_view params.now)) result }
{
    match params.get(name) {
        None => Err(bad_param(alloc, name, Why::Missing)),
        Some(value) => list_of(alloc, value, name),
    }
}

/// A list that may be left out.
pub(crate) fn read_optional_list<T: ListItem>(
    alloc: Global,
    params: &Value<'_>,
    name: &str,
) -> Result<Option<List<T>>, RequestFault>
    ensures { Reads (optional_list T.reads name.now (value_view params.now)) result }
{
    match params.get(name) {
        None => Ok(None),
        Some(value) => Ok(Some(list_of(alloc, value, name)?)),
    }
}

/// A list that is empty where it is left out.
pub(crate) fn read_list_or_empty<T: ListItem>(
    alloc: Global,
    params: &Value<'_>,
    name: &str,
) -> Result<List<T>, RequestFault>
    ensures { Reads (list_or_empty T.reads name.now (value_view params.now)) result }
{
    match params.get(name) {
        None => Ok(List::from_vec(Vec::new(alloc))),
        Some(value) => list_of(alloc, value, name),
    }
}
