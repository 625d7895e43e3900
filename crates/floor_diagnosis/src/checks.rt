//! The checks of a document, in floor_config's order: key by key, table by table, and what stands twice.

use crate::doubles::double_of;
use crate::place::{Fault, Place, stopped};
use crate::values::{flag, needed, optional, tables, text};
use std::alloc::{AllocError, Global};
use toml::{Table, Value};

/// The greatest number of a conference.
const GREATEST_CONFERENCE: i64 = 4_294_967_295;

/// The greatest number of a user, a floor or a port.
const GREATEST: i64 = 65_535;

/// Walks through a document's table, and stops at its first fault.
pub fn conferences(alloc: Global, table: &Table) -> Result<(), Fault> {
    let document = Place::document(alloc, table);
    if table.get("conference").is_none() {
        return document.stop(alloc, None, "conference is missing; [] stands for none");
    }
    let items = tables(alloc, &document, "conference", usize::MAX)?;
    let places = places(alloc, &document, "conference", items)?;
    for place in places.iter() {
        conference(alloc, place)?;
    }
    let numbers = numbers_of(alloc, &places, "id")?;
    if let Some((first, second)) = double_of(alloc, numbers.as_slice())? {
        return twice(
            alloc,
            &document,
            "conferences",
            (first, second),
            &places,
            &numbers,
        );
    }
    double_port(alloc, &places)
}

/// Walks through the table of a conference.
fn conference(alloc: Global, place: &Place) -> Result<(), Fault> {
    needed(alloc, place, "id", 0, GREATEST_CONFERENCE)?;
    optional(alloc, place, "limit", 1, 16)?;
    optional(alloc, place, "connections", 1, 64)?;
    let items = tables(alloc, place, "user", 256)?;
    let users = places(alloc, place, "user", items)?;
    for user in users.iter() {
        check_user(alloc, user)?;
    }
    let ids = numbers_of(alloc, &users, "id")?;
    if let Some((first, second)) = double_of(alloc, ids.as_slice())? {
        return twice(alloc, place, "users", (first, second), &users, &ids);
    }
    let items = tables(alloc, place, "floor", 32)?;
    let floors = places(alloc, place, "floor", items)?;
    for floor in floors.iter() {
        check_floor(alloc, floor)?;
    }
    let numbers = numbers_of(alloc, &floors, "id")?;
    if let Some((first, second)) = double_of(alloc, numbers.as_slice())? {
        return twice(alloc, place, "floors", (first, second), &floors, &numbers);
    }
    chairs(alloc, &floors, ids.as_slice())
}

/// Walks through the table of a user.
fn check_user(alloc: Global, place: &Place) -> Result<(), Fault> {
    needed(alloc, place, "id", 0, GREATEST)?;
    text(alloc, place, "name", 30)?;
    text(alloc, place, "uri", 62)?;
    flag(alloc, place, "proxy")?;
    optional(alloc, place, "port", 1, GREATEST)
}

/// Walks through the table of a floor.
fn check_floor(alloc: Global, place: &Place) -> Result<(), Fault> {
    needed(alloc, place, "id", 0, GREATEST)?;
    optional(alloc, place, "room", 1, 255)?;
    optional(alloc, place, "chair", 0, GREATEST)
}

/// Looks for a floor whose chair is none of the users.
fn chairs(alloc: Global, floors: &[Place], users: &[i64]) -> Result<(), Fault> {
    for floor in floors {
        match number_at(floor, "chair") {
            Some(chair) if !users.contains(&chair) => {
                let what = format!(in alloc; "chair {chair} is no user of the conference")?;
                return floor.stop(alloc, Some("chair"), what.as_str());
            }
            _ => {}
        }
    }
    Ok(())
}

/// Looks for two users, of whichever conferences, with one port.
fn double_port(alloc: Global, conferences: &[Place]) -> Result<(), Fault> {
    let mut ports = Vec::new(alloc);
    let mut paths = Vec::new(alloc);
    let mut spots = Vec::new(alloc);
    for conference in conferences {
        let items = tables(alloc, conference, "user", 256)?;
        for user in places(alloc, conference, "user", items)?.iter() {
            if let Some(port) = number_at(user, "port") {
                ports.push(port)?;
                paths.push(String::from_str(alloc, user.path.as_str())?)?;
                spots.push(user.spot(alloc, Some("port"))?)?;
            }
        }
    }
    let Some((first, second)) = double_of(alloc, ports.as_slice())? else {
        return Ok(());
    };
    if spots.len() <= second {
        return Ok(());
    }
    let spot = spots.swap_remove(second);
    match (paths.get(first), paths.get(second), ports.get(first)) {
        (Some(first), Some(second), Some(port)) => {
            let (first, second) = (first.as_str(), second.as_str());
            stopped(
                format!(in alloc; "{first} and {second} have port {port}")?,
                spot,
            )
        }
        _ => Ok(()),
    }
}

/// The tables among the values, each with its place.
fn places<'a>(
    alloc: Global,
    outer: &Place,
    kind: &'static str,
    items: &'a [Value],
) -> Result<Vec<Place<'a>>, AllocError> {
    let mut places = Vec::new(alloc);
    for (index, item) in items.iter().enumerate() {
        if let Some(table) = item.as_table() {
            places.push(Place::new(alloc, outer, kind, index.saturating_add(1), table)?)?;
        }
    }
    Ok(places)
}

/// The number at a key of a table, where one is there.
fn number_at(place: &Place, key: &str) -> Option<i64> {
    match place.table.get(key) {
        Some(value) => value.as_integer(),
        None => None,
    }
}

/// The number at a key of each table; 0 where there is none.
fn numbers_of(alloc: Global, places: &[Place], key: &str) -> Result<Vec<i64>, AllocError> {
    let mut numbers = Vec::new(alloc);
    for place in places {
        numbers.push(number_at(place, key).unwrap_or(0))?;
    }
    Ok(numbers)
}

/// Ends the walk at two tables of one kind with one id: the fault is the second's.
fn twice(
    alloc: Global,
    place: &Place,
    kind: &str,
    double: (usize, usize),
    places: &[Place],
    ids: &[i64],
) -> Result<(), Fault> {
    let (first, second) = double;
    let id = ids.get(first).copied().unwrap_or(0);
    let spot = match places.get(second) {
        Some(table) => table.spot(alloc, Some("id"))?,
        None => place.spot(alloc, None)?,
    };
    let (first, second) = (first.saturating_add(1), second.saturating_add(1));
    let what = format!(in alloc; "{kind} {first} and {second} have id {id}")?;
    place.stop_at(alloc, spot, what.as_str())
}
