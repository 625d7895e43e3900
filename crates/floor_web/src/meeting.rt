//! What a user's page is told of its meeting, as JSON: what the signalling of a call would tell
//! (RFC 8857, section 6), with the titles that stand in the file.
//!
//! ```json
//! {"conference":1,"title":"","user":10,"name":"Ann","proxy":false,
//!  "floors":[{"id":2,"title":"","room":1,"chair":10}],"users":[{"id":10,"name":"Ann"}]}
//! ```

use floor_config::{Config, User};
use serde::Serialize;
use std::alloc::{AllocError, Global};
use toml::Value;

/// What a page is told.
#[derive(Debug, Drop, Serialize)]
struct Meeting<'a> {
    conference: u32,
    title: &'a str,
    user: u16,
    name: &'a str,
    proxy: bool,
    floors: Vec<ShownFloor<'a>>,
    users: Vec<ShownUser<'a>>,
}

/// A floor, with how many hold it at once.
#[derive(Debug, Drop, Serialize)]
struct ShownFloor<'a> {
    id: u16,
    title: &'a str,
    room: u16,
    chair: Option<u16>,
}

/// A user of the conference.
#[derive(Debug, Drop, Serialize)]
struct ShownUser<'a> {
    id: u16,
    name: &'a str,
}

/// What the page of a user of a conference is told. `table` is the conference's own, and `floors` has one
/// for each of its floors.
pub(crate) fn meeting_text(
    alloc: Global,
    config: &Config,
    user: &User,
    table: &Value,
    floors: &[Value],
) -> Result<String, AllocError> {
    let meeting = Meeting {
        conference: config.conference(),
        title: title(Some(table)),
        user: user.id,
        name: name_of(user),
        proxy: user.proxy,
        floors: floors_of(alloc, config, floors)?,
        users: users_of(alloc, config)?,
    };
    match serde_json::to_string(alloc, &meeting) {
        Ok(text) => Ok(text),
        Err(_) => Err(AllocError),
    }
}

fn floors_of<'a>(
    alloc: Global,
    config: &Config,
    tables: &'a [Value],
) -> Result<Vec<ShownFloor<'a>>, AllocError> {
    let mut floors = Vec::new(alloc);
    for (index, floor) in config.floors().iter().enumerate() {
        floors.push(ShownFloor {
            id: floor.id,
            title: title(tables.get(index)),
            room: floor.room,
            chair: floor.chair,
        })?;
    }
    Ok(floors)
}

fn users_of(alloc: Global, config: &Config) -> Result<Vec<ShownUser<'_>>, AllocError> {
    let mut users = Vec::new(alloc);
    for user in config.users() {
        users.push(ShownUser {
            id: user.id,
            name: name_of(user),
        })?;
    }
    Ok(users)
}

/// The title in a table; empty where there is none.
fn title(table: Option<&Value>) -> &str {
    match table
        .and_then(|table| table.get("title"))
        .and_then(Value::as_str)
    {
        Some(title) => title,
        None => "",
    }
}

/// A user's name; empty where there is none.
fn name_of(user: &User) -> &str {
    match &user.name {
        Some(name) => name.as_str(),
        None => "",
    }
}
