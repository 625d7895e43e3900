//! A conference that is to be opened: out of its parts, or out of a configuration.

ghost use Rattle.std.specs.Prelude.{◌≡◌, IfOk};
ghost use Rattle.floor_shown.specs.Opening.{floor_of, opened_of, user_of};

use crate::free::numbered;
use crate::refused::Refused;
use crate::texts::{text, text_where};
use crate::title::{TITLE, floor_key, keep_title};
use crate::words::Words;
use floor_config::{Config, Floor, Floors, User, Users};
use floor_rpc::{About, ErrorName, List, NewFloor, NewUser, Opened, Parts, Text, Why};
use std::alloc::{AllocError, Global};

/// How many floor requests for one floor a user may have in a conference that doesn't say it, as in a configuration.
const LIMIT: u16 = 4;

/// How many connections a user may have in a conference that doesn't say it, as in a configuration.
const CONNECTIONS: u16 = 64;

/// A conference that is to be opened, and the words that are kept beside it: its titles.
#[derive(Drop)]
pub struct NewConference {
    pub config: Config,
    pub words: Words,
}

/// The conference of these parts, under this number.
pub fn conference_of(
    alloc: Global,
    conference: u32,
    parts: &Parts,
) -> Result<NewConference, Refused> {
    let mut words = Words::new(alloc);
    keep(alloc, &mut words, text(alloc, TITLE)?, &parts.title)?;
    if has_double_port(parts.users.as_slice()) {
        return Err(Refused::whole(ErrorName::DoublePort));
    }
    let users = users_of(alloc, parts.users.as_slice())?;
    let floors = floors_of(alloc, parts.floors.as_slice())?;
    keep_titles(
        alloc,
        &mut words,
        floors.as_slice(),
        parts.floors.as_slice(),
    )?;
    let limit = parts.limit.unwrap_or(LIMIT);
    let connections = parts.connections.unwrap_or(CONNECTIONS);
    match Config::build(
        alloc,
        conference,
        limit,
        connections,
        Users::from_vec(users),
        Floors::from_vec(floors),
    ) {
        Ok(config) => Ok(NewConference { config, words }),
        Err(fault) => Err(Refused::of(
            ErrorName::of_configuration(fault),
            About::Conference(conference),
        )),
    }
}

/// Keeps a title, where there is one and room for it.
fn keep(alloc: Global, words: &mut Words, key: Text, title: &Option<Text>) -> Result<(), Refused> {
    let Some(title) = title else {
        return Ok(());
    };
    if keep_title(alloc, words, key, title.as_str())? {
        return Ok(());
    }
    Err(Refused::param(alloc, "title", Why::OutOfRange))
}

/// The titles of floors become words.
fn keep_titles(
    alloc: Global,
    words: &mut Words,
    floors: &[Floor],
    given: &[NewFloor],
) -> Result<(), Refused> {
    for (floor, given) in floors.iter().zip(given.iter()) {
        keep(alloc, words, floor_key(alloc, floor.id)?, &given.title)?;
    }
    Ok(())
}

/// Whether two users have one port.
fn has_double_port(given: &[NewUser]) -> bool {
    given.iter().any(|user| is_shared(given, user.port))
}

/// Whether a port is that of two users.
fn is_shared(given: &[NewUser], port: Option<u16>) -> bool {
    port.is_some() && 1 < given.iter().filter(|user| user.port == port).count()
}

/// The users, with their numbers.
fn users_of(alloc: Global, given: &[NewUser]) -> Result<Vec<User>, AllocError> {
    let mut ids = Vec::new(alloc);
    for user in given {
        ids.push(user.id)?;
    }
    let ids = numbered(alloc, &ids)?;
    let mut users = Vec::new(alloc);
    for (id, user) in ids.iter().zip(given.iter()) {
        users.push(user_of(alloc, *id, user)?)?;
    }
    Ok(users)
}

/// A user with this number.
pub fn user_of(alloc: Global, id: u16, user: &NewUser) -> Result<User, AllocError>
    ensures value { IfOk result (λ made. made ≡ user_of id user.now) }
{
    let name = text_where(alloc, &user.name)?;
    let uri = text_where(alloc, &user.uri)?;
    Ok(User {
        id,
        name,
        uri,
        proxy: user.proxy,
        port: user.port,
    })
}

/// The floors, with their numbers.
fn floors_of(alloc: Global, given: &[NewFloor]) -> Result<Vec<Floor>, AllocError> {
    let mut ids = Vec::new(alloc);
    for floor in given {
        ids.push(floor.id)?;
    }
    let ids = numbered(alloc, &ids)?;
    let mut floors = Vec::new(alloc);
    for (id, floor) in ids.iter().zip(given.iter()) {
        floors.push(floor_of(*id, floor))?;
    }
    Ok(floors)
}

/// A floor with this number, of which one floor request is a holder at a time where it isn't said.
pub fn floor_of(id: u16, floor: &NewFloor) -> Floor
    ensures value { result ≡ floor_of id floor.now }
{
    Floor {
        id,
        room: floor.room.unwrap_or(1),
        chair: floor.chair,
    }
}

/// What the opening of a configuration is answered by.
pub fn opened_of(alloc: Global, config: &Config) -> Result<Opened, AllocError>
    ensures value { IfOk result (λ opened. opened ≡ opened_of config.now) }
{
    let users: Vec<u16> = config.users().iter().map(|user| user.id).collect(alloc)?;
    let floors: Vec<u16> = config.floors().iter().map(|floor| floor.id).collect(alloc)?;
    Ok(Opened {
        conference: config.conference(),
        users: List::from_vec(users),
        floors: List::from_vec(floors),
    })
}
