//! The configurations of a TOML document, key by key.
//!
//! ```toml
//! [[conference]]
//! id = 1
//! limit = 4
//! connections = 8
//! [[conference.user]]
//! id = 10
//! name = "Ann"
//! uri = "sip:ann@example.com"
//! proxy = true
//! port = 7010
//! [[conference.floor]]
//! id = 1
//! room = 1
//! chair = 10
//! ```
//!
//! | key | value | where it is absent |
//! |---|---|---|
//! | `conference` | array of tables | `MissingKey` |
//! | `conference.id` | 0 to 4294967295 | `MissingKey` |
//! | `conference.limit` | 1 to 16 | 4 |
//! | `conference.connections` | 1 to 64 | 64 |
//! | `conference.user` | array of at most 256 tables | no users |
//! | `conference.floor` | array of at most 32 tables | no floors |
//! | `user.id`, `floor.id` | 0 to 65535 | `MissingKey` |
//! | `user.name` | text of at most 30 bytes | no name |
//! | `user.uri` | text of at most 62 bytes | no URI |
//! | `user.proxy` | true or false | false |
//! | `user.port` | 1 to 65535 | no port |
//! | `floor.room` | 1 to 255 | 1 |
//! | `floor.chair` | 0 to 65535, id of a user of the conference | no chair |
//!
//! Other keys are ignored, and an empty text counts as absent. Each key's kind is looked at
//! (`WrongType`) and then its range (`OutOfRange`), in the order of the table: the array of the
//! conferences, and then each conference with its id, its limit, its connections, its users, `DoubleUser`, its
//! floors, `DoubleFloor` and `UnknownChair`. `DoubleConference` and `DoublePort` come last, and are
//! told of all conferences together.

ghost use Rattle.std.specs.Prelude.{◌≡◌, ◌≤◌, IfOk, All, length, codes};
ghost use Rattle.floor_config.specs.Doubles.{AllDiffer};
ghost use Rattle.floor_config.specs.Configuration.{IsUser, IsFloor, user_ids, floor_ids};
ghost use Rattle.floor_config.specs.Outcome.{Gives};
ghost use Rattle.floor_config.specs.Values.{tables};
ghost use Rattle.floor_config.specs.Reading.{user_of, floor_of, all_of, users_of, floors_of, conference_of, conference_ids, ports, conferences_of, reading};
ghost use Rattle.toml.specs.Data.{get_member};
ghost use Rattle.toml.specs.View.{items_view, table_view};

use crate::config::Config;
use crate::fault::ConfigFault;
use crate::floors::{Floor, Floors};
use crate::users::{User, Users};
use crate::{chairs, doubles, values};
use std::alloc::Global;
use toml::{Table, Value};

/// The configurations of a text in TOML, in its order, or the first fault: `Syntax`; then conference
/// by conference what a key is refused by (`MissingKey`, `WrongType`, `OutOfRange`), and behind its
/// users `DoubleUser`, behind its floors `DoubleFloor` and `UnknownChair`; at last `DoubleConference`
/// and `DoublePort`. A text without conferences has to say so, by an empty array.
pub fn read_configs(alloc: Global, text: &str) -> Result<Vec<Config>, ConfigFault>
    ensures value { Gives (λ configs. configs.items) result (reading text.now) }
    ensures conferences { IfOk result (λ configs. AllDiffer (conference_ids configs.items)) }
    ensures ports { IfOk result (λ configs. AllDiffer (ports configs.items)) }
{
    match toml::table_from_str(alloc, text) {
        Ok(table) => conferences(alloc, &table),
        Err(error) if error.is_memory() => Err(ConfigFault::Memory),
        Err(_) => Err(ConfigFault::Syntax),
    }
}

/// The configurations of a document's table.
#[tactic(auto, unfolding(crate::specs::Reading::conferences_of))]
fn conferences(alloc: Global, table: &Table) -> Result<Vec<Config>, ConfigFault>
    ensures value { Gives (λ configs. configs.items) result
        (conferences_of (table_view table.now)) }
    ensures conferences { IfOk result (λ configs. AllDiffer (conference_ids configs.items)) }
    ensures ports { IfOk result (λ configs. AllDiffer (ports configs.items)) }
{
    let Some(value) = values::find(table, "conference") else {
        return Err(ConfigFault::MissingKey);
    };
    let configs = all_conferences(alloc, values::tables(value)?)?;
    if doubles::has_double_conference(alloc, &configs)? {
        return Err(ConfigFault::DoubleConference);
    }
    if doubles::has_double_port(alloc, &configs)? {
        return Err(ConfigFault::DoublePort);
    }
    Ok(configs)
}

/// The conferences of the tables among the values.
fn all_conferences(alloc: Global, values: &[Value]) -> Result<Vec<Config>, ConfigFault>
    ensures value { Gives (λ configs. configs.items) result
        (all_of conference_of (tables (items_view values.now))) }
{
    let mut configs = Vec::new(alloc);
    for value in values {
        if let Some(table) = value.as_table() {
            configs.push(conference(alloc, table)?)?;
        }
    }
    Ok(configs)
}

/// The conference of a table.
#[tactic(auto, using(crate::proofs::Limits::chairs_known), unfolding(crate::specs::Reading::conference_of))]
fn conference(alloc: Global, table: &Table) -> Result<Config, ConfigFault>
    ensures value { Gives (λ config. config) result (conference_of (table_view table.now)) }
{
    let id = values::number_needed(table, "id", 0, 4_294_967_295)?;
    let limit = values::short_at(table, "limit", 1, 16)?.unwrap_or(4);
    let connections = values::short_at(table, "connections", 1, 64)?.unwrap_or(64);
    let users = users(alloc, table)?;
    let floors = floors(alloc, table)?;
    if !chairs::are_known(users.as_slice(), floors.as_slice()) {
        return Err(ConfigFault::UnknownChair);
    }
    Ok(Config::of_parts(id, limit, connections, users, floors))
}

/// The users of a conference's table.
#[tactic(auto, unfolding(crate::specs::Reading::users_of))]
fn users(alloc: Global, table: &Table) -> Result<Users, ConfigFault>
    ensures value { Gives (λ users. users) result
        (users_of (get_member (codes "user") (table_view table.now))) }
    ensures few { IfOk result (λ users. length users ≤ 256) }
    ensures fits { IfOk result (All IsUser) }
    ensures differ { IfOk result (λ users. AllDiffer (user_ids users)) }
{
    let Some(value) = values::find(table, "user") else {
        return Ok(Users::from_vec(Vec::new(alloc)));
    };
    let users = all_users(alloc, values::few_tables(value, 256)?)?;
    if doubles::has_double_user(alloc, &users)? {
        return Err(ConfigFault::DoubleUser);
    }
    Ok(Users::from_vec(users))
}

/// The users of the tables among the values.
fn all_users(alloc: Global, values: &[Value]) -> Result<Vec<User>, ConfigFault>
    ensures value { Gives (λ users. users.items) result
        (all_of user_of (tables (items_view values.now))) }
    ensures fits { IfOk result (λ users. All IsUser users.items) }
    ensures few { IfOk result (λ users. length users.items ≤ length values.now) }
{
    let mut users = Vec::new(alloc);
    for value in values {
        if let Some(table) = value.as_table() {
            users.push(user(alloc, table)?)?;
        }
    }
    Ok(users)
}

/// The user of a table.
#[tactic(auto, unfolding(crate::specs::Reading::user_of))]
fn user(alloc: Global, table: &Table) -> Result<User, ConfigFault>
    ensures value { Gives (λ user. user) result (user_of (table_view table.now)) }
    ensures fits { IfOk result IsUser }
{
    let id = values::short_needed(table, "id", 0, 65_535)?;
    let name = values::text_at(alloc, table, "name", 30)?;
    let uri = values::text_at(alloc, table, "uri", 62)?;
    let proxy = values::flag_at(table, "proxy")?.unwrap_or(false);
    let port = values::short_at(table, "port", 1, 65_535)?;
    Ok(User {
        id,
        name,
        uri,
        proxy,
        port,
    })
}

/// The floors of a conference's table.
#[tactic(auto, unfolding(crate::specs::Reading::floors_of))]
fn floors(alloc: Global, table: &Table) -> Result<Floors, ConfigFault>
    ensures value { Gives (λ floors. floors) result
        (floors_of (get_member (codes "floor") (table_view table.now))) }
    ensures few { IfOk result (λ floors. length floors ≤ 32) }
    ensures fits { IfOk result (All IsFloor) }
    ensures differ { IfOk result (λ floors. AllDiffer (floor_ids floors)) }
{
    let Some(value) = values::find(table, "floor") else {
        return Ok(Floors::from_vec(Vec::new(alloc)));
    };
    let floors = all_floors(alloc, values::few_tables(value, 32)?)?;
    if doubles::has_double_floor(alloc, &floors)? {
        return Err(ConfigFault::DoubleFloor);
    }
    Ok(Floors::from_vec(floors))
}

/// The floors of the tables among the values.
fn all_floors(alloc: Global, values: &[Value]) -> Result<Vec<Floor>, ConfigFault>
    ensures value { Gives (λ floors. floors.items) result
        (all_of floor_of (tables (items_view values.now))) }
    ensures fits { IfOk result (λ floors. All IsFloor floors.items) }
    ensures few { IfOk result (λ floors. length floors.items ≤ length values.now) }
{
    let mut floors = Vec::new(alloc);
    for value in values {
        if let Some(table) = value.as_table() {
            floors.push(floor(table)?)?;
        }
    }
    Ok(floors)
}

/// The floor of a table.
#[tactic(auto, unfolding(crate::specs::Reading::floor_of))]
fn floor(table: &Table) -> Result<Floor, ConfigFault>
    ensures value { result ≡ floor_of (table_view table.now) }
    ensures fits { IfOk result IsFloor }
{
    let id = values::short_needed(table, "id", 0, 65_535)?;
    let room = values::short_at(table, "room", 1, 255)?.unwrap_or(1);
    let chair = values::short_at(table, "chair", 0, 65_535)?;
    Ok(Floor { id, room, chair })
}
