//! The configuration of one conference, built of values.

ghost use Rattle.std.specs.Prelude.{◌≡◌, ◌≤◌, true, All, length, map, option_and_then, IfSome};
ghost use Rattle.std.specs.List.{list_all};
ghost use Rattle.floor_config.specs.Configuration.{IsUser, IsFloor};
ghost use Rattle.floor_config.specs.Outcome.{Gives};
ghost use Rattle.floor_config.specs.Limits.{unless_empty};
ghost use Rattle.floor_config.specs.Building.{built, text_fits, users_fit, user_fits, port_fits, floors_fit, floor_fits, without_empty_texts};

use crate::config::Config;
use crate::fault::ConfigFault;
use crate::floors::{Floor, Floors, MAX_FLOORS};
use crate::text::Text;
use crate::users::{MAX_USERS, User, Users};
use crate::{chairs, doubles};
use std::alloc::Global;

impl Config {
    /// The configuration of these values, tested in the order in which a text would be. An empty
    /// name or URI counts as absent. Refused are, in this order, `OutOfRange` of the limit, of the
    /// connections or of a user, `DoubleUser`, `OutOfRange` of a floor, `DoubleFloor` and `UnknownChair`.
    #[tactic(auto, unfolding(crate::specs::Building::built))]
    pub fn build(
        alloc: Global,
        conference: u32,
        limit: u16,
        connections: u16,
        users: Users,
        floors: Floors,
    ) -> Result<Config, ConfigFault>
        ensures { Gives (λ config. config) result (built conference limit connections users floors) }
    {
        if limit < 1 || 16 < limit || connections < 1 || 64 < connections {
            return Err(ConfigFault::OutOfRange);
        }
        if !users_fit(users.as_slice()) {
            return Err(ConfigFault::OutOfRange);
        }
        if doubles::has_double_user(alloc, users.as_slice())? {
            return Err(ConfigFault::DoubleUser);
        }
        if !floors_fit(floors.as_slice()) {
            return Err(ConfigFault::OutOfRange);
        }
        if doubles::has_double_floor(alloc, floors.as_slice())? {
            return Err(ConfigFault::DoubleFloor);
        }
        if !chairs::are_known(users.as_slice(), floors.as_slice()) {
            return Err(ConfigFault::UnknownChair);
        }
        let users = without_empty_texts(users);
        Ok(Config::of_parts(conference, limit, connections, users, floors))
    }
}

/// Whether there are at most 256 users, each within its ranges.
fn users_fit(users: &[User]) -> bool
    ensures value { result ≡ users_fit users.now }
    ensures few { result ≡ true → length users.now ≤ 256 }
    ensures fits { result ≡ true → All (λ u. IsUser (without_empty_texts u)) users.now }
{
    users.len() <= MAX_USERS && all_users_fit(users)
}

/// Whether each user is within its ranges.
fn all_users_fit(users: &[User]) -> bool
    ensures value { result ≡ list_all user_fits users.now }
    ensures fits { result ≡ true → All (λ u. IsUser (without_empty_texts u)) users.now }
{
    for user in users {
        if !user_fits(user) {
            return false;
        }
    }
    true
}

/// Whether the user's texts and its port are within their ranges.
fn user_fits(user: &User) -> bool
    ensures value { result ≡ user_fits user.now }
    ensures fits { result ≡ true → IsUser (without_empty_texts user.now) }
{
    // A number has the range of its type once it is read.
    let _id = user.id;
    text_fits(&user.name, 30) && text_fits(&user.uri, 62) && port_fits(user.port)
}

/// Whether there is no text, or one of at most `most` bytes.
pub(crate) fn text_fits(text: &Option<Text>, most: usize) -> bool
    ensures value { result ≡ text_fits most text.now }
    ensures fits { result ≡ true
        → IfSome (option_and_then unless_empty text.now) (λ t. (1 ≤ length t) × (length t ≤ most)) }
{
    match text {
        None => true,
        Some(text) => text.as_str().len() <= most,
    }
}

/// Whether there is no port, or one from 1 on.
fn port_fits(port: Option<u16>) -> bool
    ensures value { result ≡ port_fits port }
    ensures fits { result ≡ true → IfSome port (λ p. (1 ≤ p) × (p ≤ 65535)) }
{
    match port {
        None => true,
        Some(port) => 1 <= port,
    }
}

/// Whether there are at most 32 floors, each within its ranges.
fn floors_fit(floors: &[Floor]) -> bool
    ensures value { result ≡ floors_fit floors.now }
    ensures few { result ≡ true → length floors.now ≤ 32 }
    ensures fits { result ≡ true → All IsFloor floors.now }
{
    floors.len() <= MAX_FLOORS && all_floors_fit(floors)
}

/// Whether each floor is within its ranges.
fn all_floors_fit(floors: &[Floor]) -> bool
    ensures value { result ≡ list_all floor_fits floors.now }
    ensures fits { result ≡ true → All IsFloor floors.now }
{
    for floor in floors {
        if !floor_fits(floor) {
            return false;
        }
    }
    true
}

/// Whether the floor's room is within its range.
pub(crate) fn floor_fits(floor: &Floor) -> bool
    ensures value { result ≡ floor_fits floor.now }
    ensures fits { result ≡ true → IsFloor floor.now }
{
    // A number has the range of its type once it is read.
    let _id = floor.id;
    1 <= floor.room && floor.room <= 255
}

/// The users, of whom an empty text counts as absent.
fn without_empty_texts(users: Users) -> Users
    ensures { result ≡ map without_empty_texts users }
{
    let mut items = users.into_vec();
    for user in items.iter_mut() {
        drop_empty_texts(user);
    }
    Users::from_vec(items)
}

/// An empty text counts as absent.
pub(crate) fn drop_empty_texts(user: &mut User)
    ensures { user.new ≡ without_empty_texts user.old }
{
    drop_if_empty(&mut user.name);
    drop_if_empty(&mut user.uri);
}

fn drop_if_empty(text: &mut Option<Text>)
    ensures { text.new ≡ option_and_then unless_empty text.old }
{
    let is_empty = match text {
        None => false,
        Some(text) => text.as_str().is_empty(),
    };
    if is_empty {
        *text = None;
    }
}
