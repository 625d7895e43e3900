//! What is asked of a configuration: its users, its floors and their chairs (RFC 8855, sections 2,
//! 10.1.1 and 11).

ghost use Rattle.std.specs.Prelude.{◌≡◌, ◌==◌, ◌&&◌, find, false};
ghost use Rattle.std.specs.List.{list_all, list_any};
ghost use Rattle.std.specs.Option.{option_copied, option_map_or};
ghost use Rattle.floor_config.specs.Configuration.{IsConfiguration};
ghost use Rattle.floor_config.specs.Lookup.{chair_is, has_proxy, is_floor, is_user, user_with};

use crate::config::Config;
use crate::floors::Floor;
use crate::users::User;

impl Config {
    /// The user with this User ID (RFC 8855, section 5.1). Takes no memory.
    pub fn user(&self, id: u16) -> Option<&User>
        ensures found { option_copied result ≡ user_with self.now id }
        ensures kept { IsConfiguration self.now }
    {
        find_user(self.users(), id)
    }

    /// Whether a user of the conference has this User ID. Takes no memory.
    pub fn is_user(&self, id: u16) -> bool
        ensures value { result ≡ is_user self.now id }
        ensures kept { IsConfiguration self.now }
    {
        match self.user(id) {
            Some(_user) => true,
            None => false,
        }
    }

    /// Whether the user may ask for floors on behalf of others (section 10.1.1). Takes no memory.
    pub fn has_proxy(&self, id: u16) -> bool
        ensures value { result ≡ has_proxy self.now id }
        ensures kept { IsConfiguration self.now }
    {
        match self.user(id) {
            Some(user) => user.proxy,
            None => false,
        }
    }

    /// Whether the conference has each of the floors. Takes no memory.
    pub fn has_floors(&self, floors: &[u16]) -> bool
        ensures value { result ≡ list_all (is_floor self.now.floors) floors.now }
        ensures kept { IsConfiguration self.now }
    {
        are_floors(self.floors(), floors)
    }

    /// Whether the user is the chair of the floor (section 11). Takes no memory.
    pub fn has_chair(&self, floor: u16, user: u16) -> bool
        ensures value { result ≡ chair_is self.now floor user }
        ensures kept { IsConfiguration self.now }
    {
        has_chair(self.floors(), floor, user)
    }
}

fn find_user(users: &[User], id: u16) -> Option<&User>
    ensures { option_copied result ≡ find (λ user. user.id == id) users.now }
{
    users.iter().find(|user| user.id == id)
}

fn are_floors(known: &[Floor], floors: &[u16]) -> bool
    ensures { result ≡ list_all (is_floor known.now) floors.now }
{
    floors.iter().all(|floor| is_floor(known, *floor))
}

/// Whether the conference has the floor.
pub fn is_floor(floors: &[Floor], floor: u16) -> bool
    ensures value { result ≡ is_floor floors.now floor }
{
    floors.iter().any(|f| f.id == floor)
}

fn has_chair(floors: &[Floor], floor: u16, user: u16) -> bool
    ensures { result
        ≡ list_any (λ f. f.id == floor && option_map_or (λ chair. chair == user) f.chair false)
        floors.now }
{
    floors.iter().any(|f| f.id == floor && is_chair(f, user))
}

/// Whether the user is the chair of the floor.
fn is_chair(floor: &Floor, user: u16) -> bool
    ensures { result ≡ option_map_or (λ chair. chair == user) floor.now.chair false }
{
    match floor.chair {
        Some(chair) => chair == user,
        None => false,
    }
}
