//! The configuration of one conference: its users, its floors and their chairs (RFC 8855, section
//! 2).

ghost use Rattle.std.specs.Prelude.{◌≡◌, ◌++◌, [], ◌∷◌, IfOk, OnOk, OnErr};
ghost use Rattle.floor_config.specs.Changed.{with_chair, with_floor};

use crate::floors::{Floor, Floors};
use crate::users::{User, Users};
use std::alloc::{AllocError, Global};
use std::marker::Model;

/// The configuration of one conference. Each keeps its limits, and no two of its users, nor two of
/// its floors, have one id: readers hand this to their callers as `kept`.
#[derive(Debug, Drop)]
pub struct Config {
    conference: u32,
    limit: u16,
    connections: u16,
    users: Users,
    floors: Floors,
}

impl Model for Config {
    ghost use Rattle.floor_config.specs.Configuration.{Configuration, IsConfiguration};

    ghost Value = { Configuration };

    ghost view = { λ c. record {
      conference = c.conference;
      limit = c.limit;
      connections = c.connections;
      users = c.users;
      floors = c.floors;
    } };

    ghost invariant = { λ c. IsConfiguration record {
      conference = c.conference;
      limit = c.limit;
      connections = c.connections;
      users = c.users;
      floors = c.floors;
    } };
}

impl Config {
    ghost use Rattle.floor_config.specs.Configuration.{IsConfiguration};

    /// The configuration of values that keep the limits.
    pub(crate) fn of_parts(
        conference: u32,
        limit: u16,
        connections: u16,
        users: Users,
        floors: Floors,
    ) -> Config
        requires { IsConfiguration record {
          conference = conference;
          limit = limit;
          connections = connections;
          users = users;
          floors = floors;
        } }
        ensures { result ≡ record {
          conference = conference;
          limit = limit;
          connections = connections;
          users = users;
          floors = floors;
        } }
    {
        Config {
            conference,
            limit,
            connections,
            users,
            floors,
        }
    }

    /// The Conference ID (RFC 8855, section 5.1).
    pub fn conference(&self) -> u32
        ensures value { result ≡ self.now.conference }
        ensures kept { IsConfiguration self.now }
    {
        self.conference
    }

    /// How many ongoing floor requests a user may have for one floor (RFC 8855, section 13.1).
    pub fn limit(&self) -> u16
        ensures value { result ≡ self.now.limit }
        ensures kept { IsConfiguration self.now }
    {
        self.limit
    }

    /// How many connections of one user a server serves at once, those of all its ports together. No
    /// event of a conference depends on it: a server that has no such bound may leave it unread.
    pub fn connections(&self) -> u16
        ensures value { result ≡ self.now.connections }
        ensures kept { IsConfiguration self.now }
    {
        self.connections
    }

    /// The users, in order.
    pub fn users(&self) -> &[User]
        ensures value { result.now ≡ self.now.users }
        ensures kept { IsConfiguration self.now }
    {
        self.users.as_slice()
    }

    /// The floors, in order.
    pub fn floors(&self) -> &[Floor]
        ensures value { result.now ≡ self.now.floors }
        ensures kept { IsConfiguration self.now }
    {
        self.floors.as_slice()
    }

    /// Puts a user behind the others. Where memory is refused nothing has changed.
    pub(crate) fn push_user(&mut self, user: User) -> Result<(), AllocError>
        requires { IsConfiguration (record self.old { users = self.old.users ++ user ∷ [] }) }
        ensures took { OnOk result
            (self.new ≡ record self.old { users = self.old.users ++ user ∷ [] }) }
        ensures left { OnErr result (self.new ≡ self.old) }
    {
        self.users.push(user)
    }

    /// Puts a floor behind the others. Where memory is refused nothing has changed.
    pub(crate) fn push_floor(&mut self, floor: Floor) -> Result<(), AllocError>
        requires { IsConfiguration (with_floor self.old floor) }
        ensures took { OnOk result (self.new ≡ with_floor self.old floor) }
        ensures left { OnErr result (self.new ≡ self.old) }
    {
        self.floors.push(floor)
    }

    /// Gives a floor this chair, or none. Takes no memory.
    pub(crate) fn put_chair(&mut self, floor: u16, chair: Option<u16>)
        requires { IsConfiguration (with_chair self.old floor chair) }
        ensures { self.new ≡ with_chair self.old floor chair }
    {
        self.floors.put_chair(floor, chair);
    }

    /// An equal configuration.
    pub fn copy(&self, alloc: Global) -> Result<Config, AllocError>
        ensures { IfOk result (λ copy. copy ≡ self.now) }
    {
        let users = self.users.copy(alloc)?;
        let floors = self.floors.copy(alloc)?;
        Ok(Config {
            conference: self.conference,
            limit: self.limit,
            connections: self.connections,
            users,
            floors,
        })
    }
}
