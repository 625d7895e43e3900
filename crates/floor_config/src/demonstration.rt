//! The configuration for demonstrations.

ghost use Rattle.std.specs.Prelude.{◌≡◌, IfOk};
ghost use Rattle.floor_config.specs.Demonstration.{demonstration, bare_user};

use crate::config::Config;
use crate::floors::{Floor, Floors};
use crate::users::{User, Users};
use std::alloc::{AllocError, Global};

impl Config {
    /// Conference 1 with limit 4 and 64 connections of a user: users 10, 11 and 12 without names, URIs, proxy marks and ports,
    /// and floor 1 with room for one floor request and no chair.
    #[tactic(auto, using(crate::proofs::Shown::demonstration_keeps))]
    pub fn demonstration(alloc: Global) -> Result<Config, AllocError>
        ensures { IfOk result (λ config. config ≡ demonstration) }
    {
        let users = vec![in alloc; bare_user(10), bare_user(11), bare_user(12)]?;
        let floors = vec![in alloc;
            Floor {
                id: 1,
                room: 1,
                chair: None
            },
        ]?;
        let users = Users::from_vec(users);
        let floors = Floors::from_vec(floors);
        Ok(Config::of_parts(1, 4, 64, users, floors))
    }
}

/// The user with this id, without a name, a URI, a proxy mark and a port.
fn bare_user(id: u16) -> User
    ensures { result ≡ bare_user id }
{
    User {
        id,
        name: None,
        uri: None,
        proxy: false,
        port: None,
    }
}
