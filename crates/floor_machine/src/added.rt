//! A user that is added while a conference runs.

ghost use Rattle.std.specs.Prelude.{◌≡◌, None, IfOk};

use floor_config::User;
use std::alloc::{AllocError, Global};
use std::marker::Model;

/// A user that is added, in memory of its own, so that other acts and events don't take the room of
/// one. Contracts see the user.
#[derive(Debug, Drop)]
pub struct AddedUser {
    user: Box<User, Global>,
}

impl Model for AddedUser {
    ghost use Rattle.floor_config.specs.declared.users.User.{User};

    ghost Value = { User };

    ghost view = { λ a. a.user.value };
}

impl AddedUser {
    /// The user, which is moved there.
    pub fn new(alloc: Global, user: User) -> Result<AddedUser, AllocError>
        ensures value { IfOk result (λ added. added ≡ user) }
    {
        let user = Box::new(alloc, user)?;
        Ok(AddedUser { user })
    }

    /// The user. Takes no memory.
    pub fn as_user(&self) -> &User
        ensures value { result.now ≡ self.now }
    {
        &self.user
    }

    /// The user, moved out. Takes no memory.
    pub fn into_user(self) -> User
        ensures value { result ≡ self }
    {
        Box::into_inner(self.user)
    }

    /// The user without its port. Takes no memory.
    pub fn without_port(self) -> AddedUser
        ensures value { result ≡ record self { port = None } }
    {
        let mut user = self.user;
        user.port = None;
        AddedUser { user }
    }

    /// An equal user.
    pub fn copy(&self, alloc: Global) -> Result<AddedUser, AllocError>
        ensures value { IfOk result (λ copy. copy ≡ self.now) }
    {
        let user = self.user.copy(alloc)?;
        AddedUser::new(alloc, user)
    }
}
