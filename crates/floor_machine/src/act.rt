//! What the administrator of a conference does.

ghost use Rattle.std.specs.Prelude.{◌≡◌, IfOk};

use crate::added::AddedUser;
use floor_config::Floor;
use std::alloc::{AllocError, Global};

/// What the administrator of a conference does. An act is handed over, since one bears a user.
#[derive(Debug, Drop)]
pub enum Act {
    /// Takes away the floors of the ongoing request with this number, or denies it where it doesn't
    /// hold them.
    Revoke(u16),
    /// Ends the conference.
    Close,
    /// Adds a user behind the others, without a port; an empty name or URI counts as absent.
    AddUser(AddedUser),
    /// Adds a floor behind the others.
    AddFloor(Floor),
    /// Gives the floor with this id this chair, or none (RFC 8855, section 4.2).
    SetChair(u16, Option<u16>),
}

impl Act {
    /// The same act once more.
    pub fn copy(&self, alloc: Global) -> Result<Act, AllocError>
        ensures value { IfOk result (λ copy. copy ≡ self.now) }
    {
        match self {
            Act::Revoke(request) => Ok(Act::Revoke(*request)),
            Act::Close => Ok(Act::Close),
            Act::AddUser(user) => Ok(Act::AddUser(user.copy(alloc)?)),
            Act::AddFloor(floor) => Ok(Act::AddFloor(*floor)),
            Act::SetChair(floor, chair) => Ok(Act::SetChair(*floor, *chair)),
        }
    }
}
