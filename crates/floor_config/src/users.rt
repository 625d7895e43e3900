//! The users of a conference (RFC 8855, section 2).

ghost use Rattle.std.specs.Prelude.{◌≡◌, ◌++◌, [], ◌∷◌, IfOk, OnOk, OnErr};

use crate::text::Text;
use std::alloc::{AllocError, Global};
use std::marker::Model;

/// How many users a conference has at most, those among them that were added while it runs.
pub(crate) const MAX_USERS: usize = 256;

/// A user of a conference.
#[derive(Debug, Drop)]
pub struct User {
    /// The User ID (RFC 8855, section 5.1).
    pub id: u16,
    /// What USER-DISPLAY-NAME shows of the user, if anything (section 5.2.12).
    pub name: Option<Text>,
    /// What USER-URI shows of the user, if anything (section 5.2.13).
    pub uri: Option<Text>,
    /// Whether the user may ask for floors on behalf of others (section 5.2.1).
    pub proxy: bool,
    /// The TCP port at which whoever connects is this user, if there is one.
    pub port: Option<u16>,
}

impl User {
    /// An equal user.
    pub fn copy(&self, alloc: Global) -> Result<User, AllocError>
        ensures { IfOk result (λ copy. copy ≡ self.now) }
    {
        let name = copy_of_text(alloc, &self.name)?;
        let uri = copy_of_text(alloc, &self.uri)?;
        Ok(User {
            id: self.id,
            name,
            uri,
            proxy: self.proxy,
            port: self.port,
        })
    }
}

/// An equal text, where there is one.
fn copy_of_text(alloc: Global, text: &Option<Text>) -> Result<Option<Text>, AllocError>
    ensures { IfOk result (λ copy. copy ≡ text.now) }
{
    match text {
        None => Ok(None),
        Some(text) => Ok(Some(text.copy(alloc)?)),
    }
}

/// Users in order.
#[derive(Debug, Drop)]
pub struct Users {
    items: Vec<User>,
}

impl Model for Users {
    ghost use Rattle.std.specs.Prelude.{List};
    ghost use Rattle.floor_config.specs.declared.users.User.{User};

    ghost Value = { List User };

    ghost view = { λ u. u.items.items };
}

impl Users {
    /// The users of a vector. Takes no memory.
    pub fn from_vec(items: Vec<User>) -> Users
        ensures { result ≡ items.items }
    {
        Users { items }
    }

    /// The users, in order.
    pub fn as_slice(&self) -> &[User]
        ensures { result.now ≡ self.now }
    {
        self.items.as_slice()
    }

    /// The users as a vector.
    pub(crate) fn into_vec(self) -> Vec<User>
        ensures { result.items ≡ self }
    {
        self.items
    }

    /// Puts a user behind the others. Where memory is refused nothing has changed.
    pub(crate) fn push(&mut self, user: User) -> Result<(), AllocError>
        ensures took { OnOk result (self.new ≡ self.old ++ user ∷ []) }
        ensures left { OnErr result (self.new ≡ self.old) }
    {
        self.items.push(user)?;
        Ok(())
    }

    /// Equal users.
    pub fn copy(&self, alloc: Global) -> Result<Users, AllocError>
        ensures { IfOk result (λ copy. copy ≡ self.now) }
    {
        let mut items = Vec::with_capacity(alloc, self.items.len())?;
        for user in self.items.iter() {
            items.push(user.copy(alloc)?)?;
        }
        Ok(Users::from_vec(items))
    }
}
