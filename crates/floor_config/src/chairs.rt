//! Whether the chairs of floors are users of their conference.

ghost use Rattle.std.specs.Prelude.{◌≡◌, ◌==◌};
ghost use Rattle.std.specs.List.{list_any};
ghost use Rattle.floor_config.specs.Limits.{is_known, chairs_are_known};

use crate::floors::Floor;
use crate::users::User;

/// Whether each floor has no chair, or one of these users.
pub fn are_known(users: &[User], floors: &[Floor]) -> bool
    ensures { result ≡ chairs_are_known users.now floors.now }
{
    floors.iter().all(|floor| is_known(users, floor.chair))
}

/// Whether there is no chair, or one of these users.
pub(crate) fn is_known(users: &[User], chair: Option<u16>) -> bool
    ensures { result ≡ is_known users.now chair }
{
    match chair {
        None => true,
        Some(chair) => has_user(users, chair),
    }
}

/// Whether one of the users has this id.
fn has_user(users: &[User], id: u16) -> bool
    ensures { result ≡ list_any (λ u. u.id == id) users.now }
{
    users.iter().any(|user| user.id == id)
}
