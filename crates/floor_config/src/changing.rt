//! The configuration of one conference, changed while the conference runs: a user more, a floor
//! more, a floor with another chair or none (our choice: RFC 8855, section 3.1, leaves open how a
//! server comes to know of them).

ghost use Rattle.std.specs.Prelude.{◌≡◌, true, None, OnOk, OnErr};
ghost use Rattle.floor_config.specs.Configuration.{IsConfiguration, IsFloor, IsUser};
ghost use Rattle.floor_config.specs.Changed.{IsRefusedBy, added_user, chair_fault, floor_fault, floor_is_within, unless_refused, user_fault, user_is_within, with_chair, with_floor, with_user};

use crate::building::{drop_empty_texts, floor_fits, text_fits};
use crate::chairs;
use crate::config::Config;
use crate::fault::ConfigFault;
use crate::floors::{Floor, MAX_FLOORS};
use crate::lookup::is_floor;
use crate::users::{MAX_USERS, User};

impl Config {
    /// Adds a user behind the others, without a port; an empty name or URI counts as absent.
    ///
    /// `OutOfRange` where the conference has 256 users, or the name has more than 30 bytes or the URI
    /// more than 62; then `DoubleUser` where a user has the id; `Memory` last. After each of them
    /// nothing has changed.
    pub fn add_user(&mut self, user: User) -> Result<(), ConfigFault>
        ensures took { OnOk result (self.new ≡ with_user self.old user) }
        ensures refused { IsRefusedBy (user_fault self.old user) result }
        ensures left { OnErr result (self.new ≡ self.old) }
    {
        match self.user_fault(&user) {
            Some(fault) => return Err(fault),
            None => {}
        }
        self.push_user(added_user(user))?;
        Ok(())
    }

    /// Adds a floor behind the others.
    ///
    /// `OutOfRange` where the conference has 32 floors, or the room isn't 1 to 255; then `DoubleFloor`
    /// where a floor has the id; then `UnknownChair` where its chair is no user; `Memory` last. After
    /// each of them nothing has changed.
    pub fn add_floor(&mut self, floor: Floor) -> Result<(), ConfigFault>
        ensures took { OnOk result (self.new ≡ with_floor self.old floor) }
        ensures refused { IsRefusedBy (floor_fault self.old floor) result }
        ensures left { OnErr result (self.new ≡ self.old) }
    {
        match self.floor_fault(&floor) {
            Some(fault) => return Err(fault),
            None => {}
        }
        self.push_floor(floor)?;
        Ok(())
    }

    /// Gives a floor another chair, or none (section 4.2). Takes no memory.
    ///
    /// `NoFloor` where no floor has the id; then `UnknownChair` where the chair is no user. After each
    /// of them nothing has changed.
    pub fn set_chair(&mut self, floor: u16, chair: Option<u16>) -> Result<(), ConfigFault>
        ensures took { OnOk result (self.new ≡ with_chair self.old floor chair) }
        ensures refused { result ≡ unless_refused (chair_fault self.old floor chair) }
        ensures left { OnErr result (self.new ≡ self.old) }
    {
        match self.chair_fault(floor, chair) {
            Some(fault) => return Err(fault),
            None => {}
        }
        self.put_chair(floor, chair);
        Ok(())
    }

    /// Why the user may not be added, unless it may: what `add_user` is refused by but for want of
    /// memory. Takes no memory.
    #[tactic(auto, using(crate::proofs::KeptAfter::kept_user))]
    pub fn user_fault(&self, user: &User) -> Option<ConfigFault>
        ensures value { result ≡ user_fault self.now user.now }
        ensures kept { result ≡ None → IsConfiguration (with_user self.now user.now) }
    {
        if MAX_USERS <= self.users().len() || !user_is_within(user) {
            return Some(ConfigFault::OutOfRange);
        }
        if self.is_user(user.id) {
            return Some(ConfigFault::DoubleUser);
        }
        None
    }

    /// Why the floor may not be added, unless it may: what `add_floor` is refused by but for want of
    /// memory. Takes no memory.
    #[tactic(auto, using(crate::proofs::KeptAfter::kept_floor))]
    pub fn floor_fault(&self, floor: &Floor) -> Option<ConfigFault>
        ensures value { result ≡ floor_fault self.now floor.now }
        ensures kept { result ≡ None → IsConfiguration (with_floor self.now floor.now) }
    {
        if MAX_FLOORS <= self.floors().len() || !floor_is_within(floor) {
            return Some(ConfigFault::OutOfRange);
        }
        if is_floor(self.floors(), floor.id) {
            return Some(ConfigFault::DoubleFloor);
        }
        if !chairs::is_known(self.users(), floor.chair) {
            return Some(ConfigFault::UnknownChair);
        }
        None
    }

    /// Why the floor may not have the chair, unless it may: what `set_chair` is refused by. Takes no
    /// memory.
    #[tactic(auto, using(crate::proofs::KeptAfter::kept_chair))]
    pub fn chair_fault(&self, floor: u16, chair: Option<u16>) -> Option<ConfigFault>
        ensures value { result ≡ chair_fault self.now floor chair }
        ensures kept { result ≡ None → IsConfiguration (with_chair self.now floor chair) }
    {
        if !is_floor(self.floors(), floor) {
            return Some(ConfigFault::NoFloor);
        }
        if !chairs::is_known(self.users(), chair) {
            return Some(ConfigFault::UnknownChair);
        }
        None
    }
}

/// The user as it is added.
fn added_user(user: User) -> User
    ensures { result ≡ added_user user }
{
    let mut user = user;
    drop_empty_texts(&mut user);
    user.port = None;
    user
}

/// Whether the user's id and texts are within their ranges.
fn user_is_within(user: &User) -> bool
    ensures value { result ≡ user_is_within user.now }
    ensures fits { result ≡ true → IsUser (added_user user.now) }
{
    // A number has the range of its type once it is read.
    let _id = user.id;
    text_fits(&user.name, 30) && text_fits(&user.uri, 62)
}

/// Whether the floor's id and room are within their ranges.
fn floor_is_within(floor: &Floor) -> bool
    ensures value { result ≡ floor_is_within floor.now }
    ensures fits { result ≡ true → IsFloor floor.now }
{
    // A number has the range of its type once it is read.
    let _id = floor.id;
    floor_fits(floor)
}
