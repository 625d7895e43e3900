//! How many connections are in slots.

ghost use Rattle.std.specs.Prelude.{◌≡◌, is_some};
ghost use Rattle.floor_meetings.specs.Joined.{in_slots, is_of, member_with, of_user};

use crate::members::Members;
use floor_hub::Live;
use floor_loop::ConnNo;

/// How many of these live connections are in slots.
pub(crate) fn count_in_slots(members: &Members, live: &[Live]) -> usize
    ensures value { result ≡ in_slots members.now live.now }
{
    live.iter()
        .filter(|one| has_slot(members, one.number))
        .count()
}

/// How many of them are in slots and of this user.
pub(crate) fn count_of_user(members: &Members, live: &[Live], user: u16) -> usize
    ensures value { result ≡ of_user members.now user live.now }
{
    live.iter()
        .filter(|one| is_of(members, one.number, user))
        .count()
}

/// Whether the member with this number is in a slot.
fn has_slot(members: &Members, number: ConnNo) -> bool
    ensures value { result ≡ is_some (member_with members.now number) }
{
    match members.slot_of(number) {
        Some(slot) => members.get(slot).is_some(),
        None => false,
    }
}

/// Whether it is, and is this user's.
fn is_of(members: &Members, number: ConnNo, user: u16) -> bool
    ensures value { result ≡ is_of user (member_with members.now number) }
{
    match members.slot_of(number) {
        Some(slot) => match members.get(slot) {
            Some(member) => member.user == user,
            None => false,
        },
        None => false,
    }
}
