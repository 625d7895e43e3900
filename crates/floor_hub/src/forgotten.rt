//! What a hub answers of a conference that has no room: it was forgotten, or there is none.

ghost use Rattle.std.specs.Prelude.{◌≡◌, nat_eq};
ghost use Rattle.indexmap.specs.IndexSet.{contains};
ghost use Rattle.floor_hub.specs.Rooms.{ended_or_none, forgotten_or_none};

use crate::refusal::HubRefusal;
use floor_room::{Refusal, RoomRefusal};
use indexmap::IndexSet;

/// Why a call for a conference that has no room is refused: it was forgotten, and so it has ended, or
/// there is none.
pub(crate) fn ended_or_none(forgotten: &IndexSet<u32>, conference: u32) -> HubRefusal
    ensures value { result ≡ ended_or_none (contains nat_eq forgotten.now conference) }
{
    if forgotten.contains(&conference) {
        HubRefusal::ByRoom(RoomRefusal::Refused(Refusal::Ended))
    } else {
        HubRefusal::NoConference
    }
}

/// Why nothing is read of a conference that has no room.
pub(crate) fn forgotten_or_none(forgotten: &IndexSet<u32>, conference: u32) -> HubRefusal
    ensures value { result ≡ forgotten_or_none (contains nat_eq forgotten.now conference) }
{
    if forgotten.contains(&conference) {
        HubRefusal::Forgotten
    } else {
        HubRefusal::NoConference
    }
}
