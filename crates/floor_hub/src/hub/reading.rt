//! What a hub tells of one conference.

ghost use Rattle.std.specs.Prelude.{◌≡◌, Err, MatchResult, None, Ok, Some, false, true};
ghost use Rattle.floor_room.specs.Room.{IsRoom, Room as Kept};
ghost use Rattle.floor_room.specs.Standing.{backlog_of, config_of, shown_of};
ghost use Rattle.floor_room.specs.Status.{IsStatus};
ghost use Rattle.floor_hub.specs.Hub.{is_forgotten, room_at};
ghost use Rattle.floor_hub.specs.Members.{AreMembers, user_of};

use crate::attached::Live;
use crate::forgotten::forgotten_or_none;
use crate::gathering::user_of;
use crate::hub::Hub;
use crate::refusal::HubRefusal;
use floor_room::{Config, Event, SharedInfo, Status};

impl Hub {
    /// How the room of a conference stands. Refused by `NoConference`, and by `Forgotten` where it had one.
    /// Takes no memory.
    ///
    /// Each room keeps what was queued: a prefix of what its journal calls for where it is broken
    /// off, else all of it.
    pub fn status(&self, conference: u32) -> Result<Status, HubRefusal>
        ensures no_conference { room_at self.now conference ≡ None
            → is_forgotten self.now conference ≡ false → result ≡ Err HubRefusal.NoConference }
        ensures forgotten { room_at self.now conference ≡ None
            → is_forgotten self.now conference ≡ true → result ≡ Err HubRefusal.Forgotten }
        ensures found { (r : Kept) → room_at self.now conference ≡ Some r
            → MatchResult result (IsStatus r.ledger) (λ _. ⊥) }
        ensures kept { (r : Kept) → room_at self.now conference ≡ Some r → IsRoom r }
    {
        match self.rooms.get(u64::from(conference)) {
            Some(room) => {
                // What its contract says of the room is handed out.
                let _journal = room.journal();
                Ok(room.status())
            }
            None => Err(forgotten_or_none(&self.forgotten, conference)),
        }
    }

    /// What happened in a conference so far, in order: the journal of its room, as it has it, so that
    /// `add_lines` of floor_room gives its text by pieces. Refused by `NoConference` and
    /// `Forgotten`. Takes no memory.
    pub fn journal(&self, conference: u32) -> Result<&[Event], HubRefusal>
        ensures no_conference { room_at self.now conference ≡ None
            → is_forgotten self.now conference ≡ false → result ≡ Err HubRefusal.NoConference }
        ensures forgotten { room_at self.now conference ≡ None
            → is_forgotten self.now conference ≡ true → result ≡ Err HubRefusal.Forgotten }
        ensures found { (r : Kept) → room_at self.now conference ≡ Some r
            → MatchResult result (λ events. events.now ≡ r.ledger.journal) (λ _. ⊥) }
        ensures kept { (r : Kept) → room_at self.now conference ≡ Some r → IsRoom r }
    {
        match self.rooms.get(u64::from(conference)) {
            Some(room) => Ok(room.journal()),
            None => Err(forgotten_or_none(&self.forgotten, conference)),
        }
    }

    /// Who is in a conference now: its live connections, by ascending number and so by ascending n.
    /// Refused by `NoConference` and `Forgotten`. Takes no memory.
    pub fn members(&self, conference: u32) -> Result<&[Live], HubRefusal>
        ensures no_conference { room_at self.now conference ≡ None
            → is_forgotten self.now conference ≡ false → result ≡ Err HubRefusal.NoConference }
        ensures forgotten { room_at self.now conference ≡ None
            → is_forgotten self.now conference ≡ true → result ≡ Err HubRefusal.Forgotten }
        ensures found { (r : Kept) → room_at self.now conference ≡ Some r
            → MatchResult result (λ live. AreMembers self.now conference live.now) (λ _. ⊥) }
    {
        if self.rooms.contains_key(u64::from(conference)) {
            Ok(self.concerned.live(conference))
        } else {
            Err(forgotten_or_none(&self.forgotten, conference))
        }
    }

    /// The user that joined a conference as n, and None where nobody did, as the journal has it: it is
    /// read from its start up to that Join. Refused by `NoConference` and `Forgotten`. Takes no
    /// memory.
    pub fn user_of(&self, conference: u32, n: u32) -> Result<Option<u16>, HubRefusal>
        ensures no_conference { room_at self.now conference ≡ None
            → is_forgotten self.now conference ≡ false → result ≡ Err HubRefusal.NoConference }
        ensures forgotten { room_at self.now conference ≡ None
            → is_forgotten self.now conference ≡ true → result ≡ Err HubRefusal.Forgotten }
        ensures found { (r : Kept) → room_at self.now conference ≡ Some r
            → result ≡ Ok (user_of r.ledger.journal n) }
    {
        match self.rooms.get(u64::from(conference)) {
            Some(room) => Ok(user_of(room.journal(), n)),
            None => Err(forgotten_or_none(&self.forgotten, conference)),
        }
    }

    /// The configuration of a conference that stands now, as its room has it. Refused by `NoConference` and
    /// `Forgotten`. Takes no memory.
    pub fn config(&self, conference: u32) -> Result<&Config, HubRefusal>
        ensures no_conference { room_at self.now conference ≡ None
            → is_forgotten self.now conference ≡ false → result ≡ Err HubRefusal.NoConference }
        ensures forgotten { room_at self.now conference ≡ None
            → is_forgotten self.now conference ≡ true → result ≡ Err HubRefusal.Forgotten }
        ensures found { (r : Kept) → room_at self.now conference ≡ Some r
            → MatchResult result (λ config. config.now ≡ config_of r.ledger) (λ _. ⊥) }
    {
        match self.rooms.get(u64::from(conference)) {
            Some(room) => Ok(room.config()),
            None => Err(forgotten_or_none(&self.forgotten, conference)),
        }
    }

    /// What is shown of the ongoing floor requests of a conference, ascending, as its room has it. Refused by
    /// `NoConference` and `Forgotten`. Takes no memory.
    pub fn shown(&self, conference: u32) -> Result<&[SharedInfo], HubRefusal>
        ensures no_conference { room_at self.now conference ≡ None
            → is_forgotten self.now conference ≡ false → result ≡ Err HubRefusal.NoConference }
        ensures forgotten { room_at self.now conference ≡ None
            → is_forgotten self.now conference ≡ true → result ≡ Err HubRefusal.Forgotten }
        ensures found { (r : Kept) → room_at self.now conference ≡ Some r
            → MatchResult result (λ shown. shown.now ≡ shown_of r.ledger) (λ _. ⊥) }
    {
        match self.rooms.get(u64::from(conference)) {
            Some(room) => Ok(room.shown()),
            None => Err(forgotten_or_none(&self.forgotten, conference)),
        }
    }

    /// How many messages were told to n in a conference and not acknowledged, as its room has it: 0 where
    /// nobody joined as n. Refused by `NoConference` and `Forgotten`. Takes no memory.
    pub fn backlog(&self, conference: u32, n: u32) -> Result<u32, HubRefusal>
        ensures no_conference { room_at self.now conference ≡ None
            → is_forgotten self.now conference ≡ false → result ≡ Err HubRefusal.NoConference }
        ensures forgotten { room_at self.now conference ≡ None
            → is_forgotten self.now conference ≡ true → result ≡ Err HubRefusal.Forgotten }
        ensures found { (r : Kept) → room_at self.now conference ≡ Some r
            → result ≡ Ok (backlog_of r.ledger n) }
    {
        match self.rooms.get(u64::from(conference)) {
            Some(room) => Ok(room.backlog(n)),
            None => Err(forgotten_or_none(&self.forgotten, conference)),
        }
    }
}
