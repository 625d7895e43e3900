//! The administrator says a message for a user of a conference.

ghost use Rattle.std.specs.Prelude.{◌≡◌, nat_eq, IfErr, IfOk, MatchResult};
ghost use Rattle.indexmap.specs.IndexMap.{get};
ghost use Rattle.indexmap.specs.IndexSet.{contains};
ghost use Rattle.floor_room.specs.Room.{Room as Kept};
ghost use Rattle.floor_hub.specs.Calls.{Fails, Turns};
ghost use Rattle.floor_hub.specs.Concerned.{Concerns};
ghost use Rattle.floor_hub.specs.Connections.{StayLive};
ghost use Rattle.floor_hub.specs.Gathers.{Gathers};
ghost use Rattle.floor_hub.specs.Hub.{room_at};
ghost use Rattle.floor_hub.specs.Left.{LeftAt};
ghost use Rattle.floor_hub.specs.Rooms.{OneRoom, by_broken, ended_or_none, refusal_in, say_event};
ghost use Rattle.floor_hub.specs.Shown.{Shows};
ghost use Rattle.floor_hub.specs.StandsFor.{StandsFor};
ghost use Rattle.floor_hub.specs.World.{World, answer_said, is_message};
ghost use Rattle.floor_hub.specs.declared.step.Answer.TheVariants.{Said as HasSaid};
ghost use Rattle.floor_hub.specs.declared.step.Step.TheVariants.{Say};
ghost use Rattle.floor_hub.specs.steps.Attached.{ConcernedBy, Tells, always, live_in};
ghost use Rattle.floor_hub.specs.steps.Found.{AtRoom};
ghost use Rattle.floor_hub.specs.steps.Handed.{HandedBy, Hands};
ghost use Rattle.floor_hub.specs.steps.Serving.{SaidIn};

use crate::attached::is_shut;
use crate::concerned::Concerned;
use crate::forgotten::ended_or_none;
use crate::hub::Hub;
use crate::refusal::HubRefusal;
use floor_numbered::Numbered;
use floor_room::{Effects, Frame, Refusal, Room, RoomRefusal, Said};
use floor_wire::HEADER_LEN;
use indexmap::IndexSet;
use std::alloc::Global;

impl Hub {
    /// Says a message for a user, who needs no connection, and gives its place in the journal and what
    /// answers it, which no connection is told. Refused by `NoConference`, else as the room refuses it:
    /// `Broken`, `Ended`, `JournalFull`, `NoUser`; then by `BadMessage`, where the bytes aren't exactly one
    /// message. A conference that was forgotten has ended. After a `Memory` the room is broken off.
    pub fn say(
        &mut self,
        alloc: Global,
        conference: u32,
        user: u16,
        message: &[u8],
    ) -> Result<Said, HubRefusal>
        ensures next { (w : World) → StandsFor self.old w → MatchResult result
            (λ said. Turns self.new w (Say conference user message.now) (HasSaid said))
            (λ r. Fails self.new w (Say conference user message.now) r) }
        ensures said { IfOk result (λ said. (r : Kept) × (room_at self.old conference ≡ Some r)
            × (said ≡ answer_said r.ledger user message.now)) }
        ensures room { OneRoom by_broken (refusal_in result) (say_event user message.now)
            conference self.old self.new }
        ensures connections { StayLive self.old.connections self.new.connections }
        ensures left { IfErr result (LeftAt (say_event user message.now) conference
            self.old self.new) }
        ensures concerned { Concerns self.old self.new }
        ensures changed { Shows self.old self.new }
        ensures forgotten { self.new.forgotten ≡ self.old.forgotten }
        ensures gathered { Gathers self.old self.new }
    {
        let before = self.gathered.before(&self.rooms, conference);
        let said = say_at(
            alloc,
            &mut self.rooms,
            &self.forgotten,
            &mut self.concerned,
            &mut self.effects,
            conference,
            user,
            message,
        );
        self.gathered.gather(&self.rooms, before, &self.effects);
        said
    }
}

/// Says a message for a user in the room of a conference.
fn say_at(
    alloc: Global,
    rooms: &mut Numbered<Room>,
    forgotten: &IndexSet<u32>,
    concerned: &mut Concerned,
    effects: &mut Effects,
    conference: u32,
    user: u16,
    message: &[u8],
) -> Result<Said, HubRefusal>
    ensures room { AtRoom (SaidIn user message.now)
        (ended_or_none (contains nat_eq forgotten.now conference)) (get nat_eq rooms.old) (get nat_eq rooms.new) conference result }
    ensures concerned { ConcernedBy (always (live_in concerned.old conference))
        effects.new.told.items (get nat_eq rooms.old) (get nat_eq rooms.new) conference
        concerned.old concerned.new }
    ensures changed { HandedBy (get nat_eq rooms.old) (get nat_eq rooms.new) conference
        effects.new.changed.items }
{
    match rooms.get_mut(u64::from(conference)) {
        Some(room) => {
            let was_shut = is_shut(room);
            let said = say_in(alloc, room, user, message, effects);
            concerned.name(conference, room, was_shut, effects.told.as_slice());
            said
        }
        None => {
            concerned.nobody();
            effects.clear();
            Err(ended_or_none(forgotten, conference))
        }
    }
}

/// Says a message for a user in a room.
fn say_in(
    alloc: Global,
    room: &mut Room,
    user: u16,
    message: &[u8],
    effects: &mut Effects,
) -> Result<Said, HubRefusal>
    ensures said { SaidIn user message.now room.old room.new result }
    ensures told { Tells room.old room.new effects.new.told.items }
    ensures changed { Hands room.old room.new effects.new.changed.items }
{
    effects.clear();
    match room.say_refusal(user) {
        None => {}
        Some(why) => return Err(HubRefusal::ByRoom(why)),
    }
    if !is_message(message) {
        return Err(HubRefusal::BadMessage);
    }
    match Frame::of(alloc, message) {
        Ok(Some(frame)) => match room.say(user, frame, effects) {
            Ok(said) => Ok(said),
            Err(why) => Err(HubRefusal::ByRoom(why)),
        },
        // They are one message: it is memory that was refused.
        Ok(None) | Err(_) => {
            room.break_off();
            Err(HubRefusal::ByRoom(RoomRefusal::Refused(Refusal::Memory)))
        }
    }
}

/// Whether the bytes are exactly one message.
fn is_message(bytes: &[u8]) -> bool
    ensures { result ≡ is_message bytes.now }
{
    if bytes.len() < HEADER_LEN {
        return false;
    }
    let units = u16::from_be_bytes([bytes[2], bytes[3]]);
    bytes.len() == HEADER_LEN + 4 * usize::from(units)
}
