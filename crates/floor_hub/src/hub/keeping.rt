//! How many events of a conference are kept, before which nothing that a later one told is handed out.

ghost use Rattle.std.specs.Prelude.{◌≡◌, IfErr, Err, None, Ok, OnErr, OnOk, Some, false, nat_eq, true, ℕ};
ghost use Rattle.indexmap.specs.IndexMap.{get};
ghost use Rattle.indexmap.specs.IndexSet.{contains};
ghost use Rattle.floor_room.specs.Room.{Room as Kept, is_kept};
ghost use Rattle.floor_hub.specs.Hub.{is_forgotten, room_at};
ghost use Rattle.floor_hub.specs.Rooms.{KeepsIn, SameHub, all_so_far, all_to_come, forgotten_or_none, so_many};
ghost use Rattle.floor_hub.specs.StandsFor.{StandsFor};
ghost use Rattle.floor_hub.specs.World.{World};
ghost use Rattle.floor_hub.specs.steps.Found.{AtRoom};
ghost use Rattle.floor_hub.specs.steps.KeptBy.{KeptIn, kept_by};

use crate::forgotten::forgotten_or_none;
use crate::hub::Hub;
use crate::refusal::HubRefusal;
use floor_numbered::Numbered;
use floor_room::Room;
use indexmap::IndexSet;

/// What becomes of how many events of a room are kept.
#[derive(Clone, Copy, Debug)]
enum Keeping {
    /// It is those so far.
    Begins,
    /// It is so many.
    Comes(u32),
    /// It is all, those to come too.
    Ends,
}

// Each event of a conference is written down somewhere before anybody learns of it.
impl Hub {
    /// From now on what an event of a conference tells is handed out once the event is kept; those so far
    /// are. Refused by `NoConference` and `Forgotten`, and nothing has changed. Takes no memory.
    pub fn begin_keeping(&mut self, conference: u32) -> Result<(), HubRefusal>
        ensures kept { OnOk result (KeepsIn all_so_far conference self.old self.new) }
        ensures refused { IfErr result (λ refusal. (room_at self.old conference ≡ None)
            × (refusal ≡ forgotten_or_none (is_forgotten self.old conference))) }
        ensures left { OnErr result (SameHub self.old self.new) }
        ensures stands { (w : World) → StandsFor self.old w → StandsFor self.new w }
        ensures concerned { self.new.concerned ≡ self.old.concerned }
        ensures changed { self.new.changed ≡ self.old.changed }
        ensures forgotten { self.new.forgotten ≡ self.old.forgotten }
        ensures gathered { self.new.gathered ≡ self.old.gathered }
    {
        self.set_kept(conference, Keeping::Begins)
    }

    /// Takes it that so many of the events of a conference are kept, if fewer were before. Where all are
    /// that told something, what they told is handed out to those for whom it waits; they aren't named.
    /// Refused by `NoConference` and `Forgotten`, and nothing has changed. Takes no memory.
    pub fn keep(&mut self, conference: u32, events: u32) -> Result<(), HubRefusal>
        ensures kept { OnOk result (KeepsIn (so_many events) conference self.old self.new) }
        ensures refused { IfErr result (λ refusal. (room_at self.old conference ≡ None)
            × (refusal ≡ forgotten_or_none (is_forgotten self.old conference))) }
        ensures left { OnErr result (SameHub self.old self.new) }
        ensures stands { (w : World) → StandsFor self.old w → StandsFor self.new w }
        ensures concerned { self.new.concerned ≡ self.old.concerned }
        ensures changed { self.new.changed ≡ self.old.changed }
        ensures forgotten { self.new.forgotten ≡ self.old.forgotten }
        ensures gathered { self.new.gathered ≡ self.old.gathered }
    {
        self.set_kept(conference, Keeping::Comes(events))
    }

    /// What an event of a conference tells is handed out at once again: its events are kept no more.
    /// Refused by `NoConference` and `Forgotten`, and nothing has changed. Takes no memory.
    pub fn end_keeping(&mut self, conference: u32) -> Result<(), HubRefusal>
        ensures kept { OnOk result (KeepsIn all_to_come conference self.old self.new) }
        ensures refused { IfErr result (λ refusal. (room_at self.old conference ≡ None)
            × (refusal ≡ forgotten_or_none (is_forgotten self.old conference))) }
        ensures left { OnErr result (SameHub self.old self.new) }
        ensures stands { (w : World) → StandsFor self.old w → StandsFor self.new w }
        ensures concerned { self.new.concerned ≡ self.old.concerned }
        ensures changed { self.new.changed ≡ self.old.changed }
        ensures forgotten { self.new.forgotten ≡ self.old.forgotten }
        ensures gathered { self.new.gathered ≡ self.old.gathered }
    {
        self.set_kept(conference, Keeping::Ends)
    }

    /// Whether all that was told in a conference is kept, so that it is handed out. Refused by
    /// `NoConference` and `Forgotten`. Takes no memory.
    pub fn is_kept(&self, conference: u32) -> Result<bool, HubRefusal>
        ensures no_conference { room_at self.now conference ≡ None
            → is_forgotten self.now conference ≡ false → result ≡ Err HubRefusal.NoConference }
        ensures forgotten { room_at self.now conference ≡ None
            → is_forgotten self.now conference ≡ true → result ≡ Err HubRefusal.Forgotten }
        ensures found { (r : Kept) → room_at self.now conference ≡ Some r
            → result ≡ Ok (is_kept r) }
    {
        match self.rooms.get(u64::from(conference)) {
            Some(room) => Ok(room.is_kept()),
            None => Err(forgotten_or_none(&self.forgotten, conference)),
        }
    }

    fn set_kept(&mut self, conference: u32, keeping: Keeping) -> Result<(), HubRefusal>
        ensures kept { OnOk result (KeepsIn (kept_by keeping) conference self.old self.new) }
        ensures refused { IfErr result (λ refusal. (room_at self.old conference ≡ None)
            × (refusal ≡ forgotten_or_none (is_forgotten self.old conference))) }
        ensures left { OnErr result (SameHub self.old self.new) }
        ensures stands { (w : World) → StandsFor self.old w → StandsFor self.new w }
        ensures concerned { self.new.concerned ≡ self.old.concerned }
        ensures changed { self.new.changed ≡ self.old.changed }
        ensures forgotten { self.new.forgotten ≡ self.old.forgotten }
        ensures gathered { self.new.gathered ≡ self.old.gathered }
    {
        keep_at(&mut self.rooms, &self.forgotten, conference, keeping)
    }
}

/// Sets how many events of the room of a conference are kept.
fn keep_at(
    rooms: &mut Numbered<Room>,
    forgotten: &IndexSet<u32>,
    conference: u32,
    keeping: Keeping,
) -> Result<(), HubRefusal>
    ensures room { AtRoom (KeptIn keeping)
        (forgotten_or_none (contains nat_eq forgotten.now conference)) (get nat_eq rooms.old)
        (get nat_eq rooms.new) conference result }
{
    match rooms.get_mut(u64::from(conference)) {
        Some(room) => {
            keep_in(room, keeping);
            Ok(())
        }
        None => Err(forgotten_or_none(forgotten, conference)),
    }
}

/// Sets how many events of a room are kept.
fn keep_in(room: &mut Room, keeping: Keeping)
    ensures next { room.new ≡ record room.old { kept = kept_by keeping room.old } }
{
    match keeping {
        Keeping::Begins => room.begin_keeping(),
        Keeping::Comes(events) => room.keep(events),
        Keeping::Ends => room.end_keeping(),
    }
}
