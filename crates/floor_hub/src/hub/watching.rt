//! What the events of a conference change, gathered for whoever watches it.

ghost use Rattle.std.specs.Prelude.{◌≡◌, ◌⊎◌, ℕ, [], false, true, nat_eq, None, IfErr, OnErr, OnOk};
ghost use Rattle.floor_hub.specs.Hub.{is_forgotten, is_watched, room_at};
ghost use Rattle.floor_hub.specs.Rooms.{forgotten_or_none};

use crate::forgotten::forgotten_or_none;
use crate::hub::Hub;
use crate::news::News;
use crate::refusal::HubRefusal;

impl Hub {
    /// From now on what each event of a conference changes is gathered, until `unwatch`. Refused by `NoConference`
    /// and `Forgotten`; after `Memory` nothing has changed.
    pub fn watch(&mut self, conference: u32) -> Result<(), HubRefusal>
        ensures watched { OnOk result (is_watched self.new conference ≡ true) }
        ensures others { (c : ℕ) → nat_eq conference c ≡ false
            → is_watched self.new c ≡ is_watched self.old c }
        ensures next { self.new ≡ record self.old {
          gathered = record self.old.gathered {
            watched = self.new.gathered.watched;
          };
        } }
        ensures refused { IfErr result (λ refusal. (refusal ≡ HubRefusal.Memory)
            ⊎ ((room_at self.old conference ≡ None)
            × (refusal ≡ forgotten_or_none (is_forgotten self.old conference)))) }
        ensures left { OnErr result (self.new ≡ self.old) }
    {
        if !self.rooms.contains_key(u64::from(conference)) {
            return Err(forgotten_or_none(&self.forgotten, conference));
        }
        match self.gathered.watch(conference) {
            Ok(()) => Ok(()),
            Err(_) => Err(HubRefusal::Memory),
        }
    }

    /// What the events of a conference change isn't gathered any more. Takes no memory.
    pub fn unwatch(&mut self, conference: u32)
        ensures unwatched { is_watched self.new conference ≡ false }
        ensures others { (c : ℕ) → nat_eq conference c ≡ false
            → is_watched self.new c ≡ is_watched self.old c }
        ensures next { self.new ≡ record self.old {
          gathered = record self.old.gathered {
            watched = self.new.gathered.watched;
          };
        } }
    {
        self.gathered.unwatch(conference);
    }

    /// Whether what the events of a conference change is gathered. Takes no memory.
    pub fn is_watched(&self, conference: u32) -> bool
        ensures value { result ≡ is_watched self.now conference }
    {
        self.gathered.watches(conference)
    }

    /// What was gathered since it was cleared, one for each event of a conference that was watched, in order. Takes
    /// no memory.
    pub fn news(&self) -> &[News]
        ensures value { result.now ≡ self.now.gathered.news }
    {
        self.gathered.news()
    }

    /// Whether memory was refused for what an event changed since it was cleared, so that it isn't among the
    /// news. Takes no memory.
    pub fn has_missed(&self) -> bool
        ensures value { result ≡ self.now.gathered.missed }
    {
        self.gathered.missed()
    }

    /// Clears what was gathered. Takes no memory, and gives none back: what is gathered next needs none
    /// for the list.
    pub fn clear_news(&mut self)
        ensures next { self.new ≡ record self.old {
          gathered = record self.old.gathered {
            news = [];
            missed = false;
          };
        } }
    {
        self.gathered.clear();
    }
}
