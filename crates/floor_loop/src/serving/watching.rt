//! What the events of a conference change, gathered for whoever watches it.

ghost use Rattle.std.specs.Prelude.{◌≡◌, ◌⊎◌, ℕ, [], false, true, nat_eq, None, IfErr, OnErr, OnOk};
ghost use Rattle.floor_hub.specs.Hub.{is_forgotten, is_watched, room_at};
ghost use Rattle.floor_hub.specs.Rooms.{forgotten_or_none};

use super::Loop;
use floor_hub::{HubRefusal, News};

impl Loop {
    /// From now on what each event of a conference changes is gathered, until `unwatch`, as the hub does. Refused by
    /// `NoConference` and `Forgotten`; after `Memory` nothing has changed.
    pub fn watch(&mut self, conference: u32) -> Result<(), HubRefusal>
        ensures watched { OnOk result (is_watched self.new.hub conference ≡ true) }
        ensures others { (c : ℕ) → nat_eq conference c ≡ false
            → is_watched self.new.hub c ≡ is_watched self.old.hub c }
        ensures next { self.new ≡ record self.old {
          hub = record self.old.hub {
            gathered = record self.old.hub.gathered { watched = self.new.hub.gathered.watched };
          };
        } }
        ensures refused { IfErr result (λ refusal. (refusal ≡ HubRefusal.Memory)
            ⊎ ((room_at self.old.hub conference ≡ None)
            × (refusal ≡ forgotten_or_none (is_forgotten self.old.hub conference)))) }
        ensures left { OnErr result (self.new ≡ self.old) }
    {
        self.hub.watch(conference)
    }

    /// What the events of a conference change isn't gathered any more. Takes no memory.
    pub fn unwatch(&mut self, conference: u32)
        ensures unwatched { is_watched self.new.hub conference ≡ false }
        ensures others { (c : ℕ) → nat_eq conference c ≡ false
            → is_watched self.new.hub c ≡ is_watched self.old.hub c }
        ensures next { self.new ≡ record self.old {
          hub = record self.old.hub {
            gathered = record self.old.hub.gathered { watched = self.new.hub.gathered.watched };
          };
        } }
    {
        self.hub.unwatch(conference);
    }

    /// Whether what the events of a conference change is gathered. Takes no memory.
    pub fn is_watched(&self, conference: u32) -> bool
        ensures value { result ≡ is_watched self.now.hub conference }
    {
        self.hub.is_watched(conference)
    }

    /// What was gathered since it was cleared, by however many calls: one for each event of a conference that was
    /// watched, in order. An event's time is that of the call that added it. Takes no memory.
    pub fn news(&self) -> &[News]
        ensures value { result.now ≡ self.now.hub.gathered.news }
    {
        self.hub.news()
    }

    /// Whether memory was refused for what an event changed since it was cleared, so that it isn't among the
    /// news. Takes no memory.
    pub fn has_missed(&self) -> bool
        ensures value { result ≡ self.now.hub.gathered.missed }
    {
        self.hub.has_missed()
    }

    /// Clears what was gathered. Takes no memory.
    pub fn clear_news(&mut self)
        ensures next { self.new ≡ record self.old {
          hub = record self.old.hub {
            gathered = record self.old.hub.gathered { news = []; missed = false };
          };
        } }
    {
        self.hub.clear_news();
    }
}
