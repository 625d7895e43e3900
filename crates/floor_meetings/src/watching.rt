//! What the events of a conference change, gathered for whoever watches it.

ghost use Rattle.std.specs.Prelude.{◌≡◌, ℕ, [], OnErr, OnOk, false, nat_eq, true};
ghost use Rattle.floor_hub.specs.Hub.{is_watched};
ghost use Rattle.floor_loop.specs.Done.{NoSteps};
ghost use Rattle.floor_meetings.specs.Calls.{Quiet};
ghost use Rattle.floor_meetings.specs.Gathering.{Regathers};

use crate::meetings::Meetings;
use floor_loop::HubRefusal;

// What was gathered is read of the loop: its `news`.
impl Meetings {
    /// From now on what each event of a conference changes is gathered, as the loop does.
    pub fn watch(&mut self, conference: u32) -> Result<(), HubRefusal>
        ensures watched { OnOk result (is_watched self.new.hub.hub conference ≡ true) }
        ensures others { (c : ℕ) → nat_eq conference c ≡ false
            → is_watched self.new.hub.hub c ≡ is_watched self.old.hub.hub c }
        ensures left { OnErr result (self.new.hub ≡ self.old.hub) }
        ensures quiet { Quiet NoSteps self.old.hub self.new.hub }
        ensures only { Regathers self.old self.new }
    {
        self.hub.watch(conference)
    }

    /// What the events of a conference change isn't gathered any more.
    pub fn unwatch(&mut self, conference: u32)
        ensures unwatched { is_watched self.new.hub.hub conference ≡ false }
        ensures others { (c : ℕ) → nat_eq conference c ≡ false
            → is_watched self.new.hub.hub c ≡ is_watched self.old.hub.hub c }
        ensures quiet { Quiet NoSteps self.old.hub self.new.hub }
        ensures only { Regathers self.old self.new }
    {
        self.hub.unwatch(conference);
    }

    /// Clears what was gathered.
    pub fn clear_news(&mut self)
        ensures cleared { self.new.hub.hub.gathered.news ≡ [] }
        ensures watched { (c : ℕ) → is_watched self.new.hub.hub c ≡ is_watched self.old.hub.hub c }
        ensures quiet { Quiet NoSteps self.old.hub self.new.hub }
        ensures only { Regathers self.old self.new }
    {
        self.hub.clear_news();
    }
}
