//! What the events of a conference change, gathered for whoever watches it.

ghost use Rattle.std.specs.Prelude.{◌≡◌, ℕ, [], OnErr, OnOk, false, nat_eq, true};
ghost use Rattle.floor_hub.specs.Hub.{is_watched};
ghost use Rattle.floor_meetings.specs.Gathering.{Regathers};
ghost use Rattle.floor_turn.specs.Moves.{Moves, nothing_taken};

use crate::server::Server;
use floor_meetings::HubRefusal;

// What was gathered is read of the loop: its `news`.
impl Server {
    /// From now on what each event of a conference changes is gathered, as the loop does.
    pub fn watch(&mut self, conference: u32) -> Result<(), HubRefusal>
        ensures watched { OnOk result (is_watched self.new.meetings.hub.hub conference ≡ true) }
        ensures others { (c : ℕ) → nat_eq conference c ≡ false
            → is_watched self.new.meetings.hub.hub c ≡ is_watched self.old.meetings.hub.hub c }
        ensures left { OnErr result (self.new.meetings.hub ≡ self.old.meetings.hub) }
        ensures moves { Moves nothing_taken self.old.meetings self.new.meetings }
        ensures only { Regathers self.old.meetings self.new.meetings }
        ensures connections { self.new.connections ≡ self.old.connections }
    {
        self.meetings.watch(conference)
    }

    /// What the events of a conference change isn't gathered any more.
    pub fn unwatch(&mut self, conference: u32)
        ensures unwatched { is_watched self.new.meetings.hub.hub conference ≡ false }
        ensures others { (c : ℕ) → nat_eq conference c ≡ false
            → is_watched self.new.meetings.hub.hub c ≡ is_watched self.old.meetings.hub.hub c }
        ensures moves { Moves nothing_taken self.old.meetings self.new.meetings }
        ensures only { Regathers self.old.meetings self.new.meetings }
        ensures connections { self.new.connections ≡ self.old.connections }
    {
        self.meetings.unwatch(conference);
    }

    /// Clears what was gathered.
    pub fn clear_news(&mut self)
        ensures cleared { self.new.meetings.hub.hub.gathered.news ≡ [] }
        ensures watched { (c : ℕ) → is_watched self.new.meetings.hub.hub c
            ≡ is_watched self.old.meetings.hub.hub c }
        ensures moves { Moves nothing_taken self.old.meetings self.new.meetings }
        ensures only { Regathers self.old.meetings self.new.meetings }
        ensures connections { self.new.connections ≡ self.old.connections }
    {
        self.meetings.clear_news();
    }
}
