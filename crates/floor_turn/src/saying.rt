//! What is said for users.

ghost use Rattle.std.specs.Prelude.{◌≡◌, IfOk, Some};
ghost use Rattle.floor_room.specs.Room.{Room};
ghost use Rattle.floor_hub.specs.Hub.{room_at};
ghost use Rattle.floor_hub.specs.Rooms.{OneRoom, by_broken, refusal_in, say_event};
ghost use Rattle.floor_hub.specs.World.{answer_said};
ghost use Rattle.floor_hub.specs.declared.step.Step.TheVariants.{Say};
ghost use Rattle.floor_loop.specs.Done.{AtMost};
ghost use Rattle.floor_meetings.specs.Calls.{Quiet};
ghost use Rattle.floor_connections.specs.Steps.{Steps};
ghost use Rattle.floor_turn.specs.Moves.{Moves, nothing_taken};

use crate::opening::see_to_phase;
use crate::server::Server;
use floor_meetings::{HubRefusal, Said};

impl Server {
    /// Says a message for a user of a conference, who needs no socket, as the hub does: gives its place in the journal and
    /// what answers it, which no member is told.
    pub fn say(
        &mut self,
        conference: u32,
        user: u16,
        message: &[u8],
        now: u64,
    ) -> Result<Said, HubRefusal>
        ensures quiet { Quiet (AtMost 1 (Say conference user message.now))
            self.old.meetings.hub self.new.meetings.hub }
        ensures said { IfOk result (λ said. (r : Room)
            × (room_at self.old.meetings.hub.hub conference ≡ Some r)
            × (said ≡ answer_said r.ledger user message.now)) }
        ensures room { OneRoom by_broken (refusal_in result) (say_event user message.now)
            conference self.old.meetings.hub.hub self.new.meetings.hub.hub }
        ensures touched { self.new.touched ≡ Some conference }
        ensures members { self.new.meetings.members ≡ self.old.meetings.members }
        ensures moves { Moves nothing_taken self.old.meetings self.new.meetings }
        ensures steps { Steps self.old.connections.sockets self.new.connections.sockets }
    {
        self.connections.pass(now);
        self.touched = Some(conference);
        let said = self.meetings.say(
            self.alloc,
            conference,
            user,
            message,
            self.connections.millis(),
        );
        see_to_phase(&mut self.connections, &self.meetings, conference);
        said
    }
}
