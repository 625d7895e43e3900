//! What waits for clients is lent to them, once it is there.
#![tactic(auto, using(crate::proofs::Moving::unmoved, crate::proofs::Moving::moved_then, crate::proofs::Moving::moved_and_same, crate::proofs::Attending::unattended, crate::proofs::Attending::attended_then, crate::proofs::Attending::attended_and_same, crate::proofs::Attending::carried_too, crate::proofs::Settled::settled_same, crate::proofs::Settled::settled_then))]

ghost use Rattle.std.specs.Prelude.{◌≡◌};
ghost use Rattle.floor_turn.specs.Moves.{Moves, nothing_taken};
ghost use Rattle.floor_desk.specs.Attending.{Attends, beside};
ghost use Rattle.floor_service.specs.Calls.{Settles};

use crate::service::Service;
use crate::watching::see_to;
use floor_desk::queue_or_close;

impl Service {
    /// The conference of which something was asked is looked at: what its journal has grown by is noted and told.
    pub(crate) fn see_to_touched(&mut self)
        ensures moves { Moves nothing_taken self.old.server.meetings self.new.server.meetings }
        ensures settles { Settles self.old.server self.new.server }
        ensures attends { Attends beside self.old.desk.callers self.new.desk.callers }
    {
        match self.server.take_touched() {
            Some(conference) => see_to(&mut self.server, &mut self.desk, conference),
            None => {}
        }
    }

    /// What a call asked of a conference is noted and told, and lent to whom it was told.
    pub(crate) fn follow(&mut self)
        ensures moves { Moves nothing_taken self.old.server.meetings self.new.server.meetings }
        ensures settles { Settles self.old.server self.new.server }
        ensures attends { Attends beside self.old.desk.callers self.new.desk.callers }
    {
        self.see_to_touched();
        self.settle_told();
    }

    /// Where clients were told something, that is lent to them.
    pub(crate) fn settle_told(&mut self)
        ensures meetings { self.new.server.meetings ≡ self.old.server.meetings }
        ensures settles { Settles self.old.server self.new.server }
        ensures attends { Attends beside self.old.desk.callers self.new.desk.callers }
    {
        if !self.desk.has_told {
            return;
        }
        self.desk.has_told = false;
        self.settle_all();
    }

    /// What waits for each client is lent to it.
    pub(crate) fn settle_all(&mut self)
        ensures meetings { self.new.server.meetings ≡ self.old.server.meetings }
        ensures settles { Settles self.old.server self.new.server }
        ensures attends { Attends beside self.old.desk.callers self.new.desk.callers }
    {
        for index in 0..self.desk.callers.len() {
            let socket = self.desk.callers.slot_of(index);
            self.settle(socket);
        }
    }

    /// A client is answered what its answer waited for, and what waits for it is lent to it.
    pub(crate) fn settle(&mut self, socket: usize)
        ensures meetings { self.new.server.meetings ≡ self.old.server.meetings }
        ensures settles { Settles self.old.server self.new.server }
        ensures attends { Attends beside self.old.desk.callers self.new.desk.callers }
    {
        self.desk.answer_told(socket);
        queue_or_close(&mut self.desk, socket);
        let Some(lending) = self.desk.lending(socket) else {
            return;
        };
        self.server
            .lend_client(socket, lending.has_bytes, lending.is_held, lending.ends);
    }
}
