//! What the program asks for that serves: doors, and what the lines of its administrator say.
#![tactic(auto, using(crate::proofs::Moving::unmoved, crate::proofs::Moving::moved_then, crate::proofs::Moving::moved_and_same, crate::proofs::Attending::unattended, crate::proofs::Attending::attended_then, crate::proofs::Attending::attended_and_same, crate::proofs::Attending::carried_too, crate::proofs::Settled::settled_same, crate::proofs::Settled::settled_then))]

ghost use Rattle.std.specs.Prelude.{◌≡◌, Some, false};
ghost use Rattle.floor_turn.specs.Course.{is_serving};
ghost use Rattle.floor_desk.specs.Attending.{Attends, beside};
ghost use Rattle.floor_turn.specs.Moves.{Moves, nothing_taken};

use crate::adding::{note_port, reserve_port};
use crate::service::Service;
use floor_clients::CloseReason;
use floor_desk::Now;
use floor_machine::Act;
use floor_rpc::Stopped;
use floor_turn::{HubRefusal, NamedBy};
use std::alloc::AllocError;

/// How a service stands.
#[derive(Clone, Copy, Debug, Default)]
pub struct Standing {
    /// The conferences that weren't forgotten.
    pub conferences: u64,
    /// Their live members, and those of them that have lost their connection.
    pub members: u64,
    pub away: u64,
    /// The connections of members, and of control clients.
    pub connections: u64,
    pub clients: u64,
    /// How many members ever joined, and how many events there were.
    pub joins: u64,
    pub events: u64,
}

impl Service {
    /// Has a door listened on at this port, whose headers name users by this.
    pub fn door(&mut self, named_by: NamedBy, port: u16) -> Result<(), AllocError>
        ensures meetings { self.new.server.meetings ≡ self.old.server.meetings }
    {
        self.server.door(named_by, port)
    }

    /// Has a port listened on at which whoever connects is let go at once.
    pub fn health(&mut self, port: u16) -> Result<(), AllocError>
        ensures meetings { self.new.server.meetings ≡ self.old.server.meetings }
    {
        self.server.health(port)
    }

    /// From now on a message of more than so many bytes ends its member's connection, as the server does. To be called before
    /// anybody is accepted.
    pub fn end_longer(&mut self, longest: u32)
        ensures next { self.new.server ≡ record self.old.server { longest = Some longest } }
        ensures callers { self.new.desk.callers ≡ self.old.desk.callers }
    {
        self.server.end_longer(longest);
    }

    /// Has a port listened on for a user of a conference, as for one that was added while it runs. Refused as the server's
    /// `port` is: then no port is listened on.
    pub fn port(&mut self, conference: u32, user: u16, port: u16) -> Result<(), HubRefusal>
        ensures meetings { self.new.server.meetings ≡ self.old.server.meetings }
    {
        if reserve_port(&mut self.desk, conference).is_err() {
            return Err(HubRefusal::Memory);
        }
        self.server.port(conference, user, port)?;
        note_port(&mut self.desk, conference, user, port);
        Ok(())
    }

    /// Does what the administrator of a conference does, as the server does. Whoever watches is told.
    pub fn act(&mut self, conference: u32, act: Act, now: Now) -> Result<(), HubRefusal>
        ensures moves { Moves nothing_taken self.old.server.meetings self.new.server.meetings }
        ensures attends { Attends beside self.old.desk.callers self.new.desk.callers }
    {
        self.desk.pass(now);
        let done = self.server.act(conference, act, now.micros);
        self.follow();
        done
    }

    /// Whether no conference is opened any more.
    pub fn is_draining(&self) -> bool {
        self.desk.is_draining
    }

    /// How many members there ever were, and how many events.
    pub fn totals(&self) -> Stopped {
        Stopped {
            seats: self.desk.joins,
            events: self.desk.events,
        }
    }

    /// How it stands.
    pub fn standing(&self) -> Standing {
        let hub = self.server.hub();
        let millis = self.desk.now.micros / 1_000;
        let mut standing = Standing {
            conferences: self.desk.meetings.len() as u64,
            connections: self.server.members_len() as u64,
            clients: self.desk.callers.len() as u64,
            joins: self.desk.joins,
            events: self.desk.events,
            members: 0,
            away: 0,
        };
        for (conference, _) in &self.desk.meetings {
            for one in hub.members(*conference).unwrap_or(&[]) {
                standing.members = standing.members.saturating_add(1);
                if hub.away_for(one.number, millis).is_some() {
                    standing.away = standing.away.saturating_add(1);
                }
            }
        }
        standing
    }

    /// The first conference that is broken off, where one is.
    pub fn broken(&self) -> Option<u32> {
        for (conference, meeting) in &self.desk.meetings {
            if meeting.is_broken {
                return Some(*conference);
            }
        }
        None
    }

    /// Stops: each client is to be closed once what waits for it is taken, and the server stops.
    pub fn stop(&mut self, now: Now)
        ensures stops { is_serving self.new.server.course ≡ false }
        ensures meetings { self.new.server.meetings ≡ self.old.server.meetings }
        ensures attends { Attends beside self.old.desk.callers self.new.desk.callers }
    {
        self.desk.pass(now);
        self.desk.stop = None;
        self.desk.has_stopped = true;
        self.desk.callers.close_all(CloseReason::Stopped);
        self.settle_all();
        self.server.stop(now.micros);
    }
}
