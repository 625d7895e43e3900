//! Where nothing is to be done: all that is to be is done, and the time is wanted when the next thing is due.

use crate::fault::{Fault, demand};
use crate::model::{Course, LATE, Model};
use crate::peer::Stage;
use crate::serving::SHUT;
use crate::world::{Holder, Listener};
use floor_turn::{Departure, Server};

impl Model {
    /// Nothing is to be done, and the time is wanted then.
    pub fn rest(&self, server: &Server, due: Option<u64>) -> Result<(), Fault> {
        let has_ended = self.course == Course::Ended;
        let is_over = self.world.is_empty() && (has_ended || self.course == Course::Closing);
        demand(is_over == has_ended, "it ends too early or too late", 0)?;
        demand(self.logged.is_empty(), "the log isn't told", 0)?;
        let mut first = self.away_until()?;
        for (slot, holder) in self.world.slots().iter().enumerate() {
            first = first.min(match holder {
                Holder::Nobody => u64::MAX,
                Holder::Listener(listener) => self.listener_until(slot, listener)?,
                Holder::Peer(number) => self.peer_until(*number, server)?,
            });
        }
        let due = due.unwrap_or(u64::MAX);
        let is_in_time = due <= first.saturating_add(LATE);
        demand(self.told < due, "it rests, and its time has come", 0)?;
        demand(
            is_in_time,
            "a time that is due isn't wanted",
            first as usize,
        )
    }

    /// Nobody has been away for longer than it may; and when the next one has been.
    fn away_until(&self) -> Result<u64, Fault> {
        let mut first = u64::MAX;
        for meeting in self.meetings.iter() {
            for member in meeting.members() {
                if let Some(away) = member.away {
                    let until = meeting.stays_until(away, self.grace);
                    let is_late = until.saturating_add(LATE) <= self.told;
                    demand(!is_late, "who is away stays too long", member.peer)?;
                    first = first.min(until);
                }
            }
        }
        Ok(first)
    }

    /// Nobody waits to be accepted, unless no accept is to be tried before this time.
    fn listener_until(&self, slot: usize, listener: &Listener) -> Result<u64, Fault> {
        let is_tried = listener.again.is_none_or(|again| self.told < again);
        let waits = listener.again.is_none() && !listener.queue.is_empty();
        demand(is_tried, "a failed accept isn't tried again", slot)?;
        demand(!self.is_over(listener.place), "who listens isn't to", slot)?;
        demand(!waits, "somebody waits to be accepted", slot)?;
        Ok(listener.again.unwrap_or(u64::MAX))
    }

    /// Nothing is to be done of a peer before this time.
    fn peer_until(&self, number: usize, server: &Server) -> Result<u64, Fault> {
        let (life, peer) = (self.life(number)?, self.world.peer(number)?);
        let untaken = self.untaken(life);
        if let Some(since) = life.since {
            let until = since.saturating_add(SHUT);
            let is_late = until.saturating_add(LATE) <= self.told;
            let has_failed = peer.has_failed || life.end == Some(Departure::Reset);
            let has_bytes = untaken != 0 && !has_failed;
            demand(has_bytes, "who is to be shut isn't", number)?;
            demand(life.is_blocked, "who is to be shut isn't told all", number)?;
            demand(!is_late, "whose time is over isn't shut", number)?;
            return Ok(until);
        }
        let is_read = peer.unread() == 0 && !peer.is_over();
        let has_bytes = untaken != 0 || !server.lent(life.slot).is_empty();
        let is_written = !has_bytes || life.is_blocked;
        demand(is_read, "what came isn't read", number)?;
        demand(!peer.waits(life), "a whole message isn't served", number)?;
        demand(is_written, "what is told isn't written", number)?;
        match life.stage {
            Stage::AtDoor(until) => {
                demand(self.told < until, "somebody stays at a door", number)?;
                Ok(until)
            }
            Stage::Refused => Err(Fault::of("somebody stays who isn't let in", number)),
            Stage::Member(_) => Ok(u64::MAX),
        }
    }
}
