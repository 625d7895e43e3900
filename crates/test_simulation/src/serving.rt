//! Who may be read, written to and shut, and what follows from it.

use crate::fault::{Fault, demand};
use crate::model::{Cause, Course, LATE, Model};
use crate::peer::{Life, Stage};
use floor_turn::{Departure, Entry};

/// How many turns more another conference may have than a socket's own has since it waits for one.
const MAX_OTHERS: u64 = 4;

/// How long a socket that is to be shut down may stay, in microseconds.
pub const SHUT: u64 = 10_000_000;

impl Model {
    /// The poll told that a peer's socket may be read.
    pub fn note_word(&mut self, number: usize, ends: bool) -> Result<(), Fault> {
        let turns = self.turns;
        let life = self.life_mut(number)?;
        if !life.is_readable {
            life.turns = turns;
        }
        life.is_readable = true;
        life.is_told_of_end = life.is_told_of_end || ends;
        Ok(())
    }

    /// Whether no other conference had many more turns than a peer's own since it waits for one.
    fn is_fair(&self, number: usize, life: &Life) -> bool {
        let own = self.group(number);
        let mut since = [0u64; 4];
        for group in 0..4usize {
            since[group] = self.turns[group].saturating_sub(life.turns[group]);
        }
        since
            .iter()
            .all(|turns| *turns <= since[own].saturating_add(MAX_OTHERS))
    }

    /// A peer may be read from.
    pub fn may_read(&self, number: usize) -> Result<(), Fault> {
        let life = self.life(number)?;
        let waits = self.world.peer(number)?.waits(life);
        demand(life.since.is_none(), "who is over is read", number)?;
        demand(life.is_readable, "it is read where nothing is", number)?;
        demand(!waits, "it is read before it is served", number)?;
        demand(self.is_fair(number, life), "others have more turns", number)
    }

    /// Bytes came of a peer.
    pub fn hear(&mut self, number: usize, is_full: bool) -> Result<(), Fault> {
        let turns = self.turns;
        let life = self.life_mut(number)?;
        life.turns = turns;
        life.is_readable = life.is_told_of_end || is_full;
        match life.stage {
            Stage::AtDoor(_) => self.hear_at_door(number),
            Stage::Member(_) | Stage::Refused => Ok(()),
        }
    }

    /// A read of a peer found its end or its failure.
    pub fn hear_end(&mut self, number: usize, end: Departure) -> Result<(), Fault> {
        let life = self.life_mut(number)?;
        match life.stage {
            Stage::AtDoor(_) => self.turn_away(number, Some("NoHeader")),
            Stage::Member(_) | Stage::Refused => {
                life.end = Some(life.end.unwrap_or(end));
                self.end(number)
            }
        }
    }

    /// These bytes may be written to a peer.
    pub fn may_write(&self, number: usize, lent: &[u8]) -> Result<(), Fault> {
        let life = self.life(number)?;
        let is_called_for = match self.member_of(life) {
            Some(member) => !lent.is_empty() && member.rest().starts_with(lent),
            None => false,
        };
        demand(!life.is_blocked, "who takes nothing is written to", number)?;
        demand(is_called_for, "what isn't called for is written", number)
    }

    /// A peer's socket took so many of the bytes that were lent.
    pub fn note_taken(&mut self, number: usize, taken: usize, lent: usize) -> Result<(), Fault> {
        let life = self.life_mut(number)?;
        life.is_blocked = taken < lent;
        if let Stage::Member(who) = life.stage {
            let member = self.meeting_mut(who.conference)?.member_mut(who.n)?;
            member.taken = member.taken.saturating_add(taken);
        }
        Ok(())
    }

    /// A write to a peer failed: it may be read, to its end, where it still is.
    pub fn note_failure(&mut self, number: usize) -> Result<(), Fault> {
        match self.life(number)?.since {
            None => self.note_word(number, true),
            Some(_) => Ok(()),
        }
    }

    /// A peer's socket may be shut.
    pub fn may_shut(&self, number: usize) -> Result<(), Fault> {
        let life = self.life(number)?;
        let Some(since) = life.since else {
            let is_late = matches!(life.stage, Stage::AtDoor(until) if until <= self.told);
            return demand(is_late, "who isn't to be shut is", number);
        };
        let peer = self.world.peer(number)?;
        let waits = life.end.is_some() && peer.waits(life);
        let is_late = since.saturating_add(SHUT) <= self.told.saturating_add(LATE);
        let has_failed = peer.has_failed || life.end == Some(Departure::Reset);
        let is_written = is_late || has_failed || self.untaken(life) == 0;
        let is_served = !waits || self.is_cut_off(life);
        demand(is_served, "who is shut isn't served to its end", number)?;
        demand(is_written, "who is shut isn't told all", number)
    }

    /// Why the socket of a peer is shut.
    fn departure_of(&self, number: usize) -> Result<Departure, Fault> {
        let life = self.life(number)?;
        let is_inside = !self.world.peer(number)?.unserved(life).is_empty();
        Ok(match (life.stage, life.end) {
            (Stage::Member(who), _) if !self.is_open(who.conference) => Departure::Closed,
            (Stage::Member(_), _) if self.is_cut_off(life) => Departure::Slow,
            (_, Some(Departure::EndOfStream)) if is_inside => Departure::InsideMessage,
            (_, Some(end)) => end,
            (_, None) => Departure::Stopped,
        })
    }

    /// A peer's socket is shut now.
    pub fn leaves(&mut self, number: usize) -> Result<(), Fault> {
        self.cause = Cause::Leaves {
            peer: number,
            departure: self.departure_of(number)?,
        };
        let slot = self.life(number)?.slot;
        self.world.free(slot);
        // Whoever is shut hears the end.
        self.world.peer_mut(number)?.end();
        Ok(())
    }

    /// Its member has left, or stays, away, where it was lost and its user has no other there.
    pub fn has_left(&mut self, number: usize, departure: Departure) -> Result<(), Fault> {
        let stage = self.life(number)?.stage;
        self.world.peer_mut(number)?.life = None;
        let Stage::Member(who) = stage else {
            let is_late = matches!(stage, Stage::AtDoor(_)) && self.course != Course::Closing;
            return self.turn_away(number, if is_late { Some("NoHeader") } else { None });
        };
        let is_lost = match departure {
            Departure::Reset | Departure::InsideMessage => true,
            Departure::EndOfStream => self.is_for_all,
            _ => false,
        };
        let others = self.count(who.conference, Some(who.user));
        let may_stay = self.grace != 0 && is_lost && others == 0;
        let told = self.told;
        let meeting = self.meeting_mut(who.conference)?;
        let stays = meeting.is_open() && meeting.live().contains(&who.n);
        demand(stays == may_stay, "who may stay leaves, or stays", number)?;
        if stays {
            meeting.member_mut(who.n)?.away = Some(told);
        }
        let peer = self.world.peer(number)?.named(number);
        self.log(if may_stay {
            Entry::Away {
                peer,
                who,
                departure,
            }
        } else {
            Entry::Left {
                peer,
                who,
                departure,
            }
        })
    }
}
