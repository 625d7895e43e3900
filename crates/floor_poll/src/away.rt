//! Members without a connection: who was lost stays for a while, and leaves once its user is back.

ghost use Rattle.std.specs.Prelude.{◌≡◌, ◌⊎◌, ℕ, [], None, false, nat_eq, true};
ghost use Rattle.floor_hub.specs.Connections.{connection_at};
ghost use Rattle.floor_hub.specs.declared.step.Step.TheVariants.{Leave};
ghost use Rattle.floor_loop.specs.Done.{AtMost, Steps};
ghost use Rattle.floor_loop.specs.Written.{Took, TookNothing};
ghost use Rattle.floor_poll.specs.Departures.{is_lost};
ghost use Rattle.floor_poll.specs.Ends.{IsLetGo, is_among};
ghost use Rattle.indexmap.specs.IndexMap.{get};

use crate::inbox::Note;
use crate::worker::Worker;
use floor_loop::{ConnNo, Live};
use floor_server::{Departure, Entry, Peer};
use std::alloc::AllocError;
use std::sync::Wait;
use std::time::Clock;

/// A member without a connection.
#[derive(Clone, Copy, Debug)]
pub struct Away {
    pub conference: u32,
    pub user: u16,
    pub n: u32,
}

/// A connection that was closed.
#[derive(Clone, Copy, Debug)]
pub struct Closed {
    pub peer: Peer,
    pub n: u32,
    /// Why it isn't served any more.
    pub departure: Departure,
}

/// Whether a connection was lost that isn't served any more for this reason: its member may stay. One that ended in
/// order is lost where that is asked for.
pub fn is_lost(departure: Departure, is_for_all: bool) -> bool
    ensures value { result ≡ is_lost departure is_for_all }
{
    match departure {
        Departure::Reset | Departure::InsideMessage => true,
        Departure::EndOfStream => is_for_all,
        Departure::TooLong
        | Departure::Message(_)
        | Departure::Slow
        | Departure::Closed
        | Departure::BrokenOff
        | Departure::Stopped
        | Departure::Removed
        | Departure::TurnLimit
        | Departure::NoThread
        | Departure::Memory => false,
    }
}

impl<R: Clock + Wait + Copy + Drop> Worker<R> {
    /// A connection that was closed leaves, or its member stays, away.
    pub fn let_go(&mut self, number: ConnNo, closed: Closed)
        ensures steps { Steps (AtMost 1 (Leave number)) self.old.hub.hub self.new.hub.hub }
        ensures others { (k : ℕ) → nat_eq number k ≡ false
            → Took self.old.hub self.new.hub k [] 0 }
        ensures gone { IsLetGo self.old.is_stopping self.new.hub number }
        ensures back { is_among closed.peer.to.user
            (get nat_eq self.old.conferences closed.peer.to.conference) ≡ true
            → self.old.is_stopping ≡ false
            → connection_at self.new.hub.hub.connections number ≡ None }
    {
        if self.stays(number) {
            return self.tell_left(closed);
        }
        if !is_lost(closed.departure, self.is_for_all) || self.is_back(closed.peer) {
            let _left = self.hub.leave(number, self.now);
            return self.tell_left(closed);
        }
        match self.hub.lost(number, self.now) {
            Ok(true) => self.note_away(number, closed),
            Ok(false) => self.tell_left(closed),
            Err(_) => self.tell_left(closed),
        }
    }

    /// Whether a user whose connection was closed is in its conference by another one: then nobody has to be kept for
    /// it, as where it came again before the system gave the lost connection up.
    fn is_back(&self, peer: Peer) -> bool
        ensures value { result ≡ is_among peer.to.user
            (get nat_eq self.entry.now.conferences peer.to.conference) }
    {
        match self.conferences.get(&peer.to.conference) {
            Some(places) => places.has(peer.to.user),
            None => false,
        }
    }

    /// Takes down who is away. There is room for that since it was accepted.
    fn note_away(&mut self, number: ConnNo, closed: Closed)
        ensures hub { self.new.hub ≡ self.old.hub }
    {
        let Closed { peer, n, departure } = closed;
        let away = Away {
            conference: peer.to.conference,
            user: peer.to.user,
            n,
        };
        let _added = self.away.insert(number, away);
        self.tell(&Entry::Away { peer, n, departure });
        self.tell_away(away);
    }

    /// Tells the first thread who is away.
    fn tell_away(&mut self, away: Away)
        ensures hub { self.new.hub ≡ self.old.hub }
    {
        let Away {
            conference,
            user,
            n,
        } = away;
        if self.held.reserve(1).is_ok() {
            let events = self.events_of(conference);
            self.tell_news(Note::Away {
                conference,
                user,
                n,
                events,
            });
        }
    }

    /// Takes in who is away since its conference was let go on.
    pub fn take_away(&mut self, conference: u32) -> Result<(), AllocError>
        ensures hub { self.new.hub ≡ self.old.hub }
    {
        let count = match self.hub.members(conference) {
            Ok(live) => live.len(),
            Err(_) => 0,
        };
        self.reserve_away(count)?;
        for place in 0..count {
            let Some(one) = self.live_at(conference, place) else {
                break;
            };
            self.put_away(conference, one);
        }
        Ok(())
    }

    /// Takes room for so many that are away besides who may be lost.
    fn reserve_away(&mut self, members: usize) -> Result<(), AllocError>
        ensures hub { self.new.hub ≡ self.old.hub }
    {
        let count = members.saturating_add(self.connections.len());
        self.away.reserve(count)?;
        let over = self.over_count().saturating_add(count);
        self.over.reserve(over)
    }

    /// The live connection at this place among a conference's.
    fn live_at(&self, conference: u32, place: usize) -> Option<Live> {
        match self.hub.members(conference) {
            Ok(live) => live.get(place).copied(),
            Err(_) => None,
        }
    }

    /// Takes in one that is away.
    fn put_away(&mut self, conference: u32, one: Live)
        ensures hub { self.new.hub ≡ self.old.hub }
    {
        let user = self.hub.user_at(one.number).unwrap_or(0);
        let away = Away {
            conference,
            user,
            n: one.n,
        };
        let _added = self.away.insert(one.number, away);
    }

    /// How many may be to be shut down.
    pub fn over_count(&self) -> usize {
        let count = self.connections.len().saturating_add(self.away.len());
        count.saturating_add(1)
    }

    /// A member without a connection leaves: its time is over, it was cut or shown out, or its conference has ended.
    pub fn leave_away(&mut self, number: ConnNo)
        ensures steps { Steps (AtMost 1 (Leave number)) self.old.hub.hub self.new.hub.hub }
        ensures took { TookNothing self.old.hub self.new.hub }
        ensures gone { IsLetGo self.old.is_stopping self.new.hub number }
    {
        if self.stays(number) {
            return;
        }
        let is_cut = self.hub.is_cut(number);
        self.count_cut(is_cut);
        let away = self.away.swap_remove(&number);
        let _gone = self.hub.leave(number, self.now);
        match away {
            Some(away) => self.tell_gone(away),
            None => {}
        }
    }

    /// Tells the log of a member that was away and has left.
    fn tell_gone(&self, away: Away) {
        let Away {
            conference,
            user,
            n,
        } = away;
        self.tell(&Entry::Gone {
            conference,
            user,
            n,
        });
    }

    /// Takes it that those have left whose user is back.
    pub fn note_back(&mut self)
        ensures hub { self.new.hub ≡ self.old.hub }
    {
        let count = self.hub.back().len();
        for place in 0..count {
            let Some(number) = self.hub.back().get(place).copied() else {
                break;
            };
            self.take_back(number);
        }
    }

    /// Takes it that a member has left whose user is back.
    pub fn take_back(&mut self, number: ConnNo)
        ensures hub { self.new.hub ≡ self.old.hub }
    {
        if let Some(away) = self.away.swap_remove(&number) {
            self.tell_back(away);
        }
    }

    /// Tells the log and the first thread that the user of a member is back.
    fn tell_back(&mut self, away: Away)
        ensures hub { self.new.hub ≡ self.old.hub }
    {
        let Away {
            conference,
            user,
            n,
        } = away;
        self.tell(&Entry::Back {
            conference,
            user,
            n,
        });
        if self.held.reserve(1).is_ok() {
            let events = self.events_of(conference);
            self.tell_news(Note::Back {
                conference,
                user,
                n,
                events,
            });
        }
    }

    /// Has each member leave that is away, where the server stops and keeps no conference.
    pub fn leave_all_away(&mut self) {
        for _ in 0..self.away.len() {
            let Some((number, _)) = self.away.first() else {
                return;
            };
            let number = *number;
            self.end(number);
        }
    }
}
