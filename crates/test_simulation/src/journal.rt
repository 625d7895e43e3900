//! What the journals have more is what may happen: each join is of somebody who was let in just then, each message is the
//! next that its socket sent, each leave is of a socket that was shut.

use crate::fault::{Fault, demand};
use crate::model::{CONFERENCES, Cause, Model};
use crate::peer::Stage;
use floor_machine::Event;
use floor_turn::{Entry, Server};

/// How many messages of a socket a turn serves at most; at the end of its stream all are.
const MAX_TURN: u32 = 8;

impl Model {
    /// Looks at what happened in the journals since they were looked at.
    pub fn look(&mut self, server: &Server) -> Result<(), Fault> {
        self.served = None;
        self.served_count = 0;
        let mut has_more = false;
        for conference in CONFERENCES {
            let Some(meeting) = self.meeting(conference) else {
                continue;
            };
            let before = meeting.events;
            let events = server.hub().journal(conference).unwrap_or(&[]);
            let is_longer = before <= events.len();
            demand(is_longer, "a journal gets shorter", conference as usize)?;
            for event in events.iter().skip(before) {
                has_more = true;
                self.event(conference, event)?;
            }
        }
        if has_more {
            self.end_each()?;
        }
        let cause = self.cause;
        self.cause = Cause::Nothing;
        match cause {
            Cause::Nothing | Cause::Acts(_) => {}
            Cause::Comes(coming) => self.has_come(coming)?,
            Cause::Leaves { peer, departure } => self.has_left(peer, departure)?,
        }
        let Some(peer) = self.served else {
            return Ok(());
        };
        let is_turn = self.served_count <= MAX_TURN || self.life(peer)?.end.is_some();
        demand(is_turn, "a turn serves too many messages", peer)
    }

    /// An event happened in a conference.
    fn event(&mut self, conference: u32, event: &Event) -> Result<(), Fault> {
        match event {
            Event::Join { user } => return self.joined(conference, *user),
            Event::Message { n, frame } => self.said(conference, *n, frame.bytes())?,
            Event::Leave { n } => self.left(conference, *n)?,
            Event::Took { .. } => {}
            _ => {
                let is_asked = self.cause == Cause::Acts(conference);
                demand(is_asked, "an act isn't asked for", conference as usize)?;
            }
        }
        self.meeting_mut(conference)?.apply(event)
    }

    /// A user has joined: somebody who comes just now.
    fn joined(&mut self, conference: u32, user: u16) -> Result<(), Fault> {
        let Cause::Comes(mut coming) = self.cause else {
            return Err(Fault::of("a user joins where nobody comes", usize::from(user)));
        };
        let is_it = coming.who.conference == conference && coming.who.user == user;
        let may = is_it && coming.refusal.is_none() && !coming.has_joined;
        demand(may, "a user joins whom nobody let in", usize::from(user))?;
        coming.who = self.meeting_mut(conference)?.join(coming.peer, user)?;
        coming.has_joined = true;
        self.cause = Cause::Comes(coming);
        self.life_mut(coming.peer)?.stage = Stage::Member(coming.who);
        Ok(())
    }

    /// A member has said something: it is the next that its socket said.
    fn said(&mut self, conference: u32, n: u32, bytes: &[u8]) -> Result<(), Fault> {
        let number = self.meeting_mut(conference)?.member_mut(n)?.peer;
        let unserved = self.world.peer(number)?.unserved(self.life(number)?);
        demand(
            unserved.starts_with(bytes),
            "another message is served",
            number,
        )?;
        let is_one = self.served.is_none() || self.served == Some(number);
        demand(is_one, "two are served in a turn", number)?;
        let life = self.life_mut(number)?;
        life.served = life.served.saturating_add(bytes.len());
        self.served = Some(number);
        self.served_count = self.served_count.saturating_add(1);
        self.messages = self.messages.saturating_add(1);
        Ok(())
    }

    /// A member has left: its socket is shut just now, or it was away for as long as it may, or is cut there, or its user
    /// comes.
    fn left(&mut self, conference: u32, n: u32) -> Result<(), Fault> {
        let cause = self.cause;
        let meeting = self.meeting_mut(conference)?;
        let is_cut = meeting.is_cut(n);
        let member = meeting.member_mut(n)?;
        let who = member.who;
        match (cause, member.away) {
            (Cause::Leaves { peer, .. }, None) if peer == member.peer => Ok(()),
            (_, None) => Err(Fault::of("who isn't shut leaves", n as usize)),
            (Cause::Comes(coming), Some(_))
                if coming.who.conference == conference && coming.who.user == who.user => {
                member.away = None;
                self.log(Entry::Back(who))
            }
            (_, Some(_)) if is_cut => {
                member.away = None;
                self.log(Entry::Gone(who))
            }
            (_, Some(_)) => {
                self.goes(who)?;
                self.log(Entry::Gone(who))
            }
        }
    }
}
