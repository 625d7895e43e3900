//! What a server has to make of what happened: which conferences there are, what the log is told, and whose turn it is.
//!
//! A conference is what the floor machine alone makes of the journal's events ([`Meeting`]). That the events are those
//! that have to happen, in an order that they may have, is looked at in `journal`; who is let in in `coming`, who may be
//! read, written to and shut in `serving`, and that nothing is left in `resting`.

use crate::fault::{Fault, demand};
use crate::happening::Happening;
use crate::meeting::{Meeting, Member};
use crate::peer::{Life, Stage};
use crate::world::{Holder, World};
use floor_config::read_configs;
use floor_turn::{Config, Departure, Entry, Fault as EndFault, Place, Who};
use std::alloc::Global;
use std::collections::VecDeque;

/// The conferences that may be opened.
pub const CONFERENCES: [u32; 3] = [1, 2, 3];

const CONFIGURATION: &str = "[[conference]]
id = 1
limit = 4
user = [{ id = 10, port = 5110 }, { id = 11, port = 5111 }, { id = 12, port = 5112, proxy = true }, { id = 13 }]
floor = [{ id = 1 }, { id = 2, room = 2 }, { id = 3, chair = 12 }]
[[conference]]
id = 2
limit = 4
connections = 7
user = [{ id = 10, port = 5210 }, { id = 11, port = 5211 }, { id = 20 }]
floor = [{ id = 1 }, { id = 2 }, { id = 3, chair = 10 }]
[[conference]]
id = 3
limit = 16
user = [{ id = 10, port = 5310 }]
floor = [{ id = 1 }]
";

/// How much later than it has to the server may do something, in microseconds: it counts in milliseconds.
pub const LATE: u64 = 1_000;

/// How far the server is.
#[derive(Clone, Copy, Debug, PartialEq, Eq)]
pub enum Course {
    Starting,
    Running,
    /// It was told to stop, or a port of its start can't be had.
    Stopped,
    /// Whoever is there is shut.
    Closing,
    Ended,
}

/// A peer that comes as this user, for whom its members leave that are away: it joins, or is refused by this name.
#[derive(Clone, Copy, Debug, PartialEq, Eq)]
pub struct Coming {
    pub peer: usize,
    pub who: Who,
    pub has_joined: bool,
    pub refusal: Option<&'static str>,
}

/// What may happen in a conference now, beside messages of its members and leaves of who was away for long enough.
#[derive(Clone, Copy, Debug, PartialEq, Eq)]
pub enum Cause {
    Nothing,
    Comes(Coming),
    /// A peer's member leaves, for this reason.
    Leaves { peer: usize, departure: Departure },
    /// The administrator does something.
    Acts(u32),
}

/// What the log is to be told.
#[derive(Clone, Copy, Debug, PartialEq, Eq)]
pub enum Logged {
    This(Entry),
    /// A peer isn't let in, for the reason of this name.
    Refused { peer: usize, name: &'static str },
}

/// All of it.
#[derive(Drop)]
pub struct Model {
    pub world: World,
    configs: Vec<Config>,
    pub meetings: Vec<Meeting>,
    pub forgotten: Vec<u32>,
    pub cause: Cause,
    /// How many turns each conference has had by now, and the doors in front.
    pub turns: [u64; 4],
    /// Who was served just now, and how many messages of it.
    pub served: Option<usize>,
    pub served_count: u32,
    pub logged: VecDeque<Logged>,
    /// How long a member outlives its socket, in microseconds, and whether one does too whose stream ended in order.
    pub grace: u64,
    pub is_for_all: bool,
    /// The latest time that the server was told.
    pub told: u64,
    pub course: Course,
    /// Why it ends where nobody stopped it.
    pub fault: Option<EndFault>,
    /// How many messages were served.
    pub messages: u64,
}

impl Model {
    /// A server without a conference, in which this happens first.
    pub fn new(alloc: Global, first: Option<Happening>) -> Result<Model, Fault> {
        let Ok(configs) = read_configs(alloc, CONFIGURATION) else {
            return Err(Fault::of("the conferences can't be read", 0));
        };
        let grace = match first {
            Some(Happening::Grace(millis) | Happening::GraceForAll(millis)) => millis,
            _ => 0,
        };
        Ok(Model {
            world: World::new(alloc),
            configs,
            meetings: Vec::new(alloc),
            forgotten: Vec::new(alloc),
            cause: Cause::Nothing,
            turns: [0; 4],
            served: None,
            served_count: 0,
            logged: VecDeque::new(alloc),
            grace: grace.saturating_mul(1_000),
            is_for_all: matches!(first, Some(Happening::GraceForAll(_))),
            told: 0,
            course: Course::Starting,
            fault: None,
            messages: 0,
        })
    }

    /// The time that the server is told now.
    pub fn pass(&mut self) -> u64 {
        self.told = self.told.max(self.world.now);
        self.world.now
    }

    /// The configuration of a conference that may be opened.
    pub fn config(&self, conference: u32) -> Result<Option<Config>, Fault> {
        for config in self.configs.iter() {
            if config.conference() == conference {
                return Ok(Some(config.copy(self.world.alloc)?));
            }
        }
        Ok(None)
    }

    pub fn meeting(&self, conference: u32) -> Option<&Meeting> {
        self.meetings.iter().find(|m| m.conference == conference)
    }

    pub fn meeting_mut(&mut self, conference: u32) -> Result<&mut Meeting, Fault> {
        let mut meetings = self.meetings.iter_mut();
        match meetings.find(|m| m.conference == conference) {
            Some(meeting) => Ok(meeting),
            None => Err(Fault::of("there is no such conference", conference as usize)),
        }
    }

    pub fn is_open(&self, conference: u32) -> bool {
        match self.meeting(conference) {
            Some(meeting) => meeting.is_open(),
            None => false,
        }
    }

    /// Whether it isn't to be listened there any more.
    pub fn is_over(&self, place: Place) -> bool {
        match place {
            _ if self.course == Course::Closing => true,
            Place::Port { conference, .. } => !self.is_open(conference),
            Place::Door { .. } | Place::Health { .. } | Place::Control | Place::Observe => false,
        }
    }

    /// A conference is opened, unless it was before. Says whether it is.
    pub fn open(&mut self, conference: u32) -> Result<bool, Fault> {
        let is_known = self.meeting(conference).is_some() || self.forgotten.contains(&conference);
        match self.config(conference)? {
            Some(config) if !is_known => {
                let meeting = Meeting::new(self.world.alloc, config)?;
                self.meetings.push(meeting)?;
                self.log(Entry::Opened { conference })?;
                Ok(true)
            }
            _ => Ok(false),
        }
    }

    /// A conference is forgotten where it has ended and all of its members have left. Says whether it is.
    pub fn forget(&mut self, conference: u32) -> Result<bool, Fault> {
        let may = match self.meeting(conference) {
            Some(meeting) => !meeting.is_open() && !meeting.has_away(None),
            None => false,
        };
        if !may || self.count(conference, None) != 0 {
            return Ok(false);
        }
        self.meetings
            .retain(|meeting| meeting.conference != conference);
        self.forgotten.push(conference)?;
        self.log(Entry::Forgotten { conference })?;
        Ok(true)
    }

    /// The server is told to stop, which the log is told, or can't have a port at its start.
    pub fn stop(&mut self, fault: Option<EndFault>) -> Result<(), Fault> {
        match (self.course, fault) {
            (Course::Starting, Some(_)) => self.fault = fault,
            (Course::Starting | Course::Running, None) => self.log(Entry::Stopping)?,
            _ => return Ok(()),
        }
        self.course = Course::Stopped;
        Ok(())
    }

    /// Whoever is a member of a conference that has ended, or cut, is to be shut down, and all are where it was stopped.
    pub fn end_each(&mut self) -> Result<(), Fault> {
        if self.course == Course::Stopped {
            self.course = Course::Closing;
        }
        for slot in 0..self.world.slots().len() {
            if let Ok(number) = self.world.peer_in(slot) {
                if self.course == Course::Closing || self.is_cut_off(self.life(number)?) {
                    self.end(number)?;
                }
            }
        }
        Ok(())
    }

    /// A peer's socket is to be shut down from now on, unless it was before.
    pub fn end(&mut self, number: usize) -> Result<(), Fault> {
        let told = self.told;
        let life = self.life_mut(number)?;
        life.since = Some(life.since.unwrap_or(told));
        Ok(())
    }

    /// The log is to be told this.
    pub fn log(&mut self, entry: Entry) -> Result<(), Fault> {
        self.logged.push_back(Logged::This(entry))?;
        Ok(())
    }

    /// The log is told this, which it is to be told next; or that who is away in a conference that has ended is gone, of
    /// which no journal tells.
    pub fn hear_log(&mut self, entry: Entry) -> Result<(), Fault> {
        let holds = match (self.logged.front().copied(), entry) {
            (Some(Logged::This(wanted)), _) if wanted == entry => true,
            (Some(Logged::Refused { peer: number, name }), Entry::Refused { peer, refusal }) => {
                let named = self.world.peer(number)?.named(number);
                named == peer && refusal.name() == name
            }
            (_, Entry::Gone(who)) if !self.is_open(who.conference) => return self.goes(who),
            _ => false,
        };
        let _told = self.logged.pop_front();
        demand(holds, "the log is told something else", 0)
    }

    /// Somebody who is away goes, since its time is over.
    pub fn goes(&mut self, who: Who) -> Result<(), Fault> {
        let (latest, grace) = (self.told.saturating_add(LATE), self.grace);
        let meeting = self.meeting_mut(who.conference)?;
        let away = meeting.member_mut(who.n)?.away.take();
        let is_late = away.is_some_and(|away| meeting.stays_until(away, grace) <= latest);
        demand(is_late, "who may stay leaves", who.n as usize)
    }

    pub fn life(&self, number: usize) -> Result<&Life, Fault> {
        match &self.world.peer(number)?.life {
            Some(life) => Ok(life),
            None => Err(Fault::of("somebody has no socket", number)),
        }
    }

    pub fn life_mut(&mut self, number: usize) -> Result<&mut Life, Fault> {
        match &mut self.world.peer_mut(number)?.life {
            Some(life) => Ok(life),
            None => Err(Fault::of("somebody has no socket", number)),
        }
    }

    /// The member at a socket.
    pub fn member_of(&self, life: &Life) -> Option<&Member> {
        match life.stage {
            Stage::Member(who) => self.meeting(who.conference)?.member(who.n),
            Stage::AtDoor(_) | Stage::Refused => None,
        }
    }

    /// What a member is told that its socket hasn't taken, in bytes.
    pub fn untaken(&self, life: &Life) -> usize {
        match self.member_of(life) {
            Some(member) => member.rest().len(),
            None => 0,
        }
    }

    /// Whether nothing more is taken from a member: it is cut, or its conference has ended.
    pub fn is_cut_off(&self, life: &Life) -> bool {
        let Stage::Member(who) = life.stage else {
            return false;
        };
        match self.meeting(who.conference) {
            Some(meeting) => !meeting.is_open() || meeting.is_cut(who.n),
            None => true,
        }
    }

    /// How many sockets are members' of a conference, or of one user there.
    pub fn count(&self, conference: u32, user: Option<u16>) -> usize {
        let is_of = |holder: &&Holder| {
            let Holder::Peer(number) = holder else {
                return false;
            };
            match self.life(*number).map(|life| life.stage) {
                Ok(Stage::Member(who)) => {
                    who.conference == conference && (user.is_none() || user == Some(who.user))
                }
                _ => false,
            }
        };
        self.world.slots().iter().filter(is_of).count()
    }

    /// With whom a peer shares its turns: the members of its conference, or the doors.
    pub fn group(&self, number: usize) -> usize {
        match self.life(number).map(|life| life.stage) {
            Ok(Stage::Member(who)) => who.conference as usize,
            _ => 0,
        }
    }

    /// Somebody of this group has a turn.
    pub fn note_turn(&mut self, group: usize) {
        if let Some(turns) = self.turns.get_mut(group) {
            *turns = turns.saturating_add(1);
        }
    }
}
