//! One run: what happens is done to the server, and each of its deeds is done and looked at.

use crate::coming::BOUNDS;
use crate::fault::{Fault, demand};
use crate::happening::{DOOR, HEALTH, Happening, ID};
use crate::model::{Cause, Course, Model};
use floor_turn::{Act, Deed, Entry, Grace, Place, Server};
use std::alloc::Global;

/// How many deeds a turn has at most, and how often the poll has more to tell behind one.
const MAX_DEEDS: u32 = 200_000;

const MAX_POLLS: u32 = 1_000;

/// A server, what is outside it, and what it has to do.
#[derive(Drop)]
pub struct Run {
    pub server: Server,
    pub model: Model,
}

impl Run {
    /// A server of two doors without a conference, in which this happens first.
    pub fn new(alloc: Global, first: Option<Happening>) -> Result<Run, Fault> {
        let grace = |millis: u64| Grace {
            lost: millis,
            resumed: millis,
        };
        let mut server = match first {
            Some(Happening::Grace(millis)) if millis != 0 => {
                Server::with_grace(alloc, BOUNDS, grace(millis))
            }
            Some(Happening::GraceForAll(millis)) if millis != 0 => {
                Server::with_grace_for_all(alloc, BOUNDS, grace(millis))
            }
            _ => Server::new(alloc, BOUNDS),
        };
        for place in [DOOR, ID, HEALTH] {
            match place {
                Place::Door { named_by, port } => server.door(named_by, port)?,
                Place::Health { port } => server.health(port)?,
                Place::Port { .. } | Place::Control | Place::Observe => {}
            }
        }
        Ok(Run {
            server,
            model: Model::new(alloc, first)?,
        })
    }

    /// Something happens.
    pub fn happen(&mut self, happening: Happening) -> Result<(), Fault> {
        let is_serving = matches!(self.model.course, Course::Starting | Course::Running);
        let world = &mut self.model.world;
        match happening {
            Happening::Grace(_) | Happening::GraceForAll(_) => {}
            Happening::Deny => world.is_denied = true,
            Happening::Allow => world.is_denied = false,
            Happening::Starve => world.is_starved = true,
            Happening::Feed => world.is_starved = false,
            Happening::Pass(micros) => world.now = world.now.saturating_add(micros),
            Happening::Of { peer, does } => world.happen(peer, does)?,
            Happening::Deeds(count) => {
                let _is_done = self.do_deeds(count)?;
            }
            Happening::Turn => self.turn()?,
            Happening::Back(micros) => {
                world.now = world.now.saturating_sub(micros);
                let now = self.model.pass();
                self.server.time(now);
            }
            Happening::Stray { kind, slot } => self.stray(kind, slot)?,
            Happening::Stop => {
                self.model.stop(None)?;
                let now = self.model.pass();
                self.server.stop(now);
                self.turn()?;
            }
            Happening::Open(conference) if is_serving => {
                if let Some(config) = self.model.config(conference)? {
                    let is_opened = self.server.open(config).is_ok();
                    let holds = is_opened == self.model.open(conference)?;
                    demand(
                        holds,
                        "it is opened twice, or not once",
                        conference as usize,
                    )?;
                }
            }
            Happening::Close(conference) if is_serving => self.act(conference, Act::Close)?,
            Happening::Revoke(request) if is_serving => self.act(1, Act::Revoke(request))?,
            Happening::Forget(conference) if is_serving => {
                let is_forgotten = self.model.forget(conference)?;
                let holds = self.server.forget(conference).is_ok() == is_forgotten;
                demand(holds, "it is forgotten, or isn't", conference as usize)?;
            }
            _ => {}
        }
        self.model.look(&self.server)
    }

    fn act(&mut self, conference: u32, act: Act) -> Result<(), Fault> {
        let closes = matches!(act, Act::Close);
        let is_open = self.model.is_open(conference);
        let now = self.model.pass();
        let did = self.server.act(conference, act, now).is_ok();
        let holds = !closes || did == is_open;
        demand(holds, "it is closed, or isn't", conference as usize)?;
        self.model.cause = Cause::Acts(conference);
        if closes && did {
            let told = self.model.told;
            self.model.meeting_mut(conference)?.ended = Some(told);
            self.model.log(Entry::Closed { conference })?;
        }
        Ok(())
    }

    /// The poll tells what it has to tell.
    fn tell(&mut self) -> Result<(), Fault> {
        for slot in 0..self.model.world.slots().len() {
            if let Ok(number) = self.model.world.peer_in(slot) {
                self.tell_of(slot, number)?;
            } else if let Ok(listener) = self.model.world.listener_mut(slot) {
                if listener.tells {
                    listener.tells = false;
                    self.server.knocked(slot);
                }
            }
        }
        Ok(())
    }

    /// The poll tells what it has to tell of a peer's socket.
    fn tell_of(&mut self, slot: usize, number: usize) -> Result<(), Fault> {
        let peer = self.model.world.peer_mut(number)?;
        let (is_readable, is_writable) = (peer.tells_readable, peer.tells_writable);
        let ends = peer.tells_end;
        peer.tells_readable = false;
        peer.tells_writable = false;
        if is_readable {
            self.model.note_word(number, ends)?;
            self.server.readable(slot, ends);
        }
        if is_writable {
            self.model.life_mut(number)?.is_blocked = false;
            self.server.writable(slot);
        }
        Ok(())
    }

    /// The poll tells what it has to tell, and all is done that is to be done, until neither has more.
    fn turn(&mut self) -> Result<(), Fault> {
        for _ in 0..MAX_POLLS {
            self.tell()?;
            let now = self.model.pass();
            self.server.time(now);
            let is_done = self.do_deeds(MAX_DEEDS)?;
            demand(is_done, "a turn has no end", 0)?;
            if !self.model.world.has_words() {
                let due = self.server.due();
                return self.model.rest(&self.server, due);
            }
        }
        Err(Fault::of("the poll has no end", 0))
    }

    /// Does so many deeds at most, and says whether there are no more.
    fn do_deeds(&mut self, most: u32) -> Result<bool, Fault> {
        for _ in 0..most {
            if self.model.course == Course::Stopped {
                self.model.end_each()?;
            }
            let Some(deed) = self.server.next() else {
                if self.model.course == Course::Starting {
                    self.model.course = Course::Running;
                }
                return Ok(true);
            };
            self.model.look(&self.server)?;
            // Where a turn is served messages are.
            if let Some(peer) = self.model.served {
                self.model.note_turn(self.model.group(peer));
            }
            self.do_deed(deed)?;
            self.model.look(&self.server)?;
        }
        Ok(false)
    }

    fn do_deed(&mut self, deed: Deed) -> Result<(), Fault> {
        match deed {
            Deed::Listen { listener, place } => self.listen(listener, place),
            Deed::Unlisten(slot) => self.unlisten(slot),
            Deed::Accept(slot) => self.accept(slot),
            Deed::Read(slot) => self.read(slot),
            Deed::Write(slot) => self.write(slot),
            Deed::Shut(slot) => self.shut(slot),
            Deed::Serve(slot) => Err(Fault::of("a client is served, and none is there", slot)),
            Deed::Log(entry) => self.model.hear_log(entry),
            Deed::Turn => Ok(()),
            Deed::End(fault) => {
                let holds = self.model.course == Course::Closing && fault == self.model.fault;
                self.model.course = Course::Ended;
                demand(holds, "it ends unasked or by another fault", 0)
            }
        }
    }
}
