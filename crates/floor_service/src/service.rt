//! The server and its control clients.
#![tactic(auto, using(crate::proofs::Moving::unmoved, crate::proofs::Moving::moved_then, crate::proofs::Moving::moved_and_same, crate::proofs::Attending::unattended, crate::proofs::Attending::attended_then, crate::proofs::Attending::attended_and_same, crate::proofs::Attending::carried_too, crate::proofs::Settled::settled_same, crate::proofs::Settled::settled_then))]

ghost use Rattle.std.specs.Prelude.{◌≡◌, true};
ghost use Rattle.floor_turn.specs.Moves.{Moves, nothing_taken};
ghost use Rattle.floor_desk.specs.Attending.{Attends, beside};
ghost use Rattle.floor_service.specs.Calls.{Settles};

use crate::deed::Configured;
use crate::opening::{open_here, open_read};
use floor_config::Config;
use floor_desk::{Act, Desk, Now, standing_now};
use floor_rpc::Text;
use floor_shown::{NewConference, Words};
use floor_turn::{HubRefusal, Loop, Place, Server};
use std::alloc::{AllocError, Global};

/// A floor control server and its control clients.
///
/// - At the start: `new` over a server of members; `clients` for each socket of control clients, `open` for each
///   conference.
/// - The poll's words, the time, deeds and their answers are those of `Server`, by the same names; what happens to a
///   client's socket goes to the client, and what is lent to it is the client's.
/// - More deeds are of the clients: `Configure`, of which `configuration` lends the text and which `configured` answers;
///   `Ports`, of which `ports` lends them and which `had` answers; and `Figures`, which `figures` answers.
///
/// Numbers that a request doesn't give are drawn by a generator of the seed.
#[derive(Drop)]
pub struct Service {
    pub(crate) server: Server,
    pub(crate) desk: Desk,
}

impl Service {
    /// The clients of this server, which has no conference yet, and none of them there. `version` and `now` are told by
    /// `server.status`.
    pub fn new(
        alloc: Global,
        server: Server,
        seed: [u8; 32],
        version: Text,
        now: Now,
    ) -> Result<Service, AllocError> {
        let desk = Desk::new(alloc, seed, version, now)?;
        Ok(Service { server, desk })
    }

    /// Has the control clients' socket listened on, or that of those that read alone.
    pub fn clients(&mut self, place: Place) -> Result<(), AllocError>
        ensures meetings { self.new.server.meetings ≡ self.old.server.meetings }
    {
        self.server.clients(place)
    }

    /// Opens a conference, as the server does, with these titles; whoever watches all is told of it.
    pub fn open(&mut self, config: Config, titles: Words) -> Result<(), HubRefusal>
        ensures moves { Moves nothing_taken self.old.server.meetings self.new.server.meetings }
        ensures attends { Attends beside self.old.desk.callers self.new.desk.callers }
    {
        let new = NewConference {
            config,
            words: titles,
        };
        open_here(&mut self.server, &mut self.desk, new)
    }

    /// Lends the loop, by which conferences are read.
    pub fn hub(&self) -> &Loop
        ensures value { result.now ≡ self.now.server.meetings.hub }
    {
        self.server.hub()
    }

    /// Lends the server of members.
    pub fn server(&self) -> &Server
        ensures value { result.now ≡ self.now.server }
    {
        &self.server
    }

    /// Lends the text that is to be read under this number: none where nobody awaits it.
    pub fn configuration(&self, number: u64) -> &str {
        match self.desk.callers.configuring(number) {
            Some(socket) => self.desk.callers.text(socket, number).unwrap_or(""),
            None => "",
        }
    }

    /// The text under this number was read. Where nobody awaits it nothing is opened.
    pub fn configured(&mut self, number: u64, read: Configured, now: Now)
        ensures draining { self.old.desk.is_draining ≡ true
            → Settles self.old.server self.new.server }
        ensures moves { Moves nothing_taken self.old.server.meetings self.new.server.meetings }
        ensures attends { Attends beside self.old.desk.callers self.new.desk.callers }
    {
        self.desk.pass(now);
        let Some(socket) = self.desk.callers.configuring(number) else {
            return;
        };
        let act = Act::opening(self.desk.callers.who(socket));
        self.desk.user = None;
        let done = open_read(&mut self.server, &mut self.desk, read);
        self.end_call(socket, Some(act), done);
    }

    /// The process has so many bytes of memory: whoever asked how the server stands is answered.
    pub fn figures(&mut self, memory: u64)
        ensures meetings { self.new.server.meetings ≡ self.old.server.meetings }
        ensures attends { Attends beside self.old.desk.callers self.new.desk.callers }
    {
        let members = self.server.members_len();
        for index in 0..self.desk.callers.len() {
            let socket = self.desk.callers.slot_of(index);
            self.tell_figures(socket, members, memory);
        }
    }

    /// A client is answered how the server stands, where it asked so.
    fn tell_figures(&mut self, socket: usize, members: usize, memory: u64)
        ensures meetings { self.new.server.meetings ≡ self.old.server.meetings }
        ensures attends { Attends beside self.old.desk.callers self.new.desk.callers }
    {
        if !self.desk.callers.awaits_figures(socket) {
            return;
        }
        let done = standing_now(&self.desk, members, memory);
        self.desk.end(socket, None, done);
        self.settle(socket);
    }
}
