//! What the first thread asks for: conferences and their ports, and what their administrators do.

ghost use Rattle.std.specs.Prelude.{◌≡◌, ℕ, Err, Some, nat_eq};
ghost use Rattle.indexmap.specs.IndexMap.{get};
ghost use Rattle.floor_hub.specs.declared.step.Step.TheVariants.{Admin};
ghost use Rattle.floor_loop.specs.Done.{AtMost, Steps};
ghost use Rattle.floor_loop.specs.Written.{TookNothing};
ghost use Rattle.floor_poll.specs.Refusals.{broken};
ghost use Rattle.floor_poll.specs.Told.{broken_at};
ghost use Rattle.floor_poll.specs.Unkept.{unkept_of};

use crate::fresh::Fresh;
use crate::mailbox::{Answer, Asked, Mailbox};
use crate::places::Places;
use crate::port::Port;
use crate::refusals::{broken, out_of_memory, refusal_of, refusal_of_act};
use crate::worker::Worker;
use floor_config::Config;
use floor_console::BoardRefusal;
use floor_control::ControlRefusal;
use floor_keep::{
    KeepFault, KeepReason, KeptFault, Left, NewHead, NoteFault, Octets, Text, Unkept, begin_file,
};
use floor_loop::{Act, AddedUser, HubRefusal, User};
use floor_room::Phase;
use floor_server::{Did, Entry, UserPort};
use mio::{Interest, Token};
use std::alloc::AllocError;
use std::fs::File;
use std::rt::Files;
use std::sync::Wait;
use std::time::Clock;

/// How long what is queued is written at most once the server stops, in milliseconds.
const STOP_MILLIS: u64 = 10_000;

impl<R: Files<File = File> + Clock + Wait + Copy + Drop> Worker<R> {
    /// Does what is asked, and answers; once the turn is kept, where it is. A stop is answered once nobody is
    /// connected.
    pub fn answer(&mut self, mailbox: &Mailbox) {
        let rt = self.rt;
        let Some(asked) = mailbox.take(&rt) else {
            return;
        };
        if self.keeps() {
            return self.hold(mailbox, None, asked);
        }
        if let Some(answer) = self.carry_out(asked) {
            mailbox.reply(&rt, answer);
        }
        self.write_turn();
    }

    /// Does what is asked, and gives the answer, where it has one at once.
    pub fn carry_out(&mut self, asked: Asked) -> Option<Answer> {
        match asked {
            Asked::Open { fresh, ports } => Some(Answer::Done(self.open(fresh, ports))),
            Asked::Resume { conference } => Some(Answer::Resumed(self.resume(conference))),
            Asked::Ports { conference, ports } => {
                Some(Answer::Done(self.add_ports(conference, ports)))
            }
            Asked::Word {
                conference,
                key,
                value,
            } => Some(Answer::Done(self.note_word(conference, key, value))),
            Asked::AddUser {
                conference,
                user,
                port,
            } => Some(Answer::Done(self.add_user(conference, user, port))),
            Asked::Admin { conference, act } => Some(Answer::Done(self.admin(conference, act))),
            Asked::Leave { conference, n } => Some(Answer::Done(self.show_out(conference, n))),
            Asked::Forget { conference } => Some(Answer::Done(self.forget(conference))),
            Asked::Tell(question) => Some(self.answer_to(question)),
            Asked::Begin => {
                self.begin();
                Some(Answer::Done(Ok(0)))
            }
            Asked::Drain => {
                self.is_draining = true;
                None
            }
            Asked::Stop => {
                self.stop();
                None
            }
        }
    }

    /// Opens a conference with its ports. Where it is refused they are given back.
    fn open(&mut self, fresh: Fresh, ports: Vec<Port>) -> Result<u32, ControlRefusal> {
        let conference = fresh.config().conference();
        let mut places = Places::new(self.alloc, fresh.config().connections());
        let outcome = self.open_with(&mut places, fresh.config(), ports);
        match outcome {
            Ok(()) => {
                let _added = self.conferences.insert(conference, places);
                self.tell(&Entry::Opened { conference });
                self.begin_file(fresh);
            }
            Err(_) => self.close_ports(&mut places),
        }
        outcome.map(|()| 0)
    }

    /// Makes the file of a conference that was opened, where conferences are kept. One that has no head then can't be
    /// kept, and that is told.
    fn begin_file(&mut self, fresh: Fresh) {
        if !self.keeps() || !self.is_ours() {
            return;
        }
        let outcome = match &fresh {
            Fresh::Kept(head) => self.make_file(head),
            Fresh::Unkept(_config) => Err(KeepReason {
                fault: KeepFault::CannotKeep,
                line: None,
            }),
        };
        match outcome {
            Ok(()) => {}
            Err(reason) => {
                let conference = fresh.config().conference();
                self.give_up(unkept_of(conference, reason.fault));
            }
        }
    }

    fn make_file(&mut self, head: &NewHead) -> Result<(), KeepReason> {
        let Some(keeper) = &mut self.keeper else {
            return Ok(());
        };
        keeper.reserve()?;
        let kept = begin_file(&self.rt, self.alloc, keeper.folder(), head)?;
        match keeper.add(kept) {
            Ok(()) => Ok(()),
            Err(_) => Err(KeepReason::memory()),
        }
    }

    /// Has a word stand in a conference's file.
    fn note_word(
        &mut self,
        conference: u32,
        key: Text,
        value: Option<Octets>,
    ) -> Result<u32, ControlRefusal> {
        let Some(keeper) = &mut self.keeper else {
            return Ok(0);
        };
        match keeper.note_word(conference, key, value) {
            Ok(()) => {
                self.note_changed(conference);
                Ok(0)
            }
            Err(NoteFault::Memory) => Err(out_of_memory()),
            Err(NoteFault::NotKept | NoteFault::NotAKey) => Ok(0),
        }
    }

    /// Takes the ports in, and then opens the conference, with room for what is kept of it.
    fn open_with(
        &mut self,
        places: &mut Places,
        config: &Config,
        ports: Vec<Port>,
    ) -> Result<(), ControlRefusal> {
        self.reserve_conference()?;
        let config = config.copy(self.alloc)?;
        self.take_ports(places, ports)?;
        match self.hub.open(self.alloc, config) {
            Ok(()) => Ok(()),
            Err(refusal) => Err(refusal_of(refusal)),
        }
    }

    /// Takes room for one conference more.
    pub fn reserve_conference(&mut self) -> Result<(), AllocError> {
        let count = self.conferences.len().saturating_add(1);
        self.conferences.reserve(1)?;
        self.changed.reserve(count)
    }

    /// Takes the ports of a conference in.
    fn take_ports(&mut self, places: &mut Places, ports: Vec<Port>) -> Result<(), ControlRefusal> {
        for port in ports {
            places.reserve()?;
            let number = self.take_in(port)?;
            places.add(number)?;
        }
        Ok(())
    }

    /// Takes the ports of a conference in that goes on.
    fn add_ports(&mut self, conference: u32, ports: Vec<Port>) -> Result<u32, ControlRefusal> {
        for port in ports {
            if let Some(places) = self.conferences.get_mut(&conference) {
                places.reserve()?;
            }
            let number = self.take_in(port)?;
            self.keep_port(conference, number);
        }
        Ok(0)
    }

    /// Takes in a port that is listened on, with room for what is kept of it, and is told of who connects. Gives
    /// its number.
    fn take_in(&mut self, port: Port) -> Result<u64, ControlRefusal> {
        self.reserve_port()?;
        let number = self.last_port.saturating_add(2);
        let place = port.place;
        let mut port = port;
        let token = Token(number as usize);
        let registry = self.poll.registry();
        match registry.register(&mut port.listener, token, Interest::READABLE) {
            Ok(()) => {}
            Err(_) => return Err(ControlRefusal::ByBoard(BoardRefusal::CannotListen)),
        }
        self.last_port = number;
        let _added = self.ports.insert(number, port);
        self.tell(&Entry::Listens(place));
        Ok(number)
    }

    /// Takes room for one port more.
    fn reserve_port(&mut self) -> Result<(), AllocError> {
        let count = self.ports.len().saturating_add(1);
        self.ports.reserve(1)?;
        self.waiting.reserve(count)
    }

    /// Adds a user. Its port is taken in first, where it has one, and given back where the user is refused.
    fn add_user(
        &mut self,
        conference: u32,
        user: User,
        port: Option<Port>,
    ) -> Result<u32, ControlRefusal> {
        let Some(port) = port else {
            return self.add_to(conference, user);
        };
        if let Some(places) = self.conferences.get_mut(&conference) {
            places.reserve()?;
        }
        let place = port.place;
        let number = self.take_in(port)?;
        let outcome = self.add_to(conference, user);
        match outcome {
            Ok(_) => {
                self.keep_port(conference, number);
                self.note_port(place);
            }
            Err(_) => self.close_port(number),
        }
        outcome
    }

    /// Adds a user. The port is this server's, and no part of the conference.
    fn add_to(&mut self, conference: u32, user: User) -> Result<u32, ControlRefusal> {
        let user = AddedUser::new(self.alloc, User { port: None, ..user })?;
        self.admin(conference, Act::AddUser(user))
    }

    /// Keeps a port with its conference, which has room for it.
    fn keep_port(&mut self, conference: u32, number: u64) {
        if let Some(places) = self.conferences.get_mut(&conference) {
            let _added = places.add(number);
        }
    }

    /// Has the port of a user who was added stand in the conference's file.
    fn note_port(&mut self, place: UserPort) {
        let UserPort {
            conference,
            user,
            port,
        } = place;
        if let Some(keeper) = &mut self.keeper {
            let _noted = keeper.note_port(conference, user, port);
        }
    }

    /// Does what a conference's administrator does, and gives its place in the journal. A closed conference has no
    /// port any more.
    fn admin(&mut self, conference: u32, act: Act) -> Result<u32, ControlRefusal>
        ensures steps { Steps (AtMost 1 (Admin conference act)) self.old.hub.hub self.new.hub.hub }
        ensures broken { (events : ℕ)
            → broken_at (get nat_eq self.old.conferences conference) ≡ Some events
            → (result ≡ Err broken) × (self.new.hub ≡ self.old.hub) }
    {
        match self.broken_at(conference) {
            Some(_) => Err(broken()),
            None => self.admin_open(conference, act),
        }
    }

    /// The same of a conference that isn't broken off since its file has failed.
    fn admin_open(&mut self, conference: u32, act: Act) -> Result<u32, ControlRefusal>
        ensures steps { Steps (AtMost 1 (Admin conference act)) self.old.hub.hub self.new.hub.hub }
    {
        let did = did_of(&act);
        match self.act(conference, act) {
            Ok(()) => {
                let place = self.events_of(conference);
                match did {
                    Some(act) => self.tell(&Entry::Did {
                        conference,
                        act,
                        place,
                    }),
                    None => {
                        self.tell(&Entry::Closed { conference });
                        self.close_ports_of(conference);
                    }
                }
                Ok(place)
            }
            Err(refusal) => {
                self.tell_if_broken(conference);
                Err(refusal_of_act(refusal))
            }
        }
    }

    /// The same, whatever follows here.
    fn act(&mut self, conference: u32, act: Act) -> Result<(), HubRefusal>
        ensures steps { Steps (AtMost 1 (Admin conference act)) self.old.hub.hub self.new.hub.hub }
        ensures took { TookNothing self.old.hub self.new.hub }
    {
        let before = self.before(conference);
        let outcome = self.hub.admin(conference, act, self.now);
        let _count = self.note_events(before);
        outcome
    }

    /// Tells the log of a conference that is broken off.
    pub fn tell_if_broken(&self, conference: u32) {
        let Some(log) = &self.log else {
            return;
        };
        if let Ok(status) = self.standing(conference) {
            if status.phase == Phase::Broken {
                log.tell_broken(&self.rt, conference);
            }
        }
    }

    pub fn close_ports_of(&mut self, conference: u32)
        ensures hub { self.new.hub ≡ self.old.hub }
    {
        let Some(places) = self.conferences.get_mut(&conference) else {
            return;
        };
        let ports = places.take_ports(self.alloc);
        self.close_each(&ports);
    }

    fn close_ports(&mut self, places: &mut Places)
        ensures hub { self.new.hub ≡ self.old.hub }
    {
        let ports = places.take_ports(self.alloc);
        self.close_each(&ports);
    }

    fn close_each(&mut self, ports: &[u64])
        ensures hub { self.new.hub ≡ self.old.hub }
    {
        for number in ports {
            self.close_port(*number);
        }
    }

    /// Listens on a port no longer.
    fn close_port(&mut self, number: u64)
        ensures hub { self.new.hub ≡ self.old.hub }
    {
        if let Some(port) = self.ports.swap_remove(&number) {
            let place = port.place;
            drop(port);
            self.tell(&Entry::Ended(place));
        }
    }

    /// Accepts nobody any more, and ends each connection once what is queued to it is written.
    fn stop(&mut self) {
        self.is_stopping = true;
        self.stops_by = self.now.saturating_add(STOP_MILLIS);
        if !self.keeps() {
            self.leave_all_away();
        }
        for _ in 0..self.ports.len() {
            let Some((number, _)) = self.ports.first() else {
                break;
            };
            let number = *number;
            self.close_port(number);
        }
        for place in 0..self.connections.len() {
            if let Some((number, _)) = self.connections.get_index(place) {
                let number = *number;
                self.hear_out(number);
            }
        }
        self.write_turn();
    }
}

/// What the log tells that an act has done; `None` of the close, which it tells otherwise.
fn did_of(act: &Act) -> Option<Did> {
    match act {
        Act::Close => None,
        Act::Revoke(request) => Some(Did::Revoked(*request)),
        Act::AddUser(user) => Some(Did::UserAdded(user.as_user().id)),
        Act::AddFloor(floor) => Some(Did::FloorAdded(floor.id)),
        Act::SetChair(floor, chair) => Some(Did::ChairSet {
            floor: *floor,
            chair: *chair,
        }),
    }
}

/// A conference that has no file, since the folder takes none.
fn unkept_of(conference: u32, fault: KeepFault) -> Unkept
    ensures value { result ≡ unkept_of conference fault }
{
    let cause = match fault {
        KeepFault::Memory => KeptFault::Memory,
        KeepFault::CannotKeep | KeepFault::Lost | KeepFault::Descriptors => KeptFault::CannotWrite,
    };
    Unkept {
        conference,
        cause,
        left: Left::Missing,
    }
}
