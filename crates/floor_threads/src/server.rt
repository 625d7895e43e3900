//! The server: its conferences, its ports, and what its administrator's lines do.

ghost use Rattle.std.specs.Prelude.{◌≡◌};

use crate::binding::{Binding, Shared};
use crate::fault::stopped;
use crate::port::Port;
use floor_config::Config;
use floor_console::{
    Board, BoardRefusal, Command, ConsoleFault, Floor, StopRefusal, Stopped, Text, User,
};
use floor_listen::{Chosen, Ports};
use floor_room::{Phase, Status};
use floor_serve::{Act, AddedUser, Desk, DeskRefusal, Gate, OpenRefusal};
use floor_server::{Entry, Reason, configurations, read_text};
use std::alloc::Global;
use std::net::{Net, TcpListener, TcpStream};
use std::rt::Files;
use std::sync::{Arc, Wait};
use std::thread::Threads;
use std::time::Clock;

/// The conferences that are served, and the ports that lead to them.
#[derive(Drop)]
pub struct Server<G, R> {
    rt: R,
    alloc: Global,
    shared: Arc<Shared<G>, Global>,
    ports: Ports<Port<G>>,
    /// What was done for a line that the board has yet to answer.
    prepared: Prepared,
    outcome: Option<Result<Stopped, StopRefusal>>,
    /// What a person has yet to be told of the last refusal.
    told: Option<String>,
}

/// What was done for a line ahead of the board's answer, since it needs threads, which the methods of a
/// trait can't start.
#[derive(Clone, Copy, Debug)]
enum Prepared {
    /// Nothing: the line needs no thread.
    Nothing,
    /// The conferences of an `open` line were opened, so many, or this refused it.
    Open(Result<usize, BoardRefusal>),
    /// The port of a `user` line is listened on, where it has one, or this refused it.
    User(Result<Listens, BoardRefusal>),
}

/// Whether a port is listened on for a user who is to be added.
#[derive(Clone, Copy, Debug)]
enum Listens {
    /// It is the last of the ports.
    OnAPort,
    /// The user has none.
    Nowhere,
}

impl<G, R> Server<G, R>
where
    G: Gate + Send + Sync + Drop + 'static,
    R: Net<Listener = TcpListener, Stream = TcpStream>
        + Files
        + AllocGlobal
        + Clock
        + Threads
        + Wait
        + Copy
        + Drop
        + Send
        + 'static,
{
    /// A server whose ports share this. Takes no memory.
    pub fn new(rt: R, alloc: Global, shared: Arc<Shared<G>, Global>) -> Server<G, R> {
        Server {
            rt,
            alloc,
            shared,
            ports: Ports::new(alloc),
            prepared: Prepared::Nothing,
            outcome: None,
            told: None,
        }
    }

    /// Does ahead of the board's answer what a command needs threads for: opens the conferences of an
    /// `open` line, and listens on the port of a `user` line. Any other command is left alone.
    pub fn prepare(&mut self, command: &Result<Command, ConsoleFault>) {
        self.prepared = match command {
            Ok(Command::Open { path }) => Prepared::Open(self.open_file(path.as_str())),
            Ok(Command::AddUser { conference, user }) => {
                Prepared::User(self.listen_for(*conference, user))
            }
            Ok(
                Command::Empty
                | Command::Close { .. }
                | Command::Revoke { .. }
                | Command::AddFloor { .. }
                | Command::SetChair { .. }
                | Command::Status { .. }
                | Command::Journal { .. }
                | Command::Stop,
            )
            | Err(_) => Prepared::Nothing,
        };
    }

    /// Listens on the port of a user who is to be added, if there is one. The conference is looked for
    /// first. Whoever connects before the user is added is shut down.
    fn listen_for(&mut self, conference: u32, user: &User) -> Result<Listens, BoardRefusal> {
        self.desk(conference)?;
        match user.port {
            None => Ok(Listens::Nowhere),
            Some(port) => {
                self.listen(conference, user.id, port)?;
                Ok(Listens::OnAPort)
            }
        }
    }

    /// Opens the conferences of a file, and tells how many.
    pub fn open_file(&mut self, path: &str) -> Result<usize, BoardRefusal> {
        let configs = match self.read(path) {
            Ok(configs) => configs,
            Err(reason) => return Err(self.refuse(reason)),
        };
        let mut count = 0usize;
        for config in configs {
            self.open_one(config)?;
            count = count.saturating_add(1);
        }
        Ok(count)
    }

    /// Reads and checks a file whole.
    fn read(&self, path: &str) -> Result<Vec<Config>, Reason> {
        let text = read_text(&self.rt, self.alloc, path)?;
        configurations(self.alloc, path, text.as_str())
    }

    /// Opens one conference: its number, then its ports, then itself.
    fn open_one(&mut self, config: Config) -> Result<(), BoardRefusal> {
        let conference = config.conference();
        match self.shared.registry.desk(&self.rt, conference) {
            Err(DeskRefusal::NoConference) => {}
            Err(DeskRefusal::Memory) => return Err(BoardRefusal::Memory),
            Ok(_) => return Err(BoardRefusal::Used),
        }
        match self.listen_and_open(config) {
            Ok(()) => Ok(()),
            Err(refusal) => {
                // What it had of ports is given back.
                self.close_ports(Chosen::Of(conference));
                Err(refusal)
            }
        }
    }

    /// Listens on the ports of a configuration's users, and then opens its conference. Whoever
    /// connects before that is shut down.
    fn listen_and_open(&mut self, config: Config) -> Result<(), BoardRefusal> {
        let conference = config.conference();
        for user in config.users() {
            match user.port {
                Some(port) => self.listen(conference, user.id, port)?,
                None => {}
            }
        }
        match self.shared.registry.open(&self.rt, config) {
            Ok(()) => {
                self.shared.tell(&self.rt, &Entry::Opened { conference });
                Ok(())
            }
            Err(OpenRefusal::Used) => Err(BoardRefusal::Used),
            Err(OpenRefusal::Memory) => Err(BoardRefusal::Memory),
        }
    }

    /// Listens on a user's port.
    fn listen(&mut self, conference: u32, user: u16, port: u16) -> Result<(), BoardRefusal> {
        let shared = Arc::try_clone(&self.shared)?;
        let binding = Binding::new(shared, conference, user, port);
        // Room first, so that a port that listens is kept.
        self.ports.reserve()?;
        match Port::open(self.rt, self.alloc, binding, port) {
            Ok(opened) => {
                self.ports.add(conference, opened);
                Ok(())
            }
            Err(fault) => {
                let reason = fault.reason(self.alloc, conference, user, port);
                Err(self.refuse(reason))
            }
        }
    }
}

impl<G: Drop, R: Clock + Threads + Wait + Drop> Server<G, R> {
    /// What the stop found, once it was asked for.
    pub fn outcome(&self) -> Option<Result<Stopped, StopRefusal>> {
        self.outcome
    }

    /// What a person is to be told of the last refusal, a line, once.
    pub fn take_told(&mut self) -> Option<String> {
        self.told.take()
    }

    /// Keeps what a person is to be told, and gives the refusal.
    fn refuse(&mut self, reason: Reason) -> BoardRefusal
        ensures value { result ≡ reason.refusal }
    {
        let Reason { refusal, line } = reason;
        self.told = line;
        refusal
    }

    /// Closes the chosen ports.
    fn close_ports(&mut self, chosen: Chosen) {
        let rt = &self.rt;
        self.ports.give_back(chosen, |port: Port<G>| port.close(rt));
    }

    /// Closes the port that was listened on last, where the user was refused whom it is for.
    fn give_back_refused(&mut self, outcome: &Result<(), BoardRefusal>) {
        match self.ports.give_back_refused(outcome) {
            Some(port) => port.close(&self.rt),
            None => {}
        }
    }

    /// The desk of a conference that was opened.
    fn desk(&self, conference: u32) -> Result<Desk, BoardRefusal> {
        match self.shared.registry.desk(&self.rt, conference) {
            Ok(desk) => Ok(desk),
            Err(DeskRefusal::NoConference) => Err(BoardRefusal::NoConference),
            Err(DeskRefusal::Memory) => Err(BoardRefusal::Memory),
        }
    }

    fn act(&mut self, conference: u32, act: Act) -> Result<(), BoardRefusal> {
        let desk = self.desk(conference)?;
        match desk.admin(&self.rt, act) {
            Ok(()) => Ok(()),
            Err(refusal) => {
                self.tell_if_broken(&desk);
                Err(BoardRefusal::ByRoom(refusal))
            }
        }
    }

    /// Adds a user. The port is this server's, and no part of the conference.
    fn add(&mut self, conference: u32, user: User) -> Result<(), BoardRefusal> {
        let user = AddedUser::new(self.alloc, User { port: None, ..user })?;
        self.act(conference, Act::AddUser(user))
    }

    /// Tells the log of a conference that is broken off.
    fn tell_if_broken(&self, desk: &Desk) {
        match (&self.shared.log, desk.status(&self.rt).phase) {
            (Some(log), Phase::Broken) => log.tell_broken(&self.rt, desk.conference()),
            _ => {}
        }
    }

    /// Ends the log, where there is one, once its last lines are written.
    pub fn end_log(&self) {
        match &self.shared.log {
            Some(log) => log.end(&self.rt),
            None => {}
        }
    }
}

impl<G: Drop, R: Clock + Threads + Wait + Drop> Board for Server<G, R> {
    ghost opens = { λ _ _ _ _. Unit {0} };

    ghost closes = { λ _ _ _ _. Unit {0} };

    ghost revokes = { λ _ _ _ _ _. Unit {0} };

    ghost adds_user = { λ _ _ _ _ _. Unit {0} };

    ghost adds_floor = { λ _ _ _ _ _. Unit {0} };

    ghost sets_chair = { λ _ _ _ _ _ _. Unit {0} };

    ghost stands = { λ _ _ _ _. Unit {0} };

    ghost lists = { λ _ _ _ _. Unit {0} };

    ghost stops = { λ _ _ _. Unit {0} };

    fn open(&mut self, _path: &str) -> Result<usize, BoardRefusal> {
        match self.prepared {
            Prepared::Open(outcome) => outcome,
            // Nothing was opened for it.
            Prepared::User(_) | Prepared::Nothing => Err(BoardRefusal::CannotRead),
        }
    }

    fn close(&mut self, conference: u32) -> Result<(), BoardRefusal> {
        self.act(conference, Act::Close)?;
        self.shared.tell(&self.rt, &Entry::Closed { conference });
        self.close_ports(Chosen::Of(conference));
        Ok(())
    }

    fn revoke(&mut self, conference: u32, request: u16) -> Result<(), BoardRefusal> {
        self.act(conference, Act::Revoke(request))
    }

    fn add_user(&mut self, conference: u32, user: User) -> Result<(), BoardRefusal> {
        let listens = match self.prepared {
            Prepared::User(outcome) => outcome?,
            Prepared::Open(_) | Prepared::Nothing => Listens::Nowhere,
        };
        let outcome = self.add(conference, user);
        match listens {
            Listens::OnAPort => self.give_back_refused(&outcome),
            Listens::Nowhere => {}
        }
        outcome
    }

    fn add_floor(&mut self, conference: u32, floor: Floor) -> Result<(), BoardRefusal> {
        self.act(conference, Act::AddFloor(floor))
    }

    fn set_chair(
        &mut self,
        conference: u32,
        floor: u16,
        chair: Option<u16>,
    ) -> Result<(), BoardRefusal> {
        self.act(conference, Act::SetChair(floor, chair))
    }

    fn status(&mut self, conference: u32) -> Result<Status, BoardRefusal> {
        Ok(self.desk(conference)?.status(&self.rt))
    }

    fn journal(&mut self, conference: u32) -> Result<Text, BoardRefusal> {
        let text = self.desk(conference)?.journal_text(&self.rt)?;
        Ok(Text::from_string(text))
    }

    fn stop(&mut self) -> Result<Stopped, StopRefusal> {
        let rt = &self.rt;
        // All of them first, so that the connections of all ports end beside each other.
        self.ports.each(|port: &Port<G>| port.end(rt));
        self.close_ports(Chosen::All);
        let Shared {
            registry,
            connections,
            gate: _,
            log: _,
        } = &*self.shared;
        let outcome = stopped(connections.finish(&self.rt, registry));
        self.outcome = Some(outcome);
        outcome
    }
}
