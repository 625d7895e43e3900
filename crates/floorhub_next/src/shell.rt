//! The value, and the system under it: what the poll tells is handed in, what is to be done is done, and the
//! administrator's lines are answered.

use crate::asking::ASKED;
use crate::reading::READ;
use crate::system::{Handle, System};
use floor_console::{BoardRefusal, Command, ConsoleFault, run_command};
use floor_listen::{Ending, ServerFault, ended};
use floor_log::Log;
use floor_program::{Console, Counts, HttpPort, INPUT, OUTPUT, now_since};
use floor_server::{Door, Entrance, Words, fault_of_opening, fault_of_stop, print};
use floor_service::{NamedBy, Now, Place, Service};
use mio::Token;
use mio::event::Event;
use std::alloc::{AllocError, Global};
use std::collections::VecDeque;
use std::sync::{Arc, Wait};
use std::thread;
use std::thread::Threads;
use std::time::{Clock, Duration, Instant};

/// How many deeds are done, and for how many microseconds, until the poll is asked again, so that who floods holds up no
/// one's word.
const MAX_DEEDS: u32 = 256;

const MAX_MICROS: u64 = 100;

/// How long the program rests that can't wait for its sockets, in milliseconds.
const REST_MILLIS: u64 = 10;

/// The value and the system.
#[derive(Drop)]
pub struct Shell {
    pub server: Service,
    pub system: System,
    pub console: Console,
    pub log: Option<Arc<Log, Global>>,
    /// What the log is to be told.
    told: VecDeque<Result<String, AllocError>>,
    begun: Option<Instant>,
    pub now: Now,
    /// When it began, in milliseconds since 1970-01-01T00:00:00Z.
    pub since: u64,
    pub counts: Counts,
    /// Once it stops: whether the administrator has asked for that, or by which fault.
    served: Option<Result<(), ServerFault>>,
    /// Whether the value has ended.
    has_ended: bool,
}

impl Shell {
    /// A value that serves nobody yet.
    pub fn new(
        server: Service,
        system: System,
        begun: Option<Instant>,
        log: Option<Arc<Log, Global>>,
    ) -> Shell {
        let (alloc, now) = (system.alloc, now_since(&system.rt, begun));
        Shell {
            server,
            console: Console::new(alloc, system.poll.registry()),
            log,
            told: VecDeque::new(alloc),
            now,
            since: now.unix_millis,
            counts: Counts::new(alloc),
            begun,
            served: None,
            has_ended: false,
            system,
        }
    }

    /// Serves by the words until all is done, and says how that ended.
    pub fn serve<R: Clock + Threads + Wait>(&mut self, waits: &R, words: &Words) -> Ending {
        match self.begin(words) {
            Ok(()) => {}
            Err(fault) => self.stop(Err(fault)),
        }
        self.go_on(waits);
        self.system.let_go();
        self.end_log(waits);
        ended(self.last_words(), self.found())
    }

    /// Opens the conferences of the file, and then the doors to them and the sockets of control clients.
    fn begin(&mut self, words: &Words) -> Result<(), ServerFault> {
        match self.open_all(words) {
            Ok(()) => self.tell_output("ready\n"),
            Err(refusal) => Err(fault_of_opening(refusal)),
        }
    }

    fn open_all(&mut self, words: &Words) -> Result<(), BoardRefusal> {
        let _count = self.open_file(words.path.as_str())?;
        for door in words.doors.iter() {
            self.system.bind_door(*door)?;
            self.open_door(*door)?;
        }
        self.open_sockets(words)
    }

    /// Has control clients let in, by whom the console may end, and those that look alone.
    fn open_sockets(&mut self, words: &Words) -> Result<(), BoardRefusal> {
        if let Some(path) = &words.control {
            let (path, mode) = (path.as_str(), words.control_mode);
            self.system.control = Some(self.system.bind_path("--control", path, mode)?);
            self.server.clients(Place::Control)?;
            self.console.may_end = true;
        }
        if let Some(port) = words.http {
            self.system.open_http(port)?;
        }
        if let Some(path) = &words.observe {
            let (path, mode) = (path.as_str(), words.observe_mode);
            self.system.observe = Some(self.system.bind_path("--observe", path, mode)?);
            self.server.clients(Place::Observe)?;
        }
        Ok(())
    }

    fn open_door(&mut self, door: Door) -> Result<(), AllocError> {
        match door.entry {
            Entrance::ByCertificate => self.server.door(NamedBy::Certificate, door.port),
            Entrance::ById => self.server.door(NamedBy::UniqueId, door.port),
            Entrance::Health => self.server.health(door.port),
        }
    }

    /// Has the value stop. No line is answered any more.
    fn stop(&mut self, served: Result<(), ServerFault>) {
        self.served = Some(served);
        self.server.stop(self.now);
    }

    /// Serves until all is done.
    fn go_on<R: Clock + Threads + Wait>(&mut self, waits: &R) {
        for _ in waits.forever() {
            self.see_to_reading(waits);
            let is_done = self.settle();
            self.tell_log(waits);
            if self.has_ended {
                break;
            }
            self.wait(is_done);
            self.see_to_http();
            self.see_to_console();
        }
    }

    /// Does what is to be done, so many deeds at most, and says whether there are no more.
    pub fn settle(&mut self) -> bool {
        self.look();
        let until = self.now.micros.saturating_add(MAX_MICROS);
        for _ in 0..MAX_DEEDS {
            if self.has_ended {
                return true;
            }
            if until < self.now.micros {
                return false;
            }
            match self.server.next() {
                Some(deed) => self.do_deed(deed),
                None => {
                    // Nobody asks for these ports any more.
                    self.system.bound.clear();
                    return true;
                }
            }
            self.look();
        }
        false
    }

    /// Looks at the clock, and tells the value.
    fn look(&mut self) {
        self.now = now_since(&self.system.rt, self.begun);
        self.server.time(self.now);
    }

    /// All is done. Where the administrator hasn't asked for that a client has, or a port of the start couldn't be listened
    /// on.
    pub fn end(&mut self, has_fault: bool) {
        self.has_ended = true;
        if self.served.is_none() {
            self.served = Some(match has_fault {
                true => Err(ServerFault::CannotListen),
                false => Ok(()),
            });
        }
    }

    /// Waits for the sockets, and hands in the time and what the poll tells.
    fn wait(&mut self, is_done: bool) {
        let most = self.patience(is_done);
        let system = &mut self.system;
        if system.poll.poll(&mut system.events, most).is_err() {
            thread::sleep(&system.rt, Duration::from_millis(REST_MILLIS));
        }
        self.look();
        for event in &self.system.events {
            match event.token() {
                INPUT | OUTPUT => self.console.note(event.token()),
                READ => self.system.reader.is_done = true,
                Token(number) if ASKED <= number => note_asked(&mut self.system.http, number),
                Token(number) => hand_in(&mut self.server, &self.system.handles, number, event),
            }
        }
    }

    /// How long the sockets are waited for: not at all where more is to be done here or for the console, and else until the
    /// value wants the time.
    fn patience(&mut self, is_done: bool) -> Option<Duration> {
        let is_wanted = self.system.reader.is_wanted();
        if !is_done || is_wanted || (self.served.is_none() && self.console.is_ready()) {
            return Some(Duration::ZERO);
        }
        let asked = match &self.system.http {
            Some(http) if http.is_ready() => return Some(Duration::ZERO),
            Some(http) => http.due(),
            None => None,
        };
        let due = earlier(self.server.due(), asked)?;
        Some(Duration::from_micros(due.saturating_sub(self.now.micros)))
    }

    /// Sees to the administrator, while it serves.
    fn see_to_console(&mut self) {
        if self.served.is_some() {
            return;
        }
        match self.converse() {
            Ok(()) => {}
            Err(fault) => self.stop(Err(fault)),
        }
    }

    /// Reads standard input and writes standard output, once each, where they are ready, and answers the next line.
    fn converse(&mut self) -> Result<(), ServerFault> {
        self.serve_console()?;
        let alloc = self.system.alloc;
        self.console.tell_on(alloc, &self.server)?;
        match self.console.next(alloc)? {
            Some(command) => self.carry_out(command),
            None => Ok(()),
        }
    }

    fn serve_console(&mut self) -> Result<(), ServerFault> {
        let (system, console) = (&mut self.system, &mut self.console);
        let (registry, buffer) = (system.poll.registry(), system.buffer.as_mut_slice());
        console.serve(
            registry,
            &mut system.rt.stdin(),
            &mut system.rt.stdout(),
            buffer,
        )
    }

    /// Answers a line. That it asks for a stop is answered once all is done.
    fn carry_out(&mut self, command: Result<Command, ConsoleFault>) -> Result<(), ServerFault> {
        if let Ok(Command::Stop) = &command {
            self.stop(Ok(()));
            return Ok(());
        }
        let text = self.answer(command)?;
        self.console.answer(text);
        Ok(())
    }

    /// What answers a line.
    fn answer(&mut self, command: Result<Command, ConsoleFault>) -> Result<String, AllocError> {
        let alloc = self.system.alloc;
        match &command {
            Ok(Command::Open { .. }) if self.server.is_draining() => {
                String::from_str(alloc, "error Draining\n")
            }
            _ => run_command(alloc, self, command),
        }
    }

    /// Tells standard output; where the console may end it needs no reader.
    fn tell_output(&self, text: &str) -> Result<(), ServerFault> {
        match print(&mut self.system.rt.stdout(), text) {
            Err(_) if self.console.may_end => Ok(()),
            printed => printed,
        }
    }

    /// Whether it served in order; where it did standard output is told how it stopped.
    fn last_words(&mut self) -> Result<(), ServerFault> {
        if let Some(Err(fault)) = self.served {
            return Err(fault);
        }
        let text = self.answer(Ok(Command::Stop))?;
        self.tell_output(text.as_str())
    }

    /// What the stop has found wrong.
    fn found(&self) -> Result<(), ServerFault> {
        match self.report() {
            Ok(_) => Ok(()),
            Err(refusal) => Err(fault_of_stop(refusal)),
        }
    }

    /// The log is to be told this, where there is one, as far as memory can be had for it.
    pub fn note(&mut self, text: Result<String, AllocError>) {
        if self.log.is_some() {
            let _noted = self.told.push_back(text);
        }
    }

    /// Tells the log what it is to be told.
    fn tell_log<R: Clock + Wait>(&mut self, waits: &R) {
        let Some(log) = &self.log else {
            return;
        };
        for text in self.told.drain(..) {
            log.tell(waits, text);
        }
    }

    /// Ends the log once its last lines are written.
    fn end_log<R: Wait>(&self, waits: &R) {
        if let Some(log) = &self.log {
            log.end(waits);
        }
    }
}

/// The earlier of two times.
fn earlier(one: Option<u64>, other: Option<u64>) -> Option<u64> {
    match (one, other) {
        (Some(one), Some(other)) => Some(one.min(other)),
        (Some(time), None) | (None, Some(time)) => Some(time),
        (None, None) => None,
    }
}

/// The poll told of the port at which is answered by HTTP.
fn note_asked(http: &mut Option<HttpPort>, token: usize) {
    if let Some(http) = http {
        http.note(token);
    }
}

/// Hands in what the poll told of a socket or a listener.
fn hand_in(server: &mut Service, handles: &[Handle], number: usize, event: &Event) {
    match handles.get(number) {
        Some(Handle::Listener(_) | Handle::Clients(_)) => return server.knocked(number),
        _ => {}
    }
    let ends = event.is_read_closed() || event.is_error();
    if event.is_readable() || ends {
        server.readable(number, ends);
    }
    if event.is_writable() || event.is_error() {
        server.writable(number);
    }
}
