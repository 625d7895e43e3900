//! The first thread, where it serves a control socket: it waits for clients, for the console and for the loops.

use crate::client::{Seat, hang_up};
use crate::console::{Descriptors, Standard};
use crate::following::Meeting;
use crate::listening::ControlSocket;
use crate::opening::Opened;
use floor_control::{ControlRefusal, Notice, add_refused};
use floor_poll::{
    ACCEPT_AGAIN_MILLIS, Elapsed, Inbox, MAX_ACCEPTS, Note, REST_MILLIS, Server, WAKER, earlier,
};
use indexmap::IndexMap;
use mio::event::Event;
use mio::net::UnixStream;
use mio::{Events, Interest, Poll, Token};
use std::alloc::{AllocError, Global};
use std::collections::VecDeque;
use std::fs::File;
use std::io::{Read, Write};
use std::net::Net;
use std::rt::Files;
use std::sync::{Arc, Wait};
use std::thread;
use std::thread::{JoinHandle, Threads};
use std::time::{Clock, Duration};

/// The tokens of the socket, of standard input and of standard output. A client's is its number, and the console
/// has a number of its own.
const SOCKET: Token = Token(1);

const INPUT: Token = Token(2);

const OUTPUT: Token = Token(3);

pub const CONSOLE: u64 = 4;

/// How many clients there are at most: our choice, more than one machine has programs that administer.
const MAX_CLIENTS: usize = 64;

/// How many notes are taken between two turns.
const MAX_NOTES: usize = 256;

/// How many steps a turn goes on with a line: it is begun, its answer is handed out and ended, and the next is begun.
const MAX_STEPS: u32 = 4;

/// The server with its control socket.
#[derive(Drop)]
pub struct Desk<R> {
    pub rt: R,
    pub alloc: Global,
    pub server: Server<R>,
    pub poll: Poll,
    pub inbox: Arc<Inbox, Global>,
    pub socket: Option<ControlSocket>,
    /// When somebody may still wait there.
    again: Option<u64>,
    pub clients: IndexMap<u64, Seat>,
    /// The number of the last client.
    last: u64,
    /// Who is to be served, each once.
    turns: VecDeque<u64>,
    pub input: Option<Standard>,
    pub output: Option<Standard>,
    /// What a person is told of what the console was refused.
    pub told: Option<String>,
    pub meetings: IndexMap<u32, Meeting>,
    /// The conferences that loops open.
    pub opening: IndexMap<u32, Opened>,
    /// Who reads a configuration for a client.
    pub readers: IndexMap<u64, JoinHandle<()>>,
    /// The conferences of which there is something to show, each once.
    pub feeds: VecDeque<u32>,
    /// How many conferences are followed.
    pub following: usize,
    /// Whether lines may wait until all are told of a conference that is to be forgotten.
    pub is_forgetting: bool,
    /// The number of the last ask for events.
    pub last_ask: u64,
    pub is_draining: bool,
    /// Whether the end of the console ends the server, as where there is no control socket.
    pub ends_with_console: bool,
    /// Whether it couldn't be written, and the server ends by that.
    pub has_lost_console: bool,
    /// How many loops were asked to tell once none of their conferences is open, and how many have told.
    pub asked_to_drain: usize,
    pub drained: usize,
    /// By when the server stops since none of its conferences is open any more.
    pub stops_by: Option<u64>,
    /// The client that has stopped the server.
    pub stopper: Option<u64>,
    pub buffer: Vec<u8>,
    elapsed: Elapsed,
    pub now: u64,
}

impl<R> Desk<R>
where
    R: Net
        + Files<File = File>
        + AllocGlobal
        + Clock
        + Threads
        + Wait
        + Copy
        + Drop
        + Send
        + 'static,
{
    /// A server without a socket yet. Takes no memory.
    pub fn new(
        rt: R,
        alloc: Global,
        server: Server<R>,
        poll: Poll,
        inbox: Arc<Inbox, Global>,
        buffer: Vec<u8>,
    ) -> Desk<R> {
        Desk {
            elapsed: Elapsed::begin(&rt),
            rt,
            alloc,
            server,
            poll,
            inbox,
            socket: None,
            again: None,
            clients: IndexMap::new(alloc),
            last: CONSOLE,
            turns: VecDeque::new(alloc),
            input: None,
            output: None,
            told: None,
            meetings: IndexMap::new(alloc),
            opening: IndexMap::new(alloc),
            readers: IndexMap::new(alloc),
            feeds: VecDeque::new(alloc),
            following: 0,
            is_forgetting: false,
            last_ask: 0,
            is_draining: false,
            ends_with_console: false,
            has_lost_console: false,
            asked_to_drain: 0,
            drained: 0,
            stops_by: None,
            stopper: None,
            buffer,
            now: 0,
        }
    }

    /// Listens at a path.
    pub fn listen(&mut self, path: &str) -> std::io::Result<()> {
        let path = String::from_str(self.alloc, path)?;
        let mut socket = ControlSocket::open(&self.rt, path)?;
        let registered = socket.register(self.poll.registry(), SOCKET);
        self.socket = Some(socket);
        registered
    }

    /// Takes the console in.
    pub fn take_console(&mut self, descriptors: Descriptors) -> Result<(), AllocError> {
        self.clients.reserve(1)?;
        let Descriptors { input, output } = descriptors;
        let registry = self.poll.registry();
        self.input = Some(Standard::new(registry, input, INPUT, Interest::READABLE));
        self.output = Some(Standard::new(registry, output, OUTPUT, Interest::WRITABLE));
        let _added = self.clients.insert(CONSOLE, Seat::new(self.alloc, None));
        Ok(())
    }

    /// Serves until the server has stopped, and what answers that is written.
    pub fn run<I: Read, O: Write, E: Write>(
        &mut self,
        mut events: Events<Global>,
        input: &mut I,
        output: &mut O,
        errors: &mut E,
    ) {
        let rt = self.rt;
        for _ in rt.forever() {
            self.await_console();
            let patience = self.patience();
            self.wait(&mut events, patience);
            for event in &events {
                self.note(event);
            }
            self.take_notes();
            self.accept_again();
            self.serve_turns();
            self.feed_all();
            self.go_on_forgetting();
            self.serve_console(input, output, errors);
            self.stop_at_end();
            self.stop_drained();
            if self.server.is_lost() {
                return;
            }
            if self.server.outcome().is_some() {
                break;
            }
        }
        self.end(&mut events, output);
    }

    /// Waits for the sockets.
    pub fn wait(&mut self, events: &mut Events<Global>, patience: Option<Duration>) {
        if self.poll.poll(events, patience).is_err() {
            thread::sleep(&self.rt, Duration::from_millis(REST_MILLIS));
        }
        self.look();
    }

    /// Looks at the clock.
    pub fn look(&mut self) {
        if let Some(millis) = self.elapsed.millis(&self.rt) {
            self.now = millis;
        }
    }

    /// How long it waits at most: not at all while somebody is to be served.
    fn patience(&self) -> Option<Duration> {
        if !self.turns.is_empty() || !self.feeds.is_empty() || self.is_console_ready() {
            return Some(Duration::ZERO);
        }
        if 0 < self.inbox.waiting(&self.rt) {
            return Some(Duration::ZERO);
        }
        match earlier(self.again, self.stops_by) {
            Some(next) => Some(Duration::from_millis(next.saturating_sub(self.now))),
            None => None,
        }
    }

    /// Takes down what a socket is ready for.
    pub fn note(&mut self, event: &Event) {
        let token = event.token();
        if token == WAKER {
            return;
        }
        if token == SOCKET {
            self.accept_all();
        } else if token == INPUT {
            mark(&mut self.input);
        } else if token == OUTPUT {
            mark(&mut self.output);
        } else {
            self.note_at(token.0 as u64, event);
        }
    }

    fn note_at(&mut self, number: u64, event: &Event) {
        let Some(seat) = self.clients.get_mut(&number) else {
            return;
        };
        if event.is_readable() || event.is_read_closed() || event.is_error() {
            seat.is_readable = true;
        }
        if event.is_writable() || event.is_write_closed() || event.is_error() {
            seat.is_blocked = false;
        }
        self.queue(number);
    }

    /// Takes what the loops have told.
    fn take_notes(&mut self) {
        for _ in 0..MAX_NOTES {
            match self.inbox.take(&self.rt) {
                Some(note) => self.take_note(note),
                None => return,
            }
        }
    }

    fn take_note(&mut self, note: Note) {
        match note {
            Note::Answered { asker, answer } => self.take_answer(asker, answer),
            Note::Grown { conference } => self.take_growth(conference),
            Note::Read { client, read } => self.take_read(client, read),
            Note::Away {
                conference,
                user,
                n,
                events,
            } => self.notify(conference, u64::from(events), Notice::Away { n, user }),
            Note::Back {
                conference,
                user,
                n,
                events,
            } => self.notify(conference, u64::from(events), Notice::Back { n, user }),
            Note::Unkept { conference } => self.notify(conference, 0, Notice::Unkept),
            Note::Lost(fault) => self.server.lose(fault),
        }
    }

    /// Accepts who waits at the socket, 64 at most at a time.
    fn accept_all(&mut self) {
        self.again = None;
        for _ in 0..MAX_ACCEPTS {
            let accepted = match &self.socket {
                Some(socket) => socket.accept(),
                None => return,
            };
            match accepted {
                Ok(Some(stream)) => self.take_in(stream),
                Ok(None) => return,
                Err(_) => {
                    self.again = Some(self.now.saturating_add(ACCEPT_AGAIN_MILLIS));
                    return;
                }
            }
        }
        self.again = Some(self.now);
    }

    /// Looks again where somebody may still wait, once it is time.
    fn accept_again(&mut self) {
        match self.again {
            Some(again) if again <= self.now => self.accept_all(),
            _ => {}
        }
    }

    /// Takes a client in, where there are fewer than 64.
    fn take_in(&mut self, mut stream: UnixStream) {
        let count = self.clients.len().saturating_sub(self.console_count());
        if MAX_CLIENTS <= count {
            refuse(self.alloc, &mut stream);
            return hang_up(stream, &mut self.buffer);
        }
        let turns = self.clients.len().saturating_add(1);
        if self.clients.reserve(1).is_err() || self.turns.reserve(turns).is_err() {
            return;
        }
        self.last = self.last.saturating_add(1);
        let token = Token(self.last as usize);
        let interests = Interest::READABLE | Interest::WRITABLE;
        let registry = self.poll.registry();
        if registry.register(&mut stream, token, interests).is_err() {
            return;
        }
        let seat = Seat::new(self.alloc, Some(stream));
        let _added = self.clients.insert(self.last, seat);
        self.queue(self.last);
    }

    /// How many of the clients are the console.
    fn console_count(&self) -> usize {
        if self.clients.get(&CONSOLE).is_some() {
            1
        } else {
            0
        }
    }

    /// Has a client served, each once. Whoever has been served and isn't queued has nothing to be done until something
    /// comes for it, so whatever comes for a client queues it: what its socket is ready for, what a loop or a reader
    /// answers it, what is shown of a conference that it watches, and that all were told of one that it has forgotten.
    pub fn queue(&mut self, number: u64) {
        let Some(seat) = self.clients.get_mut(&number) else {
            return;
        };
        if !seat.is_queued {
            // There is room for it since it was taken in.
            seat.is_queued = self.turns.push_back(number).is_ok();
            seat.has_failed = seat.has_failed || !seat.is_queued;
        }
    }

    /// Has a client closed, at its next turn.
    pub fn fail(&mut self, number: u64) {
        if let Some(seat) = self.clients.get_mut(&number) {
            seat.has_failed = true;
        }
        self.queue(number);
    }

    /// Gives each that is to be served a turn.
    fn serve_turns(&mut self) {
        for _ in 0..self.turns.len() {
            let Some(number) = self.turns.pop_front() else {
                return;
            };
            self.serve_turn(number);
        }
    }

    /// Gives a client a turn, and one more where this one has done anything; or closes it.
    fn serve_turn(&mut self, number: u64) {
        let Some(seat) = self.clients.get_mut(&number) else {
            return;
        };
        seat.is_queued = false;
        let has_moved = self.serve(number);
        if self.is_over(number) {
            self.close(number);
        } else if has_moved {
            self.queue(number);
        }
    }

    /// Does whatever may be done for a client, and says whether anything was: reads once, goes on with the line that it
    /// has at work and with what it is behind with, tells it what is no event, and writes. Each of these may let another go on, so only behind a
    /// turn in which none of them did anything there is nothing left to do.
    fn serve(&mut self, number: u64) -> bool {
        let has_read = self.read(number);
        let has_answered = self.advance_far(number);
        let has_shown = self.catch_up(number);
        let has_told = self.tell_notices(number);
        let has_written = self.write(number);
        has_read || has_answered || has_shown || has_told || has_written
    }

    /// Reads once from a client, and says whether anything came of that.
    fn read(&mut self, number: u64) -> bool {
        match self.clients.get_mut(&number) {
            Some(seat) => seat.read(&mut self.buffer),
            None => false,
        }
    }

    /// Writes to a client, and says whether anything came of that.
    fn write(&mut self, number: u64) -> bool {
        match self.clients.get_mut(&number) {
            Some(seat) => seat.write(),
            None => false,
        }
    }

    /// Whether a client is to be closed.
    fn is_over(&self, number: u64) -> bool {
        match self.clients.get(&number) {
            Some(seat) => seat.is_over(),
            None => false,
        }
    }

    /// Goes on with a client's line as far as a short answer goes, and says whether it came any further.
    fn advance_far(&mut self, number: u64) -> bool {
        let mut has_moved = false;
        for _ in 0..MAX_STEPS {
            if !self.advance(number) {
                break;
            }
            has_moved = true;
        }
        has_moved
    }

    /// Closes a client.
    pub fn close(&mut self, number: u64) {
        let Some(seat) = self.clients.swap_remove(&number) else {
            return;
        };
        for (conference, _) in seat.watched.iter() {
            self.unfollow(*conference, number);
        }
        if seat.is_console() {
            self.leave_console();
        }
        seat.close(&mut self.buffer);
    }
}

/// Tells a client that there are too many, where it takes it at once.
fn refuse(alloc: Global, stream: &mut UnixStream) {
    let mut text = String::new(alloc);
    if add_refused(&mut text, ControlRefusal::Full).is_ok() {
        let _written = stream.write(text.as_str().as_bytes());
    }
}

/// Takes it that a standard stream is ready, where it is one of the sockets.
fn mark(standard: &mut Option<Standard>) {
    if let Some(standard) = standard {
        standard.is_ready = true;
    }
}
