//! The gateway: its socket, the sessions of its users, and their connections to the server.

ghost use Rattle.std.specs.Prelude.{◌≡◌, take};
ghost use Rattle.floor_datagram.specs.SessionView.{IsLimit};

use crate::allowance::Allowance;
use crate::entry::Entry;
use crate::following::Following;
use crate::input::Stop;
use crate::link::Link;
use crate::place::Place;
use crate::table::Table;
use bytes::Bytes;
use floor_datagram::Terms;
use floor_log::Log;
use floor_sessions::Sessions;
use indexmap::IndexMap;
use mio::event::Event;
use mio::net::UdpSocket;
use mio::{Events, Poll, Token};
use std::alloc::{AllocError, Global};
use std::collections::VecDeque;
use std::net::Net;
use std::sync::{Arc, Wait};
use std::thread;
use std::time::{Clock, Duration, Instant};

/// The tokens of the waker, of the socket and of the control socket. A connection's is its number.
pub const WAKER: Token = Token(0);

pub const SOCKET: Token = Token(1);

pub const CONTROL: Token = Token(2);

const FIRST_LINK: u64 = 3;

/// How many sockets are told to be ready at a time.
const MAX_EVENTS: usize = 1_024;

/// How many bytes are read at a time: the longest datagram's.
const READ_LEN: usize = 65_536;

/// How many Errors outside of a session are sent a second.
const ERRORS: u32 = 20;

/// How long it rests where it can't wait for its sockets, in milliseconds.
const REST_MILLIS: u64 = 10;

/// How often what was dropped is told, in milliseconds.
const TOLD_MILLIS: u64 = 60_000;

/// What is the same for all sessions.
#[derive(Clone, Copy, Debug)]
pub struct Manner {
    /// The server's door by id.
    pub door: u16,
    /// How many bytes a datagram has at most that is sent.
    pub datagram: u16,
    /// After how many seconds of silence a peer that holds something is asked.
    pub probe: u16,
}

/// The gateway.
#[derive(Drop)]
pub struct Gate<R> {
    pub rt: R,
    pub alloc: Global,
    pub manner: Manner,
    pub poll: Poll,
    pub socket: UdpSocket,
    /// Whether there may be datagrams to receive.
    pub is_readable: bool,
    /// The users, each at its place, and what stands beside their sessions there.
    pub table: Table,
    pub places: Vec<Place>,
    pub sessions: Sessions,
    /// The connections to the server, by their number; and the number of the last one.
    pub links: IndexMap<u64, Link>,
    pub last: u64,
    /// Which of them are to be served, each once.
    pub turns: VecDeque<u64>,
    /// When something is due of a session or of a connection, as far as is known.
    pub next: Option<u64>,
    /// What a session sends, until it is sent.
    pub down: Vec<Bytes>,
    pub errors: Allowance,
    /// What was dropped since that was told, and when it is told.
    pub dropped: u64,
    tell_at: u64,
    pub following: Option<Following>,
    pub buffer: Vec<u8>,
    log: Option<Arc<Log, Global>>,
    stop: Arc<Stop, Global>,
    /// By when it ends, once its input has ended.
    pub stops_by: Option<u64>,
    begun: Option<Instant>,
    /// How late it is, in milliseconds since it began.
    pub now: u64,
}

impl<R> Gate<R>
where
    R: Net + Clock + Wait + Copy + Drop,
{
    /// A gateway for these users, who have no sessions yet.
    pub fn new(
        rt: R,
        alloc: Global,
        manner: Manner,
        poll: Poll,
        socket: UdpSocket,
        table: Table,
        following: Option<Following>,
        log: Option<Arc<Log, Global>>,
        stop: Arc<Stop, Global>,
    ) -> Result<Gate<R>, AllocError> {
        let mut gate = Gate {
            rt,
            alloc,
            manner,
            poll,
            socket,
            is_readable: true,
            table,
            places: Vec::new(alloc),
            sessions: Sessions::new(alloc),
            links: IndexMap::new(alloc),
            last: FIRST_LINK,
            turns: VecDeque::new(alloc),
            next: None,
            down: Vec::new(alloc),
            errors: Allowance::new(ERRORS, ERRORS, 0),
            dropped: 0,
            tell_at: TOLD_MILLIS,
            following,
            buffer: Vec::from_elem(alloc, 0u8, READ_LEN)?,
            log,
            stop,
            stops_by: None,
            begun: Instant::now(&rt).ok(),
            now: 0,
        };
        gate.add_places()?;
        Ok(gate)
    }

    /// Has as many places as the table has.
    pub fn add_places(&mut self) -> Result<(), AllocError> {
        for _ in self.places.len()..self.table.len() {
            match self.places.push(Place::new(self.now)) {
                Ok(()) => self.sessions.add()?,
                Err(_) => return Err(AllocError),
            }
        }
        Ok(())
    }

    /// Serves until its input has ended, and all were told of that.
    pub fn run(&mut self, mut events: Events<Global>) {
        let rt = self.rt;
        for _ in rt.forever() {
            let patience = self.patience();
            if self.poll.poll(&mut events, Some(patience)).is_err() {
                thread::sleep(&rt, Duration::from_millis(REST_MILLIS));
            }
            self.look();
            for event in &events {
                self.note(event);
            }
            self.receive_some();
            self.serve_turns();
            self.follow();
            self.be_late();
            self.tell_dropped();
            if self.stop.has_come() {
                self.begin_stop();
            }
            if self.is_over() {
                return;
            }
        }
    }

    /// Room for what the system tells.
    pub fn events(alloc: Global) -> Result<Events<Global>, AllocError> {
        Events::with_capacity(alloc, MAX_EVENTS)
    }

    /// Looks at the clock.
    fn look(&mut self) {
        if let (Some(begun), Ok(now)) = (self.begun, Instant::now(&self.rt)) {
            let millis = now.duration_since(begun).as_millis();
            self.now = u64::try_from(millis).unwrap_or(u64::MAX);
        }
    }

    /// How long it waits at most: not at all while anything is to be served.
    fn patience(&self) -> Duration {
        if self.is_readable || !self.turns.is_empty() {
            return Duration::ZERO;
        }
        let mut next = self.tell_at;
        for time in [self.next, self.next_following(), self.stops_by] {
            if let Some(time) = time {
                next = next.min(time);
            }
        }
        Duration::from_millis(next.saturating_sub(self.now))
    }

    /// Takes down what a socket is ready for.
    fn note(&mut self, event: &Event) {
        let token = event.token();
        if token == WAKER {
            return;
        }
        if token == SOCKET {
            self.is_readable = true;
        } else if token == CONTROL {
            if let Some(following) = &mut self.following {
                following.is_readable = true;
            }
        } else {
            self.note_link(token.0 as u64, event);
        }
    }

    fn note_link(&mut self, number: u64, event: &Event) {
        let Some(link) = self.links.get_mut(&number) else {
            return;
        };
        if event.is_readable() || event.is_read_closed() || event.is_error() {
            link.is_readable = true;
        }
        if event.is_writable() || event.is_error() {
            link.unblock();
        }
        self.queue(number);
    }

    /// Has a connection served, once.
    pub fn queue(&mut self, number: u64) {
        if let Some(link) = self.links.get_mut(&number) {
            if !link.is_queued {
                // There is room for it since it was opened.
                link.is_queued = self.turns.push_back(number).is_ok();
            }
        }
    }

    /// What holds of the session of a user of a conference.
    pub fn terms(&self, conference: u32, user: u16) -> Terms
        ensures limit { IsLimit result }
    {
        Terms {
            conference,
            user,
            limit: usize::from(self.manner.datagram).max(576),
            probe: u64::from(self.manner.probe).saturating_mul(1_000),
        }
    }

    /// Tells the log, where there is one.
    pub fn tell(&self, entry: &Entry) {
        if let Some(log) = &self.log {
            log.tell(&self.rt, entry.text(self.alloc));
        }
    }

    /// Ends the log, where there is one.
    pub fn end_log(&self) {
        if let Some(log) = &self.log {
            log.end(&self.rt);
        }
    }

    /// Tells how much was dropped, once a minute, where anything was.
    fn tell_dropped(&mut self) {
        if self.now < self.tell_at {
            return;
        }
        if 0 < self.dropped {
            self.tell(&Entry::Dropped(self.dropped));
        }
        self.dropped = 0;
        self.tell_at = self.now.saturating_add(TOLD_MILLIS);
    }

    /// A datagram is as if the network had lost it.
    pub fn drop_one(&mut self) {
        self.dropped = self.dropped.saturating_add(1);
    }
}

/// The first bytes of a buffer.
pub fn front(buffer: &[u8], len: usize) -> &[u8]
    ensures value { result.now ≡ take len buffer.now }
{
    let len = len.min(buffer.len());
    &buffer[..len]
}
