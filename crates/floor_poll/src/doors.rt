//! The doors: whoever connects to one says by a header who it is, and goes on to its conference's loop.
//!
//! They have a thread of their own, so that a connection is a loop's once it has a name. At the port for
//! health whoever connects is let go at once.

use crate::accepting::{ACCEPT_AGAIN_MILLIS, MAX_ACCEPTS};
use crate::arrival::Arrival;
use crate::counters::count_refused;
use crate::elapsed::{Elapsed, earlier};
use crate::header::{Header, Verdict};
use crate::log::tell;
use crate::mailbox::Mailbox;
use crate::owners::Owners;
use crate::port::{Accepted, accept};
use crate::worker::{REST_MILLIS, Room, WAKER};
use floor_control::RefusedCounts;
use floor_proxy::MAX_HEADER;
use floor_server::{Door, Entrance, Entry, Log, Peer, Refused, UserPort};
use floor_streams::{Found, read_some, shut_down};
use indexmap::IndexMap;
use mio::event::Event;
use mio::net::{TcpListener, TcpStream};
use mio::{Events, Interest, Poll, Token, Waker};
use std::alloc::{AllocError, Global};
use std::collections::VecDeque;
use std::sync::{Arc, Mutex, Wait};
use std::time::{Clock, Duration};
use std::{mem, thread};

/// How long a connection has to say who it is, in milliseconds.
const HEADER_MILLIS: u64 = 5_000;

/// How often a connection is read before others are.
const MAX_READS: usize = MAX_HEADER;

/// A door that is listened on.
#[derive(Drop)]
pub struct Listening {
    pub listener: TcpListener,
    pub door: Door,
    /// Whether its last accept failed.
    is_failing: bool,
    /// When it is looked at again, where somebody may still wait.
    again: Option<u64>,
}

impl Listening {
    /// A door that nobody was accepted at.
    pub fn new(listener: TcpListener, door: Door) -> Listening {
        Listening {
            listener,
            door,
            is_failing: false,
            again: None,
        }
    }
}

/// A connection that hasn't said who it is.
#[derive(Drop)]
struct Entering {
    stream: TcpStream,
    door: Door,
    /// Its own port.
    own: u16,
    header: Header,
}

/// What ends the doors.
#[derive(Drop)]
pub struct Gate {
    is_ending: Mutex<bool>,
    waker: Waker,
}

impl Gate {
    /// The doors are open. The waker ends their waiting.
    pub fn new(waker: Waker) -> Gate {
        Gate {
            is_ending: Mutex::new(false),
            waker,
        }
    }

    /// Ends them.
    pub fn end<R: Wait>(&self, rt: &R) {
        *self.is_ending.lock(rt) = true;
        let _woken = self.waker.wake();
    }

    fn is_ending<R: Wait>(&self, rt: &R) -> bool {
        *self.is_ending.lock(rt)
    }
}

/// Where somebody goes who has said who it is: which loop has which conference, and the loops; and where those are
/// counted who are refused.
#[derive(Drop)]
pub struct Ways {
    pub owners: Arc<Mutex<Owners>, Global>,
    pub loops: Vec<Arc<Mailbox, Global>>,
    pub refused: Arc<Mutex<RefusedCounts>, Global>,
}

/// The doors, and who has come to them.
#[derive(Drop)]
struct Doors<R> {
    rt: R,
    alloc: Global,
    poll: Poll,
    listening: Vec<Listening>,
    ways: Ways,
    entering: IndexMap<u64, Entering>,
    /// The number of the last connection.
    last: u64,
    /// The connections in the order in which they came, each with the time at which it has to have said who
    /// it is.
    until: VecDeque<(u64, u64)>,
    buffer: Vec<u8>,
    log: Option<Arc<Log, Global>>,
    elapsed: Elapsed,
    /// How late it is, in milliseconds since the thread began.
    now: u64,
}

/// Serves the doors until they are ended. Without room for their sockets nobody is let in.
pub fn serve_doors<R: Clock + Wait + Copy + Drop>(
    rt: R,
    alloc: Global,
    poll: Poll,
    log: Option<Arc<Log, Global>>,
    room: Room,
    listening: Vec<Listening>,
    ways: Ways,
    gate: &Gate,
) {
    let Room { events, buffer } = room;
    let doors = Doors {
        elapsed: Elapsed::begin(&rt),
        rt,
        alloc,
        poll,
        last: listening.len() as u64,
        listening,
        ways,
        entering: IndexMap::new(alloc),
        until: VecDeque::new(alloc),
        buffer,
        log,
        now: 0,
    };
    doors.run(gate, events);
}

impl<R: Clock + Wait + Copy + Drop> Doors<R> {
    fn run(mut self, gate: &Gate, mut events: Events<Global>) {
        let rt = self.rt;
        self.open();
        for _ in rt.forever() {
            let patience = self.patience();
            if self.poll.poll(&mut events, patience).is_err() {
                thread::sleep(&rt, Duration::from_millis(REST_MILLIS));
            }
            self.look();
            for event in &events {
                self.note(event);
            }
            self.accept_again();
            self.end_due();
            if gate.is_ending(&rt) {
                self.close();
                return;
            }
        }
    }

    /// Is told of who connects. A door's token is its place, counted from 1.
    fn open(&mut self) {
        let count = self.listening.len();
        for place in 0..count {
            if let Some(one) = self.listening.get_mut(place) {
                let token = Token(place.saturating_add(1));
                let registry = self.poll.registry();
                let outcome = registry.register(&mut one.listener, token, Interest::READABLE);
                let entry = match outcome {
                    Ok(()) => Entry::DoorListens(one.door),
                    Err(_) => Entry::DoorCannotAccept(one.door),
                };
                tell(&self.rt, &self.log, &entry);
            }
        }
    }

    /// Listens no longer.
    fn close(self) {
        let Doors {
            rt,
            listening,
            log,
            ..
        } = self;
        for one in listening {
            let door = one.door;
            drop(one);
            tell(&rt, &log, &Entry::DoorEnded(door));
        }
    }

    /// Looks at the clock.
    fn look(&mut self) {
        if let Some(millis) = self.elapsed.millis(&self.rt) {
            self.now = millis;
        }
    }

    /// How long it waits for its sockets at most.
    fn patience(&self) -> Option<Duration> {
        let mut next = self.until.front().map(|(_, until)| *until);
        for one in self.listening.iter() {
            next = earlier(next, one.again);
        }
        match next {
            Some(next) => Some(Duration::from_millis(next.saturating_sub(self.now))),
            None => None,
        }
    }

    /// Takes down what a socket is ready for.
    fn note(&mut self, event: &Event) {
        let token = event.token();
        if token == WAKER {
            return;
        }
        if token.0 <= self.listening.len() {
            self.accept_all(token.0.saturating_sub(1));
        } else {
            self.serve(token.0 as u64);
        }
    }

    /// Accepts who waits at a door, 64 at most at a time. Where an accept fails the door is looked at again after
    /// 100 milliseconds.
    fn accept_all(&mut self, place: usize) {
        for _ in 0..MAX_ACCEPTS {
            let Some(one) = self.listening.get_mut(place) else {
                return;
            };
            match accept(&one.listener) {
                Accepted::Stream(stream, own) => {
                    let door = one.door;
                    self.set_failing(place, false);
                    self.take_in(stream, door, own);
                }
                Accepted::Nobody => return,
                Accepted::Gone => {}
                Accepted::Failure => {
                    one.again = Some(self.now.saturating_add(ACCEPT_AGAIN_MILLIS));
                    self.set_failing(place, true);
                    return;
                }
            }
        }
        if let Some(one) = self.listening.get_mut(place) {
            one.again = Some(self.now);
        }
    }

    /// Looks again at the doors at which somebody may still wait, where it is time.
    fn accept_again(&mut self) {
        for place in 0..self.listening.len() {
            let now = self.now;
            let is_time = match self.listening.get_mut(place) {
                Some(one) if is_over(one.again, now) => {
                    one.again = None;
                    true
                }
                _ => false,
            };
            if is_time {
                self.accept_all(place);
            }
        }
    }

    /// Takes down whether a door's accept failed, and tells the log of a change.
    fn set_failing(&mut self, place: usize, is_failing: bool) {
        let Some(one) = self.listening.get_mut(place) else {
            return;
        };
        let door = one.door;
        let entry = match (mem::replace(&mut one.is_failing, is_failing), is_failing) {
            (false, true) => Entry::DoorCannotAccept(door),
            (true, false) => Entry::DoorAccepts(door),
            (true, true) | (false, false) => return,
        };
        tell(&self.rt, &self.log, &entry);
    }

    /// Waits for the header of a connection, for five seconds; at the port for health it is let go.
    fn take_in(&mut self, mut stream: TcpStream, door: Door, own: u16) {
        match door.entry {
            Entrance::ByCertificate | Entrance::ById => {}
            Entrance::Health => return,
        }
        if self.reserve().is_err() {
            return self.refuse(door, own, Refused::Memory);
        }
        let number = self.last.saturating_add(1);
        let token = Token(number as usize);
        let registry = self.poll.registry();
        if registry
            .register(&mut stream, token, Interest::READABLE)
            .is_err()
        {
            return self.refuse(door, own, Refused::Memory);
        }
        self.last = number;
        let header = Header::new(self.alloc);
        let _added = self.entering.insert(
            number,
            Entering {
                stream,
                door,
                own,
                header,
            },
        );
        let until = self.now.saturating_add(HEADER_MILLIS);
        let _added = self.until.push_back((number, until));
    }

    /// Takes room for one connection more.
    fn reserve(&mut self) -> Result<(), AllocError> {
        self.entering.reserve(1)?;
        self.until.reserve(1)
    }

    /// Reads from a connection, and decides once its header says enough.
    fn serve(&mut self, number: u64) {
        for _ in 0..MAX_READS {
            let Some(entering) = self.entering.get_mut(&number) else {
                return;
            };
            match hear(entering, &mut self.buffer) {
                Heard::Verdict(Verdict::Wait) => {}
                Heard::Verdict(verdict) => return self.decide(number, verdict),
                Heard::Nothing => return,
            }
        }
    }

    /// Does what a verdict says.
    fn decide(&mut self, number: u64, verdict: Verdict) {
        let Some(mut entering) = self.entering.swap_remove(&number) else {
            return;
        };
        match verdict {
            Verdict::Wait => {}
            Verdict::LetGo => shut_down(&mut entering.stream, self.buffer.as_mut_slice()),
            Verdict::Refuse(cause) => {
                self.refuse(entering.door, entering.own, cause);
                shut_down(&mut entering.stream, self.buffer.as_mut_slice());
            }
            Verdict::Enter {
                conference,
                user,
                len,
            } => self.bring(entering, conference, user, len),
        }
    }

    /// Has a connection go on to the loop of its conference.
    fn bring(&mut self, entering: Entering, conference: u32, user: u16, len: usize) {
        let Entering {
            mut stream,
            door,
            own,
            header,
        } = entering;
        // The loop's own set is told of it from now on.
        if self.poll.registry().deregister(&mut stream).is_err() {
            return self.refuse(door, own, Refused::Memory);
        }
        let Some(place) = self.ways.owners.lock(&self.rt).get(conference) else {
            return self.refuse(door, own, Refused::NoConference);
        };
        let to = UserPort {
            conference,
            user,
            port: door.port,
        };
        let arrival = Arrival {
            stream,
            door,
            peer: Peer { to, port: own },
            header: header.cut(len),
        };
        let brought = match self.ways.loops.get(place) {
            Some(one) => one.bring(&self.rt, arrival),
            None => Err(AllocError),
        };
        if brought.is_err() {
            self.refuse(door, own, Refused::Memory);
        }
    }

    /// Ends each connection whose time is over.
    fn end_due(&mut self) {
        for _ in 0..self.until.len() {
            match self.until.front() {
                Some((_, until)) if *until <= self.now => {}
                _ => return,
            }
            let Some((number, _)) = self.until.pop_front() else {
                return;
            };
            let found = self.entering.get(&number);
            let verdict = match found {
                Some(entering) => entering.header.verdict(entering.door.entry, true),
                None => continue,
            };
            self.decide(number, verdict);
        }
    }

    fn refuse(&self, door: Door, peer: u16, cause: Refused) {
        count_refused(&mut self.ways.refused.lock(&self.rt), cause);
        tell(
            &self.rt,
            &self.log,
            &Entry::RefusedAtDoor { door, peer, cause },
        );
    }
}

/// What was heard of a connection.
enum Heard {
    /// What follows from all that came.
    Verdict(Verdict),
    /// Nothing came at present.
    Nothing,
}

/// Reads once from a connection, no more than its header has room for, and says what follows.
fn hear(entering: &mut Entering, buffer: &mut Vec<u8>) -> Heard {
    let room = entering.header.room();
    let Some(buffer) = buffer.as_mut_slice().get_mut(..room) else {
        return Heard::Verdict(Verdict::Refuse(Refused::Memory));
    };
    let is_over = match read_some(&mut entering.stream, buffer) {
        Found::Bytes(count) => {
            if entering
                .header
                .push(buffer.get(..count).unwrap_or(&[]))
                .is_err()
            {
                return Heard::Verdict(Verdict::Refuse(Refused::Memory));
            }
            false
        }
        Found::Nothing => return Heard::Nothing,
        Found::End | Found::Failure => true,
    };
    Heard::Verdict(entering.header.verdict(entering.door.entry, is_over))
}

/// Whether a time, where there is one, has come.
fn is_over(time: Option<u64>, now: u64) -> bool {
    match time {
        Some(time) => time <= now,
        None => false,
    }
}
