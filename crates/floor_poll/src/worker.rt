//! A loop's thread: it waits for its sockets, and for what the first thread asks.

use crate::away::Away;
use crate::connection::Connection;
use crate::counters::no_counts;
use crate::elapsed::{Elapsed, earlier};
use crate::inbox::Inbox;
use crate::keeping::{Held, LAST_MILLIS};
use crate::lasting::Lasting;
use crate::log::tell;
use crate::mailbox::{Answer, Mailbox, Report};
use crate::places::Places;
use crate::port::Port;
use floor_control::Metrics;
use floor_keep::{Folder, KeepFault, Keeper};
use floor_loop::{ConnNo, Grace, Loop};
use floor_room::Phase;
use floor_server::{Entry, Log};
use indexmap::IndexMap;
use mio::event::Event;
use mio::{Events, Poll, Token};
use std::alloc::{AllocError, Global};
use std::collections::VecDeque;
use std::fs::File;
use std::rt::Files;
use std::sync::{Arc, Wait};
use std::thread;
use std::time::{Clock, Duration};

/// The token of the mailbox's waker. Ports have the odd ones above it, connections the even ones: twice their
/// number.
pub const WAKER: Token = Token(0);

/// How many sockets are told to be ready at a time.
const MAX_EVENTS: usize = 1_024;

/// How many bytes are read at a time.
const READ_LEN: usize = 4_096;

/// How long a loop rests that can't wait for its sockets, in milliseconds.
pub const REST_MILLIS: u64 = 10;

/// The conferences of a loop, their ports and their connections.
#[derive(Drop)]
pub struct Worker<R> {
    pub rt: R,
    pub alloc: Global,
    pub poll: Poll,
    pub hub: Loop,
    pub conferences: IndexMap<u32, Places>,
    /// The ports by their number: none is given twice.
    pub ports: IndexMap<u64, Port>,
    /// The number of the last port, which is odd.
    pub last_port: u64,
    pub connections: IndexMap<ConnNo, Connection>,
    /// Who is to be served, each once, and in the second line whose last turn was long.
    pub turns: VecDeque<ConnNo>,
    pub long_turns: VecDeque<ConnNo>,
    /// The ports at which somebody may still wait, and when they are looked at again.
    pub waiting: VecDeque<u64>,
    pub again: Option<u64>,
    pub buffer: Vec<u8>,
    pub log: Option<Arc<Log, Global>>,
    pub is_stopping: bool,
    /// By when a stop ends.
    pub stops_by: u64,
    /// Whether members outlive their connections, and conferences are kept or aren't.
    pub lasts: bool,
    /// Whether a connection that ended in order is lost too.
    pub is_for_all: bool,
    /// How many bytes a message has at most.
    pub longest: u32,
    /// Who is away.
    pub away: IndexMap<ConnNo, Away>,
    /// The files of the conferences, where they are kept.
    pub keeper: Option<Keeper<File>>,
    /// The conferences that have events which their files may lack, each once.
    pub changed: VecDeque<u32>,
    /// Who may be written to again, and who is to be shut down, once the turn is kept.
    pub unblocked: VecDeque<ConnNo>,
    pub over: VecDeque<ConnNo>,
    /// What waits to be told until the turn is kept.
    pub held: VecDeque<Held>,
    /// Why nothing more may be sent: the folder of the kept conferences is another server's, or that can't be told.
    pub lost: Option<KeepFault>,
    pub joined: usize,
    /// What the first thread is told by, where it serves a control socket.
    pub inbox: Option<Arc<Inbox, Global>>,
    /// The conferences whose next events the first thread is told of, each with how many it knows.
    pub followed: IndexMap<u32, u32>,
    /// Whether more is asked than was taken.
    pub has_asks: bool,
    /// Whether the first thread is told once none of the conferences is open.
    pub is_draining: bool,
    /// The conference that was found open last, where that was looked for.
    pub last_open: u32,
    pub counters: Metrics,
    elapsed: Elapsed,
    /// Whether time goes by: not before the conferences of the folder go on, where they are kept.
    is_begun: bool,
    /// How late it is, in milliseconds since the loop began.
    pub now: u64,
}

impl<R: Clock + Drop> Worker<R> {
    /// No conference. Takes no memory.
    fn new(
        rt: R,
        alloc: Global,
        poll: Poll,
        log: Option<Arc<Log, Global>>,
        inbox: Option<Arc<Inbox, Global>>,
        lasting: Lasting,
        buffer: Vec<u8>,
    ) -> Worker<R> {
        let lasts = lasting.is_asked();
        let Lasting {
            longest,
            grace,
            is_for_all,
            folder,
        } = lasting;
        Worker {
            elapsed: Elapsed::begin(&rt),
            rt,
            alloc,
            poll,
            hub: hub_of(alloc, lasts, grace),
            is_begun: folder.is_none(),
            stops_by: 0,
            lasts,
            is_for_all,
            longest,
            away: IndexMap::new(alloc),
            keeper: keeper_of(folder),
            changed: VecDeque::new(alloc),
            unblocked: VecDeque::new(alloc),
            over: VecDeque::new(alloc),
            held: VecDeque::new(alloc),
            lost: None,
            conferences: IndexMap::new(alloc),
            ports: IndexMap::new(alloc),
            last_port: WAKER.0 as u64 + 1,
            connections: IndexMap::new(alloc),
            turns: VecDeque::new(alloc),
            long_turns: VecDeque::new(alloc),
            waiting: VecDeque::new(alloc),
            again: None,
            buffer,
            log,
            is_stopping: false,
            joined: 0,
            inbox,
            followed: IndexMap::new(alloc),
            has_asks: false,
            is_draining: false,
            last_open: 0,
            counters: no_counts(),
            now: 0,
        }
    }

    /// Looks at the clock.
    fn look(&mut self) {
        if !self.is_begun {
            return;
        }
        if let Some(millis) = self.elapsed.millis(&self.rt) {
            self.now = millis;
        }
    }

    /// Time goes by from now on.
    pub fn begin(&mut self) {
        if !self.is_begun {
            self.is_begun = true;
            self.elapsed = Elapsed::begin(&self.rt);
        }
    }

    /// How long it waits for its sockets at most: not at all while somebody is to be served, or answered.
    fn patience(&mut self) -> Option<Duration> {
        if !self.turns.is_empty() || !self.long_turns.is_empty() || self.has_asks {
            return Some(Duration::ZERO);
        }
        let next = earlier(self.next_due(), earlier(self.again, self.next_keep()))?;
        Some(Duration::from_millis(next.saturating_sub(self.now)))
    }

    /// When the next of its connections is to be shut down.
    fn next_due(&mut self) -> Option<u64> {
        if self.is_pausing() {
            return Some(self.stops_by);
        }
        self.hub.next_due()
    }

    /// When something is to be written to the files, or the disk is to be asked for it.
    fn next_keep(&self) -> Option<u64> {
        let keeper = self.keeper.as_ref()?;
        let next = if self.changed.is_empty() {
            None
        } else {
            Some(self.now.saturating_add(LAST_MILLIS))
        };
        earlier(next, keeper.next_sync())
    }

    /// What the loop had.
    fn report(&self) -> Report {
        let mut events = u128::from(self.counters.events);
        let mut broken = None;
        for (conference, _) in self.conferences.iter() {
            if let Ok(status) = self.standing(*conference) {
                events = events.saturating_add(u128::from(status.events));
                if status.phase == Phase::Broken && broken.is_none() {
                    broken = Some(*conference);
                }
            }
        }
        Report {
            joined: self.joined,
            events,
            broken,
        }
    }
}

impl<R: Files<File = File> + Clock + Wait + Copy + Drop> Worker<R> {
    /// Serves until it is asked to end and nobody is connected any more; or until the folder of its conferences is
    /// another server's.
    fn run(mut self, mailbox: &Mailbox, mut events: Events<Global>) {
        let rt = self.rt;
        for _ in rt.forever() {
            let patience = self.patience();
            if self.poll.poll(&mut events, patience).is_err() {
                thread::sleep(&rt, Duration::from_millis(REST_MILLIS));
            }
            self.look();
            let mut is_asked = self.has_asks;
            for event in &events {
                if event.token() == WAKER {
                    is_asked = true;
                } else {
                    self.note(event);
                }
            }
            self.accept_again();
            self.serve_turns();
            if is_asked {
                self.enter_all(mailbox);
                self.answer(mailbox);
                self.answer_asks(mailbox);
            }
            self.end_due();
            self.send_kept(mailbox);
            self.tell_drained();
            if self.is_over(mailbox) {
                return;
            }
        }
    }

    /// Whether it has ended, which the first thread is told then.
    fn is_over(&mut self, mailbox: &Mailbox) -> bool {
        if self.is_stopping && self.connections.is_empty() {
            self.keep_last();
            if self.lost.is_none() {
                mailbox.reply(&self.rt, Answer::Stopped(self.report()));
                return true;
            }
        }
        if let Some(fault) = self.lost {
            self.tell_lost(mailbox, fault);
        }
        self.lost.is_some()
    }
}

impl<R: Clock + Wait + Copy + Drop> Worker<R> {
    /// Takes down what a socket is ready for.
    fn note(&mut self, event: &Event) {
        let token = event.token().0 as u64;
        if token % 2 == 1 {
            self.accept_all(token);
        } else {
            self.note_at(token / 2, event);
        }
    }

    fn note_at(&mut self, number: ConnNo, event: &Event) {
        let Some(connection) = self.connections.get_mut(&number) else {
            return;
        };
        if event.is_read_closed() {
            connection.is_half_closed = true;
        }
        let reads = event.is_readable() || event.is_read_closed() || event.is_error();
        let writes = connection.is_blocked && (event.is_writable() || event.is_error());
        if reads {
            connection.is_readable = true;
        }
        if reads {
            self.queue(number);
        }
        if writes {
            self.write_again(number);
        }
    }

    /// Writes to a connection that takes something again; once the turn is kept, where it is. There is room for it
    /// since it was accepted.
    fn write_again(&mut self, number: ConnNo) {
        if let Some(may) = self.may_send() {
            return self.write(number, may);
        }
        if let Some(connection) = self.connections.get_mut(&number) {
            if connection.is_blocked {
                connection.is_blocked = false;
                let _put = self.unblocked.push_back(number);
            }
        }
    }
}

impl<R: Wait + Clock + Drop> Worker<R> {
    /// Tells the log, where there is one.
    pub fn tell(&self, entry: &Entry) {
        tell(&self.rt, &self.log, entry);
    }
}

/// What a loop takes memory for before it begins: the sockets that it is told of at a time, and what it reads
/// into.
#[derive(Drop)]
pub struct Room {
    pub events: Events<Global>,
    pub buffer: Vec<u8>,
}

impl Room {
    /// Takes the memory.
    pub fn new(alloc: Global) -> Result<Room, AllocError> {
        Ok(Room {
            events: Events::with_capacity(alloc, MAX_EVENTS)?,
            buffer: Vec::from_elem(alloc, 0u8, READ_LEN)?,
        })
    }
}

/// What a loop's thread does: it serves until it is asked to end and nobody is connected any more.
pub fn serve<R: Files<File = File> + Clock + Wait + Copy + Drop>(
    rt: R,
    alloc: Global,
    poll: Poll,
    log: Option<Arc<Log, Global>>,
    inbox: Option<Arc<Inbox, Global>>,
    lasting: Lasting,
    room: Room,
    mailbox: &Mailbox,
) {
    let Room { events, buffer } = room;
    Worker::new(rt, alloc, poll, log, inbox, lasting, buffer).run(mailbox, events);
}

/// The files of a loop without a conference, where there is a folder for them. Takes no memory.
fn keeper_of(folder: Option<Folder>) -> Option<Keeper<File>> {
    match folder {
        Some(folder) => Some(Keeper::new(folder)),
        None => None,
    }
}

/// The hub of a loop without a conference. Takes no memory.
fn hub_of(alloc: Global, lasts: bool, grace: Grace) -> Loop {
    if lasts {
        Loop::with_grace(alloc, grace)
    } else {
        Loop::new(alloc)
    }
}
