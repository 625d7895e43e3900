//! A client of the control socket, or the console: its socket, its lines and what it watches.

ghost use Rattle.std.specs.Prelude.{◌≡◌, ◌≤◌, ◌+◌, ◌==◌, ◌&&◌, ℕ, MatchOption, false, filter, find, is_some, length, not, option_copied, slice_get, true};
ghost use Rattle.floor_control.specs.Incoming.{room_of};
ghost use Rattle.floor_control.specs.Outgoing.{is_full, is_over};
ghost use Rattle.floor_socket.specs.Lines.{has_moved, with_line};
ghost use Rattle.floor_socket.specs.Tasks.{watches};
ghost use Rattle.floor_socket.specs.declared.client.Due.TheVariants.{Nothing};
ghost use Rattle.floor_socket.specs.declared.client.Moved.TheVariants.{Bytes};

use crate::replica::Replica;
use crate::task::{Task, Went};
use floor_control::{Client, Notice};
use indexmap::IndexMap;
use mio::net::UnixStream;
use std::alloc::{AllocError, Global};
use std::collections::VecDeque;
use std::io::{ErrorKind, Read, Write};

/// How many bytes are read at a time.
pub const READ_LEN: usize = 4_096;

/// How many notices wait for a client at most: our choice, some 100 kB of memory, and more members than are lost while
/// it is told what stands before them.
const MAX_NOTICES: usize = 4_096;

/// How often what has come is read and thrown away before a socket is closed.
const MAX_LAST_READS: u32 = 64;

/// A client.
#[derive(Drop)]
pub struct Seat {
    /// Its socket; `None` of the console.
    pub stream: Option<UnixStream>,
    pub lines: Client,
    pub is_readable: bool,
    /// Whether its socket takes nothing at present.
    pub is_blocked: bool,
    /// Whether it stands among those that are to be served.
    pub is_queued: bool,
    /// Whether it is to be closed at once.
    pub has_failed: bool,
    /// Whether nothing more is taken from it, and it is closed once all is written.
    pub is_deaf: bool,
    pub task: Option<Task>,
    /// What it is behind with, one conference after another.
    pub behind: VecDeque<Behind>,
    /// Whether some of that may be hurried.
    is_hurried: bool,
    /// The conferences that it watches.
    pub watched: IndexMap<u32, ()>,
    /// What it is to be told of them that is no event, once it was told what stands before that.
    notices: VecDeque<Waiting>,
}

/// What a client is to be told of a conference that is no event.
#[derive(Clone, Copy, Debug)]
pub struct Waiting {
    pub conference: u32,
    /// Up to which place the client has to be told what is shown before this.
    pub place: u64,
    pub notice: Notice,
}

/// A conference that a client watches and is behind with.
#[derive(Drop)]
pub struct Behind {
    pub conference: u32,
    /// The first place whose lines the client is told.
    pub from: u64,
    /// Its replica, once it is its turn.
    pub replica: Option<Replica>,
    /// Whether it is shown at once, since the conference is to be forgotten.
    pub is_hurried: bool,
}

impl Behind {
    /// Up to which place the client was told what is shown.
    pub fn place(&self) -> u64
        ensures from { self.now.from ≤ result + 1 }
        ensures told { MatchOption self.now.replica (Unit {0})
            (λ replica. replica.watcher.place ≤ result) }
    {
        let told = match &self.replica {
            Some(replica) => replica.place(),
            None => 0,
        };
        told.max(self.from.saturating_sub(1))
    }

    /// Whether events were asked for and haven't come yet.
    fn is_asking(&self) -> bool
        ensures value { MatchOption self.now.replica (result ≡ false)
            (λ replica. result ≡ is_some replica.asked) }
    {
        match &self.replica {
            Some(replica) => replica.is_asking(),
            None => false,
        }
    }

    /// What is due of it.
    fn due(&self) -> Due {
        match &self.replica {
            None => Due::Replica {
                conference: self.conference,
            },
            Some(replica) if replica.has_events() => Due::Lines,
            Some(replica) => Due::More {
                conference: self.conference,
                place: self.place(),
                is_at_end: replica.is_at_end(),
            },
        }
    }
}

/// What is due to a client of what it is behind with.
#[derive(Clone, Copy, Debug, PartialEq, Eq)]
pub enum Due {
    /// Nothing: it is behind with nothing, or takes nothing more at present, or part of an answer was given and not
    /// its end, and what comes next isn't hurried.
    Nothing,
    /// A replica of this conference, which is the next.
    Replica {
        conference: u32,
    },
    /// The lines of events that were copied.
    Lines,
    /// Further events, or to be taken in among those who have caught up with this conference.
    More {
        conference: u32,
        /// Up to which place it was told.
        place: u64,
        /// Whether that was all, as far as is known.
        is_at_end: bool,
    },
}

impl Seat {
    /// A client that has just come. Takes no memory.
    pub fn new(alloc: Global, stream: Option<UnixStream>) -> Seat {
        Seat {
            stream,
            lines: Client::new(alloc),
            is_readable: false,
            is_blocked: false,
            is_queued: false,
            has_failed: false,
            is_deaf: false,
            task: None,
            behind: VecDeque::new(alloc),
            is_hurried: false,
            watched: IndexMap::new(alloc),
            notices: VecDeque::new(alloc),
        }
    }

    /// Has it told something that is no event, where it watches the conference. A client for whom 4,096 wait, or for which
    /// there is no memory, is to be closed.
    pub fn notify(&mut self, waiting: Waiting) {
        if self.watched.get(&waiting.conference).is_none() {
            return;
        }
        let is_put = self.notices.len() < MAX_NOTICES && self.notices.push_back(waiting).is_ok();
        self.has_failed = self.has_failed || !is_put;
    }

    /// How many of these wait.
    pub fn notice_count(&self) -> usize {
        self.notices.len()
    }

    /// The first of them, which doesn't wait any more.
    pub fn next_notice(&mut self) -> Option<Waiting> {
        self.notices.pop_front()
    }

    /// Whether it is the console.
    pub fn is_console(&self) -> bool {
        self.stream.is_none()
    }

    /// Whether part of an answer was given, and not its end.
    pub fn is_inside(&self) -> bool
        ensures value { MatchOption self.now.task (result ≡ false)
            (λ task. result ≡ task.is_begun) }
    {
        match &self.task {
            Some(task) => task.is_begun,
            None => false,
        }
    }

    /// Whether lines between two answers are made for it at present.
    pub fn takes_more(&self) -> bool
        ensures full { is_full self.now.lines.outgoing ≡ true → result ≡ false }
        ensures free { is_full self.now.lines.outgoing ≡ false → MatchOption self.now.task
            (result ≡ true) (λ task. result ≡ not task.is_begun) }
    {
        !self.lines.is_full() && !self.is_inside()
    }

    /// What is due to it of what it is behind with: of the first conference, and between two answers unless that is
    /// hurried.
    pub fn due(&self) -> Due
        ensures failed { self.now.has_failed ≡ true → result ≡ Nothing }
        ensures full { MatchOption (slice_get self.now.behind.items 0) (result ≡ Nothing)
            (λ behind. behind.is_hurried ≡ false → is_full self.now.lines.outgoing ≡ true
            → result ≡ Nothing) }
        ensures inside { MatchOption (slice_get self.now.behind.items 0) (Unit {0})
            (λ behind. behind.is_hurried ≡ false → MatchOption self.now.task (Unit {0})
            (λ task. task.is_begun ≡ true → result ≡ Nothing)) }
    {
        match self.behind.front() {
            Some(behind) if self.may_show(behind) => behind.due(),
            _ => Due::Nothing,
        }
    }

    /// Whether it may be shown something of a conference that it is behind with.
    fn may_show(&self, behind: &Behind) -> bool
        ensures failed { self.now.has_failed ≡ true → result ≡ false }
        ensures full { behind.now.is_hurried ≡ false → is_full self.now.lines.outgoing ≡ true
            → result ≡ false }
        ensures inside { behind.now.is_hurried ≡ false → MatchOption self.now.task (Unit {0})
            (λ task. task.is_begun ≡ true → result ≡ false) }
        ensures hurried { behind.now.is_hurried ≡ true → self.now.has_failed ≡ false → result ≡ true }
        ensures free { self.now.has_failed ≡ false → is_full self.now.lines.outgoing ≡ false
            → MatchOption self.now.task (result ≡ true)
            (λ task. task.is_begun ≡ false → result ≡ true) }
    {
        !self.has_failed && (behind.is_hurried || self.takes_more())
    }

    /// Has what it is behind with of a conference shown at once, and says whether that is new.
    pub fn hurry(&mut self, conference: u32) -> bool {
        if self.watched.get(&conference).is_none() {
            return false;
        }
        for behind in self.behind.iter_mut() {
            if behind.conference == conference {
                let is_new = !behind.is_hurried;
                behind.is_hurried = true;
                self.is_hurried = true;
                return is_new;
            }
        }
        false
    }

    /// Puts what is hurried in front, but not while events are asked for of what stands there: one ask at a time is
    /// open.
    pub fn put_hurried_first(&mut self) {
        let is_busy = match self.behind.front() {
            Some(behind) => behind.is_hurried || behind.is_asking(),
            None => false,
        };
        if !self.is_hurried || is_busy {
            return;
        }
        let place = self.behind.iter().position(|behind| behind.is_hurried);
        let hurried = match place {
            Some(place) => self.behind.remove(place),
            None => None,
        };
        match hurried {
            Some(hurried) => {
                let is_lost = self.behind.push_front(hurried).is_err();
                self.has_failed = self.has_failed || is_lost;
            }
            None => self.is_hurried = false,
        }
    }

    /// Up to which place it was told what is shown of a conference that it is behind with.
    pub fn reached(&self, conference: u32) -> Option<u64> {
        let behind = find_conference(&self.behind, conference)?;
        Some(behind.place())
    }

    /// Watches a conference no longer, and says whether it did.
    pub fn leave(&mut self, conference: u32) -> bool
        ensures behind { self.new.behind.items
            ≡ filter (λ behind. not (behind.conference == conference)) self.old.behind.items }
    {
        self.behind.retain(|behind| behind.conference != conference);
        self.watched.swap_remove(&conference).is_some()
    }

    /// Whether its line is about to watch a conference, and doesn't wait for it to take an answer.
    pub fn is_about_to_watch(&self, conference: u32) -> bool
        ensures value { MatchOption self.now.task (result ≡ false)
            (λ task. result ≡ (watches conference task.step && not (is_full self.now.lines.outgoing))) }
    {
        match &self.task {
            Some(task) => task.step.watches(conference) && !self.lines.is_full(),
            None => false,
        }
    }

    /// Whether nothing is to be read and to be answered any more, and all is written; or it is to be closed at once.
    /// The console goes on where its input ends.
    pub fn is_over(&self) -> bool
        ensures failed { self.now.has_failed ≡ true → result ≡ true }
        ensures over { is_over self.now.lines.outgoing ≡ true → result ≡ true }
        ensures at_work { MatchOption self.now.task (Unit {0}) (λ _. self.now.has_failed ≡ false
            → is_over self.now.lines.outgoing ≡ false → result ≡ false) }
    {
        if self.has_failed || self.lines.is_over() {
            return true;
        }
        if self.is_console() || self.task.is_some() || !self.lines.writing().is_empty() {
            return false;
        }
        self.is_deaf || self.lines.is_done()
    }

    /// Puts a line at work back, and says whether it came any further. Where memory was refused it is to be closed.
    pub fn put_back(&mut self, went: Result<Went, AllocError>) -> bool
        ensures value { result ≡ has_moved went }
        ensures next { self.new ≡ with_line went self.old }
    {
        match went {
            Ok(Went::On(task)) => {
                self.task = Some(task);
                true
            }
            Ok(Went::Waits(task)) => {
                self.task = Some(task);
                false
            }
            Ok(Went::Over) => true,
            Ok(Went::Idle) => false,
            Err(_) => {
                self.has_failed = true;
                true
            }
        }
    }

    /// Whether something may be read, and there is room for it.
    pub fn may_read(&self) -> bool
        ensures waits { self.now.is_readable ≡ false → result ≡ false }
        ensures deaf { self.now.is_deaf ≡ true → result ≡ false }
        ensures full { room_of self.now.lines.incoming ≡ 0 → result ≡ false }
    {
        self.is_readable && !self.is_console() && !self.is_deaf && 0 < self.lines.room()
    }

    /// Reads once, where something may be read and there is room for it, and says whether anything came of that.
    pub fn read(&mut self, buffer: &mut Vec<u8>) -> bool {
        if !self.may_read() {
            return false;
        }
        let room = self.lines.room();
        let Some(buffer) = buffer.as_mut_slice().get_mut(..room) else {
            self.has_failed = true;
            return true;
        };
        let Some(stream) = self.stream.as_mut() else {
            return false;
        };
        match read_some(stream, buffer) {
            Moved::Bytes(count) => {
                let taken = self.lines.take_in(buffer.get(..count).unwrap_or(&[]));
                self.has_failed = self.has_failed || taken.is_err();
            }
            Moved::End => {
                self.is_readable = false;
                self.lines.end_input();
            }
            Moved::Nothing => {
                self.is_readable = false;
                return false;
            }
            Moved::Failure => self.has_failed = true,
        }
        true
    }

    /// Writes as far as the socket takes it, and says whether anything came of that.
    pub fn write(&mut self) -> bool {
        let mut has_written = false;
        for _ in 0..u64::MAX {
            if !self.write_once() {
                break;
            }
            has_written = true;
        }
        has_written
    }

    /// Writes once, where there is something to write and the socket takes it, and says whether anything came of that.
    fn write_once(&mut self) -> bool {
        if self.is_blocked || self.has_failed || self.lines.writing().is_empty() {
            return false;
        }
        let Some(stream) = self.stream.as_mut() else {
            return false;
        };
        match write_some(stream, self.lines.writing()) {
            Moved::Bytes(count) => self.lines.wrote(count),
            Moved::Nothing => {
                self.is_blocked = true;
                return false;
            }
            Moved::End | Moved::Failure => self.has_failed = true,
        }
        true
    }

    /// Closes its socket.
    pub fn close(self, buffer: &mut Vec<u8>) {
        if let Some(stream) = self.stream {
            hang_up(stream, buffer);
        }
    }
}

/// The first of those with a conference that a client is behind with.
fn find_conference(behind: &VecDeque<Behind>, conference: u32) -> Option<&Behind>
    ensures value { option_copied result
        ≡ find (λ behind. behind.conference == conference) behind.now.items }
{
    behind.iter().find(|behind| behind.conference == conference)
}

/// Closes a socket once what has come is read: a close with unread bytes resets.
pub fn hang_up(mut stream: UnixStream, buffer: &mut Vec<u8>) {
    for _ in 0..MAX_LAST_READS {
        match stream.read(buffer.as_mut_slice()) {
            Ok(0) | Err(_) => break,
            Ok(_) => {}
        }
    }
}

/// What became of a read or a write.
#[derive(Clone, Copy, Debug, PartialEq, Eq)]
pub enum Moved {
    /// So many bytes; none where a signal came between.
    Bytes(usize),
    /// No more is to be read.
    End,
    /// Nothing at present.
    Nothing,
    /// A failure.
    Failure,
}

/// Reads once.
pub fn read_some<S: Read>(stream: &mut S, buffer: &mut [u8]) -> Moved
    ensures within { (count : ℕ) → result ≡ Bytes count → count ≤ length buffer.new }
{
    match stream.read(buffer) {
        Ok(0) => Moved::End,
        Ok(count) => Moved::Bytes(count),
        Err(error) => moved_by(error.kind()),
    }
}

/// Writes once.
pub fn write_some<S: Write>(stream: &mut S, bytes: &[u8]) -> Moved
    ensures within { (count : ℕ) → result ≡ Bytes count → count ≤ length bytes.now }
{
    match stream.write(bytes) {
        Ok(0) => Moved::Failure,
        Ok(count) => Moved::Bytes(count),
        Err(error) => moved_by(error.kind()),
    }
}

/// What a failure of the system says.
fn moved_by(kind: ErrorKind) -> Moved
    ensures none { (count : ℕ) → result ≡ Bytes count → count ≡ 0 }
{
    match kind {
        ErrorKind::WouldBlock => Moved::Nothing,
        ErrorKind::Interrupted => Moved::Bytes(0),
        _ => Moved::Failure,
    }
}
