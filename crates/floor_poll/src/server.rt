//! The server as its administrator sees it: the loops, and which of them has which conference.

use crate::doors::{Gate, Listening, Ways, serve_doors};
use crate::fresh::{Fresh, fresh_of};
use crate::inbox::{Asker, Inbox};
use crate::lasting::Lasting;
use crate::log::{share, tell};
use crate::mailbox::{Answer, Ask, Asked, Mailbox, Question, Report};
use crate::owners::Owners;
use crate::port::{Port, listen};
use crate::refusals::board_refusal;
use crate::worker::{Room, WAKER, serve};
use floor_config::Config;
use floor_console::{Board, BoardRefusal, Floor, StopRefusal, Stopped, Text, User};
use floor_control::RefusedCounts;
use floor_keep::{KeepFault, Listing, Lock};
use floor_loop::{Act, Status};
use floor_room::add_end;
use floor_server::{Door, Entry, Log, PortFault, Reason, UserPort, read_text};
use mio::{Poll, Waker};
use std::alloc::{AllocError, Global};
use std::fs::File;
use std::net::Net;
use std::rt::Files;
use std::sync::{Arc, Mutex, Wait};
use std::thread::{JoinHandle, Threads};
use std::time::Clock;
use std::{fs, thread};

/// The loops of a server, and their conferences.
#[derive(Drop)]
pub struct Server<R> {
    pub(crate) rt: R,
    pub(crate) alloc: Global,
    loops: Vec<Serving>,
    owners: Arc<Mutex<Owners>, Global>,
    doors: Option<ServingDoors>,
    /// Who was refused at the doors.
    refused: Arc<Mutex<RefusedCounts>, Global>,
    outcome: Option<Result<Stopped, StopRefusal>>,
    /// What a person has yet to be told of the last refusal.
    pub(crate) told: Option<String>,
    pub(crate) lasting: Lasting,
    /// The hold of this process on the folder of the kept conferences.
    lock: Option<Lock>,
    /// What the folder had at the start.
    pub(crate) listing: Option<Listing>,
    /// How many of its conferences were looked at.
    pub(crate) looked: usize,
    /// Those of them whose files are there and can't be had, or are none.
    pub(crate) left_out: Vec<u32>,
    pub(crate) log: Option<Arc<Log, Global>>,
    /// Why nothing more may be sent, where the folder is another server's, or that can't be told.
    lost: Mutex<Option<KeepFault>>,
}

/// A loop that runs.
#[derive(Drop)]
struct Serving {
    mailbox: Arc<Mailbox, Global>,
    thread: JoinHandle<()>,
}

/// The doors, which run.
#[derive(Drop)]
struct ServingDoors {
    gate: Arc<Gate, Global>,
    thread: JoinHandle<()>,
}

impl<R> Server<R>
where
    R: Net
        + Files<File = File>
        + AllocGlobal
        + Clock
        + Threads
        + Wait
        + Copy
        + Drop
        + Send
        + 'static,
    R::Dir: Send,
{
    /// Starts so many loops, which tell the inbox what is asked by somebody who isn't waited for; members last and
    /// conferences are kept as is said, in a folder that is held as long as the server lives. Without memory,
    /// descriptors or threads for all of them none runs.
    pub fn start(
        rt: R,
        alloc: Global,
        loops: usize,
        log: &Option<Arc<Log, Global>>,
        inbox: &Option<Arc<Inbox, Global>>,
        lasting: Lasting,
        lock: Option<Lock>,
    ) -> Result<Server<R>, AllocError> {
        let mut server = Server {
            rt,
            alloc,
            loops: Vec::with_capacity(alloc, loops)?,
            owners: owners_of(alloc, loops)?,
            doors: None,
            refused: no_refusals(alloc)?,
            outcome: None,
            told: None,
            lasting,
            lock,
            listing: None,
            looked: 0,
            left_out: Vec::new(alloc),
            log: share(log)?,
            lost: Mutex::new(None),
        };
        for _ in 0..loops {
            match start_one(rt, alloc, log, inbox, &server.lasting) {
                Ok(one) => server.loops.push(one)?,
                Err(error) => {
                    let _outcome = server.stop();
                    return Err(error);
                }
            }
        }
        Ok(server)
    }

    /// Opens the doors. Refused by `CannotListen` where one can't be had, and by `Memory`; then there is none.
    pub fn open_doors(&mut self, doors: &[Door]) -> Result<(), BoardRefusal> {
        if doors.is_empty() {
            return Ok(());
        }
        let listening = match self.listen_at(doors) {
            Ok(listening) => listening,
            Err(reason) => return Err(self.refuse(reason)),
        };
        let ways = self.ways()?;
        let (rt, alloc) = (self.rt, self.alloc);
        self.doors = Some(start_doors(rt, alloc, &self.log, listening, ways)?);
        Ok(())
    }

    /// Listens on the port of each door.
    fn listen_at(&self, doors: &[Door]) -> Result<Vec<Listening>, Reason> {
        let mut listening = Vec::new(self.alloc);
        for door in doors {
            let one = match listen(&self.rt, door.port) {
                Ok(listener) => Listening::new(listener, *door),
                Err(error) => return Err(PortFault::System(error).at_door(self.alloc, *door)),
            };
            if listening.push(one).is_err() {
                return Err(only(BoardRefusal::Memory));
            }
        }
        Ok(listening)
    }

    /// Where those go who come by a door.
    fn ways(&self) -> Result<Ways, AllocError> {
        let mut loops = Vec::with_capacity(self.alloc, self.loops.len())?;
        for one in self.loops.iter() {
            loops.push(Arc::try_clone(&one.mailbox)?)?;
        }
        Ok(Ways {
            owners: Arc::try_clone(&self.owners)?,
            loops,
            refused: Arc::try_clone(&self.refused)?,
        })
    }
}

/// Which loop has which conference, where none is there yet.
fn owners_of(alloc: Global, loops: usize) -> Result<Arc<Mutex<Owners>, Global>, AllocError> {
    match Arc::new(alloc, Mutex::new(Owners::new(alloc, loops))) {
        Ok(owners) => Ok(owners),
        Err(_) => Err(AllocError),
    }
}

/// That nobody was refused at the doors.
fn no_refusals(alloc: Global) -> Result<Arc<Mutex<RefusedCounts>, Global>, AllocError> {
    match Arc::new(alloc, Mutex::new(RefusedCounts::new())) {
        Ok(refused) => Ok(refused),
        Err(_) => Err(AllocError),
    }
}

/// Starts the doors.
fn start_doors<R>(
    rt: R,
    alloc: Global,
    log: &Option<Arc<Log, Global>>,
    listening: Vec<Listening>,
    ways: Ways,
) -> Result<ServingDoors, AllocError>
where
    R: Net + Clock + Threads + Wait + Copy + Drop + Send + 'static,
{
    let (poll, waker) = poll_of(&rt)?;
    let (gate, theirs) = gates(alloc, waker)?;
    let log = share(log)?;
    let thread = start_door_thread(rt, alloc, poll, log, listening, ways, theirs)?;
    Ok(ServingDoors { gate, thread })
}

/// What ends the doors, the first thread's and theirs.
fn gates(
    alloc: Global,
    waker: Waker,
) -> Result<(Arc<Gate, Global>, Arc<Gate, Global>), AllocError> {
    match Arc::new(alloc, Gate::new(waker)) {
        Ok(ours) => {
            let theirs = Arc::try_clone(&ours)?;
            Ok((ours, theirs))
        }
        Err(_) => Err(AllocError),
    }
}

/// Has the doors served by a thread of their own.
fn start_door_thread<R>(
    rt: R,
    alloc: Global,
    poll: Poll,
    log: Option<Arc<Log, Global>>,
    listening: Vec<Listening>,
    ways: Ways,
    gate: Arc<Gate, Global>,
) -> Result<JoinHandle<()>, AllocError>
where
    R: Clock + Threads + Wait + Copy + Drop + Send + 'static,
{
    let room = Room::new(alloc)?;
    match thread::spawn(&rt, move || {
        serve_doors(rt, alloc, poll, log, room, listening, ways, &gate)
    }) {
        Ok(thread) => Ok(thread),
        Err(_) => Err(AllocError),
    }
}

/// Starts a loop.
fn start_one<R>(
    rt: R,
    alloc: Global,
    log: &Option<Arc<Log, Global>>,
    inbox: &Option<Arc<Inbox, Global>>,
    lasting: &Lasting,
) -> Result<Serving, AllocError>
where
    R: Net + Files<File = File> + Clock + Threads + Wait + Copy + Drop + Send + 'static,
    R::Dir: Send,
{
    let (poll, waker) = poll_of(&rt)?;
    let (mailbox, theirs) = mailboxes(alloc, waker)?;
    let log = share(log)?;
    let inbox = share(inbox)?;
    let lasting = lasting.copy()?;
    let thread = start_thread(rt, alloc, poll, log, inbox, lasting, theirs)?;
    Ok(Serving { mailbox, thread })
}

/// What a loop waits for its sockets by, and what ends its waiting.
pub fn poll_of<R: Net>(rt: &R) -> Result<(Poll, Waker), AllocError> {
    match Poll::new(rt) {
        Ok(poll) => match Waker::new(poll.registry(), WAKER) {
            Ok(waker) => Ok((poll, waker)),
            Err(_) => Err(AllocError),
        },
        Err(_) => Err(AllocError),
    }
}

/// A mailbox, the first thread's and the loop's.
fn mailboxes(
    alloc: Global,
    waker: Waker,
) -> Result<(Arc<Mailbox, Global>, Arc<Mailbox, Global>), AllocError> {
    match Arc::new(alloc, Mailbox::new(alloc, waker)) {
        Ok(ours) => {
            let theirs = Arc::try_clone(&ours)?;
            Ok((ours, theirs))
        }
        Err(_) => Err(AllocError),
    }
}

/// Has a loop without a conference served by a thread of its own.
fn start_thread<R>(
    rt: R,
    alloc: Global,
    poll: Poll,
    log: Option<Arc<Log, Global>>,
    inbox: Option<Arc<Inbox, Global>>,
    lasting: Lasting,
    mailbox: Arc<Mailbox, Global>,
) -> Result<JoinHandle<()>, AllocError>
where
    R: Files<File = File> + Clock + Threads + Wait + Copy + Drop + Send + 'static,
    R::Dir: Send,
{
    let room = Room::new(alloc)?;
    match thread::spawn(
        &rt,
        move || serve(rt, alloc, poll, log, inbox, lasting, room, &mailbox),
    ) {
        Ok(thread) => Ok(thread),
        Err(_) => Err(AllocError),
    }
}

impl<R: Net + Files<File = File> + AllocGlobal + Clock + Threads + Wait + Drop> Server<R> {
    /// What the stop found, once it was asked for.
    pub fn outcome(&self) -> Option<Result<Stopped, StopRefusal>> {
        self.outcome
    }

    /// What a person is to be told of the last refusal, a line, once.
    pub fn take_told(&mut self) -> Option<String> {
        self.told.take()
    }

    /// Why nothing more may be sent, where the folder of the kept conferences is another server's, or that can't be
    /// told.
    pub fn lost(&self) -> Option<KeepFault> {
        *self.lost.lock(&self.rt)
    }

    /// Whether that is so.
    pub fn is_lost(&self) -> bool {
        self.lost().is_some()
    }

    /// Whether conferences are kept.
    pub fn keeps(&self) -> bool {
        self.lasting.folder.is_some()
    }

    /// How many were refused at the doors.
    pub fn refused_at_doors(&self) -> RefusedCounts {
        *self.refused.lock(&self.rt)
    }

    /// Tells the log, where there is one.
    pub fn tell(&self, entry: &Entry) {
        tell(&self.rt, &self.log, entry);
    }

    /// Waits until the threads of the loops have ended, behind a stop.
    pub fn join(self) {
        let rt = self.rt;
        for one in self.loops {
            one.thread.join(&rt);
        }
    }

    /// Keeps what a person is to be told, and gives the refusal.
    pub(crate) fn refuse(&mut self, reason: Reason) -> BoardRefusal {
        let Reason { refusal, line } = reason;
        self.told = line;
        refusal
    }

    /// Opens the conferences of a file, and tells how many.
    pub fn open_file(&mut self, path: &str) -> Result<usize, BoardRefusal> {
        let mut count = 0usize;
        for fresh in self.read_file(path)? {
            self.open_one(fresh)?;
            count = count.saturating_add(1);
        }
        Ok(count)
    }

    /// The conferences of a configuration's file.
    pub fn read_file(&mut self, path: &str) -> Result<Vec<Fresh>, BoardRefusal> {
        match self.read(path) {
            Ok(all) => Ok(all),
            Err(reason) => Err(self.refuse(reason)),
        }
    }

    /// The text of a configuration's file. Of what isn't a file, as a pipe, nothing is read: it may keep one waiting.
    pub fn text_of(&mut self, path: &str) -> Result<String, BoardRefusal> {
        if !is_readable_at_once(&self.rt, path) {
            let line = format!(in self.alloc; "{path}: not a file").ok();
            let refusal = BoardRefusal::CannotRead;
            return Err(self.refuse(Reason { refusal, line }));
        }
        match read_text(&self.rt, self.alloc, path) {
            Ok(text) => Ok(text),
            Err(reason) => Err(self.refuse(reason)),
        }
    }

    /// Reads and checks a file whole.
    fn read(&self, path: &str) -> Result<Vec<Fresh>, Reason> {
        let text = read_text(&self.rt, self.alloc, path)?;
        fresh_of(self.alloc, path, text.as_str(), self.keeps())
    }

    /// Opens one conference, in the loop whose turn it is.
    pub fn open_one(&mut self, fresh: Fresh) -> Result<(), BoardRefusal> {
        let conference = fresh.config().conference();
        let asked = self.opening_of(fresh)?;
        let next = self.next_loop(0);
        match self.ask_at(next, asked) {
            Some(Answer::Done(Ok(_))) => self.take_opened(conference, next),
            Some(Answer::Done(Err(refusal))) => Err(board_refusal(refusal)),
            _ => Err(BoardRefusal::Memory),
        }
    }

    /// What is asked of a loop that is to open a conference: its ports are listened on, and there is room for it.
    /// One that the folder has or had is used.
    pub fn opening_of(&mut self, fresh: Fresh) -> Result<Asked, BoardRefusal> {
        let conference = fresh.config().conference();
        if self.owner(conference).is_some() || self.is_taken(conference) {
            return Err(BoardRefusal::Used);
        }
        self.reserve_owner()?;
        match self.listen_all(fresh.config()) {
            Ok(ports) => Ok(Asked::Open { fresh, ports }),
            Err(reason) => Err(self.refuse(reason)),
        }
    }

    /// Whether the folder had a file of a conference at the start, which goes on or was closed.
    fn is_taken(&self, conference: u32) -> bool {
        match &self.listing {
            Some(listing) => listing.has_journal(conference) || listing.is_closed(conference),
            None => false,
        }
    }

    /// Takes room for a conference more.
    pub(crate) fn reserve_owner(&self) -> Result<(), AllocError> {
        self.owners.lock(&self.rt).reserve()
    }

    /// The loop whose turn it is behind so many that are opened.
    pub fn next_loop(&self, opening: usize) -> usize {
        self.owners.lock(&self.rt).next(opening)
    }

    /// Takes it that a loop has opened a conference.
    pub fn take_opened(&mut self, conference: u32, place: usize) -> Result<(), BoardRefusal> {
        Ok(self.owners.lock(&self.rt).add(conference, place)?)
    }

    /// Listens on the port of each user of a configuration who has one.
    pub(crate) fn listen_all(&self, config: &Config) -> Result<Vec<Port>, Reason> {
        let mut ports = Vec::new(self.alloc);
        for user in config.users() {
            if let Some(port) = user.port {
                let opened = self.listen(config.conference(), user.id, port)?;
                if ports.push(opened).is_err() {
                    return Err(only(BoardRefusal::Memory));
                }
            }
        }
        Ok(ports)
    }

    /// Listens on a user's port.
    pub(crate) fn listen(&self, conference: u32, user: u16, port: u16) -> Result<Port, Reason> {
        let place = UserPort {
            conference,
            user,
            port,
        };
        match Port::open(&self.rt, place) {
            Ok(opened) => Ok(opened),
            Err(error) => {
                Err(PortFault::System(error).reason(self.alloc, conference, user, port))
            }
        }
    }

    /// What is asked of a loop that is to add a user: its port is listened on, where it has one. The conference is
    /// looked for before that.
    pub fn adding_of(&mut self, conference: u32, user: User) -> Result<Asked, BoardRefusal> {
        if self.owner(conference).is_none() {
            return Err(BoardRefusal::NoConference);
        }
        let port = match user.port {
            None => None,
            Some(port) => match self.listen(conference, user.id, port) {
                Ok(opened) => Some(opened),
                Err(reason) => return Err(self.refuse(reason)),
            },
        };
        Ok(Asked::AddUser {
            conference,
            user,
            port,
        })
    }

    /// The place of the loop that has a conference, if it was ever opened.
    pub fn owner(&self, conference: u32) -> Option<usize> {
        self.owners.lock(&self.rt).get(conference)
    }

    /// How many loops there are.
    pub fn loops(&self) -> usize {
        self.loops.len()
    }

    /// The conferences that were ever opened, in ascending order.
    pub fn conferences(&self) -> Result<Vec<u32>, AllocError> {
        self.owners.lock(&self.rt).numbers(self.alloc)
    }

    /// Asks a loop for somebody who isn't waited for: the answer comes to the inbox. After an error nothing was
    /// asked.
    pub fn send(&self, place: usize, asker: Asker, asked: Asked) -> Result<(), AllocError> {
        match self.loops.get(place) {
            Some(one) => one.mailbox.send(&self.rt, Ask { asker, asked }),
            None => Err(AllocError),
        }
    }

    /// Asks a loop, and waits for its answer.
    pub(crate) fn ask_at(&self, place: usize, asked: Asked) -> Option<Answer> {
        let one = self.loops.get(place)?;
        if self.is_lost() {
            return None;
        }
        one.mailbox.ask(&self.rt, asked);
        let answer = one.mailbox.answer(&self.rt);
        if let Some(Answer::Lost(fault)) = &answer {
            self.lose(*fault);
        }
        answer
    }

    /// Asks a loop to let a conference go on, and doesn't wait for the answer.
    pub(crate) fn ask_to_resume(&self, place: usize, conference: u32) {
        if let Some(one) = self.loops.get(place) {
            one.mailbox.ask(&self.rt, Asked::Resume { conference });
        }
    }

    /// Waits for the answer of a loop that was asked.
    pub(crate) fn last_answer(&self, place: usize) -> Option<Answer> {
        self.last_of(self.loops.get(place)?)
    }

    /// Takes it that the folder of the kept conferences is another server's, or that that can't be told: nothing is
    /// asked of the loops any more. The first fault stands.
    pub fn lose(&self, fault: KeepFault) {
        let mut lost = self.lost.lock(&self.rt);
        *lost = lost.or(Some(fault));
    }

    /// Asks the loop of a conference, and waits for its answer.
    fn ask(&self, conference: u32, asked: Asked) -> Result<Answer, BoardRefusal> {
        let Some(place) = self.owner(conference) else {
            return Err(BoardRefusal::NoConference);
        };
        match self.ask_at(place, asked) {
            Some(answer) => Ok(answer),
            None => Err(BoardRefusal::Memory),
        }
    }

    /// Has something done in a conference.
    fn change(&self, conference: u32, asked: Asked) -> Result<(), BoardRefusal> {
        match self.ask(conference, asked)? {
            Answer::Done(Ok(_)) => Ok(()),
            Answer::Done(Err(refusal)) => Err(board_refusal(refusal)),
            _ => Err(BoardRefusal::Memory),
        }
    }

    fn act(&self, conference: u32, act: Act) -> Result<(), BoardRefusal> {
        self.change(conference, Asked::Admin { conference, act })
    }

    /// How a conference stands.
    fn stands(&self, conference: u32) -> Result<Status, BoardRefusal> {
        let question = Question::Status { conference };
        match self.ask(conference, Asked::Tell(question))? {
            Answer::Stands(found, _) => found.map_err(board_refusal),
            _ => Err(BoardRefusal::Memory),
        }
    }

    /// The lines of a conference's journal, and their number: of all events that it had when the call began, and
    /// perhaps of some behind them. They are taken by pieces, between which the loop serves its connections.
    fn journal_text(&self, conference: u32) -> Result<String, BoardRefusal> {
        let count = self.stands(conference)?.events as usize;
        let mut text = String::new(self.alloc);
        let mut done = 0usize;
        for _ in 0..count {
            if done >= count {
                break;
            }
            let added = self.add_piece(conference, done, &mut text)?;
            done = done.saturating_add(added);
        }
        add_end(self.alloc, &mut text, done)?;
        Ok(text)
    }

    /// Adds some lines of a journal behind the first `done`, and gives how many.
    fn add_piece(
        &self,
        conference: u32,
        done: usize,
        text: &mut String,
    ) -> Result<usize, BoardRefusal> {
        let question = Question::Journal {
            conference,
            done,
            until: usize::MAX,
        };
        match self.ask(conference, Asked::Tell(question))? {
            Answer::Lines(Ok(lines)) => {
                text.push_str(lines.text.as_str())?;
                Ok(lines.added)
            }
            Answer::Lines(Err(refusal)) => Err(board_refusal(refusal)),
            _ => Err(BoardRefusal::Memory),
        }
    }

    /// Ends the doors, where there are some, and waits until their thread has ended.
    fn end_doors(&mut self) {
        if let Some(doors) = self.doors.take() {
            doors.gate.end(&self.rt);
            doors.thread.join(&self.rt);
        }
    }

    /// Has all loops end, beside each other, and gives what they had together.
    fn stop_all(&self) -> Result<Stopped, StopRefusal> {
        for one in self.loops.iter() {
            if !self.is_lost() {
                one.mailbox.ask(&self.rt, Asked::Stop);
            }
        }
        let mut seats = 0usize;
        let mut events = 0u128;
        let mut broken = None;
        for one in self.loops.iter() {
            if let Some(Answer::Stopped(report)) = self.last_of(one) {
                seats = seats.saturating_add(report.joined);
                events = events.saturating_add(report.events);
                broken = self.first(broken, report);
            }
        }
        match broken {
            Some(conference) => Err(StopRefusal::Broken { conference }),
            None => Ok(Stopped { seats, events }),
        }
    }

    /// What a loop answers at the end. It isn't waited for where the folder is another server's.
    fn last_of(&self, one: &Serving) -> Option<Answer> {
        if self.is_lost() {
            return None;
        }
        let answer = one.mailbox.answer(&self.rt);
        if let Some(Answer::Lost(fault)) = &answer {
            self.lose(*fault);
        }
        answer
    }

    /// Of two conferences the one that was opened first.
    fn first(&self, broken: Option<u32>, report: Report) -> Option<u32> {
        match (broken, report.broken) {
            (Some(one), Some(other)) => {
                let owners = self.owners.lock(&self.rt);
                if owners.order(other) < owners.order(one) {
                    Some(other)
                } else {
                    Some(one)
                }
            }
            (one, other) => one.or(other),
        }
    }
}

impl<R: Net + Files<File = File> + AllocGlobal + Clock + Threads + Wait + Drop> Board
    for Server<R> {
    ghost opens = { λ _ _ _ _. Unit {0} };

    ghost closes = { λ _ _ _ _. Unit {0} };

    ghost revokes = { λ _ _ _ _ _. Unit {0} };

    ghost adds_user = { λ _ _ _ _ _. Unit {0} };

    ghost adds_floor = { λ _ _ _ _ _. Unit {0} };

    ghost sets_chair = { λ _ _ _ _ _ _. Unit {0} };

    ghost stands = { λ _ _ _ _. Unit {0} };

    ghost lists = { λ _ _ _ _. Unit {0} };

    ghost stops = { λ _ _ _. Unit {0} };

    fn open(&mut self, path: &str) -> Result<usize, BoardRefusal> {
        self.open_file(path)
    }

    fn close(&mut self, conference: u32) -> Result<(), BoardRefusal> {
        self.act(conference, Act::Close)
    }

    fn revoke(&mut self, conference: u32, request: u16) -> Result<(), BoardRefusal> {
        self.act(conference, Act::Revoke(request))
    }

    fn add_user(&mut self, conference: u32, user: User) -> Result<(), BoardRefusal> {
        let asked = self.adding_of(conference, user)?;
        self.change(conference, asked)
    }

    fn add_floor(&mut self, conference: u32, floor: Floor) -> Result<(), BoardRefusal> {
        self.act(conference, Act::AddFloor(floor))
    }

    fn set_chair(
        &mut self,
        conference: u32,
        floor: u16,
        chair: Option<u16>,
    ) -> Result<(), BoardRefusal> {
        self.act(conference, Act::SetChair(floor, chair))
    }

    fn status(&mut self, conference: u32) -> Result<Status, BoardRefusal> {
        self.stands(conference)
    }

    fn journal(&mut self, conference: u32) -> Result<Text, BoardRefusal> {
        Ok(Text::from_string(self.journal_text(conference)?))
    }

    fn stop(&mut self) -> Result<Stopped, StopRefusal> {
        self.tell(&Entry::Stopping);
        // Behind the doors nobody comes to a loop that ends.
        self.end_doors();
        let outcome = self.stop_all();
        self.outcome = Some(outcome);
        outcome
    }
}

/// Whether a path leads to a file, or to nothing.
fn is_readable_at_once<R: Files>(rt: &R, path: &str) -> bool {
    match fs::metadata(rt, path) {
        Ok(found) => found.is_file(),
        Err(_) => true,
    }
}

/// A refusal, of which there is no more to say.
fn only(refusal: BoardRefusal) -> Reason {
    Reason {
        refusal,
        line: None,
    }
}
