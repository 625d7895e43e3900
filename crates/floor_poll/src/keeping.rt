//! What happens in a turn stands in the files of its conferences before anybody hears of it.
//!
//! Where conferences are kept a turn goes so: all that came is served, and nothing is sent. Then the files have what
//! is new of their journals. Then what was asked is answered, and what is queued is written; and whoever is to be
//! shut down by that is, which begins anew. So whatever anybody has heard of is in the file: nothing is written to a
//! connection without a [`MaySend`], which this file alone makes.

ghost use Rattle.std.specs.Prelude.{◌≡◌, ℕ, IfErr, IfOk, IfSome, MatchResult, None, Some, is_some, length, nat_eq, not, option_and_then, true};
ghost use Rattle.std.specs.Option.{option_map};
ghost use Rattle.std.specs.VecDeque.{deque_len};
ghost use Rattle.indexmap.specs.IndexMap.{get};
ghost use Rattle.floor_hub.specs.Hub.{room_at};
ghost use Rattle.floor_poll.specs.Told.{IsToldAs, broken_at, broken_off, kept_of, told_done, unkept};
ghost use Rattle.floor_poll.specs.declared.mailbox.Asked.TheVariants.{Tell};
ghost use Rattle.floor_room.specs.Room.{Room};
ghost use Rattle.floor_room.specs.declared.status.Phase.TheVariants.{Broken};

use crate::inbox::{Asker, Note};
use crate::mailbox::{Answer, Asked, Mailbox, Question};
use crate::places::Places;
use crate::refusals::{broken, out_of_memory};
use crate::worker::Worker;
use floor_control::ControlRefusal;
use floor_keep::{Event, KeepFault, Unkept};
use floor_loop::{Act, ConnNo, HubRefusal, Loop, Status};
use floor_room::Phase;
use floor_server::Entry;
use indexmap::IndexMap;
use std::fs::File;
use std::rt::Files;
use std::sync::Wait;
use std::time::Clock;

/// How long an acknowledgement may wait to be written where nothing else happens, in milliseconds. Nobody hears of
/// it.
pub const LAST_MILLIS: u64 = 1_000;

/// The leave to write to connections, and to tell what waited for that: the files have what happened, or conferences
/// aren't kept.
#[derive(Clone, Copy, Debug)]
pub struct MaySend {
    is_kept: bool,
}

/// What waits until its turn is kept.
#[derive(Drop)]
pub enum Held {
    /// What somebody asks. It is looked up once it is told.
    Question {
        asker: Option<Asker>,
        question: Question,
    },
    /// What became of what was asked of a conference.
    Done {
        asker: Option<Asker>,
        conference: Option<u32>,
        done: Result<u32, ControlRefusal>,
    },
    /// The same of any other answer.
    Answer {
        asker: Option<Asker>,
        answer: Answer,
    },
    /// What the first thread is told unasked.
    News(Note),
}

impl<R: Clock + Drop> Worker<R> {
    /// Whether conferences are kept.
    pub fn keeps(&self) -> bool
        ensures value { result ≡ is_some self.entry.now.keeper }
    {
        self.keeper.is_some()
    }

    /// The leave to write at any time, where conferences aren't kept.
    pub fn may_send(&self) -> Option<MaySend>
        ensures value { is_some result ≡ not (is_some self.entry.now.keeper) }
    {
        if self.keeps() {
            None
        } else {
            Some(MaySend { is_kept: false })
        }
    }

    /// How many events a conference's file has that is broken off since the file failed; `None` of any other.
    pub fn broken_at(&self, conference: u32) -> Option<u32>
        ensures value { result ≡ broken_at (get nat_eq self.entry.now.conferences conference) }
    {
        match self.conferences.get(&conference) {
            Some(places) if places.is_broken => Some(places.kept),
            _ => None,
        }
    }

    /// How a conference stands, as anybody is told.
    pub fn standing(&self, conference: u32) -> Result<Status, HubRefusal>
        ensures found { (r : Room) → room_at self.entry.now.hub.hub conference ≡ Some r → MatchResult result
            (IsToldAs (broken_at (get nat_eq self.entry.now.conferences conference)) r.ledger) (λ _. ⊥) }
        ensures broken { (events : ℕ)
            → broken_at (get nat_eq self.entry.now.conferences conference) ≡ Some events
            → IfOk result (λ s. s.phase ≡ Broken) }
    {
        let status = self.hub.status(conference)?;
        match self.broken_at(conference) {
            Some(events) => Ok(Status {
                members: 0,
                ongoing: 0,
                events,
                phase: Phase::Broken,
            }),
            None => Ok(status),
        }
    }

    /// Whether the server stops, and adds nothing to what is kept.
    pub fn is_pausing(&self) -> bool
        ensures stops { result ≡ true → self.entry.now.is_stopping ≡ true }
    {
        self.is_stopping && self.keeps()
    }

    /// Whether the member of a connection that was closed stays since the server stops: where its conference is open.
    pub fn stays(&self, number: ConnNo) -> bool
        ensures stops { result ≡ true → self.entry.now.is_stopping ≡ true }
    {
        let Some(place) = self.hub.place(number) else {
            return false;
        };
        match self.hub.status(place.conference) {
            Ok(status) => self.is_pausing() && status.phase == Phase::Running,
            Err(_) => false,
        }
    }

    /// Takes down that a conference has events that its file may lack. There is room for that since it was opened.
    pub fn note_changed(&mut self, conference: u32)
        ensures hub { self.new.hub ≡ self.old.hub }
    {
        if !self.keeps() {
            return;
        }
        if let Some(places) = self.conferences.get_mut(&conference) {
            if !places.is_changed {
                places.is_changed = self.changed.push_back(conference).is_ok();
            }
        }
    }

    /// Takes down who is to be shut down, or whose socket has failed, once all that is kept is sent. There is room
    /// for each since it was accepted.
    pub fn put_over(&mut self, number: ConnNo)
        ensures hub { self.new.hub ≡ self.old.hub }
    {
        match self.connections.get_mut(&number) {
            Some(connection) if connection.is_over => {}
            Some(connection) => connection.is_over = self.over.push_back(number).is_ok(),
            None => {
                let _put = self.over.push_back(number);
            }
        }
    }
}

impl<R: Wait + Clock + Drop> Worker<R> {
    /// Tells the first thread what it didn't ask for, now or never: once the turn is kept, where it is.
    pub fn tell_news(&mut self, note: Note)
        ensures hub { self.new.hub ≡ self.old.hub }
    {
        if self.inbox.is_none() {
            return;
        }
        if self.keeps() {
            let _held = self.held.push_back(Held::News(note));
        } else {
            self.put_news(note);
        }
    }

    fn put_news(&self, note: Note) {
        match &self.inbox {
            Some(inbox) => inbox.tell(&self.rt, note),
            None => {}
        }
    }
}

impl<R: Files<File = File> + Clock + Wait + Copy + Drop> Worker<R> {
    /// Does what is asked, and holds the answer until the turn is kept.
    pub fn hold(&mut self, mailbox: &Mailbox, asker: Option<Asker>, asked: Asked) {
        if self.held.reserve(1).is_err() {
            let answer = Answer::Done(Err(out_of_memory()));
            return self.tell_answer(mailbox, asker, answer);
        }
        let conference = asked.conference();
        let held = match question_of(asked) {
            Ok(question) => Some(Held::Question { asker, question }),
            Err(asked) => self.held_of(asker, conference, asked),
        };
        if let Some(held) = held {
            let _held = self.held.push_back(held);
        }
    }

    /// Does what is asked, and gives what is told of it, where it has an answer at once.
    fn held_of(
        &mut self,
        asker: Option<Asker>,
        conference: Option<u32>,
        asked: Asked,
    ) -> Option<Held> {
        match self.carry_out(asked) {
            Some(Answer::Done(done)) => Some(Held::Done {
                asker,
                conference,
                done,
            }),
            Some(answer) => Some(Held::Answer { asker, answer }),
            None => None,
        }
    }

    /// Ends a turn: what happened is written to the files, then told and sent, and whoever is to be shut down by
    /// that is. Where conferences aren't kept all of it was done before.
    pub fn send_kept(&mut self, mailbox: &Mailbox) {
        if !self.keeps() {
            return;
        }
        for _ in 0..u64::MAX {
            let Some(may) = self.keep_turn() else {
                return;
            };
            self.tell_held(mailbox, may);
            self.write_kept(may);
            if self.over.is_empty() {
                break;
            }
            self.finish_over();
        }
        self.sync(self.now);
    }

    /// Writes what is new of each journal to its file, and gives the leave to write to connections. `None` where the
    /// folder isn't this server's any more: then nothing more may be told or sent.
    fn keep_turn(&mut self) -> Option<MaySend>
        ensures kept { IfSome result (λ _. deque_len self.new.changed ≡ 0) }
        ensures lost { is_some self.old.lost ≡ true → result ≡ None }
    {
        if self.lost.is_some() {
            return None;
        }
        if !self.changed.is_empty() && !self.is_ours() {
            return None;
        }
        self.keep_each()
    }

    /// The same for a folder that is this server's. A conference that is broken off by that has events behind it, which
    /// no file gets.
    fn keep_each(&mut self) -> Option<MaySend>
        ensures kept { IfSome result (λ _. deque_len self.new.changed ≡ 0) }
    {
        for _ in 0..u64::MAX {
            let Some(conference) = self.changed.pop_front() else {
                return Some(MaySend { is_kept: true });
            };
            self.keep(conference);
        }
        None
    }

    /// Whether the folder is this server's still, by its epoch, which is read. Where that can't be told it is answered as
    /// if it weren't: nothing may be sent that another server may have sent otherwise.
    pub fn is_ours(&mut self) -> bool
        ensures value { result ≡ not (is_some self.new.lost) }
        ensures lost { is_some self.old.lost ≡ true → self.new.lost ≡ self.old.lost }
        ensures hub { self.new.hub ≡ self.old.hub }
    {
        match &mut self.keeper {
            Some(keeper) if self.lost.is_none() => {
                self.lost = keeper.check_epoch(&self.rt).err();
            }
            _ => {}
        }
        self.lost.is_none()
    }

    /// Writes what is new of a conference's journal to its file.
    fn keep(&mut self, conference: u32) {
        if let Some(places) = self.conferences.get_mut(&conference) {
            places.is_changed = false;
        }
        match self.append(conference) {
            Ok(()) => self.note_kept(conference),
            Err(unkept) => self.give_up(unkept),
        }
    }

    /// Takes down that a conference's file has all of its events, where it hasn't failed.
    pub fn note_kept(&mut self, conference: u32)
        ensures here { (r : Room) → room_at self.old.hub.hub conference ≡ Some r
            → get nat_eq self.new.conferences conference
            ≡ option_map (kept_of (length r.ledger.journal))
            (get nat_eq self.old.conferences conference) }
        ensures hub { self.new.hub ≡ self.old.hub }
    {
        let events = self.events_of(conference);
        note_kept_in(&mut self.conferences, conference, events);
    }

    fn append(&mut self, conference: u32) -> Result<(), Unkept> {
        let Some(keeper) = &mut self.keeper else {
            return Ok(());
        };
        let Ok(journal) = self.hub.journal(conference) else {
            return Ok(());
        };
        match journal.last() {
            Some(Event::Close) => keeper.close(&self.rt, conference, journal),
            _ => keeper.append(&self.rt, conference, journal),
        }
    }

    /// A conference can't be kept any more: it goes on without that, or is broken off where that is asked for.
    pub fn give_up(&mut self, unkept: Unkept) {
        let conference = unkept.conference;
        self.tell(&Entry::Unkept(unkept));
        let or_stop = match &self.keeper {
            Some(keeper) => keeper.folder().or_stop(),
            None => false,
        };
        if or_stop {
            break_off_in(&mut self.conferences, conference);
            self.break_off(conference);
        } else {
            unkeep_in(&mut self.conferences, conference);
            self.tell_unkept(conference);
        }
    }

    /// Tells the first thread of a conference that goes on unkept.
    fn tell_unkept(&mut self, conference: u32)
        ensures hub { self.new.hub ≡ self.old.hub }
    {
        if self.held.reserve(1).is_ok() {
            self.tell_news(Note::Unkept { conference });
        }
    }

    /// Breaks a conference off. Its connections are closed without another byte, since what they are due isn't in
    /// the file.
    fn break_off(&mut self, conference: u32) {
        let before = self.before(conference);
        shut(&mut self.hub, conference, self.now);
        for _ in 0..u64::MAX {
            let first = match self.hub.members(conference) {
                Ok(live) => live.first().map(|one| one.number),
                Err(_) => None,
            };
            match first {
                Some(number) => self.end(number),
                None => break,
            }
        }
        self.tell_if_broken(conference);
        let _count = self.note_events(before);
    }

    /// Tells what waited until the turn was kept.
    fn tell_held(&mut self, mailbox: &Mailbox, may: MaySend) {
        for _ in 0..self.held.len() {
            match self.held.pop_front() {
                Some(held) => self.tell_one(mailbox, held, may),
                None => return,
            }
        }
    }

    fn tell_one(&mut self, mailbox: &Mailbox, held: Held, _may: MaySend) {
        match held {
            Held::Question { asker, question } => {
                let answer = self.answer_to(question);
                self.tell_answer(mailbox, asker, answer);
            }
            Held::Done {
                asker,
                conference,
                done,
            } => {
                let done = self.told_done(conference, done);
                self.tell_answer(mailbox, asker, Answer::Done(done));
            }
            Held::Answer { asker, answer } => self.tell_answer(mailbox, asker, answer),
            Held::News(note) => self.put_news(note),
        }
    }

    /// What is told of what became of an act: where its conference was broken off in the turn, what was done isn't in
    /// the file.
    fn told_done(
        &self,
        conference: Option<u32>,
        done: Result<u32, ControlRefusal>,
    ) -> Result<u32, ControlRefusal>
        ensures value { result ≡ told_done (option_and_then
            (λ c. broken_at (get nat_eq self.entry.now.conferences c)) conference) done }
    {
        let Some(conference) = conference else {
            return done;
        };
        match self.broken_at(conference) {
            Some(_) => Err(broken()),
            None => done,
        }
    }

    fn tell_answer(&mut self, mailbox: &Mailbox, asker: Option<Asker>, answer: Answer) {
        match asker {
            Some(asker) => self.put(Note::Answered { asker, answer }),
            None => mailbox.reply(&self.rt, answer),
        }
    }

    /// Writes to each connection that has something to write, whose journal stands in its file.
    fn write_kept(&mut self, may: MaySend) {
        for _ in 0..self.unblocked.len() {
            match self.unblocked.pop_front() {
                Some(number) => self.write(number, may),
                None => break,
            }
        }
        self.write_ready(may);
    }

    /// Shuts down who is to be, since all is written or the socket has failed: of a conference one after another, so
    /// that the others hear what its leave tells them, once that is kept.
    fn finish_over(&mut self) {
        for _ in 0..self.over.len() {
            let Some(number) = self.over.pop_front() else {
                return;
            };
            if self.lacks_events(number) {
                let _put = self.over.push_back(number);
            } else {
                self.finish(number);
            }
        }
    }

    /// Whether the conference of a connection has events that its file may lack.
    fn lacks_events(&self, number: ConnNo) -> bool {
        let Some(place) = self.hub.place(number) else {
            return false;
        };
        match self.conferences.get(&place.conference) {
            Some(places) => places.is_changed,
            None => false,
        }
    }

    /// Shuts a connection down that is to be, unless its socket has taken only a part of what it was told since.
    fn finish(&mut self, number: ConnNo) {
        let is_blocked = match self.connections.get_mut(&number) {
            Some(connection) => {
                connection.is_over = false;
                connection.is_blocked
            }
            None => false,
        };
        if !is_blocked && self.hub.until(number).is_some() {
            self.end(number);
        }
    }

    /// Asks the disk for what was written, where it is time.
    fn sync(&mut self, now: u64) {
        for _ in 0..u64::MAX {
            let failed = match &mut self.keeper {
                Some(keeper) => keeper.sync(&self.rt, now),
                None => None,
            };
            match failed {
                Some(unkept) => self.give_up(unkept),
                None => return,
            }
        }
    }

    /// Writes all that the files lack, and asks the disk for it, at the end.
    pub fn keep_last(&mut self) {
        if self.keep_turn().is_some() {
            self.sync(u64::MAX);
        }
    }

    /// Tells the first thread that nothing more may be sent, and why.
    pub fn tell_lost(&mut self, mailbox: &Mailbox, fault: KeepFault) {
        self.tell(&Entry::Lost(fault));
        self.put_news(Note::Lost(fault));
        mailbox.reply(&self.rt, Answer::Lost(fault));
    }
}

/// What is to be told, where nothing is to be done; otherwise what is asked.
fn question_of(asked: Asked) -> Result<Question, Asked>
    ensures question { IfOk result (λ question. asked ≡ Tell question) }
    ensures others { IfErr result (λ other. other ≡ asked) }
{
    match asked {
        Asked::Tell(question) => Ok(question),
        other => Err(other),
    }
}

/// Takes it that a conference's file has so many events, where it hasn't failed.
fn note_kept_in(conferences: &mut IndexMap<u32, Places>, conference: u32, events: u32)
    ensures here { get nat_eq conferences.new conference
        ≡ option_map (kept_of events) (get nat_eq conferences.old conference) }
{
    match conferences.get_mut(&conference) {
        Some(places) => places.note_kept(events),
        None => {}
    }
}

/// Takes it that a conference is broken off since its file has failed.
fn break_off_in(conferences: &mut IndexMap<u32, Places>, conference: u32)
    ensures here { get nat_eq conferences.new conference
        ≡ option_map broken_off (get nat_eq conferences.old conference) }
{
    match conferences.get_mut(&conference) {
        Some(places) => places.break_off(),
        None => {}
    }
}

/// Takes it that a conference goes on without its file, which has failed.
fn unkeep_in(conferences: &mut IndexMap<u32, Places>, conference: u32)
    ensures here { get nat_eq conferences.new conference
        ≡ option_map unkept (get nat_eq conferences.old conference) }
{
    match conferences.get_mut(&conference) {
        Some(places) => places.unkeep(),
        None => {}
    }
}

/// Has nothing more happen in a conference that is broken off. What it is told by that isn't sent.
fn shut(hub: &mut Loop, conference: u32, now: u64) {
    let _closed = hub.admin(conference, Act::Close, now);
}
