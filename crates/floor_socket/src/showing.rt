//! What a conference's events show is told to those who watch it.

ghost use Rattle.std.specs.Prelude.{◌≡◌, ◌<◌, ◌+◌, OnOk, false, length, nat_le, true};
ghost use Rattle.floor_control.specs.Outgoing.{answered, ended_answer, is_full, told};

use crate::client::{Behind, Due, Waiting};
use crate::desk::Desk;
use crate::following::Follower;
use crate::replica::Replica;
use floor_control::{Client, ControlRefusal, Notice, add_notice};
use floor_poll::{Answer, Asked, Asker, Question};
use std::alloc::AllocError;
use std::collections::VecDeque;
use std::fs::File;
use std::net::Net;
use std::rt::Files;
use std::sync::Wait;
use std::thread::Threads;
use std::time::Clock;

impl<R> Desk<R>
where
    R: Net
        + Files<File = File>
        + AllocGlobal
        + Clock
        + Threads
        + Wait
        + Copy
        + Drop
        + Send
        + 'static,
{
    /// Takes it that a conference has more events than those who have caught up know.
    pub fn take_growth(&mut self, conference: u32) {
        let Some(meeting) = self.meetings.get_mut(&conference) else {
            return;
        };
        if let Some(followed) = &mut meeting.followed {
            followed.replica.note_more();
            self.queue_feed(conference);
        }
    }

    /// Takes events that those who have caught up asked for.
    pub fn take_events(&mut self, conference: u32, number: u64, answer: Answer) {
        let Some(meeting) = self.meetings.get_mut(&conference) else {
            return;
        };
        let Some(followed) = &mut meeting.followed else {
            return;
        };
        if !followed.replica.awaits(number) {
            return;
        }
        match followed.take(answer) {
            Ok(()) => self.queue_feed(conference),
            Err(_) => self.give_up(conference),
        }
    }

    /// Has what is to be shown of a conference shown, each once.
    pub fn queue_feed(&mut self, conference: u32) {
        let Some(meeting) = self.meetings.get_mut(&conference) else {
            return;
        };
        let Some(followed) = &mut meeting.followed else {
            return;
        };
        if followed.is_queued {
            return;
        }
        followed.is_queued = self.feeds.push_back(conference).is_ok();
        if !followed.is_queued {
            self.give_up(conference);
        }
    }

    /// Shows something of each conference of which there is something to show.
    pub fn feed_all(&mut self) {
        for _ in 0..self.feeds.len() {
            let Some(conference) = self.feeds.pop_front() else {
                return;
            };
            if self.feed(conference).is_err() {
                self.give_up(conference);
            }
        }
    }

    /// Shows what the next events of a conference show, for a millisecond, and asks for more once all is shown.
    fn feed(&mut self, conference: u32) -> Result<(), ControlRefusal> {
        let mut text = String::new(self.alloc);
        let rt = self.rt;
        let Some(meeting) = self.meetings.get_mut(&conference) else {
            return Ok(());
        };
        let Some(followed) = &mut meeting.followed else {
            return Ok(());
        };
        followed.is_queued = false;
        let before = followed.replica.place();
        let until = followed.until();
        followed.replica.show(&rt, &mut text, 0, until)?;
        let has_events = followed.replica.has_events();
        let is_due = followed.replica.is_due();
        if followed.breaks && !followed.is_broken && !has_events {
            followed.is_broken = true;
            add_notice(&mut text, conference, Notice::Broken)?;
        }
        self.tell_followers(conference, before, text.as_str());
        if has_events {
            self.queue_feed(conference);
        } else if is_due {
            self.ask_for_followers(conference)?;
        }
        Ok(())
    }

    /// Tells those who have caught up what the events behind a place show.
    fn tell_followers(&mut self, conference: u32, before: u64, text: &str) {
        let mut place = 0usize;
        for _ in 0..u64::MAX {
            let Some(follower) = self.follower(conference, place) else {
                return;
            };
            place = place.saturating_add(1);
            let Some(seat) = self.clients.get_mut(&follower.client) else {
                continue;
            };
            if is_told(follower, before) && !text.is_empty() {
                let told = seat.lines.tell(text);
                seat.has_failed = seat.has_failed || told.is_err();
            }
            self.queue(follower.client);
        }
    }

    /// Tells those who watch a conference what is no event, each once it was told what the events up to this place show:
    /// whoever hears that a member is away has heard that it joined.
    pub fn notify(&mut self, conference: u32, place: u64, notice: Notice) {
        for at in 0..self.clients.len() {
            let Some(number) = self.clients.get_index(at).map(|(number, _)| *number) else {
                return;
            };
            if let Some(seat) = self.clients.get_mut(&number) {
                seat.notify(Waiting {
                    conference,
                    place,
                    notice,
                });
            }
            self.queue(number);
        }
    }

    /// Tells a client what waits for it and is no event, where it was told what stands before that, and says whether
    /// there was any. What is of a conference that it watches no longer is dropped.
    pub fn tell_notices(&mut self, number: u64) -> bool {
        let count = match self.clients.get(&number) {
            Some(seat) => seat.notice_count(),
            None => 0,
        };
        let mut has_told = false;
        for _ in 0..count {
            let next = match self.clients.get_mut(&number) {
                Some(seat) => seat.next_notice(),
                None => None,
            };
            if let Some(waiting) = next {
                has_told = self.tell_notice(number, waiting) || has_told;
            }
        }
        has_told
    }

    /// Tells a client what is no event, or has it wait on behind the others, and says whether it was told.
    fn tell_notice(&mut self, number: u64, waiting: Waiting) -> bool {
        let Some(reached) = self.reached(number, waiting.conference) else {
            return false;
        };
        let mut text = String::new(self.alloc);
        let Some(seat) = self.clients.get_mut(&number) else {
            return false;
        };
        if reached < waiting.place {
            seat.notify(waiting);
            return false;
        }
        let told = match add_notice(&mut text, waiting.conference, waiting.notice) {
            Ok(()) => seat.lines.tell(text.as_str()),
            Err(error) => Err(error),
        };
        seat.has_failed = seat.has_failed || told.is_err();
        true
    }

    /// One of those who have caught up with a conference.
    fn follower(&self, conference: u32, place: usize) -> Option<Follower> {
        let followed = self.meetings.get(&conference)?.followed.as_ref()?;
        followed.followers.get(place).copied()
    }

    /// Asks for the next events of a conference for those who have caught up.
    fn ask_for_followers(&mut self, conference: u32) -> Result<(), ControlRefusal> {
        let number = self.next_ask();
        let Some(meeting) = self.meetings.get_mut(&conference) else {
            return Ok(());
        };
        let Some(followed) = &mut meeting.followed else {
            return Ok(());
        };
        followed.replica.ask(number);
        let done = followed.replica.place() as usize;
        let asker = Asker::Followers { conference, number };
        self.ask_for_events(asker, conference, done)
    }

    /// Asks a loop for events of a conference.
    fn ask_for_events(
        &mut self,
        asker: Asker,
        conference: u32,
        done: usize,
    ) -> Result<(), ControlRefusal> {
        match self.server.owner(conference) {
            Some(place) => {
                let question = Question::Events { conference, done };
                self.send(place, asker, Asked::Tell(question))
            }
            None => Ok(()),
        }
    }

    /// The number of the next ask for events.
    fn next_ask(&mut self) -> u64 {
        self.last_ask = self.last_ask.saturating_add(1);
        self.last_ask
    }

    /// Closes those who have caught up with a conference of which no more can be shown for want of memory: they go on
    /// from the last place that they were told.
    fn give_up(&mut self, conference: u32) {
        for _ in 0..u64::MAX {
            let Some(follower) = self.follower(conference, 0) else {
                return;
            };
            self.unfollow(conference, follower.client);
            self.fail(follower.client);
        }
    }
}

impl<R> Desk<R>
where
    R: Net
        + Files<File = File>
        + AllocGlobal
        + Clock
        + Threads
        + Wait
        + Copy
        + Drop
        + Send
        + 'static,
{
    /// Tells a client more of what it is behind with, where it takes more, and says whether it came any further.
    pub fn catch_up(&mut self, number: u64) -> bool {
        let due = match self.clients.get_mut(&number) {
            Some(seat) => {
                seat.put_hurried_first();
                seat.due()
            }
            None => Due::Nothing,
        };
        match self.catch_up_with(number, due) {
            Ok(has_moved) => has_moved,
            Err(_) => {
                self.fail(number);
                true
            }
        }
    }

    /// Tells a client what is due to it, and says whether it came any further.
    fn catch_up_with(&mut self, number: u64, due: Due) -> Result<bool, ControlRefusal> {
        match due {
            Due::Nothing => Ok(false),
            Due::Replica { conference } => self.begin_replica(number, conference),
            Due::Lines => self.show_behind(number),
            Due::More {
                conference,
                place,
                is_at_end,
            } => {
                if self.has_caught_up(conference, place, is_at_end) {
                    self.join_followers(number)?;
                    return Ok(true);
                }
                self.ask_behind(number)
            }
        }
    }

    /// Shows a client some of the events that were copied for it.
    fn show_behind(&mut self, number: u64) -> Result<bool, ControlRefusal> {
        let mut text = String::new(self.alloc);
        let Some(seat) = self.clients.get_mut(&number) else {
            return Ok(false);
        };
        let takes_more = seat.takes_more();
        let Some(behind) = seat.behind.front_mut() else {
            return Ok(false);
        };
        let from = behind.from;
        let Some(replica) = &mut behind.replica else {
            return Ok(false);
        };
        replica.show(&self.rt, &mut text, from, u64::MAX)?;
        show(&mut seat.lines, takes_more, text.as_str())?;
        Ok(true)
    }

    /// Gives a client a replica of the first conference that it is behind with.
    fn begin_replica(&mut self, number: u64, conference: u32) -> Result<bool, ControlRefusal> {
        let replica = match self.meetings.get(&conference) {
            Some(meeting) => meeting.replica(self.alloc)?,
            None => return Err(ControlRefusal::Forgotten),
        };
        let Some(seat) = self.clients.get_mut(&number) else {
            return Ok(false);
        };
        if let Some(behind) = seat.behind.front_mut() {
            behind.replica = Some(replica);
        }
        Ok(true)
    }

    /// Whether a client that was told up to this place has caught up with the others, or with the conference where
    /// there are none.
    fn has_caught_up(&self, conference: u32, place: u64, is_at_end: bool) -> bool {
        let followed = match self.meetings.get(&conference) {
            Some(meeting) => meeting.followed.as_ref(),
            None => None,
        };
        match followed {
            Some(followed) => followed.replica.place() <= place,
            None => is_at_end,
        }
    }

    /// Takes a client in among those who have caught up.
    fn join_followers(&mut self, number: u64) -> Result<(), ControlRefusal> {
        let alloc = self.alloc;
        let Some(seat) = self.clients.get_mut(&number) else {
            return Ok(());
        };
        let Some(behind) = seat.behind.pop_front() else {
            return Ok(());
        };
        let follower = Follower {
            client: number,
            from: behind.place().saturating_add(1),
        };
        let Behind {
            conference,
            replica: Some(mut replica),
            ..
        } = behind
        else {
            return Ok(());
        };
        let Some(meeting) = self.meetings.get_mut(&conference) else {
            return Ok(());
        };
        if meeting.followed.is_none() {
            self.following = self.following.saturating_add(1);
        }
        // What has come meanwhile was told to nobody.
        replica.note_more();
        meeting.join(alloc, follower, replica)?;
        self.queue_feed(conference);
        Ok(())
    }

    /// Asks for the next events for a client that is behind, where nothing is asked for.
    fn ask_behind(&mut self, number: u64) -> Result<bool, ControlRefusal> {
        let ask = self.next_ask();
        let Some(seat) = self.clients.get_mut(&number) else {
            return Ok(false);
        };
        let Some(behind) = seat.behind.front_mut() else {
            return Ok(false);
        };
        let conference = behind.conference;
        let Some(replica) = &mut behind.replica else {
            return Ok(false);
        };
        // Those who have caught up may be ahead of what was its end.
        replica.note_more();
        if !replica.is_due() {
            return Ok(false);
        }
        replica.ask(ask);
        let done = replica.place() as usize;
        let asker = Asker::Behind {
            client: number,
            number: ask,
        };
        self.ask_for_events(asker, conference, done)?;
        Ok(false)
    }

    /// Takes events that a client that is behind asked for.
    pub fn take_behind(&mut self, number: u64, ask: u64, answer: Answer) {
        let Some(seat) = self.clients.get_mut(&number) else {
            return;
        };
        if let Some(replica) = awaiting(&mut seat.behind, ask) {
            let taken = replica.take_answer(answer);
            seat.has_failed = seat.has_failed || taken.is_err();
        }
        self.queue(number);
    }
}

/// Whether one who has caught up is told what the events behind a place show.
fn is_told(follower: Follower, before: u64) -> bool
    ensures value { result ≡ nat_le follower.from (before + 1) }
{
    follower.from <= before.saturating_add(1)
}

/// Tells a client lines of what it is behind with: between two answers where it takes them, else as live ones.
fn show(lines: &mut Client, takes_more: bool, text: &str) -> Result<(), AllocError>
    ensures live { takes_more ≡ false
        → OnOk result (lines.new ≡ record lines.old { outgoing = told text.now lines.old.outgoing }) }
    ensures between { takes_more ≡ true → 0 < length text.now → is_full lines.old.outgoing ≡ false
        → OnOk result (lines.new ≡ record lines.old {
          outgoing = ended_answer (answered text.now lines.old.outgoing);
        }) }
{
    if takes_more {
        tell_between(lines, text)
    } else {
        lines.tell(text)
    }
}

/// Tells a client lines between two answers.
fn tell_between(lines: &mut Client, text: &str) -> Result<(), AllocError>
    ensures took { 0 < length text.now → is_full lines.old.outgoing ≡ false
        → OnOk result (lines.new ≡ record lines.old {
          outgoing = ended_answer (answered text.now lines.old.outgoing);
        }) }
{
    if text.is_empty() || lines.is_full() {
        return Ok(());
    }
    lines.answer(text)?;
    lines.end_answer()
}

/// The replica of a client that this ask is for, where it watches that conference still.
fn awaiting(behind: &mut VecDeque<Behind>, ask: u64) -> Option<&mut Replica> {
    let replica = behind.front_mut()?.replica.as_mut()?;
    if replica.awaits(ask) {
        Some(replica)
    } else {
        None
    }
}
