//! What is asked of a loop by somebody who isn't waited for.

ghost use Rattle.std.specs.Prelude.{◌≡◌, ℕ, Some, false, nat_eq};
ghost use Rattle.indexmap.specs.IndexMap.{get};
ghost use Rattle.floor_poll.specs.Told.{broken_at};

use crate::inbox::{Asker, Note};
use crate::mailbox::{Answer, Ask, Mailbox};
use crate::worker::Worker;
use floor_room::Phase;
use std::fs::File;
use std::rt::Files;
use std::sync::Wait;
use std::time::Clock;

/// How many are answered between two turns.
const MAX_ASKS: u32 = 64;

impl<R: Files<File = File> + Clock + Wait + Copy + Drop> Worker<R> {
    /// Answers what is asked, 64 at most at a time.
    pub fn answer_asks(&mut self, mailbox: &Mailbox) {
        let rt = self.rt;
        self.has_asks = false;
        for _ in 0..MAX_ASKS {
            match mailbox.next_ask(&rt) {
                Some(ask) => self.answer_ask(mailbox, ask),
                None => return,
            }
        }
        self.has_asks = !mailbox.is_idle(&rt);
    }

    /// Does what is asked, and answers; once the turn is kept, where it is.
    fn answer_ask(&mut self, mailbox: &Mailbox, ask: Ask) {
        let Ask { asker, asked } = ask;
        if self.keeps() {
            return self.hold(mailbox, Some(asker), asked);
        }
        if let Some(answer) = self.carry_out(asked) {
            self.put(Note::Answered { asker, answer });
        }
        self.write_turn();
    }

    /// Tells the first thread that none of the conferences is open, where it waits for that.
    pub fn tell_drained(&mut self) {
        if !self.is_draining || self.has_open() {
            return;
        }
        self.is_draining = false;
        self.put(Note::Answered {
            asker: Asker::Drain,
            answer: Answer::Drained,
        });
    }

    /// Whether one of the conferences is open. The one that was found open last is looked at first.
    fn has_open(&mut self) -> bool {
        if self.is_open(self.last_open) {
            return true;
        }
        for (conference, _) in self.conferences.iter() {
            if self.is_open(*conference) {
                self.last_open = *conference;
                return true;
            }
        }
        false
    }
}

impl<R: Clock + Drop> Worker<R> {
    fn is_open(&self, conference: u32) -> bool
        ensures broken { (events : ℕ)
            → broken_at (get nat_eq self.entry.now.conferences conference) ≡ Some events
            → result ≡ false }
    {
        match self.standing(conference) {
            Ok(status) => status.phase == Phase::Running,
            Err(_) => false,
        }
    }
}

impl<R: Wait + Clock + Drop> Worker<R> {
    /// Tells the first thread something, where it serves a control socket.
    pub fn put(&self, note: Note) {
        match &self.inbox {
            Some(inbox) => inbox.put(&self.rt, note),
            None => {}
        }
    }
}
