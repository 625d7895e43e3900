//! What the loops tell the first thread, which doesn't wait for it.

use crate::fresh::Fresh;
use crate::mailbox::Answer;
use floor_console::BoardRefusal;
use floor_keep::KeepFault;
use mio::Waker;
use std::alloc::{AllocError, Global};
use std::collections::VecDeque;
use std::sync::{Mutex, Wait};

/// Who asks a loop and isn't waited for.
#[derive(Clone, Copy, Debug, PartialEq, Eq)]
pub enum Asker {
    /// The line that a client has at work.
    Line { client: u64 },
    /// The same where a conference is opened, which goes on without the client.
    Opening { client: u64, conference: u32 },
    /// The same where a conference is forgotten.
    Forgetting { client: u64, conference: u32 },
    /// A client that is behind with what it watches.
    Behind { client: u64, number: u64 },
    /// Those who have caught up with a conference.
    Followers { conference: u32, number: u64 },
    /// The server, which waits until none of the loop's conferences is open.
    Drain,
}

/// What the first thread is told.
#[derive(Drop)]
pub enum Note {
    /// What a loop answers.
    Answered {
        asker: Asker,
        answer: Answer,
    },
    /// A conference has events that nobody has asked for yet: told once, until they are asked for.
    Grown {
        conference: u32,
    },
    /// A configuration was read that a client asked for.
    Read {
        client: u64,
        read: Result<VecDeque<Fresh>, Unread>,
    },
    /// Member n has lost its connection and stays. The conference has so many events then.
    Away {
        conference: u32,
        user: u16,
        n: u32,
        events: u32,
    },
    /// The user of member n, which was away, is back, and n has left. The conference has so many events then.
    Back {
        conference: u32,
        user: u16,
        n: u32,
        events: u32,
    },
    /// A conference can't be kept any more, and goes on.
    Unkept {
        conference: u32,
    },
    /// Nothing more may be sent: the folder of the kept conferences is another server's, or that can't be told.
    Lost(KeepFault),
}

/// Why a configuration isn't opened, before any of its conferences is.
#[derive(Debug, Drop)]
pub struct Unread {
    pub refusal: BoardRefusal,
    /// The line of the fault, counted from 1, where it has one and it was looked for.
    pub line: Option<usize>,
    /// What a person is told.
    pub told: Option<String>,
}

/// What the first thread was told and hasn't taken yet.
#[derive(Drop)]
pub struct Inbox {
    notes: Mutex<VecDeque<Note>>,
    /// What nobody has asked for.
    news: Mutex<VecDeque<Note>>,
    waker: Waker,
}

impl Inbox {
    /// Nothing was told. The waker ends the first thread's waiting. Takes no memory.
    pub fn new(alloc: Global, waker: Waker) -> Inbox {
        Inbox {
            notes: Mutex::new(VecDeque::new(alloc)),
            news: Mutex::new(VecDeque::new(alloc)),
            waker,
        }
    }

    /// Takes room for so many notes besides those that wait.
    pub fn reserve<R: Wait>(&self, rt: &R, expected: usize) -> Result<(), AllocError> {
        self.notes.lock(rt).reserve(expected)
    }

    /// Tells the first thread something. There is room for it since it was asked for.
    pub fn put<R: Wait>(&self, rt: &R, note: Note) {
        let _told = self.notes.lock(rt).push_back(note);
        let _woken = self.waker.wake();
    }

    /// Tells the first thread something that it didn't ask for, where memory can be had for that.
    pub fn tell<R: Wait>(&self, rt: &R, note: Note) {
        let _told = self.news.lock(rt).push_back(note);
        let _woken = self.waker.wake();
    }

    /// How many notes wait.
    pub fn waiting<R: Wait>(&self, rt: &R) -> usize {
        let notes = self.notes.lock(rt).len();
        notes.saturating_add(self.news.lock(rt).len())
    }

    /// The first note that waits.
    pub fn take<R: Wait>(&self, rt: &R) -> Option<Note> {
        let news = self.news.lock(rt).pop_front();
        if news.is_some() {
            return news;
        }
        self.notes.lock(rt).pop_front()
    }
}
