//! What the first thread asks of a loop, and what the loop answers; and who comes to it by a door.

ghost use Rattle.std.specs.Prelude.{◌≡◌};
ghost use Rattle.floor_poll.specs.Asked.{conference_of};

use crate::arrival::Arrival;
use crate::fresh::Fresh;
use crate::inbox::Asker;
use crate::port::Port;
use crate::refusals::out_of_memory;
use floor_config::Config;
use floor_control::{ControlRefusal, Metrics, Standing};
use floor_keep::{KeepFault, KeepReason, NotAJournal, Note as Beside, Octets, Text};
use floor_loop::{Act, Event, Status, User};
use mio::Waker;
use std::alloc::{AllocError, Global};
use std::collections::VecDeque;
use std::sync::{Mutex, Wait};
use std::thread::Parker;

/// What is asked of a loop.
#[derive(Drop)]
pub enum Asked {
    /// To open a conference with these ports, which are listened on. Where conferences are kept it has a head.
    Open {
        fresh: Fresh,
        ports: Vec<Port>,
    },
    /// To let a conference go on that the folder has.
    Resume {
        conference: u32,
    },
    /// To take in the ports of a conference that goes on, which are listened on.
    Ports {
        conference: u32,
        ports: Vec<Port>,
    },
    /// To keep a word beside a conference, in its file; `None` takes away what is kept by the key.
    Word {
        conference: u32,
        key: Text,
        value: Option<Octets>,
    },
    /// To add a user to a conference, with a port that is listened on, where there is one.
    AddUser {
        conference: u32,
        user: User,
        port: Option<Port>,
    },
    /// To do what a conference's administrator does.
    Admin {
        conference: u32,
        act: Act,
    },
    /// To show a member out of a conference.
    Leave {
        conference: u32,
        n: u32,
    },
    /// To give the memory of a conference back.
    Forget {
        conference: u32,
    },
    /// To tell something, and to do nothing.
    Tell(Question),
    /// To begin to count the time.
    Begin,
    /// To answer once none of the conferences is open.
    Drain,
    /// To end.
    Stop,
}

impl Asked {
    /// The conference to which something is to be done, where it is one's.
    pub fn conference(&self) -> Option<u32>
        ensures value { result ≡ conference_of self.now }
    {
        match self {
            Asked::Open { fresh, ports: _ } => Some(fresh.config().conference()),
            Asked::Resume { conference }
            | Asked::Ports { conference, .. }
            | Asked::Word { conference, .. }
            | Asked::AddUser { conference, .. }
            | Asked::Admin { conference, .. }
            | Asked::Leave { conference, .. }
            | Asked::Forget { conference } => Some(*conference),
            Asked::Tell(_) | Asked::Begin | Asked::Drain | Asked::Stop => None,
        }
    }
}

/// What a loop is to tell.
#[derive(Drop)]
pub enum Question {
    /// How a conference stands.
    Status {
        conference: u32,
    },
    /// The lines of a conference's journal behind the first `done` events and up to the first `until`.
    Journal {
        conference: u32,
        done: usize,
        until: usize,
    },
    /// The lines of a conference's users.
    Users {
        conference: u32,
    },
    /// The lines of a conference's live members.
    Members {
        conference: u32,
    },
    /// The lines of a conference's floors.
    Floors {
        conference: u32,
    },
    /// Copies of a conference's events behind the first `done`.
    Events {
        conference: u32,
        done: usize,
    },
    /// How these conferences stand.
    Standings {
        conferences: Vec<u32>,
    },
    /// What was counted.
    Counts,
}

/// What a loop answers.
#[derive(Drop)]
pub enum Answer {
    /// It is done, and the conference's journal has so many events; or it is refused.
    Done(Result<u32, ControlRefusal>),
    /// The conference goes on, or was closed and has its last name now; or why it doesn't go on.
    Resumed(Result<Option<Resumed>, Unresumed>),
    /// How the conference stands, and whether it isn't kept any more that was.
    Stands(Result<Status, ControlRefusal>, bool),
    /// Some lines.
    Lines(Result<Lines, ControlRefusal>),
    /// Some events, and whether there are more.
    Events(Result<Piece, ControlRefusal>),
    /// How those of the conferences stand that weren't forgotten.
    Standings(Result<Vec<Standing>, ControlRefusal>),
    /// What was counted.
    Counts(Metrics),
    /// None of the conferences is open.
    Drained,
    /// It has ended.
    Stopped(Report),
    /// It has ended, since the folder of the kept conferences is another server's, or that can't be told.
    Lost(KeepFault),
}

/// A conference of the folder that goes on.
#[derive(Drop)]
pub struct Resumed {
    /// The configuration that it was opened with.
    pub config: Config,
    /// What stands beside its events.
    pub notes: Vec<Beside>,
}

impl From<AllocError> for Unresumed {
    fn from(_e: AllocError) -> Unresumed {
        Unresumed::Refused(out_of_memory())
    }
}

/// Why a conference that the folder has doesn't go on.
#[derive(Debug, Drop)]
pub enum Unresumed {
    /// The machine doesn't take the event of this place.
    NotAJournal(NotAJournal),
    /// The hub refuses it.
    Refused(ControlRefusal),
    /// Its file can't be had: by `CannotKeep` where that is so of this file alone.
    Unkept(KeepReason),
}

/// Some events of a journal.
#[derive(Drop)]
pub struct Piece {
    pub events: Vec<Event>,
    /// Whether the journal has some behind them.
    pub has_more: bool,
    /// Whether the conference is broken off.
    pub is_broken: bool,
}

/// What is asked of a loop, and who isn't waited for.
#[derive(Drop)]
pub struct Ask {
    pub asker: Asker,
    pub asked: Asked,
}

/// Some lines.
#[derive(Drop)]
pub struct Lines {
    pub text: String,
    /// How many events of a journal they are of.
    pub added: usize,
}

/// What a loop that ended had.
#[derive(Clone, Copy, Debug)]
pub struct Report {
    /// How many connections ever joined.
    pub joined: usize,
    /// How many events its conferences have together.
    pub events: u128,
    /// The first of its conferences, in the order of opening, that is broken off.
    pub broken: Option<u32>,
}

/// Where the first thread and the doors meet a loop. What is asked waits until the loop takes it, the answer
/// until the first thread does, and who comes by a door until the loop lets it in. What is asked by somebody who
/// isn't waited for stands in a queue of its own, and is answered by the inbox.
#[derive(Drop)]
pub struct Mailbox {
    asked: Mutex<Option<Asked>>,
    answer: Mutex<Option<Answer>>,
    answered: Parker,
    asks: Mutex<VecDeque<Ask>>,
    arrivals: Mutex<VecDeque<Arrival>>,
    waker: Waker,
}

impl Mailbox {
    /// Nothing is asked, and nobody comes. The waker ends the loop's waiting. Takes no memory.
    pub fn new(alloc: Global, waker: Waker) -> Mailbox {
        Mailbox {
            asked: Mutex::new(None),
            answer: Mutex::new(None),
            answered: Parker::new(),
            asks: Mutex::new(VecDeque::new(alloc)),
            arrivals: Mutex::new(VecDeque::new(alloc)),
            waker,
        }
    }

    /// Asks the loop.
    pub fn ask<R: Wait>(&self, rt: &R, asked: Asked) {
        *self.asked.lock(rt) = Some(asked);
        let _woken = self.waker.wake();
    }

    /// Waits for the answer.
    pub fn answer<R: Wait>(&self, rt: &R) -> Option<Answer> {
        for _ in rt.forever() {
            let answer = self.answer.lock(rt).take();
            if answer.is_some() {
                return answer;
            }
            self.answered.park(rt);
        }
        None
    }

    /// Takes what is asked, once.
    pub fn take<R: Wait>(&self, rt: &R) -> Option<Asked> {
        self.asked.lock(rt).take()
    }

    /// Answers what was taken.
    pub fn reply<R: Wait>(&self, rt: &R, answer: Answer) {
        *self.answer.lock(rt) = Some(answer);
        self.answered.unpark();
    }

    /// Asks the loop for somebody who isn't waited for. After an error nothing was asked.
    pub fn send<R: Wait>(&self, rt: &R, ask: Ask) -> Result<(), AllocError> {
        match self.asks.lock(rt).push_back(ask) {
            Ok(()) => {}
            Err(_) => return Err(AllocError),
        }
        let _woken = self.waker.wake();
        Ok(())
    }

    /// The first that is asked so.
    pub fn next_ask<R: Wait>(&self, rt: &R) -> Option<Ask> {
        self.asks.lock(rt).pop_front()
    }

    /// Whether nothing is asked so.
    pub fn is_idle<R: Wait>(&self, rt: &R) -> bool {
        self.asks.lock(rt).is_empty()
    }

    /// Hands over who has come by a door. After an error nobody was, and its connection is closed.
    pub fn bring<R: Wait>(&self, rt: &R, arrival: Arrival) -> Result<(), AllocError> {
        match self.arrivals.lock(rt).push_back(arrival) {
            Ok(()) => {}
            Err(_) => return Err(AllocError),
        }
        let _woken = self.waker.wake();
        Ok(())
    }

    /// How many wait who have come by a door.
    pub fn waiting<R: Wait>(&self, rt: &R) -> usize {
        self.arrivals.lock(rt).len()
    }

    /// The first of those who wait.
    pub fn next_arrival<R: Wait>(&self, rt: &R) -> Option<Arrival> {
        self.arrivals.lock(rt).pop_front()
    }
}
