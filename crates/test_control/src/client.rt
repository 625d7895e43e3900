//! A client, as it sees what it is told: each answer belongs to the next line with an id, and each event of what it watches
//! is told once, in order.

ghost use Rattle.std.specs.Prelude.{◌<◌, IfSome};

use crate::asking::SECRET;
use crate::fault::{Fault, demand};
use crate::happening::Ask;
use crate::journals::{CONFERENCES, Journals};
use std::alloc::{AllocError, Global};
use std::collections::VecDeque;

/// What each answer and notification begins with; and what stands before how much waits for a member.
const ANSWER: &str = "{\"jsonrpc\":\"2.0\",\"id\":";

const EVENT: &str = "{\"jsonrpc\":\"2.0\",\"method\":\"event\",\"params\":{\"conference\":";

const BEHIND: &str = "\"behind\":";

const SERVER: &str = "{\"jsonrpc\":\"2.0\",\"method\":\"server\",\"params\":{\"conference\":";

/// A line of it that reached the service's system: its id is `None` where it has `null`.
#[derive(Clone, Copy, Debug)]
pub struct Asked {
    pub ask: Ask,
    pub id: Option<u32>,
    pub is_answered: bool,
    /// How many events each conference had had when it was sent.
    pub counts: [u64; CONFERENCES as usize],
}

/// What a client has asked and was told.
#[derive(Drop)]
pub struct Client {
    alloc: Global,
    number: usize,
    is_observer: bool,
    asked: VecDeque<Asked>,
    came: Vec<u8>,
    /// The answers, for a comparison with another run.
    pub answers: Vec<u8>,
    pub answered: u64,
    pub told: u64,
    /// The place of each conference that it is told next, where that is known; and the least that it may be where it watches
    /// all and isn't known.
    next: [Option<u64>; CONFERENCES as usize],
    least: [u64; CONFERENCES as usize],
    has_all: bool,
}

impl Client {
    pub fn new(alloc: Global, number: usize, is_observer: bool) -> Client {
        Client {
            alloc,
            number,
            is_observer,
            asked: VecDeque::new(alloc),
            came: Vec::new(alloc),
            answers: Vec::new(alloc),
            answered: 0,
            told: 0,
            next: [None; CONFERENCES as usize],
            least: [0; CONFERENCES as usize],
            has_all: false,
        }
    }

    /// A line of it has reached the service's system.
    pub fn ask(&mut self, asked: Asked) -> Result<(), AllocError> {
        if asked.is_answered {
            self.asked.push_back(asked)?;
        }
        Ok(())
    }

    /// Whether each line with an id was answered.
    pub fn is_answered(&self) -> bool {
        self.asked.is_empty() && self.came.is_empty()
    }

    /// Bytes came to it.
    pub fn come(&mut self, bytes: &[u8], journals: &Journals) -> Result<(), Fault> {
        self.came.extend_from_slice(bytes)?;
        let came = std::mem::replace(&mut self.came, Vec::new(self.alloc));
        let mut from = 0usize;
        for (at, byte) in came.iter().enumerate() {
            if *byte == b'\n' {
                let line = came.get(from..=at).unwrap_or(&[]);
                self.read(line, journals)?;
                from = at.saturating_add(1);
            }
        }
        self.came
            .extend_from_slice(came.get(from..).unwrap_or(&[]))?;
        Ok(())
    }

    fn read(&mut self, line: &[u8], journals: &Journals) -> Result<(), Fault> {
        let Ok(text) = std::str::from_utf8(line) else {
            return Err(Fault::of("a line isn't a text", self.number));
        };
        let is_told_of = self.is_observer && text.contains(SECRET);
        demand(!is_told_of, "an observer is told a word", self.number)?;
        if let Some(rest) = text.strip_prefix(EVENT) {
            let conference = number_of(rest).unwrap_or(0);
            let place = number_behind(rest, "\"place\":").unwrap_or(0);
            return self.hear(line, conference as u32, place, journals);
        }
        if let Some(rest) = text.strip_prefix(SERVER) {
            return self.hear_server(rest);
        }
        match text.strip_prefix(ANSWER) {
            Some(rest) => self.be_answered(rest),
            None => Err(Fault::of("a line is neither answer nor told", self.number)),
        }
    }

    /// Keeps an answer, but for how much waits for each member: how soon that is written is another thing.
    fn keep(&mut self, rest: &str) -> Result<(), AllocError> {
        for part in rest.split(BEHIND) {
            let part = part.trim_start_matches(|letter: char| letter.is_ascii_digit());
            self.answers.extend_from_slice(part.as_bytes())?;
        }
        Ok(())
    }

    /// The next answer.
    fn be_answered(&mut self, rest: &str) -> Result<(), Fault> {
        let Some(asked) = self.asked.pop_front() else {
            return Err(Fault::of("an answer answers nothing", self.number));
        };
        let id = match number_of(rest) {
            Some(id) => Some(id as u32),
            None => None,
        };
        demand(id == asked.id, "an answer is another's", self.number)?;
        self.keep(rest)?;
        self.answered = self.answered.saturating_add(1);
        if rest.contains("\"result\":") {
            self.watch(asked, rest);
        }
        Ok(())
    }

    /// What it watches from then on.
    fn watch(&mut self, asked: Asked, rest: &str) {
        match asked.ask {
            Ask::Watch { conference, .. } => {
                if let Some(index) = index_of(conference) {
                    self.next[index] = number_behind(rest, ",\"next\":");
                }
            }
            Ask::Unwatch(conference) => {
                if let Some(index) = index_of(conference) {
                    self.next[index] = None;
                }
            }
            Ask::WatchAll => {
                if !self.has_all {
                    self.has_all = true;
                    self.least = asked.counts;
                }
            }
            Ask::UnwatchAll => {
                if self.has_all {
                    self.has_all = false;
                    self.next = [None; CONFERENCES as usize];
                }
            }
            _ => {}
        }
    }

    /// An event is told.
    fn hear(
        &mut self,
        line: &[u8],
        conference: u32,
        place: u64,
        journals: &Journals,
    ) -> Result<(), Fault> {
        let Some(index) = index_of(conference) else {
            return Err(Fault::of("an event is of no conference", self.number));
        };
        demand(
            journals.shows(conference, place, line),
            "an event is told otherwise",
            self.number,
        )?;
        match self.next[index] {
            Some(next) => {
                demand(next <= place, "a place is told again", self.number)?;
                demand(
                    journals.is_silent(conference, next, place),
                    "a place is left out",
                    self.number,
                )?;
            }
            None => {
                let is_watched = self.has_all && self.least[index] < place;
                demand(is_watched, "what isn't watched is told", self.number)?;
            }
        }
        self.next[index] = Some(place.saturating_add(1));
        self.told = self.told.saturating_add(1);
        Ok(())
    }

    /// What happened beside the events is told. A conference that is opened is watched from its first place on by who watches
    /// all.
    fn hear_server(&mut self, rest: &str) -> Result<(), Fault> {
        let conference = number_of(rest).unwrap_or(0) as u32;
        let Some(index) = index_of(conference) else {
            return Err(Fault::of("it happened in no conference", self.number));
        };
        let is_for_all = rest.contains("\"opened\"") || rest.contains("\"forgotten\"");
        let is_watched = self.has_all || (!is_for_all && self.next[index].is_some());
        demand(is_watched, "what isn't watched is told", self.number)?;
        if rest.contains("\"opened\"") {
            self.next[index] = Some(1);
        }
        self.told = self.told.saturating_add(1);
        Ok(())
    }

    /// All is done, and it has taken what there was: nothing that it watches is left to be told.
    pub fn rest(&mut self, journals: &Journals) -> Result<(), Fault> {
        for conference in 1..=CONFERENCES {
            if let Some(index) = index_of(conference) {
                let behind = journals.count(conference).saturating_add(1);
                match self.next[index] {
                    Some(next) => demand(
                        journals.is_silent(conference, next, behind),
                        "what happened isn't told",
                        self.number,
                    )?,
                    None if self.has_all && journals.lines(conference).is_some() => {
                        self.next[index] = Some(behind);
                    }
                    None => {}
                }
            }
        }
        Ok(())
    }
}

/// Where a conference stands in what is kept of each.
pub fn index_of(conference: u32) -> Option<usize>
    ensures within { IfSome result (λ index. index < 4) }
{
    if conference == 0 || CONFERENCES < conference {
        return None;
    }
    Some(conference.saturating_sub(1) as usize)
}

/// The number that a text begins with.
fn number_of(text: &str) -> Option<u64> {
    let front = text.split_once(|letter: char| !letter.is_ascii_digit());
    match front {
        Some((digits, _rest)) => digits.parse().ok(),
        None => None,
    }
}

/// The number that stands behind these words first.
fn number_behind(text: &str, words: &str) -> Option<u64> {
    let (_front, rest) = text.split_once(words)?;
    number_of(rest)
}
