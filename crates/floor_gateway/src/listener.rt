//! Pages that are told what changes: a user's of its meeting, and the operator's of all conferences.
//!
//! A thread of each waits for its page to go, and sends a sign of life; what changes is told by the thread
//! that follows the control socket. One that takes nothing is cut, so that it holds nobody up.

use crate::entry::Place;
use crate::gateway::Gateway;
use floor_follow::{Conference, Phase};
use floor_web::{meeting_of, overview_of};
use std::alloc::{AllocError, AllocFailed, Global};
use std::io::{ErrorKind, Read, Write};
use std::net::{Shutdown, TcpStream};
use std::sync::{Arc, Mutex, Wait};
use std::time::{Clock, Duration};

/// How long a page is told nothing until it is sent a sign of life, in seconds. Proxies cut what is silent
/// for a minute.
const QUIET_SECONDS: u64 = 25;

/// How long a write waits for a page that takes nothing, in milliseconds: what the system's buffers hold is
/// some hundred times what a page is told at once.
const WRITE_MILLIS: u64 = 500;

/// What is told to a page whose meeting isn't there any more.
const ENDED: &str = "{\"ended\":true}";

/// Of which conferences something may be told otherwise.
#[derive(Drop)]
pub struct Changed {
    pub is_all: bool,
    numbers: Vec<u32>,
}

impl Changed {
    /// Of none.
    pub fn none(alloc: Global) -> Changed {
        Changed {
            is_all: false,
            numbers: Vec::new(alloc),
        }
    }

    /// Of all.
    pub fn all(alloc: Global) -> Changed {
        Changed {
            is_all: true,
            numbers: Vec::new(alloc),
        }
    }

    /// Of this one too.
    pub fn add(&mut self, conference: u32) -> Result<(), AllocError> {
        if self.has(conference) {
            return Ok(());
        }
        self.numbers.push(conference)?;
        Ok(())
    }

    /// Whether of this one.
    pub fn has(&self, conference: u32) -> bool {
        self.is_all || self.numbers.iter().any(|number| *number == conference)
    }

    /// Whether of none.
    pub fn is_empty(&self) -> bool {
        !self.is_all && self.numbers.is_empty()
    }
}

/// What a page was told last of a conference.
#[derive(Drop)]
struct Line {
    conference: u32,
    text: String,
}

/// What a page was told last, and whether it is told nothing more.
#[derive(Drop)]
struct Telling {
    is_over: bool,
    lines: Vec<Line>,
    /// Whether the operator's page was told that the control socket is followed.
    is_followed: Option<bool>,
}

/// A page that is told what changes.
#[derive(Drop)]
pub struct Listener {
    alloc: Global,
    stream: TcpStream,
    /// Whose page it is; none for the operator's.
    place: Option<Place>,
    telling: Mutex<Telling>,
}

impl Listener {
    /// The page at this connection.
    pub fn new(alloc: Global, stream: TcpStream, place: Option<Place>) -> Listener {
        let _outcome = stream.set_write_timeout(Some(Duration::from_millis(WRITE_MILLIS)));
        let _outcome = stream.set_read_timeout(Some(Duration::from_secs(QUIET_SECONDS)));
        Listener {
            alloc,
            stream,
            place,
            telling: Mutex::new(Telling {
                is_over: false,
                lines: Vec::new(alloc),
                is_followed: None,
            }),
        }
    }

    /// Sends it what comes first. Tells whether that left whole.
    pub fn open(&self, head: &[u8]) -> bool {
        let mut stream = &self.stream;
        stream.write_all(head).is_ok()
    }

    /// Waits until the page goes, and sends it signs of life.
    pub fn wait<R: Wait>(&self, rt: &R) {
        let mut stream = &self.stream;
        let mut piece = [0u8; 256];
        for _ in rt.forever() {
            match stream.read(&mut piece) {
                Ok(0) => return,
                Ok(_) => {}
                Err(error) => match error.kind() {
                    ErrorKind::Interrupted => {}
                    ErrorKind::WouldBlock | ErrorKind::TimedOut => {
                        let mut telling = self.telling.lock(rt);
                        if !self.send(&mut telling, "") {
                            return;
                        }
                    }
                    _ => return,
                },
            }
        }
    }

    /// Ends it.
    pub fn hang_up(&self) {
        let _outcome = self.stream.shutdown(Shutdown::Both);
    }

    /// Sends a line. Tells whether it left whole: behind a part of one nothing may follow.
    fn send(&self, telling: &mut Telling, text: &str) -> bool {
        if telling.is_over {
            return false;
        }
        let mut stream = &self.stream;
        if stream.write_all(text.as_bytes()).is_err() || stream.write_all(b"\n").is_err() {
            telling.is_over = true;
            self.hang_up();
            return false;
        }
        true
    }

    /// Tells what it wasn't told yet of what is known.
    pub fn tell<R: Wait>(&self, rt: &R, gateway: &Gateway, changed: &Changed) {
        let told = match self.place {
            Some(place) => self.tell_user(rt, gateway, place, changed),
            None => self.tell_operator(rt, gateway, changed),
        };
        if told.is_err() {
            // Without memory it isn't told the rest: it comes again for the whole.
            self.hang_up();
        }
    }

    fn tell_user<R: Wait>(
        &self,
        rt: &R,
        gateway: &Gateway,
        place: Place,
        changed: &Changed,
    ) -> Result<(), AllocError> {
        if !changed.has(place.conference) {
            return Ok(());
        }
        match self.text_for(rt, gateway, place)? {
            None => Ok(()),
            Some(text) => self.tell_line(rt, place.conference, text),
        }
    }

    /// What a user's page is to be told; nothing before the control socket was heard, and while it is lost.
    fn text_for<R: Wait>(
        &self,
        rt: &R,
        gateway: &Gateway,
        place: Place,
    ) -> Result<Option<String>, AllocError> {
        if gateway.is_lost() {
            return Ok(None);
        }
        let picture = gateway.picture.lock(rt);
        let Some(follower) = &*picture else {
            return Ok(None);
        };
        match follower.conference(place.conference) {
            Some(conference) if !conference.is_followed() => Ok(None),
            Some(conference) if conference.phase == Phase::Running => {
                meeting_of(self.alloc, conference, place.user, &gateway.titles)
            }
            _ => Ok(Some(String::from_str(self.alloc, ENDED)?)),
        }
    }

    fn tell_operator<R: Wait>(
        &self,
        rt: &R,
        gateway: &Gateway,
        changed: &Changed,
    ) -> Result<(), AllocError> {
        let mut lines = Vec::new(self.alloc);
        let is_followed = self.lines_for(rt, gateway, changed, &mut lines)?;
        for line in lines {
            let Line { conference, text } = line;
            self.tell_line(rt, conference, text)?;
        }
        self.tell_followed(rt, is_followed);
        Ok(())
    }

    /// Adds what the operator's page is to be told, and tells whether the control socket is followed.
    fn lines_for<R: Wait>(
        &self,
        rt: &R,
        gateway: &Gateway,
        changed: &Changed,
        lines: &mut Vec<Line>,
    ) -> Result<bool, AllocError> {
        let picture = gateway.picture.lock(rt);
        let Some(follower) = &*picture else {
            return Ok(false);
        };
        for conference in follower.conferences() {
            if changed.has(conference.number) && conference.is_followed() {
                let text = overview_of(self.alloc, conference, &gateway.titles)?;
                push(lines, conference.number, text)?;
            }
        }
        if changed.is_all {
            self.add_gone(rt, follower.conferences(), lines)?;
        }
        Ok(!gateway.is_lost())
    }

    /// Adds that those are gone that it was told of and that aren't there any more.
    fn add_gone<R: Wait>(
        &self,
        rt: &R,
        conferences: &[Conference],
        lines: &mut Vec<Line>,
    ) -> Result<(), AllocError> {
        let telling = self.telling.lock(rt);
        for line in telling.lines.iter() {
            let number = line.conference;
            if !conferences
                .iter()
                .any(|conference| conference.number == number)
            {
                let text = format!(in self.alloc;
                    "{{\"conference\":{number},\"phase\":\"gone\"}}"
                )?;
                push(lines, number, text)?;
            }
        }
        Ok(())
    }

    /// Tells a line of a conference, unless it is what was told last.
    fn tell_line<R: Wait>(&self, rt: &R, conference: u32, text: String) -> Result<(), AllocError> {
        let mut telling = self.telling.lock(rt);
        if telling.lines.iter().any(|line| line.conference == conference
            && line.text.as_str() == text.as_str())
        {
            return Ok(());
        }
        if !self.send(&mut telling, text.as_str()) {
            return Ok(());
        }
        telling.lines.retain(|line| line.conference != conference);
        push(&mut telling.lines, conference, text)
    }

    fn tell_followed<R: Wait>(&self, rt: &R, is_followed: bool) {
        let mut telling = self.telling.lock(rt);
        if telling.is_followed == Some(is_followed) {
            return;
        }
        let text = if is_followed {
            "{\"followed\":true}"
        } else {
            "{\"followed\":false}"
        };
        if self.send(&mut telling, text) {
            telling.is_followed = Some(is_followed);
        }
    }
}

fn push(lines: &mut Vec<Line>, conference: u32, text: String) -> Result<(), AllocError> {
    match lines.push(Line { conference, text }) {
        Ok(()) => Ok(()),
        Err(AllocFailed { value: _ }) => Err(AllocError),
    }
}

/// Tells each page what it wasn't told yet of what may have changed.
pub fn tell_all<R: Wait>(rt: &R, gateway: &Gateway, changed: &Changed) {
    for listener in gateway.listeners(rt) {
        listener.tell(rt, gateway, changed);
    }
}
