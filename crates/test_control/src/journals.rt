//! What the events of each conference show, by its journal and how it was opened, found beside the service.

use crate::fault::{Fault, demand};
use floor_rpc::{Notification, write_line};
use floor_service::Loop;
use floor_shown::Follower;
use std::alloc::{AllocError, Global};

/// The numbers of conferences are 1 to this.
pub const CONFERENCES: u32 = 4;

/// A conference: who follows its events, and the line that each shows, where it shows anything.
#[derive(Drop)]
struct Followed {
    conference: u32,
    follower: Follower,
    lines: Vec<Option<Vec<u8>>>,
}

/// The conferences that there ever were.
#[derive(Drop)]
pub struct Journals {
    alloc: Global,
    followed: Vec<Followed>,
}

impl Journals {
    pub fn new(alloc: Global) -> Journals {
        Journals {
            alloc,
            followed: Vec::new(alloc),
        }
    }

    /// The journals are looked at: what they have grown by shows something at this time.
    pub fn look(&mut self, hub: &Loop, unix_millis: u64) -> Result<(), Fault> {
        for conference in 1..=CONFERENCES {
            if let Ok(events) = hub.journal(conference) {
                self.begin(hub, conference, events.len())?;
                self.follow(hub, conference, unix_millis)?;
            }
        }
        Ok(())
    }

    /// A conference is followed from its opening on.
    fn begin(&mut self, hub: &Loop, conference: u32, count: usize) -> Result<(), Fault> {
        if self.lines(conference).is_some() {
            return Ok(());
        }
        demand(
            count == 0,
            "a conference begins with events",
            conference as usize,
        )?;
        if let Ok(config) = hub.config(conference) {
            self.followed.push(Followed {
                conference,
                follower: Follower::new(self.alloc, config)?,
                lines: Vec::new(self.alloc),
            })?;
        }
        Ok(())
    }

    fn follow(&mut self, hub: &Loop, conference: u32, unix_millis: u64) -> Result<(), Fault> {
        let alloc = self.alloc;
        let Ok(events) = hub.journal(conference) else {
            return Ok(());
        };
        for one in self.followed.iter_mut() {
            if one.conference == conference {
                let before = one.lines.len();
                for event in events.get(before..).unwrap_or(&[]) {
                    let shown = one.follower.take(event, Some(unix_millis))?;
                    one.lines.push(line_of(alloc, shown)?)?;
                }
            }
        }
        Ok(())
    }

    /// The lines that the events of a conference show.
    pub fn lines(&self, conference: u32) -> Option<&[Option<Vec<u8>>]> {
        match self
            .followed
            .iter()
            .find(|one| one.conference == conference)
        {
            Some(one) => Some(one.lines.as_slice()),
            None => None,
        }
    }

    /// How many events a conference has had.
    pub fn count(&self, conference: u32) -> u64 {
        match self.lines(conference) {
            Some(lines) => lines.len() as u64,
            None => 0,
        }
    }

    /// Whether no event of a conference from one place on, and before another, shows anything.
    pub fn is_silent(&self, conference: u32, from: u64, to: u64) -> bool {
        let lines = self.lines(conference).unwrap_or(&[]);
        lines.iter().enumerate().all(|(index, line)| {
            let place = (index as u64).saturating_add(1);
            line.is_none() || place < from || to <= place
        })
    }

    /// Whether the event of a conference at a place shows this.
    pub fn shows(&self, conference: u32, place: u64, line: &[u8]) -> bool {
        let index = place.saturating_sub(1) as usize;
        match self.lines(conference).unwrap_or(&[]).get(index) {
            Some(Some(wanted)) => wanted.as_slice() == line,
            _ => false,
        }
    }

    /// All that was shown, one conference behind another.
    pub fn text(&self) -> Result<Vec<u8>, AllocError> {
        let mut text = Vec::new(self.alloc);
        for one in self.followed.iter() {
            for line in one.lines.iter() {
                match line {
                    Some(line) => text.extend_from_slice(line.as_slice())?,
                    None => text.push(b'\n')?,
                }
            }
        }
        Ok(text)
    }
}

/// The line of what an event shows.
fn line_of(
    alloc: Global,
    shown: Option<floor_rpc::EventTold>,
) -> Result<Option<Vec<u8>>, AllocError> {
    match shown {
        Some(event) => {
            let mut line = Vec::new(alloc);
            let _count = write_line(alloc, &mut line, &Notification::Event(event))?;
            Ok(Some(line))
        }
        None => Ok(None),
    }
}
