//! A conference that the folder has goes on in a loop.

ghost use Rattle.floor_poll.specs.Resuming.{IsUnresumed};

use crate::mailbox::{Resumed, Unresumed};
use crate::places::Places;
use crate::refusals::{out_of_memory, refusal_of};
use crate::worker::Worker;
use floor_config::Config;
use floor_keep::{
    Event, FindFault, Finish, Found, KeepReason, Standing, close_found, find_kept, open_file,
    take_up,
};
use floor_loop::ResumeRefusal;
use floor_server::Entry;
use std::fs::File;
use std::rt::Files;
use std::sync::Wait;
use std::time::Clock;

impl<R: Files<File = File> + Clock + Wait + Copy + Drop> Worker<R> {
    /// Lets a conference go on that the folder has. Its members are away. The file of one that was closed gets its
    /// last name, and `None` is given.
    pub fn resume(&mut self, conference: u32) -> Result<Option<Resumed>, Unresumed> {
        let found = match self.find(conference) {
            Ok(found) => found,
            Err(FindFault::NotAJournal(at)) => return Err(Unresumed::NotAJournal(at)),
            Err(FindFault::Refused(reason)) => return Err(Unresumed::Unkept(reason)),
        };
        match found.standing.finish {
            Finish::GoesOn => match self.resume_found(found) {
                Ok(resumed) => Ok(Some(resumed)),
                Err(fault) => Err(fault),
            },
            Finish::Closed | Finish::Ended => match self.close_file(&found.standing) {
                Ok(()) => Ok(None),
                Err(reason) => Err(Unresumed::Unkept(reason)),
            },
        }
    }

    fn find(&self, conference: u32) -> Result<Found, FindFault> {
        match &self.keeper {
            Some(keeper) => find_kept(&self.rt, self.alloc, keeper.folder(), conference),
            None => Err(FindFault::Refused(KeepReason::memory())),
        }
    }

    fn close_file(&self, standing: &Standing) -> Result<(), KeepReason> {
        match &self.keeper {
            Some(keeper) => close_found(&self.rt, self.alloc, keeper.folder(), standing),
            None => Ok(()),
        }
    }

    /// Lets a conference go on whose file was read.
    fn resume_found(&mut self, found: Found) -> Result<Resumed, Unresumed> {
        let Found {
            config,
            events,
            standing,
        } = found;
        let conference = config.conference();
        let mut places = Places::new(self.alloc, config.connections());
        let count = u32::try_from(standing.events).unwrap_or(u32::MAX);
        places.note_kept(count);
        let copy = config.copy(self.alloc)?;
        self.reserve_conference()?;
        self.replay(config, &events, &standing)?;
        let _added = self.conferences.insert(conference, places);
        self.tell(&Entry::Resumed {
            conference,
            events: count,
            torn: standing.torn,
        });
        // Whoever was cut has left.
        self.note_changed(conference);
        Ok(Resumed {
            config: copy,
            notes: standing.notes,
        })
    }

    /// Opens a file, runs its journal, and goes on behind what stands in it. A file that can't be opened leaves all as it
    /// was, and so does a journal that isn't taken.
    fn replay(
        &mut self,
        config: Config,
        events: &[Event],
        standing: &Standing,
    ) -> Result<(), Unresumed> {
        let file = match self.open_file(standing.conference) {
            Ok(file) => file,
            Err(reason) => return Err(Unresumed::Unkept(reason)),
        };
        match self.hub.resume(self.alloc, config, events, self.now) {
            Ok(()) => {}
            Err(refusal) => return Err(unresumed(standing, refusal)),
        }
        match self.take_file(file, standing) {
            Ok(()) => {}
            Err(reason) => return Err(Unresumed::Unkept(reason)),
        }
        Ok(self.take_away(standing.conference)?)
    }

    /// Opens the file of a conference, which stays as it is.
    fn open_file(&self, conference: u32) -> Result<File, KeepReason> {
        match &self.keeper {
            Some(keeper) => open_file(&self.rt, self.alloc, keeper.folder(), conference),
            None => Err(KeepReason::memory()),
        }
    }

    fn take_file(&mut self, file: File, standing: &Standing) -> Result<(), KeepReason> {
        let Some(keeper) = &mut self.keeper else {
            return Ok(());
        };
        keeper.reserve()?;
        let kept = take_up(self.alloc, keeper.folder(), file, standing)?;
        match keeper.add(kept) {
            Ok(()) => Ok(()),
            Err(_) => Err(KeepReason::memory()),
        }
    }
}

/// Why a conference that the folder has doesn't go on, by what the loop refuses.
fn unresumed(standing: &Standing, refusal: ResumeRefusal) -> Unresumed
    ensures value { IsUnresumed standing.now refusal result }
{
    match refusal {
        ResumeRefusal::NotOpened(refusal) => Unresumed::Refused(refusal_of(refusal)),
        ResumeRefusal::NotAJournal(place) => Unresumed::NotAJournal(standing.refused_at(place)),
        ResumeRefusal::Memory(_) => Unresumed::Refused(out_of_memory()),
    }
}
