//! The files of a loop's conferences.

use crate::disk::Disk;
use crate::ending::{Unkept, close, unkeep};
use crate::fault::KeepFault;
use crate::folder::Folder;
use crate::keeping::Syncing;
use crate::kept::{Kept, KeptFault, NoteFault};
use floor_config::Text;
use floor_machine::Event;
use floor_wire::Octets;
use indexmap::IndexMap;
use std::alloc::{AllocError, Global};
use std::fs::File;
use std::rt::Files;
use std::time::Clock;

/// How long what was written may wait for the disk, in milliseconds.
const SYNC_MILLIS: u64 = 1_000;

/// The files of a loop's conferences.
///
/// A turn that has events goes so: `check_epoch`, then `append` for each conference that has some, and then only
/// anything of it is sent, answered or shown. `close` ends the file of a conference that was closed, in place of
/// `append`. `sync` asks the disk once a second, where that is asked for; `next_sync` says when that is next.
/// A conference whose file fails isn't kept any more: it is told by [`Unkept`], once.
#[derive(Drop)]
pub struct Keeper<F> {
    folder: Folder,
    files: IndexMap<u32, Kept<F>>,
    /// When the disk was asked last, in the caller's milliseconds.
    synced: u64,
    /// Whether anything may have been written since.
    is_unsynced: bool,
}

impl<F: Disk + Drop> Keeper<F> {
    /// No file. Takes no memory.
    pub fn new(folder: Folder) -> Keeper<F> {
        Keeper {
            files: IndexMap::new(folder.alloc()),
            folder,
            synced: 0,
            is_unsynced: false,
        }
    }

    /// The folder. Takes no memory.
    pub fn folder(&self) -> &Folder {
        &self.folder
    }

    /// Whether a conference is kept. Takes no memory.
    pub fn is_kept(&self, conference: u32) -> bool {
        self.files.contains_key(&conference)
    }

    /// Takes room for one file more.
    pub fn reserve(&mut self) -> Result<(), AllocError> {
        self.files.reserve(1)
    }

    /// Takes a file in. Where there is room it takes no memory. With want of memory the file is dropped, and the
    /// conference isn't kept.
    pub fn add(&mut self, kept: Kept<F>) -> Result<(), KeepFault> {
        let conference = kept.conference();
        match self.files.insert(conference, kept) {
            Ok(_) => Ok(()),
            Err(_) => Err(KeepFault::Memory),
        }
    }

    /// Has a user's port stand behind the events of the turn.
    pub fn note_port(&mut self, conference: u32, user: u16, port: u16) -> Result<(), NoteFault> {
        match self.files.get_mut(&conference) {
            Some(kept) => kept.note_port(user, port),
            None => Err(NoteFault::NotKept),
        }
    }

    /// Has a word stand behind the events of the turn; `None` takes away what is kept by the key.
    pub fn note_word(
        &mut self,
        conference: u32,
        key: Text,
        value: Option<Octets>,
    ) -> Result<(), NoteFault> {
        match self.files.get_mut(&conference) {
            Some(kept) => kept.note_word(key, value),
            None => Err(NoteFault::NotKept),
        }
    }

    /// Whether the folder is still this server's. Where it isn't, or that can't be told, nothing more may be sent.
    pub fn check_epoch<R: Files<File = File>>(&mut self, rt: &R) -> Result<(), KeepFault> {
        self.folder.check_epoch(rt)
    }

    /// Writes what is new of a conference's journal, and what is noted beside it. Nothing is done for a conference
    /// that isn't kept.
    pub fn append<R: Files + Clock>(
        &mut self,
        rt: &R,
        conference: u32,
        journal: &[Event],
    ) -> Result<(), Unkept> {
        let syncing = self.folder.syncing();
        let Some(kept) = self.files.get_mut(&conference) else {
            return Ok(());
        };
        let outcome = kept.append(syncing, journal);
        self.go_on(rt, conference, outcome)
    }

    /// Writes what is new of the journal of a conference that was closed, and its end, and gives the file its last
    /// name. Nothing is done for a conference that isn't kept.
    pub fn close<R: Files + Clock>(
        &mut self,
        rt: &R,
        conference: u32,
        journal: &[Event],
    ) -> Result<(), Unkept> {
        let Some(kept) = self.files.get_mut(&conference) else {
            return Ok(());
        };
        let outcome = close(rt, &self.folder, kept, journal);
        self.go_on(rt, conference, outcome)?;
        let _closed = self.files.swap_remove(&conference);
        Ok(())
    }

    /// Keeps the conference no more, where its file has failed.
    fn go_on<R: Files + Clock>(
        &mut self,
        rt: &R,
        conference: u32,
        outcome: Result<(), KeptFault>,
    ) -> Result<(), Unkept> {
        match outcome {
            Ok(()) => {
                self.is_unsynced = true;
                Ok(())
            }
            Err(cause) => match self.files.swap_remove(&conference) {
                Some(kept) => Err(unkeep(rt, &self.folder, kept, cause)),
                None => Ok(()),
            },
        }
    }

    /// When the disk is to be asked next, in the caller's milliseconds; `None` where nothing waits for that.
    pub fn next_sync(&self) -> Option<u64> {
        match self.folder.syncing() {
            Syncing::Second if self.is_unsynced => Some(self.synced.saturating_add(SYNC_MILLIS)),
            _ => None,
        }
    }

    /// Asks the disk for what was written, where it is time. Gives a conference whose file failed by that; it is
    /// called again until it gives none.
    pub fn sync<R: Files + Clock>(&mut self, rt: &R, now: u64) -> Option<Unkept> {
        match self.next_sync() {
            Some(time) if time <= now => {}
            _ => return None,
        }
        match self.sync_each() {
            None => {
                self.synced = now;
                self.is_unsynced = false;
                None
            }
            Some(conference) => match self.files.swap_remove(&conference) {
                Some(kept) => Some(unkeep(rt, &self.folder, kept, KeptFault::CannotSync)),
                None => None,
            },
        }
    }

    /// Asks the disk for each file, up to the first that fails.
    fn sync_each(&mut self) -> Option<u32> {
        for (conference, kept) in self.files.iter_mut() {
            if kept.sync().is_err() {
                return Some(*conference);
            }
        }
        None
    }
}
