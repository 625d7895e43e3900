//! The folder of the kept conferences, and the lock by which a process holds it.

use crate::epoch::{EpochFile, Held, confirm, first_epoch};
use crate::fault::{KeepFault, KeepReason};
use crate::file::check_plain;
use crate::keeping::{Keeping, Syncing};
use std::alloc::{AllocError, Global};
use std::fs::{File, OpenOptions, TryLockError};
use std::io::Write;
use std::rt::Files;
use std::{fs, io};

/// What holds a folder for this process, as long as it lives.
#[derive(Drop)]
pub struct Lock {
    file: File,
}

/// Where a folder is, and how its conferences are kept. Each loop has one of its own.
#[derive(Drop)]
pub struct Folder {
    alloc: Global,
    path: String,
    epoch_path: String,
    /// The epoch at the start.
    epoch: u64,
    /// Its file, where there is one, as it was read last.
    held: Option<Held>,
    syncing: Syncing,
    or_stop: bool,
}

impl Folder {
    /// The same for another loop.
    pub fn copy(&self) -> Result<Folder, AllocError> {
        let held = match &self.held {
            Some(held) => Some(held.copy()?),
            None => None,
        };
        Ok(Folder {
            alloc: self.alloc,
            path: String::from_str(self.alloc, self.path.as_str())?,
            epoch_path: String::from_str(self.alloc, self.epoch_path.as_str())?,
            epoch: self.epoch,
            held,
            syncing: self.syncing,
            or_stop: self.or_stop,
        })
    }

    /// When the disk is asked for what was written. Takes no memory.
    pub fn syncing(&self) -> Syncing {
        self.syncing
    }

    /// Whether a conference is broken off that can't be kept any more. Takes no memory.
    pub fn or_stop(&self) -> bool {
        self.or_stop
    }

    /// Its path. Takes no memory.
    pub fn path(&self) -> &str {
        self.path.as_str()
    }

    pub(crate) fn alloc(&self) -> Global {
        self.alloc
    }

    /// The path of a file in it.
    pub(crate) fn path_of(&self, name: &str) -> Result<String, AllocError> {
        format!(in self.alloc; "{}/{name}", self.path.as_str())
    }

    /// Whether the folder is still this server's, by its epoch, which is read anew: by the handle that is open, so
    /// that it takes no descriptor as long as no other file has its name. Refused by `Lost` where the epoch is another
    /// one, and where it can't be read by `CannotKeep`, `Descriptors` or `Memory`: in both cases nothing may be sent.
    pub fn check_epoch<R: Files<File = File>>(&mut self, rt: &R) -> Result<(), KeepFault> {
        let mut source = EpochFile {
            rt,
            alloc: self.alloc,
            path: self.epoch_path.as_str(),
            held: self.held.take(),
        };
        let confirmed = confirm(&mut source, self.epoch);
        let EpochFile { held, .. } = source;
        self.held = held;
        confirmed
    }

    /// Asks the disk for the folder's own list of names.
    pub(crate) fn sync<R: Files<File = File>>(&self, rt: &R) -> Result<(), KeepReason> {
        let outcome = match File::open(rt, self.path.as_str()) {
            Ok(folder) => folder.sync_all(),
            Err(error) => Err(error),
        };
        match outcome {
            Ok(()) => Ok(()),
            Err(error) => Err(KeepReason::at(self.alloc, self.path.as_str(), &error)),
        }
    }
}

/// A folder by its name, for whoever only reads it: nothing holds it, and no epoch is read.
pub fn name_folder(alloc: Global, keeping: &Keeping) -> Result<Folder, AllocError> {
    let path = keeping.folder.as_str();
    Ok(Folder {
        alloc,
        path: String::from_str(alloc, path)?,
        epoch_path: format!(in alloc; "{path}/epoch")?,
        epoch: 0,
        held: None,
        syncing: keeping.syncing,
        or_stop: keeping.or_stop,
    })
}

/// Holds a folder for this process, and reads its epoch. Refused by `CannotKeep` where there is no such folder,
/// where it can't be written, where another process holds it, and where its epoch can't be read; by `Lost` where
/// it has another epoch than it has to have; by `Descriptors` where none is left; and by `Memory`.
pub fn lock_folder<R: Files<File = File>>(
    rt: &R,
    alloc: Global,
    keeping: &Keeping,
) -> Result<(Lock, Folder), KeepReason> {
    let mut folder = name_folder(alloc, keeping)?;
    let lock = lock_in(rt, &folder)?;
    try_writing(rt, &folder)?;
    let mut source = EpochFile {
        rt,
        alloc,
        path: folder.epoch_path.as_str(),
        held: None,
    };
    let first = first_epoch(&mut source, keeping.epoch);
    let EpochFile { held, .. } = source;
    folder.held = held;
    match first {
        Ok(epoch) => folder.epoch = epoch,
        Err(fault) => return Err(unread(alloc, folder.epoch_path.as_str(), fault)),
    }
    Ok((lock, folder))
}

/// Why the epoch at a path isn't had.
fn unread(alloc: Global, path: &str, fault: KeepFault) -> KeepReason {
    let wrong = match fault {
        KeepFault::Lost => "another number than --epoch says",
        KeepFault::Descriptors => "no descriptor is left to read it (ulimit -n)",
        KeepFault::CannotKeep | KeepFault::Memory => "no number that can be read",
    };
    KeepReason {
        fault,
        line: format!(in alloc; "{path}: {wrong}").ok(),
    }
}

/// Takes the lock of a folder.
fn lock_in<R: Files<File = File>>(rt: &R, folder: &Folder) -> Result<Lock, KeepReason> {
    let path = folder.path_of("lock")?;
    let path = path.as_str();
    let file = match open_lock(rt, path) {
        Ok(file) => file,
        Err(error) => return Err(KeepReason::at(folder.alloc, path, &error)),
    };
    match file.try_lock() {
        Ok(()) => Ok(Lock { file }),
        Err(TryLockError::WouldBlock) => {
            Err(KeepReason::of(folder.alloc, path, "another server holds it"))
        }
        Err(TryLockError::Error(error)) => Err(KeepReason::at(folder.alloc, path, &error)),
    }
}

/// Opens the file of the lock, or makes it.
fn open_lock<R: Files<File = File>>(rt: &R, path: &str) -> io::Result<File> {
    check_plain(rt, path)?;
    OpenOptions::new()
        .read(true)
        .write(true)
        .create(true)
        .open(rt, path)
}

/// Writes a file in a folder, and removes it.
fn try_writing<R: Files<File = File>>(rt: &R, folder: &Folder) -> Result<(), KeepReason> {
    let path = folder.path_of("trial.new")?;
    let path = path.as_str();
    match write_trial(rt, path) {
        Ok(()) => {}
        Err(error) => return Err(KeepReason::at(folder.alloc, path, &error)),
    }
    match fs::remove_file(rt, path) {
        Ok(()) => Ok(()),
        Err(error) => Err(KeepReason::at(folder.alloc, path, &error)),
    }
}

fn write_trial<R: Files<File = File>>(rt: &R, path: &str) -> io::Result<()> {
    check_plain(rt, path)?;
    let mut file = File::create(rt, path)?;
    file.write_all(b"floorhub\n")
}
