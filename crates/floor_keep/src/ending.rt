//! Files that nothing more is written to, under their last names.

use crate::disk::Disk;
use crate::fault::KeepReason;
use crate::finding::{open_file, take_up};
use crate::folder::Folder;
use crate::found::{Finish, Standing};
use crate::keeping::Syncing;
use crate::kept::{Kept, KeptFault};
use crate::naming::{ended_name, journal_name};
use floor_machine::Event;
use std::alloc::Global;
use std::fs::File;
use std::io::ErrorKind;
use std::rt::Files;
use std::time::{Clock, SystemTime, UNIX_EPOCH};
use std::{fs, io};

/// How many files of one conference can end in one second.
const MAX_NAMES: u32 = 1_000;

/// What became of the file of a conference that isn't kept any more.
#[derive(Clone, Copy, Debug, PartialEq, Eq)]
pub enum Left {
    /// It has the name of a conference that went on unkept: `<conference>.<seconds>.unkept`.
    Renamed,
    /// It couldn't be renamed, and its first byte was written over: a restart opens nothing of it, and calls it no
    /// journal.
    Spoiled,
    /// Nor could that be, and it was emptied: the same.
    Emptied,
    /// It has its name still, since the conference is broken off: a restart lets it go on from there.
    Resumes,
    /// It has its name still, though the conference goes on unkept, since nothing could be done to it: whoever restarts
    /// the server has to remove it before.
    Stands,
    /// There is none, since it couldn't be made.
    Missing,
}

/// A conference that isn't kept any more.
#[derive(Clone, Copy, Debug, PartialEq, Eq)]
pub struct Unkept {
    pub conference: u32,
    pub cause: KeptFault,
    pub left: Left,
}

/// Gives the file of a conference that goes on unkept its last name, so that no restart opens a past.
pub(crate) fn unkeep<R: Files + Clock, F: Disk + Drop>(
    rt: &R,
    folder: &Folder,
    mut kept: Kept<F>,
    cause: KeptFault,
) -> Unkept {
    let conference = kept.conference();
    let left = if folder.or_stop() {
        Left::Resumes
    } else {
        match rename(rt, folder, conference, "unkept") {
            Ok(()) => Left::Renamed,
            Err(_) => left_of(kept.file()),
        }
    };
    Unkept {
        conference,
        cause,
        left,
    }
}

/// Makes that nobody takes a file for a journal that goes on.
fn left_of<F: Disk>(file: &mut F) -> Left {
    if file.spoil().is_ok() {
        return Left::Spoiled;
    }
    if file.cut(0).is_ok() {
        return Left::Emptied;
    }
    Left::Stands
}

/// Ends the file of a conference that was closed: what is new of its journal, the end, and the last name.
pub(crate) fn close<R: Files + Clock, F: Disk + Drop>(
    rt: &R,
    folder: &Folder,
    kept: &mut Kept<F>,
    journal: &[Event],
) -> Result<(), KeptFault> {
    // With the end the disk is asked for all of it.
    kept.append(Syncing::Never, journal)?;
    kept.add_end(folder.syncing())?;
    match rename(rt, folder, kept.conference(), "closed") {
        Ok(()) => Ok(()),
        Err(_) => Err(KeptFault::CannotWrite),
    }
}

/// Gives the file of a conference that was closed before the start its end, where that is missing, and its last
/// name.
pub fn close_found<R: Files<File = File> + Clock>(
    rt: &R,
    alloc: Global,
    folder: &Folder,
    standing: &Standing,
) -> Result<(), KeepReason> {
    let file = open_file(rt, alloc, folder, standing.conference)?;
    let mut kept = take_up(alloc, folder, file, standing)?;
    match standing.finish {
        Finish::Ended => {}
        Finish::Closed | Finish::GoesOn => match kept.add_end(folder.syncing()) {
            Ok(()) => {}
            Err(fault) => return Err(KeepReason::of(alloc, folder.path(), fault.name())),
        },
    }
    match rename(rt, folder, standing.conference, "closed") {
        Ok(()) => Ok(()),
        Err(error) => Err(KeepReason::at(alloc, folder.path(), &error)),
    }
}

/// Gives the file of a conference the first of its last names that is free.
fn rename<R: Files + Clock>(
    rt: &R,
    folder: &Folder,
    conference: u32,
    kind: &str,
) -> io::Result<()> {
    let alloc = folder.alloc();
    let name = journal_name(alloc, conference)?;
    let from = folder.path_of(name.as_str())?;
    let seconds = seconds_now(rt);
    for count in 1..=MAX_NAMES {
        let name = ended_name(alloc, conference, seconds, kind, count)?;
        let to = folder.path_of(name.as_str())?;
        if is_free(rt, to.as_str()) {
            return fs::rename(rt, from.as_str(), to.as_str());
        }
    }
    Err(io::Error::from(ErrorKind::AlreadyExists))
}

/// Whether no file has a name.
pub(crate) fn is_free<R: Files>(rt: &R, path: &str) -> bool {
    match fs::symlink_metadata(rt, path) {
        Ok(_) => false,
        Err(error) => error.kind() == ErrorKind::NotFound,
    }
}

/// The time, in seconds since 1970; 0 where there is no clock.
fn seconds_now<R: Clock>(rt: &R) -> u64 {
    match SystemTime::now(rt) {
        Ok(now) => match now.duration_since(UNIX_EPOCH) {
            Ok(since) => since.as_secs(),
            Err(_) => 0,
        },
        Err(_) => 0,
    }
}
