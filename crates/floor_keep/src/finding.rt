//! The files of conferences that go on, read and opened.

ghost use Rattle.std.specs.Prelude.{◌≡◌, false, IfOk};

use crate::disk::Disk;
use crate::fault::KeepReason;
use crate::file::check_plain;
use crate::folder::Folder;
use crate::found::{Finish, Found, FoundFault, NotAJournal, Standing, found_of};
use crate::kept::Kept;
use crate::naming::journal_name;
use std::alloc::Global;
use std::fs::{File, OpenOptions};
use std::io;
use std::io::Read;
use std::rt::Files;

/// Why a conference of the folder doesn't go on.
#[derive(Debug, Drop)]
pub enum FindFault {
    /// Its file is no journal. It stays as it is.
    NotAJournal(NotAJournal),
    /// Its file can't be had.
    Refused(KeepReason),
}

impl From<FoundFault> for FindFault {
    fn from(fault: FoundFault) -> FindFault {
        match fault {
            FoundFault::NotAJournal(at) => FindFault::NotAJournal(at),
            FoundFault::Memory => FindFault::Refused(KeepReason::memory()),
        }
    }
}

/// Reads the file of a conference, which stays as it is.
pub fn find_kept<R: Files>(
    rt: &R,
    alloc: Global,
    folder: &Folder,
    conference: u32,
) -> Result<Found, FindFault> {
    let bytes = match bytes_of(rt, alloc, folder, conference) {
        Ok(bytes) => bytes,
        Err(reason) => return Err(FindFault::Refused(reason)),
    };
    Ok(found_of(alloc, conference, &bytes)?)
}

/// The bytes of a conference's file.
pub(crate) fn bytes_of<R: Files>(
    rt: &R,
    alloc: Global,
    folder: &Folder,
    conference: u32,
) -> Result<Vec<u8>, KeepReason> {
    let name = journal_name(alloc, conference)?;
    let path = folder.path_of(name.as_str())?;
    match read_all(rt, alloc, path.as_str()) {
        Ok(bytes) => Ok(bytes),
        Err(error) => Err(KeepReason::at(alloc, path.as_str(), &error)),
    }
}

fn read_all<R: Files>(rt: &R, alloc: Global, path: &str) -> io::Result<Vec<u8>> {
    check_plain(rt, path)?;
    let mut file = File::open(rt, path)?;
    let mut bytes = Vec::new(alloc);
    file.read_to_end(&mut bytes)?;
    Ok(bytes)
}

/// Opens the file of a conference, which stays as it is, to be written.
pub fn open_file<R: Files<File = File>>(
    rt: &R,
    alloc: Global,
    folder: &Folder,
    conference: u32,
) -> Result<File, KeepReason> {
    let name = journal_name(alloc, conference)?;
    let path = folder.path_of(name.as_str())?;
    match open_at(rt, path.as_str()) {
        Ok(file) => Ok(file),
        Err(error) => Err(KeepReason::at(alloc, path.as_str(), &error)),
    }
}

fn open_at<R: Files<File = File>>(rt: &R, path: &str) -> io::Result<File> {
    check_plain(rt, path)?;
    OpenOptions::new().write(true).open(rt, path)
}

/// Goes on with the open file of a conference, behind what stands in it: a last line without its end is cut off.
pub fn take_up(
    alloc: Global,
    folder: &Folder,
    file: File,
    standing: &Standing,
) -> Result<Kept<File>, KeepReason> {
    match kept_behind(alloc, file, standing) {
        Ok(kept) => Ok(kept),
        Err(error) => {
            let name = journal_name(alloc, standing.conference)?;
            let path = folder.path_of(name.as_str())?;
            Err(KeepReason::at(alloc, path.as_str(), &error))
        }
    }
}

/// The file of a conference that goes on, once what doesn't stand is cut off.
fn kept_behind<F: Disk + Drop>(
    alloc: Global,
    mut file: F,
    standing: &Standing,
) -> io::Result<Kept<F>>
    ensures cut { IfOk result (λ kept. F.is_cut standing.now.stands kept.file) }
    ensures done { IfOk result (λ kept. kept.writer ≡ record { done = standing.now.events; is_broken = false }) }
    ensures conference { IfOk result (λ kept. kept.conference ≡ standing.now.conference) }
{
    file.cut(standing.stands as u64)?;
    Ok(Kept::new(alloc, standing.conference, file, standing.events))
}
