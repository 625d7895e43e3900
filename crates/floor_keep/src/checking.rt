//! A conference's file that is read and not served.

use crate::fault::KeepReason;
use crate::finding::bytes_of;
use crate::folder::Folder;
use crate::found::{Finish, FoundFault, NotAJournal, fault_at, finish_behind};
use floor_config::Config;
use floor_kept::{Entry, FileFault, OpenFault, open_kept, read_file};
use std::alloc::{AllocError, Global};
use std::rt::Files;

/// How many bytes of a line a person is told at most.
const TOLD_LEN: usize = 120;

/// What is wrong with a conference's file.
#[derive(Debug, Drop)]
pub enum CheckFault {
    /// It is no journal. With it the text of the line that isn't one, as far as it is UTF-8.
    NotAJournal(NotAJournal, String),
    /// It can't be had.
    Refused(KeepReason),
}

/// The port of a user of a conference that goes on.
#[derive(Clone, Copy, Debug, PartialEq, Eq)]
pub struct KeptPort {
    pub user: u16,
    pub port: u16,
}

/// Reads the file of a conference, and runs its events. Nothing is changed. Gives the ports at which it is listened once
/// the conference goes on: of the users whom it was opened with and of those who were added; none where it was closed.
pub fn check_kept<R: Files>(
    rt: &R,
    alloc: Global,
    folder: &Folder,
    conference: u32,
) -> Result<Vec<KeptPort>, CheckFault> {
    let bytes = match bytes_of(rt, alloc, folder, conference) {
        Ok(bytes) => bytes,
        Err(reason) => return Err(CheckFault::Refused(reason)),
    };
    match check_bytes(alloc, conference, &bytes) {
        Ok(ports) => Ok(ports),
        Err(FoundFault::Memory) => Err(CheckFault::Refused(KeepReason::memory())),
        Err(FoundFault::NotAJournal(at)) => match line_at(alloc, &bytes, at.line) {
            Ok(line) => Err(CheckFault::NotAJournal(at, line)),
            Err(_) => Err(CheckFault::Refused(KeepReason::memory())),
        },
    }
}

/// Whether bytes are a file of this conference, whose events the machine takes.
pub(crate) fn check_bytes(
    alloc: Global,
    conference: u32,
    bytes: &[u8],
) -> Result<Vec<KeptPort>, FoundFault> {
    let file = match read_file(alloc, bytes) {
        Ok(file) => file,
        Err(FileFault::Memory) => return Err(FoundFault::Memory),
        Err(fault) => return Err(FoundFault::NotAJournal(fault_at(conference, fault))),
    };
    if file.config.conference() != conference {
        return Err(FoundFault::NotAJournal(NotAJournal {
            conference,
            place: 0,
            line: 0,
        }));
    }
    let ports = ports_of(alloc, &file.config, &file.entries)?;
    let head_lines = file.head_lines;
    match open_kept(alloc, file.config, file.entries) {
        Ok(_) => Ok(ports),
        Err(OpenFault::Memory) => Err(FoundFault::Memory),
        Err(OpenFault::NotAJournal(unlawful)) => Err(FoundFault::NotAJournal(NotAJournal {
            conference,
            place: unlawful.place as u32,
            line: head_lines.saturating_add(unlawful.number),
        })),
    }
}

/// The ports of a conference that goes on.
fn ports_of(
    alloc: Global,
    config: &Config,
    entries: &[Entry],
) -> Result<Vec<KeptPort>, AllocError> {
    let mut ports = Vec::new(alloc);
    for user in config.users() {
        if let Some(port) = user.port {
            ports.push(KeptPort {
                user: user.id,
                port,
            })?;
        }
    }
    let mut finish = Finish::GoesOn;
    for entry in entries {
        finish = finish_behind(finish, entry);
        if let Entry::Port { user, port } = entry {
            ports.push(KeptPort {
                user: *user,
                port: *port,
            })?;
        }
    }
    if finish != Finish::GoesOn {
        ports.clear();
    }
    Ok(ports)
}

/// The text of the line of this number, from 1 on, or the beginning of it.
fn line_at(alloc: Global, bytes: &[u8], number: usize) -> Result<String, AllocError> {
    let mut at = 0usize;
    for line in bytes.split(|b| *b == b'\n') {
        at = at.saturating_add(1);
        if at == number {
            let told = &line[..line.len().min(TOLD_LEN)];
            return String::from_str(alloc, std::str::from_utf8(told).unwrap_or("not UTF-8"));
        }
    }
    Ok(String::new(alloc))
}
