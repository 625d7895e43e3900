//! What is in a folder.

use crate::fault::KeepReason;
use crate::folder::Folder;
use crate::naming::{Named, kind_of_name};
use std::alloc::{AllocError, Global};
use std::io;
use std::io::Read;
use std::rt::Files;

/// How many bytes of names are read at a time.
const READ_LEN: usize = 65_536;

/// The conferences of a folder, each list ascending.
#[derive(Debug, Drop)]
pub struct Listing {
    journals: Vec<u32>,
    closed: Vec<u32>,
}

impl Listing {
    /// The conferences that have a file and go on. Takes no memory.
    pub fn journals(&self) -> &[u32] {
        self.journals.as_slice()
    }

    /// Whether a conference has a file and goes on. Takes no memory.
    pub fn has_journal(&self, conference: u32) -> bool {
        self.journals.contains(&conference)
    }

    /// Whether a conference was closed. Takes no memory.
    pub fn is_closed(&self, conference: u32) -> bool {
        self.closed.contains(&conference)
    }
}

/// What is in a folder.
pub fn list_folder<R: Files>(
    rt: &R,
    alloc: Global,
    folder: &Folder,
) -> Result<Listing, KeepReason> {
    let path = folder.path_of("")?;
    match names_in(rt, alloc, path.as_str()) {
        Ok(names) => Ok(listing_of(alloc, &names)?),
        Err(error) => Err(KeepReason::at(alloc, folder.path(), &error)),
    }
}

/// The names of a folder's files, a zero behind each.
fn names_in<R: Files>(rt: &R, alloc: Global, path: &str) -> io::Result<Vec<u8>> {
    let mut dir = rt.open_dir(path)?;
    let mut buffer = vec![in alloc; 0u8; READ_LEN]?;
    let mut names = Vec::new(alloc);
    for _ in 0..u64::MAX {
        let count = dir.read(&mut buffer)?;
        if count == 0 {
            break;
        }
        names.extend_from_slice(&buffer[..count])?;
    }
    Ok(names)
}

/// What these names are of, where a zero stands behind each.
pub(crate) fn listing_of(alloc: Global, names: &[u8]) -> Result<Listing, AllocError> {
    let mut journals = Vec::new(alloc);
    let mut closed = Vec::new(alloc);
    for name in names.split(|b| *b == 0) {
        let Ok(name) = std::str::from_utf8(name) else {
            continue;
        };
        match kind_of_name(alloc, name)? {
            Named::Journal(conference) => journals.push(conference)?,
            Named::Closed(conference) => closed.push(conference)?,
            Named::Unkept(_) | Named::Other => {}
        }
    }
    journals.sort()?;
    closed.sort()?;
    Ok(Listing { journals, closed })
}
