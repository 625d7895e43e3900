//! The file of a conference that opens.

use crate::ending::is_free;
use crate::fault::KeepReason;
use crate::file::check_plain;
use crate::folder::Folder;
use crate::kept::Kept;
use crate::naming::{journal_name, new_name};
use floor_kept::NewHead;
use std::alloc::Global;
use std::fs::File;
use std::io::Write;
use std::rt::Files;
use std::{fs, io};

/// Makes the file of a conference that opens: its head is written under another name, brought to the disk, and
/// renamed, so no head is torn. Refused by `CannotKeep` where the folder has such a file already, or the system
/// refuses one, and by `Memory`; then no file of it is left that a restart would open.
pub fn begin_file<R: Files<File = File>>(
    rt: &R,
    alloc: Global,
    folder: &Folder,
    head: &NewHead,
) -> Result<Kept<File>, KeepReason> {
    let conference = head.config.conference();
    let name = new_name(alloc, conference)?;
    let new_path = folder.path_of(name.as_str())?;
    let name = journal_name(alloc, conference)?;
    let path = folder.path_of(name.as_str())?;
    if !is_free(rt, path.as_str()) {
        return Err(KeepReason::of(alloc, path.as_str(), "is there already"));
    }
    let file = match write_head(rt, new_path.as_str(), head.text.as_str()) {
        Ok(file) => file,
        Err(error) => return Err(KeepReason::at(alloc, new_path.as_str(), &error)),
    };
    match fs::rename(rt, new_path.as_str(), path.as_str()) {
        Ok(()) => {}
        Err(error) => return Err(KeepReason::at(alloc, path.as_str(), &error)),
    }
    match folder.sync(rt) {
        Ok(()) => {}
        Err(reason) => {
            let _removed = fs::remove_file(rt, path.as_str());
            return Err(reason);
        }
    }
    Ok(Kept::new(alloc, conference, file, 0))
}

/// Writes a head to a file, and brings it to the disk.
fn write_head<R: Files<File = File>>(rt: &R, path: &str, text: &str) -> io::Result<File> {
    check_plain(rt, path)?;
    let mut file = File::create(rt, path)?;
    file.write_all(text.as_bytes())?;
    file.sync_all()?;
    Ok(file)
}
