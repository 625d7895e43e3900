//! A folder on a disk.

use crate::beginning::begin_file;
use crate::checking::{CheckFault, check_kept};
use crate::ending::{Left, close_found};
use crate::fault::KeepFault;
use crate::finding::{FindFault, find_kept, open_file, take_up};
use crate::folder::{Folder, Lock, lock_folder};
use crate::found::Finish;
use crate::keeper::Keeper;
use crate::keeping::{Keeping, Syncing};
use crate::listing::list_folder;
use floor_kept::heads_of;
use floor_room::{Act, Effects, Room};
use std::alloc::{AllocError, Global};
use std::fs;
use std::fs::{File, OpenOptions};
use std::io::Write;
use std::rt::Files;
use std::test::Fail;

/// Two conferences.
const CONFIGURATION: &str = "[[conference]]
id = 7
user = [{id = 10}, {id = 11, port = 7011}]
floor = [{id = 1}]
[[conference]]
id = 8
";

fn keeping(alloc: Global, folder: &str, or_stop: bool) -> Result<Keeping, AllocError> {
    Ok(Keeping {
        folder: String::from_str(alloc, folder)?,
        or_stop,
        syncing: Syncing::Turn,
        epoch: None,
    })
}

/// A folder that is new, and held.
fn new_folder<R: Files<File = File>>(
    rt: &R,
    alloc: Global,
    path: &str,
) -> Result<(Lock, Folder), Fail> {
    let _removed = rt.remove_dir_all(alloc, path);
    fs::create_dir(rt, path)?;
    match lock_folder(rt, alloc, &keeping(alloc, path, false)?) {
        Ok(held) => Ok(held),
        Err(_) => Err("not held".into()),
    }
}

/// A conference that was opened.
#[derive(Drop)]
struct Begun {
    conference: u32,
    room: Room,
}

/// Opens the conferences of the configuration, each with its file.
fn begin_all<R: Files<File = File>>(
    rt: &R,
    alloc: Global,
    folder: &Folder,
    keeper: &mut Keeper<File>,
) -> Result<Vec<Begun>, Fail> {
    let mut rooms = Vec::new(alloc);
    for head in heads_of(alloc, CONFIGURATION)? {
        let kept = begin_file(rt, alloc, folder, &head)?;
        keeper.reserve()?;
        keeper.add(kept)?;
        rooms.push(Begun {
            conference: head.config.conference(),
            room: Room::new(alloc, head.config)?,
        })?;
    }
    Ok(rooms)
}

/// The text of a file of a folder.
fn text_in<R: Files>(rt: &R, alloc: Global, path: &str) -> Result<String, Fail> {
    Ok(std::io::read_to_string(alloc, File::open(rt, path)?)?)
}

#[test]
fn a_folder_is_held_by_one(rt: HostRuntime) -> Result<(), Fail> {
    let alloc = rt.alloc();
    let path = "kept-held";
    let held = new_folder(&rt, alloc, path)?;
    match lock_folder(&rt, alloc, &keeping(alloc, path, false)?) {
        Ok(_) => assert!(rt; false, "it is held twice"),
        Err(reason) => {
            assert_eq!(rt; reason.fault, KeepFault::CannotKeep);
            let line = reason.line.ok_or("no line")?;
            assert_eq!(rt; line.as_str(), "kept-held/lock: another server holds it");
        }
    }
    drop(held);
    assert!(rt; lock_folder(&rt, alloc, &keeping(alloc, path, false)?).is_ok());
    rt.remove_dir_all(alloc, path)?;
    match lock_folder(&rt, alloc, &keeping(alloc, path, false)?) {
        Ok(_) => assert!(rt; false, "it isn't there"),
        Err(reason) => assert_eq!(rt; reason.fault, KeepFault::CannotKeep),
    }
    Ok(())
}

/// Renames a file with an epoch into place.
fn put_epoch<R: Files<File = File>>(rt: &R, text: &str) -> Result<(), Fail> {
    fs::write(rt, "kept-epoch/epoch.new", text)?;
    fs::rename(rt, "kept-epoch/epoch.new", "kept-epoch/epoch")?;
    Ok(())
}

#[test]
fn an_epoch_that_turns_loses_the_folder(rt: HostRuntime) -> Result<(), Fail> {
    let alloc = rt.alloc();
    let path = "kept-epoch";
    let (lock, mut folder) = new_folder(&rt, alloc, path)?;
    assert_eq!(rt; folder.check_epoch(&rt), Ok(()));
    // No file is an epoch of 0.
    fs::write(&rt, "kept-epoch/epoch", "0\n")?;
    assert_eq!(rt; folder.check_epoch(&rt), Ok(()));
    // The same number in another file, and in that file itself.
    put_epoch(&rt, "0\n")?;
    assert_eq!(rt; folder.check_epoch(&rt), Ok(()));
    fs::write(&rt, "kept-epoch/epoch", "1\n")?;
    assert_eq!(rt; folder.check_epoch(&rt), Err(KeepFault::Lost));
    put_epoch(&rt, "0")?;
    assert_eq!(rt; folder.check_epoch(&rt), Ok(()));
    put_epoch(&rt, "one\n")?;
    assert_eq!(rt; folder.check_epoch(&rt), Err(KeepFault::CannotKeep));
    put_epoch(&rt, "1\n")?;
    assert_eq!(rt; folder.check_epoch(&rt), Err(KeepFault::Lost));
    assert_eq!(rt; folder.copy()?.check_epoch(&rt), Err(KeepFault::Lost));
    drop(lock);
    let mut asked = keeping(alloc, path, false)?;
    asked.epoch = Some(0);
    match lock_folder(&rt, alloc, &asked) {
        Ok(_) => assert!(rt; false, "another epoch"),
        Err(reason) => assert_eq!(rt; reason.fault, KeepFault::Lost),
    }
    asked.epoch = Some(1);
    match lock_folder(&rt, alloc, &asked) {
        Ok((_, folder)) => assert_eq!(rt; folder.copy()?.check_epoch(&rt), Ok(())),
        Err(_) => assert!(rt; false, "the same epoch"),
    }
    fs::write(&rt, "kept-epoch/epoch", "one\n")?;
    match lock_folder(&rt, alloc, &keeping(alloc, path, false)?) {
        Ok(_) => assert!(rt; false, "no number"),
        Err(reason) => assert_eq!(rt; reason.fault, KeepFault::CannotKeep),
    }
    rt.remove_dir_all(alloc, path)?;
    Ok(())
}

#[test]
fn a_conference_goes_on_where_it_was_left(rt: HostRuntime) -> Result<(), Fail> {
    let alloc = rt.alloc();
    let path = "kept-on";
    let (_lock, folder) = new_folder(&rt, alloc, path)?;
    let mut keeper = Keeper::new(folder.copy()?);
    let mut effects = Effects::new(alloc);
    for begun in begin_all(&rt, alloc, &folder, &mut keeper)? {
        let Begun {
            conference,
            mut room,
        } = begun;
        if conference == 7 {
            room.join(10, &mut effects)?;
            keeper.append(&rt, 7, room.journal()).map_err(|_| "unkept")?;
            room.join(11, &mut effects)?;
            keeper.note_port(7, 11, 7012)?;
            keeper.append(&rt, 7, room.journal()).map_err(|_| "unkept")?;
        }
    }
    drop(keeper);
    // A line that the process didn't come to the end of.
    let mut file = OpenOptions::new()
        .append(true)
        .open(&rt, "kept-on/7.journal")?;
    file.write_all(b"3 leave 1")?;
    drop(file);
    let listing = list_folder(&rt, alloc, &folder)?;
    assert_eq!(rt; listing.journals(), &[7u32, 8][..]);
    for conference in [7u32, 8] {
        match check_kept(&rt, alloc, &folder, conference) {
            Ok(ports) => {
                let found: Vec<u16> = ports.iter().map(|one| one.port).collect(alloc)?;
                let wanted: &[u16] = if conference == 7 { &[7011, 7012] } else { &[] };
                assert_eq!(rt; found.as_slice(), wanted, "{conference}");
            }
            Err(_) => assert!(rt; false, "{conference}"),
        }
    }
    let found = find_kept(&rt, alloc, &folder, 7)?;
    assert_eq!(rt; found.events.len(), 2);
    assert_eq!(rt; found.standing.torn, 9);
    assert_eq!(rt; found.standing.finish, Finish::GoesOn);
    assert_eq!(rt; found.standing.port_of(11), Some(7012));
    let file = open_file(&rt, alloc, &folder, 7)?;
    let mut kept = take_up(alloc, &folder, file, &found.standing)?;
    let mut room = Room::new(alloc, found.config)?;
    room.join(10, &mut effects)?;
    room.join(11, &mut effects)?;
    room.leave(2, &mut effects)?;
    kept.append(Syncing::Never, room.journal())
        .map_err(|_| "unkept")?;
    let text = text_in(&rt, alloc, "kept-on/7.journal")?;
    assert!(rt;
        text.as_str()
            .ends_with("---\n1 join 10\n2 join 11\n# port 11 7012\n3 leave 2\n")
    );
    rt.remove_dir_all(alloc, path)?;
    Ok(())
}

#[test]
fn a_conference_that_is_there_is_not_begun_again(rt: HostRuntime) -> Result<(), Fail> {
    let alloc = rt.alloc();
    let path = "kept-again";
    let (_lock, folder) = new_folder(&rt, alloc, path)?;
    for head in heads_of(alloc, CONFIGURATION)? {
        assert!(rt; begin_file(&rt, alloc, &folder, &head).is_ok());
        match begin_file(&rt, alloc, &folder, &head) {
            Ok(_) => assert!(rt; false),
            Err(reason) => assert_eq!(rt; reason.fault, KeepFault::CannotKeep),
        }
    }
    rt.remove_dir_all(alloc, path)?;
    Ok(())
}

#[test]
fn a_conference_that_is_closed_has_another_name(rt: HostRuntime) -> Result<(), Fail> {
    let alloc = rt.alloc();
    let path = "kept-closed";
    let (_lock, folder) = new_folder(&rt, alloc, path)?;
    let mut keeper = Keeper::new(folder.copy()?);
    let mut effects = Effects::new(alloc);
    for begun in begin_all(&rt, alloc, &folder, &mut keeper)? {
        let Begun {
            conference,
            mut room,
        } = begun;
        room.admin(Act::Close, &mut effects)?;
        if conference == 7 {
            keeper.close(&rt, 7, room.journal()).map_err(|_| "unkept")?;
            assert!(rt; !keeper.is_kept(7));
        } else {
            // The process ends between the close and the end.
            keeper.append(&rt, 8, room.journal()).map_err(|_| "unkept")?;
        }
    }
    let listing = list_folder(&rt, alloc, &folder)?;
    assert_eq!(rt; listing.journals(), &[8u32][..]);
    assert!(rt; listing.is_closed(7) && !listing.is_closed(8));
    let found = find_kept(&rt, alloc, &folder, 8)?;
    assert_eq!(rt; found.standing.finish, Finish::Closed);
    close_found(&rt, alloc, &folder, &found.standing)?;
    let listing = list_folder(&rt, alloc, &folder)?;
    assert!(rt; listing.journals().is_empty() && listing.is_closed(8));
    rt.remove_dir_all(alloc, path)?;
    Ok(())
}

#[test]
fn a_name_that_is_taken_gets_a_number(rt: HostRuntime) -> Result<(), Fail> {
    let alloc = rt.alloc();
    let path = "kept-twice";
    let (_lock, folder) = new_folder(&rt, alloc, path)?;
    let mut effects = Effects::new(alloc);
    // More often than there are seconds meanwhile.
    for _ in 0..4 {
        let mut keeper = Keeper::new(folder.copy()?);
        for begun in begin_all(&rt, alloc, &folder, &mut keeper)? {
            let Begun {
                conference,
                mut room,
            } = begun;
            room.admin(Act::Close, &mut effects)?;
            keeper
                .close(&rt, conference, room.journal())
                .map_err(|_| "unkept")?;
        }
    }
    let mut count = 0u32;
    for entry in fs::read_dir(&rt, path)? {
        let entry = entry?;
        if entry.file_name().starts_with("7.") {
            count = count.saturating_add(1);
        }
    }
    assert_eq!(rt; count, 4);
    rt.remove_dir_all(alloc, path)?;
    Ok(())
}

#[test]
fn a_file_that_fails_is_renamed(rt: HostRuntime) -> Result<(), Fail> {
    let alloc = rt.alloc();
    let path = "kept-failed";
    let (_lock, folder) = new_folder(&rt, alloc, path)?;
    let mut keeper = Keeper::new(folder.copy()?);
    let rooms = begin_all(&rt, alloc, &folder, &mut keeper)?;
    drop(keeper);
    let found = find_kept(&rt, alloc, &folder, 7)?;
    let mut keeper = Keeper::new(folder.copy()?);
    let mut standing = found.standing;
    // As where the journal isn't the file's.
    standing.events = 1;
    let file = open_file(&rt, alloc, &folder, 7)?;
    keeper.add(take_up(alloc, &folder, file, &standing)?)?;
    let first = rooms.first().ok_or("a room")?;
    match keeper.append(&rt, 7, first.room.journal()) {
        Ok(()) => assert!(rt; false),
        Err(unkept) => assert_eq!(rt; unkept.left, Left::Renamed),
    }
    let listing = list_folder(&rt, alloc, &folder)?;
    assert_eq!(rt; listing.journals(), &[8u32][..]);
    assert!(rt; !listing.is_closed(7));
    rt.remove_dir_all(alloc, path)?;
    Ok(())
}

#[test]
fn a_file_that_is_none_stays_as_it_is(rt: HostRuntime) -> Result<(), Fail> {
    let alloc = rt.alloc();
    let path = "kept-none";
    let (_lock, folder) = new_folder(&rt, alloc, path)?;
    let mut keeper = Keeper::new(folder.copy()?);
    let _rooms = begin_all(&rt, alloc, &folder, &mut keeper)?;
    drop(keeper);
    let mut file = OpenOptions::new()
        .append(true)
        .open(&rt, "kept-none/7.journal")?;
    file.write_all(b"1 join 10\n2 jion 11\n")?;
    drop(file);
    let before = text_in(&rt, alloc, "kept-none/7.journal")?;
    match find_kept(&rt, alloc, &folder, 7) {
        Err(FindFault::NotAJournal(at)) => assert_eq!(rt; at.place, 2),
        _ => assert!(rt; false),
    }
    match check_kept(&rt, alloc, &folder, 7) {
        Err(CheckFault::NotAJournal(at, line)) => {
            assert_eq!(rt; at.place, 2);
            assert_eq!(rt; line.as_str(), "2 jion 11");
        }
        _ => assert!(rt; false),
    }
    match find_kept(&rt, alloc, &folder, 9) {
        Err(FindFault::Refused(reason)) => assert_eq!(rt; reason.fault, KeepFault::CannotKeep),
        _ => assert!(rt; false),
    }
    let after = text_in(&rt, alloc, "kept-none/7.journal")?;
    assert_eq!(rt; before.as_str(), after.as_str());
    rt.remove_dir_all(alloc, path)?;
    Ok(())
}

/// What isn't a plain file is refused by its name, and nothing waits for it: whoever opens a pipe waits for its other
/// end.
#[test]
fn what_is_no_plain_file_is_refused(rt: HostRuntime) -> Result<(), Fail> {
    let alloc = rt.alloc();
    let path = "kept-odd";
    let (lock, mut folder) = new_folder(&rt, alloc, path)?;
    fs::create_dir(&rt, "kept-odd/7.journal")?;
    match find_kept(&rt, alloc, &folder, 7) {
        Err(FindFault::Refused(reason)) => {
            assert_eq!(rt; reason.fault, KeepFault::CannotKeep);
            let line = reason.line.ok_or("no line")?;
            assert_eq!(rt; line.as_str(), "kept-odd/7.journal: it is no plain file");
        }
        _ => assert!(rt; false, "a directory is read"),
    }
    assert!(rt; open_file(&rt, alloc, &folder, 7).is_err());
    fs::create_dir(&rt, "kept-odd/epoch")?;
    assert_eq!(rt; folder.check_epoch(&rt), Err(KeepFault::CannotKeep));
    drop(lock);
    for name in ["kept-odd/epoch", "kept-odd/trial.new", "kept-odd/lock"] {
        let _removed = fs::remove_file(&rt, name);
        let _made = fs::create_dir(&rt, name);
        match lock_folder(&rt, alloc, &keeping(alloc, path, false)?) {
            Ok(_) => assert!(rt; false, "{name}"),
            Err(reason) => assert_eq!(rt; reason.fault, KeepFault::CannotKeep, "{name}"),
        }
        fs::remove_dir(&rt, name)?;
    }
    rt.remove_dir_all(alloc, path)?;
    Ok(())
}
