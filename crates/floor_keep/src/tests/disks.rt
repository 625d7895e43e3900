//! Files that fail: what is written to them, and when the disk is asked.

use crate::disk::Disk;
use crate::ending::Left;
use crate::folder::{Folder, name_folder};
use crate::keeper::Keeper;
use crate::keeping::{Keeping, Syncing};
use crate::kept::{Kept, KeptFault, NoteFault};
use floor_config::{Config, Text};
use floor_room::{Act, Effects, Room};
use floor_wire::Octets;
use std::alloc::{AllocError, Global};
use std::cell::Cell;
use std::io::{ErrorKind, Write};
use std::rc::Rc;
use std::test::Fail;
use std::{fs, io};

/// What a disk was asked.
#[derive(Drop)]
struct Seen {
    len: Cell<usize>,
    writes: Cell<usize>,
    syncs: Cell<usize>,
    spoiled: Cell<bool>,
    cut: Cell<bool>,
}

/// A disk of so many bytes, that takes a sync or doesn't.
#[derive(Drop)]
struct Fake {
    seen: Rc<Seen, Global>,
    room: usize,
    takes_syncs: bool,
    takes_marks: bool,
}

impl Write for Fake {
    fn write(&mut self, buf: &[u8]) -> io::Result<usize> {
        let len = self.seen.len.get();
        let count = buf.len().min(self.room.saturating_sub(len));
        if count == 0 && !buf.is_empty() {
            return Err(io::Error::from(ErrorKind::StorageFull));
        }
        self.seen.len.set(len.saturating_add(count));
        self.seen
            .writes
            .set(self.seen.writes.get().saturating_add(1));
        Ok(count)
    }

    fn flush(&mut self) -> io::Result<()> {
        Ok(())
    }
}

impl Disk for Fake {
    ghost is_synced = { λ _. Unit {0} };

    ghost is_cut = { λ _ _. Unit {0} };

    ghost is_spoiled = { λ _. Unit {0} };

    fn sync(&mut self) -> io::Result<()> {
        self.seen.syncs.set(self.seen.syncs.get().saturating_add(1));
        if self.takes_syncs {
            Ok(())
        } else {
            Err(io::Error::from(ErrorKind::Other))
        }
    }

    fn cut(&mut self, len: u64) -> io::Result<()> {
        if len == 0 && self.takes_marks {
            self.seen.cut.set(true);
            return Ok(());
        }
        Err(io::Error::from(ErrorKind::Other))
    }

    fn spoil(&mut self) -> io::Result<()> {
        if self.room == 0 {
            return Err(io::Error::from(ErrorKind::Other));
        }
        self.seen.spoiled.set(true);
        Ok(())
    }
}

fn new_seen(alloc: Global) -> Result<Rc<Seen, Global>, Fail> {
    match Rc::new(
        alloc,
        Seen {
            len: Cell::new(0),
            writes: Cell::new(0),
            syncs: Cell::new(0),
            spoiled: Cell::new(false),
            cut: Cell::new(false),
        },
    ) {
        Ok(seen) => Ok(seen),
        Err(_) => Err("memory".into()),
    }
}

fn disk_of(seen: &Rc<Seen, Global>, room: usize) -> Result<Fake, AllocError> {
    Ok(Fake {
        seen: Rc::clone(seen)?,
        room,
        takes_syncs: true,
        takes_marks: true,
    })
}

/// A folder that isn't there, so that nothing can be renamed in it.
fn nowhere(alloc: Global, syncing: Syncing, or_stop: bool) -> Result<Folder, AllocError> {
    let keeping = Keeping {
        folder: String::from_str(alloc, "kept-nowhere")?,
        or_stop,
        syncing,
        epoch: None,
    };
    name_folder(alloc, &keeping)
}

/// A conference in which users 10 and 11 have joined.
fn meeting(alloc: Global) -> Result<Room, Fail> {
    let mut effects = Effects::new(alloc);
    let mut room = Room::new(alloc, Config::demonstration(alloc)?)?;
    room.join(10, &mut effects)?;
    room.join(11, &mut effects)?;
    Ok(room)
}

/// Two joins.
const LINES: usize = 20;

#[test]
fn a_turn_is_one_write(rt: HostRuntime) -> Result<(), Fail> {
    let alloc = rt.alloc();
    let seen = new_seen(alloc)?;
    let mut kept = Kept::new(alloc, 1, disk_of(&seen, 1_000)?, 0);
    let room = meeting(alloc)?;
    kept.note_port(12, 7012)?;
    assert!(rt; kept.append(Syncing::Second, room.journal()).is_ok());
    assert_eq!(rt; seen.writes.get(), 1);
    // And `# port 12 7012` with its line feed.
    assert_eq!(rt; seen.len.get(), LINES + 15);
    assert_eq!(rt; kept.done(), 2);
    assert!(rt; kept.append(Syncing::Second, room.journal()).is_ok());
    assert_eq!(rt; seen.writes.get(), 1);
    assert_eq!(rt; seen.syncs.get(), 0);
    assert_eq!(rt; kept.append(Syncing::Second, &[]), Err(KeptFault::Shorter));
    Ok(())
}

#[test]
fn the_disk_is_asked_as_the_words_say(rt: HostRuntime) -> Result<(), Fail> {
    let alloc = rt.alloc();
    let cases = [
        ("turn", Syncing::Turn, 1usize, 1usize),
        ("second", Syncing::Second, 0, 1),
        ("never", Syncing::Never, 0, 0),
    ];
    for (name, syncing, at_once, later) in cases {
        let seen = new_seen(alloc)?;
        let mut keeper = Keeper::new(nowhere(alloc, syncing, false)?);
        keeper.reserve()?;
        keeper.add(Kept::new(alloc, 1, disk_of(&seen, 1_000)?, 0))?;
        let room = meeting(alloc)?;
        assert_eq!(rt; keeper.next_sync(), None, "{name}");
        assert!(rt; keeper.append(&rt, 1, room.journal()).is_ok(), "{name}");
        assert_eq!(rt; seen.syncs.get(), at_once, "{name}");
        assert!(rt; keeper.sync(&rt, 999).is_none(), "{name}");
        assert_eq!(rt; seen.syncs.get(), at_once, "{name}");
        assert!(rt; keeper.sync(&rt, 1_000).is_none(), "{name}");
        assert_eq!(rt; seen.syncs.get(), later, "{name}");
        assert_eq!(rt; keeper.next_sync(), None, "{name}");
        assert!(rt; keeper.sync(&rt, 5_000).is_none(), "{name}");
        assert_eq!(rt; seen.syncs.get(), later, "{name}");
    }
    Ok(())
}

#[test]
fn a_file_that_fails_is_left_so_that_no_restart_opens_it(rt: HostRuntime) -> Result<(), Fail> {
    let alloc = rt.alloc();
    for room_for in 0..LINES {
        let seen = new_seen(alloc)?;
        let mut keeper = Keeper::new(nowhere(alloc, Syncing::Second, false)?);
        keeper.add(Kept::new(alloc, 1, disk_of(&seen, room_for)?, 0))?;
        let room = meeting(alloc)?;
        match keeper.append(&rt, 1, room.journal()) {
            Ok(()) => assert!(rt; false, "{room_for} bytes"),
            Err(unkept) => {
                assert_eq!(rt; unkept.conference, 1);
                assert_eq!(rt; unkept.cause, KeptFault::CannotWrite);
                let wanted = if room_for == 0 {
                    Left::Emptied
                } else {
                    Left::Spoiled
                };
                assert_eq!(rt; unkept.left, wanted);
            }
        }
        assert!(rt; !keeper.is_kept(1));
        assert!(rt; keeper.append(&rt, 1, room.journal()).is_ok());
        assert_eq!(rt; keeper.note_port(1, 10, 7010), Err(NoteFault::NotKept));
    }
    Ok(())
}

#[test]
fn the_file_of_a_conference_that_is_broken_off_is_resumed(rt: HostRuntime) -> Result<(), Fail> {
    let alloc = rt.alloc();
    let seen = new_seen(alloc)?;
    let mut keeper = Keeper::new(nowhere(alloc, Syncing::Second, true)?);
    keeper.add(Kept::new(alloc, 1, disk_of(&seen, 5)?, 0))?;
    let room = meeting(alloc)?;
    match keeper.append(&rt, 1, room.journal()) {
        Ok(()) => assert!(rt; false),
        Err(unkept) => assert_eq!(rt; unkept.left, Left::Resumes),
    }
    assert!(rt; !seen.spoiled.get() && !seen.cut.get());
    Ok(())
}

#[test]
fn a_disk_that_takes_nothing_is_told(rt: HostRuntime) -> Result<(), Fail> {
    let alloc = rt.alloc();
    for syncing in [Syncing::Turn, Syncing::Second] {
        let seen = new_seen(alloc)?;
        let mut keeper = Keeper::new(nowhere(alloc, syncing, false)?);
        let mut disk = disk_of(&seen, 1_000)?;
        disk.takes_syncs = false;
        keeper.add(Kept::new(alloc, 1, disk, 0))?;
        let room = meeting(alloc)?;
        let found = match keeper.append(&rt, 1, room.journal()) {
            Ok(()) => keeper.sync(&rt, 1_000),
            Err(unkept) => Some(unkept),
        };
        match found {
            None => assert!(rt; false),
            Some(unkept) => {
                assert_eq!(rt; unkept.cause, KeptFault::CannotSync);
                assert_eq!(rt; unkept.left, Left::Spoiled);
            }
        }
        assert!(rt; keeper.sync(&rt, 3_000).is_none());
    }
    Ok(())
}

#[test]
fn a_word_is_kept_by_a_key(rt: HostRuntime) -> Result<(), Fail> {
    let alloc = rt.alloc();
    let seen = new_seen(alloc)?;
    let mut kept = Kept::new(alloc, 1, disk_of(&seen, 1_000)?, 0);
    for key in ["", "a b", "a\nb"] {
        let key = Text::from_string(String::from_str(alloc, key)?);
        assert_eq!(rt; kept.note_word(key, None), Err(NoteFault::NotAKey));
    }
    let mut octets = Vec::new(alloc);
    octets.push(0x41u8)?;
    let key = Text::from_string(String::from_str(alloc, "a")?);
    kept.note_word(key, Some(Octets::from_vec(octets)))?;
    assert!(rt; kept.append(Syncing::Second, &[]).is_ok());
    // `# word a 41` with its line feed.
    assert_eq!(rt; seen.len.get(), 12);
    Ok(())
}
