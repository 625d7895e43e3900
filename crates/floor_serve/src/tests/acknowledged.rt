//! What writers acknowledge: no parcel that wasn't wholly written, and in the end all that were.

ghost use Rattle.std.specs.Prelude.{None};

use super::{HELLO, answer_of, frame, greeted, joined, leaves, opened, submits};
use crate::*;
use std::alloc::Global;
use std::sync::Wait;
use std::test::*;

/// How many bytes the answer to a Hello has.
const HELLO_ACK_LEN: usize = 48;

/// Takes so many bytes, and then fails.
#[derive(Drop)]
struct Short {
    room: usize,
    failed: bool,
}

impl Sink for Short {
    ghost contents = { λ _. None };

    ghost marked = { λ s. s.failed };

    fn write(&mut self, bytes: &[u8]) -> Option<usize> {
        let count = self.room.min(bytes.len());
        if count == 0 && !bytes.is_empty() {
            self.failed = true;
            return None;
        }
        self.room = self.room.saturating_sub(count);
        Some(count)
    }

    fn failed(&self) -> bool {
        self.failed
    }
}

/// How many of its parcels a line of a journal acknowledges for member 1.
fn acknowledged_by(line: &str) -> u32 {
    match line.split_once(" took 1 ") {
        Some((_, k)) => k.parse().unwrap_or(u32::MAX),
        None => 0,
    }
}

/// How many parcels a journal acknowledges for member 1.
fn acknowledged_in(journal: &str) -> u32 {
    let mut acknowledged = 0u32;
    for line in journal.lines() {
        acknowledged = acknowledged.saturating_add(acknowledged_by(line));
    }
    acknowledged
}

#[test]
fn of_a_write_that_fails_nothing_is_acknowledged(rt: HostRuntime) -> Result<(), Fail> {
    let alloc = rt.alloc();
    let (desk, _seat, mut taker) = greeted(&rt, alloc, 100)?;
    let mut short = Short {
        room: HELLO_ACK_LEN,
        failed: false,
    };
    let written = write_loop(&rt, alloc, &mut short, &mut taker);
    assert!(rt; written.is_err());
    assert!(rt; acknowledged_in(&desk.journal_text(&rt)?) <= 1);
    Ok(())
}

#[test]
fn the_event_that_cuts_closes(rt: HostRuntime) -> Result<(), Fail> {
    let (_desk, _seat, before) = greeted(&rt, rt.alloc(), 1024)?;
    assert!(rt; !before.mark()?.is_set());
    let (_desk, _seat, behind) = greeted(&rt, rt.alloc(), 1025)?;
    assert!(rt; behind.mark()?.is_set());
    Ok(())
}

#[test]
fn took_counts(rt: HostRuntime) -> Result<(), Fail> {
    let alloc = rt.alloc();
    let (desk, _seat, mut taker) = greeted(&rt, alloc, 3)?;
    let mut short = Short {
        room: HELLO_ACK_LEN.saturating_add(5),
        failed: false,
    };
    assert_eq!(rt;
        write_loop(&rt, alloc, &mut short, &mut taker),
        Err(WriteFault { bytes: 53 })
    );
    assert!(rt; acknowledged_in(&desk.journal_text(&rt)?) <= 1);
    let (desk, mut seat, mut taker) = greeted(&rt, alloc, 1025)?;
    assert_eq!(rt;
        answer_of(&rt, &desk, &mut seat, frame(alloc, &HELLO)?, &FreePass),
        Some(Err(RoomRefusal::Refused(Refusal::Cut)))
    );
    let mut sink = Marked::new(Vec::new(alloc));
    assert_eq!(rt;
        write_loop(&rt, alloc, &mut sink, &mut taker),
        Ok(Written {
            parcels: 1024,
            bytes: 49_152
        })
    );
    let journal = desk.journal_text(&rt)?;
    let mut tooks = 0u32;
    for line in journal.lines() {
        if line.contains(" took ") {
            assert!(rt; line.ends_with(" took 1 64"), "{line}");
            tooks = tooks.saturating_add(1);
        }
    }
    assert_eq!(rt; tooks, 16);
    assert!(rt; journal.as_str().ends_with("\nend 1042\n"));
    Ok(())
}

/// User 10 asks for floor 1.
const REQUEST: [u8; 16] = [0x20, 1, 0, 1, 0, 0, 0, 1, 0, 1, 0, 10, 4, 4, 0, 1];

/// A seat of a user who watches floor 1 and is 1,024 parcels behind, and what takes them.
fn behind<R: Wait>(
    rt: &R,
    alloc: Global,
    desk: &Desk,
    user: u8,
) -> Result<(Seat, MemberTaker), Fail> {
    let (mut seat, taker) = joined(rt, desk, u16::from(user))?;
    let query = [0x20, 7, 0, 1, 0, 0, 0, 1, 0, 1, 0, user, 4, 4, 0, 1];
    let mut taken = submits(rt, desk, &mut seat, frame(alloc, &query)?);
    let hello = frame(alloc, &[0x20, 11, 0, 0, 0, 0, 0, 1, 0, 2, 0, user])?;
    for _ in 0..1023 {
        taken = submits(rt, desk, &mut seat, hello.share()?) && taken;
    }
    if taken {
        Ok((seat, taker))
    } else {
        Err(Fail::from("a message is refused"))
    }
}

/// A desk at which user 10 has floor 1, its seat, and what takes the parcels of users 11 and 12, who
/// watch the floor and are 1,024 parcels behind.
fn watched<R: Wait>(rt: &R, alloc: Global) -> Result<(Desk, Seat, [MemberTaker; 2]), Fail> {
    let (_registry, desk) = opened(rt, alloc)?;
    let (mut ten, _first) = joined(rt, &desk, 10)?;
    if !submits(rt, &desk, &mut ten, frame(alloc, &REQUEST)?) {
        return Err(Fail::from("the request is refused"));
    }
    let (_eleven, second) = behind(rt, alloc, &desk, 11)?;
    let (_twelve, third) = behind(rt, alloc, &desk, 12)?;
    Ok((desk, ten, [second, third]))
}

/// How many of two takers are closed.
fn closed(takers: &[MemberTaker; 2]) -> Result<u32, Fail> {
    let mut count = 0u32;
    for taker in takers {
        if taker.mark()?.is_set() {
            count = count.saturating_add(1);
        }
    }
    Ok(count)
}

#[test]
fn a_leave_closes_each_whom_it_cuts(rt: HostRuntime) -> Result<(), Fail> {
    let (desk, mut seat, takers) = watched(&rt, rt.alloc())?;
    assert_eq!(rt; closed(&takers)?, 0);
    assert!(rt; leaves(&rt, &desk, &mut seat));
    assert_eq!(rt; closed(&takers)?, 2);
    Ok(())
}

#[test]
fn a_revoke_closes_each_whom_it_cuts(rt: HostRuntime) -> Result<(), Fail> {
    let (desk, _seat, takers) = watched(&rt, rt.alloc())?;
    assert!(rt; desk.admin(&rt, Act::Revoke(1)).is_ok());
    assert_eq!(rt; closed(&takers)?, 2);
    Ok(())
}

/// User 10 gives floor request 1 back.
const RELEASE: [u8; 16] = [0x20, 2, 0, 1, 0, 0, 0, 1, 0, 2, 0, 10, 6, 4, 0, 1];

#[test]
fn what_is_said_closes_each_whom_it_cuts(rt: HostRuntime) -> Result<(), Fail> {
    let alloc = rt.alloc();
    let (desk, _seat, takers) = watched(&rt, alloc)?;
    assert!(rt; desk.say(&rt, 10, frame(alloc, &RELEASE)?).is_ok());
    assert_eq!(rt; closed(&takers)?, 2);
    Ok(())
}

/// A registry, a desk of its conference, and what takes the parcels of its two members.
fn with_two<R: Wait>(rt: &R, alloc: Global) -> Result<(Registry, Desk, [MemberTaker; 2]), Fail> {
    let (registry, desk) = opened(rt, alloc)?;
    let (_ten, first) = joined(rt, &desk, 10)?;
    let (_eleven, second) = joined(rt, &desk, 11)?;
    Ok((registry, desk, [first, second]))
}

#[test]
fn a_close_closes_each_member(rt: HostRuntime) -> Result<(), Fail> {
    let (_registry, desk, takers) = with_two(&rt, rt.alloc())?;
    assert_eq!(rt; closed(&takers)?, 0);
    assert!(rt; desk.admin(&rt, Act::Close).is_ok());
    assert_eq!(rt; closed(&takers)?, 2);
    Ok(())
}

#[test]
fn a_conference_that_is_broken_off_closes_each_member(rt: HostRuntime) -> Result<(), Fail> {
    let (registry, _desk, takers) = with_two(&rt, rt.alloc())?;
    {
        let table = registry.table.lock(&rt);
        let slot = table.slots.first().ok_or("no conference")?;
        slot.booth.lock(&rt).break_off();
    }
    assert_eq!(rt; closed(&takers)?, 2);
    Ok(())
}
