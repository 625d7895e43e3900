//! Streams that are cut, and reads that fail.

ghost use Rattle.std.specs.Prelude.{None, false};

use super::{HELLO, answer_of, frame, joined, opened};
use crate::*;
use std::alloc::Global;
use std::io::Cursor;
use std::sync::Wait;
use std::test::*;

/// How many bytes a Hello has, and how many each of the streams.
const HELLO_LEN: usize = 12;

const STREAM_LEN: usize = 28;

/// A user and its stream, a Hello and a message: user 10 asks for floor 1, user 11 asks for it too,
/// user 10 gives it back.
const STREAMS: [(u16, [u8; STREAM_LEN]); 3] = [
    (
        10,
        [
            0x20, 11, 0, 0, 0, 0, 0, 1, 0, 1, 0, 10, 0x20, 1, 0, 1, 0, 0, 0, 1, 0, 2, 0, 10, 4, 4,
            0, 1,
        ],
    ),
    (
        11,
        [
            0x20, 11, 0, 0, 0, 0, 0, 1, 0, 1, 0, 11, 0x20, 1, 0, 1, 0, 0, 0, 1, 0, 1, 0, 11, 4, 4,
            0, 1,
        ],
    ),
    (
        10,
        [
            0x20, 11, 0, 0, 0, 0, 0, 1, 0, 1, 0, 10, 0x20, 2, 0, 1, 0, 0, 0, 1, 0, 3, 0, 10, 6, 4,
            0, 1,
        ],
    ),
];

/// Gives the first bytes of a stream, one a read, and fails behind so many reads.
#[derive(Drop)]
struct Failing {
    stream: [u8; STREAM_LEN],
    len: usize,
    at: usize,
    reads: u64,
    failed: bool,
}

impl Source for Failing {
    ghost remaining = { λ _. None };

    ghost marked = { λ s. s.failed };

    fn read(&mut self, buffer: &mut [u8]) -> Option<usize> {
        if self.reads == 0 {
            self.failed = true;
            return None;
        }
        self.reads -= 1;
        let rest = self.stream.get(self.at..self.len).unwrap_or(&[]);
        let count = rest.len().min(1).min(buffer.len());
        buffer[..count].copy_from_slice(&rest[..count]);
        self.at = self.at.saturating_add(count);
        Some(count)
    }

    fn failed(&self) -> bool {
        self.failed
    }
}

/// How the reading of so many bytes of a stream ends in at most so many reads, of a source that
/// fails behind so many; how many messages are recorded; how many events the conference has.
fn read_by<R: Wait>(
    rt: &R,
    alloc: Global,
    limit: u64,
    stream: (u16, [u8; STREAM_LEN]),
    len: usize,
    reads: u64,
) -> Result<(Result<ReadEnd, ReadFault>, usize, u32), Fail> {
    let (user, stream) = stream;
    let (_registry, desk) = opened(rt, alloc)?;
    let (mut seat, _taker) = joined(rt, &desk, user)?;
    let mut source = Failing {
        stream,
        len,
        at: 0,
        reads,
        failed: false,
    };
    let end = read_turns(limit, rt, &mut source, &desk, &mut seat, &FreePass);
    Ok((end, seat.sent().len(), desk.status(rt).events))
}

/// How a stream ends behind so many bytes; how many messages are whole then; how many events there
/// are with its user's joining.
fn ended_behind(count: usize) -> (ReadEnd, usize, u32) {
    match count {
        0 => (ReadEnd::Closed, 0, 1),
        HELLO_LEN => (ReadEnd::Closed, 1, 2),
        STREAM_LEN => (ReadEnd::Closed, 2, 3),
        _ if count < HELLO_LEN => (ReadEnd::Cut(count), 0, 1),
        _ => (ReadEnd::Cut(count.saturating_sub(HELLO_LEN)), 1, 2),
    }
}

#[test]
fn a_stream_is_cut_at_each_byte(rt: HostRuntime) -> Result<(), Fail> {
    for stream in STREAMS {
        for len in 0..=STREAM_LEN {
            let (end, messages, events) = ended_behind(len);
            assert_eq!(rt;
                read_by(&rt, rt.alloc(), MAX_TURNS, stream, len, MAX_TURNS)?,
                (Ok(end), messages, events),
                "user {} behind {len} bytes",
                stream.0
            );
        }
    }
    Ok(())
}

#[test]
fn reading_fails_at_each_read_and_keeps_what_was_taken(rt: HostRuntime) -> Result<(), Fail> {
    for stream in STREAMS {
        for reads in 0..=STREAM_LEN {
            let (_, messages, events) = ended_behind(reads);
            assert_eq!(rt;
                read_by(&rt, rt.alloc(), MAX_TURNS, stream, STREAM_LEN, reads as u64)?,
                (Err(ReadFault::Read), messages, events),
                "user {} behind {reads} reads",
                stream.0
            );
        }
    }
    Ok(())
}

#[test]
fn reading_ends_at_the_limit(rt: HostRuntime) -> Result<(), Fail> {
    for limit in 0..=STREAM_LEN {
        let (_, messages, events) = ended_behind(limit);
        assert_eq!(rt;
            read_by(
                &rt,
                rt.alloc(),
                limit as u64,
                STREAMS[0],
                STREAM_LEN,
                MAX_TURNS
            )?,
            (Err(ReadFault::TurnLimit), messages, events),
            "at most {limit} reads"
        );
    }
    Ok(())
}

#[test]
fn a_message_that_a_closed_conference_refuses_is_not_recorded(rt: HostRuntime) -> Result<(), Fail> {
    let alloc = rt.alloc();
    let (_registry, desk) = opened(&rt, alloc)?;
    let (mut seat, _taker) = joined(&rt, &desk, 10)?;
    let Ok(()) = desk.admin(&rt, Act::Close) else {
        return Err(Fail::from("the conference doesn't close"));
    };
    assert_eq!(rt;
        answer_of(&rt, &desk, &mut seat, frame(alloc, &HELLO)?, &FreePass),
        Some(Err(RoomRefusal::Refused(Refusal::Ended)))
    );
    assert_eq!(rt; seat.sent().len(), 0);
    Ok(())
}

#[test]
fn reading_into_a_closed_conference_ends_at_its_first_message(rt: HostRuntime) -> Result<(), Fail> {
    let alloc = rt.alloc();
    let (_registry, desk) = opened(&rt, alloc)?;
    let (mut seat, _taker) = joined(&rt, &desk, 10)?;
    let Ok(()) = desk.admin(&rt, Act::Close) else {
        return Err(Fail::from("the conference doesn't close"));
    };
    let mut source = Marked::new(Cursor::new([HELLO.as_slice(), &HELLO].concat(alloc)?));
    assert_eq!(rt;
        read_loop(&rt, &mut source, &desk, &mut seat, &FreePass),
        Err(ReadFault::Refused(RoomRefusal::Refused(Refusal::Ended)))
    );
    assert!(rt; !Source::failed(&source));
    assert_eq!(rt; seat.sent().len(), 0);
    let mut empty = Marked::new(Cursor::new(Vec::new(alloc)));
    assert_eq!(rt;
        read_loop(&rt, &mut empty, &desk, &mut seat, &FreePass),
        Ok(ReadEnd::Closed)
    );
    Ok(())
}

/// Gives Errors of user 10, which nobody is told anything of, a byte a read, so many bytes in all.
#[derive(Drop)]
struct Slow {
    left: u64,
    at: usize,
}

impl Source for Slow {
    ghost remaining = { λ _. None };

    ghost marked = { λ _. false };

    fn read(&mut self, buffer: &mut [u8]) -> Option<usize> {
        if self.left == 0 {
            return Some(0);
        }
        self.left -= 1;
        let ignored = [0x20, 13, 0, 0, 0, 0, 0, 1, 0, 1, 0, 10];
        buffer[0] = ignored[self.at % HELLO_LEN];
        self.at = (self.at % HELLO_LEN) + 1;
        Some(1)
    }

    fn failed(&self) -> bool {
        false
    }
}

#[test]
fn a_million_reads_are_no_limit(rt: HostRuntime) -> Result<(), Fail> {
    let (_registry, desk) = opened(&rt, rt.alloc())?;
    let (mut seat, _taker) = joined(&rt, &desk, 10)?;
    let mut slow = Slow {
        left: 1_000_001,
        at: 0,
    };
    assert_eq!(rt;
        read_loop(&rt, &mut slow, &desk, &mut seat, &FreePass),
        Ok(ReadEnd::Cut(5))
    );
    assert_eq!(rt; seat.sent().len(), 83_333);
    Ok(())
}

#[test]
fn a_broken_conference_is_found_without_seats(rt: HostRuntime) -> Result<(), Fail> {
    let (registry, desk) = opened(&rt, rt.alloc())?;
    assert_eq!(rt;
        finish(&rt, &registry, &[]),
        Ok(Report {
            seats: 0,
            events: 0
        })
    );
    {
        let table = registry.table.lock(&rt);
        let slot = table.slots.first().ok_or("no conference")?;
        slot.booth.lock(&rt).break_off();
    }
    assert_eq!(rt;
        finish(&rt, &registry, &[]),
        Err(FinishFault::Broken { conference: 1 })
    );
    assert_eq!(rt; desk.status(&rt).phase, Phase::Broken);
    Ok(())
}
