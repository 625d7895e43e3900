//! Writes that fail, and parcels that are too long to be gathered.

ghost use Rattle.std.specs.Prelude.{◌≡◌, None, false};

use super::{HELLO, HELLO_ACK, frame, greeted, joined, leaves, opened, submits};
use crate::*;
use floor_outbox::pair;
use std::alloc::{AllocError, Global};
use std::sync::Wait;
use std::test::*;

/// User 10 asks for floor 1, and has it.
const REQUEST: [u8; 16] = [0x20, 1, 0, 1, 0, 0, 0, 1, 0, 2, 0, 10, 4, 4, 0, 1];

const GRANTED: [u8; 40] = [
    0x20, 4, 0, 7, 0, 0, 0, 1, 0, 2, 0, 10, 0x1e, 0x1c, 0, 1, 0x24, 8, 0, 1, 0x0a, 4, 3, 0, 0x22,
    8, 0, 1, 0x0a, 4, 3, 0, 0x1c, 4, 0, 10, 8, 4, 0x40, 0,
];

/// Takes so many bytes a write, at most so many writes, and then fails.
#[derive(Drop)]
struct Narrow {
    bytes: Vec<u8>,
    lens: Vec<usize>,
    step: usize,
    writes: usize,
    failed: bool,
}

impl Narrow {
    /// A sink that has taken nothing.
    fn new(alloc: Global, step: usize, writes: usize) -> Narrow
        ensures { result.failed ≡ false }
    {
        Narrow {
            bytes: Vec::new(alloc),
            lens: Vec::new(alloc),
            step,
            writes,
            failed: false,
        }
    }

    /// Keeps what a write takes.
    fn keep(&mut self, bytes: &[u8]) -> Result<(), AllocError>
        ensures { self.new.failed ≡ self.old.failed }
    {
        self.bytes.extend_from_slice(bytes)?;
        self.lens.push(bytes.len())?;
        Ok(())
    }
}

impl Sink for Narrow {
    ghost contents = { λ _. None };

    ghost marked = { λ s. s.failed };

    fn write(&mut self, bytes: &[u8]) -> Option<usize> {
        let count = self.step.min(bytes.len());
        if self.lens.len() >= self.writes || (count == 0 && !bytes.is_empty()) {
            self.failed = true;
            return None;
        }
        match self.keep(&bytes[..count]) {
            Ok(()) => Some(count),
            Err(_) => {
                self.failed = true;
                None
            }
        }
    }

    fn failed(&self) -> bool {
        self.failed
    }
}

/// What writing the answers to these messages of user 10 gives, and the sink that they are written
/// to.
fn write_by<R: Wait>(
    rt: &R,
    alloc: Global,
    messages: &[&[u8]],
    mut sink: Narrow,
) -> Result<(Result<Written, WriteFault>, Narrow), Fail>
    requires { sink.failed ≡ false }
{
    let (_registry, desk) = opened(rt, alloc)?;
    let (mut seat, mut taker) = joined(rt, &desk, 10)?;
    for message in messages {
        if !submits(rt, &desk, &mut seat, frame(alloc, message)?) {
            return Err(Fail::from("a message is refused"));
        }
    }
    let Ok(()) = desk.admin(rt, Act::Close) else {
        return Err(Fail::from("the conference doesn't close"));
    };
    let outcome = write_loop(rt, alloc, &mut sink, &mut taker);
    Ok((outcome, sink))
}

#[test]
fn an_answer_is_written_byte_by_byte(rt: HostRuntime) -> Result<(), Fail> {
    let alloc = rt.alloc();
    let (desk, _seat, mut taker) = greeted(&rt, alloc, 1)?;
    let mut sink = Narrow::new(alloc, 1, 5);
    assert_eq!(rt;
        write_loop(&rt, alloc, &mut sink, &mut taker),
        Err(WriteFault { bytes: 5 })
    );
    assert_eq!(rt;
        desk.journal_text(&rt)?.as_str(),
        "1 join 10\n2 message 1 200b0000000000010001000a\nend 2\n"
    );
    let (desk, mut seat, mut taker) = greeted(&rt, alloc, 1)?;
    assert!(rt; leaves(&rt, &desk, &mut seat));
    let mut sink = Narrow::new(alloc, 1, 48);
    assert_eq!(rt;
        write_loop(&rt, alloc, &mut sink, &mut taker),
        Ok(Written {
            parcels: 1,
            bytes: 48
        })
    );
    assert_eq!(rt;
        desk.journal_text(&rt)?.as_str(),
        "1 join 10\n2 message 1 200b0000000000010001000a\n3 leave 1\nend 3\n"
    );
    Ok(())
}

#[test]
fn writing_fails_at_each_write_and_counts_what_was_taken(rt: HostRuntime) -> Result<(), Fail> {
    let alloc = rt.alloc();
    let messages = [HELLO.as_slice(), REQUEST.as_slice()];
    let answers = [HELLO_ACK.as_slice(), GRANTED.as_slice()].concat(alloc)?;
    for writes in 0..18usize {
        let (written, sink) = write_by(&rt, alloc, &messages, Narrow::new(alloc, 5, writes))?;
        let count = writes.saturating_mul(5);
        assert_eq!(rt;
            written,
            Err(WriteFault {
                bytes: count as u64
            }),
            "behind {writes} writes"
        );
        assert!(rt;
            Some(sink.bytes.as_slice()) == answers.get(..count),
            "of {writes} writes"
        );
    }
    let (written, sink) = write_by(&rt, alloc, &messages, Narrow::new(alloc, 5, 18))?;
    assert_eq!(rt;
        written,
        Ok(Written {
            parcels: 2,
            bytes: 88
        })
    );
    assert!(rt; sink.bytes == answers);
    Ok(())
}

/// A message whose payload has so many words, each of this number.
fn long(alloc: Global, words: u16, word: u32) -> Result<Frame, Fail> {
    let mut bytes = Vec::from_slice(alloc, &[0x20, 11])?;
    bytes.extend_from_slice(&words.to_be_bytes())?;
    bytes.extend_from_slice(&[0, 0, 0, 1, 0, 1, 0, 10])?;
    for _ in 0..words {
        bytes.extend_from_slice(&word.to_be_bytes())?;
    }
    Ok(frame(alloc, &bytes)?)
}

/// The words of payloads: none, as many as fill what is gathered with their header, one more, which
/// is too much for it, and none.
const WORDS: [u16; 4] = [0, 16_381, 16_385, 0];

/// What is written of these parcels at once, and how many bytes were written before.
const LENS: [usize; 5] = [12, 65_536, 12, 65_540, 12];

const BEFORE: [u64; 5] = [0, 12, 65_548, 65_560, 131_100];

/// What writing the parcels gives, and the sink that they are written to. They are acknowledged for a
/// member that is four behind.
fn write_long<R: Wait>(
    rt: &R,
    alloc: Global,
    writes: usize,
) -> Result<(Result<Written, WriteFault>, Narrow), Fail> {
    let (mut sender, taker) = pair(alloc)?;
    for (words, word) in WORDS.into_iter().zip(1u32..) {
        let Ok(()) = sender.put(rt, Parcel::new(1, long(alloc, words, word)?)) else {
            return Err(Fail::from("a parcel comes back"));
        };
    }
    sender.close();
    let (desk, _seat, _waiting) = greeted(rt, alloc, 4)?;
    let mut member = MemberTaker { desk, n: 1, taker };
    let mut sink = Narrow::new(alloc, usize::MAX, writes);
    let outcome = write_loop(rt, alloc, &mut sink, &mut member);
    if member.desk.journal_text(rt)?.contains(" took ") == outcome.is_err() {
        return Err(Fail::from("acknowledged, and not written"));
    }
    Ok((outcome, sink))
}

#[test]
fn a_parcel_that_is_too_long_to_gather_is_written_in_its_turn(rt: HostRuntime) -> Result<(), Fail> {
    let alloc = rt.alloc();
    let mut all = Vec::new(alloc);
    for (words, word) in WORDS.into_iter().zip(1u32..) {
        all.extend_from_slice(long(alloc, words, word)?.bytes())?;
    }
    for (writes, bytes) in BEFORE.into_iter().enumerate() {
        let (written, sink) = write_long(&rt, alloc, writes)?;
        assert_eq!(rt;
            written,
            Err(WriteFault { bytes }),
            "behind {writes} writes"
        );
        assert!(rt; all.starts_with(&sink.bytes), "of {writes} writes");
    }
    let (written, sink) = write_long(&rt, alloc, 5)?;
    assert_eq!(rt;
        written,
        Ok(Written {
            parcels: 4,
            bytes: 131_112
        })
    );
    assert!(rt; sink.bytes == all);
    assert!(rt; sink.lens.as_slice() == LENS.as_slice());
    Ok(())
}
