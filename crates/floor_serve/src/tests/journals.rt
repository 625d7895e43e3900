//! A journal that is taken in pieces.

use super::{HELLO, frame, greeted, submits};
use crate::*;
use std::alloc::{AllocError, Global};
use std::test::*;

/// How many events a piece has at most.
const PIECE: u32 = 4_096;

/// How many lines a text has from the first on that begin with their place.
fn placed(alloc: Global, text: &str) -> Result<u32, AllocError> {
    let mut count = 0u32;
    for line in text.lines() {
        let place = count.saturating_add(1);
        let head = format!(in alloc; "{place} ")?;
        if !line.starts_with(head.as_str()) {
            return Ok(count);
        }
        count = place;
    }
    Ok(count)
}

#[test]
fn a_long_journal_is_one_text(rt: HostRuntime) -> Result<(), Fail> {
    let alloc = rt.alloc();
    let (desk, mut seat, taker) = greeted(&rt, alloc, 1)?;
    let hello = frame(alloc, &HELLO)?;
    for _ in 0..PIECE {
        let taken = taker.acknowledge(&rt, 1).is_ok();
        assert!(rt; taken && submits(&rt, &desk, &mut seat, hello.share()?));
    }
    let text = desk.journal_text(&rt)?;
    assert!(rt; placed(alloc, &text)? == 8_194 && text.as_str().ends_with("\nend 8194\n"));
    Ok(())
}
