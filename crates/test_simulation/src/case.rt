//! Cases: what happens, and what is wrong then.

use crate::drawing::{Drawing, LAST};
use crate::fault::Fault;
use crate::happening::{Happening, read_happening};
use crate::run::Run;
use std::alloc::{AllocError, Global};

/// Has all this happen to a server, of which nothing is to be wrong.
fn run_all(alloc: Global, happenings: &[Happening]) -> Result<(), Fault> {
    let mut run = Run::new(alloc, happenings.first().copied())?;
    for happening in happenings {
        run.happen(*happening)?;
    }
    Ok(())
}

/// Has all happen that a text says, of which nothing is to be wrong: gives its length. An empty line, and what stands
/// behind `#`, says nothing.
pub fn run_text(alloc: Global, text: &str) -> Result<usize, Fault> {
    let mut happenings = Vec::new(alloc);
    for (place, line) in text.lines().enumerate() {
        if line.is_empty() || line.starts_with('#') {
            continue;
        }
        match read_happening(line) {
            Some(happening) => happenings.push(happening)?,
            None => return Err(Fault::of("a line says nothing that happens", place)),
        }
    }
    run_all(alloc, happenings.as_slice())?;
    Ok(happenings.len())
}

/// Draws what happens in the run of a seed, and has it happen, of which nothing is to be wrong: gives how many messages
/// were served. What was drawn is put behind `drawn`.
pub fn run_seed(
    alloc: Global,
    seed: u64,
    steps: u32,
    drawn: &mut Vec<Happening>,
) -> Result<u64, Fault> {
    let mut drawing = Drawing::new(seed);
    let first = drawing.first();
    let mut run = Run::new(alloc, Some(first))?;
    drawn.push(first)?;
    for place in 0..steps {
        let happening = drawing.next(place);
        drawn.push(happening)?;
        run.happen(happening)?;
    }
    for happening in LAST {
        drawn.push(happening)?;
        run.happen(happening)?;
    }
    Ok(run.model.messages)
}

/// The fewest of these happenings that a shrinking finds by which the same is wrong: it leaves parts out, half of all
/// first and single happenings at last.
pub fn shrink(
    alloc: Global,
    happenings: Vec<Happening>,
    fault: Fault,
) -> Result<Vec<Happening>, AllocError> {
    let mut kept = happenings;
    let mut before = usize::MAX;
    while kept.len() < before {
        before = kept.len();
        kept = leave_out(alloc, kept, fault)?;
    }
    Ok(kept)
}

fn leave_out(
    alloc: Global,
    happenings: Vec<Happening>,
    fault: Fault,
) -> Result<Vec<Happening>, AllocError> {
    let mut kept = happenings;
    let mut part = kept.len() / 2;
    while part != 0 {
        let mut at = 0usize;
        while at < kept.len() {
            let end = at.saturating_add(part).min(kept.len());
            let mut fewer = Vec::new(alloc);
            fewer.extend_from_slice(kept.get(..at).unwrap_or(&[]))?;
            fewer.extend_from_slice(kept.get(end..).unwrap_or(&[]))?;
            match run_all(alloc, fewer.as_slice()) {
                Err(found) if found.what == fault.what => kept = fewer,
                _ => at = end,
            }
        }
        part /= 2;
    }
    Ok(kept)
}
