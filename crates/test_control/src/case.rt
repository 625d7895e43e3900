//! Cases: what happens, and what is wrong then.

use crate::drawing::Drawing;
use crate::fault::{Fault, demand};
use crate::happening::{ALL, Does, Happening, Way};
use crate::run::{Outcome, Run};
use std::alloc::{AllocError, Global};

/// How many peers there are at most.
const MAX_PEERS: usize = 24;

/// What a seed's run came to.
#[derive(Clone, Copy, Debug)]
pub struct Counts {
    pub answered: u64,
    pub told: u64,
}

/// Draws what happens in the run of a seed, behind `drawn`.
pub fn draw(seed: u64, steps: u32, drawn: &mut Vec<Happening>) -> Result<(), AllocError> {
    let mut drawing = Drawing::new(seed);
    for place in 0..steps {
        drawn.push(drawing.next(place))?;
    }
    // At last everybody takes all, and who is late is shut.
    for peer in 0..MAX_PEERS {
        drawn.push(Happening::Of {
            peer,
            does: Does::Take(ALL),
        })?;
    }
    for happening in [
        Happening::Turn,
        Happening::Pass(15_000_000),
        Happening::Turn,
    ] {
        drawn.push(happening)?;
    }
    Ok(())
}

/// Whether each peer that connects is an observer.
fn observers_of(happenings: &[Happening]) -> [bool; MAX_PEERS] {
    let mut observes = [false; MAX_PEERS];
    let mut is_there = [false; MAX_PEERS];
    for happening in happenings {
        if let Happening::Of {
            peer,
            does: Does::Connect(way),
        } = *happening
        {
            if peer < MAX_PEERS && !is_there[peer] {
                is_there[peer] = true;
                observes[peer] = way == Way::Observe;
            }
        }
    }
    observes
}

/// Has all this happen to a service, with those who observe or without them.
fn run_with(
    alloc: Global,
    happenings: &[Happening],
    observes: &[bool; MAX_PEERS],
    with: bool,
) -> Result<Outcome, Fault> {
    let mut run = Run::new(alloc)?;
    for happening in happenings {
        let is_left_out = match happening {
            Happening::Of { peer, .. } => { !with && observes.get(*peer).copied().unwrap_or(false) }
            Happening::Serially | Happening::Pass(_) | Happening::Turn => false,
        };
        if !is_left_out {
            run.happen(*happening)?;
        }
    }
    Ok(run.outcome()?)
}

/// Has all this happen to a service, of which nothing is to be wrong: and without those who observe the members are told the
/// same, the others are answered the same, and the same has happened, where what peers do isn't done at once: whoever
/// is served with others at once is served in another order among them.
pub fn run_all(alloc: Global, happenings: &[Happening]) -> Result<Counts, Fault> {
    let observes = observers_of(happenings);
    let all = run_with(alloc, happenings, &observes, true)?;
    let counts = Counts {
        answered: all.answered,
        told: all.told,
    };
    if !happenings.contains(&Happening::Serially) {
        return Ok(counts);
    }
    let without = run_with(alloc, happenings, &observes, false)?;
    demand(
        all.shown.as_slice() == without.shown.as_slice(),
        "who observes changes what happens",
        0,
    )?;
    for (number, came) in all.members.iter().enumerate() {
        let other = match without.members.get(number) {
            Some(other) => other.as_slice(),
            None => &[],
        };
        demand(
            came.as_slice() == other,
            "who observes changes what a member is told",
            number,
        )?;
    }
    for (number, answers) in all.answers.iter().enumerate() {
        let other = match without.answers.get(number) {
            Some(other) => other.as_slice(),
            None => &[],
        };
        let is_observer = observes.get(number).copied().unwrap_or(false);
        demand(
            is_observer || answers.as_slice() == other,
            "who observes changes an answer",
            number,
        )?;
    }
    Ok(counts)
}

/// The fewest of these happenings that a shrinking finds by which the same is wrong: it leaves parts out, half of all
/// first and single happenings at last.
pub fn shrink(
    alloc: Global,
    happenings: Vec<Happening>,
    fault: Fault,
) -> Result<Vec<Happening>, AllocError> {
    let mut kept = happenings;
    let mut before = usize::MAX;
    while kept.len() < before {
        before = kept.len();
        kept = leave_out(alloc, kept, fault)?;
    }
    Ok(kept)
}

fn leave_out(
    alloc: Global,
    happenings: Vec<Happening>,
    fault: Fault,
) -> Result<Vec<Happening>, AllocError> {
    let mut kept = happenings;
    let mut part = kept.len() / 2;
    while part != 0 {
        let mut at = 0usize;
        while at < kept.len() {
            let end = at.saturating_add(part).min(kept.len());
            let mut fewer = Vec::new(alloc);
            fewer.extend_from_slice(kept.get(..at).unwrap_or(&[]))?;
            fewer.extend_from_slice(kept.get(end..).unwrap_or(&[]))?;
            match run_all(alloc, fewer.as_slice()) {
                Err(found) if found.what == fault.what => kept = fewer,
                _ => at = end,
            }
        }
        part /= 2;
    }
    Ok(kept)
}
