//! A server with its control clients as one value, driven by numbers that look random: clients of both kinds ask for what
//! they may and may not, in lines that are cut anywhere, take what they are told by pieces or not at all, end and fail, and
//! members are beside them.
//!
//! Looked at is that each line with an id has one answer, in order; that who watches a conference is told what its events
//! show, by its journal followed beside the service, each place once and in order; that no observer is told a word; and that
//! the same run without those who observe has the same events, tells each member the same bytes, and answers the others the
//! same. Its words are `FIRST COUNT STEPS`: so many seeds from the first on, each with so many steps. Of the first that
//! fails the fewest happenings are printed by which the same is wrong. Status 1 where something is wrong, 2 at other words.
#![tactic(auto)]

mod asking;
mod case;
mod client;
mod drawing;
mod fault;
mod happening;
mod journals;
mod peer;
mod run;

use case::{draw, run_all, shrink};
use floor_words::{read_u32, read_u64};
use std::alloc::Global;
use std::io::Write;
use std::process::ExitCode;

fn main(rt: HostRuntime) -> ExitCode {
    let words: Vec<String> = match std::env::args(&rt) {
        Err(_) => return ExitCode::from(1),
        Ok(words) => match words.skip(1).collect(rt.alloc()) {
            Err(_) => return ExitCode::from(1),
            Ok(words) => words,
        },
    };
    let [first, count, steps] = words.as_slice() else {
        return ExitCode::from(2);
    };
    let (Some(first), Some(count), Some(steps)) = (
        read_u64(first.as_str()),
        read_u64(count.as_str()),
        read_u32(steps.as_str()),
    ) else {
        return ExitCode::from(2);
    };
    let passes = run_seeds(rt.alloc(), first, count, steps, &mut rt.stdout());
    ExitCode::from(if passes { 0 } else { 1 })
}

/// Runs the seeds, and prints what was counted, or the case of the first that fails. Says whether none does.
fn run_seeds<W: Write>(alloc: Global, first: u64, count: u64, steps: u32, output: &mut W) -> bool {
    let (mut happenings, mut answered, mut told) = (0usize, 0u64, 0u64);
    for place in 0..count {
        let seed = first.wrapping_add(place);
        let mut drawn = Vec::new(alloc);
        if draw(seed, steps, &mut drawn).is_err() {
            return false;
        }
        happenings = happenings.saturating_add(drawn.len());
        match run_all(alloc, drawn.as_slice()) {
            Ok(counts) => {
                answered = answered.saturating_add(counts.answered);
                told = told.saturating_add(counts.told);
            }
            Err(fault) => {
                let (what, whose) = (fault.what, fault.whose);
                let _told = writeln!(
                    output,
                    "# seed {seed}, {happenings} happenings: {what}, {whose}"
                );
                if let Ok(shrunk) = shrink(alloc, drawn, fault) {
                    for happening in shrunk.iter() {
                        let _told = writeln!(output, "{happening:?}");
                    }
                }
                return false;
            }
        }
    }
    writeln!(
        output,
        "{happenings} happenings, {answered} answers, {told} told"
    )
    .is_ok()
}
