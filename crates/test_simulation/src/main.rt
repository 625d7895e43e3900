//! A server as a value, driven by numbers that look random: sockets come, by ports and doors, send messages cut anywhere,
//! read nothing, end in every way; accepts and writes fail; time goes by; conferences are opened and closed.
//!
//! Each run is looked at beside a model: what the floor machine alone makes of each conference's journal, and what may
//! happen when. Its words are `FIRST COUNT STEPS [FILE ..]`: so many seeds from the first on, each with so many steps, and
//! files of cases; a folder stands for the files in it, by name. Of the first seed that fails the fewest happenings are
//! printed by which the same is wrong, as the text of a case. Status 1 where something is wrong, 2 at other words.
#![tactic(auto)]

mod case;
mod coming;
mod deeds;
mod drawing;
mod fault;
mod happening;
mod journal;
mod meeting;
mod model;
mod peer;
mod resting;
mod run;
mod saying;
mod serving;
mod world;

use case::{run_seed, run_text, shrink};
use floor_words::{read_u32, read_u64};
use std::alloc::Global;
use std::fs;
use std::io::Write;
use std::process::ExitCode;
use std::rt::Files;
use test_cases::paths_of;

fn main(rt: HostRuntime) -> ExitCode {
    let words: Vec<String> = match std::env::args(&rt) {
        Err(_) => return ExitCode::from(1),
        Ok(words) => match words.skip(1).collect(rt.alloc()) {
            Err(_) => return ExitCode::from(1),
            Ok(words) => words,
        },
    };
    let [first, count, steps, files @ ..] = words.as_slice() else {
        return ExitCode::from(2);
    };
    let (Some(first), Some(count), Some(steps)) = (
        read_u64(first.as_str()),
        read_u64(count.as_str()),
        read_u32(steps.as_str()),
    ) else {
        return ExitCode::from(2);
    };
    let mut passes = run_seeds(rt.alloc(), first, count, steps, &mut rt.stdout());
    for word in files {
        passes = passes && run_word(&rt, word.as_str(), &mut rt.stdout());
    }
    ExitCode::from(if passes { 0 } else { 1 })
}

/// Runs the seeds, and prints what was counted, or the case of the first that fails. Says whether none does.
fn run_seeds<W: Write>(alloc: Global, first: u64, count: u64, steps: u32, output: &mut W) -> bool {
    let (mut happenings, mut messages) = (0usize, 0u64);
    for place in 0..count {
        let seed = first.wrapping_add(place);
        let mut drawn = Vec::new(alloc);
        let found = run_seed(alloc, seed, steps, &mut drawn);
        happenings = happenings.saturating_add(drawn.len());
        match found {
            Ok(served) => messages = messages.saturating_add(served),
            Err(fault) => {
                let (what, whose) = (fault.what, fault.whose);
                let _told = writeln!(
                    output,
                    "# seed {seed}, {happenings} happenings: {what}, {whose}"
                );
                if let Ok(shrunk) = shrink(alloc, drawn, fault) {
                    for happening in shrunk.iter() {
                        let _told = writeln!(output, "{happening:?}");
                    }
                }
                return false;
            }
        }
    }
    writeln!(output, "{happenings} happenings, {messages} messages").is_ok()
}

/// Runs the cases of a file or folder, and prints the number of each one's happenings. Says whether nothing is wrong.
fn run_word<R, W>(rt: &R, word: &str, output: &mut W) -> bool
where
    R: Files + AllocGlobal + Clone + Drop,
    W: Write,
{
    let Ok(paths) = paths_of(rt, word) else {
        return false;
    };
    for path in paths.iter() {
        let Ok(text) = fs::read_to_string(rt, path.as_str()) else {
            return false;
        };
        match run_text(rt.alloc(), text.as_str()) {
            Ok(count) if writeln!(output, "{path} {count}").is_ok() => {}
            Ok(_) => return false,
            Err(fault) => {
                let _told = writeln!(output, "{path}: {}, {}", fault.what, fault.whose);
                return false;
            }
        }
    }
    true
}
