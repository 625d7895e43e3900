//! Limits that take long to reach, each reached and gone beyond: the two million events of the journal of a conference
//! behind its lock, and the 65,535 numbers of a conference's floor requests.
//!
//! A line for each says what was done and what is refused then. It is a program of its own, which the gate proves
//! and builds as a server is built: under a sanitizer it takes a quarter of an hour.
#![tactic(auto)]

mod booth;
mod ended;
mod messages;
mod numbers;

use ended::Ended;
use std::alloc::Global;
use std::io::Write;
use std::process::ExitCode;
use std::sync::Wait;

fn main(rt: HostRuntime) -> ExitCode {
    match show(&rt, rt.alloc(), &mut rt.stdout()) {
        Ok(()) => ExitCode::SUCCESS,
        Err(_) => ExitCode::from(1),
    }
}

/// Shows one limit after another.
fn show<R: Wait, W: Write>(rt: &R, alloc: Global, output: &mut W) -> Result<(), Ended> {
    booth::show(rt, alloc, output)?;
    numbers::show(alloc, output)
}
