//! Runs that go on where memory is refused, and print what may not change by it.
//!
//! - `meetings`: three conferences of one hub, a line of each in turn. Conference 2 may be refused, and
//!   what the connections of the others are sent is printed.
//! - `loops`: the same over a loop, as a server of a hub makes its calls: what the sockets of conferences
//!   1 and 3 take is printed.
//! - `threads`: two conferences of a server and the calls of its threads, one after another. Either may be
//!   refused, and all is printed: the refused conference is broken off, or as it would be without.
//! - `client`: what a client asks and hears, which is the same whatever is refused.
//!
//! Standard input is a number and the names of runs: so many allocations are made ahead of each. So one
//! build under `rt try --fail-alloc N`, which refuses the Nth allocation, has each of them refused in
//! turn where it is run with 0, 1, 2 and so on. Standard error tells what is refused, and what the sockets
//! of conference 2 of `loops` take. Status 1 where what may not be refused is: a run's beginning, what is
//! printed, conference 1 or 3 of `meetings` and `loops`.
#![tactic(auto)]

mod client;
mod loops;
mod meeting;
mod meetings;
mod run;
mod step;
mod threads;

use run::run;
use std::process::ExitCode;

fn main(rt: HostRuntime) -> ExitCode {
    match run(
        &rt,
        rt.alloc(),
        &mut rt.stdin(),
        &mut rt.stdout(),
        &mut rt.stderr(),
    ) {
        Ok(()) => ExitCode::SUCCESS,
        Err(_) => ExitCode::from(1),
    }
}
