//! A loop over a hub, driven as a server drives it, so that what it costs can be counted.
//!
//! Its words are how many members a conference has, how many of them watch floor 1, how many messages
//! come at a time, how many turns there are, and what is done in each: `hellos`, the first member says Hello,
//! `pairs`, it asks for a floor and gives it back, or `comings`, another one comes, says Hello and leaves.
//! With `watched` behind them what the events change is gathered. Each socket takes all that it is given. Standard
//! output has how many bytes all sockets took of what the turns tell. Status 1 where something is
//! refused, 2 at other words.
#![tactic(auto)]

mod calls;
mod driven;
mod words;

use std::io::Write;
use std::process::ExitCode;
use words::read_run;

fn main(rt: HostRuntime) -> ExitCode {
    let alloc = rt.alloc();
    let words: Vec<String> = match std::env::args(&rt) {
        Err(_) => return ExitCode::from(1),
        Ok(words) => match words.skip(1).collect(alloc) {
            Err(_) => return ExitCode::from(1),
            Ok(words) => words,
        },
    };
    let Some(run) = read_run(words.as_slice()) else {
        return ExitCode::from(2);
    };
    match driven::run(alloc, run) {
        Ok(taken) => match writeln!(rt.stdout(), "{taken} bytes") {
            Ok(()) => ExitCode::SUCCESS,
            Err(_) => ExitCode::from(1),
        },
        Err(_) => ExitCode::from(1),
    }
}
