//! A gateway for room systems: it carries BFCP between datagrams, version 2, and the door of a floor control
//! server (RFC 8855, sections 6.2 and 8.3).
//!
//! It runs until its standard input ends: status 0. Status 1 for a fault, which standard error names;
//! 2 for words that are refused.
#![tactic(auto)]

use floor_udp::{UdpFault, run, tell};
use std::io::ErrorKind;
use std::process::ExitCode;

fn main(rt: HostRuntime) -> ExitCode {
    let alloc = rt.alloc();
    let words: Vec<String> = match std::env::args(&rt) {
        Ok(arguments) => match arguments.collect(alloc) {
            Ok(words) => words,
            Err(_) => return ExitCode::from(tell(&mut rt.stderr(), UdpFault::Memory)),
        },
        Err(error) if error.kind() == ErrorKind::OutOfMemory => {
            return ExitCode::from(tell(&mut rt.stderr(), UdpFault::Memory));
        }
        Err(_) => {
            let _outcome = rt.eprintln("error: a word is not UTF-8");
            return ExitCode::from(2);
        }
    };
    ExitCode::from(run(
        rt,
        alloc,
        words.as_slice(),
        rt.stdin(),
        &mut rt.stdout(),
        &mut rt.stderr(),
        rt.stderr(),
    ))
}
