//! A floor control server: conferences of a configuration behind a few event loops, a port for each user, and an
//! administrator's lines.
//!
//! Standard input holds the lines; each is answered on standard output. Programs administer by a control socket,
//! where one is asked for. Status 0 after `stop` where
//! all was in order; 1 for a fault, which standard error names; 2 for words that are refused.
#![tactic(auto)]

use floor_listen::{Ending, ServerFault};
use floor_server::{Program, tell_ending};
use floor_socket::{Descriptors, run};
use std::io::ErrorKind;
use std::process::ExitCode;

/// The program, as its words are read.
const PROGRAM: Program = Program {
    name: "floorhub",
    about: "Serves the floors of conferences (BFCP, RFC 8855) by event loops, and reads an administrator's lines.",
    by_loops: true,
    by_json: false,
};

/// Standard input and output.
const STANDARD: Descriptors = Descriptors {
    input: 0,
    output: 1,
};

fn main(rt: HostRuntime) -> ExitCode {
    let alloc = rt.alloc();
    let words: Vec<String> = match std::env::args(&rt) {
        Ok(arguments) => match arguments.collect(alloc) {
            Ok(words) => words,
            Err(_) => return end(&rt, Ending::Fault(ServerFault::Memory)),
        },
        Err(error) if error.kind() == ErrorKind::OutOfMemory => {
            return end(&rt, Ending::Fault(ServerFault::Memory));
        }
        Err(_) => {
            let _outcome = rt.eprintln("error: a word is not UTF-8");
            return end(&rt, Ending::Refused);
        }
    };
    ExitCode::from(run(
        rt,
        alloc,
        &PROGRAM,
        words.as_slice(),
        &mut rt.stdin(),
        &mut rt.stdout(),
        &mut rt.stderr(),
        rt.stderr(),
        Some(STANDARD),
    ))
}

/// Ends before anything is run.
fn end(rt: &HostRuntime, ending: Ending) -> ExitCode {
    ExitCode::from(tell_ending(&mut rt.stderr(), PROGRAM.name, ending))
}
