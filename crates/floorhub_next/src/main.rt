//! A floor control server: conferences of a configuration over TCP, a port for each user and doors for all, and an
//! administrator's lines.
//!
//! What is decided stands in floor_service, a value; here it is asked what is to be done, the system is called, and the
//! value is told what the system answered. One thread waits, for all sockets and standard input at once; the log has
//! another, and so has the text of a configuration that a control client sends. Standard input holds the administrator's
//! lines; each is answered on standard output. Status 0 after a stop where all was in order; 1 for a fault, which
//! standard error names; 2 for words that are refused.
#![tactic(auto)]

mod asking;
mod board;
mod doing;
mod moving;
mod reading;
mod running;
mod shell;
mod system;

use floor_listen::{Ending, ServerFault};
use floor_server::{Program, tell_ending};
use running::run;
use std::io::ErrorKind;
use std::process::ExitCode;

/// The program, as its words are read.
const PROGRAM: Program = Program {
    name: "floorhub_next",
    about: "Serves the floors of conferences (BFCP, RFC 8855) as one value, and reads an administrator's lines.",
    by_loops: true,
    by_json: true,
};

fn main(rt: HostRuntime) -> ExitCode {
    let words: Vec<String> = match std::env::args(&rt) {
        Ok(arguments) => match arguments.collect(rt.alloc()) {
            Ok(words) => words,
            Err(_) => return end(&rt, Ending::Fault(ServerFault::Memory)),
        },
        Err(error) if error.kind() == ErrorKind::OutOfMemory => {
            return end(&rt, Ending::Fault(ServerFault::Memory));
        }
        Err(_) => {
            let _outcome = rt.eprintln("error: a word is not UTF-8");
            return end(&rt, Ending::Refused);
        }
    };
    end(&rt, run(rt, &rt, &PROGRAM, words.as_slice()))
}

/// Ends, and says why.
fn end(rt: &HostRuntime, ending: Ending) -> ExitCode {
    ExitCode::from(tell_ending(&mut rt.stderr(), PROGRAM.name, ending))
}
