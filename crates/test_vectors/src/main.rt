//! Reads the messages of files, and tells where one means something else than its file says.
//!
//! Its words are the files. Each is printed with how many of its messages a server reads and how many a
//! client does. Status 1 where one differs or a file can't be read, which standard error tells.
#![tactic(auto)]

mod fault;
mod meaning;
mod vectors;

use std::process::ExitCode;

fn main(rt: HostRuntime) -> ExitCode {
    let words: Vec<String> = match std::env::args(&rt) {
        Err(_) => return ExitCode::from(1),
        Ok(words) => match words.skip(1).collect(rt.alloc()) {
            Err(_) => return ExitCode::from(1),
            Ok(words) => words,
        },
    };
    for word in words.iter() {
        match vectors::read_file(&rt, word.as_str(), &mut rt.stdout()) {
            Ok(()) => {}
            Err(fault) => {
                fault::tell(&mut rt.stderr(), word.as_str(), &fault);
                return ExitCode::from(1);
            }
        }
    }
    ExitCode::SUCCESS
}
