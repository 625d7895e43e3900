//! Runs the cases of files by floorsim's library, and tells where a script prints something else than its
//! case says.
//!
//! Its words are files and folders; a folder stands for the files in it, by name. The word `made`
//! stands for the cases that are made by code. Each file, and each kind of those that are made, is
//! printed with the number of its cases. Status 1 where a case differs or a file can't be run, which
//! standard error tells. A case whose last line is an error ends with status 2, and every other with
//! status 0.
#![tactic(auto)]

mod made;
mod run;
mod scripts;

use std::process::ExitCode;

fn main(rt: HostRuntime) -> ExitCode {
    let words: Vec<String> = match std::env::args(&rt) {
        Err(_) => return ExitCode::from(1),
        Ok(words) => match words.skip(1).collect(rt.alloc()) {
            Err(_) => return ExitCode::from(1),
            Ok(words) => words,
        },
    };
    ExitCode::from(run::run_words(&rt, words.as_slice(), &mut rt.stdout(), &mut rt.stderr()))
}
