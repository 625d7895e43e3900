//! Runs the cases of files by sessions of floor_datagram, and tells where one sends something else than
//! its case says.
//!
//! Its words are files and folders; a folder stands for the files in it, by name. Each file is printed
//! with the number of its cases. Status 1 where a case differs or a file can't be run, which standard
//! error tells.
#![tactic(auto)]

mod scripts;

use scripts::Scripts;
use std::process::ExitCode;
use test_cases::run_word;

fn main(rt: HostRuntime) -> ExitCode {
    let words: Vec<String> = match std::env::args(&rt) {
        Err(_) => return ExitCode::from(1),
        Ok(words) => match words.skip(1).collect(rt.alloc()) {
            Err(_) => return ExitCode::from(1),
            Ok(words) => words,
        },
    };
    for word in words.as_slice() {
        if !run_word(
            &rt,
            &mut Scripts,
            word.as_str(),
            &mut rt.stdout(),
            &mut rt.stderr(),
        ) {
            return ExitCode::from(1);
        }
    }
    ExitCode::SUCCESS
}
