//! Runs pages over the server and its control clients as one value, and tells where one prints something else.
//!
//! Its words are files and folders; a folder stands for the files in it, by name. Each file is printed. Status 1 where a
//! page differs or a file can't be read, which standard error tells.
#![tactic(auto)]

mod page;

use std::fs;
use std::process::ExitCode;
use test_cases::paths_of;

fn main(rt: HostRuntime) -> ExitCode {
    match run(rt) {
        Ok(true) => ExitCode::SUCCESS,
        Ok(false) | Err(_) => ExitCode::from(1),
    }
}

/// Runs the pages of each word. Says whether each printed what it says.
fn run(rt: HostRuntime) -> Result<bool, test_cases::Fault> {
    let mut is_same = true;
    for word in std::env::args(&rt)?.skip(1) {
        for path in paths_of(&rt, word.as_str())?.iter() {
            let text = fs::read_to_string(&rt, path.as_str())?;
            let difference = page::difference(rt.alloc(), text.as_str())?;
            if difference.is_empty() {
                println!(rt; "{path}")?;
            } else {
                is_same = false;
                eprintln!(rt; "{path}: {difference}")?;
            }
        }
    }
    Ok(is_same)
}
