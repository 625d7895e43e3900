//! Runs a script of connections and messages over any number of conferences, and prints what each
//! connection is sent; or runs the journal of a conference that was kept, and prints what its members were
//! told, or how it stood.
//!
//! Standard input holds configurations, a line `---` and the script, or the script alone. Status 0;
//! 1 for a read or write fault or where memory ran out, which standard error names; 2 for refused
//! words, a refused configuration or a bad line.
#![tactic(auto)]

mod journal;
mod refusal;
mod rerun;
mod standing;
mod telling;
#[cfg(test)]
mod tests;
mod usage;
mod words;

use std::env;
use std::io::ErrorKind;
use std::process::ExitCode;

fn main(rt: HostRuntime) -> ExitCode {
    let alloc = rt.alloc();
    let words: Vec<String> = match env::args(&rt) {
        Ok(arguments) => match arguments.skip(1).collect(alloc) {
            Ok(words) => words,
            Err(_) => return ExitCode::from(usage::fail_by_memory(&mut rt.stderr())),
        },
        Err(error) if error.kind() == ErrorKind::OutOfMemory => {
            return ExitCode::from(usage::fail_by_memory(&mut rt.stderr()));
        }
        Err(_) => return ExitCode::from(usage::refuse_words(&mut rt.stderr())),
    };
    let mut stdin = rt.stdin();
    let mut stdout = rt.stdout();
    let mut stderr = rt.stderr();
    ExitCode::from(usage::run_words(&rt, words.as_slice(), &mut stdin, &mut stdout, &mut stderr))
}
