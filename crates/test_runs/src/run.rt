//! The words of the program.

use crate::made::run_made;
use crate::scripts::Scripts;
use std::io::Write;
use std::rt::Files;
use test_cases::{Fault, run_word, tell};

/// Runs the cases that the words name, up to the first that differs, and gives the exit status.
pub fn run_words<R, W, E>(rt: &R, words: &[String], output: &mut W, errors: &mut E) -> u8
where
    R: Files + AllocGlobal + Clone + Drop,
    W: Write,
    E: Write,
{
    for word in words {
        if !run_named(rt, word.as_str(), output, errors) {
            return 1;
        }
    }
    0
}

/// Whether the cases that a word names print what they say.
fn run_named<R, W, E>(rt: &R, word: &str, output: &mut W, errors: &mut E) -> bool
where
    R: Files + AllocGlobal + Clone + Drop,
    W: Write,
    E: Write,
{
    if word != "made" {
        return run_word(rt, &mut Scripts, word, output, errors);
    }
    match run_made(rt.alloc(), output) {
        Ok(()) => true,
        Err(Fault::Wrong(what)) => {
            let _told = writeln!(errors, "{word}: {what}");
            false
        }
        Err(fault) => {
            tell(errors, word, &fault);
            false
        }
    }
}
