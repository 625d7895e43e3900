//! The files of cases that a word names.

use crate::cases::run_cases;
use crate::fault::Fault;
use crate::runner::Runner;
use std::fs;
use std::io::Write;
use std::path::Path;
use std::rt::Files;

/// Whether the cases of each file that a word names print what they say; a folder stands for the files in
/// it, by name. Each file is printed with the number of its cases, and `errors` is told of the first case
/// that differs.
pub fn run_word<R, T, W, E>(
    rt: &R,
    runner: &mut T,
    word: &str,
    output: &mut W,
    errors: &mut E,
) -> bool
where
    T: Runner,
    R: Files + AllocGlobal + Clone + Drop,
    W: Write,
    E: Write,
{
    let paths = match paths_of(rt, word) {
        Ok(paths) => paths,
        Err(fault) => {
            tell(errors, word, &fault);
            return false;
        }
    };
    for path in paths.iter() {
        if let Err(fault) = run_file(rt, runner, path.as_str(), output) {
            tell(errors, path.as_str(), &fault);
            return false;
        }
    }
    true
}

/// The file that a word names, or the files of the folder, by name.
pub fn paths_of<R>(rt: &R, word: &str) -> Result<Vec<String>, Fault>
where
    R: Files + AllocGlobal + Clone + Drop,
{
    let mut paths = Vec::new(rt.alloc());
    if !Path::new(word).is_dir(rt) {
        paths.push(String::from_str(rt.alloc(), word)?)?;
        return Ok(paths);
    }
    for entry in fs::read_dir(rt, word)? {
        paths.push(String::from_str(rt.alloc(), entry?.path().as_str())?)?;
    }
    paths.sort()?;
    Ok(paths)
}

/// Runs the cases of a file, and prints their number.
fn run_file<R, T, W>(rt: &R, runner: &mut T, path: &str, output: &mut W) -> Result<(), Fault>
where
    T: Runner,
    R: Files + AllocGlobal,
    W: Write,
{
    let text = fs::read_to_string(rt, path)?;
    let count = run_cases(runner, rt.alloc(), text.as_str())?;
    writeln!(output, "{path} {count}")?;
    Ok(())
}

/// Tells why the cases of a file are not run to their end.
pub fn tell<E: Write>(errors: &mut E, path: &str, fault: &Fault) {
    let _written = match fault {
        Fault::Differs(difference) => writeln!(
            errors,
            "{path}: {}: line {} of what it prints\nwanted  {}\nprinted {}",
            difference.case, difference.line, difference.wanted, difference.printed
        ),
        fault => writeln!(errors, "{path}: {fault:?}"),
    };
}
