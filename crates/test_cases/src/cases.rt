//! The cases of a text.
//!
//! Comments say what the text is about. `@ words` begins a configuration, whose lines follow, for
//! the cases below it; it has no lines where they have the demonstration configuration. `= name`
//! begins a case.

use crate::case::Case;
use crate::fault::Fault;
use crate::runner::Runner;
use std::alloc::Global;

/// How often a case is run that looks at a clock.
const TRIES: usize = 3;

/// A case with its name.
#[derive(Drop)]
pub struct NamedCase {
    pub name: String,
    pub case: Case,
}

impl NamedCase {
    /// Runs a case whose script looks at a clock, and compares what it prints; anew, twice at most, where it
    /// differs: on a machine that stops for half a second another time goes by than the script says.
    pub fn passes<F>(&self, alloc: Global, mut run: F) -> Result<(), Fault>
    where
        F: FnMut(&str) -> Result<String, Fault>,
    {
        for tried in 1..=TRIES {
            let printed = run(self.case.script.as_str())?;
            let outcome = self
                .case
                .compare(alloc, self.name.as_str(), printed.as_bytes());
            if tried == TRIES || !matches!(outcome, Err(Fault::Differs(_))) {
                return outcome;
            }
        }
        Ok(())
    }
}

/// Runs each case of a text, and gives their number.
pub fn run_cases<R: Runner>(runner: &mut R, alloc: Global, text: &str) -> Result<usize, Fault> {
    let cases = read_cases(alloc, text)?;
    for named in cases.iter() {
        named.case.check(runner, alloc, named.name.as_str())?;
    }
    Ok(cases.len())
}

/// The cases of a text, for whoever runs their scripts otherwise than by a [`Runner`].
pub fn read_cases(alloc: Global, text: &str) -> Result<Vec<NamedCase>, Fault> {
    let Some((about, configurations)) = text.split_once("\n@ ") else {
        return Err(Fault::Layout("no configuration"));
    };
    if !is_comment(about) {
        return Err(Fault::Layout("a line above all configurations"));
    }
    let mut cases = Vec::new(alloc);
    for below in configurations.split("\n@ ") {
        read_below(alloc, below, &mut cases)?;
    }
    Ok(cases)
}

/// Whether each line is a comment or empty.
fn is_comment(text: &str) -> bool {
    text.lines()
        .all(|line| line.is_empty() || line.starts_with('#'))
}

/// Appends the cases below a configuration.
fn read_below(alloc: Global, text: &str, cases: &mut Vec<NamedCase>) -> Result<(), Fault> {
    let Some((configuration, below)) = text.split_once("\n= ") else {
        return Err(Fault::Layout("a configuration without a case"));
    };
    for case in below.split("\n= ") {
        cases.push(read_case(alloc, behind_first(configuration), case)?)?;
    }
    Ok(())
}

/// A case, whose first line is its name.
fn read_case(alloc: Global, configuration: &str, text: &str) -> Result<NamedCase, Fault> {
    let name = text.lines().next().unwrap_or("");
    let mut case = Case::new(alloc, configuration.trim_end())?;
    case.extend(alloc, behind_first(text))?;
    Ok(NamedCase {
        name: String::from_str(alloc, name)?,
        case,
    })
}

/// The lines behind the first.
fn behind_first(text: &str) -> &str {
    match text.split_once('\n') {
        None => "",
        Some((_, lines)) => lines,
    }
}
