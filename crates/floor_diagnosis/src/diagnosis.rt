//! The diagnosis of a text.

ghost use Rattle.std.specs.Prelude.{◌≡◌, IfOk};
ghost use Rattle.std.specs.Option.{option_map};
ghost use Rattle.floor_config.specs.Reading.{reading};
ghost use Rattle.floor_diagnosis.specs.Diagnosed.{fault_of};

use crate::checks::conferences;
use crate::place::Fault;
use crate::seeking::{Lines, Sought};
use floor_config::{ConfigFault, read_configs};
use std::alloc::{AllocError, Global};

/// How many bytes of beginnings of a text are read at most to find the line of its fault.
const MAX_BYTES: usize = 67_108_864;

/// Why a text is no configuration.
#[derive(Debug, Drop)]
pub struct Diagnosis {
    /// The fault that it is refused by.
    pub fault: ConfigFault,
    /// Where it stands, and what stands there: a line for a person, without a line feed.
    pub line: String,
}

/// Why a text is no configuration; `None` where it is one.
pub fn diagnose(alloc: Global, text: &str) -> Result<Option<Diagnosis>, AllocError>
    ensures value { IfOk result (λ found. option_map (λ d. d.fault) found
        ≡ fault_of (reading text.now)) }
{
    match read_configs(alloc, text) {
        Ok(_) => Ok(None),
        Err(ConfigFault::Memory) => Err(AllocError),
        Err(fault) => {
            let line = place_of(alloc, text, fault)?;
            Ok(Some(Diagnosis { fault, line }))
        }
    }
}

/// Where the fault stands that a text is refused by.
fn place_of(alloc: Global, text: &str, fault: ConfigFault) -> Result<String, AllocError> {
    match toml::table_from_str(alloc, text) {
        Err(error) => syntax(alloc, &error),
        Ok(table) => match conferences(alloc, &table) {
            Err(Fault::Found { line, spot: _ }) => Ok(line),
            Err(Fault::Memory) => Err(AllocError),
            Ok(()) => String::from_str(alloc, fault.name()),
        },
    }
}

/// The line, counted from 1, in which the fault stands that a text is refused by: the value's, the head of the table
/// where a key is missing, and the second's of two that are one. Where the value is of an array over several lines, it
/// is the line that the array begins in. `None` where the text is a configuration, or the line would take too long to
/// find.
pub fn line_of_fault(alloc: Global, text: &str) -> Result<Option<usize>, AllocError> {
    match toml::table_from_str(alloc, text) {
        Err(error) if error.is_memory() => Err(AllocError),
        Err(error) => Ok(Some(line_at(text, error.span().map_or(0, |span| span.start)))),
        Ok(table) => match conferences(alloc, &table) {
            Err(Fault::Found { line: _, spot }) => {
                Lines::new(alloc, text, MAX_BYTES)?.line_of(&Sought::Known(&spot))
            }
            Err(Fault::Memory) => Err(AllocError),
            Ok(()) => Ok(None),
        },
    }
}

/// The line in which a byte of a text stands.
fn line_at(text: &str, at: usize) -> usize {
    let before = text.as_bytes().get(..at).unwrap_or(text.as_bytes());
    let feeds = before.iter().filter(|byte| **byte == b'\n').count();
    feeds.saturating_add(1)
}

/// The line and the column of what isn't TOML, and what the reader says of it, in one line.
fn syntax(alloc: Global, error: &toml::de::Error) -> Result<String, AllocError> {
    if error.is_memory() {
        return Err(AllocError);
    }
    let told = format!(in alloc; "{error}")?;
    let (first, _) = told
        .as_str()
        .split_once('\n')
        .unwrap_or((told.as_str(), ""));
    let place = first
        .strip_prefix("TOML parse error at ")
        .unwrap_or("no TOML");
    let message = error.message().replace(alloc, "\n", " ")?;
    format!(in alloc; "{place}: {}", message.as_str())
}
