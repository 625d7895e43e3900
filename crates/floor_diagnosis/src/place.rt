//! Where in a configuration a check looks, and what ends the walk through it.

use std::alloc::{AllocError, AllocFailed, Global};
use toml::{Table, Value};

/// Behind how many bytes a value is cut, at the next character.
const LONGEST_VALUE: usize = 40;

/// Why the walk ends.
#[derive(Debug, Drop)]
pub enum Fault {
    /// The first fault is found: the line that tells it, and where it stands.
    Found { line: String, spot: Spot },
    /// Memory was refused.
    Memory,
}

impl From<AllocError> for Fault {
    fn from(_e: AllocError) -> Fault {
        Fault::Memory
    }
}

impl<T: Drop> From<AllocFailed<T>> for Fault {
    fn from(_e: AllocFailed<T>) -> Fault {
        Fault::Memory
    }
}

/// A table of an array, counted from 1.
#[derive(Clone, Copy, Debug)]
pub struct Step {
    pub kind: &'static str,
    pub number: usize,
}

/// A table, by the way to it from the document, or a key of it.
#[derive(Debug, Drop)]
pub struct Spot {
    pub steps: Vec<Step>,
    pub key: Option<&'static str>,
}

impl Spot {
    /// Whether a document has it.
    pub fn is_in(&self, document: &Table) -> bool {
        let mut table = document;
        for step in self.steps.iter() {
            match table_at(table, *step) {
                Some(next) => table = next,
                None => return false,
            }
        }
        match self.key {
            Some(key) => table.get(key).is_some(),
            None => true,
        }
    }
}

/// A table of an array of a table, where there is one.
fn table_at<'a>(table: &'a Table, step: Step) -> Option<&'a Table> {
    let array = table.get(step.kind)?.as_array()?;
    array
        .as_slice()
        .get(step.number.checked_sub(1)?)?
        .as_table()
}

/// A table of the text, and how a person finds it: which one it is, counted from 1, and its id, as
/// `conference 3 (id 7), user 17 (id 10)`.
#[derive(Drop)]
pub struct Place<'a> {
    pub table: &'a Table,
    pub path: String,
    /// The way to it.
    steps: Vec<Step>,
}

impl<'a> Place<'a> {
    /// The whole document. Takes no memory.
    pub fn document(alloc: Global, table: &'a Table) -> Place<'a> {
        Place {
            table,
            path: String::new(alloc),
            steps: Vec::new(alloc),
        }
    }

    /// The table of this kind that stands here, in another one.
    pub fn new(
        alloc: Global,
        outer: &Place,
        kind: &'static str,
        number: usize,
        table: &'a Table,
    ) -> Result<Place<'a>, AllocError> {
        let above = outer.path.as_str();
        let between = if above.is_empty() { "" } else { ", " };
        let mut path = format!(in alloc; "{above}{between}{kind} {number}")?;
        if let Some(id) = table.get("id") {
            let id = shown(alloc, id)?;
            path.push_str(" (id ")?;
            path.push_str(id.as_str())?;
            path.push_str(")")?;
        }
        let mut steps = Vec::from_slice(alloc, outer.steps.as_slice())?;
        steps.push(Step { kind, number })?;
        Ok(Place { table, path, steps })
    }

    /// A key of it, or the table itself.
    pub fn spot(&self, alloc: Global, key: Option<&'static str>) -> Result<Spot, AllocError> {
        Ok(Spot {
            steps: Vec::from_slice(alloc, self.steps.as_slice())?,
            key,
        })
    }

    /// Ends the walk with the line that says of this table what is wrong, at a key or as a whole.
    pub fn stop<T>(
        &self,
        alloc: Global,
        key: Option<&'static str>,
        what: &str,
    ) -> Result<T, Fault> {
        let spot = self.spot(alloc, key)?;
        self.stop_at(alloc, spot, what)
    }

    /// The same where the fault stands elsewhere.
    pub fn stop_at<T>(&self, alloc: Global, spot: Spot, what: &str) -> Result<T, Fault> {
        let between = if self.path.is_empty() { "" } else { ": " };
        let line = format!(in alloc; "{}{between}{what}", self.path.as_str())?;
        stopped(line, spot)
    }
}

/// Ends the walk with a line.
pub fn stopped<T>(line: String, spot: Spot) -> Result<T, Fault> {
    Err(Fault::Found { line, spot })
}

/// A value as it is told, in one line: long ones are cut, and tables and arrays are named alone.
pub fn shown(alloc: Global, value: &Value) -> Result<String, AllocError> {
    if value.is_table() {
        return String::from_str(alloc, "a table");
    }
    if value.is_array() {
        return String::from_str(alloc, "an array");
    }
    let told = format!(in alloc; "{value}")?;
    let mut text = String::new(alloc);
    for character in told.as_str().chars() {
        if LONGEST_VALUE < text.len() {
            text.push_str("..")?;
            break;
        }
        text.push(if character == '\n' { ' ' } else { character })?;
    }
    Ok(text)
}
