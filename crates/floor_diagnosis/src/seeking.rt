//! The line of a text in which a key stands.
//!
//! The reader of TOML keeps no places, so the line is looked for: the first of those up to which the text has the
//! key.

use crate::place::Spot;
use crate::unknown::unknown_places;
use std::alloc::{AllocError, Global};
use toml::Table;

/// A key that is looked for.
#[derive(Drop)]
pub enum Sought<'a> {
    /// One that says nothing, by what a person is told of its place.
    Unknown(&'a str),
    /// One that is known, or a table.
    Known(&'a Spot),
}

impl Sought<'_> {
    /// Whether a document has it.
    fn is_in(&self, alloc: Global, table: &Table) -> Result<bool, AllocError> {
        match self {
            Sought::Unknown(place) => {
                let found = unknown_places(alloc, table)?;
                Ok(found.iter().any(|other| other.as_str() == *place))
            }
            Sought::Known(spot) => Ok(spot.is_in(table)),
        }
    }
}

/// A text whose lines are looked at, and how many of its beginnings may still be read.
#[derive(Drop)]
pub struct Lines<'a> {
    alloc: Global,
    text: &'a str,
    /// How many bytes the first line has with its line feed, the first two, and so on.
    ends: Vec<usize>,
    /// How many bytes may still be read.
    bytes: usize,
}

impl<'a> Lines<'a> {
    /// The lines of a text, of whose beginnings so many bytes are read at most.
    pub fn new(alloc: Global, text: &'a str, bytes: usize) -> Result<Lines<'a>, AllocError> {
        let mut ends = Vec::new(alloc);
        for (at, byte) in text.as_bytes().iter().enumerate() {
            if *byte == b'\n' {
                ends.push(at.saturating_add(1))?;
            }
        }
        ends.push(text.len())?;
        Ok(Lines {
            alloc,
            text,
            ends,
            bytes,
        })
    }

    /// The first line up to which the text has what is sought, by halves: once it is there it stays. `None` once too
    /// much was read.
    pub fn line_of(&mut self, sought: &Sought) -> Result<Option<usize>, AllocError> {
        let mut without = 0usize;
        let mut with = self.ends.len();
        for _ in 0..usize::BITS {
            if with <= without.saturating_add(1) {
                return Ok(Some(with));
            }
            let middle = without.midpoint(with);
            match self.has(middle, sought)? {
                None => return Ok(None),
                Some(true) => with = middle,
                Some(false) => without = middle,
            }
        }
        Ok(Some(with))
    }

    /// Whether so many lines have what is sought, together with those behind them that end what they begin.
    fn has(&mut self, lines: usize, sought: &Sought) -> Result<Option<bool>, AllocError> {
        for end in self.ends.iter().skip(lines.saturating_sub(1)) {
            let Some(left) = self.bytes.checked_sub(*end) else {
                return Ok(None);
            };
            self.bytes = left;
            let beginning = self.text.get(..*end).unwrap_or(self.text);
            match toml::table_from_str(self.alloc, beginning) {
                Err(error) if error.is_memory() => return Err(AllocError),
                Err(_) => {}
                Ok(table) => return Ok(Some(sought.is_in(self.alloc, &table)?)),
            }
        }
        Ok(Some(true))
    }
}
