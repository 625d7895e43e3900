//! What stands behind the head of the file in which a conference is kept.

ghost use Rattle.std.specs.Prelude.{◌≡◌, true, IfErr, IfOk, None, Some};
ghost use Rattle.floor_kept.specs.Entries.{is_within, place_behind};
ghost use Rattle.floor_kept.specs.Body.{IsBody, IsFault, is_end, next_place};

use crate::entry::Entry;
use crate::reading::read_entry;
use floor_room::Place;
use std::alloc::{AllocError, AllocFailed, Global};

/// The entries of a file, in order, and how many bytes of what was read they are. The bytes behind
/// those are a last line without its end, which no writing of a whole line leaves.
#[derive(Debug, Drop)]
pub struct Body {
    /// The entries.
    pub entries: Vec<Entry>,
    /// How many bytes their lines are.
    pub stands: usize,
    /// The place of the next event behind them.
    pub next: Place,
}

/// A whole line that can't be read.
#[derive(Clone, Copy, Debug, PartialEq, Eq)]
pub struct BadLine {
    /// The place that the next event has.
    pub place: Place,
    /// The line's number among those that were read, from 1 on.
    pub number: usize,
}

/// Why no entries are read.
#[derive(Clone, Copy, Debug, PartialEq, Eq)]
pub enum BodyFault {
    /// A whole line is none of those that the file can have there.
    BadLine(BadLine),
    /// Memory was refused.
    Memory,
}

impl From<AllocError> for BodyFault {
    ghost use Rattle.std.specs.Prelude.{◌≡◌};
    ghost use Rattle.floor_kept.specs.declared.body.BodyFault.TheVariants.{Memory};

    ghost from_gives = { λ _ e. e ≡ Memory };

    fn from(_e: AllocError) -> BodyFault {
        BodyFault::Memory
    }
}

impl<T: Drop> From<AllocFailed<T>> for BodyFault {
    ghost use Rattle.std.specs.Prelude.{◌≡◌};
    ghost use Rattle.floor_kept.specs.declared.body.BodyFault.TheVariants.{Memory};

    ghost from_gives = { λ _ e. e ≡ Memory };

    fn from(_e: AllocFailed<T>) -> BodyFault {
        BodyFault::Memory
    }
}

/// The entries of the lines behind a file's head. Each line ends with a line feed; what stands behind
/// the last of them is told by how many bytes stand before it. Refused by the first whole line that is
/// no entry's at its place, or stands behind the journal's end.
pub fn read_body(alloc: Global, text: &str) -> Result<Body, BodyFault>
    ensures value { IfOk result (λ body. IsBody text.now body.entries.items body.stands) }
    ensures next { IfOk result (λ body. body.next ≡ next_place 1 body.entries.items) }
    ensures refused { IfErr result (IsFault text.now) }
{
    let mut entries = Vec::new(alloc);
    let mut rest = text;
    let mut place: Place = 1;
    let mut is_ended = false;
    loop {
        let Some((line, behind)) = rest.split_once('\n') else {
            return Ok(Body {
                entries,
                stands: text.len() - rest.len(),
                next: place,
            });
        };
        let bad = BadLine {
            place,
            number: entries.as_slice().len() + 1,
        };
        if is_ended {
            return Err(BodyFault::BadLine(bad));
        }
        let Some(entry) = read_entry(alloc, place, line)? else {
            return Err(BodyFault::BadLine(bad));
        };
        place = place_behind(place, &entry);
        is_ended = is_end(&entry);
        entries.push(entry)?;
        rest = behind;
    }
}

/// Whether the entry is the end of the journal.
fn is_end(entry: &Entry) -> bool
    ensures { result ≡ is_end entry.now }
{
    match entry {
        Entry::End => true,
        _ => false,
    }
}

/// The place of the next event behind an entry, which is within a journal.
fn place_behind(place: Place, entry: &Entry) -> Place
    requires { is_within place entry.now ≡ true }
    ensures { result ≡ place_behind place entry.now }
{
    match entry {
        Entry::Happened(_) => place + 1,
        _ => place,
    }
}
