//! What happened in a conference, as `journal` answers it: each event by the line that the console prints.

use crate::known::Known;
use crate::refused::Refused;
use crate::texts::text;
use crate::time::time_where;
use floor_loop::{Event, Loop};
use floor_room::add_lines;
use floor_rpc::{About, ErrorName, JournalEntry, JournalFrom, JournalPart, List};
use std::alloc::{AllocError, Global};

/// How many bytes of a journal are told at once at most, but for one event: our choice.
const MAX_TOLD: usize = 262_144;

/// How many bytes an entry has besides its line, at most.
const ENTRY: usize = 100;

/// The events of a conference from a place on, so many at most, as many as are told at once.
pub fn journal_of(
    alloc: Global,
    hub: &Loop,
    known: &Known,
    asked: &JournalFrom,
) -> Result<JournalPart, Refused> {
    let events = match hub.journal(asked.conference) {
        Ok(events) => events,
        Err(refusal) => return Err(Refused::of_conference(refusal, asked.conference)),
    };
    let from = asked.from.unwrap_or(1);
    let next = (events.len() as u64).saturating_add(1);
    if from < 1 || next < from {
        return Err(Refused::of(ErrorName::BadPlace, About::Place(from)));
    }
    let count = asked.count.unwrap_or(u64::MAX);
    let entries = entries_of(alloc, known, events, from - 1, count)?;
    let next = from.saturating_add(entries.len() as u64);
    Ok(JournalPart {
        entries: List::from_vec(entries),
        next,
    })
}

/// The events behind the first `done`, so many at most, as many as are told at once.
fn entries_of(
    alloc: Global,
    known: &Known,
    events: &[Event],
    done: u64,
    count: u64,
) -> Result<Vec<JournalEntry>, AllocError> {
    let last = done.saturating_add(count).min(events.len() as u64);
    let wanted = events.get(..last as usize).unwrap_or(&[]);
    let mut lines = String::new(alloc);
    let _added = add_lines(alloc, &mut lines, wanted, done as usize)?;
    let mut entries = Vec::new(alloc);
    let mut len = 0usize;
    let mut place = done;
    for line in lines.as_str().lines() {
        len = len.saturating_add(line.len()).saturating_add(ENTRY);
        if !entries.is_empty() && MAX_TOLD < len {
            break;
        }
        place = place.saturating_add(1);
        entries.push(entry_of(alloc, known, place, line)?)?;
    }
    Ok(entries)
}

fn entry_of(
    alloc: Global,
    known: &Known,
    place: u64,
    line: &str,
) -> Result<JournalEntry, AllocError> {
    Ok(JournalEntry {
        place,
        time: time_where(alloc, known.time_at(place))?,
        line: text(alloc, line)?,
    })
}
