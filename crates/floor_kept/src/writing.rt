//! What is new of a kept conference, written behind what stands in its file.

ghost use Rattle.std.specs.Prelude.{◌≡◌, ◌+◌, ◌++◌, ◌≤◌, false, IfOk, OnErr, OnOk, drop, length, string_bytes, take};
ghost use Rattle.std.specs.Io.KnownBytes.{Appends};
ghost use Rattle.floor_kept.specs.Entries.{entry_line};
ghost use Rattle.floor_kept.specs.Writing.{Failed, IsPart, Wrote, new_lines, note_lines, turn_lines};

use crate::entry::Entry;
use crate::printing::entry_line;
use floor_machine::Event;
use floor_room::add_lines;
use std::alloc::{AllocError, Global};
use std::io;
use std::io::{ErrorKind, Write};
use std::marker::Model;

/// Why nothing is written.
#[derive(Clone, Copy, Debug, PartialEq, Eq)]
pub enum WriteFault {
    /// A write has failed before.
    Broken,
    /// The sink failed.
    CannotWrite,
    /// Memory was refused.
    Memory,
}

impl From<AllocError> for WriteFault {
    ghost use Rattle.std.specs.Prelude.{◌≡◌};
    ghost use Rattle.floor_kept.specs.declared.writing.WriteFault.TheVariants.{Memory};

    ghost from_gives = { λ _ e. e ≡ Memory };

    fn from(_e: AllocError) -> WriteFault {
        WriteFault::Memory
    }
}

/// Writes a conference's file behind its head: `append` what is new of the journal and what is kept beside it,
/// once for each turn before anything that the events tell is sent, and `note` what stands behind all events. After a fault it
/// writes nothing more: what stands in the file then is a beginning of what was to stand there.
#[derive(Debug, Drop)]
pub struct Writer {
    done: usize,
    is_broken: bool,
}

impl Model for Writer {
    ghost use Rattle.floor_kept.specs.Writing.{Writer};

    ghost Value = { Writer };

    ghost view = { λ w. record { done = w.done; is_broken = w.is_broken } };
}

impl Writer {
    /// The writer of a file in which the lines of so many events stand. Takes no memory.
    pub fn new(done: usize) -> Writer
        ensures value { result ≡ record { done = done; is_broken = false } }
    {
        Writer {
            done,
            is_broken: false,
        }
    }

    /// How many events' lines were written. Takes no memory.
    pub fn done(&self) -> usize
        ensures value { result ≡ self.now.done }
    {
        self.done
    }

    /// Whether a write has failed. Takes no memory.
    pub fn is_broken(&self) -> bool
        ensures value { result ≡ self.now.is_broken }
    {
        self.is_broken
    }

    /// Writes the lines of the events of the journal that aren't written yet, and behind them those of the notes,
    /// and flushes.
    pub fn append<W: Write>(
        &mut self,
        alloc: Global,
        sink: &mut W,
        journal: &[Event],
        notes: &[Entry],
    ) -> Result<(), WriteFault>
        requires { self.old.done ≤ length journal.now }
        ensures took { OnOk result (Wrote self.old self.new (length journal.now)
            (W.contents sink.old) (W.contents sink.new)
            (turn_lines self.old.done journal.now notes.now)) }
        ensures left { OnErr result (Failed self.old self.new
            (W.contents sink.old) (W.contents sink.new)
            (turn_lines self.old.done journal.now notes.now)) }
    {
        if self.is_broken {
            return Err(WriteFault::Broken);
        }
        self.is_broken = true;
        let mut text = lines_behind(alloc, journal, self.done)?;
        add_notes(alloc, &mut text, journal.len() + 1, notes)?;
        match write_whole(sink, text.as_bytes()) {
            Ok(()) => {}
            Err(_) => return Err(WriteFault::CannotWrite),
        }
        self.done = journal.len();
        self.is_broken = false;
        Ok(())
    }

    /// Writes the line of an entry that is no event, behind the lines of the events so far, and flushes.
    pub fn note<W: Write>(
        &mut self,
        alloc: Global,
        sink: &mut W,
        entry: &Entry,
    ) -> Result<(), WriteFault>
        requires { self.old.done ≤ 2000000 }
        ensures took { OnOk result (Wrote self.old self.new self.old.done
            (W.contents sink.old) (W.contents sink.new) (entry_line (self.old.done + 1) entry.now)) }
        ensures left { OnErr result (Failed self.old self.new
            (W.contents sink.old) (W.contents sink.new) (entry_line (self.old.done + 1) entry.now)) }
    {
        if self.is_broken {
            return Err(WriteFault::Broken);
        }
        self.is_broken = true;
        let text = entry_line(alloc, self.done + 1, entry)?;
        match write_whole(sink, text.as_bytes()) {
            Ok(()) => {}
            Err(_) => return Err(WriteFault::CannotWrite),
        }
        self.is_broken = false;
        Ok(())
    }
}

/// The lines of the events behind the first `done`.
fn lines_behind(alloc: Global, journal: &[Event], done: usize) -> Result<String, AllocError>
    requires { done ≤ length journal.now }
    ensures { IfOk result (λ text. string_bytes text ≡ new_lines done journal.now) }
{
    let mut text = String::new(alloc);
    let mut at = done;
    while at < journal.len() {
        at += add_lines(alloc, &mut text, journal, at)?;
    }
    Ok(text)
}

/// Adds the lines of notes, where the next event is the one at this place.
#[tactic(auto, using(crate::proofs::Written::notes_all))]
fn add_notes(
    alloc: Global,
    text: &mut String,
    place: usize,
    notes: &[Entry],
) -> Result<(), AllocError>
    ensures { OnOk result (string_bytes text.new
        ≡ string_bytes text.old ++ note_lines place notes.now) }
{
    for note in notes {
        let line = entry_line(alloc, place, note)?;
        text.push_str(line.as_str())?;
    }
    Ok(())
}

/// Writes all bytes, and flushes. After a fault a beginning of them was written. An interrupted write
/// is a fault like any other.
fn write_whole<W: Write>(sink: &mut W, bytes: &[u8]) -> io::Result<()>
    ensures took { OnOk result (Appends (W.contents sink.old) (W.contents sink.new) bytes.now) }
    ensures left { OnErr result (IsPart (W.contents sink.old) (W.contents sink.new) bytes.now) }
{
    let mut at = 0;
    while at < bytes.len() {
        let count = sink.write(&bytes[at..])?;
        if count == 0 {
            return Err(io::Error::from(ErrorKind::WriteZero));
        }
        at += count;
    }
    sink.flush()
}
