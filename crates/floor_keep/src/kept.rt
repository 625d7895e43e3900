//! The file of one conference, while it is served.

ghost use Rattle.std.specs.Prelude.{◌≡◌, ◌≢◌, ◌∷◌, ◌++◌, ◌+◌, ◌<◌, ◌≤◌, ◌↔◌, [], Err, false, length, OnErr, OnOk, true};
ghost use Rattle.std.specs.Io.KnownBytes.{Appends};
ghost use Rattle.floor_kept.specs.Entries.{entry_line, is_key};
ghost use Rattle.floor_kept.specs.Writing.{IsPart, turn_lines};
ghost use Rattle.floor_kept.specs.declared.entry.Entry.TheVariants.{End, Port, Word};
ghost use Rattle.floor_keep.specs.Writing.{IsNothing, of_write_fault};
ghost use Rattle.floor_keep.specs.declared.keeping.Syncing.TheVariants.{Turn};
ghost use Rattle.floor_keep.specs.declared.kept.KeptFault.TheVariants.{CannotSync, Shorter};
ghost use Rattle.floor_keep.specs.declared.kept.NoteFault.TheVariants.{Memory, NotAKey};

use crate::disk::Disk;
use crate::keeping::Syncing;
use floor_config::Text;
use floor_kept::{Entry, WriteFault, Writer, is_key};
use floor_machine::{Event, MAX_EVENTS};
use floor_wire::Octets;
use std::alloc::{AllocError, AllocFailed, Global};

/// Why a conference isn't kept any more.
#[derive(Clone, Copy, Debug, PartialEq, Eq)]
pub enum KeptFault {
    /// The journal has fewer events than the file.
    Shorter,
    /// The file can't be written.
    CannotWrite,
    /// The disk doesn't take what was written.
    CannotSync,
    /// Memory was refused for the lines.
    Memory,
}

impl KeptFault {
    ghost use Rattle.floor_keep.specs.Names.{name_of_kept};

    /// The name of the variant. Takes no memory.
    pub fn name(&self) -> &'static str
        ensures value { result.now ≡ name_of_kept self.now }
    {
        match self {
            KeptFault::Shorter => "Shorter",
            KeptFault::CannotWrite => "CannotWrite",
            KeptFault::CannotSync => "CannotSync",
            KeptFault::Memory => "Memory",
        }
    }
}

impl From<WriteFault> for KeptFault {
    ghost from_gives = { λ fault e. e ≡ of_write_fault fault };

    fn from(fault: WriteFault) -> KeptFault {
        match fault {
            WriteFault::Broken | WriteFault::CannotWrite => KeptFault::CannotWrite,
            WriteFault::Memory => KeptFault::Memory,
        }
    }
}

/// Why nothing is noted.
#[derive(Clone, Copy, Debug, PartialEq, Eq)]
pub enum NoteFault {
    /// What the word is kept by is empty, or has a space or a line feed.
    NotAKey,
    /// The conference isn't kept.
    NotKept,
    /// Memory was refused.
    Memory,
}

impl<T: Drop> From<AllocFailed<T>> for NoteFault {
    ghost from_gives = { λ _ e. e ≡ Memory };

    fn from(_e: AllocFailed<T>) -> NoteFault {
        NoteFault::Memory
    }
}

/// The file of a conference, open behind what stands in it.
///
/// `note_port` and `note_word` say what is to stand beside the events, `append` writes that and what is new of the
/// journal, and `sync` asks the disk for it. After a fault nothing more is written.
#[derive(Drop)]
pub struct Kept<F> {
    alloc: Global,
    conference: u32,
    file: F,
    writer: Writer,
    /// What is to stand behind the events of the next turn that is appended.
    notes: Vec<Entry>,
    /// Whether anything was written since the disk was asked.
    is_unsynced: bool,
}

impl<F: Disk + Drop> Kept<F> {
    /// The file of a conference in which the lines of so many events stand. Takes no memory.
    pub fn new(alloc: Global, conference: u32, file: F, done: usize) -> Kept<F>
        ensures conference { result.conference ≡ conference }
        ensures file { result.file ≡ file }
        ensures done { result.writer ≡ record { done = done; is_broken = false } }
        ensures notes { result.notes.items ≡ [] }
    {
        Kept {
            alloc,
            conference,
            file,
            writer: Writer::new(done),
            notes: Vec::new(alloc),
            is_unsynced: false,
        }
    }

    /// The conference. Takes no memory.
    pub fn conference(&self) -> u32
        ensures value { result ≡ self.now.conference }
    {
        self.conference
    }

    /// How many events' lines stand in the file. Takes no memory.
    pub fn done(&self) -> usize
        ensures value { result ≡ self.now.writer.done }
    {
        self.writer.done()
    }

    /// Whether anything was written since the disk was asked for it. Takes no memory.
    pub fn is_unsynced(&self) -> bool
        ensures value { result ≡ self.now.is_unsynced }
    {
        self.is_unsynced
    }

    /// Has a user's port stand behind the events of the turn. After an error nothing has changed.
    pub fn note_port(&mut self, user: u16, port: u16) -> Result<(), NoteFault>
        ensures took { OnOk result
            (self.new.notes.items ≡ self.old.notes.items ++ Port user port ∷ []) }
        ensures left { OnErr result (self.new.notes.items ≡ self.old.notes.items) }
        ensures file { self.new.file ≡ self.old.file }
        ensures writer { self.new.writer ≡ self.old.writer }
    {
        self.notes.push(Entry::Port { user, port })?;
        Ok(())
    }

    /// Has a word stand behind the events of the turn. After an error nothing has changed.
    pub fn note_word(&mut self, key: Text, value: Option<Octets>) -> Result<(), NoteFault>
        ensures took { OnOk result
            (self.new.notes.items ≡ self.old.notes.items ++ Word key value ∷ []) }
        ensures not_a_key { result ≡ Err NotAKey ↔ is_key key ≡ false }
        ensures left { OnErr result (self.new.notes.items ≡ self.old.notes.items) }
        ensures file { self.new.file ≡ self.old.file }
        ensures writer { self.new.writer ≡ self.old.writer }
    {
        if !is_key(key.as_str()) {
            return Err(NoteFault::NotAKey);
        }
        self.notes.push(Entry::Word { key, value })?;
        Ok(())
    }

    /// Writes what is new of the journal, and what is to stand behind it, by one write. Where the disk is asked in
    /// each turn, it has taken that. After an error a beginning of it stands behind what stood there.
    pub fn append(&mut self, syncing: Syncing, journal: &[Event]) -> Result<(), KeptFault>
        ensures took { OnOk result (Appends (F.contents self.old.file) (F.contents self.new.file)
            (turn_lines self.old.writer.done journal.now self.old.notes.items)) }
        ensures done { OnOk result (self.new.writer.done ≡ length journal.now) }
        ensures notes { OnOk result (self.new.notes.items ≡ []) }
        ensures synced { OnOk result (syncing ≡ Turn
            → ¬ (IsNothing self.old.writer.done journal.now self.old.notes.items)
            → F.is_synced self.new.file) }

        ensures shorter { result ≡ Err Shorter ↔ (length journal.now < self.old.writer.done) }
        ensures left { OnErr result (IsPart (F.contents self.old.file) (F.contents self.new.file)
            (turn_lines self.old.writer.done journal.now self.old.notes.items)) }
        ensures conference { self.new.conference ≡ self.old.conference }
    {
        if journal.len() < self.writer.done() {
            return Err(KeptFault::Shorter);
        }
        if journal.len() == self.writer.done() && self.notes.is_empty() {
            return Ok(());
        }
        self.write(journal)?;
        match syncing {
            Syncing::Turn => self.sync(),
            Syncing::Second | Syncing::Never => Ok(()),
        }
    }

    /// Writes what is new of the journal, and what is to stand behind it.
    fn write(&mut self, journal: &[Event]) -> Result<(), KeptFault>
        requires { self.old.writer.done ≤ length journal.now }
        ensures took { OnOk result (Appends (F.contents self.old.file) (F.contents self.new.file)
            (turn_lines self.old.writer.done journal.now self.old.notes.items)) }
        ensures done { OnOk result (self.new.writer.done ≡ length journal.now) }
        ensures notes { OnOk result (self.new.notes.items ≡ []) }
        ensures unsynced { self.new.is_unsynced ≡ true }

        ensures others { result ≢ Err Shorter }
        ensures left { OnErr result (IsPart (F.contents self.old.file) (F.contents self.new.file)
            (turn_lines self.old.writer.done journal.now self.old.notes.items)) }
        ensures conference { self.new.conference ≡ self.old.conference }
    {
        self.is_unsynced = true;
        let notes = self.notes.as_slice();
        self.writer
            .append(self.alloc, &mut self.file, journal, notes)?;
        self.notes.clear();
        Ok(())
    }

    /// Asks the disk for what was written, where there is anything, and waits for that.
    pub fn sync(&mut self) -> Result<(), KeptFault>
        ensures synced { OnOk result (self.old.is_unsynced ≡ true → F.is_synced self.new.file) }
        ensures refused { OnErr result (result ≡ Err CannotSync) }
        ensures file { F.contents self.new.file ≡ F.contents self.old.file }
        ensures writer { self.new.writer ≡ self.old.writer }
        ensures notes { self.new.notes ≡ self.old.notes }
        ensures conference { self.new.conference ≡ self.old.conference }
    {
        if !self.is_unsynced {
            return Ok(());
        }
        match self.file.sync() {
            Ok(()) => {
                self.is_unsynced = false;
                Ok(())
            }
            Err(_) => Err(KeptFault::CannotSync),
        }
    }

    /// Writes the end behind the events that stand in the file, and has the disk take it, where it is asked at all.
    pub(crate) fn add_end(&mut self, syncing: Syncing) -> Result<(), KeptFault>
        ensures took { OnOk result (Appends (F.contents self.old.file) (F.contents self.new.file)
            (entry_line (self.old.writer.done + 1) End)) }
        ensures conference { self.new.conference ≡ self.old.conference }
    {
        if self.writer.done() > MAX_EVENTS {
            return Err(KeptFault::Shorter);
        }
        self.is_unsynced = true;
        self.writer.note(self.alloc, &mut self.file, &Entry::End)?;
        match syncing {
            Syncing::Never => Ok(()),
            Syncing::Second | Syncing::Turn => self.sync(),
        }
    }

    /// What it is written to.
    pub(crate) fn file(&mut self) -> &mut F {
        &mut self.file
    }
}
