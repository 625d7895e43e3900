//! What the file of a conference says, for whoever lets it go on.

ghost use Rattle.std.specs.Prelude.{◌≡◌, ◌+◌, ◌^◌, ◌<◌, ◌++◌, ◌∷◌, [], IfErr, IfOk, length, None, OnOk};
ghost use Rattle.floor_kept.specs.Body.{events_of};
ghost use Rattle.floor_kept.specs.File.{line_of, place_of};
ghost use Rattle.floor_kept.specs.declared.entry.Entry.{Entry as Given};
ghost use Rattle.floor_keep.specs.Found.{IsFound, IsFoundFault, IsStanding, finish_behind, finish_of, notes_before, notes_of, port_behind, port_noted};
ghost use Rattle.floor_keep.specs.declared.found.Finish.TheVariants.{GoesOn};

use floor_config::Config;
use floor_kept::{Entry, FileFault, read_file};
use floor_machine::Event;
use floor_room::Place;
use std::alloc::{AllocError, AllocFailed, Global};

/// How a file ends.
#[derive(Clone, Copy, Debug, PartialEq, Eq)]
pub enum Finish {
    /// The conference goes on.
    GoesOn,
    /// Its last event is the close, and no end stands behind that.
    Closed,
    /// Its last line is the end.
    Ended,
}

/// What stands beside the events of a file.
#[derive(Debug, Drop)]
pub struct Note {
    /// How many events stand before it.
    pub behind: usize,
    /// A port or a word.
    pub entry: Entry,
}

/// What a file says.
#[derive(Debug, Drop)]
pub struct Found {
    /// The configuration that the conference opened with.
    pub config: Config,
    /// The events, in order. Whether the machine takes them isn't looked at.
    pub events: Vec<Event>,
    pub standing: Standing,
}

/// How a file stands, and what is in it beside the events.
#[derive(Debug, Drop)]
pub struct Standing {
    pub conference: u32,
    /// How many events there are.
    pub events: usize,
    /// What stands beside them, in order.
    pub notes: Vec<Note>,
    /// How many lines the head has.
    pub head_lines: usize,
    /// How many bytes of the file stand.
    pub stands: usize,
    /// How many bytes stand behind those: a last line without its end.
    pub torn: usize,
    pub finish: Finish,
}

/// Where a file can't be read, or an event isn't taken.
#[derive(Clone, Copy, Debug, PartialEq, Eq)]
pub struct NotAJournal {
    pub conference: u32,
    /// The place of the event that can't be read or isn't taken; 0 where the head can't be read.
    pub place: Place,
    /// The number of the line in the file, from 1 on; 0 for the head.
    pub line: usize,
}

/// Why a file's bytes say nothing.
#[derive(Clone, Copy, Debug, PartialEq, Eq)]
pub enum FoundFault {
    /// They are no file of the conference.
    NotAJournal(NotAJournal),
    /// Memory was refused.
    Memory,
}

impl From<AllocError> for FoundFault {
    ghost use Rattle.std.specs.Prelude.{◌≡◌};
    ghost use Rattle.floor_keep.specs.declared.found.FoundFault.TheVariants.{Memory};

    ghost from_gives = { λ _ e. e ≡ Memory };

    fn from(_e: AllocError) -> FoundFault {
        FoundFault::Memory
    }
}

impl<T: Drop> From<AllocFailed<T>> for FoundFault {
    ghost use Rattle.std.specs.Prelude.{◌≡◌};
    ghost use Rattle.floor_keep.specs.declared.found.FoundFault.TheVariants.{Memory};

    ghost from_gives = { λ _ e. e ≡ Memory };

    fn from(_e: AllocFailed<T>) -> FoundFault {
        FoundFault::Memory
    }
}

impl Standing {
    /// The fault of a file whose event of this place isn't taken. Takes no memory.
    pub fn refused_at(&self, place: Place) -> NotAJournal
        ensures whose { result.conference ≡ self.now.conference }
        ensures place { result.place ≡ place }
        ensures line { self.now.head_lines + (place + notes_before place self.now.notes.items) < 2 ^ 64
            → result.line ≡ self.now.head_lines + (place + notes_before place self.now.notes.items) }
    {
        NotAJournal {
            conference: self.conference,
            place,
            line: self.line_of(place as usize),
        }
    }

    /// The number of the line of the event of this place.
    fn line_of(&self, place: usize) -> usize
        ensures { self.now.head_lines + (place + notes_before place self.now.notes.items) < 2 ^ 64
            → result ≡ self.now.head_lines + (place + notes_before place self.now.notes.items) }
    {
        let before = notes_before(&self.notes, place);
        self.head_lines.saturating_add(place.saturating_add(before))
    }

    /// The port of a user who was added with one: the last that is noted. Takes no memory.
    pub fn port_of(&self, user: u16) -> Option<u16>
        ensures found { result ≡ port_behind None user self.now.notes.items }
    {
        port_in(&self.notes, user)
    }
}

/// How many of these stand before the event of this place.
fn notes_before(notes: &[Note], place: usize) -> usize
    ensures { result ≡ notes_before place notes.now }
{
    notes.iter().filter(|note| note.behind < place).count()
}

/// The port of a user that was noted last.
#[tactic(auto, using(crate::proofs::Gathered::ports_all))]
fn port_in(notes: &[Note], user: u16) -> Option<u16>
    ensures { result ≡ port_behind None user notes.now }
{
    let mut found = None;
    for note in notes {
        found = port_noted(found, user, &note.entry);
    }
    found
}

/// The port of a user behind an entry, where it was this one before.
fn port_noted(before: Option<u16>, user: u16, entry: &Entry) -> Option<u16>
    ensures { result ≡ port_noted before user entry.now }
{
    match entry {
        Entry::Port { user: of, port } if *of == user => Some(*port),
        _ => before,
    }
}

/// What the bytes of a conference's file say. Refused where they are no file of that conference.
pub fn found_of(alloc: Global, conference: u32, bytes: &[u8]) -> Result<Found, FoundFault>
    ensures value { IfOk result (IsFound conference bytes.now) }
    ensures refused { IfErr result (IsFoundFault conference bytes.now) }
{
    let file = match read_file(alloc, bytes) {
        Ok(file) => file,
        Err(FileFault::Memory) => return Err(FoundFault::Memory),
        Err(fault) => return Err(FoundFault::NotAJournal(fault_at(conference, fault))),
    };
    if file.config.conference() != conference {
        return Err(FoundFault::NotAJournal(NotAJournal {
            conference,
            place: 0,
            line: 0,
        }));
    }
    let gathered = gather(alloc, file.entries)?;
    Ok(Found {
        config: file.config,
        standing: Standing {
            conference,
            events: gathered.events.len(),
            notes: gathered.notes,
            head_lines: file.head_lines,
            stands: file.stands,
            torn: bytes.len() - file.stands,
            finish: gathered.finish,
        },
        events: gathered.events,
    })
}

/// Where a file can't be read.
pub(crate) fn fault_at(conference: u32, fault: FileFault) -> NotAJournal
    ensures whose { result.conference ≡ conference }
    ensures place { result.place ≡ place_of fault }
    ensures line { result.line ≡ line_of fault }
{
    NotAJournal {
        conference,
        place: fault.place(),
        line: fault.line(),
    }
}

/// The events among entries, and what stands beside them.
#[derive(Debug, Drop)]
struct Gathered {
    events: Vec<Event>,
    notes: Vec<Note>,
    finish: Finish,
}

/// Parts the entries of a file.
fn gather(alloc: Global, entries: Vec<Entry>) -> Result<Gathered, AllocError>
    ensures events { IfOk result (λ gathered. gathered.events.items ≡ events_of entries.items) }
    ensures notes { IfOk result (λ gathered. gathered.notes.items ≡ notes_of 0 entries.items) }
    ensures finish { IfOk result (λ gathered. gathered.finish ≡ finish_of GoesOn entries.items) }
{
    let mut gathered = Gathered {
        events: Vec::new(alloc),
        notes: Vec::new(alloc),
        finish: Finish::GoesOn,
    };
    for entry in entries {
        gathered.add(entry)?;
    }
    Ok(gathered)
}

impl Gathered {
    /// Adds the next entry. With want of memory it may be lost.
    fn add(&mut self, entry: Entry) -> Result<(), AllocError>
        ensures events { OnOk result
            (self.new.events.items ≡ self.old.events.items ++ events_of (entry ∷ [])) }
        ensures notes { OnOk result (self.new.notes.items
            ≡ self.old.notes.items ++ notes_of (length self.old.events.items) (entry ∷ [])) }
        ensures finish { OnOk result (self.new.finish ≡ finish_behind self.old.finish entry) }
    {
        self.finish = finish_behind(self.finish, &entry);
        match entry {
            Entry::Happened(event) => self.add_event(event),
            Entry::Port { user, port } => self.add_note(Entry::Port { user, port }),
            Entry::Word { key, value } => self.add_note(Entry::Word { key, value }),
            Entry::End => Ok(()),
        }
    }

    /// Adds an event. With want of memory it is lost.
    fn add_event(&mut self, event: Event) -> Result<(), AllocError>
        ensures events { OnOk result (self.new.events.items ≡ self.old.events.items ++ event ∷ []) }
        ensures finish { self.new.finish ≡ self.old.finish }
        ensures notes { self.new.notes ≡ self.old.notes }
    {
        match self.events.push(event) {
            Ok(()) => Ok(()),
            Err(_) => Err(AllocError),
        }
    }

    /// Adds an entry that is no event. With want of memory it is lost.
    fn add_note(&mut self, entry: Entry) -> Result<(), AllocError>
        ensures events { self.new.events ≡ self.old.events }
        ensures finish { self.new.finish ≡ self.old.finish }
        ensures notes { OnOk result (self.new.notes.items ≡ self.old.notes.items
            ++ record { behind = length self.old.events.items; entry = entry } ∷ []) }
    {
        let note = Note {
            behind: self.events.len(),
            entry,
        };
        match self.notes.push(note) {
            Ok(()) => Ok(()),
            Err(_) => Err(AllocError),
        }
    }
}

/// How a file ends behind an entry, where it ended so before that.
pub(crate) fn finish_behind(before: Finish, entry: &Entry) -> Finish
    ensures { result ≡ finish_behind before entry.now }
{
    match entry {
        Entry::Happened(Event::Close) => Finish::Closed,
        Entry::Happened(_) => Finish::GoesOn,
        Entry::End => Finish::Ended,
        Entry::Port { user: _, port: _ } | Entry::Word { key: _, value: _ } => before,
    }
}
