//! The file of one conference, with the texts that wait for it.

ghost use Rattle.std.specs.Prelude.{◌≡◌, ◌≤◌, ◌+◌, ◌++◌, IfOk, OnErr, OnOk, length};
ghost use Rattle.floor_kept.specs.Entries.{entry_line as line_of};
ghost use Rattle.floor_kept.specs.Writing.{turn_lines};
ghost use Rattle.floor_kept.specs.declared.entry.Entry.TheVariants.{End};
ghost use Rattle.floor_keeping.specs.Kept as spec;
ghost use Rattle.floor_keeping.specs.Kept.{ask, asked_of, begins, changed, close, end_missing, lent, put, resumes};

use crate::policy::{Outcome, Policy};
use crate::state::{Asked, Course, Front, State};
use floor_keep::{Finish, KeptFault, Standing};
use floor_kept::{Entry, Writer, entry_line};
use floor_machine::Event;
use std::alloc::{AllocError, Global};
use std::marker::Model;
use std::mem;

/// What was answered to what was asked of a file, or that it can't be kept any more.
#[derive(Clone, Copy, Debug)]
pub(crate) enum Change {
    Begun(Outcome),
    Cut(Outcome),
    Appended(Outcome),
    Synced(Outcome),
    Renamed(Outcome),
    Spoiled(Outcome),
    Emptied(Outcome),
    GivenUp(KeptFault),
}

/// The file of one conference, with the texts that wait for it.
#[derive(Drop)]
pub(crate) struct KeptFile {
    state: State,
    /// The head of a file that is to be made.
    head: String,
    /// The text that is out.
    out: Vec<u8>,
    /// The text to be appended behind that.
    next: Vec<u8>,
}

impl Model for KeptFile {
    ghost use Rattle.std.specs.Prelude.{string_bytes};
    ghost use Rattle.floor_keeping.specs.Kept.{KeptFile};

    ghost Value = { KeptFile };

    ghost view = { λ f. record {
      state = f.state;
      head = string_bytes f.head;
      out = f.out.items;
      next = f.next.items;
    } };
}

impl KeptFile {
    ghost use Rattle.std.specs.Prelude.{string_bytes};

    /// The file of a conference that opens, with its head. Takes no memory.
    pub(crate) fn begins(alloc: Global, head: String) -> KeptFile
        ensures value { result ≡ begins (string_bytes head) }
    {
        KeptFile {
            state: State::with_events(0, Front::New, Course::GoesOn),
            head,
            out: Vec::new(alloc),
            next: Vec::new(alloc),
        }
    }

    /// The file of a conference that goes on, or was closed, as it stands.
    pub(crate) fn resumes(alloc: Global, standing: &Standing) -> Result<KeptFile, AllocError>
        ensures value { IfOk result (λ file. file ≡ resumes standing.now) }
    {
        let front = front_of(standing.stands, standing.torn);
        let course = course_of(standing.finish);
        Ok(KeptFile {
            state: State::with_events(standing.events, front, course),
            head: String::new(alloc),
            out: Vec::new(alloc),
            next: end_missing(alloc, standing.events, standing.finish)?,
        })
    }

    /// What is known of it, but for its texts.
    pub(crate) fn state(&self) -> State
        ensures value { result ≡ self.now.state }
    {
        self.state
    }

    /// What is to be asked next.
    pub(crate) fn next_asked(&self, policy: Policy, now: u64) -> Asked
        ensures value { result ≡ asked_of policy now self.now }
    {
        self.state
            .next_asked(policy, now, has_text(self.next.as_slice()))
    }

    /// What is lent, to be written or appended.
    pub(crate) fn lent(&self) -> &[u8]
        ensures value { result.now ≡ lent self.now }
    {
        match self.state.asked {
            Asked::Begin => self.head.as_bytes(),
            Asked::Append => self.out.as_slice(),
            Asked::Nothing
            | Asked::Cut
            | Asked::Sync
            | Asked::Rename
            | Asked::Spoil
            | Asked::Empty
            | Asked::Report
            | Asked::End => &[],
        }
    }

    /// What is new of the journal, and what is noted beside it, is to be appended. After an error nothing has changed.
    pub(crate) fn put(
        &mut self,
        alloc: Global,
        journal: &[Event],
        notes: &[Entry],
    ) -> Result<(), AllocError>
        requires { self.old.state.events ≤ length journal.now }
        ensures took { OnOk result (self.new ≡ put journal.now notes.now self.old) }
        ensures left { OnErr result (self.new ≡ self.old) }
    {
        add_turn(alloc, &mut self.next, self.state.events, journal, notes)?;
        self.state.events = journal.len();
        Ok(())
    }

    /// The same of a conference that was closed: its end stands behind that, and nothing more is put to the file. After an
    /// error nothing has changed.
    pub(crate) fn close(&mut self, alloc: Global, journal: &[Event]) -> Result<(), AllocError>
        requires { self.old.state.events ≤ length journal.now }
        ensures took { OnOk result (self.new ≡ close journal.now self.old) }
        ensures left { OnErr result (self.new ≡ self.old) }
    {
        self.put(alloc, journal, &[Entry::End])?;
        self.state.course = Course::Closing;
        Ok(())
    }

    /// Behind the asking.
    pub(crate) fn ask(&mut self, alloc: Global, asked: Asked)
        ensures next { self.new ≡ ask asked self.old }
    {
        self.state = self.state.asking(asked);
        match asked {
            Asked::Append => {
                self.out = mem::replace(&mut self.next, Vec::new(alloc));
            }
            Asked::Nothing
            | Asked::Begin
            | Asked::Cut
            | Asked::Sync
            | Asked::Rename
            | Asked::Spoil
            | Asked::Empty
            | Asked::Report
            | Asked::End => {}
        }
    }

    /// This was answered at this time, in microseconds.
    pub(crate) fn change(&mut self, alloc: Global, policy: Policy, now: u64, change: Change)
        ensures next { self.new ≡ changed policy now change self.old }
    {
        self.state = changed_state(self.state, policy, now, change);
        match self.state.front {
            Front::New => {}
            Front::Torn(_) | Front::Whole => self.head = String::new(alloc),
        }
        match self.state.asked {
            Asked::Begin | Asked::Append => {}
            Asked::Nothing
            | Asked::Cut
            | Asked::Sync
            | Asked::Rename
            | Asked::Spoil
            | Asked::Empty
            | Asked::Report
            | Asked::End => self.out = Vec::new(alloc),
        }
    }
}

/// What is known of a file of which this was answered.
fn changed_state(state: State, policy: Policy, now: u64, change: Change) -> State
    ensures value { result ≡ spec.changed_state policy now change state }
{
    match change {
        Change::Begun(outcome) => state.begun(outcome),
        Change::Cut(outcome) => state.cut(policy, outcome),
        Change::Appended(outcome) => state.appended(policy, now, outcome),
        Change::Synced(outcome) => state.synced(policy, outcome),
        Change::Renamed(outcome) => state.renamed(policy, outcome),
        Change::Spoiled(outcome) => state.spoiled(outcome),
        Change::Emptied(outcome) => state.emptied(outcome),
        Change::GivenUp(cause) => state.given_up(policy, cause),
    }
}

/// Whether there is text to be appended.
fn has_text(text: &[u8]) -> bool
    ensures value { result ≡ spec.has_text text.now }
{
    0 < text.len()
}

/// How a file begins of which so many bytes stand, and so many behind those are torn.
fn front_of(stands: usize, torn: usize) -> Front
    ensures value { result ≡ spec.front_of stands torn }
{
    if torn == 0 {
        Front::Whole
    } else {
        Front::Torn(stands)
    }
}

/// What becomes of a file that ends so.
fn course_of(finish: Finish) -> Course
    ensures value { result ≡ spec.course_of finish }
{
    match finish {
        Finish::GoesOn => Course::GoesOn,
        Finish::Closed | Finish::Ended => Course::Closing,
    }
}

/// The line of the end, where it is missing behind so many events of a file that ends so.
fn end_missing(alloc: Global, events: usize, finish: Finish) -> Result<Vec<u8>, AllocError>
    ensures value { IfOk result (λ text. text.items ≡ end_missing events finish) }
{
    match finish {
        Finish::Closed => end_behind(alloc, events),
        Finish::GoesOn | Finish::Ended => Ok(Vec::new(alloc)),
    }
}

/// The line of the end behind so many events.
fn end_behind(alloc: Global, events: usize) -> Result<Vec<u8>, AllocError>
    ensures value { IfOk result (λ text. text.items ≡ line_of (events + 1) End) }
{
    // No memory holds as many events as there are numbers.
    let Some(place) = events.checked_add(1) else {
        return Err(AllocError);
    };
    let line = entry_line(alloc, place, &Entry::End)?;
    Ok(line.into_bytes())
}

/// Puts what a turn adds to a file behind this text, where so many events have their lines. After an error nothing has
/// changed.
fn add_turn(
    alloc: Global,
    text: &mut Vec<u8>,
    done: usize,
    journal: &[Event],
    notes: &[Entry],
) -> Result<(), AllocError>
    requires { done ≤ length journal.now }
    ensures took { OnOk result (text.new.items
        ≡ text.old.items ++ turn_lines done journal.now notes.now) }
    ensures left { OnErr result (text.new.items ≡ text.old.items) }
{
    let len = text.len();
    let mut writer = Writer::new(done);
    match writer.append(alloc, text, journal, notes) {
        Ok(()) => Ok(()),
        Err(_) => {
            text.truncate(len);
            Err(AllocError)
        }
    }
}
