//! The line that a client has at work, and its answer.

ghost use Rattle.std.specs.Prelude.{◌≡◌, ◌==◌, ◌&&◌, IfOk, OnOk, drop, length, nat_lt, not, position, string_bytes, take};
ghost use Rattle.std.specs.Str.{IsCharBoundary};
ghost use Rattle.floor_control.specs.Tag.{tagged};
ghost use Rattle.floor_socket.specs.Tasks.{HandedOut, HasSame, IsClear, IsNew, IsWhole, first_of, is_held, left, len_at_once, watches};

use floor_control::{Done, Metrics, Octets, Opening, Standing, Tag, Text, add_tagged};
use floor_poll::Fresh;
use std::alloc::{AllocError, Global};
use std::collections::VecDeque;

/// Behind so many bytes of an answer others are served before it goes on.
const ENOUGH_AT_ONCE: usize = 32_768;

/// A line at work: what its client hasn't taken yet of the answer, and what comes behind that.
#[derive(Drop)]
pub struct Task {
    tag: Option<Tag>,
    /// What is added to.
    pub text: String,
    /// How many bytes of the text were handed out.
    at: usize,
    /// Whether a part of the answer was handed out.
    pub is_begun: bool,
    pub step: Step,
}

/// What comes behind the text that is there.
#[derive(Drop)]
pub enum Step {
    /// Nothing: the answer ends.
    End,
    /// The next lines belong to a configuration.
    Gather(Opening),
    /// A configuration is read.
    Read,
    /// The next conference of a configuration is opened.
    Open {
        configs: VecDeque<Fresh>,
        count: usize,
    },
    /// A loop opens a conference, and these are left.
    Opening {
        configs: VecDeque<Fresh>,
        count: usize,
    },
    /// A loop does something to a conference.
    Acting {
        conference: u32,
        done: Done,
    },
    /// A loop keeps a word in a conference's file.
    Wording {
        conference: u32,
        key: Text,
        value: Option<Octets>,
    },
    /// The answer waits until what the client watches has come to its place.
    Hold {
        conference: u32,
        place: u64,
    },
    /// A loop tells how a conference stands.
    Standing {
        conference: u32,
        then: Then,
    },
    /// More of a journal is to be asked for.
    Journal(Journal),
    /// A loop lists some more of a journal.
    Listing(Journal),
    /// A loop tells lines that are the whole answer.
    Lines,
    /// A conference is forgotten once all who watch it were told up to its last place.
    Forget {
        conference: u32,
        place: u64,
    },
    /// A loop forgets a conference.
    Forgetting {
        conference: u32,
    },
    /// Watching begins.
    Watch {
        conference: u32,
        from: u64,
    },
    /// How the next conferences stand is to be asked for.
    List(List),
    /// A loop tells how they stand.
    ListPart(List),
    /// What the next loop counted is to be asked for.
    Count {
        place: usize,
        counts: Metrics,
    },
    /// A loop tells what it counted.
    Counting {
        place: usize,
        counts: Metrics,
    },
}

impl Step {
    /// Whether it is on the way to watch a conference.
    pub fn watches(&self, conference: u32) -> bool
        ensures value { result ≡ watches conference self.now }
    {
        match self {
            Step::Standing {
                conference: of,
                then: Then::Watch { .. },
            } => *of == conference,
            Step::Watch { conference: of, .. } => *of == conference,
            _ => false,
        }
    }
}

/// What is told once it is known how a conference stands.
#[derive(Clone, Copy, Debug)]
pub enum Then {
    /// How it stands.
    Status,
    /// Its journal, from this place on.
    Journal { from: Option<u64> },
    /// That it is watched from this place on, or from the next.
    Watch { from: Option<u64> },
    /// That it is forgotten.
    Forget,
}

/// How far a journal is listed.
#[derive(Clone, Copy, Debug)]
pub struct Journal {
    pub conference: u32,
    /// How many of its events are listed or left out.
    pub done: usize,
    /// How many it had when it was asked for.
    pub until: usize,
}

/// How far the conferences are listed.
#[derive(Drop)]
pub struct List {
    /// All, in ascending order.
    pub conferences: Vec<u32>,
    /// How many of them are listed.
    pub at: usize,
    /// The loop that is asked next.
    pub place: usize,
    /// How those stand that are listed next, as far as loops have told.
    pub found: Vec<Standing>,
    /// How many lines there are.
    pub count: usize,
}

/// What became of a line at work.
#[derive(Drop)]
pub enum Went {
    /// It goes on at once.
    On(Task),
    /// It goes on once something comes.
    Waits(Task),
    /// It is answered, or has no answer.
    Over,
    /// There is none.
    Idle,
}

impl Task {
    /// A line with nothing of its answer yet.
    pub fn new(alloc: Global, tag: Option<Tag>, step: Step) -> Task
        ensures value { IsNew tag step result }
    {
        Task {
            tag,
            text: String::new(alloc),
            at: 0,
            is_begun: false,
            step,
        }
    }

    /// Lets go of what isn't handed out.
    pub fn clear(&mut self)
        ensures value { IsClear self.old self.new }
    {
        self.text.clear();
        self.at = 0;
    }

    /// Whether text is left that may be handed out: not while it waits for what the client watches.
    pub fn has_text(&self) -> bool
        ensures value { result ≡ (nat_lt 0 (length (left self.now)) && not (is_held self.now.step)) }
    {
        self.at < self.text.len() && !is_held(&self.step)
    }

    /// The next lines of the text, each behind the tag.
    pub fn next_text(&mut self, alloc: Global) -> Result<String, AllocError>
        ensures out { IfOk result (λ out. IsWhole self.old
            → string_bytes out ≡ tagged self.old.tag (first_of (left self.old))) }
        ensures next { OnOk result (IsWhole self.old → HandedOut self.old self.new) }
    {
        let lines = first_lines(rest_of(self.text.as_str(), self.at));
        let mut out = String::new(alloc);
        add_tagged(&mut out, &self.tag, lines)?;
        self.at = self.at.saturating_add(lines.len());
        self.is_begun = true;
        self.let_go();
        Ok(out)
    }

    /// Lets go of the text where all of it is handed out.
    fn let_go(&mut self)
        ensures value { IsWhole self.old → HasSame self.old self.new }
    {
        if self.text.len() <= self.at {
            self.clear();
        }
    }
}

/// Whether an answer waits for what its client watches.
fn is_held(step: &Step) -> bool
    ensures value { result ≡ is_held step.now }
{
    matches!(step, Step::Hold { .. })
}

/// What stands behind so many bytes of a text; nothing where a character doesn't begin there.
fn rest_of(text: &str, at: usize) -> &str
    ensures value { IsCharBoundary text.now at → result.now ≡ drop at text.now }
{
    text.get(at..).unwrap_or("")
}

/// The lines that are handed out at once: whole lines, and at least one.
fn first_lines(text: &str) -> &str
    ensures value { result.now ≡ first_of text.now }
    ensures behind { IsCharBoundary text.now (len_at_once text.now) }
{
    front_of(text, lines_len(text))
}

/// So many bytes of a text; all where a character doesn't begin there.
fn front_of(text: &str, len: usize) -> &str
    ensures value { IsCharBoundary text.now len → result.now ≡ take len text.now }
{
    text.get(..len).unwrap_or(text)
}

/// How many bytes they have.
fn lines_len(text: &str) -> usize
    ensures value { result ≡ len_at_once text.now }
{
    let bytes = text.as_bytes();
    match line_end(behind(bytes)) {
        Some(place) => ENOUGH_AT_ONCE + place + 1,
        None => bytes.len(),
    }
}

/// Where the first line feed of these bytes is.
fn line_end(bytes: &[u8]) -> Option<usize>
    ensures value { result ≡ position (λ b. b == 10) bytes.now }
{
    bytes.iter().position(|byte| *byte == b'\n')
}

/// What stands behind the bytes that are handed out in any case.
fn behind(bytes: &[u8]) -> &[u8]
    ensures value { result.now ≡ drop 32768 bytes.now }
{
    &bytes[ENOUGH_AT_ONCE.min(bytes.len())..]
}
