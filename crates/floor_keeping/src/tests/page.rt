//! Runs as pages: a line `>` is a call, and behind it stands each deed that `next` gives until it gives none, as `<`.
//! `< .` says that it gave none, and when the time is wanted. Behind a line `>>` nothing is asked for: another call comes
//! in the same turn. Times are milliseconds.

use crate::{
    BeginRefusal, Deed, End, Ending, Entry, Event, Files, Finish, Found, FoundFault, KeptFault,
    Left, Outcome, Policy, PutRefusal,
};
use std::alloc::{AllocError, Global};

/// A head of conference 1, by hand.
pub(super) const HEAD: &str = "floorhub journal 1
[[conference]]
id = 1

[[conference.floor]]
id = 1

[[conference.user]]
id = 10
---
";

/// The files of a page, and how late it is, in milliseconds.
#[derive(Drop)]
struct Paged {
    alloc: Global,
    files: Files,
    time: u64,
}

impl Paged {
    /// Does what the words of a line say, and writes what that answers.
    fn call(&mut self, words: &[&str], text: &mut String) -> Result<(), AllocError> {
        let name = words.first().copied().unwrap_or("");
        let conference = number(words.get(1)) as u32;
        let outcome = outcome_of(words.last());
        match name {
            "locked" => self.files.locked(outcome),
            "epoch" => self
                .files
                .epoch(words.get(1).and_then(|word| word.parse().ok())),
            "found" => return self.found(words.get(1..).unwrap_or(&[])),
            "not_found" => self.files.not_found(),
            "read" => return self.read(conference, words.get(2).copied().unwrap_or(""), text),
            "unread" => self.files.unread(conference),
            "begin" => {
                let head = String::from_str(self.alloc, HEAD)?;
                let begun = self.files.begin(conference, head);
                return tell_begun(text, begun);
            }
            "put" => {
                let journal = journal_of(self.alloc, number(words.get(2)))?;
                let notes = notes_of(self.alloc, words.get(3).copied())?;
                let put = self.files.put(conference, &journal, &notes);
                return tell_put(text, put);
            }
            "close" => {
                let journal = journal_of(self.alloc, number(words.get(2)))?;
                let put = self.files.close(conference, &journal);
                return tell_put(text, put);
            }
            "give_up" => self.files.give_up(conference, KeptFault::Memory),
            "begun" => self.files.begun(conference, outcome),
            "cut" => self.files.cut(conference, outcome),
            "appended" => self.files.appended(conference, outcome),
            "synced" => self.files.synced(conference, outcome),
            "renamed" => self.files.renamed(conference, outcome),
            "spoiled" => self.files.spoiled(conference, outcome),
            "emptied" => self.files.emptied(conference, outcome),
            "sync_all" => self.files.sync_all(),
            "time" => self.time = number(words.get(1)),
            _ => {}
        }
        Ok(())
    }

    fn found(&mut self, words: &[&str]) -> Result<(), AllocError> {
        let mut conferences = Vec::new(self.alloc);
        for word in words {
            conferences.push(number(Some(word)) as u32)?;
        }
        match self.files.found(&conferences) {
            Ok(()) => Ok(()),
            Err(_) => Err(AllocError),
        }
    }

    /// A file of the head and this was read: it goes on, where it is one.
    fn read(&mut self, conference: u32, body: &str, text: &mut String) -> Result<(), AllocError> {
        let bytes = file_of(self.alloc, body)?;
        match self.files.read(conference, bytes.as_slice()) {
            None => text.push_str("= nobody waits\n"),
            Some(Err(FoundFault::NotAJournal(at))) => writeln!(
                text,
                "= no journal at {}",
                at.place
            ),
            Some(Err(FoundFault::Memory)) => Err(AllocError),
            Some(Ok(found)) => self.go_on(&found, text),
        }
    }

    fn go_on(&mut self, found: &Found, text: &mut String) -> Result<(), AllocError> {
        let standing = &found.standing;
        let finish = match standing.finish {
            Finish::GoesOn => "goes on",
            Finish::Closed => "closed",
            Finish::Ended => "ended",
        };
        writeln!(text, "= {finish} with {}", standing.events)?;
        tell_begun(text, self.files.resume(standing))
    }

    /// Writes what `next` gives, until it gives none.
    fn tell(&mut self, text: &mut String) -> Result<(), AllocError> {
        for _ in 0..1_000 {
            let now = self.time.saturating_mul(1_000);
            text.push_str("< ")?;
            match self.files.next(now) {
                None => return self.tell_rest(text),
                Some(deed) => self.tell_deed(text, deed)?,
            }
            text.push_str("\n")?;
        }
        text.push_str("< without end\n")
    }

    fn tell_rest(&self, text: &mut String) -> Result<(), AllocError> {
        text.push_str(".")?;
        if let Some(fault) = self.files.fault() {
            write!(text, " {}", fault.name())?;
        }
        if let Some(due) = self.files.due() {
            write!(text, " {}", due / 1_000)?;
        }
        text.push_str("\n")
    }

    fn tell_deed(&self, text: &mut String, deed: Deed) -> Result<(), AllocError> {
        match deed {
            Deed::Lock => text.push_str("lock"),
            Deed::ReadEpoch => text.push_str("epoch"),
            Deed::Find => text.push_str("find"),
            Deed::ReadFile(conference) => write!(text, "read {conference}"),
            Deed::Begin(conference) => {
                let lent = self.files.text(conference);
                let is_head = lent == HEAD.as_bytes();
                write!(text, "begin {conference} {is_head}")
            }
            Deed::Cut { conference, len } => write!(text, "cut {conference} {len}"),
            Deed::Append(conference) => {
                write!(text, "append {conference}")?;
                tell_lines(text, self.files.text(conference))
            }
            Deed::Sync(conference) => write!(text, "sync {conference}"),
            Deed::Rename { conference, ending } => match ending {
                Ending::Closed => write!(text, "rename {conference} closed"),
                Ending::Unkept => write!(text, "rename {conference} unkept"),
            },
            Deed::Spoil(conference) => write!(text, "spoil {conference}"),
            Deed::Empty(conference) => write!(text, "empty {conference}"),
            Deed::Kept(conference) => {
                let kept = self.files.kept(conference).unwrap_or(0);
                write!(text, "kept {conference} {kept}")
            }
            Deed::Over { conference, end } => {
                write!(text, "over {conference} ")?;
                tell_end(text, end)
            }
        }
    }
}

fn number(word: Option<&&str>) -> u64 {
    word.and_then(|word| word.parse().ok()).unwrap_or(0)
}

fn outcome_of(word: Option<&&str>) -> Outcome {
    match word {
        Some(word) if *word == "failed" => Outcome::Failed,
        _ => Outcome::Done,
    }
}

/// A journal of so many events: user 10 joins and leaves, again and again; more than a hundred say that it was closed behind
/// those above a hundred.
fn journal_of(alloc: Global, count: u64) -> Result<Vec<Event>, AllocError> {
    let mut journal = Vec::new(alloc);
    let (events, is_closed) = match count.checked_sub(100) {
        Some(events) => (events, true),
        None => (count, false),
    };
    for place in 0..events {
        let event = if place % 2 == 0 {
            Event::Join { user: 10 }
        } else {
            Event::Leave {
                n: (place / 2).saturating_add(1) as u32,
            }
        };
        match journal.push(event) {
            Ok(()) => {}
            Err(_) => return Err(AllocError),
        }
    }
    if is_closed {
        match journal.push(Event::Close) {
            Ok(()) => {}
            Err(_) => return Err(AllocError),
        }
    }
    Ok(journal)
}

/// `port` notes one.
fn notes_of(alloc: Global, word: Option<&str>) -> Result<Vec<Entry>, AllocError> {
    let mut notes = Vec::new(alloc);
    if word == Some("port") {
        let note = Entry::Port {
            user: 10,
            port: 7010,
        };
        match notes.push(note) {
            Ok(()) => {}
            Err(_) => return Err(AllocError),
        }
    }
    Ok(notes)
}

/// The head, and behind it these lines, each of whose words a slash parts, and a bar the lines.
fn file_of(alloc: Global, body: &str) -> Result<Vec<u8>, AllocError> {
    let mut bytes = Vec::new(alloc);
    bytes.extend_from_slice(HEAD.as_bytes())?;
    for byte in body.as_bytes() {
        let shown = match *byte {
            b'/' => b' ',
            b'|' => b'\n',
            other => other,
        };
        bytes.push(shown)?;
    }
    Ok(bytes)
}

/// Lines, a bar behind each.
fn tell_lines(text: &mut String, lines: &[u8]) -> Result<(), AllocError> {
    for line in std::str::from_utf8(lines).unwrap_or("?").lines() {
        write!(text, " {line} |")?;
    }
    Ok(())
}

fn tell_end(text: &mut String, end: End) -> Result<(), AllocError> {
    match end {
        End::Closed => text.push_str("closed"),
        End::Unkept(cause, left) => {
            let left = match left {
                Left::Renamed => "renamed",
                Left::Spoiled => "spoiled",
                Left::Emptied => "emptied",
                Left::Resumes => "resumes",
                Left::Stands => "stands",
                Left::Missing => "missing",
            };
            write!(text, "unkept {} {left}", cause.name())
        }
    }
}

fn tell_begun(text: &mut String, begun: Result<(), BeginRefusal>) -> Result<(), AllocError> {
    match begun {
        Ok(()) => Ok(()),
        Err(BeginRefusal::Used) => text.push_str("= used\n"),
        Err(BeginRefusal::Memory) => Err(AllocError),
    }
}

fn tell_put(text: &mut String, put: Result<(), PutRefusal>) -> Result<(), AllocError> {
    match put {
        Ok(()) => Ok(()),
        Err(PutRefusal::NotKept) => text.push_str("= not kept\n"),
        Err(PutRefusal::Shorter) => text.push_str("= shorter\n"),
        Err(PutRefusal::Memory) => Err(AllocError),
    }
}

/// What a page prints, run over these files.
fn printed(alloc: Global, files: Files, page: &str) -> Result<String, AllocError> {
    let mut run = Paged {
        alloc,
        files,
        time: 0,
    };
    let mut text = String::new(alloc);
    for line in page.lines() {
        if line.starts_with("<") || line.starts_with("=") {
            continue;
        }
        text.push_str(line)?;
        text.push_str("\n")?;
        let Some(call) = line.strip_prefix(">") else {
            continue;
        };
        let mut words = Vec::new(alloc);
        for word in call.trim_start_matches('>').split_whitespace() {
            words.push(word)?;
        }
        run.call(words.as_slice(), &mut text)?;
        if !call.starts_with(">") {
            run.tell(&mut text)?;
        }
    }
    Ok(text)
}

/// Where a page and what it printed differ: the first line that does, both ways; nothing where none does.
pub(super) fn difference(
    alloc: Global,
    policy: Policy,
    epoch: Option<u64>,
    page: &str,
) -> Result<String, AllocError> {
    let text = printed(alloc, Files::new(alloc, policy, epoch), page)?;
    let mut wanted = page.lines();
    let mut number: u32 = 0;
    for line in text.as_str().lines() {
        number = number.saturating_add(1);
        let other = wanted.next().unwrap_or("nothing");
        if line != other {
            return format!(in alloc; "line {number}: printed {line:?}, wanted {other:?}");
        }
    }
    match wanted.next() {
        Some(line) => format!(in alloc; "printed nothing, wanted {line:?}"),
        None => Ok(String::new(alloc)),
    }
}
