//! The whole file of a kept conference.

ghost use Rattle.std.specs.Prelude.{◌≡◌, ◌≤◌, ◌+◌, IfErr, IfOk};
ghost use Rattle.floor_kept.specs.File.{IsFile, IsFileFault, IsTextBefore, line_of, place_of};

use crate::body::{BadLine, BodyFault, read_body};
use crate::entry::Entry;
use crate::head::{HeadFault, cut_head};
use floor_config::Config;
use floor_room::Place;
use std::alloc::Global;

/// What a file says.
#[derive(Debug, Drop)]
pub struct File {
    /// The configuration that the conference opened with.
    pub config: Config,
    /// The entries, in order.
    pub entries: Vec<Entry>,
    /// How many lines stand before the first entry.
    pub head_lines: usize,
    /// How many bytes of the file stand: what follows is a last line without its end.
    pub stands: usize,
}

/// Why a file isn't read.
#[derive(Clone, Copy, Debug, PartialEq, Eq)]
pub enum FileFault {
    /// It has no head.
    Head(HeadFault),
    /// A whole line is none that the file can have there, with its number in the file.
    BadLine(BadLine),
    /// Memory was refused.
    Memory,
}

impl FileFault {
    /// The place of the event that can't be read; 0 where the head is what can't. Takes no memory.
    pub fn place(&self) -> Place
        ensures value { result ≡ place_of self.now }
    {
        match self {
            FileFault::BadLine(bad) => bad.place,
            FileFault::Head(_) | FileFault::Memory => 0,
        }
    }

    /// The number of the line that can't be read; 0 where the head is what can't. Takes no memory.
    pub fn line(&self) -> usize
        ensures value { result ≡ line_of self.now }
    {
        match self {
            FileFault::BadLine(bad) => bad.number,
            FileFault::Head(_) | FileFault::Memory => 0,
        }
    }
}

/// What the bytes of a file say. Where they aren't UTF-8 they are read up to there: the line that has the
/// first other byte is bad, unless it is the last and lacks its end.
pub fn read_file(alloc: Global, bytes: &[u8]) -> Result<File, FileFault>
    ensures value { IfOk result (λ file.
        IsFile bytes.now file.config file.entries.items file.head_lines file.stands) }
    ensures refused { IfErr result (IsFileFault bytes.now) }
{
    let most = bytes.len();
    let parts = text_of(bytes);
    let cut = match cut_head(alloc, parts.text) {
        Ok(cut) => cut,
        Err(HeadFault::Memory) => return Err(FileFault::Memory),
        Err(fault) => return Err(FileFault::Head(fault)),
    };
    let body = match read_body(alloc, cut.behind) {
        Ok(body) => body,
        Err(BodyFault::Memory) => return Err(FileFault::Memory),
        Err(BodyFault::BadLine(bad)) => {
            return Err(FileFault::BadLine(behind(cut.head.lines, bad, most)));
        }
    };
    let has_more = parts.rest.contains(&b'\n');
    if has_more {
        let bad = BadLine {
            place: body.next,
            number: body.entries.len() + 1,
        };
        return Err(FileFault::BadLine(behind(cut.head.lines, bad, most)));
    }
    Ok(File {
        config: cut.head.config,
        entries: body.entries,
        head_lines: cut.head.lines,
        stands: cut.head.bytes + body.stands,
    })
}

/// A bad line behind so many others, of so many lines at most.
fn behind(lines: usize, bad: BadLine, most: usize) -> BadLine
    requires { lines + bad.number ≤ most }
    ensures place { result.place ≡ bad.place }
    ensures number { result.number ≡ lines + bad.number }
{
    BadLine {
        place: bad.place,
        number: lines + bad.number,
    }
}

/// Bytes, as far as they are text.
#[derive(Clone, Copy, Debug)]
struct TextBefore<'a> {
    text: &'a str,
    rest: &'a [u8],
}

/// The text that bytes begin with, and the bytes behind it.
fn text_of(bytes: &[u8]) -> TextBefore<'_>
    ensures { IsTextBefore bytes.now result.text.now result.rest.now }
{
    match std::str::from_utf8(bytes) {
        Ok(text) => TextBefore { text, rest: &[] },
        Err(error) => {
            let (front, rest) = bytes.split_at(error.valid_up_to());
            match std::str::from_utf8(front) {
                Ok(text) => TextBefore { text, rest },
                Err(_) => unreachable!(),
            }
        }
    }
}
