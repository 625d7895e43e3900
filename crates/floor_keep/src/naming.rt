//! The names of a folder's files.

ghost use Rattle.std.specs.Prelude.{◌≡◌, ◌≤◌, ◌<◌, IfOk, string_bytes, true};
ghost use Rattle.floor_keep.specs.Naming.{IsEndedName, IsNamed, first_name, further_name, journal_name, new_name};

use floor_words::{numbers_are_read_back, read_u32, read_u64};
use std::alloc::{AllocError, Global};

/// What a file is by its name.
#[derive(Clone, Copy, Debug, PartialEq, Eq)]
pub enum Named {
    /// `<conference>.journal`: the conference goes on.
    Journal(u32),
    /// `<conference>.<seconds>.closed`, or `.closed.2` and so on: it was closed.
    Closed(u32),
    /// `<conference>.<seconds>.unkept`, or `.unkept.2` and so on: it went on unkept.
    Unkept(u32),
    /// None of these.
    Other,
}

/// What a file is by its name. The numbers have ten digits at most, and no zero in front.
pub fn kind_of_name(alloc: Global, name: &str) -> Result<Named, AllocError>
    ensures found { IfOk result (IsNamed name.now) }
{
    numbers_are_read_back();
    let Some((number, rest)) = name.split_once('.') else {
        return Ok(Named::Other);
    };
    let Some(conference) = read_u32(number) else {
        return Ok(Named::Other);
    };
    let journal = journal_name(alloc, conference)?;
    if name == journal.as_str() {
        return Ok(Named::Journal(conference));
    }
    if is_ended(alloc, name, conference, rest, "closed")? {
        return Ok(Named::Closed(conference));
    }
    if is_ended(alloc, name, conference, rest, "unkept")? {
        return Ok(Named::Unkept(conference));
    }
    Ok(Named::Other)
}

/// Whether a name, of which this stands behind the first point, is one of a conference that ended so.
fn is_ended(
    alloc: Global,
    name: &str,
    conference: u32,
    rest: &str,
    kind: &str,
) -> Result<bool, AllocError>
    ensures { IfOk result (λ is_one. is_one ≡ true → IsEndedName kind.now name.now conference) }
{
    let Some((seconds, behind)) = rest.split_once('.') else {
        return Ok(false);
    };
    let Some(seconds) = read_u64(seconds) else {
        return Ok(false);
    };
    let first = ended_name(alloc, conference, seconds, kind, 1)?;
    if name == first.as_str() {
        return Ok(true);
    }
    let Some((_, count)) = behind.split_once('.') else {
        return Ok(false);
    };
    let Some(count) = read_u32(count) else {
        return Ok(false);
    };
    if count < 2 {
        return Ok(false);
    }
    let further = ended_name(alloc, conference, seconds, kind, count)?;
    Ok(name == further.as_str())
}

/// The name of the file of a conference that goes on.
pub(crate) fn journal_name(alloc: Global, conference: u32) -> Result<String, AllocError>
    ensures { IfOk result (λ name. string_bytes name ≡ journal_name conference) }
{
    format!(in alloc; "{conference}.journal")
}

/// The name under which such a file is written.
pub(crate) fn new_name(alloc: Global, conference: u32) -> Result<String, AllocError>
    ensures { IfOk result (λ name. string_bytes name ≡ new_name conference) }
{
    format!(in alloc; "{conference}.new")
}

/// The `count`th name of the file of a conference that ended so at this time.
pub(crate) fn ended_name(
    alloc: Global,
    conference: u32,
    seconds: u64,
    kind: &str,
    count: u32,
) -> Result<String, AllocError>
    ensures first { IfOk result (λ name. count < 2
        → string_bytes name ≡ first_name conference seconds kind.now) }
    ensures further { IfOk result (λ name. 2 ≤ count
        → string_bytes name ≡ further_name conference seconds kind.now count) }
{
    if count < 2 {
        format!(in alloc; "{conference}.{seconds}.{kind}")
    } else {
        format!(in alloc; "{conference}.{seconds}.{kind}.{count}")
    }
}
