//! The head of the file in which a conference is kept: the configuration that it opened with.

ghost use Rattle.std.specs.Prelude.{◌≡◌, ◌≤◌, ◌++◌, [], ◌∷◌, ℕ, IfErr, IfOk, List, MatchOption, string_bytes};
ghost use Rattle.toml.specs.Data.{members_depth};
ghost use Rattle.toml.specs.Parse.{parse_document};
ghost use Rattle.toml.specs.View.{table_view};
ghost use Rattle.floor_kept.specs.Head.{IsHead, IsHeadFault, IsHeadOf, document_of, divider, first_line};
ghost use Rattle.floor_kept.specs.NewHeads.{AreHeadsIn};
ghost use Rattle.floor_kept.specs.steps.Cut.{IsCut, IsHeadBefore, IsNotOne, IsUncut};
ghost use Rattle.floor_kept.specs.steps.Heads.{AreHeadsOfValues, IsHeadOfValue};
ghost use Rattle.floor_config.specs.Reading.{reading};

use floor_config::{Config, ConfigFault, read_configs};
use std::alloc::{AllocError, AllocFailed, Global};
use toml::{Table, Value};

/// The first line.
const FIRST_LINE: &str = "floorhub journal 1\n";

/// The line that ends the head.
const DIVIDER: &str = "---";

/// The configuration of a file's head, and how long the head is.
#[derive(Debug, Drop)]
pub struct Head {
    /// The configuration that the conference opened with.
    pub config: Config,
    /// How many bytes the head has: the rest of the text are the lines of entries.
    pub bytes: usize,
    /// How many lines the head has.
    pub lines: usize,
}

/// Why a text has no head. The first that applies is answered.
#[derive(Clone, Copy, Debug, PartialEq, Eq)]
pub enum HeadFault {
    /// It doesn't begin with `floorhub journal 1` and a line feed.
    FirstLine,
    /// No line behind the first is `---`.
    Divider,
    /// What stands between them is no configuration.
    Refused(ConfigFault),
    /// It is that of more conferences than one, or of none.
    Conferences,
    /// Memory was refused.
    Memory,
}

impl From<AllocError> for HeadFault {
    ghost use Rattle.std.specs.Prelude.{◌≡◌};
    ghost use Rattle.floor_kept.specs.declared.head.HeadFault.TheVariants.{Memory};

    ghost from_gives = { λ _ e. e ≡ Memory };

    fn from(_e: AllocError) -> HeadFault {
        HeadFault::Memory
    }
}

impl<T: Drop> From<AllocFailed<T>> for HeadFault {
    ghost use Rattle.std.specs.Prelude.{◌≡◌};
    ghost use Rattle.floor_kept.specs.declared.head.HeadFault.TheVariants.{Memory};

    ghost from_gives = { λ _ e. e ≡ Memory };

    fn from(_e: AllocFailed<T>) -> HeadFault {
        HeadFault::Memory
    }
}

/// The head of a file's text.
pub fn read_head(alloc: Global, text: &str) -> Result<Head, HeadFault>
    ensures value { IfOk result (λ head. IsHead text.now head.config head.bytes head.lines) }
    ensures refused { IfErr result (IsHeadFault text.now) }
{
    let cut = cut_head(alloc, text)?;
    Ok(cut.head)
}

/// The head of a file's text, and what stands behind it.
#[derive(Debug, Drop)]
pub(crate) struct CutHead<'a> {
    pub head: Head,
    pub behind: &'a str,
}

/// Cuts the head off a file's text.
pub(crate) fn cut_head(alloc: Global, text: &str) -> Result<CutHead<'_>, HeadFault>
    ensures value { IfOk result (λ cut. IsHeadBefore text.now
        cut.head.config cut.head.bytes cut.head.lines cut.behind.now) }
    ensures refused { IfErr result (IsHeadFault text.now) }
{
    let Some(rest) = text.strip_prefix(FIRST_LINE) else {
        return Err(HeadFault::FirstLine);
    };
    let Some(cut) = cut_table(alloc, rest)? else {
        return Err(HeadFault::Divider);
    };
    let config = match one_config(alloc, cut.table.as_str()) {
        Ok(config) => config,
        Err(fault) => return Err(fault),
    };
    let bytes = text.len() - cut.behind.len();
    Ok(CutHead {
        head: Head {
            config,
            bytes,
            lines: cut.lines,
        },
        behind: cut.behind,
    })
}

/// The text before the first divider, how many lines a head of it has, and what stands behind the divider.
#[derive(Debug, Drop)]
struct CutTable<'a> {
    table: String,
    lines: usize,
    behind: &'a str,
}

/// Cuts the lines before the first divider off a text; `None` where no line is it.
fn cut_table(alloc: Global, text: &str) -> Result<Option<CutTable<'_>>, AllocError>
    ensures { IfOk result (λ found. MatchOption found (IsUncut text.now)
        (λ cut. IsCut text.now (string_bytes cut.table) cut.lines cut.behind.now)) }
{
    let mut table = String::new(alloc);
    let mut lines = 2usize;
    let mut rest = text;
    while let Some((line, behind)) = rest.split_once('\n') {
        if line == DIVIDER {
            return Ok(Some(CutTable {
                table,
                lines,
                behind,
            }));
        }
        table.push_str(line)?;
        table.push_str("\n")?;
        lines += 1;
        rest = behind;
    }
    Ok(None)
}

/// The configuration of a text that has one conference.
fn one_config(alloc: Global, text: &str) -> Result<Config, HeadFault>
    ensures value { IfOk result (λ config. reading text.now ≡ Ok (config ∷ [])) }
    ensures refused { IfErr result (IsNotOne text.now) }
{
    match read_configs(alloc, text) {
        Ok(mut configs) => match configs.pop() {
            Some(config) if configs.is_empty() => Ok(config),
            _ => Err(HeadFault::Conferences),
        },
        Err(ConfigFault::Memory) => Err(HeadFault::Memory),
        Err(fault) => Err(HeadFault::Refused(fault)),
    }
}

/// A head as it is written, and the configuration that is read of it.
#[derive(Debug, Drop)]
pub struct NewHead {
    /// The text.
    pub text: String,
    /// The configuration.
    pub config: Config,
}

/// The head for a conference's table, with all its keys, and the configuration that it is. It is read
/// back before it is given: so where a text of the table has a line that is the divider it is refused.
pub fn head_of(alloc: Global, conference: Table) -> Result<NewHead, HeadFault>
    ensures value { IfOk result (λ head.
        IsHeadOf (table_view conference) (string_bytes head.text) head.config) }
{
    let document = document_of(alloc, conference)?;
    let text = text_of(alloc, &document)?;
    let head = read_head(alloc, text.as_str())?;
    if head.bytes != text.as_str().len() {
        return Err(HeadFault::Divider);
    }
    Ok(NewHead {
        text,
        config: head.config,
    })
}

/// The heads of the conferences of a configuration's text, in its order. Refused as its reader refuses it, and
/// where one of them has no head.
pub fn heads_of(alloc: Global, text: &str) -> Result<Vec<NewHead>, HeadFault>
    ensures heads { IfOk result (λ heads. AreHeadsIn text.now heads.items) }
{
    match read_configs(alloc, text) {
        Ok(_) => {}
        Err(ConfigFault::Memory) => return Err(HeadFault::Memory),
        Err(fault) => return Err(HeadFault::Refused(fault)),
    }
    let mut document = match toml::table_from_str(alloc, text) {
        Ok(document) => document,
        Err(error) if error.is_memory() => return Err(HeadFault::Memory),
        Err(_) => return Err(HeadFault::Refused(ConfigFault::Syntax)),
    };
    match document.remove("conference") {
        Some(Value::Array(conferences)) => heads_in(alloc, conferences),
        _ => Err(HeadFault::Conferences),
    }
}

/// The heads of the tables among values, which are tables all.
fn heads_in(alloc: Global, conferences: Vec<Value>) -> Result<Vec<NewHead>, HeadFault>
    ensures heads { IfOk result (λ heads. AreHeadsOfValues conferences.items heads.items) }
{
    let mut heads = Vec::new(alloc);
    for conference in conferences {
        heads.push(head_in(alloc, conference)?)?;
    }
    Ok(heads)
}

/// The head of a value that is a conference's table.
fn head_in(alloc: Global, conference: Value) -> Result<NewHead, HeadFault>
    ensures value { IfOk result (λ head. IsHeadOfValue conference head) }
{
    match conference {
        Value::Table(table) => head_of(alloc, table),
        _ => Err(HeadFault::Refused(ConfigFault::WrongType)),
    }
}

/// The document in which a table is the one conference.
fn document_of(alloc: Global, conference: Table) -> Result<Table, AllocError>
    ensures { IfOk result (λ table. table_view table ≡ document_of (table_view conference)) }
{
    let key = String::from_str(alloc, "conference")?;
    let mut conferences = Vec::new(alloc);
    conferences.push(Value::Table(conference))?;
    let mut document = Table::new(alloc);
    document.insert(key, Value::Array(conferences))?;
    Ok(document)
}

/// The text of a head for a document.
fn text_of(alloc: Global, document: &Table) -> Result<String, HeadFault>
    ensures { IfOk result (λ text. (table : List ℕ)
        × (string_bytes text ≡ first_line ++ (table ++ divider))
        × (members_depth (table_view document.now) ≤ 80
        → parse_document table ≡ Some (table_view document.now))) }
{
    let mut text = String::from_str(alloc, FIRST_LINE)?;
    match toml::table_to_string(alloc, document) {
        Ok(table) => text.push_str(table.as_str())?,
        Err(toml::ser::Error::OutOfMemory) => return Err(HeadFault::Memory),
        Err(_) => return Err(HeadFault::Refused(ConfigFault::Syntax)),
    }
    text.push_str("---\n")?;
    Ok(text)
}
