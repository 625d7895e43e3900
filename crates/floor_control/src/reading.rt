//! A line of a program is read.

ghost use Rattle.std.specs.Prelude.{◌≡◌, ◌≢◌, ◌^◌, Err, IfOk, None, Some, map};
ghost use Rattle.std.specs.List.{after_first, before_first};
ghost use Rattle.floor_words.specs.Words.{is_space};
ghost use Rattle.floor_control.specs.Line.{Reads, alone, asking_of, asking_behind, from_words, leave_line, line_behind, line_of, number_of, of_command, of_name, of_name_upon, only, own_of, some, value_of, word_line};
ghost use Rattle.floor_control.specs.declared.line.LineFault.TheVariants.{Memory};

use crate::line::{Asking, Line, LineFault};
use crate::tag::Tag;
use floor_config::Text;
use floor_console::{Command, parse_line};
use floor_wire::Octets;
use floor_words::{cut_word, read_hexadecimal, read_u32, read_u64, words};
use std::alloc::{AllocError, Global};

/// The conference of a line, and the place that it says behind `from`, where it does.
#[derive(Clone, Copy)]
struct From {
    conference: u32,
    from: Option<u64>,
}

/// What a line, which has no line feed, asks for, and its tag.
///
/// A tag stands at the beginning of the line, behind `@`, and a space ends it; a tag alone asks for
/// nothing, and is an `UnknownCommand`, as is `@` without a tag. The rest is read as a line of the
/// socket's own where it begins with the name of one, and else as the console reads a line. Of what is
/// wrong with a line its form comes first, then its numbers, from left to right, then what is to be kept.
pub fn read_line(alloc: Global, line: &str) -> Result<Asking, AllocError>
    ensures value { IfOk result (λ asking. asking ≡ asking_of line.now) }
{
    match line.strip_prefix('@') {
        Some(behind) => read_tagged(alloc, behind),
        None => asking(None, read_untagged(alloc, line)),
    }
}

/// What a line asks for, of which what stands behind `@` is given.
fn read_tagged(alloc: Global, behind: &str) -> Result<Asking, AllocError>
    ensures { IfOk result (λ asking. asking ≡ asking_behind behind.now) }
{
    let (word, rest) = cut_tag(behind);
    match Tag::of_word(alloc, word)? {
        None => asking(None, Err(LineFault::UnknownCommand)),
        Some(tag) => asking(Some(tag), read_behind(alloc, rest)),
    }
}

/// A text up to its first space, and what stands behind that.
fn cut_tag(text: &str) -> (&str, &str)
    ensures word { result.0.now ≡ before_first is_space text.now }
    ensures rest { result.1.now ≡ after_first is_space text.now }
{
    match text.split_once(' ') {
        None => (text, ""),
        Some((word, rest)) => (word, rest),
    }
}

/// What was read, unless memory was refused.
fn asking(tag: Option<Tag>, line: Result<Line, LineFault>) -> Result<Asking, AllocError>
    ensures value { IfOk result (λ asking. asking ≡ record { tag = tag; line = line }) }
    ensures read { IfOk result (λ _. line ≢ Err Memory) }
{
    match line {
        Err(LineFault::Memory) => Err(AllocError),
        line => Ok(Asking { tag, line }),
    }
}

/// What stands behind a tag asks for: nothing, where it is empty.
fn read_behind(alloc: Global, rest: &str) -> Result<Line, LineFault>
    ensures { Reads (line_behind rest.now) result }
{
    if rest.is_empty() {
        return Err(LineFault::UnknownCommand);
    }
    read_untagged(alloc, rest)
}

/// What a line without a tag asks for.
fn read_untagged(alloc: Global, line: &str) -> Result<Line, LineFault>
    ensures { Reads (line_of line.now) result }
{
    match read_own(alloc, line)? {
        Some(line) => Ok(line),
        None => Ok(of_command(parse_line(alloc, line)?)),
    }
}

/// The line of a command of the console's. A configuration that follows has no file's name.
fn of_command(command: Command) -> Line
    ensures { result ≡ of_command command }
{
    match command {
        Command::Open { path } => {
            if path.as_str() == "." {
                return Line::OpenHere;
            }
            Line::Command(Command::Open { path })
        }
        Command::Journal { conference } => Line::Journal {
            conference,
            from: None,
        },
        command => Line::Command(command),
    }
}

/// What a line of the socket's own asks for; `None` where it begins with the name of none.
fn read_own(alloc: Global, line: &str) -> Result<Option<Line>, LineFault>
    ensures { Reads (own_of line.now) result }
{
    match cut_word(line) {
        None => Ok(None),
        Some(cut) => {
            let words = words(alloc, cut.rest)?;
            of_name(alloc, cut.word, &words)
        }
    }
}

/// The line of this name, of which the words behind it are given; `None` where none of the socket's own
/// has the name.
fn of_name(alloc: Global, name: &str, words: &[&str]) -> Result<Option<Line>, LineFault>
    ensures { Reads (of_name name.now (map (λ w. w.now) words.now)) result }
{
    if name == "list" {
        return some(alone(Line::List, words));
    }
    if name == "metrics" {
        return some(alone(Line::Metrics, words));
    }
    if name == "drain" {
        return some(alone(Line::Drain, words));
    }
    if name == "leave" {
        return some(leave_line(words));
    }
    if name == "word" {
        return some(word_line(alloc, words));
    }
    if name == "journal" {
        let From { conference, from } = from_words(words)?;
        return Ok(Some(Line::Journal { conference, from }));
    }
    if name == "watch" {
        let From { conference, from } = from_words(words)?;
        return Ok(Some(Line::Watch { conference, from }));
    }
    of_name_upon(name, words)
}

/// The line of this name, which a conference alone follows.
fn of_name_upon(name: &str, words: &[&str]) -> Result<Option<Line>, LineFault>
    ensures { result ≡ of_name_upon name.now (map (λ w. w.now) words.now) }
{
    if name == "users" {
        let conference = only(words)?;
        return Ok(Some(Line::Users { conference }));
    }
    if name == "members" {
        let conference = only(words)?;
        return Ok(Some(Line::Members { conference }));
    }
    if name == "floors" {
        let conference = only(words)?;
        return Ok(Some(Line::Floors { conference }));
    }
    if name == "forget" {
        let conference = only(words)?;
        return Ok(Some(Line::Forget { conference }));
    }
    if name == "unwatch" {
        let conference = only(words)?;
        return Ok(Some(Line::Unwatch { conference }));
    }
    if name == "words" {
        let conference = only(words)?;
        return Ok(Some(Line::Words { conference }));
    }
    Ok(None)
}

fn some(line: Result<Line, LineFault>) -> Result<Option<Line>, LineFault>
    ensures { result ≡ some line }
{
    Ok(Some(line?))
}

/// A line of one word.
fn alone(line: Line, words: &[&str]) -> Result<Line, LineFault>
    ensures { result ≡ alone line (map (λ w. w.now) words.now) }
{
    if words.is_empty() {
        return Ok(line);
    }
    Err(LineFault::UnknownCommand)
}

/// The conference that is the only word.
fn only(words: &[&str]) -> Result<u32, LineFault>
    ensures { result ≡ only (map (λ w. w.now) words.now) }
{
    match words {
        [conference] => number_of(conference),
        _ => Err(LineFault::UnknownCommand),
    }
}

/// `<conference> [from <place>]`
fn from_words(words: &[&str]) -> Result<From, LineFault>
    ensures { result ≡ from_words (map (λ w. w.now) words.now) }
{
    match words {
        [conference] => {
            let conference = number_of(conference)?;
            Ok(From {
                conference,
                from: None,
            })
        }
        [conference, word, place] if *word == "from" => {
            let conference = number_of(conference)?;
            let place = place_of(place)?;
            Ok(From {
                conference,
                from: Some(place),
            })
        }
        _ => Err(LineFault::UnknownCommand),
    }
}

/// `leave <conference> <n>`
fn leave_line(words: &[&str]) -> Result<Line, LineFault>
    ensures { result ≡ leave_line (map (λ w. w.now) words.now) }
{
    let [conference, n] = words else {
        return Err(LineFault::UnknownCommand);
    };
    let conference = number_of(conference)?;
    let n = number_of(n)?;
    Ok(Line::Leave { conference, n })
}

/// `word <conference> <key> <hexadecimal or ->`
fn word_line(alloc: Global, words: &[&str]) -> Result<Line, LineFault>
    ensures { Reads (word_line (map (λ w. w.now) words.now)) result }
{
    let [conference, key, word] = words else {
        return Err(LineFault::UnknownCommand);
    };
    let conference = number_of(conference)?;
    let value = value_of(alloc, word)?;
    let key = Text::from_string(String::from_str(alloc, key)?);
    Ok(Line::Word {
        conference,
        key,
        value,
    })
}

/// What a word of hexadecimal says; `None` for `-`.
fn value_of(alloc: Global, word: &str) -> Result<Option<Octets>, LineFault>
    ensures { Reads (value_of word.now) result }
{
    if word == "-" {
        return Ok(None);
    }
    let bytes = read_hexadecimal(alloc, &[word])?;
    Ok(Some(Octets::from_vec(bytes)))
}

/// A number of 32 bits: a conference's or a member's.
fn number_of(word: &str) -> Result<u32, LineFault>
    ensures { result ≡ number_of (2 ^ 32) word.now }
{
    match read_u32(word) {
        Some(number) => Ok(number),
        None => Err(LineFault::BadNumber),
    }
}

/// A place in a journal.
fn place_of(word: &str) -> Result<u64, LineFault>
    ensures { result ≡ number_of (10 ^ 10) word.now }
{
    match read_u64(word) {
        Some(place) => Ok(place),
        None => Err(LineFault::BadNumber),
    }
}
