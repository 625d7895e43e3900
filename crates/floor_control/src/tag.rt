//! The tag that a line may begin with, and that each line of its answer bears.

ghost use Rattle.std.specs.Prelude.{◌≡◌, ◌++◌, ◌∷◌, [], IfOk, OnOk, codes, string_bytes};
ghost use Rattle.std.specs.List.{list_all};
ghost use Rattle.floor_control.specs.Tag.{is_tag, is_tag_byte, lines_behind, mark, parts_behind, tag_of, tagged};

use floor_config::Text;
use std::alloc::{AllocError, Global};
use std::fmt::Write;
use std::marker::Model;

/// How many characters a tag has at most: our choice, so that what an answer repeats is short.
pub const MAX_TAG: usize = 32;

/// A tag: 1 to 32 letters and digits of ASCII, `-`, `_` and `.`. It stands for nothing.
#[derive(Debug, Drop)]
pub struct Tag {
    text: Text,
}

impl Model for Tag {
    ghost use Rattle.std.specs.Prelude.{IsTrue, List, ℕ};
    ghost use Rattle.floor_control.specs.Tag.{is_tag};

    ghost Value = { List ℕ };

    ghost view = { λ t. t.text };

    ghost invariant = { λ t. IsTrue (is_tag t.text) };
}

impl Tag {
    ghost use Rattle.std.specs.Prelude.{IsTrue};

    /// The tag of a word that is one, without the `@` in front of it.
    pub fn of_word(alloc: Global, word: &str) -> Result<Option<Tag>, AllocError>
        ensures value { IfOk result (λ tag. tag ≡ tag_of word.now) }
    {
        if is_tag(word) {
            let text = Text::from_string(String::from_str(alloc, word)?);
            return Ok(Some(Tag { text }));
        }
        Ok(None)
    }

    /// The tag, without the `@` in front of it.
    pub fn as_str(&self) -> &str
        ensures value { result.now ≡ self.now }
        ensures kept { IsTrue (is_tag self.now) }
    {
        self.text.as_str()
    }
}

/// Whether a word is a tag.
fn is_tag(word: &str) -> bool
    ensures value { result ≡ is_tag word.now }
{
    1 <= word.len() && word.len() <= MAX_TAG && has_tag_bytes_alone(word)
}

/// Whether each byte of a word may stand in a tag.
fn has_tag_bytes_alone(word: &str) -> bool
    ensures value { result ≡ list_all is_tag_byte word.now }
{
    word.as_bytes().iter().all(|byte| is_tag_byte(*byte))
}

/// Whether a byte may stand in a tag.
fn is_tag_byte(byte: u8) -> bool
    ensures value { result ≡ is_tag_byte byte }
{
    byte.is_ascii_alphanumeric() || byte == b'-' || byte == b'_' || byte == b'.'
}

/// Adds a text, each line of it behind the tag and a space, where there is a tag. After an error the text
/// may have a part of it.
pub fn add_tagged(out: &mut String, tag: &Option<Tag>, text: &str) -> Result<(), AllocError>
    ensures { OnOk result (string_bytes out.new ≡ string_bytes out.old ++ tagged tag.now text.now) }
{
    match tag {
        None => out.push_str(text),
        Some(tag) => add_lines(out, tag.as_str(), text),
    }
}

/// Adds the lines of a text, each behind the tag and a space; the last may lack its line feed.
fn add_lines(out: &mut String, tag: &str, text: &str) -> Result<(), AllocError>
    ensures { OnOk result (string_bytes out.new
        ≡ string_bytes out.old ++ lines_behind tag.now text.now) }
{
    let mut rest = text;
    'lines: loop {
        match rest.split_once('\n') {
            None => return add_last(out, tag, rest),
            Some((line, behind)) => {
                add_line(out, tag, line)?;
                rest = behind;
            }
        }
    }
}

/// Adds a line behind the tag, and its line feed.
fn add_line(out: &mut String, tag: &str, line: &str) -> Result<(), AllocError>
    ensures { OnOk result (string_bytes out.new
        ≡ string_bytes out.old ++ (mark tag.now ++ (line.now ++ codes "\n"))) }
{
    write!(out, "@{tag} {line}\n")
}

/// Adds what is behind the last line feed, behind the tag: it is a line unless it is empty.
fn add_last(out: &mut String, tag: &str, part: &str) -> Result<(), AllocError>
    ensures { OnOk result (string_bytes out.new
        ≡ string_bytes out.old ++ parts_behind tag.now (part.now ∷ [])) }
{
    if part.is_empty() {
        return Ok(());
    }
    write!(out, "@{tag} {part}")
}
