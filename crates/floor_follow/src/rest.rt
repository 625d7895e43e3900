//! What is left of a line, and what is cut off its front.

ghost use Rattle.std.specs.Prelude.{◌≡◌, ◌^◌, IfOk};
ghost use Rattle.floor_follow.specs.Reading.{Reads};
ghost use Rattle.floor_follow.specs.Reading as spec;

use crate::fault::FollowFault;
use floor_wire::Octets;
use floor_words::{cut_word, read_hexadecimal, read_u16, read_u32, read_u64};
use std::alloc::Global;
use std::marker::Model;

/// What is left of a line.
#[derive(Drop)]
pub(crate) struct Rest<'a> {
    text: &'a str,
}

impl<'a> Model for Rest<'a> {
    ghost use Rattle.std.specs.Prelude.{List, ℕ};

    ghost Value = { List ℕ };

    ghost view = { λ r. r.text.now };
}

impl<'a> Rest<'a> {
    /// A line, or a part of one.
    pub(crate) fn of(text: &'a str) -> Rest<'a>
        ensures { result ≡ text.entry.now }
    {
        Rest { text }
    }

    /// The text.
    pub(crate) fn as_str(&self) -> &'a str
        ensures { result.now ≡ self.now }
    {
        self.text
    }

    /// The first word, and what is left.
    pub(crate) fn word(&self) -> Result<(Rest<'a>, Rest<'a>), FollowFault>
        ensures { result ≡ spec.cut self.now }
    {
        match cut_word(self.text) {
            Some(cut) => Ok((Rest::of(cut.word), Rest::of(cut.rest))),
            None => Err(FollowFault::UnknownLine),
        }
    }

    /// Whether this is the first word.
    pub(crate) fn begins_with(&self, word: &str) -> bool
        ensures { result ≡ spec.begins_with word.now self.now }
    {
        match cut_word(self.text) {
            Some(cut) => cut.word == word,
            None => word.is_empty(),
        }
    }

    /// What is left behind this word, which has to be the first.
    pub(crate) fn behind(&self, word: &str) -> Result<Rest<'a>, FollowFault>
        ensures { result ≡ spec.expect word.now self.now }
    {
        let (first, rest) = self.word()?;
        if first.text == word {
            return Ok(rest);
        }
        Err(FollowFault::UnknownLine)
    }

    /// Whether no word is left.
    pub(crate) fn is_empty(&self) -> bool
        ensures { result ≡ spec.is_empty self.now }
    {
        cut_word(self.text).is_none()
    }

    /// No word may be left.
    pub(crate) fn end(&self) -> Result<(), FollowFault>
        ensures { result ≡ spec.end self.now }
    {
        if self.is_empty() {
            return Ok(());
        }
        Err(FollowFault::UnknownLine)
    }

    /// A number of 16 bits, and what is left.
    pub(crate) fn number16(&self) -> Result<(u16, Rest<'a>), FollowFault>
        ensures { result ≡ spec.numbered (2 ^ 16) self.now }
    {
        let (word, rest) = self.word()?;
        match read_u16(word.text) {
            Some(number) => Ok((number, rest)),
            None => Err(FollowFault::BadNumber),
        }
    }

    /// A number of 32 bits, and what is left.
    pub(crate) fn number32(&self) -> Result<(u32, Rest<'a>), FollowFault>
        ensures { result ≡ spec.numbered (2 ^ 32) self.now }
    {
        let (word, rest) = self.word()?;
        match read_u32(word.text) {
            Some(number) => Ok((number, rest)),
            None => Err(FollowFault::BadNumber),
        }
    }

    /// A place of a journal, and what is left.
    pub(crate) fn place(&self) -> Result<(u64, Rest<'a>), FollowFault>
        ensures { result ≡ spec.numbered (10 ^ 10) self.now }
    {
        let (word, rest) = self.word()?;
        match read_u64(word.text) {
            Some(number) => Ok((number, rest)),
            None => Err(FollowFault::BadNumber),
        }
    }

    /// A number of 16 bits, or `-` for none, and what is left.
    pub(crate) fn optional16(&self) -> Result<(Option<u16>, Rest<'a>), FollowFault>
        ensures { result ≡ spec.optional (2 ^ 16) self.now }
    {
        let (word, rest) = self.word()?;
        if word.text == "-" {
            return Ok((None, rest));
        }
        let (number, _) = word.number16()?;
        Ok((Some(number), rest))
    }

    /// The octets that the first word spells, and what is left.
    pub(crate) fn octets(&self, alloc: Global) -> Result<(Octets, Rest<'a>), FollowFault>
        ensures { Reads (spec.octets self.now) result }
    {
        let (word, rest) = self.word()?;
        let bytes = read_hexadecimal(alloc, &[word.text])?;
        Ok((Octets::from_vec(bytes), rest))
    }

    /// The octets that the first word spells, or `-` for none, and what is left.
    pub(crate) fn optional_octets(
        &self,
        alloc: Global,
    ) -> Result<(Option<Octets>, Rest<'a>), FollowFault>
        ensures { Reads (spec.optional_octets self.now) result }
    {
        let (word, rest) = self.word()?;
        if word.text == "-" {
            return Ok((None, rest));
        }
        let (octets, _) = word.octets(alloc)?;
        Ok((Some(octets), rest))
    }

    /// What stands in front of the first byte `:`, and behind it.
    pub(crate) fn parted(&self) -> (Rest<'a>, Rest<'a>)
        ensures { result ≡ spec.parted self.now }
    {
        match self.text.split_once(':') {
            None => (Rest::of(self.text), Rest::of("")),
            Some((front, behind)) => (Rest::of(front), Rest::of(behind)),
        }
    }
}
