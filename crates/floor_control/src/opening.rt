//! A configuration that a client sends behind `open .`.

ghost use Rattle.std.specs.Prelude.{◌≡◌, ◌++◌, ◌∷◌, [], true, IfOk, OnErr, OnOk, string_bytes};
ghost use Rattle.floor_control.specs.Opening.{of_line, of_other, with_line, with_other};

use std::alloc::{AllocError, Global};
use std::marker::Model;

/// How many bytes a configuration has at most that is sent, its line feeds among them: our choice, above
/// the greatest that is of use.
pub const MAX_CONFIGURATION: usize = 1_048_576;

/// What a line does to a configuration that is sent.
#[derive(Clone, Copy, Debug, PartialEq, Eq)]
pub enum Sent {
    /// More is to come.
    More,
    /// The configuration is whole: it is what `text` lends.
    Whole,
    /// The configuration is whole, and a line of it isn't UTF-8.
    NotText,
    /// The configuration is too long.
    TooLong,
}

/// A configuration that a client sends line by line, up to a line `.`.
#[derive(Drop)]
pub struct Opening {
    text: String,
    len: usize,
    is_text: bool,
}

impl Model for Opening {
    ghost use Rattle.std.specs.Prelude.{◌≤◌, string_bytes};
    ghost use Rattle.floor_control.specs.Opening.{Opening};

    ghost Value = { Opening };

    ghost view = { λ o. record {
      text = string_bytes o.text;
      len = o.len;
      is_text = o.is_text;
    } };

    ghost invariant = { λ o. o.len ≤ 1048576 };
}

impl Opening {
    /// No line of it has come. Takes no memory.
    pub fn new(alloc: Global) -> Opening
        ensures value { result ≡ record { text = []; len = 0; is_text = true } }
    {
        Opening {
            text: String::new(alloc),
            len: 0,
            is_text: true,
        }
    }

    /// Takes a line, without its line feed. After an error nothing has changed.
    pub fn add(&mut self, line: &str) -> Result<Sent, AllocError>
        ensures value { IfOk result (λ does. does ≡ of_line line.now self.old) }
        ensures took { OnOk result (self.new ≡ with_line line.now self.old) }
        ensures left { OnErr result (self.new ≡ self.old) }
    {
        if line == "." {
            return Ok(if self.is_text {
                Sent::Whole
            } else {
                Sent::NotText
            });
        }
        if MAX_CONFIGURATION - self.len <= line.len() {
            return Ok(Sent::TooLong);
        }
        push_line(&mut self.text, line)?;
        self.len += line.len() + 1;
        Ok(Sent::More)
    }

    /// Takes a line of so many bytes that isn't UTF-8.
    pub fn add_not_text(&mut self, len: usize) -> Sent
        ensures value { result ≡ of_other len self.old }
        ensures took { self.new ≡ with_other len self.old }
    {
        if MAX_CONFIGURATION - self.len <= len {
            return Sent::TooLong;
        }
        self.len += len + 1;
        self.is_text = false;
        Sent::More
    }

    /// The lines that came and are UTF-8, each with its line feed.
    pub fn text(&self) -> &str
        ensures value { result.now ≡ self.now.text }
    {
        self.text.as_str()
    }
}

/// Adds a line and its line feed. After an error nothing has changed.
fn push_line(text: &mut String, line: &str) -> Result<(), AllocError>
    ensures took { OnOk result (string_bytes text.new ≡ string_bytes text.old ++ (line.now ++ 10 ∷ [])) }
    ensures left { OnErr result (string_bytes text.new ≡ string_bytes text.old) }
{
    text.reserve(line.len() + 1)?;
    text.push_str(line)?;
    text.push('\n')
}
