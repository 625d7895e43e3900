//! The id by which an answer is found to be that of a request.

ghost use Rattle.std.specs.Prelude.{◌≡◌, IfOk, MatchOption};
ghost use Rattle.json.specs.Print.{IsNumber};

use floor_config::Text;
use json::is_number;
use std::alloc::{AllocError, Global};
use std::marker::Model;

/// The text of a number of JSON's (RFC 8259, section 6), as it stood.
#[derive(Drop)]
pub struct Numeral {
    text: Text,
}

impl Model for Numeral {
    ghost use Rattle.std.specs.Prelude.{List, ℕ};
    ghost use Rattle.json.specs.Print.{IsNumber};

    ghost Value = { List ℕ };

    ghost view = { λ n. n.text };

    ghost invariant = { λ n. IsNumber n.text };
}

impl Numeral {
    /// The number that a text is, or `None` where it is none.
    pub fn new(alloc: Global, text: &str) -> Result<Option<Numeral>, AllocError>
        ensures value { IfOk result
            (λ n. MatchOption n (¬ IsNumber text.now) (λ n. n ≡ text.now)) }
    {
        if is_number(text) {
            Ok(Some(Numeral::of_number(alloc, text)?))
        } else {
            Ok(None)
        }
    }

    /// The number that a text is.
    pub(crate) fn of_number(alloc: Global, text: &str) -> Result<Numeral, AllocError>
        requires { IsNumber text.now }
        ensures { IfOk result (λ n. n ≡ text.now) }
    {
        let text = Text::from_string(String::from_str(alloc, text)?);
        Ok(Numeral { text })
    }

    /// Its text.
    pub fn as_str(&self) -> &str
        ensures value { result.now ≡ self.now }
        ensures kept { IsNumber self.now }
    {
        self.text.as_str()
    }
}

/// What an answer bears of its request.
#[derive(Drop)]
pub enum Id {
    /// `null`: the request said that, or none is known.
    Null,
    /// A number, as it stood.
    Number(Numeral),
    /// A text.
    Text(Text),
}
