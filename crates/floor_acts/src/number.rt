//! The numbers of a line.

ghost use Rattle.std.specs.Prelude.{◌≡◌, ◌^◌};
ghost use Rattle.std.specs.Option.{option_map};
ghost use Rattle.floor_acts.specs.Numbers.{number_of, number_where, port_where};

use crate::fault::ActFault;
use floor_words::{read_u16, read_u32};

/// The number of a conference.
pub fn conference_of(word: &str) -> Result<u32, ActFault>
    ensures { result ≡ number_of (2 ^ 32) word.now }
{
    match read_u32(word) {
        Some(conference) => Ok(conference),
        None => Err(ActFault::BadNumber),
    }
}

/// A number of 16 bits: a floor request's, a floor's, a user's, or how much room a floor has.
pub fn number_of(word: &str) -> Result<u16, ActFault>
    ensures { result ≡ number_of (2 ^ 16) word.now }
{
    match read_u16(word) {
        Some(number) => Ok(number),
        None => Err(ActFault::BadNumber),
    }
}

/// The number that a word writes, where there is a word.
pub fn number_where(word: Option<&str>) -> Result<Option<u16>, ActFault>
    ensures { result ≡ number_where (option_map (λ w. w.now) word.entry) }
{
    match word {
        None => Ok(None),
        Some(word) => Ok(Some(number_of(word)?)),
    }
}

/// The port that a word writes, where there is a word: 1 to 65,535.
pub fn port_where(word: Option<&str>) -> Result<Option<u16>, ActFault>
    ensures { result ≡ port_where (option_map (λ w. w.now) word.entry) }
{
    match number_where(word)? {
        Some(0) => Err(ActFault::BadNumber),
        port => Ok(port),
    }
}
