//! The exit status of what the server refuses.

ghost use Rattle.std.specs.Prelude.{◌≡◌};
ghost use Rattle.floorctl.specs.Status as spec;

/// The status besides an error's number.
const REFUSED: u64 = 10;

/// The status where the words are refused.
pub const WORDS: u8 = 2;

/// The exit status of an error of this number. Those that say that a request is none have numbers below 0.
pub fn status_of(number: Option<u64>) -> u8
    ensures value { result ≡ spec.status_of number }
{
    match number {
        None | Some(0) => WORDS,
        Some(number) if number < 245 => (number + REFUSED) as u8,
        Some(_) => u8::MAX,
    }
}
