//! A word as a number.

ghost use Rattle.std.specs.Prelude.{◌≡◌, ◌^◌};
ghost use Rattle.std.specs.Char.{is_ascii_digit};
ghost use Rattle.std.specs.List.{list_all};
ghost use Rattle.floor_words.specs.Words.{number};

/// How many digits a number has at most: as many as the greatest number of 32 bits.
const MAX_DIGITS: usize = 10;

/// The number that a word writes. `None` where the word isn't one to ten decimal digits, leading
/// zeros among them, or the number has more than 16 bits.
pub fn read_u16(word: &str) -> Option<u16>
    ensures { result ≡ number (2 ^ 16) word.now }
{
    match read_u64(word) {
        None => None,
        Some(number) => u16::try_from(number).ok(),
    }
}

/// The number that a word writes. `None` where the word isn't one to ten decimal digits, leading
/// zeros among them, or the number has more than 32 bits.
pub fn read_u32(word: &str) -> Option<u32>
    ensures { result ≡ number (2 ^ 32) word.now }
{
    match read_u64(word) {
        None => None,
        Some(number) => u32::try_from(number).ok(),
    }
}

/// The number that a word writes. `None` where the word isn't one to ten decimal digits, leading
/// zeros among them; ten digits always fit.
pub fn read_u64(word: &str) -> Option<u64>
    ensures { result ≡ number (10 ^ 10) word.now }
{
    if word.is_empty() || MAX_DIGITS < word.len() || !has_digits_alone(word) {
        return None;
    }
    word.parse().ok()
}

/// Whether each character of a word is a decimal digit.
fn has_digits_alone(word: &str) -> bool
    ensures { result ≡ list_all is_ascii_digit word.now }
{
    word.as_bytes().iter().all(|byte| byte.is_ascii_digit())
}
