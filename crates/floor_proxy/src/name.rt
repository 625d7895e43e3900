//! Who a header names: `CONFERENCE.USER`, two decimal numbers of 32 and 16 bits.

ghost use Rattle.std.specs.Prelude.{◌≡◌, ◌^◌};
ghost use Rattle.floor_proxy.specs.Name.{has_leading_zero, name_in, numeral};

use floor_words::{read_u16, read_u32};
use std::str;

/// A user of a conference.
#[derive(Clone, Copy, Debug, PartialEq, Eq)]
pub(crate) struct Name {
    pub(crate) conference: u32,
    pub(crate) user: u16,
}

/// The user that the bytes name; `None` where they aren't two numbers with a dot between them, neither
/// with a sign, a space or a leading zero, the first of at most 32 bits and the second of 16.
pub(crate) fn read_name(bytes: &[u8]) -> Option<Name>
    ensures value { result ≡ name_in bytes.now }
{
    let dot = bytes.iter().position(|byte| *byte == b'.')?;
    let conference = conference_of(&bytes[..dot])?;
    let user = user_of(&bytes[dot + 1..])?;
    Some(Name { conference, user })
}

/// The number of a conference in decimal digits.
fn conference_of(digits: &[u8]) -> Option<u32>
    ensures value { result ≡ numeral (2 ^ 32) digits.now }
{
    if has_leading_zero(digits) {
        return None;
    }
    match str::from_utf8(digits) {
        Ok(word) => read_u32(word),
        Err(_) => None,
    }
}

/// The number of a user in decimal digits.
fn user_of(digits: &[u8]) -> Option<u16>
    ensures value { result ≡ numeral (2 ^ 16) digits.now }
{
    if has_leading_zero(digits) {
        return None;
    }
    match str::from_utf8(digits) {
        Ok(word) => read_u16(word),
        Err(_) => None,
    }
}

/// Whether a digit 0 stands in front of another byte.
fn has_leading_zero(digits: &[u8]) -> bool
    ensures value { result ≡ has_leading_zero digits.now }
{
    1 < digits.len() && digits[0] == b'0'
}
