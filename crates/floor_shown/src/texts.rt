//! Texts that are shown, cut where a rule says so.

ghost use Rattle.std.specs.Prelude.{◌≡◌, IfOk, MatchOption, false, true};
ghost use Rattle.std.specs.Str.{is_utf8};
ghost use Rattle.floor_message.specs.Text.{shortened};
ghost use Rattle.floor_shown.specs.Texts.{octets_in, text_in};

use floor_rpc::Text;
use floor_wire::Octets;
use std::alloc::{AllocError, Global};

/// A copy of a text.
pub fn text(alloc: Global, text: &str) -> Result<Text, AllocError>
    ensures value { IfOk result (λ copy. copy ≡ text.now) }
{
    Ok(Text::from_string(String::from_str(alloc, text)?))
}

/// A copy of a text, where there is one.
pub(crate) fn text_where(alloc: Global, text: &Option<Text>) -> Result<Option<Text>, AllocError>
    ensures value { IfOk result (λ copy. copy ≡ text.now) }
{
    match text {
        Some(text) => Ok(Some(text.copy(alloc)?)),
        None => Ok(None),
    }
}

/// The text that bytes are, where there are any and they are one.
pub(crate) fn text_of(alloc: Global, octets: &Option<Octets>) -> Result<Option<Text>, AllocError>
    ensures value { IfOk result (λ text. text ≡ text_in octets.now) }
{
    match octets {
        Some(octets) => match utf8(octets.as_slice()) {
            Some(found) => Ok(Some(text(alloc, found)?)),
            None => Ok(None),
        },
        None => Ok(None),
    }
}

/// The text that bytes are, where they are one.
fn utf8(bytes: &[u8]) -> Option<&str>
    ensures value { MatchOption result (is_utf8 bytes.now ≡ false)
        (λ t. (t.now ≡ bytes.now) × (is_utf8 bytes.now ≡ true)) }
{
    match std::str::from_utf8(bytes) {
        Ok(text) => Some(text),
        Err(_) => None,
    }
}

/// The front of a text, of so many bytes at most, that ends where a character does.
pub(crate) fn front_of(text: &str, most: usize) -> &str
    ensures value { result.now ≡ shortened most text.now }
{
    let end = text.floor_char_boundary(most);
    &text[..end]
}

/// The bytes of a text's front, as many as a message may have of it; none where it is empty.
pub(crate) fn octets_of(
    alloc: Global,
    text: &Option<Text>,
    most: usize,
) -> Result<Option<Octets>, AllocError>
    ensures value { IfOk result (λ octets. octets ≡ octets_in most text.now) }
{
    let Some(text) = text else {
        return Ok(None);
    };
    let front = front_of(text.as_str(), most);
    if front.is_empty() {
        return Ok(None);
    }
    Ok(Some(Octets::from_vec(Vec::from_slice(alloc, front.as_bytes())?)))
}
