//! A text, kept up to a greatest length in bytes: PARTICIPANT-PROVIDED-INFO and STATUS-INFO (RFC 8855,
//! sections 5.2.8 and 5.2.9).

ghost use Rattle.std.specs.Prelude.{◌≡◌, ◌≤◌, ℕ, length, IfOk, MatchOption, ◌↔◌, IfSome, IsTrue, option_copied, false, true};
ghost use Rattle.std.specs.Str.{is_utf8};
ghost use Rattle.floor_message.specs.Fits.{TextFits};
ghost use Rattle.floor_message.specs.Text as spec;
ghost use Rattle.floor_message.specs.Written.{optional, octets};
ghost use Rattle.floor_wire.specs.Bytes.{IsBytes};
ghost use Rattle.floor_wire.specs.Spelling.{canon};
ghost use Rattle.floor_wire.specs.View.{attributes_of};

use floor_wire::{Octets, a_slice_is_of_bytes};
use std::alloc::{AllocError, Global};

/// The most bytes of a PARTICIPANT-PROVIDED-INFO that are kept. Our choice: with it and the longest
/// reason a FLOOR-REQUEST-INFORMATION of eight floors fits its Length.
pub(crate) const LONGEST_INFO: usize = 62;

/// The most bytes of a reason that are kept. Our choice: with it and the longest
/// PARTICIPANT-PROVIDED-INFO a FLOOR-REQUEST-INFORMATION of eight floors fits its Length.
pub(crate) const LONGEST_REASON: usize = 30;

/// The text, where the bytes are UTF-8.
fn text_of(bytes: &[u8]) -> Option<&str>
    ensures { MatchOption result (is_utf8 bytes.now ≡ false)
        (λ t. (t.now ≡ bytes.now) × (is_utf8 bytes.now ≡ true)) }
{
    match str::from_utf8(bytes) {
        Ok(text) => Some(text),
        Err(_) => None,
    }
}

fn shortened(text: &str, most: usize) -> &[u8]
    ensures { result.now ≡ spec.shortened most text.now }
{
    let end = text.floor_char_boundary(most);
    &text.as_bytes()[..end]
}

/// The text as it is kept, at most so many bytes, where there is one; None where it isn't UTF-8.
pub(crate) fn text_kept(
    alloc: Global,
    octets: Option<&[u8]>,
    most: usize,
) -> Result<Option<Option<Octets>>, AllocError>
    ensures { IfOk result (λ kept. kept ≡ spec.text_kept most (option_copied octets.entry)) }
{
    let Some(bytes) = octets else {
        return Ok(Some(None));
    };
    let Some(text) = text_of(bytes) else {
        return Ok(None);
    };
    let kept = shortened(text, most);
    if kept.is_empty() {
        return Ok(Some(None));
    }
    let kept = Vec::from_slice(alloc, kept)?;
    Ok(Some(Some(Octets::from_vec(kept))))
}

/// Whether the text, where there is one, is UTF-8 of at least one byte, and at most so many.
pub(crate) fn optional_text_fits(text: &Option<Octets>, most: usize) -> bool
    ensures value { IsTrue result ↔ IfSome text.now (TextFits most) }
    ensures bytes { IsTrue result → IfSome text.now IsBytes }
{
    match text {
        Some(text) => text_fits(text.as_slice(), most),
        None => true,
    }
}

/// How many bytes the attribute of a text takes, where there is one.
pub(crate) fn text_len(text: &Option<Octets>) -> usize
    requires { IfSome text.now (λ bytes. length bytes ≤ 253) }
    ensures value { (kind : ℕ)
        → result ≡ length (canon (attributes_of (optional (octets kind) text.now))) }
    ensures fits { result ≤ 256 }
{
    match text {
        Some(text) => (2 + text.as_slice().len()).next_multiple_of(4),
        None => 0,
    }
}

fn text_fits(text: &[u8], most: usize) -> bool
    ensures value { IsTrue result ↔ TextFits most text.now }
    ensures bytes { IsBytes text.now }
{
    a_slice_is_of_bytes(text);
    !text.is_empty() && text.len() <= most && is_utf8(text)
}

fn is_utf8(bytes: &[u8]) -> bool
    ensures { result ≡ is_utf8 bytes.now }
{
    match text_of(bytes) {
        Some(_) => true,
        None => false,
    }
}
