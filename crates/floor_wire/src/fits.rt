//! Which attributes can be written, and how long they are (RFC 8855, section 5.2).

ghost use Rattle.std.specs.Prelude.{◌≡◌, ◌<◌, ◌≤◌, ◌+◌, ◌*◌, ◌^◌, ◌↔◌, length, MatchOption, IsTrue};
ghost use Rattle.floor_wire.specs.Bytes.{IsContentOfBytes, IsOfBytes};
ghost use Rattle.floor_wire.specs.Spelling.{format_of_content, content_canon, canon, IsWritable};
ghost use Rattle.floor_wire.specs.steps.Writable.{IsWritableAttribute, attribute_bytes, FitsBody, IsShort};
ghost use Rattle.floor_wire.specs.View.{attributes_of, content_of};

use crate::attribute::{Attr, Body};
use crate::format::{Format, format_of_kind};
use crate::laws::a_slice_is_of_bytes;
use crate::write::padding;

/// How many bytes a message can hold behind its header: 65,535 units of 4 bytes (section 5.1).
pub const MAX_PAYLOAD_LEN: usize = 262_140;

/// How many bytes a group can hold behind its head: its Length is a byte and a multiple of 4.
const MAX_INCLUDED_LEN: usize = 251;

/// Whether the attributes can be written: each body has the format of its type, each type is below
/// 128, and each Length fits its byte. Takes no memory.
pub fn writable(attrs: &[Attr]) -> bool
    ensures value { IsTrue result ↔ IsWritable (attributes_of attrs.now) }
    ensures bytes { IsTrue result → IsOfBytes (attributes_of attrs.now) }
{
    for attr in attrs {
        match attribute_len(attr) {
            None => return false,
            Some(_) => {}
        }
    }
    true
}

/// Whether a message can hold the attributes: they can be written, in at most 65,535 units of 4
/// bytes. Takes no memory.
pub fn fits_message(attrs: &[Attr]) -> bool
    ensures value { IsTrue result ↔ (IsWritable (attributes_of attrs.now)
        × (length (canon (attributes_of attrs.now)) ≤ 4 * 65535)) }
    ensures bytes { IsTrue result → IsOfBytes (attributes_of attrs.now) }
{
    match list_len(attrs, MAX_PAYLOAD_LEN) {
        Some(_) => true,
        None => false,
    }
}

/// How long the payload with these attributes is.
pub(crate) fn payload_len(attrs: &[Attr]) -> usize
    requires writable { IsWritable (attributes_of attrs.now) }
    requires fits { length (canon (attributes_of attrs.now)) ≤ 4 * 65535 }
    ensures value { result ≡ length (canon (attributes_of attrs.now)) }
{
    let Some(len) = list_len(attrs, MAX_PAYLOAD_LEN) else {
        unreachable!()
    };
    len
}

/// How long the attributes are as they are written, where they can be, in at most so many bytes.
#[cycle(fits)]
fn list_len(attrs: &[Attr], most: usize) -> Option<usize>
    requires { most < 2 ^ 32 }
    ensures { MatchOption result (IsShort attrs.now most → ⊥)
        (λ n. IsShort attrs.now most × IsOfBytes (attributes_of attrs.now)
        × (n ≡ length (canon (attributes_of attrs.now)))) }
{
    let mut sum = 0;
    for attr in attrs {
        let len = attribute_len(attr)?;
        if most - sum < len {
            return None;
        }
        sum += len;
    }
    Some(sum)
}

/// How long the attribute is as it is written, where it can be.
#[cycle(fits)]
fn attribute_len(attr: &Attr) -> Option<usize>
    ensures { MatchOption result (IsWritableAttribute attr.now → ⊥)
        (λ n. IsWritableAttribute attr.now × IsContentOfBytes (content_of attr.now.body)
        × (n ≡ length (attribute_bytes attr.now)) × (n < 512)) }
{
    if attr.kind >= 128 || format_of_kind(attr.kind) != format_of_body(&attr.body) {
        return None;
    }
    let len = contents_len(&attr.body)?;
    Some(2 + len + padding(len).len())
}

/// How long the contents are as they are written, where they can be.
#[cycle(fits)]
fn contents_len(body: &Body) -> Option<usize>
    ensures { MatchOption result (FitsBody body.now → ⊥)
        (λ n. FitsBody body.now × IsContentOfBytes (content_of body.now)
        × (n ≡ length (content_canon (content_of body.now)))) }
{
    match body {
        // A number has the range of its type once it is read.
        Body::Num(number) => {
            let _number = *number;
            Some(2)
        }
        Body::Pair(first, second) => {
            let _first = *first;
            let _second = *second;
            Some(2)
        }
        Body::Group(number, included) => {
            let _number = *number;
            let len = list_len(included.as_slice(), MAX_INCLUDED_LEN)?;
            Some(2 + len)
        }
        Body::Octets(octets) => {
            let octets = octets.as_slice();
            a_slice_is_of_bytes(octets);
            if octets.len() < 254 {
                Some(octets.len())
            } else {
                None
            }
        }
    }
}

fn format_of_body(body: &Body) -> Format
    ensures { result ≡ format_of_content (content_of body.now) }
{
    match body {
        Body::Num(_) => Format::Unsigned16,
        Body::Pair(_, _) => Format::OctetString16,
        Body::Group(_, _) => Format::Grouped,
        Body::Octets(_) => Format::OctetString,
    }
}
