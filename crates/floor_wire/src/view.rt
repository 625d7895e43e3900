//! Attributes as they stand in the bytes that spell them, which are lent and not copied (RFC 8855,
//! section 5.2).

ghost use Rattle.std.specs.Prelude.{◌≡◌, ◌<◌, ◌≤◌, ◌↔◌, slice_index, [], ◌∷◌, length, option_map, IfSome, IsTrue, MatchOption};
ghost use Rattle.floor_wire.specs.Fault.{padded};
ghost use Rattle.floor_wire.specs.Spelled.{spelled};
ghost use Rattle.floor_wire.specs.Spelling.{format_of, IsWritable};
ghost use Rattle.floor_wire.specs.Seen.{attr_seen, body_seen};
ghost use Rattle.floor_wire.specs.View.{attributes_of};
ghost use Rattle.floor_wire.specs.Views.{attrs_in, body_in, IsContent, IsSpelled};
ghost use Rattle.floor_wire.specs.steps.Reading.{FitsFormat};

use crate::format::{Format, format_of_kind};
use crate::laws::a_slice_is_of_bytes;
use crate::read::head_of;
use std::marker::Model;

/// The attributes that bytes spell, in order.
///
/// `of` looks through all of them, those inside groups too, and `next` takes off the first. Neither
/// takes memory.
#[derive(Debug, Drop)]
pub struct AttrsView<'a> {
    bytes: &'a [u8],
}

impl<'a> Model for AttrsView<'a> {
    ghost use Rattle.std.specs.Prelude.{List};
    ghost use Rattle.floor_wire.specs.declared.attribute.Attr.{Attr};
    ghost use Rattle.floor_wire.specs.AttrsCode.{attrs_code};

    ghost Value = { List Attr };

    ghost coded = { attrs_code };

    ghost use Rattle.floor_wire.specs.Views.{attrs_in, IsSpelled};

    ghost view = { λ v. attrs_in v.bytes.now };

    ghost invariant = { λ v. IsSpelled v.bytes.now };
}

/// One attribute: its type, its M bit and its contents.
#[derive(Debug, Drop)]
pub struct AttrView<'a> {
    /// The type, below 128.
    pub kind: u8,
    /// The M bit. It has no meaning at the types 1 to 18.
    pub must: bool,
    pub body: BodyView<'a>,
}

/// The contents of an attribute, in the format of its type.
#[derive(Debug, Drop)]
pub enum BodyView<'a> {
    /// A number: the types 1 to 3.
    Num(u16),
    /// Two bytes: the types 4 and 5.
    Pair(u8, u8),
    /// A head number, and the included attributes: the types 14 to 18.
    Group(u16, AttrsView<'a>),
    /// Any bytes: all other types.
    Octets(&'a [u8]),
}

impl<'a> AttrsView<'a> {
    /// The attributes that the bytes spell; None where they spell none.
    pub fn of(bytes: &'a [u8]) -> Option<AttrsView<'a>>
        ensures value { option_map attributes_of result ≡ spelled bytes.now }
        ensures writable { IfSome result (λ attrs. IsWritable (attributes_of attrs)) }
    {
        a_slice_is_of_bytes(bytes);
        if is_spelled(bytes) {
            Some(AttrsView { bytes })
        } else {
            None
        }
    }

    /// The same attributes.
    pub fn copy(&self) -> AttrsView<'a>
        ensures { result ≡ self.now }
    {
        AttrsView { bytes: self.bytes }
    }

    /// How many attributes there are, without those inside groups.
    pub fn len(&self) -> usize
        ensures { result ≡ length self.now }
    {
        count(self.bytes)
    }

    /// Takes off the first attribute, where there is one.
    pub fn next(&mut self) -> Option<AttrView<'a>>
        ensures { MatchOption result ((self.old ≡ []) × (self.new ≡ []))
            (λ attr. self.old ≡ attr_seen attr ∷ self.new) }
    {
        let bytes = self.bytes;
        if bytes.is_empty() {
            return None;
        }
        let (attr, others) = front_of(bytes);
        self.bytes = others;
        Some(attr)
    }
}

/// How many attributes the bytes spell.
fn count(bytes: &[u8]) -> usize
    requires { IsSpelled bytes.now }
    ensures { result ≡ length (attrs_in bytes.now) }
{
    let mut count = 0;
    let mut rest = bytes;
    while !rest.is_empty() {
        let (_, others) = front_of(rest);
        rest = others;
        count += 1;
    }
    count
}

/// The attribute at the front, and the bytes of those behind it.
fn front_of<'a>(bytes: &'a [u8]) -> (AttrView<'a>, &'a [u8])
    requires some { 0 < length bytes.now }
    requires spelled { IsSpelled bytes.now }
    ensures value { attrs_in bytes.now ≡ attr_seen result.0 ∷ attrs_in result.1.now }
    ensures others { IsSpelled result.1.now }
    ensures shorter { length result.1.now < length bytes.now }
{
    its_front_is_whole(bytes);
    let kind = bytes[0] / 2;
    let must = bytes[0] % 2 == 1;
    let len = usize::from(bytes[1]);
    let body = body_of(kind, &bytes[2..len]);
    let end = len + (4 - len % 4) % 4;
    (AttrView { kind, must, body }, &bytes[end..])
}

/// The head of an attribute stands at the front, with its contents and padding behind it.
fn its_front_is_whole(bytes: &[u8])
    requires some { 0 < length bytes.now }
    requires spelled { IsSpelled bytes.now }
    ensures head { 2 ≤ length bytes.now }
    ensures len { 2 ≤ slice_index bytes.now 1 }
    ensures end { padded (slice_index bytes.now 1) ≤ length bytes.now }
{}

/// The contents of an attribute of this type.
fn body_of<'a>(kind: u8, contents: &'a [u8]) -> BodyView<'a>
    requires { IsContent (format_of kind) contents.now }
    ensures { body_seen result ≡ body_in (format_of kind) contents.now }
{
    match format_of_kind(kind) {
        Format::Unsigned16 => BodyView::Num(u16::from_be_bytes([contents[0], contents[1]])),
        Format::OctetString16 => BodyView::Pair(contents[0], contents[1]),
        Format::Grouped => {
            let number = u16::from_be_bytes([contents[0], contents[1]]);
            let included = AttrsView {
                bytes: &contents[2..],
            };
            BodyView::Group(number, included)
        }
        Format::OctetString => BodyView::Octets(contents),
    }
}

/// Whether the bytes spell attributes.
#[cycle(view)]
fn is_spelled(bytes: &[u8]) -> bool
    ensures { IsTrue result ↔ IsSpelled bytes.now }
{
    let mut rest = bytes;
    while !rest.is_empty() {
        let Ok(head) = head_of(rest) else {
            return false;
        };
        if !is_content(format_of_kind(head.kind), &rest[2..head.len]) {
            return false;
        }
        rest = &rest[head.end..];
    }
    true
}

/// Whether the bytes, which are as long as the format asks for, are contents of it.
#[cycle(view)]
fn is_content(format: Format, contents: &[u8]) -> bool
    requires { FitsFormat format (length contents.now) }
    ensures { IsTrue result ↔ IsContent format contents.now }
{
    match format {
        Format::Grouped => is_spelled(&contents[2..]),
        Format::Unsigned16 => true,
        Format::OctetString16 => true,
        Format::OctetString => true,
    }
}
