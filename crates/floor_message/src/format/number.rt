//! Attributes that are a number, Unsigned16 (RFC 8855, section 5.2). Of one that is wanted once the
//! first counts.

ghost use Rattle.std.specs.Prelude.{◌≡◌, ◌≤◌, ℕ, length, OnOk};
ghost use Rattle.floor_message.specs.Picked.{first, if_kind, number_in, numbers};
ghost use Rattle.floor_message.specs.Written as spec;
ghost use Rattle.floor_message.specs.steps.Writing.{with_attrs};
ghost use Rattle.floor_wire.specs.Seen.{attr_seen};
ghost use Rattle.floor_wire.specs.Spelling.{IsWritable, canon};
ghost use Rattle.floor_wire.specs.View.{attributes_of};

use crate::format::attributes::SHORT_ATTRIBUTE;
use floor_wire::{AttrView, AttrsView, BodyView, FrameBuilder};
use std::alloc::AllocError;

/// The number in an attribute of the type.
pub(crate) fn number_of(attr: &AttrView, kind: u8) -> Option<u16>
    ensures { result ≡ if_kind number_in kind (attr_seen attr.now) }
{
    match &attr.body {
        BodyView::Num(n) if attr.kind == kind => Some(*n),
        _ => None,
    }
}

/// The number in the first attribute of the type.
pub(crate) fn first_number(attrs: &AttrsView, kind: u8) -> Option<u16>
    ensures { result ≡ first (numbers kind attrs.now) }
{
    let mut rest = attrs.copy();
    while let Some(attr) = rest.next() {
        if let Some(number) = number_of(&attr, kind) {
            return Some(number);
        }
    }
    None
}

/// Adds the number, where there is one.
pub(crate) fn put_number(
    out: &mut FrameBuilder,
    kind: u8,
    number: Option<u16>,
) -> Result<(), AllocError>
    requires { IsWritable (attributes_of (spec.optional (spec.number kind) number)) }
    ensures { OnOk result (out.new
        ≡ with_attrs out.old (spec.optional (spec.number kind) number)) }
{
    if let Some(number) = number {
        out.put_number(kind, number)?;
    }
    Ok(())
}

/// How many bytes the number takes, where there is one.
pub(crate) fn number_len(number: Option<u16>) -> usize
    ensures value { (kind : ℕ)
        → result ≡ length (canon (attributes_of (spec.optional (spec.number kind) number))) }
    ensures fits { result ≤ 4 }
{
    match number {
        Some(_) => SHORT_ATTRIBUTE,
        None => 0,
    }
}
