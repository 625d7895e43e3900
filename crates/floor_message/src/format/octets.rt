//! Attributes that are octets, OctetString (RFC 8855, section 5.2). Of one that is wanted once the
//! first counts.

ghost use Rattle.std.specs.Prelude.{◌≡◌, IfOk, OnOk, ◌<◌, [], option_copied, ◌∷◌, ℕ, List, length};
ghost use Rattle.floor_message.specs.Picked.{first, if_kind, octets_in, octet_strings};
ghost use Rattle.floor_message.specs.Written as spec;
ghost use Rattle.floor_message.specs.steps.Leaves.{Leaves};
ghost use Rattle.floor_message.specs.steps.Writing.{with_attrs};
ghost use Rattle.floor_wire.specs.Bytes.{IsBytes};
ghost use Rattle.floor_wire.specs.Seen.{attr_seen};
ghost use Rattle.floor_wire.specs.Spelling.{format_of, IsWritable};
ghost use Rattle.floor_wire.specs.View.{attributes_of};
ghost use Rattle.floor_wire.specs.declared.format.Format.TheVariants.{OctetString};

use floor_wire::{AttrView, AttrsView, BodyView, FrameBuilder, Octets, a_slice_is_of_bytes};
use std::alloc::{AllocError, Global};

/// The most octets of an octet string: its Length is below 256 and counts the head of 2 bytes.
pub(crate) const MOST_OCTETS: usize = 253;

fn octets_of<'a>(attr: &AttrView<'a>, kind: u8) -> Option<&'a [u8]>
    ensures { option_copied result ≡ if_kind octets_in kind (attr_seen attr.now) }
{
    match &attr.body {
        BodyView::Octets(octets) if attr.kind == kind => Some(*octets),
        _ => None,
    }
}

/// The octets in the first attribute of the type.
pub(crate) fn first_octets<'a>(attrs: &AttrsView<'a>, kind: u8) -> Option<&'a [u8]>
    ensures { option_copied result ≡ first (octet_strings kind attrs.now) }
{
    let mut rest = attrs.copy();
    while let Some(attr) = rest.next() {
        if let Some(octets) = octets_of(&attr, kind) {
            return Some(octets);
        }
    }
    None
}

/// The octets in the first attribute of the type, copied.
pub(crate) fn first_copied(
    alloc: Global,
    attrs: &AttrsView,
    kind: u8,
) -> Result<Option<Octets>, AllocError>
    ensures { IfOk result (λ octets. octets ≡ first (octet_strings kind attrs.now)) }
{
    copied(alloc, first_octets(attrs, kind))
}

/// The octets, where there are any, copied.
pub(crate) fn copied(alloc: Global, octets: Option<&[u8]>) -> Result<Option<Octets>, AllocError>
    ensures { IfOk result (λ copy. copy ≡ option_copied octets.entry) }
{
    match octets {
        Some(octets) => Ok(Some(Octets::from_vec(Vec::from_slice(alloc, octets)?))),
        None => Ok(None),
    }
}

/// Adds the octet string, where there is one.
pub(crate) fn put_octets(
    out: &mut FrameBuilder,
    kind: u8,
    bytes: &Option<Octets>,
) -> Result<(), AllocError>
    requires { IsWritable (attributes_of (spec.optional (spec.octets kind) bytes.now)) }
    ensures { OnOk result (out.new
        ≡ with_attrs out.old (spec.optional (spec.octets kind) bytes.now)) }
{
    if let Some(bytes) = bytes {
        out.put_octets(kind, bytes.as_slice())?;
    }
    Ok(())
}

/// What is left of the room behind so many octets.
pub(crate) fn after_octets(room: usize, len: usize) -> Option<usize>
    ensures { (kind : ℕ) (octets : List ℕ) → kind < 128 → format_of kind ≡ OctetString
        → len ≡ length octets → IsBytes octets
        → Leaves (spec.octets kind octets ∷ []) room result }
{
    if len > MOST_OCTETS {
        return None;
    }
    room.checked_sub((2 + len).next_multiple_of(4))
}

/// What is left of the room behind octets, where there are any.
pub(crate) fn after_optional_octets(room: usize, octets: &Option<Octets>) -> Option<usize>
    ensures { (kind : ℕ) → kind < 128 → format_of kind ≡ OctetString
        → Leaves (spec.optional (spec.octets kind) octets.now) room result }
{
    match octets {
        Some(octets) => {
            let octets = octets.as_slice();
            a_slice_is_of_bytes(octets);
            after_octets(room, octets.len())
        }
        None => Some(room),
    }
}
