//! Attributes that are two bytes, OctetString16 (RFC 8855, section 5.2). Of one that is wanted once
//! the first counts.

ghost use Rattle.std.specs.Prelude.{◌≡◌};
ghost use Rattle.floor_message.specs.Picked.{first, if_kind, pair_in, pairs};
ghost use Rattle.floor_wire.specs.Seen.{attr_seen};

use floor_wire::{AttrView, AttrsView, BodyView};

fn pair_of(attr: &AttrView, kind: u8) -> Option<(u8, u8)>
    ensures { result ≡ if_kind pair_in kind (attr_seen attr.now) }
{
    match &attr.body {
        BodyView::Pair(a, b) if attr.kind == kind => Some((*a, *b)),
        _ => None,
    }
}

/// The two bytes in the first attribute of the type.
pub(crate) fn first_pair(attrs: &AttrsView, kind: u8) -> Option<(u8, u8)>
    ensures { result ≡ first (pairs kind attrs.now) }
{
    let mut rest = attrs.copy();
    while let Some(attr) = rest.next() {
        if let Some(pair) = pair_of(&attr, kind) {
            return Some(pair);
        }
    }
    None
}
