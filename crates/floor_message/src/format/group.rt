//! Attributes that are a group, Grouped: a number, and attributes inside (RFC 8855, section 5.2). Of
//! one that is wanted once the first counts.

ghost use Rattle.std.specs.Prelude.{◌≡◌};
ghost use Rattle.floor_message.specs.Picked.{first, if_kind, group_in, groups};
ghost use Rattle.floor_wire.specs.Seen.{attr_seen};

use floor_wire::{AttrView, AttrsView, BodyView};

/// The most bytes of a group: its Length is a multiple of 4 below 256.
pub(crate) const LONGEST_GROUP: usize = 252;

/// The bytes of a group in front of the attributes inside it.
pub(crate) const GROUP_HEAD: usize = 4;

/// The number of a group of the type, and the attributes directly inside it.
pub(crate) fn group_of<'a>(attr: &AttrView<'a>, kind: u8) -> Option<(u16, AttrsView<'a>)>
    ensures { result ≡ if_kind group_in kind (attr_seen attr.now) }
{
    match &attr.body {
        BodyView::Group(n, inside) if attr.kind == kind => Some((*n, inside.copy())),
        _ => None,
    }
}

/// The number of the first group of the type, and the attributes directly inside it.
pub(crate) fn first_group<'a>(attrs: &AttrsView<'a>, kind: u8) -> Option<(u16, AttrsView<'a>)>
    ensures { result ≡ first (groups kind attrs.now) }
{
    let mut rest = attrs.copy();
    while let Some(attr) = rest.next() {
        if let Some(group) = group_of(&attr, kind) {
            return Some(group);
        }
    }
    None
}
