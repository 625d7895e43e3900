//! Attributes of whatever type: those that a payload spells (RFC 8855, section 5.2).

ghost use Rattle.std.specs.Prelude.{◌≡◌, ◌<◌, All, Some, None, IfSome, MatchOption};
ghost use Rattle.floor_message.specs.Picked.{distinct, mandatory};
ghost use Rattle.floor_wire.specs.Spelled.{spelled};
ghost use Rattle.floor_wire.specs.View.{attributes_of, items};

use floor_wire::AttrsView;

/// The bytes of an attribute whose contents are 2 bytes.
pub(crate) const SHORT_ATTRIBUTE: usize = 4;

/// The attributes that the payload spells, where it spells any.
pub(crate) fn payload_attrs<'a>(payload: &'a [u8]) -> Option<AttrsView<'a>>
    ensures found { MatchOption result (spelled payload.now ≡ None)
        (λ attrs. (spelled payload.now ≡ Some (attributes_of attrs))
        × (items (attributes_of attrs) ≡ attrs)) }
    ensures kinds { IfSome result
        (λ attrs. All (λ t. t < 128) (distinct (mandatory (attributes_of attrs)))) }
{
    AttrsView::of(payload)
}
