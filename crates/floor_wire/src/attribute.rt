//! Attributes as values (RFC 8855, section 5.2).

ghost use Rattle.std.specs.Prelude.{◌≡◌};

use crate::octets::Octets;
use std::marker::Model;

/// One attribute: its type, its M bit and its contents.
#[derive(Debug, Drop)]
#[cycle(attribute)]
pub struct Attr {
    /// The type, below 128 where the attribute was read or can be written.
    pub kind: u8,
    /// The M bit. It has no meaning at the types 1 to 18, and is written as 0 there.
    pub must: bool,
    pub body: Body,
}

/// The contents of an attribute, in the format of its type.
#[derive(Debug, Drop)]
#[cycle(attribute)]
pub enum Body {
    /// A number: the types 1 to 3.
    Num(u16),
    /// Two bytes: the types 4 and 5.
    Pair(u8, u8),
    /// A head number, and the included attributes: the types 14 to 18.
    Group(u16, Attrs),
    /// Any bytes: all other types.
    Octets(Octets),
}

/// Attributes in order.
#[derive(Debug, Drop)]
#[cycle(attribute)]
pub struct Attrs {
    items: Vec<Attr>,
}

impl Model for Attrs {
    ghost use Rattle.floor_wire.specs.Attributes.{Attributes, attributes_size};
    ghost use Rattle.floor_wire.specs.AttributesCode.{attributes_code};

    ghost Value = { Attributes };

    ghost coded = { attributes_code };

    ghost use Rattle.floor_wire.specs.View.{attributes_of};

    ghost view = { λ a. attributes_of a.items.items };

    ghost size = { attributes_size };

    ghost use Rattle.std.proofs.Common.{arith};
    ghost use Rattle.floor_wire.specs.AttrsFalls.{most_le-attributes_size};

    ghost size_decreases = { λ a h. omega (arith, most_le-attributes_size a.items.items) };
}

impl Attrs {
    ghost use Rattle.std.specs.Prelude.{◌≡◌};
    ghost use Rattle.floor_wire.specs.View.{attributes_of, items};

    /// The attributes of a vector. Takes no memory.
    pub fn from_vec(items: Vec<Attr>) -> Attrs
        ensures { result ≡ attributes_of items.items }
    {
        Attrs { items }
    }

    /// The attributes, in order.
    pub fn as_slice(&self) -> &[Attr]
        ensures value { attributes_of result.now ≡ self.now }
        ensures list { result.now ≡ items self.now }
    {
        self.items.as_slice()
    }
}
