//! The formats of attributes (RFC 8855, section 5.2, table 2).

ghost use Rattle.std.specs.Prelude.{◌≡◌};
ghost use Rattle.floor_wire.specs.Spelling.{format_of};

/// What the contents of an attribute are.
#[derive(Clone, Copy, Debug, PartialEq, Eq)]
pub enum Format {
    /// A 16-bit number: the types 1 to 3.
    Unsigned16,
    /// Two bytes: the types 4 and 5.
    OctetString16,
    /// A head number and then attributes: the types 14 to 18.
    Grouped,
    /// Any bytes: all other types.
    OctetString,
}

/// The format of the attributes of a type. One that the protocol doesn't know is an octet string.
pub fn format_of_kind(kind: u8) -> Format
    ensures { result ≡ format_of kind }
{
    match kind {
        1..=3 => Format::Unsigned16,
        4..=5 => Format::OctetString16,
        14..=18 => Format::Grouped,
        _ => Format::OctetString,
    }
}
