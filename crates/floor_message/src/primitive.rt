//! The primitives of this profile: what kind of message a message is (RFC 8855, section 5.1).

ghost use Rattle.std.specs.Prelude.{◌≡◌, ◌<◌};
ghost use Rattle.floor_message.specs.Primitive as spec;

/// What kind of message a message is. Those that only an unreliable transport needs, 14 to 17, are
/// not of this profile.
#[derive(Clone, Copy, Debug, PartialEq, Eq)]
pub enum Primitive {
    FloorRequest,
    FloorRelease,
    FloorRequestQuery,
    FloorRequestStatus,
    UserQuery,
    UserStatus,
    FloorQuery,
    FloorStatus,
    ChairAction,
    ChairActionAck,
    Hello,
    HelloAck,
    Error,
}

impl Primitive {
    /// The primitive that a header tells by this number.
    pub fn of_number(number: u8) -> Option<Primitive>
        ensures { result ≡ spec.primitive_of number }
    {
        match number {
            1 => Some(Primitive::FloorRequest),
            2 => Some(Primitive::FloorRelease),
            3 => Some(Primitive::FloorRequestQuery),
            4 => Some(Primitive::FloorRequestStatus),
            5 => Some(Primitive::UserQuery),
            6 => Some(Primitive::UserStatus),
            7 => Some(Primitive::FloorQuery),
            8 => Some(Primitive::FloorStatus),
            9 => Some(Primitive::ChairAction),
            10 => Some(Primitive::ChairActionAck),
            11 => Some(Primitive::Hello),
            12 => Some(Primitive::HelloAck),
            13 => Some(Primitive::Error),
            _ => None,
        }
    }

    /// The number that a header tells it by.
    pub fn number(self) -> u8
        ensures { result ≡ spec.primitive_number self }
    {
        match self {
            Primitive::FloorRequest => 1,
            Primitive::FloorRelease => 2,
            Primitive::FloorRequestQuery => 3,
            Primitive::FloorRequestStatus => 4,
            Primitive::UserQuery => 5,
            Primitive::UserStatus => 6,
            Primitive::FloorQuery => 7,
            Primitive::FloorStatus => 8,
            Primitive::ChairAction => 9,
            Primitive::ChairActionAck => 10,
            Primitive::Hello => 11,
            Primitive::HelloAck => 12,
            Primitive::Error => 13,
        }
    }
}
