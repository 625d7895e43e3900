//! The error codes (RFC 8855, section 5.2.6).

ghost use Rattle.std.specs.Prelude.{◌≡◌};
ghost use Rattle.floor_message.specs.Code.{code_number};

/// Why a message is answered by an Error.
#[derive(Clone, Copy, Debug, PartialEq, Eq)]
pub enum ErrorCode {
    /// Conference does not Exist.
    ConferenceDoesNotExist,
    /// User does not Exist.
    UserDoesNotExist,
    /// Unknown Primitive.
    UnknownPrimitive,
    /// Unknown Mandatory Attribute; the details tell the types (section 5.2.6.1).
    UnknownMandatoryAttribute,
    /// Unauthorized Operation.
    UnauthorizedOperation,
    /// Invalid Floor ID.
    InvalidFloorId,
    /// Floor Request ID Does Not Exist.
    FloorRequestIdDoesNotExist,
    /// You have Already Reached the Maximum Number of Ongoing Floor Requests for This Floor.
    MaximumFloorRequestsReached,
    /// Use TLS. Never sent by this server.
    UseTls,
    /// Unable to Parse Message.
    UnableToParseMessage,
    /// Use DTLS. Never sent by this server.
    UseDtls,
    /// Unsupported Version.
    UnsupportedVersion,
    /// Incorrect Message Length. Never sent by this server.
    IncorrectMessageLength,
    /// Generic Error.
    GenericError,
}

impl ErrorCode {
    /// The number that ERROR-CODE tells it by.
    pub fn number(self) -> u8
        ensures { result ≡ code_number self }
    {
        match self {
            ErrorCode::ConferenceDoesNotExist => 1,
            ErrorCode::UserDoesNotExist => 2,
            ErrorCode::UnknownPrimitive => 3,
            ErrorCode::UnknownMandatoryAttribute => 4,
            ErrorCode::UnauthorizedOperation => 5,
            ErrorCode::InvalidFloorId => 6,
            ErrorCode::FloorRequestIdDoesNotExist => 7,
            ErrorCode::MaximumFloorRequestsReached => 8,
            ErrorCode::UseTls => 9,
            ErrorCode::UnableToParseMessage => 10,
            ErrorCode::UseDtls => 11,
            ErrorCode::UnsupportedVersion => 12,
            ErrorCode::IncorrectMessageLength => 13,
            ErrorCode::GenericError => 14,
        }
    }
}
