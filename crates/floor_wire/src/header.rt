//! The header that every message begins with (RFC 8855, section 5.1).
//!
//! ```text
//!  0                   1                   2                   3
//!  0 1 2 3 4 5 6 7 8 9 0 1 2 3 4 5 6 7 8 9 0 1 2 3 4 5 6 7 8 9 0 1
//! +-----+-+-+-----+---------------+-------------------------------+
//! | Ver |R|F| Res |   Primitive   |        Payload Length         |
//! +-----+-+-+-----+---------------+-------------------------------+
//! |                         Conference ID                         |
//! +-------------------------------+-------------------------------+
//! |         Transaction ID        |            User ID            |
//! +-------------------------------+-------------------------------+
//! ```
//!
//! Payload Length counts units of 4 bytes behind the header.

ghost use Rattle.std.specs.Prelude.{◌≡◌, ◌≤◌, length};

use std::marker::Model;

/// How many bytes the header takes. The fragment fields are never there over a reliable transport.
pub const HEADER_LEN: usize = 12;

/// The header of a message, as it was received.
#[derive(Clone, Copy, Debug, PartialEq, Eq)]
pub struct Header {
    version: u8,
    transaction_responder: bool,
    fragmentation: bool,
    reserved: u8,
    primitive: u8,
    payload_length: u16,
    conference: u32,
    transaction: u16,
    user: u16,
}

impl Model for Header {
    ghost use Rattle.floor_wire.specs.Header.{CommonHeader};

    ghost Value = { CommonHeader };

    ghost view = { λ h. record {
      version = h.version;
      transaction_responder = h.transaction_responder;
      fragmentation = h.fragmentation;
      reserved = h.reserved;
      primitive = h.primitive;
      payload_length = h.payload_length;
      conference = h.conference;
      transaction = h.transaction;
      user = h.user;
    } };

    ghost inverse = { λ h. record {
      version = h.version;
      transaction_responder = h.transaction_responder;
      fragmentation = h.fragmentation;
      reserved = h.reserved;
      primitive = h.primitive;
      payload_length = h.payload_length;
      conference = h.conference;
      transaction = h.transaction;
      user = h.user;
    } };
}

impl Header {
    ghost use Rattle.floor_wire.specs.Header.{header_of};

    pub(crate) fn of_message(message: &[u8]) -> Header
        requires { 12 ≤ length message.now }
        ensures { result ≡ header_of message.now }
    {
        Header {
            version: message[0] / 32,
            transaction_responder: message[0] / 16 % 2 == 1,
            fragmentation: message[0] / 8 % 2 == 1,
            reserved: message[0] % 8,
            primitive: message[1],
            payload_length: u16::from_be_bytes([message[2], message[3]]),
            conference: u32::from_be_bytes([message[4], message[5], message[6], message[7]]),
            transaction: u16::from_be_bytes([message[8], message[9]]),
            user: u16::from_be_bytes([message[10], message[11]]),
        }
    }

    /// Ver, of 3 bits: 1 over a reliable transport.
    pub fn version(&self) -> u8
        ensures { result ≡ self.now.version }
    {
        self.version
    }

    /// The R bit. It has no meaning over a reliable transport.
    pub fn transaction_responder(&self) -> bool
        ensures { result ≡ self.now.transaction_responder }
    {
        self.transaction_responder
    }

    /// The F bit. It has no meaning over a reliable transport.
    pub fn fragmentation(&self) -> bool
        ensures { result ≡ self.now.fragmentation }
    {
        self.fragmentation
    }

    /// Res, of 3 bits: they have no meaning.
    pub fn reserved(&self) -> u8
        ensures { result ≡ self.now.reserved }
    {
        self.reserved
    }

    /// The primitive's number. It may be one that no primitive has.
    pub fn primitive(&self) -> u8
        ensures { result ≡ self.now.primitive }
    {
        self.primitive
    }

    /// How long the message is behind this header, in units of 4 bytes.
    pub fn payload_length(&self) -> u16
        ensures { result ≡ self.now.payload_length }
    {
        self.payload_length
    }

    /// The Conference ID.
    pub fn conference(&self) -> u32
        ensures { result ≡ self.now.conference }
    {
        self.conference
    }

    /// The Transaction ID.
    pub fn transaction(&self) -> u16
        ensures { result ≡ self.now.transaction }
    {
        self.transaction
    }

    /// The User ID.
    pub fn user(&self) -> u16
        ensures { result ≡ self.now.user }
    {
        self.user
    }
}
