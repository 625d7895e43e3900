//! What is sent to one connection.

ghost use Rattle.std.specs.Prelude.{◌≡◌, length, take, drop};
ghost use Rattle.floor_wire.specs.Message.{IsMessage};

use floor_wire::{Frame, SharedFrame};
use std::marker::Model;

/// One message for one member: 12 bytes of header, and the payload.
///
/// The header is its own. The payload is shared with the other parcels of the same notice, so that
/// what is told to many is held once, however slowly each reads it.
#[derive(Debug, Drop)]
pub struct Parcel {
    n: u32,
    message: SharedFrame,
}

impl Model for Parcel {
    ghost use Rattle.floor_machine.specs.Parcel.{Parcel};

    ghost Value = { Parcel };

    ghost view = { λ p. record { n = p.n; bytes = p.message } };
}

impl Parcel {
    /// This message for the member with this number. Takes no memory.
    pub fn new(n: u32, frame: Frame) -> Parcel
        ensures value { result ≡ record { n = n; bytes = frame } }
    {
        Parcel::of(n, SharedFrame::of(frame))
    }

    pub(crate) fn of(n: u32, message: SharedFrame) -> Parcel
        ensures value { result ≡ record { n = n; bytes = message } }
    {
        Parcel { n, message }
    }

    /// The number of the member that it is sent to.
    pub fn n(&self) -> u32
        ensures value { result ≡ self.now.n }
    {
        self.n
    }

    /// The 12 bytes of the message's header (RFC 8855, section 5.1).
    pub fn header(&self) -> &[u8]
        ensures value { result.now ≡ take 12 self.now.bytes }
        ensures kept { IsMessage self.now.bytes }
    {
        self.message.header()
    }

    /// The bytes of the message behind its header.
    pub fn payload(&self) -> &[u8]
        ensures value { result.now ≡ drop 12 self.now.bytes }
    {
        self.message.payload()
    }

    /// How many bytes the message has, its header included.
    pub fn len(&self) -> usize
        ensures value { result ≡ length self.now.bytes }
    {
        self.message.len()
    }
}
