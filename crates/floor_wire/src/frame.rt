//! One message as it stands on the wire (RFC 8855, section 5.1).

ghost use Rattle.std.specs.Prelude.{◌≡◌, ◌≤◌, length, IfOk, List, ℕ, SomeIff};
ghost use Rattle.floor_wire.specs.Message.{IsMessage, message_len};
ghost use Rattle.floor_wire.specs.Bytes.{IsBytes};

use crate::header::{HEADER_LEN, Header};
use crate::laws::a_slice_is_of_bytes;
use bytes::Bytes;
use std::alloc::{AllocError, Global};
use std::marker::Model;

/// The bytes of exactly one message.
#[derive(Debug, Drop)]
pub struct Frame {
    bytes: Bytes,
}

impl Model for Frame {
    ghost use Rattle.std.specs.Prelude.{ℕ, List};
    ghost use Rattle.floor_wire.specs.Message.{IsMessage};

    ghost Value = { List ℕ };

    ghost view = { λ f. f.bytes };

    ghost invariant = { λ f. IsMessage f.bytes };
}

impl Frame {
    ghost use Rattle.floor_wire.specs.Header.{header_of};

    /// A frame of these bytes, which it copies, where they are exactly one message.
    pub fn of(alloc: Global, bytes: &[u8]) -> Result<Option<Frame>, AllocError>
        ensures { IfOk result (λ frame. SomeIff frame (IsMessage bytes.now) bytes.now) }
    {
        if bytes.len() < HEADER_LEN || bytes.len() != announced_len(bytes) {
            return Ok(None);
        }
        let bytes = Bytes::copy_from_slice(alloc, bytes)?;
        Ok(Some(Frame { bytes }))
    }

    /// An equal message in a buffer of its own, of exactly its length: the buffer that this one was
    /// cut from doesn't stay alive by it.
    pub fn copy(&self, alloc: Global) -> Result<Frame, AllocError>
        ensures { IfOk result (λ copy. copy ≡ self.now) }
    {
        let bytes = Bytes::copy_from_slice(alloc, self.bytes())?;
        Ok(Frame { bytes })
    }

    /// The same message, which shares its buffer with this one: nothing is copied.
    pub fn share(&self) -> Result<Frame, AllocError>
        ensures value { IfOk result (λ shared. shared ≡ self.now) }
        ensures kept { IsMessage self.now }
    {
        let bytes = self.bytes.clone()?;
        Ok(Frame { bytes })
    }

    pub(crate) fn new(bytes: Bytes) -> Frame
        requires { IsMessage bytes }
        ensures { result ≡ bytes }
    {
        Frame { bytes }
    }

    /// The bytes of the message, which are moved out.
    pub(crate) fn into_bytes(self) -> Bytes
        ensures value { result ≡ self }
        ensures kept { IsMessage self }
    {
        self.bytes
    }

    /// The bytes of the message, its header first.
    pub fn bytes(&self) -> &[u8]
        ensures value { result.now ≡ self.now }
        ensures kept { IsMessage self.now }
        ensures bytes { IsBytes self.now }
    {
        let bytes = self.bytes.as_slice();
        a_slice_is_of_bytes(bytes);
        bytes
    }

    /// The fields of the message's header.
    pub fn header(&self) -> Header
        ensures { result ≡ header_of self.now }
    {
        Header::of_message(self.bytes())
    }
}

/// How long a message is whose header begins so.
pub(crate) fn announced_len(bytes: &[u8]) -> usize
    requires { 4 ≤ length bytes.now }
    ensures { result ≡ message_len bytes.now }
{
    HEADER_LEN + 4 * usize::from(u16::from_be_bytes([bytes[2], bytes[3]]))
}
