//! One message for one user, or for several that share its payload (RFC 8855, section 5.1).

ghost use Rattle.std.specs.Prelude.{◌≡◌, ◌≤◌, length, take, drop, IfOk};
ghost use Rattle.floor_wire.specs.Bytes.{IsBytes};
ghost use Rattle.floor_wire.specs.Header.{addressed};
ghost use Rattle.floor_wire.specs.Message.{IsMessage};

use crate::frame::Frame;
use crate::header::HEADER_LEN;
use crate::laws::a_slice_is_of_bytes;
use bytes::Bytes;
use std::alloc::AllocError;
use std::marker::Model;

/// At which byte of a message its User ID stands.
const USER_AT: usize = 10;

/// One message. It has its bytes to itself, or its header to itself and its payload with all that are
/// made of it for other users.
///
/// It is made of a `Frame`, and shares; or by a `FrameBuilder`, for one user alone, and doesn't.
/// `addressed` makes another; `header`, `payload` and `len` only look.
#[derive(Debug, Drop)]
pub struct SharedFrame {
    form: Form,
}

/// Where a message lies: in a vector of its own, or its header here and its payload with others.
#[derive(Debug, Drop)]
enum Form {
    Alone(Vec<u8>),
    Shared([u8; HEADER_LEN], Bytes),
}

impl Model for SharedFrame {
    ghost use Rattle.std.specs.Prelude.{ℕ, List};

    ghost Value = { List ℕ };

    ghost use Rattle.floor_wire.specs.Held.{IsWhole, message_of};

    ghost view = { λ f. message_of f.form };

    ghost invariant = { λ f. IsWhole f.form };
}

impl SharedFrame {
    /// The message of a frame, which is taken apart. Takes no memory, and copies the header alone.
    pub fn of(frame: Frame) -> SharedFrame
        ensures value { result ≡ frame }
    {
        let mut payload = frame.into_bytes();
        let mut header = [0; HEADER_LEN];
        header.copy_from_slice(&payload.as_slice()[..HEADER_LEN]);
        payload.advance(HEADER_LEN);
        SharedFrame {
            form: Form::Shared(header, payload),
        }
    }

    /// The message of these bytes, for one user alone. Takes no memory.
    pub(crate) fn alone(bytes: Vec<u8>) -> SharedFrame
        requires { IsMessage bytes.items }
        ensures { result ≡ bytes.items }
    {
        SharedFrame {
            form: Form::Alone(bytes),
        }
    }

    /// The same message with another User ID in its header. The payload is shared, and nothing of
    /// it is copied, unless the message is one for one user alone: that one is copied.
    pub fn addressed(&self, user: u16) -> Result<SharedFrame, AllocError>
        ensures value { IfOk result (λ frame. frame ≡ addressed self.now user) }
    {
        let user = user.to_be_bytes();
        let form = match &self.form {
            Form::Alone(bytes) => {
                let mut bytes = Vec::from_slice(*bytes.allocator(), bytes.as_slice())?;
                bytes[USER_AT..HEADER_LEN].copy_from_slice(&user);
                Form::Alone(bytes)
            }
            Form::Shared(header, payload) => {
                let mut header = *header;
                header[USER_AT..].copy_from_slice(&user);
                Form::Shared(header, payload.clone()?)
            }
        };
        Ok(SharedFrame { form })
    }

    /// The 12 bytes of the header.
    pub fn header(&self) -> &[u8]
        ensures value { result.now ≡ take HEADER_LEN self.now }
        ensures kept { IsMessage self.now }
        ensures bytes { IsBytes result.now }
    {
        let header = match &self.form {
            Form::Alone(bytes) => &bytes.as_slice()[..HEADER_LEN],
            Form::Shared(header, _payload) => &header[..],
        };
        a_slice_is_of_bytes(header);
        header
    }

    /// The bytes behind the header.
    pub fn payload(&self) -> &[u8]
        ensures value { result.now ≡ drop HEADER_LEN self.now }
        ensures bytes { IsBytes result.now }
    {
        let payload = match &self.form {
            Form::Alone(bytes) => behind_header(bytes.as_slice()),
            Form::Shared(_header, payload) => payload.as_slice(),
        };
        a_slice_is_of_bytes(payload);
        payload
    }

    /// How many bytes the message has, its header included.
    pub fn len(&self) -> usize
        ensures value { result ≡ length self.now }
    {
        match &self.form {
            Form::Alone(bytes) => bytes.len(),
            Form::Shared(_header, payload) => HEADER_LEN + payload.len(),
        }
    }
}

fn behind_header(bytes: &[u8]) -> &[u8]
    requires { 12 ≤ length bytes.now }
    ensures { result.now ≡ drop HEADER_LEN bytes.now }
{
    &bytes[HEADER_LEN..]
}
