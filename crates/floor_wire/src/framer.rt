//! Dividing a stream of bytes into messages (RFC 8855, section 5.1).
//!
//! ```text
//!          `next` takes off this one             `push` adds here
//!          |                                                    |
//!          v                                                    v
//! taken    +------------------+------------------+--------------+
//! off ...  | header | payload | header | payload | header | pay |
//!          +------------------+------------------+--------------+
//!          <--------------- `rest_len` bytes are held ---------->
//! ```

ghost use Rattle.std.specs.Prelude.{◌≡◌, ◌↔◌, [], ◌∷◌, ◌++◌, false, length, IfOk, OnOk, OnErr, List, ℕ, MatchOption};
ghost use Rattle.floor_wire.specs.Message.{messages, rest};

use crate::frame::{Frame, announced_len};
use crate::header::HEADER_LEN;
use bytes::BytesMut;
use std::alloc::{AllocError, Global};
use std::marker::Model;

/// The bytes of a stream that are not divided into messages yet.
///
/// It holds what was pushed and nothing else: a Payload Length that announces much takes no memory.
/// `push` adds a piece; `next` takes a message off; `ready` and `rest_len` only look.
#[derive(Debug, Drop)]
pub struct Framer {
    held: BytesMut,
}

impl Model for Framer {
    ghost use Rattle.std.specs.Prelude.{ℕ, List};

    ghost Value = { List ℕ };

    ghost view = { λ f. f.held.items };
}

impl Framer {
    /// A framer that holds nothing. Takes no memory.
    pub fn new(alloc: Global) -> Framer
        ensures { result ≡ [] }
    {
        Framer {
            held: BytesMut::new(alloc),
        }
    }

    /// Adds a piece of the stream at the end.
    pub fn push(&mut self, piece: &[u8]) -> Result<(), AllocError>
        ensures next { OnOk result (self.new ≡ self.old ++ piece.now) }
        ensures left { OnErr result (self.new ≡ self.old) }
    {
        self.held.extend_from_slice(piece)
    }

    /// Whether a whole message is held.
    pub fn ready(&self) -> bool
        ensures { (result ≡ false) ↔ (messages self.now ≡ []) }
    {
        let held = self.held.as_slice();
        held.len() >= HEADER_LEN && held.len() >= announced_len(held)
    }

    /// Takes off the first message, where a whole one is held. Its bytes are cut off, not copied.
    pub fn next(&mut self) -> Result<Option<Frame>, AllocError>
        ensures found { IfOk result (λ next. MatchOption next
            ((messages self.old ≡ []) × (self.new ≡ self.old))
            (λ frame. (messages self.old ≡ frame ∷ messages self.new)
            × (self.old ≡ frame ++ self.new))) }
        ensures rest { OnOk result (rest self.new ≡ rest self.old) }
        ensures left { OnErr result (self.new ≡ self.old) }
    {
        let held = self.held.as_slice();
        if held.len() < HEADER_LEN {
            return Ok(None);
        }
        let len = announced_len(held);
        if held.len() < len {
            return Ok(None);
        }
        let bytes = self.held.freeze_to(len)?;
        Ok(Some(Frame::new(bytes)))
    }

    /// How many bytes are held, those of whole messages among them.
    pub fn rest_len(&self) -> usize
        ensures { result ≡ length self.now }
    {
        self.held.len()
    }
}
