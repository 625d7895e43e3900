//! Copies of messages that are kept long.

ghost use Rattle.std.specs.Prelude.{◌≡◌, IfOk};

use crate::frame::Frame;
use bytes::BytesMut;
use std::alloc::{AllocError, Global};

/// The longest message that shares a block, in bytes. So at most that much of a block stays unused.
const MAX_SHARED: usize = 256;

/// How large the first block is, in bytes. Each further one is twice as large as the one before.
const FIRST_BLOCK: usize = 256;

/// How large a block is at most, in bytes.
const MAX_BLOCK: usize = 16 * 1024;

/// Makes copies of messages, which share no memory with what they were copied from.
///
/// A short message stands in one block with the copies before and behind it, so that it takes
/// little more memory than its bytes; a longer one has a block to itself. A block is freed with the
/// last of its copies.
#[derive(Debug, Drop)]
pub struct Copies {
    /// What is left of the last block.
    free: BytesMut,
    /// How large the next block is, in bytes.
    next_block: usize,
}

impl Copies {
    /// No copy was made yet. Takes no memory.
    pub fn new(alloc: Global) -> Copies {
        Copies {
            free: BytesMut::new(alloc),
            next_block: FIRST_BLOCK,
        }
    }

    /// An equal message, of exactly its length.
    pub fn copy(&mut self, frame: &Frame) -> Result<Frame, AllocError>
        ensures value { IfOk result (λ copy. copy ≡ frame.now) }
    {
        let bytes = frame.bytes();
        if bytes.len() > MAX_SHARED {
            return frame.copy(*self.free.allocator());
        }
        // A copy that found no memory may have left its bytes here.
        self.free.truncate(0);
        if self.free.capacity() < bytes.len() {
            self.free.reserve(self.next_block.max(bytes.len()))?;
            if self.next_block < MAX_BLOCK {
                self.next_block *= 2;
            }
        }
        self.free.extend_from_slice(bytes)?;
        let copy = self.free.freeze_to(bytes.len())?;
        Ok(Frame::new(copy))
    }
}
