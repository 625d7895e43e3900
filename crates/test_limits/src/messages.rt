//! Messages.

use floor_room::Frame;
use std::alloc::Global;

/// The message of these bytes.
pub fn frame(alloc: Global, bytes: &[u8]) -> Option<Frame> {
    match Frame::of(alloc, bytes) {
        Ok(found) => found,
        Err(_) => None,
    }
}
