//! The closed mark of an outbox, as others than its two ends read it.

use crate::line::Line;
use std::alloc::Global;
use std::sync::Arc;
use std::sync::atomic::Ordering;

/// Reads the closed mark of one pair. Of the mark nothing is proved.
#[derive(Drop)]
pub struct ClosedMark {
    pub(crate) line: Arc<Line, Global>,
}

impl ClosedMark {
    /// Whether the mark is set. Takes no memory.
    pub fn is_set(&self) -> bool {
        self.line.closed.load(Ordering::SeqCst)
    }
}
