//! What the two ends of an outbox share.

use crate::rule::Queue;
use std::sync::atomic::AtomicBool;
use std::thread::Parker;

/// The queue, the mark that its sender is closed, and where its taker sleeps.
pub(crate) struct Line {
    pub(crate) queue: Queue,
    pub(crate) closed: AtomicBool,
    pub(crate) parker: Parker,
}

impl Drop for Line {
    fn drop(self) {
        let Line {
            queue,
            closed: _,
            parker: _,
        } = self;
        queue.destroy();
    }
}
