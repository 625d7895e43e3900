//! What wakes the taker of an outbox from another thread.

use crate::line::Line;
use std::alloc::Global;
use std::marker::Model;
use std::sync::Arc;

/// Wakes the taker of one pair, when what was put may be taken. Contracts see the pair; that the
/// taker wakes is not proved.
#[derive(Drop)]
pub struct Waker {
    pub(crate) line: Arc<Line, Global>,
}

impl Model for Waker {
    ghost use Rattle.std.specs.Arc.{arc_value};
    ghost use Rattle.floor_outbox.specs.Ends.{PairId};

    ghost Value = { PairId };

    ghost view = { λ w. (arc_value w.line).queue.web };
}

impl Waker {
    /// Wakes the taker, or lets its next sleep end at once. Takes no memory.
    pub fn wake(&self) {
        self.line.parker.unpark();
    }
}
