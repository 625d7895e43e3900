//! Slots one behind another.

ghost use Rattle.std.specs.Prelude.{◌≡◌, ◌++◌, ◌∷◌, ◌<◌, ◌↔◌, [], IsTrue, MatchOption, OnErr, OnOk, length};

use std::alloc::{AllocError, Global};
use std::collections::VecDeque;
use std::marker::Model;

/// Slots one behind another.
#[derive(Drop)]
pub(crate) struct Queue {
    slots: VecDeque<usize>,
}

impl Model for Queue {
    ghost use Rattle.std.specs.Prelude.{List, ℕ};

    ghost Value = { List ℕ };

    ghost view = { λ q. q.slots.items };
}

impl Queue {
    /// None. Takes no memory.
    pub(crate) fn new(alloc: Global) -> Queue
        ensures value { result ≡ [] }
    {
        Queue {
            slots: VecDeque::new(alloc),
        }
    }

    /// Whether none is there.
    pub(crate) fn is_empty(&self) -> bool
        ensures value { IsTrue result ↔ (length self.now ≡ 0) }
    {
        self.slots.is_empty()
    }

    /// Puts one behind the others. After an error nothing has changed.
    pub(crate) fn push(&mut self, slot: usize) -> Result<(), AllocError>
        ensures took { OnOk result (self.new ≡ self.old ++ slot ∷ []) }
        ensures left { OnErr result (self.new ≡ self.old) }
    {
        match self.slots.push_back(slot) {
            Ok(()) => Ok(()),
            Err(_) => Err(AllocError),
        }
    }

    /// Takes the first.
    pub(crate) fn pop(&mut self) -> Option<usize>
        ensures value { MatchOption result ((self.old ≡ []) × (self.new ≡ []))
            (λ slot. self.old ≡ slot ∷ self.new) }
    {
        self.slots.pop_front()
    }
}
