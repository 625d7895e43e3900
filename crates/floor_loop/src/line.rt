//! Connections in a line, each with a time.

ghost use Rattle.std.specs.Prelude.{◌≡◌, ◌≤◌, ◌<◌, ◌+◌, ◌++◌, ◌∷◌, [], MatchOption, OnOk, drop, length};

use floor_hub::ConnNo;
use std::alloc::{AllocError, Global};
use std::collections::VecDeque;
use std::marker::Model;

/// A connection, and since when or by when it stands there.
#[derive(Clone, Copy, Debug)]
pub(crate) struct Entry {
    pub number: ConnNo,
    pub time: u64,
}

/// A line of connections.
#[derive(Drop)]
pub(crate) struct Line {
    entries: VecDeque<Entry>,
}

impl Model for Line {
    ghost use Rattle.std.specs.VecDeque.{deque_capacity};
    ghost use Rattle.floor_loop.specs.steps.Listed.{Line};

    ghost Value = { Line };

    ghost view = { λ l. record { entries = l.entries.items; room = deque_capacity l.entries } };
}

impl Line {
    /// Nobody. Takes no memory.
    pub(crate) fn new(alloc: Global) -> Line
        ensures value { result.entries ≡ [] }
    {
        Line {
            entries: VecDeque::new(alloc),
        }
    }

    /// Takes room for so many more. After an error everybody stands there who did.
    pub(crate) fn reserve(&mut self, count: usize) -> Result<(), AllocError>
        ensures entries { self.new.entries ≡ self.old.entries }
        ensures room { OnOk result (length self.old.entries + count ≤ self.new.room) }
        ensures kept { self.old.room ≤ self.new.room }
    {
        self.entries.reserve(count)
    }

    /// Who stands first.
    pub(crate) fn first(&self) -> Option<Entry>
        ensures value { MatchOption result (self.now.entries ≡ [])
            (λ entry. self.now.entries ≡ entry ∷ drop 1 self.now.entries) }
    {
        self.entries.front().copied()
    }

    /// Puts a connection behind the others, for whom there is room.
    pub(crate) fn push(&mut self, number: ConnNo, time: u64)
        requires { length self.old.entries < self.old.room }
        ensures next { self.new ≡ record self.old {
          entries = self.old.entries ++ record { number = number; time = time } ∷ [];
        } }
    {
        self.entries.push_back_reserved(Entry { number, time });
    }

    /// Whoever stands first goes.
    pub(crate) fn drop_first(&mut self)
        ensures next { self.new ≡ record self.old { entries = drop 1 self.old.entries } }
    {
        let _first = self.entries.pop_front();
    }
}
