//! How many connections a server of one port has at once.

ghost use Rattle.std.specs.Prelude.{◌≡◌, ◌<◌, ◌≤◌, ◌+◌, ◌-◌, ◌↔◌, IsSome, IsTrue, None};

use std::marker::Model;

/// A place that was granted to a connection. A thread can be handed nothing that can't be dropped, so
/// this can; what its thread makes of it first can't.
#[derive(Drop)]
pub struct Granted {
    _private: (),
}

impl Granted {
    /// The place, to be given back.
    pub fn taken(self) -> Taken {
        let Granted { _private } = self;
        Taken { _private }
    }
}

/// A place that a connection has. It can't be dropped: it is given back.
pub struct Taken {
    _private: (),
}

/// How many connections there may be at once, and how many there are.
///
/// A connection has a place from `take` to `give_back`: [`Granted::taken`] turns what was granted into
/// what can't be dropped.
#[derive(Drop)]
pub struct Capacity {
    most: usize,
    taken: usize,
}

impl Model for Capacity {
    ghost use Rattle.std.specs.Prelude.{◌≤◌};
    ghost use Rattle.floor_listen.specs.Capacity.{Capacity};

    ghost Value = { Capacity };

    ghost view = { λ c. record { most = c.most; taken = c.taken } };

    ghost invariant = { λ c. c.taken ≤ c.most };
}

impl Capacity {
    /// So many places, all free. Takes no memory.
    pub fn new(most: usize) -> Capacity
        ensures value { result ≡ record { most = most; taken = 0 } }
    {
        Capacity { most, taken: 0 }
    }

    /// Grants a place, if one is free.
    pub fn take(&mut self) -> Option<Granted>
        ensures found { IsSome result ↔ (self.old.taken < self.old.most) }
        ensures took { IsSome result → self.new ≡ record self.old { taken = self.old.taken + 1 } }
        ensures left { result ≡ None → self.new ≡ self.old }

        ensures kept { self.new.taken ≤ self.new.most }
    {
        if self.taken < self.most {
            self.taken += 1;
            return Some(Granted { _private: () });
        }
        None
    }

    /// Gives a place back.
    pub fn give_back(&mut self, taken: Taken)
        ensures next { self.new ≡ record self.old { taken = self.old.taken - 1 } }
    {
        let Taken { _private: () } = taken;
        self.taken = self.taken.saturating_sub(1);
    }

    /// Whether no place is taken.
    pub fn is_idle(&self) -> bool
        ensures value { IsTrue result ↔ (self.now.taken ≡ 0) }
    {
        self.taken == 0
    }
}
