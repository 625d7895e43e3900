//! Whom to wake once a conference's lock is given back.
//!
//! Waking a sleeping thread is a call of the system: no other thread waits for the lock meanwhile.

ghost use Rattle.std.specs.Prelude.{◌≡◌, ◌∷◌, ◌++◌, [], OnErr, OnOk};

use floor_outbox::{Sender, Waker};
use std::alloc::{AllocError, Global};
use std::marker::Model;
use std::mem;

/// Whom to wake once a conference's lock is given back. Contracts see the pairs whose takers it wakes,
/// in the order in which they were added.
#[derive(Drop)]
pub struct Wakers {
    /// The first that was added. Most events tell one member alone: to wake it takes no memory.
    first: Option<Told>,
    /// The others.
    more: Vec<Told>,
}

/// A member that was told something, and what wakes its taker.
#[derive(Drop)]
struct Told {
    n: u32,
    waker: Waker,
}

impl Model for Told {
    ghost use Rattle.floor_outbox.specs.Ends.{PairId};

    ghost Value = { PairId };

    ghost view = { λ t. t.waker };
}

impl Model for Wakers {
    ghost use Rattle.std.specs.Prelude.{◌≡◌, List, [], None};
    ghost use Rattle.floor_outbox.specs.Ends.{PairId};
    ghost use Rattle.floor_serve.specs.steps.Waking.{with_first};

    ghost Value = { List PairId };

    ghost view = { λ w. with_first w.first w.more.items };

    ghost invariant = { λ w. w.first ≡ None → w.more.items ≡ [] };
}

impl Wakers {
    /// Nobody is to be woken. Takes no memory.
    pub(crate) fn new(alloc: Global) -> Wakers
        ensures { result ≡ [] }
    {
        Wakers {
            first: None,
            more: Vec::new(alloc),
        }
    }

    /// Adds the taker of this sender, which is that of the member n.
    pub(crate) fn add(&mut self, n: u32, sender: &Sender) -> Result<(), AllocError>
        ensures next { OnOk result (self.new ≡ self.old ++ sender.now.pair ∷ []) }
        ensures left { OnErr result (self.new ≡ self.old) }
    {
        let waker = sender.waker()?;
        let told = Told { n, waker };
        if self.first.is_none() {
            self.first = Some(told);
            return Ok(());
        }
        self.more.push(told)?;
        Ok(())
    }

    /// Takes those out that were added. Takes no memory.
    pub(crate) fn take(&mut self) -> Wakers
        ensures taken { result ≡ self.old }
        ensures next { self.new ≡ [] }
    {
        let alloc = *self.more.allocator();
        mem::replace(self, Wakers::new(alloc))
    }

    /// Wakes each of them. Takes no memory.
    pub fn wake(self) {
        // No member has the number 0.
        self.wake_those(0, false);
    }

    /// Wakes each of them, the member n before the others. Takes no memory.
    pub fn wake_first(self, n: u32) {
        // To wake many takes a while, and n alone waits for an answer.
        self.wake_those(n, true);
        self.wake_those(n, false);
    }

    /// Wakes the member n, or each of the others: once for parcels of one member that stand together.
    fn wake_those(&self, n: u32, itself: bool) {
        let mut last = 0;
        for told in self.first.iter().chain(&self.more) {
            if told.n != last && (told.n == n) == itself {
                told.waker.wake();
            }
            last = told.n;
        }
    }
}
