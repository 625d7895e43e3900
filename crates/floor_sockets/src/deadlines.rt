//! By when something is due for a socket.

ghost use Rattle.std.specs.Prelude.{◌≡◌, ◌≤◌, ◌<◌, [], All, Contains, IfNone, IfSome, OnOk, if◌then◌else◌, length, vec_capacity};
ghost use Rattle.floor_sockets.specs.Sockets.{with_due, without};
ghost use Rattle.floor_sockets.specs.declared.deadlines.Deadline.{Deadline as Due};

use std::alloc::{AllocError, Global};
use std::marker::Model;

/// By when something is due for the socket in a slot, in microseconds.
#[derive(Clone, Copy, Debug, PartialEq, Eq)]
pub struct Deadline {
    pub slot: usize,
    pub until: u64,
}

/// Deadlines, in no order, one of each slot at most: few sockets have one.
#[derive(Drop)]
pub(crate) struct Deadlines {
    items: Vec<Deadline>,
}

impl Model for Deadlines {
    ghost use Rattle.std.specs.Prelude.{vec_capacity};
    ghost use Rattle.floor_sockets.specs.steps.Due.{Deadlines};

    ghost Value = { Deadlines };

    ghost view = { λ d. record { items = d.items.items; room = vec_capacity d.items } };
}

impl Deadlines {
    /// None. Takes no memory.
    pub(crate) fn new(alloc: Global) -> Deadlines
        ensures value { result.items ≡ [] }
    {
        Deadlines {
            items: Vec::new(alloc),
        }
    }

    /// Takes room for more deadlines than there are sockets, of which there are so many.
    pub(crate) fn reserve(&mut self, sockets: usize) -> Result<(), AllocError>
        ensures items { self.new.items ≡ self.old.items }
        ensures room { OnOk result (sockets < self.new.room) }
        ensures more { self.old.room ≤ self.new.room }
    {
        let Some(count) = sockets.checked_add(1) else {
            return Err(AllocError);
        };
        self.items.reserve(count)
    }

    /// This is the slot's deadline, and none before it, where the socket is to have it. There is room for it.
    pub(crate) fn put(&mut self, has_one: bool, slot: usize, until: u64)
        requires { length (without slot self.old.items) < self.old.room }
        ensures next { self.new.items ≡ with_due has_one slot until self.old.items }
        ensures room { self.new.room ≡ self.old.room }
    {
        if has_one {
            cancel_in(&mut self.items, slot);
            self.items.push_reserved(Deadline { slot, until });
        }
    }

    /// Those of a slot are no more.
    pub(crate) fn cancel(&mut self, slot: usize)
        ensures next { self.new.items ≡ without slot self.old.items }
        ensures room { self.new.room ≡ self.old.room }
    {
        cancel_in(&mut self.items, slot);
    }

    /// The same, where this is so.
    pub(crate) fn cancel_where(&mut self, is_so: bool, slot: usize)
        ensures next { self.new.items
            ≡ (if is_so then without slot self.old.items else self.old.items) }
        ensures room { self.new.room ≡ self.old.room }
    {
        if is_so {
            self.cancel(slot);
        }
    }

    /// A slot of which one has come at this time.
    pub(crate) fn come(&self, time: u64) -> Option<Deadline>
        ensures found { IfSome result (λ d. Contains self.now.items d × (d.until ≤ time)) }
        ensures none { IfNone result (All (λ d. time < d.until) self.now.items) }
    {
        self.items
            .iter()
            .copied()
            .find(|deadline| deadline.until <= time)
    }

    /// The soonest.
    pub(crate) fn soonest(&self) -> Option<u64>
        ensures found { IfSome result (λ until. (d : Due) × Contains self.now.items d × (d.until ≡ until)) }
        ensures first { IfSome result (λ until. All (λ d. until ≤ d.until) self.now.items) }
        ensures none { IfNone result (self.now.items ≡ []) }
    {
        self.items.iter().map(|deadline| deadline.until).min()
    }
}

/// Those of a slot are no more.
fn cancel_in(items: &mut Vec<Deadline>, slot: usize)
    ensures next { items.new.items ≡ without slot items.old.items }
    ensures fewer { length items.new.items ≤ length items.old.items }
    ensures room { vec_capacity items.new ≡ vec_capacity items.old }
{
    items.retain(|deadline| deadline.slot != slot);
}
