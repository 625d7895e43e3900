//! Which member is in which slot.

ghost use Rattle.std.specs.Prelude.{◌≡◌, ◌≤◌, ◌<◌, ℕ, None, OnErr, OnOk, Some, false, nat_eq};
ghost use Rattle.floor_meetings.specs.Members.{IsPaired, member_in, slot_of};
ghost use Rattle.floor_meetings.specs.declared.members.Member.{Member as Known};
ghost use Rattle.floor_meetings.specs.steps.Placed.{HasRoom, IsGone, SameMembers};

use floor_loop::ConnNo;
use indexmap::IndexMap;
use std::alloc::{AllocError, Global};
use std::marker::Model;

/// A member that is in a slot: its connection's number, its conference and its user.
#[derive(Clone, Copy, Debug, PartialEq, Eq)]
pub struct Member {
    pub number: ConnNo,
    pub conference: u32,
    pub user: u16,
}

/// The members by slot, and the slot of each by its connection's number.
#[derive(Drop)]
pub(crate) struct Members {
    slots: Vec<Option<Member>>,
    numbers: IndexMap<u64, usize>,
}

impl Model for Members {
    ghost use Rattle.std.specs.Prelude.{vec_capacity};
    ghost use Rattle.indexmap.specs.IndexMap.{spare};
    ghost use Rattle.floor_meetings.specs.Members.{IsPaired, Members};

    ghost Value = { Members };

    ghost view = { λ m. record {
      slots = m.slots.items;
      numbers = m.numbers.entries;
      room = spare m.numbers;
    } };

    ghost invariant = { λ m. IsPaired record {
      slots = m.slots.items;
      numbers = m.numbers.entries;
      room = spare m.numbers;
    } };
}

impl Members {
    /// Nobody. Takes no memory.
    pub(crate) fn new(alloc: Global) -> Members
        ensures none { (slot : ℕ) → member_in result slot ≡ None }
    {
        Members {
            slots: Vec::new(alloc),
            numbers: IndexMap::new(alloc),
        }
    }

    /// The member in a slot.
    pub(crate) fn get(&self, slot: usize) -> Option<Member>
        ensures value { result ≡ member_in self.now slot }
    {
        match self.slots.get(slot) {
            Some(member) => *member,
            None => None,
        }
    }

    /// The slot of the member whose connection has this number.
    pub(crate) fn slot_of(&self, number: ConnNo) -> Option<usize>
        ensures value { result ≡ slot_of self.now number }
        ensures kept { IsPaired self.now }
    {
        self.numbers.get(&number).copied()
    }

    /// Takes room for a member in this slot.
    pub(crate) fn reserve(&mut self, slot: usize) -> Result<(), AllocError>
        ensures room { OnOk result (HasRoom slot self.new) }
        ensures same { SameMembers self.old self.new }
    {
        self.numbers.reserve(1)?;
        let Some(count) = slot.checked_add(1) else {
            return Err(AllocError);
        };
        if count <= self.slots.len() {
            return Ok(());
        }
        self.slots.resize(count, None)
    }

    /// A member is in a slot from now on, for which there is room. A number is given once, so nobody is in another by it.
    pub(crate) fn put(&mut self, slot: usize, member: Member)
        requires room { HasRoom slot self.old }
        requires free { member_in self.old slot ≡ None }
        ensures here { member_in self.new slot ≡ Some member }
        ensures others { slot_of self.old member.number ≡ None → (k : ℕ) → nat_eq slot k ≡ false
            → member_in self.new k ≡ member_in self.old k }
    {
        self.leave(member.number);
        let _before = self.numbers.insert(member.number, slot);
        self.slots[slot] = Some(member);
    }

    /// Whoever is in this slot isn't any more.
    pub(crate) fn remove(&mut self, slot: usize)
        ensures gone { member_in self.new slot ≡ None }
        ensures nowhere { (m : Known) → member_in self.old slot ≡ Some m
            → slot_of self.new m.number ≡ None }
        ensures others { (k : ℕ) → nat_eq slot k ≡ false
            → member_in self.new k ≡ member_in self.old k }
    {
        // For what it says of the pairs.
        let _ = &self.slots;
        match self.get(slot) {
            Some(member) => self.leave(member.number),
            None => {}
        }
    }

    /// Whoever has this number is in no slot any more.
    fn leave(&mut self, number: ConnNo)
        ensures left { IsGone number self.old self.new }
    {
        match self.numbers.swap_remove(&number) {
            Some(slot) => self.slots[slot] = None,
            None => {}
        }
    }
}
