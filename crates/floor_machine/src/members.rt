//! All members of a conference, and which of them are live.

ghost use Rattle.std.specs.Prelude.{◌≡◌, ◌==◌, ◌&&◌, ◌<◌, ◌+◌, ◌∷◌, ◌++◌, [], false, true, OnOk, OnErr, count_by, filter, find, is_some, length, map, not};
ghost use Rattle.std.specs.List.{list_any};
ghost use Rattle.std.specs.Option.{option_copied, option_map_or};
ghost use Rattle.floor_machine.specs.Change as change;
ghost use Rattle.floor_machine.specs.Conference.{AreCut, is_numbered_from, is_present, joining, live_numbers, member_with};
ghost use Rattle.floor_machine.specs.steps.Counting.{AreWatching, noted_if};

use crate::joined::Joined;
use crate::member::Member;
use floor_wire::Numbers;
use std::alloc::{AllocError, Global};
use std::marker::Model;

/// All that ever joined, in the order of joining, and the numbers of those that are live, of those of
/// them that watch floors, and of those that are cut: what is done for each of these costs nothing for
/// the others. Contracts see the members alone.
#[derive(Debug, Drop)]
pub(crate) struct Members {
    /// All that ever joined.
    pub joined: Joined,
    /// The numbers of those that are live, ascending.
    pub live: Vec<u32>,
    /// The numbers of the live ones that watch some floor, in no order.
    pub watching: Vec<u32>,
}

impl Model for Members {
    ghost use Rattle.std.specs.Prelude.{List};
    ghost use Rattle.floor_machine.specs.declared.member.Member.{Member};
    ghost use Rattle.floor_machine.specs.steps.Counting.{AreListed};

    ghost Value = { List Member };

    ghost view = { λ m. m.joined.members.items };

    ghost invariant = { λ m. AreListed m.joined.members.items m.live.items m.watching.items
        m.joined.cut.items };
}

impl Members {
    /// Nobody has joined. Takes no memory.
    pub(crate) fn new(alloc: Global) -> Members
        ensures { result ≡ [] }
    {
        Members {
            joined: Joined::new(alloc),
            live: Vec::new(alloc),
            watching: Vec::new(alloc),
        }
    }

    pub(crate) fn allocator(&self) -> Global
        ensures kept { is_numbered_from 1 self.now ≡ true }
    {
        *self.joined.members.allocator()
    }

    /// How many ever joined.
    pub(crate) fn len(&self) -> usize
        ensures value { result ≡ length self.now }
        ensures kept { is_numbered_from 1 self.now ≡ true }
    {
        self.joined.members.len()
    }

    /// How many are live.
    pub(crate) fn live(&self) -> usize
        ensures { result ≡ count_by (λ m. m.is_live) self.now }
    {
        self.live.len()
    }

    /// The numbers of the live ones, ascending.
    pub(crate) fn live_numbers(&self) -> &[u32]
        ensures value { result.now ≡ live_numbers self.now }
        ensures kept { is_numbered_from 1 self.now ≡ true }
    {
        self.live.as_slice()
    }

    /// The numbers of the live ones that watch some floor, in no order.
    pub(crate) fn watching(&self) -> &[u32]
        ensures value { AreWatching self.now result.now }
        ensures kept { is_numbered_from 1 self.now ≡ true }
    {
        self.watching.as_slice()
    }

    /// The live member with this number.
    pub(crate) fn get(&self, n: u32) -> Option<&Member>
        ensures { option_copied result ≡ member_with self.now n }
    {
        self.joined.find_live(n)
    }

    /// How many messages were told to the member with this number and not acknowledged.
    pub(crate) fn backlog(&self, n: u32) -> u32
        ensures { result ≡ option_map_or (λ m. m.backlog) (find (λ m. m.n == n) self.now) 0 }
    {
        self.joined.backlog(n)
    }

    /// The numbers of the live ones that are cut, in no order.
    pub(crate) fn cut_numbers(&self) -> &[u32]
        ensures { AreCut self.now result.now }
    {
        self.joined.cut.as_slice()
    }

    /// Whether the member with this number, live or not, is cut.
    pub(crate) fn is_cut(&self, n: u32) -> bool
        ensures { result ≡ option_map_or (λ m. m.is_cut) (find (λ m. m.n == n) self.now) false }
    {
        self.joined.is_cut(n)
    }

    /// Whether some live member is a connection of the user.
    pub(crate) fn is_present(&self, user: u16) -> bool
        ensures { result ≡ is_present self.now user }
    {
        is_present(&self.joined, &self.live, user)
    }

    /// Adds a live member, which gets the next number. After an error nothing has changed.
    pub(crate) fn join(&mut self, n: u32, user: u16) -> Result<(), AllocError>
        requires { n ≡ length self.old + 1 }
        ensures next { OnOk result (self.new ≡ self.old ++ joining n user ∷ []) }
        ensures left { OnErr result (self.new ≡ self.old) }
    {
        let alloc = *self.joined.members.allocator();
        self.live.reserve(1)?;
        self.joined.push(alloc, n, user)?;
        let _pushed = self.live.push(n);
        Ok(())
    }

    /// The member with this number watches these floors from now on. After an error nothing has
    /// changed.
    pub(crate) fn watch(&mut self, n: u32, floors: Numbers) -> Result<(), AllocError>
        ensures next { OnOk result (self.new ≡ map (change.watching n floors) self.old) }
        ensures left { OnErr result (self.new ≡ self.old) }
    {
        let is_watching = is_to_watch(&self.joined, n, floors.as_slice());
        put_number(&mut self.watching, n, is_watching)?;
        self.joined.watch(n, floors);
        Ok(())
    }

    /// So many of the messages that were told to the member with this number are acknowledged.
    pub(crate) fn acknowledge(&mut self, n: u32, k: u32)
        ensures { self.new ≡ map (change.acknowledging n k) self.old }
    {
        self.joined.acknowledge(n, k);
    }

    /// The member with this number is no longer live.
    pub(crate) fn leave(&mut self, n: u32)
        ensures { self.new ≡ map (change.leaving n) self.old }
    {
        self.joined.leave(n);
        take_number(&mut self.live, n);
        take_number(&mut self.watching, n);
        take_number(&mut self.joined.cut, n);
    }
}

/// Whether some of these live members is a connection of the user.
fn is_present(joined: &Joined, live: &[u32], user: u16) -> bool
    requires { live.now ≡ live_numbers joined.now.members.items }
    ensures { result ≡ is_present joined.now.members.items user }
{
    joined.is_of_any(live, user)
}

/// Whether the member with this number is live, and these floors are some.
fn is_to_watch(joined: &Joined, n: u32, floors: &[u16]) -> bool
    ensures { result ≡ (is_some (member_with joined.now.members.items n)
        && not (length floors.now == 0)) }
{
    match joined.find_live(n) {
        Some(_member) => !floors.is_empty(),
        None => false,
    }
}

/// Notes the number of a member among some, or takes it out of them. After an error nothing has
/// changed.
fn put_number(numbers: &mut Vec<u32>, n: u32, is_one: bool) -> Result<(), AllocError>
    ensures next { OnOk result (numbers.new.items ≡ noted_if is_one n numbers.old.items) }
    ensures left { OnErr result (numbers.new.items ≡ numbers.old.items) }
{
    if !is_one {
        take_number(numbers, n);
        return Ok(());
    }
    let is_noted = has_number(numbers, n);
    if !is_noted {
        numbers.push(n)?;
    }
    Ok(())
}

fn has_number(numbers: &[u32], n: u32) -> bool
    ensures { result ≡ list_any (λ k. k == n) numbers.now }
{
    numbers.iter().any(|k| *k == n)
}

/// Takes the number of a member out of some.
fn take_number(numbers: &mut Vec<u32>, n: u32)
    ensures { numbers.new.items ≡ filter (λ k. not (k == n)) numbers.old.items }
{
    numbers.retain(|k| *k != n);
}
