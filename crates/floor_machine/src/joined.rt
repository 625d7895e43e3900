//! All that ever joined a conference, found by their numbers without a walk.

ghost use Rattle.std.specs.Prelude.{◌≡◌, ◌==◌, ◌<◌, ◌+◌, ◌-◌, ◌++◌, ◌∷◌, [], true, false, OnErr, OnOk, find, length, map};
ghost use Rattle.std.specs.List.{list_any, position_or_len, slice_get};
ghost use Rattle.std.specs.Option.{option_copied, option_map_or};
ghost use Rattle.floor_machine.specs.Change as change;
ghost use Rattle.floor_machine.specs.Conference.{is_numbered_from, joining, member_with};
ghost use Rattle.floor_machine.specs.steps.Counting.{counted_at, is_told, is_told_at, taken_on, with_cut};

use crate::member::Member;
use floor_wire::Numbers;
use std::alloc::{AllocError, Global};

/// How many messages that were told to a member may be unacknowledged: our choice, so that what waits
/// for a peer that doesn't read has an end.
const MAX_BACKLOG: usize = 1024;

/// All that ever joined, in the order of joining, with numbers that count from 1.
#[derive(Debug, Drop)]
pub(crate) struct Joined {
    /// The members.
    pub members: Vec<Member>,
    /// The numbers of the live ones that are cut, in no order.
    pub cut: Vec<u32>,
    ghost numbered: { is_numbered_from 1 members.items ≡ true },
}

impl Joined {
    /// Nobody has joined. Takes no memory.
    pub(crate) fn new(alloc: Global) -> Joined
        ensures members { result.members.items ≡ [] }
        ensures cut { result.cut.items ≡ [] }
    {
        Joined {
            members: Vec::new(alloc),
            cut: Vec::new(alloc),
        }
    }

    /// The place of the member with this number, and the number of members where none has it.
    fn place_of(&self, n: u32) -> usize
        ensures { result ≡ position_or_len (λ m. m.n == n) self.now.members.items }
    {
        if n == 0 {
            return self.members.len();
        }
        let place = (n - 1) as usize;
        if place < self.members.len() {
            place
        } else {
            self.members.len()
        }
    }

    /// The member with this number, live or not.
    fn find(&self, n: u32) -> Option<&Member>
        ensures { option_copied result ≡ find (λ m. m.n == n) self.now.members.items }
    {
        member_in(&self.members, self.place_of(n))
    }

    /// The live member with this number.
    pub(crate) fn find_live(&self, n: u32) -> Option<&Member>
        ensures { option_copied result ≡ member_with self.now.members.items n }
    {
        match self.find(n) {
            Some(member) => { if member.is_live { Some(member) } else { None } }
            None => None,
        }
    }

    /// How many messages were told to the member with this number and not acknowledged.
    pub(crate) fn backlog(&self, n: u32) -> u32
        ensures { result ≡ option_map_or (λ m. m.backlog)
            (find (λ m. m.n == n) self.now.members.items) 0 }
    {
        match self.find(n) {
            Some(member) => member.backlog,
            None => 0,
        }
    }

    /// Whether the member with this number, live or not, is cut.
    pub(crate) fn is_cut(&self, n: u32) -> bool
        ensures { result ≡ option_map_or (λ m. m.is_cut)
            (find (λ m. m.n == n) self.now.members.items) false }
    {
        match self.find(n) {
            Some(member) => member.is_cut,
            None => false,
        }
    }

    /// Whether the live member with this number is a connection of the user.
    fn is_of(&self, n: u32, user: u16) -> bool
        ensures { result ≡ option_map_or (λ m. m.user == user)
            (member_with self.now.members.items n) false }
    {
        match self.find_live(n) {
            Some(member) => member.user == user,
            None => false,
        }
    }

    /// Whether one of the live members with these numbers is a connection of the user.
    pub(crate) fn is_of_any(&self, numbers: &[u32], user: u16) -> bool
        ensures { result ≡ list_any (λ n. option_map_or (λ m. m.user == user)
            (member_with self.now.members.items n) false) numbers.now }
    {
        numbers.iter().any(|n| self.is_of(*n, user))
    }

    /// Adds a live member, which gets the next number. After an error nothing has changed.
    pub(crate) fn push(&mut self, alloc: Global, n: u32, user: u16) -> Result<(), AllocError>
        requires { n ≡ length self.old.members.items + 1 }
        ensures next { OnOk result
            (self.new.members.items ≡ self.old.members.items ++ joining n user ∷ []) }
        ensures left { OnErr result (self.new.members.items ≡ self.old.members.items) }
        ensures cut { self.new.cut.items ≡ self.old.cut.items }
    {
        self.members.push(Member {
            n,
            user,
            watched: Numbers::from_vec(Vec::new(alloc)),
            is_live: true,
            backlog: 0,
            is_cut: false,
        })?;
        Ok(())
    }

    /// The member with this number watches these floors from now on.
    pub(crate) fn watch(&mut self, n: u32, watched: Numbers)
        ensures members { self.new.members.items
            ≡ map (change.watching n watched) self.old.members.items }
        ensures cut { self.new.cut.items ≡ self.old.cut.items }
    {
        let place = self.place_of(n);
        if place < self.members.len() {
            self.members[place].watched = watched;
        }
    }

    /// So many of the messages that were told to the member with this number are acknowledged.
    pub(crate) fn acknowledge(&mut self, n: u32, k: u32)
        ensures members { self.new.members.items
            ≡ map (change.acknowledging n k) self.old.members.items }
        ensures cut { self.new.cut.items ≡ self.old.cut.items }
    {
        let place = self.place_of(n);
        if place < self.members.len() {
            acknowledge(&mut self.members[place], k);
        }
    }

    /// Whether the member with this number is told so many messages, which are due to it.
    fn is_told(&self, n: u32, due: usize) -> bool
        ensures { result ≡ is_told_at due n self.now.members.items }
    {
        match self.find(n) {
            Some(member) => is_told(member, due),
            None => false,
        }
    }

    /// Notes the member with this number where so many messages, which are due to it, cut it. After
    /// an error nothing has changed.
    pub(crate) fn note_cut(&mut self, n: u32, due: usize) -> Result<(), AllocError>
        ensures members { self.new.members.items ≡ self.old.members.items }
        ensures cut { OnOk result (self.new.cut.items
            ≡ with_cut due n self.old.members.items self.old.cut.items) }
        ensures left { OnErr result (self.new.cut.items ≡ self.old.cut.items) }
    {
        if 0 < due && !self.is_told(n, due) {
            self.cut.push(n)?;
        }
        Ok(())
    }

    /// Whether the member with this number is told so many messages, which are due to it: then they
    /// are added to its backlog. Where that would be more than 1,024, it is cut.
    pub(crate) fn take_on(&mut self, n: u32, due: usize) -> bool
        ensures value { result ≡ is_told_at due n self.old.members.items }
        ensures members { self.new.members.items
            ≡ map (counted_at due n) self.old.members.items }
        ensures cut { self.new.cut.items ≡ self.old.cut.items }
    {
        let place = self.place_of(n);
        if place < self.members.len() {
            take_on(&mut self.members[place], due)
        } else {
            false
        }
    }

    /// The member with this number is no longer live.
    pub(crate) fn leave(&mut self, n: u32)
        ensures members { self.new.members.items
            ≡ map (change.leaving n) self.old.members.items }
        ensures cut { self.new.cut.items ≡ self.old.cut.items }
    {
        let place = self.place_of(n);
        if place < self.members.len() {
            self.members[place].is_live = false;
        }
    }
}

/// So many of the messages that were told to the member are acknowledged.
fn acknowledge(member: &mut Member, k: u32)
    ensures { member.new ≡ record member.old { backlog = member.old.backlog - k } }
{
    member.backlog = member.backlog.saturating_sub(k);
}

/// Whether the member is told so many messages, which are due to it: then they are added to its
/// backlog. Where that would be more than 1,024, it is cut.
fn take_on(member: &mut Member, due: usize) -> bool
    ensures value { result ≡ is_told due member.old }
    ensures member { member.new ≡ taken_on due member.old }
{
    if is_told(member, due) {
        member.backlog += due as u32;
        true
    } else {
        member.is_cut = member.is_cut || 0 < due;
        false
    }
}

/// Whether the member is told so many messages, which are due to it.
fn is_told(member: &Member, due: usize) -> bool
    ensures { result ≡ is_told due member.now }
{
    !member.is_cut && due <= MAX_BACKLOG && member.backlog as usize + due <= MAX_BACKLOG
}

fn member_in(joined: &[Member], place: usize) -> Option<&Member>
    ensures { option_copied result ≡ slice_get joined.now place }
{
    joined.get(place)
}
