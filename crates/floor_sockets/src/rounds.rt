//! Whose turn it is: turns go round the groups, and in each round one of each group has one.

ghost use Rattle.std.specs.Prelude.{◌≡◌, ◌≤◌, ◌<◌, ◌++◌, ◌∷◌, [], ℕ, IfNone, IfOk, IfSome, List, OnErr, OnOk, false, if◌then◌else◌, length, nat_eq, not, slice_set};
ghost use Rattle.std.specs.VecDeque.{deque_capacity, deque_len};
ghost use Rattle.floor_sockets.specs.Rounds.{IsPut, IsTurn, SameQueues, queue_in, times, times_in, total};
ghost use Rattle.floor_sockets.specs.steps.Rounds.{stands_in};

use crate::queue::Queue;
use std::alloc::{AllocError, Global};
use std::collections::VecDeque;
use std::marker::Model;

/// Who waits for a turn, each once: groups in the order of their turns, and of each group who waits, who came first
/// in front.
#[derive(Drop)]
pub(crate) struct Rounds {
    alloc: Global,
    groups: VecDeque<usize>,
    waiting: Vec<Queue>,
    /// Of each slot whether it waits, so that nobody is looked for.
    standing: Vec<bool>,
}

impl Model for Rounds {
    ghost use Rattle.floor_sockets.specs.Rounds.{Rounds};
    ghost use Rattle.floor_sockets.specs.steps.Rounds.{IsInTurn};

    ghost Value = { Rounds };

    ghost view = { λ r. record { groups = r.groups.items; waiting = r.waiting.items } };

    ghost invariant = { λ r. IsInTurn r.groups.items r.waiting.items r.standing.items };
}

impl Rounds {
    /// Nobody waits. Takes no memory.
    pub(crate) fn new(alloc: Global) -> Rounds
        ensures value { result ≡ record { groups = []; waiting = [] } }
    {
        Rounds {
            alloc,
            groups: VecDeque::new(alloc),
            waiting: Vec::new(alloc),
            standing: Vec::new(alloc),
        }
    }

    /// Puts a slot behind those of its group who wait, unless it waits. A group of whom nobody waited has its turn
    /// behind the others. After an error all wait who did.
    pub(crate) fn put(&mut self, group: usize, slot: usize) -> Result<(), AllocError>
        ensures stands { OnOk result (times self.new slot ≡ 1) }
        ensures others { (k : ℕ) → nat_eq slot k ≡ false → times self.new k ≡ times self.old k }
        ensures put { OnOk result (times self.old slot ≡ 0 → IsPut self.old self.new group slot) }
        ensures there { times self.old slot ≡ 1 → SameQueues self.old self.new }
        ensures left { OnErr result (SameQueues self.old self.new) }
        ensures once { (k : ℕ) → times self.new k ≤ 1 }
    {
        grow_waiting(&mut self.waiting, self.alloc, group)?;
        grow_standing(&mut self.standing, slot)?;
        if stands(&self.standing, slot) {
            return Ok(());
        }
        self.groups.reserve(1)?;
        let was_empty = push_in(&mut self.waiting, group, slot)?;
        set_in(&mut self.standing, slot, true);
        add_in(&mut self.groups, group, was_empty);
        Ok(())
    }

    /// Who has the next turn, and waits no more: the first of the first group, which has its next turn behind the
    /// others where more of it wait.
    pub(crate) fn next(&mut self) -> Option<usize>
        ensures turn { IfSome result (IsTurn self.old self.new) }
        ensures found { IfSome result (λ slot. (times self.old slot ≡ 1) × (times self.new slot ≡ 0)) }
        ensures others { IfSome result (λ slot. (k : ℕ) → nat_eq slot k ≡ false
            → times self.new k ≡ times self.old k) }
        ensures fewer { IfSome result (λ slot. total self.new < total self.old) }
        ensures none { IfNone result ((k : ℕ) → times self.old k ≡ 0) }
        ensures left { IfNone result (self.new ≡ self.old) }
        ensures once { (k : ℕ) → times self.new k ≤ 1 }
    {
        let group = self.groups.pop_front()?;
        let (slot, has_more) = pop_in(&mut self.waiting, group)?;
        set_in(&mut self.standing, slot, false);
        add_in(&mut self.groups, group, has_more);
        Some(slot)
    }
}

/// A group has a turn behind the others, where it is to have one.
fn add_in(groups: &mut VecDeque<usize>, group: usize, has_turn: bool)
    requires { deque_len groups.old < deque_capacity groups.old }
    ensures next { groups.new.items
        ≡ (if has_turn then groups.old.items ++ group ∷ [] else groups.old.items) }
{
    if has_turn {
        groups.push_back_reserved(group);
    }
}

/// Has a queue for this group, and for all before it.
fn grow_waiting(waiting: &mut Vec<Queue>, alloc: Global, group: usize) -> Result<(), AllocError>
    ensures room { OnOk result (group < length waiting.new.items) }
    ensures same { (g : ℕ) → queue_in waiting.new.items g ≡ queue_in waiting.old.items g }
    ensures times { (k : ℕ) → times_in waiting.new.items k ≡ times_in waiting.old.items k }
{
    while waiting.len() <= group {
        match waiting.push(Queue::new(alloc)) {
            Ok(()) => {}
            Err(_) => return Err(AllocError),
        }
    }
    Ok(())
}

/// Has a mark for this slot, and for all before it.
fn grow_standing(standing: &mut Vec<bool>, slot: usize) -> Result<(), AllocError>
    ensures room { OnOk result (slot < length standing.new.items) }
    ensures same { (k : ℕ) → stands_in standing.new.items k ≡ stands_in standing.old.items k }
{
    while standing.len() <= slot {
        match standing.push(false) {
            Ok(()) => {}
            Err(_) => return Err(AllocError),
        }
    }
    Ok(())
}

/// Whether a slot has its mark.
fn stands(standing: &Vec<bool>, slot: usize) -> bool
    ensures value { result ≡ stands_in standing.now.items slot }
{
    standing.get(slot).copied().unwrap_or(false)
}

/// Sets the mark of a slot.
fn set_in(standing: &mut Vec<bool>, slot: usize, is_standing: bool)
    ensures next { standing.new.items ≡ slice_set standing.old.items slot is_standing }
{
    if let Some(mark) = standing.get_mut(slot) {
        *mark = is_standing;
    }
}

/// Puts a slot behind those of its group, and says whether it is the first.
fn push_in(waiting: &mut Vec<Queue>, group: usize, slot: usize) -> Result<bool, AllocError>
    requires { group < length waiting.old.items }
    ensures took { OnOk result (waiting.new.items
        ≡ slice_set waiting.old.items group (queue_in waiting.old.items group ++ slot ∷ [])) }
    ensures first { IfOk result (λ was_empty. was_empty
        ≡ nat_eq (length (queue_in waiting.old.items group)) 0) }
    ensures left { OnErr result (waiting.new.items ≡ waiting.old.items) }
{
    let queue = &mut waiting[group];
    let was_empty = queue.is_empty();
    queue.push(slot)?;
    Ok(was_empty)
}

/// Takes the first of a group, and says whether others of it wait.
fn pop_in(waiting: &mut Vec<Queue>, group: usize) -> Option<(usize, bool)>
    ensures took { IfSome result (λ r. (rest : List ℕ)
        × (queue_in waiting.old.items group ≡ r.0 ∷ rest)
        × (waiting.new.items ≡ slice_set waiting.old.items group rest)
        × (r.1 ≡ not (nat_eq (length rest) 0))) }
    ensures none { IfNone result ((queue_in waiting.old.items group ≡ [])
        × (waiting.new.items ≡ waiting.old.items)) }
{
    let queue = waiting.get_mut(group)?;
    let slot = queue.pop()?;
    Some((slot, !queue.is_empty()))
}
