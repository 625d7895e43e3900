//! One turn: what is asked of whom.

ghost use Rattle.std.specs.Prelude.{◌≡◌, ◌<◌, ℕ, All, IfNone, IfSome, List, None, OnErr, OnOk, Some, false, nat_eq, true};
ghost use Rattle.slab.specs.Slab.{get, slab_len};
ghost use Rattle.floor_sockets.specs.Life.{is_awaiting};
ghost use Rattle.floor_sockets.specs.Rounds.{SameQueues, times};
ghost use Rattle.floor_sockets.specs.Sockets.{IsLined, Passes, StandsIn};
ghost use Rattle.floor_sockets.specs.declared.life.Life.{Life as Known};
ghost use Rattle.floor_sockets.specs.steps.Listed.{Asks, AsksAny, HasLife, IsDueIn, IsListed, IsOnce, NextIn, TurnsIn};

use crate::deadlines::Deadlines;
use crate::life::{Deed, Life, deed_of};
use crate::rounds::Rounds;
use slab::Slab;
use std::alloc::AllocError;

/// Puts what is known now of a socket in its slot, where there is one.
pub(crate) fn put_in(lives: &mut Slab<Life>, slot: usize, life: Life)
    ensures here { (old : Known) → get lives.old slot ≡ Some old → get lives.new slot ≡ Some life }
    ensures none { get lives.old slot ≡ None → get lives.new slot ≡ None }
    ensures others { (k : ℕ) → nat_eq slot k ≡ false → get lives.new k ≡ get lives.old k }
    ensures len { slab_len lives.new ≡ slab_len lives.old }
{
    if let Some(place) = lives.get_mut(slot) {
        *place = life;
    }
}

/// Puts what is known now of a socket in its slot, and the socket in the line where anything is to be asked of it. Where
/// the line is refused memory it is short from now on.
pub(crate) fn set_in(
    lives: &mut Slab<Life>,
    line: &mut Rounds,
    is_short: &mut bool,
    slot: usize,
    life: Life,
)
    ensures here { (old : Known) → get lives.old slot ≡ Some old → get lives.new slot ≡ Some life }
    ensures none { get lives.old slot ≡ None → get lives.new slot ≡ None }
    ensures others { (k : ℕ) → nat_eq slot k ≡ false → get lives.new k ≡ get lives.old k }
    ensures len { slab_len lives.new ≡ slab_len lives.old }
    ensures line { IsLined (Some life) slot line.old line.new is_short.old is_short.new }
    ensures listed { is_short.new ≡ false → (is_short.old ≡ false → IsListed lives.old line.old)
        → IsListed lives.new line.new }
    ensures once { IsOnce line.old → IsOnce line.new }
{
    put_or_miss(line, is_short, slot, life);
    put_in(lives, slot, life);
}

/// Puts a socket of which this is known in the line, where anything is to be asked of it, or has the line be short.
fn put_or_miss(line: &mut Rounds, is_short: &mut bool, slot: usize, life: Life)
    ensures stands { is_short.new ≡ false → is_awaiting life ≡ true → times line.new slot ≡ 1 }
    ensures others { (k : ℕ) → nat_eq slot k ≡ false → times line.new k ≡ times line.old k }
    ensures line { IsLined (Some life) slot line.old line.new is_short.old is_short.new }
    ensures once { IsOnce line.old → IsOnce line.new }
    ensures short { is_short.new ≡ false → is_short.old ≡ false }
{
    match stand_in(line, slot, life) {
        Ok(()) => {}
        Err(_) => *is_short = true,
    }
}

/// Puts a socket of which this is known in the line, where anything is to be asked of it.
fn stand_in(line: &mut Rounds, slot: usize, life: Life) -> Result<(), AllocError>
    ensures stands { OnOk result (is_awaiting life ≡ true → times line.new slot ≡ 1) }
    ensures others { (k : ℕ) → nat_eq slot k ≡ false → times line.new k ≡ times line.old k }
    ensures took { OnOk result (StandsIn life slot line.old line.new) }
    ensures left { OnErr result (SameQueues line.old line.new) }
    ensures once { IsOnce line.old → IsOnce line.new }
{
    if life.is_awaiting() {
        line.put(life.group, slot)
    } else {
        Ok(())
    }
}

/// Asks of the socket in this slot what is to be asked next, where anything is.
pub(crate) fn ask_in(lives: &mut Slab<Life>, slot: usize) -> Option<Deed>
    ensures asked { IfSome result (Asks lives.old lives.new slot) }
    ensures none { IfNone result ((k : ℕ) → get lives.new k ≡ get lives.old k) }
    ensures nothing { IfNone result ((l : Known) → get lives.old slot ≡ Some l
        → is_awaiting l ≡ false) }
    ensures len { slab_len lives.new ≡ slab_len lives.old }
{
    let life = *lives.get(slot)?;
    let asked = life.next_asked();
    let deed = deed_of(asked, slot)?;
    put_in(lives, slot, Life { asked, ..life });
    Some(deed)
}

/// The next turn: of the first who waits for one, and of whom anything is to be asked.
pub(crate) fn turn_in(lives: &mut Slab<Life>, line: &mut Rounds) -> Option<Deed>
    ensures listed { IsListed lives.old line.old → IsListed lives.new line.new }
    ensures once { IsOnce line.old → IsOnce line.new }
    ensures asked { IfSome result (TurnsIn lives.old lives.new line.old line.new) }
    ensures none { IfNone result ((k : ℕ) → get lives.new k ≡ get lives.old k) }
    ensures passes { IfNone result ((passed : List ℕ)
        × Passes (get lives.old) passed line.old line.new) }
    ensures nobody { IfNone result ((k : ℕ) → times line.new k ≡ 0) }
    ensures nothing { IfNone result (IsListed lives.old line.old → (k : ℕ) (l : Known)
        → get lives.old k ≡ Some l → is_awaiting l ≡ false) }
    ensures len { slab_len lives.new ≡ slab_len lives.old }
{
    while let Some(slot) = line.next() {
        match ask_in(lives, slot) {
            Some(deed) => return Some(deed),
            None => {}
        }
    }
    None
}

/// The next turn, or where the line has none and is short, that of any socket of which anything is to be asked.
pub(crate) fn next_in(
    lives: &mut Slab<Life>,
    line: &mut Rounds,
    is_short: &mut bool,
) -> Option<Deed>
    ensures listed { is_short.new ≡ false → (is_short.old ≡ false → IsListed lives.old line.old)
        → IsListed lives.new line.new }
    ensures once { IsOnce line.old → IsOnce line.new }
    ensures asked { IfSome result (NextIn lives.old lives.new line.old line.new
        is_short.old is_short.new) }
    ensures none { IfNone result ((k : ℕ) → get lives.new k ≡ get lives.old k) }
    ensures passes { IfNone result ((passed : List ℕ)
        × Passes (get lives.old) passed line.old line.new) }
    ensures nobody { IfNone result ((k : ℕ) → times line.new k ≡ 0) }
    ensures nothing { IfNone result ((is_short.old ≡ false → IsListed lives.old line.old)
        → (k : ℕ) (l : Known) → get lives.old k ≡ Some l → is_awaiting l ≡ false) }
    ensures whole { IfNone result (is_short.new ≡ false) }
    ensures len { slab_len lives.new ≡ slab_len lives.old }
{
    match turn_in(lives, line) {
        Some(deed) => return Some(deed),
        None => {}
    }
    if !*is_short {
        return None;
    }
    look_in(lives, is_short)
}

/// Asks of any socket what is to be asked of it. Where nothing is of any, nobody waits beside the line.
fn look_in(lives: &mut Slab<Life>, is_short: &mut bool) -> Option<Deed>
    ensures asked { IfSome result (AsksAny lives.old lives.new) }
    ensures short { IfSome result (λ deed. is_short.new ≡ is_short.old) }
    ensures none { IfNone result ((k : ℕ) → get lives.new k ≡ get lives.old k) }
    ensures nothing { IfNone result ((k : ℕ) (l : Known) → get lives.old k ≡ Some l
        → is_awaiting l ≡ false) }
    ensures whole { IfNone result (is_short.new ≡ false) }
    ensures len { slab_len lives.new ≡ slab_len lives.old }
{
    match find_awaiting(lives) {
        Some(slot) => ask_in(lives, slot),
        None => {
            *is_short = false;
            None
        }
    }
}

/// A socket of which anything is to be asked.
fn find_awaiting(lives: &Slab<Life>) -> Option<usize>
    ensures found { IfSome result (λ slot. (l : Known) × (get lives.now slot ≡ Some l)
        × (is_awaiting l ≡ true)) }
    ensures none { IfNone result ((k : ℕ) (l : Known) → get lives.now k ≡ Some l
        → is_awaiting l ≡ false) }
{
    for (slot, known) in lives.iter() {
        if known.is_awaiting() {
            return Some(slot);
        }
    }
    None
}

/// Whose time has come is asked to be shut, or to accept again.
pub(crate) fn due_in(lives: &mut Slab<Life>, deadlines: &mut Deadlines, time: u64) -> Option<Deed>
    requires { All (HasLife lives.old) deadlines.old.items }
    ensures asked { IfSome result (IsDueIn lives.old lives.new deadlines.old.items
        deadlines.new.items time) }
    ensures early { IfNone result (All (λ d. time < d.until) deadlines.old.items) }
    ensures left { IfNone result ((lives.new ≡ lives.old) × (deadlines.new ≡ deadlines.old)) }
    ensures len { slab_len lives.new ≡ slab_len lives.old }
    ensures room { deadlines.new.room ≡ deadlines.old.room }
{
    let deadline = deadlines.come(time)?;
    let slot = deadline.slot;
    let life = *lives.get(slot)?;
    let life = life.at_deadline();
    let deed = deed_of(life.asked, slot)?;
    deadlines.cancel(slot);
    put_in(lives, slot, life);
    Some(deed)
}
