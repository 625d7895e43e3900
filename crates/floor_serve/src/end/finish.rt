//! The end: what every seat recorded, against the journals of the conferences.

ghost use Rattle.std.specs.Prelude.{◌≡◌, ◌↔◌, ℕ, List, All, IfErr, IfOk, IfSome, IsTrue, Err, min, OnErr, OnOk, length, false, true};
ghost use Rattle.floor_serve.specs.Booth as spec;
ghost use Rattle.floor_serve.specs.Booth.{IsBooth};
ghost use Rattle.floor_serve.specs.Finish.{Agrees, AreOneMember, Finished};
ghost use Rattle.floor_serve.specs.Table.{is_opened};
ghost use Rattle.floor_serve.specs.steps.Ascending.{Ascend};
ghost use Rattle.floor_serve.specs.steps.First.{AgreesAt, AllFound, IsFirst, KnownAt, SingleAt};
ghost use Rattle.floor_serve.specs.steps.Slots.{numbers};
ghost use Rattle.floor_serve.specs.declared.fault.FinishFault.{FinishFault};
ghost use Rattle.floor_serve.specs.declared.end.order.Order.{Order};

use crate::booth::Booth;
use crate::end::count::fit_all;
use crate::end::order::{Order, block_of, order_of};
use crate::fault::FinishFault;
use crate::registry::Registry;
use crate::seat::Seat;
use crate::table::{Slot, Table, has_number};
use indexmap::IndexSet;
use std::sync::Wait;

/// What the end found.
#[derive(Clone, Copy, Debug, PartialEq, Eq)]
pub struct Report {
    /// How many seats fit.
    pub seats: usize,
    /// How many events the journals of all conferences have together.
    pub events: u128,
}

/// What conferences have.
#[derive(Clone, Copy)]
struct Found {
    /// How many events their journals have.
    events: u128,
    /// The place of the first of their seats that doesn't fit, or the number of seats.
    unfit: usize,
}

/// Compares what every seat recorded with the journals of all conferences of the registry, as
/// [`Table::finish`] does, while the registry's lock is held: refused by `Broken`, else by `Mismatch`.
pub fn finish<R: Wait>(rt: &R, registry: &Registry, seats: &[Seat]) -> Result<Report, FinishFault>
    ensures { (opened : List ℕ) × Finished opened seats.now result }
{
    let table = registry.table.lock(rt);
    table.finish(rt, seats)
}

impl Table {
    /// Compares what every seat recorded with the journals of all conferences, each in one hold of
    /// its lock: each message once, in the seat's order, at its receipt's place, and no other of
    /// that seat. No two seats may have one conference and number, and each seat's conference has
    /// to be in the table. Takes no memory.
    ///
    /// Refused by `Broken` for the first conference, in the order of opening, that is broken off;
    /// then by `Mismatch` for the first seat that doesn't fit. Nothing changes in either case.
    ///
    /// Where the seats ascend by conference and number and are those of all members, the time
    /// grows with what they and the journals hold. In another order each is compared with each.
    pub fn finish<R: Wait>(&self, rt: &R, seats: &[Seat]) -> Result<Report, FinishFault>
        ensures { Finished self.now seats.now result }
    {
        let order = order_of(seats);
        let found = look_all(rt, &self.slots, seats, order)?;
        let stray = first_stray(&self.places, seats);
        let double = first_double(seats, order);
        let unfit = least(found.unfit, least(stray, double));
        match seats.get(unfit) {
            Some(seat) => Err(FinishFault::Mismatch {
                conference: seat.conference(),
                n: seat.n(),
            }),
            None => Ok(Report {
                seats: seats.len(),
                events: found.events,
            }),
        }
    }
}

/// The lesser of two places.
fn least(a: usize, b: usize) -> usize
    ensures { result ≡ min a b }
{
    if a < b { a } else { b }
}

/// What all conferences have, each in one hold of its lock, up to the first that is broken off.
fn look_all<R: Wait>(
    rt: &R,
    slots: &[Slot],
    seats: &[Seat],
    order: Order,
) -> Result<Found, FinishFault>
    requires { order ≡ Order.Ascending → Ascend seats.now }
    ensures found { IfOk result (λ found.
        AllFound (numbers slots.now) seats.now found.events found.unfit) }
    ensures broken { IfErr result (λ fault. Finished (numbers slots.now) seats.now (Err fault)) }
{
    let mut events = 0u128;
    let mut unfit = seats.len();
    for slot in slots {
        let found = look(rt, slot, seats, order)?;
        events += found.events;
        unfit = least(unfit, found.unfit);
    }
    Ok(Found { events, unfit })
}

/// What the conference has in one hold of its lock.
fn look<R: Wait>(rt: &R, slot: &Slot, seats: &[Seat], order: Order) -> Result<Found, FinishFault>
    requires { order ≡ Order.Ascending → Ascend seats.now }
    ensures found { IfOk result (λ found. (booth : spec.Booth)
        × IsBooth booth × (booth.ledger.is_broken ≡ false)
        × (found.events ≡ length booth.ledger.journal)
        × IsFirst (AgreesAt booth slot.now.conference seats.now) (length seats.now) found.unfit) }
    ensures broken { IfErr result (λ fault. (booth : spec.Booth)
        × IsBooth booth × (booth.ledger.is_broken ≡ true)
        × (fault ≡ FinishFault.Broken slot.now.conference)) }
{
    let booth = slot.booth.lock(rt);
    look_at(&booth, slot.conference, seats, order)
}

/// What this conference has.
fn look_at(
    booth: &Booth,
    conference: u32,
    seats: &[Seat],
    order: Order,
) -> Result<Found, FinishFault>
    requires { order ≡ Order.Ascending → Ascend seats.now }
    ensures kept { IsBooth booth.now }
    ensures whole { OnOk result (booth.now.ledger.is_broken ≡ false) }
    ensures events { IfOk result (λ found. found.events ≡ length booth.now.ledger.journal) }
    ensures unfit { IfOk result (λ found.
        IsFirst (AgreesAt booth.now conference seats.now) (length seats.now) found.unfit) }
    ensures broken { OnErr result (booth.now.ledger.is_broken ≡ true) }
    ensures conference { IfErr result (λ fault. fault ≡ FinishFault.Broken conference) }
{
    let events = booth.journal().len() as u128;
    if booth.is_broken() {
        return Err(FinishFault::Broken { conference });
    }
    let unfit = if all_agree(booth, conference, seats, order) {
        seats.len()
    } else {
        first_unfit(booth, conference, seats)
    };
    Ok(Found { events, unfit })
}

/// Whether the seats ascend, and those of this conference are found to fit in one walk.
fn all_agree(booth: &Booth, conference: u32, seats: &[Seat], order: Order) -> bool
    requires { order ≡ Order.Ascending → Ascend seats.now }
    ensures { result ≡ true → (k : ℕ) → AgreesAt booth.now conference seats.now k }
{
    match order {
        Order::Ascending => {
            let block = block_of(seats, conference);
            fit_all(booth.journal(), &seats[block.from..block.to])
        }
        Order::Any => false,
    }
}

/// The place of the first seat of this conference that doesn't fit, or the number of seats: each
/// is looked for in the whole journal.
fn first_unfit(booth: &Booth, conference: u32, seats: &[Seat]) -> usize
    ensures { IsFirst (AgreesAt booth.now conference seats.now) (length seats.now) result }
{
    for (at, seat) in seats.iter().enumerate() {
        if !agrees(booth, conference, seat) {
            return at;
        }
    }
    seats.len()
}

/// Whether the seat, if it is one of this conference, fits.
fn agrees(booth: &Booth, conference: u32, seat: &Seat) -> bool
    ensures { IsTrue result
        ↔ Agrees (record { conference = conference; booth = booth.now }) seat.now }
{
    if seat.conference() != conference {
        return true;
    }
    booth.fits(seat)
}

/// The place of the first seat whose conference isn't in the table, or the number of seats.
fn first_stray(places: &IndexSet<u32>, seats: &[Seat]) -> usize
    ensures { IsFirst (KnownAt places.now.keys seats.now) (length seats.now) result }
{
    let mut last = None;
    for (at, seat) in seats.iter().enumerate() {
        if !is_known(places, last, seat.conference()) {
            return at;
        }
        last = Some(seat.conference());
    }
    seats.len()
}

/// Whether the conference is in the table, as the one that was looked for last is. Seats of one
/// conference mostly stand side by side.
fn is_known(places: &IndexSet<u32>, last: Option<u32>, conference: u32) -> bool
    requires { IfSome last (λ c. is_opened places.now.keys c ≡ true) }
    ensures { result ≡ is_opened places.now.keys conference }
{
    match last {
        Some(known) if known == conference => true,
        Some(_) | None => has_number(places, conference),
    }
}

/// The place of the first seat before which one of the same member stands, or the number of seats.
fn first_double(seats: &[Seat], order: Order) -> usize
    requires { order ≡ Order.Ascending → Ascend seats.now }
    ensures { IsFirst (SingleAt seats.now) (length seats.now) result }
{
    match order {
        Order::Ascending => seats.len(),
        Order::Any => first_twin(seats),
    }
}

/// The same, each seat compared with all before it.
fn first_twin(seats: &[Seat]) -> usize
    ensures { IsFirst (SingleAt seats.now) (length seats.now) result }
{
    for (at, seat) in seats.iter().enumerate() {
        if has_member(&seats[..at], seat) {
            return at;
        }
    }
    seats.len()
}

/// Whether one of the seats is of the same member.
fn has_member(seats: &[Seat], seat: &Seat) -> bool
    ensures { (result ≡ false) ↔ All (λ other. ¬ AreOneMember other seat.now) seats.now }
{
    for other in seats {
        if is_one_member(other, seat) {
            return true;
        }
    }
    false
}

/// Whether two seats are of one member.
fn is_one_member(a: &Seat, b: &Seat) -> bool
    ensures { IsTrue result ↔ AreOneMember a.now b.now }
{
    a.conference() == b.conference() && a.n() == b.n()
}
