//! The floors that a message names: FLOOR-IDs (RFC 8855, section 5.2.2).

ghost use Rattle.std.specs.Prelude.{◌≡◌, ◌≤◌, IfOk, OnOk, map, length, ◌↔◌, IsTrue};
ghost use Rattle.floor_message.specs.Fits.{FloorsFit};
ghost use Rattle.floor_message.specs.Picked.{distinct, numbers, IsOnceBy};
ghost use Rattle.floor_message.specs.Written as spec;
ghost use Rattle.floor_message.specs.steps.Adding.{add_new};
ghost use Rattle.floor_message.specs.steps.Leaves.{Leaves};
ghost use Rattle.floor_message.specs.steps.Rising.{Rise};
ghost use Rattle.floor_message.specs.steps.Writing.{with_attrs};
ghost use Rattle.floor_wire.specs.Spelling.{canon};
ghost use Rattle.floor_wire.specs.View.{attributes_of};

use crate::format::attributes::SHORT_ATTRIBUTE;
use crate::format::number::number_of;
use crate::kind::FLOOR_ID;
use floor_wire::{AttrsView, FrameBuilder};
use indexmap::IndexSet;
use std::alloc::{AllocError, Global};

/// The most floors of a message: with them it fits its Payload Length.
const MOST_FLOORS: usize = 60_000;

/// How many floors are looked through to find one that is named again; more are kept in a set.
const FEW_FLOORS: usize = 16;

/// The floors that the attributes name, each once, in order of first appearance.
pub(crate) fn floors_in(alloc: Global, attrs: &AttrsView) -> Result<Vec<u16>, AllocError>
    ensures { IfOk result (λ floors. floors.items ≡ distinct (numbers FLOOR_ID attrs.now)) }
{
    let mut found = Vec::new(alloc);
    let mut rest = attrs.copy();
    while let Some(attr) = rest.next() {
        if let Some(floor) = number_of(&attr, FLOOR_ID) {
            let is_found = add_floor(&mut found, floor)?;
            if !is_found {
                return many_floors_in(alloc, attrs);
            }
        }
    }
    Ok(found)
}

/// Adds the floor, unless it is there. False where it isn't and there are 16 already.
fn add_floor(found: &mut Vec<u16>, floor: u16) -> Result<bool, AllocError>
    ensures { IfOk result (λ is_found. IsTrue is_found
        → found.new.items ≡ add_new (λ n. n) found.old.items floor) }
{
    for known in found.as_slice() {
        if floor == *known {
            return Ok(true);
        }
    }
    if found.len() >= FEW_FLOORS {
        return Ok(false);
    }
    found.push(floor)?;
    Ok(true)
}

/// The same of however many floors, by a set of those that were found.
fn many_floors_in(alloc: Global, attrs: &AttrsView) -> Result<Vec<u16>, AllocError>
    ensures { IfOk result (λ floors. floors.items ≡ distinct (numbers FLOOR_ID attrs.now)) }
{
    let mut found = IndexSet::new(alloc);
    let mut rest = attrs.copy();
    while let Some(attr) = rest.next() {
        if let Some(floor) = number_of(&attr, FLOOR_ID) {
            found.insert(floor)?;
        }
    }
    Vec::from_slice(alloc, found.as_slice())
}

/// Adds a FLOOR-ID for each floor.
pub(crate) fn put_floors(out: &mut FrameBuilder, floors: &[u16]) -> Result<(), AllocError>
    ensures { OnOk result (out.new
        ≡ with_attrs out.old (map (spec.number FLOOR_ID) floors.now)) }
{
    for floor in floors {
        out.put_number(FLOOR_ID, *floor)?;
    }
    Ok(())
}

/// How many bytes the FLOOR-IDs take.
pub(crate) fn floors_len(floors: &[u16]) -> usize
    requires { length floors.now ≤ 60000 }
    ensures value { result
        ≡ length (canon (attributes_of (map (spec.number FLOOR_ID) floors.now))) }
    ensures fits { result ≤ 240000 }
{
    SHORT_ATTRIBUTE * floors.len()
}

/// Whether the floors are named once each, and are at most 60,000.
pub(crate) fn floors_fit(floors: &[u16]) -> bool
    ensures { IsTrue result ↔ FloorsFit floors.now }
{
    floors.len() <= MOST_FLOORS && is_each_once(floors)
}

/// Whether no number stands twice. Ascending ones are looked at once each, others compared with each
/// behind them.
#[tactic(auto, using(crate::proofs::Rising::risen_once))]
fn is_each_once(numbers: &[u16]) -> bool
    ensures { IsTrue result ↔ IsOnceBy (λ n. n) numbers.now }
{
    is_ascending(numbers) || is_nowhere_again(numbers)
}

/// Whether each number is above the one before it.
fn is_ascending(numbers: &[u16]) -> bool
    ensures { IsTrue result ↔ Rise numbers.now }
{
    let Some((first, others)) = numbers.split_first() else {
        return true;
    };
    let mut last = *first;
    for number in others {
        if *number <= last {
            return false;
        }
        last = *number;
    }
    true
}

/// Whether no number stands once more behind itself.
fn is_nowhere_again(numbers: &[u16]) -> bool
    ensures { IsTrue result ↔ IsOnceBy (λ n. n) numbers.now }
{
    let mut rest = numbers;
    while let [first, others @ ..] = rest {
        let again = others.contains(first);
        if again {
            return false;
        }
        rest = others;
    }
    true
}

/// What is left of the room behind a FLOOR-ID, where there is one.
pub(crate) fn after_floor(room: usize, floor: Option<u16>) -> Option<usize>
    ensures { Leaves (spec.optional (spec.number 2) floor) room result }
{
    match floor {
        Some(_) => room.checked_sub(SHORT_ATTRIBUTE),
        None => Some(room),
    }
}
