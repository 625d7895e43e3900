//! What becomes of one connection, and of a line: each function looks at whom it speaks of, and at nobody else.

ghost use Rattle.std.specs.Prelude.{◌≡◌, ◌⊎◌, ◌≤◌, ◌<◌, ◌++◌, ◌∷◌, [], if◌then◌else◌, OnOk, ℕ, IfNone, IfOk, IfSome, MatchOption, None, Some, drop, false, is_none, length, nat_eq, option_and_then, true};
ghost use Rattle.std.specs.Option.{option_map, option_map_or};
ghost use Rattle.indexmap.specs.IndexMap.{get, insert_entry, spare};
ghost use Rattle.floor_hub.specs.StandsFor.{StandsFor};
ghost use Rattle.floor_hub.specs.World.{World};
ghost use Rattle.floor_loop.specs.declared.outgoing.Mark.TheVariants.{Ready};
ghost use Rattle.floor_loop.specs.Loop.{Outgoing as Way, earlier};
ghost use Rattle.floor_loop.specs.steps.Changed.{changed, carrying, given, mark_of, marked, unended, whole_of, wrote_of};
ghost use Rattle.floor_loop.specs.steps.Listed.{HasMore, HasRoom, IsListed, is_time};
ghost use Rattle.floor_loop.specs.steps.Taken.{Fills, TakenFor};

use crate::line::{Entry, Line};
use crate::outgoing::{Mark, Outgoing};
use floor_hub::{ConnNo, Hub, HubRefusal, Taken};
use floor_numbered::Numbered;
use std::alloc::AllocError;

/// Takes room for one connection more: in the map, and for all that haven't a mark in its line. After an error
/// everybody stands where they stood.
pub(crate) fn reserve(
    outgoing: &mut Numbered<Outgoing>,
    ready: &mut Line,
    ending: &mut Line,
    failed: &mut Line,
) -> Result<(), AllocError>
    ensures entries { outgoing.new.entries ≡ outgoing.old.entries }
    ensures lines { HasMore ready.old ready.new × HasMore ending.old ending.new
        × HasMore failed.old failed.new }
    ensures room { OnOk result (HasRoom outgoing.old.entries ready.new
        × HasRoom outgoing.old.entries ending.new × HasRoom outgoing.old.entries failed.new) }
    ensures spare { OnOk result (1 ≤ spare outgoing.new) }
{
    let count = outgoing.len() + 1;
    ready.reserve(count)?;
    ending.reserve(count)?;
    failed.reserve(count)?;
    outgoing.reserve(1)
}

/// Takes a connection in, for which there is room.
pub(crate) fn add_in(outgoing: &mut Numbered<Outgoing>, number: ConnNo, one: Outgoing)
    requires { 1 ≤ spare outgoing.old }
    ensures next { outgoing.new.entries ≡ insert_entry nat_eq outgoing.old.entries number one }
    ensures here { get nat_eq outgoing.new number ≡ Some one }
    ensures others { (k : ℕ) → nat_eq number k ≡ false
        → get nat_eq outgoing.new k ≡ get nat_eq outgoing.old k }
{
    match outgoing.insert(number, one) {
        Ok(_) => {}
        Err(_) => unreachable!(),
    }
}

/// Marks a connection that hasn't the mark, and says whether there was one.
pub(crate) fn mark_in(
    outgoing: &mut Numbered<Outgoing>,
    mark: Mark,
    number: ConnNo,
    time: u64,
) -> bool
    ensures next { outgoing.new.entries ≡ changed (marked mark time) number outgoing.old.entries }
    ensures value { result ≡ option_map_or (λ o. is_none (mark_of mark o))
        (get nat_eq outgoing.old number) false }
{
    match outgoing.get_mut(number) {
        Some(one) => one.set(mark, time),
        None => false,
    }
}

/// The connection that is ready since longest isn't any more.
pub(crate) fn next_in(outgoing: &mut Numbered<Outgoing>, ready: &mut Line) -> Option<ConnNo>
    ensures next { outgoing.new.entries
        ≡ option_map_or (λ number. changed given number outgoing.old.entries) result
        outgoing.old.entries }
    ensures listed { (last : ℕ) → IsListed Ready outgoing.old.entries last ready.old
        → IsListed Ready outgoing.new.entries last ready.new }
    ensures found { IfSome result (λ number. (o : Way)
        × (get nat_eq outgoing.old number ≡ Some o) × (time : ℕ) × (o.ready ≡ Some time)) }
    ensures none { IfNone result ((last : ℕ) → IsListed Ready outgoing.old.entries last ready.old
        → (number : ℕ) (o : Way) → get nat_eq outgoing.old number ≡ Some o → o.ready ≡ None) }
{
    while let Some(entry) = ready.first() {
        ready.drop_first();
        if give_in(outgoing, entry) {
            return Some(entry.number);
        }
    }
    None
}

/// A connection that is ready since this time isn't any more. Says whether there was one.
fn give_in(outgoing: &mut Numbered<Outgoing>, entry: Entry) -> bool
    ensures next { outgoing.new.entries
        ≡ (if result then changed given entry.number outgoing.old.entries
        else outgoing.old.entries) }
    ensures value { result ≡ option_map_or (λ o. is_time entry.time o.ready)
        (get nat_eq outgoing.old entry.number) false }
{
    if !stands(outgoing, Mark::Ready, entry) {
        return false;
    }
    give_one(outgoing, entry.number);
    true
}

fn give_one(outgoing: &mut Numbered<Outgoing>, number: ConnNo)
    ensures next { outgoing.new.entries ≡ changed given number outgoing.old.entries }
{
    match outgoing.get_mut(number) {
        Some(one) => one.give(),
        None => {}
    }
}

/// Who has this mark since longest. Whoever stands before it in the line hasn't it, and goes.
pub(crate) fn first_of(outgoing: &Numbered<Outgoing>, line: &mut Line, mark: Mark) -> Option<Entry>
    ensures listed { (last : ℕ) → IsListed mark outgoing.now.entries last line.old
        → IsListed mark outgoing.now.entries last line.new }
    ensures found { IfSome result (λ entry. (o : Way)
        × (get nat_eq outgoing.now entry.number ≡ Some o)
        × (mark_of mark o ≡ Some entry.time)) }
    ensures first { IfSome result (λ entry. (last : ℕ)
        → IsListed mark outgoing.now.entries last line.old
        → (entry.time ≤ last) × ((number time : ℕ) (o : Way)
        → get nat_eq outgoing.now number ≡ Some o → mark_of mark o ≡ Some time
        → entry.time ≤ time)) }
    ensures none { IfNone result ((last : ℕ) → IsListed mark outgoing.now.entries last line.old
        → (number : ℕ) (o : Way) → get nat_eq outgoing.now number ≡ Some o
        → mark_of mark o ≡ None) }
{
    while let Some(entry) = line.first() {
        if stands(outgoing, mark, entry) {
            return Some(entry);
        }
        line.drop_first();
    }
    None
}

/// Whether a connection has the mark with this time.
fn stands(outgoing: &Numbered<Outgoing>, mark: Mark, entry: Entry) -> bool
    ensures value { result ≡ option_map_or (λ o. is_time entry.time (mark_of mark o))
        (get nat_eq outgoing.now entry.number) false }
{
    match outgoing.get(entry.number) {
        Some(one) => match one.mark(mark) {
            Some(time) => time == entry.time,
            None => false,
        },
        None => false,
    }
}

/// A connection isn't to be shut down.
pub(crate) fn unend_in(outgoing: &mut Numbered<Outgoing>, number: ConnNo)
    ensures next { outgoing.new.entries ≡ changed unended number outgoing.old.entries }
{
    match outgoing.get_mut(number) {
        Some(one) => one.unend(),
        None => {}
    }
}

/// The earlier time of these, where there are two.
pub(crate) fn earliest(failed: Option<Entry>, ending: Option<Entry>) -> Option<u64>
    ensures { result ≡ earlier (option_map (λ e. e.time) failed) (option_map (λ e. e.time) ending) }
{
    match (failed, ending) {
        (None, None) => None,
        (None, Some(other)) => Some(other.time),
        (Some(first), None) => Some(first.time),
        (Some(first), Some(other)) => Some(first.time.min(other.time)),
    }
}

/// The socket of a connection took so many bytes. Where it took all that was on its way, gives how many
/// parcels are to be acknowledged.
pub(crate) fn advance_in(
    outgoing: &mut Numbered<Outgoing>,
    number: ConnNo,
    count: usize,
) -> Option<u32>
    requires { (o : Way) → get nat_eq outgoing.old number ≡ Some o → count ≤ length o.rest }
    ensures next { outgoing.new.entries ≡ changed (wrote_of count) number outgoing.old.entries }
    ensures value { result ≡ option_and_then (λ o. whole_of (drop count o.rest) o.parcels)
        (get nat_eq outgoing.old number) }
{
    match outgoing.get_mut(number) {
        Some(one) => one.advance(count),
        None => None,
    }
}

/// Takes what the hub hands out to a connection, as much as may be on its way.
pub(crate) fn take_in(
    outgoing: &mut Numbered<Outgoing>,
    hub: &mut Hub,
    number: ConnNo,
) -> Result<Taken, HubRefusal>
    ensures next { TakenFor number outgoing.old.entries outgoing.new.entries hub.old hub.new }
    ensures filled { IfOk result (λ taken. taken.is_refused ≡ false
        → Fills number outgoing.new.entries hub.new) }
    ensures stands { (w : World) → StandsFor hub.old w → StandsFor hub.new w }
{
    match outgoing.get_mut(number) {
        Some(one) => one.take_all(hub, number),
        None => Ok(Taken {
            count: 0,
            is_refused: false,
        }),
    }
}
