//! Whether what many seats recorded is all that a journal has of their members, in one walk over it.
//!
//! To look through the journal for each seat would take the product of both. Here each entry of a
//! seat is looked up at its place, and the entries of all seats are counted: where they are as many
//! as the journal has messages, no seat lacks one.

ghost use Rattle.std.specs.Prelude.{◌≡◌, ◌<◌, ℕ, IfSome, ◌≤◌, length, true, ◌∷◌, []};
ghost use Rattle.floor_serve.specs.Fits.{messages_of, sent_at};
ghost use Rattle.floor_serve.specs.steps.Parts.{FitsAt, IsPart, StandsAt, message_count, messages_in};

use crate::end::fit::is_entry;
use crate::seat::{Seat, Sent};
use floor_room::Event;

/// Whether what these seats recorded is all that the journal has of their members. The seats have
/// to ascend by number, and to be those of all members who sent anything: else the answer is false.
pub(crate) fn fit_all(journal: &[Event], seats: &[Seat]) -> bool
    ensures { result ≡ true → (k : ℕ) → k < length seats.now → FitsAt journal.now seats.now k }
{
    let mut bound = 0u64;
    let mut count = 0usize;
    for seat in seats {
        let n = u64::from(seat.n());
        if n < bound {
            return false;
        }
        if !is_part(journal, seat.n(), seat.sent()) {
            return false;
        }
        bound = n + 1;
        count += seat.sent().len();
    }
    count == messages(journal)
}

/// Whether each of these is a message of n in the journal, at its place, in order.
fn is_part(journal: &[Event], n: u32, sent: &[Sent]) -> bool
    ensures { result ≡ true → IsPart sent.now (messages_of journal.now n) }
{
    let mut at = 0;
    for entry in sent {
        match behind(journal, at, n, entry) {
            Some(next) => at = next,
            None => return false,
        }
    }
    true
}

/// The place of an entry, where it is a message of n behind this place of the journal.
fn behind(journal: &[Event], at: usize, n: u32, entry: &Sent) -> Option<usize>
    ensures { IfSome result (λ next. StandsAt journal.now at n entry.now next) }
{
    let place = entry.place as usize;
    if place <= at {
        return None;
    }
    match journal.get(place - 1) {
        Some(event) => {
            let is_it = is_sent(event, n, entry);
            if is_it { Some(place) } else { None }
        }
        None => None,
    }
}

/// Whether an event is the message of n that an entry of its record is.
fn is_sent(event: &Event, n: u32, entry: &Sent) -> bool
    ensures { result ≡ true → sent_at entry.now.place event.now n ≡ entry.now ∷ [] }
{
    match event.message_of(n) {
        Some(frame) => is_entry(entry, entry.place as usize, frame.bytes()),
        None => false,
    }
}

/// How many messages the journal has.
fn messages(journal: &[Event]) -> usize
    ensures { result ≡ messages_in journal.now }
{
    let mut count = 0usize;
    for event in journal {
        count += message_count(event);
    }
    count
}

/// How many messages an event is.
fn message_count(event: &Event) -> usize
    ensures value { result ≡ message_count event.now }
    ensures one { result ≤ 1 }
{
    match event.message() {
        Some(_frame) => 1,
        None => 0,
    }
}
