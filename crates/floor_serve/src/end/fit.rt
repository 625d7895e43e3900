//! Whether what a seat recorded is what the journal has of its member.

ghost use Rattle.std.specs.Prelude.{◌≡◌, ◌↔◌, ◌++◌, ◌≤◌, List, IsTrue, MatchOption, drop, length, ◌∷◌, []};
ghost use Rattle.floor_serve.specs.Fits.{GoesOn, messages_of, sent_at};
ghost use Rattle.floor_serve.specs.declared.seat.Sent.{Sent};

use crate::booth::Booth;
use crate::seat::{Seat, Sent};
use floor_room::Event;

impl Booth {
    /// Whether what the seat recorded is all that the journal has of its member.
    pub fn fits(&self, seat: &Seat) -> bool
        ensures { IsTrue result ↔ (seat.now.sent ≡ messages_of self.now.ledger.journal seat.now.n) }
    {
        fits(self.journal(), seat.n(), seat.sent())
    }
}

/// Whether these are all messages of n in the journal, each with its place, in order.
fn fits(journal: &[Event], n: u32, sent: &[Sent]) -> bool
    ensures { IsTrue result ↔ (sent.now ≡ messages_of journal.now n) }
{
    let mut at = 0;
    for (done, event) in journal.iter().enumerate() {
        match step(done + 1, event, n, sent, at) {
            Some(next) => at = next,
            None => return false,
        }
    }
    at == sent.len()
}

/// Where the record goes on behind what it has of one event.
fn step(place: usize, event: &Event, n: u32, sent: &[Sent], at: usize) -> Option<usize>
    requires { at ≤ length sent.now }
    ensures { MatchOption result
        ((rest : List Sent) → drop at sent.now ≡ sent_at place event.now n ++ rest → ⊥)
        (GoesOn sent.now at (sent_at place event.now n)) }
{
    match event.message_of(n) {
        Some(frame) => found(place, frame.bytes(), sent, at),
        None => Some(at),
    }
}

/// The place behind a message in the record, where it stands at this one.
fn found(place: usize, bytes: &[u8], sent: &[Sent], at: usize) -> Option<usize>
    requires { at ≤ length sent.now }
    ensures { MatchOption result
        ((rest : List Sent) → drop at sent.now ≡ record { place = place; bytes = bytes.now } ∷ rest → ⊥)
        (GoesOn sent.now at (record { place = place; bytes = bytes.now } ∷ [])) }
{
    match sent.get(at) {
        Some(entry) => {
            let is_it = is_entry(entry, place, bytes);
            if is_it { Some(at + 1) } else { None }
        }
        None => None,
    }
}

/// Whether an entry of the record is this message at this place.
pub(crate) fn is_entry(entry: &Sent, place: usize, bytes: &[u8]) -> bool
    ensures { IsTrue result ↔ (entry.now.place ≡ place) × (entry.now.bytes ≡ bytes.now) }
{
    entry.place as usize == place && entry.bytes.bytes() == bytes
}
