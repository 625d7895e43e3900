//! Somebody at a door, who hasn't said yet who it is.

ghost use Rattle.std.specs.Prelude.{◌≡◌, ◌≢◌, ◌≤◌, ◌+◌, ◌++◌, ℕ, [], Ok, if◌then◌else◌, length, nat_le, take};
ghost use Rattle.floor_doors.specs.declared.newcomer.Verdict.TheVariants as verdict;
ghost use Rattle.floor_doors.specs.declared.refusal.DoorRefusal.TheVariants as refusal;
ghost use Rattle.floor_doors.specs.Follows.{by_then, follows};
ghost use Rattle.floor_doors.specs.Newcomer.{IsAwaited};
ghost use Rattle.floor_doors.specs.steps.{kept};
ghost use Rattle.floor_proxy.specs.Header.{proxy};
ghost use Rattle.floor_proxy.specs.declared.header.ProxyRead.TheVariants.{Named};

use crate::refusal::DoorRefusal;
use floor_proxy::{MAX_HEADER, NamedBy, ProxyRead, ProxyRefusal, read_proxy};
use std::alloc::Global;
use std::marker::Model;

/// How long somebody at a door has to send the whole header, in microseconds: our choice. A proxy sends it at once,
/// and whoever sends none holds a descriptor.
pub const MAX_HEADER_MICROS: u64 = 5_000_000;

/// What follows for somebody at a door.
#[derive(Clone, Copy, Debug, PartialEq, Eq)]
pub enum Verdict {
    /// More has to come.
    Wait,
    /// It is this user of this conference. Of the bytes that came last the first `at` are the header's, and what
    /// stands behind them is the user's.
    Enter {
        conference: u32,
        user: u16,
        at: usize,
    },
    /// The proxy itself has connected, as to see whether anybody listens: it is let go.
    LetGo,
    /// It isn't let in.
    Refuse(DoorRefusal),
}

/// Somebody at a door of whom a header is awaited: what came of it, never a whole header, and by when it has to be
/// whole.
///
/// `came`, `ended` and `time` say what follows. At any verdict but `Wait` nothing has changed, and the newcomer has
/// served its turn: it is dropped.
#[derive(Drop)]
pub struct Newcomer {
    named_by: NamedBy,
    held: Vec<u8>,
    until: u64,
}

impl Model for Newcomer {
    ghost use Rattle.floor_doors.specs.Newcomer.{IsAwaited, Newcomer};

    ghost Value = { Newcomer };

    ghost view = { λ n. record { named_by = n.named_by; held = n.held.items; until = n.until } };

    ghost invariant = { λ n. IsAwaited n.named_by n.held.items };
}

impl Newcomer {
    /// Somebody was accepted at a door whose headers name users by this, at this time in microseconds. Takes no
    /// memory.
    pub fn new(alloc: Global, named_by: NamedBy, now: u64) -> Newcomer
        ensures named_by { result.named_by ≡ named_by }
        ensures held { result.held ≡ [] }
        ensures until { now + MAX_HEADER_MICROS ≤ u64.MAX → result.until ≡ now + MAX_HEADER_MICROS }
        ensures forever { u64.MAX ≤ now + MAX_HEADER_MICROS → result.until ≡ u64.MAX }
    {
        Newcomer {
            named_by,
            held: Vec::new(alloc),
            until: now.saturating_add(MAX_HEADER_MICROS),
        }
    }

    /// By when the header has to be whole, in microseconds.
    pub fn until(&self) -> u64
        ensures value { result ≡ self.now.until }
    {
        self.until
    }

    /// What follows from bytes that came, cut anywhere. Of them no more than a header's are kept.
    pub fn came(&mut self, bytes: &[u8]) -> Verdict
        ensures value { result ≢ verdict.Refuse refusal.Memory
            → result ≡ follows (length self.old.held)
            (proxy self.old.named_by (self.old.held ++ bytes.now)) }
        ensures header { (conference user at : ℕ) → result ≡ verdict.Enter conference user at
            → (at ≤ length bytes.now) × (proxy self.old.named_by (self.old.held ++ bytes.now)
            ≡ Ok (Named conference user (length self.old.held + at))) }
        ensures next { result ≡ verdict.Wait
            → self.new ≡ record self.old { held = self.old.held ++ bytes.now } }
        ensures left { result ≢ verdict.Wait → self.new ≡ self.old }
    {
        came_in(self.named_by, &mut self.held, bytes)
    }

    /// What follows where the stream is over.
    pub fn ended(&self) -> Verdict
        ensures value { result ≡ verdict.Refuse refusal.NoHeader }
    {
        Verdict::Refuse(DoorRefusal::NoHeader)
    }

    /// What follows at this time, in microseconds. A time before others ends nobody.
    pub fn time(&self, now: u64) -> Verdict
        ensures value { result ≡ by_then (nat_le self.now.until now) }
    {
        if self.until <= now {
            Verdict::Refuse(DoorRefusal::NoHeader)
        } else {
            Verdict::Wait
        }
    }
}

/// What follows from bytes that came behind these, which are kept where more have to come.
fn came_in(named_by: NamedBy, held: &mut Vec<u8>, bytes: &[u8]) -> Verdict
    requires { IsAwaited named_by held.old.items }
    ensures value { result ≢ verdict.Refuse refusal.Memory
        → result ≡ follows (length held.old.items)
        (proxy named_by (held.old.items ++ bytes.now)) }
    ensures header { (conference user at : ℕ) → result ≡ verdict.Enter conference user at
        → (at ≤ length bytes.now) × (proxy named_by (held.old.items ++ bytes.now)
        ≡ Ok (Named conference user (length held.old.items + at))) }
    ensures next { result ≡ verdict.Wait → held.new.items ≡ held.old.items ++ bytes.now }
    ensures left { result ≢ verdict.Wait → held.new.items ≡ held.old.items }
    ensures awaited { IsAwaited named_by held.new.items }
{
    let before = held.len();
    let part = first_of(bytes, MAX_HEADER - before);
    if held.extend_from_slice(part).is_err() {
        return Verdict::Refuse(DoorRefusal::Memory);
    }
    let follows = verdict_of(before, read_proxy(named_by, held.as_slice()));
    cut_back(held, before, follows);
    follows
}

/// The first so many bytes, or all.
fn first_of(bytes: &[u8], most: usize) -> &[u8]
    ensures value { result.now ≡ take most bytes.now }
{
    bytes.get(..most).unwrap_or(bytes)
}

/// Keeps so many bytes alone, unless more have to come.
fn cut_back(held: &mut Vec<u8>, before: usize, follows: Verdict)
    ensures next { held.new.items ≡ kept follows before held.old.items }
{
    match follows {
        Verdict::Wait => {}
        Verdict::Enter { .. } | Verdict::LetGo | Verdict::Refuse(_) => held.truncate(before),
    }
}

/// What follows from what a header says, of which so many bytes had come before.
fn verdict_of(before: usize, read: Result<ProxyRead, ProxyRefusal>) -> Verdict
    ensures value { result ≡ follows before read }
{
    match read {
        Ok(ProxyRead::More) => Verdict::Wait,
        Ok(ProxyRead::Local) => Verdict::LetGo,
        Ok(
            ProxyRead::Named {
                conference,
                user,
                len,
            },
        ) => Verdict::Enter {
            conference,
            user,
            at: len.saturating_sub(before),
        },
        Err(refusal) => Verdict::Refuse(DoorRefusal::ByHeader(refusal)),
    }
}
