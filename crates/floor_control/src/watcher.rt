//! A replica of a conference that follows its journal and gives the lines that each event shows, so that
//! these are a function of the opening configuration and the events.

ghost use Rattle.std.specs.List.{list_any};
ghost use Rattle.std.specs.Prelude.{◌≡◌, ◌==◌, [], IfErr, IfOk, OnOk, filter, not, string_bytes};
ghost use Rattle.floor_room.specs.Ledger.{IsRefusedBy};
ghost use Rattle.floor_control.specs.Watch as spec;
ghost use Rattle.floor_control.specs.Watcher.{Followed, Passed, Refusing, closed, refusal, watching};

use crate::watch::{At, Shown};
use floor_config::Config;
use floor_machine::{Event, MAX_EVENTS, Machine, Refusal, members_come_and_stay};
use floor_room::{Place, RoomRefusal};
use std::alloc::{AllocError, Global};
use std::marker::Model;

/// A replica of a conference that follows its journal.
///
/// `next` takes the next event and appends its lines, and `pass` takes it silently: whoever watches from
/// a place on passes the events before it. A journal's events are refused by want of memory alone, and
/// then the watcher is broken.
#[derive(Drop)]
pub struct Watcher {
    machine: Machine,
    cut: Vec<u32>,
    place: u32,
    is_broken: bool,
}

impl Model for Watcher {
    ghost use Rattle.floor_control.specs.Watcher.{Watcher};
    ghost use Rattle.floor_control.specs.steps.Following.{IsFollowing};

    ghost Value = { Watcher };

    ghost view = { λ w. record {
      conference = w.machine.conference;
      place = w.place;
      is_broken = w.is_broken;
    } };

    ghost invariant = { λ w. IsFollowing w.machine w.cut.items w.place w.is_broken };
}

impl Watcher {
    /// The watcher of a conference that opens with this configuration.
    pub fn new(alloc: Global, config: Config) -> Result<Watcher, AllocError>
        ensures value { IfOk result (λ watcher. watcher ≡ watching config) }
    {
        let machine = Machine::new(alloc, config)?;
        Ok(Watcher {
            machine,
            cut: Vec::new(alloc),
            place: 0,
            is_broken: false,
        })
    }

    /// The place of the last event that it took, 0 before the first. Takes no memory.
    pub fn place(&self) -> Place
        ensures value { result ≡ self.now.place }
    {
        self.place
    }

    /// Takes the next event, and appends the lines that it shows. Refused by `Broken`, by `JournalFull`
    /// behind 2,000,000 events, and as the machine refuses an event of its kind: then nothing has
    /// changed. After `Memory`, which comes last, the watcher is broken, and the text may have a part of
    /// the lines.
    pub fn next(&mut self, event: &Event, out: &mut String) -> Result<(), RoomRefusal>
        ensures took { OnOk result (Followed self.old event.now self.new
            (string_bytes out.old) (string_bytes out.new)) }
        ensures refused { IsRefusedBy (refusal self.old event.now) result }
        ensures left { IfErr result (Refusing self.old self.new
            (string_bytes out.old) (string_bytes out.new)) }
    {
        match self.closed() {
            Some(refusal) => return Err(refusal),
            None => {}
        }
        // Each event adds one member at most.
        members_come_and_stay();
        let alloc = *self.cut.allocator();
        let at = At {
            conference: self.machine.config().conference(),
            place: self.place + 1,
        };
        let number = self.machine.joins() as u32 + 1;
        let leaver = leaver(&self.machine, event);
        let mut parcels = Vec::new(alloc);
        let mut changed = Vec::new(alloc);
        match self.machine.apply(event, &mut parcels, &mut changed) {
            Ok(_reply) => {}
            Err(refusal) => {
                let refusal = RoomRefusal::Refused(refusal);
                // Want of memory breaks the watcher.
                self.is_broken = refusal.is_memory();
                return Err(refusal);
            }
        }
        // Whatever breaks the event off leaves it so.
        self.is_broken = true;
        let cut = cut_of(alloc, &self.machine)?;
        let news = news_of(alloc, &self.cut, &cut)?;
        let shown = Shown {
            event,
            number,
            leaver,
            changed: &changed,
            cut: &news,
        };
        shown.add(out, at, &self.machine)?;
        self.cut = cut;
        self.place += 1;
        self.is_broken = false;
        Ok(())
    }

    /// Takes the next event silently. Refused as `next` is.
    pub fn pass(&mut self, event: &Event) -> Result<(), RoomRefusal>
        ensures took { OnOk result (Passed self.old event.now self.new) }
        ensures refused { IsRefusedBy (refusal self.old event.now) result }
        ensures left { IfErr result (Refusing self.old self.new [] []) }
    {
        match self.closed() {
            Some(refusal) => return Err(refusal),
            None => {}
        }
        members_come_and_stay();
        let alloc = *self.cut.allocator();
        let mut parcels = Vec::new(alloc);
        let mut changed = Vec::new(alloc);
        match self.machine.apply(event, &mut parcels, &mut changed) {
            Ok(_reply) => {}
            Err(refusal) => {
                let refusal = RoomRefusal::Refused(refusal);
                // Want of memory breaks the watcher.
                self.is_broken = refusal.is_memory();
                return Err(refusal);
            }
        }
        self.is_broken = true;
        self.cut = cut_of(alloc, &self.machine)?;
        self.place += 1;
        self.is_broken = false;
        Ok(())
    }

    /// Why no event is taken, whichever it is.
    fn closed(&self) -> Option<RoomRefusal>
        ensures { result ≡ closed self.now }
    {
        if self.is_broken {
            Some(RoomRefusal::Refused(Refusal::Broken))
        } else if self.place as usize >= MAX_EVENTS {
            Some(RoomRefusal::JournalFull)
        } else {
            None
        }
    }
}

/// The user of the member who leaves, and 0 where none does.
fn leaver(machine: &Machine, event: &Event) -> u16
    ensures { result ≡ spec.leaver machine.now.conference event.now }
{
    match event {
        Event::Leave { n } => machine.user_of(*n),
        _ => 0,
    }
}

/// The numbers of the live members that are cut, ascending.
fn cut_of(alloc: Global, machine: &Machine) -> Result<Vec<u32>, AllocError>
    ensures { IfOk result (λ cut. cut.items ≡ spec.cut_of machine.now.conference) }
{
    machine
        .live_numbers()
        .iter()
        .filter(|n| machine.is_cut(**n))
        .copied()
        .collect(alloc)
}

/// Whether the number is one of these.
fn is_among(numbers: &[u32], n: u32) -> bool
    ensures { result ≡ list_any (λ k. k == n) numbers.now }
{
    numbers.iter().any(|k| *k == n)
}

/// Whether the number is none of those before.
fn is_news(before: &[u32], n: u32) -> bool
    ensures { result ≡ not (list_any (λ k. k == n) before.now) }
{
    !is_among(before, n)
}

/// Those that are none of those before.
fn news_of(alloc: Global, before: &[u32], now: &[u32]) -> Result<Vec<u32>, AllocError>
    ensures { IfOk result (λ news. news.items
        ≡ filter (λ n. not (list_any (λ k. k == n) before.now)) now.now) }
{
    now.iter()
        .filter(|n| is_news(before, **n))
        .copied()
        .collect(alloc)
}
