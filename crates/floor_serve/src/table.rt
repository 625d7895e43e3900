//! The conferences of a server, in the order of opening.

ghost use Rattle.std.specs.Prelude.{◌≡◌, ◌↔◌, ◌++◌, ◌∷◌, [], Err, IfOk, MatchOption, OnErr, OnOk, true, false};
ghost use Rattle.std.specs.List.{slice_get};
ghost use Rattle.std.specs.Option.{option_copied};
ghost use Rattle.floor_serve.specs.Table.{is_opened};
ghost use Rattle.floor_serve.specs.declared.fault.OpenRefusal.{OpenRefusal};
ghost use Rattle.floor_serve.specs.declared.fault.DeskRefusal.{DeskRefusal};

use crate::booth::Booth;
use crate::desk::Desk;
use crate::fault::{DeskRefusal, OpenRefusal};
use floor_room::Config;
use indexmap::IndexSet;
use std::alloc::{AllocError, Global};
use std::marker::Model;
use std::sync::{Arc, Mutex};

/// A conference, behind a lock of its own.
#[derive(Drop)]
pub(crate) struct Slot {
    pub(crate) conference: u32,
    pub(crate) booth: Arc<Mutex<Booth>, Global>,
}

/// The conferences that were ever opened, in the order of opening, each found by its number without a
/// walk. Contracts see their numbers.
///
/// `open` adds one, `desk` gives its desk. A number stands for good, also when its conference is
/// closed.
#[derive(Drop)]
pub struct Table {
    pub(crate) slots: Vec<Slot>,
    /// The number of each slot, at the slot's place.
    pub(crate) places: IndexSet<u32>,
    alloc: Global,
}

impl Model for Table {
    ghost use Rattle.std.specs.Prelude.{◌≡◌, ℕ, List};
    ghost use Rattle.floor_serve.specs.steps.Slots.{numbers};

    ghost Value = { List ℕ };

    ghost view = { λ t. numbers t.slots.items };

    ghost invariant = { λ t. t.places.keys ≡ numbers t.slots.items };
}

impl Table {
    /// The table of a server that opened nothing yet. Takes no memory.
    pub fn new(alloc: Global) -> Table
        ensures { result ≡ [] }
    {
        Table {
            slots: Vec::new(alloc),
            places: IndexSet::new(alloc),
            alloc,
        }
    }

    /// Opens a conference under its number. Refused by `Used` where a conference was opened under it,
    /// also where it is closed, else by `Memory`; nothing has changed then.
    pub fn open(&mut self, config: Config) -> Result<(), OpenRefusal>
        ensures took { OnOk result (self.new ≡ self.old ++ config.conference ∷ []) }
        ensures free { OnOk result (is_opened self.old config.conference ≡ false) }
        ensures used { (result ≡ Err OpenRefusal.Used)
            ↔ (is_opened self.old config.conference ≡ true) }
        ensures left { OnErr result (self.new ≡ self.old) }
    {
        let conference = config.conference();
        if has_number(&self.places, conference) {
            return Err(OpenRefusal::Used);
        }
        match slot_for(self.alloc, conference, config) {
            Ok(slot) => match self.put(slot) {
                Ok(()) => Ok(()),
                Err(_) => Err(OpenRefusal::Memory),
            },
            Err(_) => Err(OpenRefusal::Memory),
        }
    }

    /// Puts the slot of a conference behind the others, whose number none of them has. After an
    /// error nothing has changed.
    fn put(&mut self, slot: Slot) -> Result<(), AllocError>
        requires { is_opened self.old slot.conference ≡ false }
        ensures took { OnOk result (self.new ≡ self.old ++ slot.conference ∷ []) }
        ensures left { OnErr result (self.new ≡ self.old) }
    {
        self.slots.reserve(1)?;
        match self.places.insert(slot.conference) {
            Ok(_) => {}
            Err(_) => return Err(AllocError),
        }
        self.slots.push_reserved(slot);
        Ok(())
    }

    /// The desk of the conference with this number, also when it is closed. Refused by `NoConference`
    /// where none was opened under it, else by `Memory`.
    pub fn desk(&self, conference: u32) -> Result<Desk, DeskRefusal>
        ensures found { IfOk result (λ desk. desk.conference ≡ conference) }
        ensures opened { OnOk result (is_opened self.now conference ≡ true) }
        ensures no_conference { (result ≡ Err DeskRefusal.NoConference)
            ↔ (is_opened self.now conference ≡ false) }
    {
        match self.slot_of(conference) {
            Some(slot) => match Arc::try_clone(&slot.booth) {
                Ok(booth) => Ok(Desk::new(self.alloc, conference, booth)),
                Err(_) => Err(DeskRefusal::Memory),
            },
            None => Err(DeskRefusal::NoConference),
        }
    }

    /// The slot of the conference with this number.
    fn slot_of(&self, conference: u32) -> Option<&Slot>
        ensures { MatchOption result (is_opened self.now conference ≡ false)
            (λ slot. (is_opened self.now conference ≡ true)
            × (slot.now.conference ≡ conference)) }
    {
        match self.places.get_index_of(&conference) {
            Some(place) => slot_at(&self.slots, place),
            None => None,
        }
    }
}

/// The slot at the place.
fn slot_at(slots: &[Slot], place: usize) -> Option<&Slot>
    ensures { option_copied result ≡ slice_get slots.now place }
{
    slots.get(place)
}

/// Whether a conference was opened under the number.
pub(crate) fn has_number(places: &IndexSet<u32>, conference: u32) -> bool
    ensures { result ≡ is_opened places.now.keys conference }
{
    places.contains(&conference)
}

/// The slot of a conference that opens.
fn slot_for(alloc: Global, conference: u32, config: Config) -> Result<Slot, AllocError>
    ensures { IfOk result (λ slot. slot.conference ≡ conference) }
{
    let booth = Arc::new(alloc, Mutex::new(Booth::new(alloc, config)?))?;
    Ok(Slot { conference, booth })
}
