//! The live connections of each conference, and which of them a call concerned: those to which it
//! queued something, those whose member it cut, and all where it closed the conference or broke it off.

ghost use Rattle.std.specs.Prelude.{◌≡◌, ◌++◌, ◌∷◌, ℕ, [], false, map, nat_eq, OnErr, OnOk};
ghost use Rattle.floor_hub.specs.Concerned.{AscendFrom};
ghost use Rattle.floor_hub.specs.steps.Attached.{AreListed, IsBehind, NamedIn, Names, PutsLive, SameLive, is_noted, live_in, marked, numbers_of, without};

use crate::attached::{Attached, Live, is_shut};
use crate::connection::ConnNo;
use floor_numbered::Numbered;
use floor_room::Room;
use std::alloc::{AllocError, Global};
use std::marker::Model;

/// The live connections of each conference, and the numbers of those that the last call concerned. There
/// is room for the numbers of all that are live in any one conference.
#[derive(Drop)]
pub(crate) struct Concerned {
    attached: Numbered<Attached>,
    numbers: Vec<ConnNo>,
}

impl Model for Concerned {
    ghost use Rattle.std.specs.Prelude.{vec_capacity};
    ghost use Rattle.floor_hub.specs.steps.Attached.{Concerned, HaveRoom};

    ghost Value = { Concerned };

    ghost view = { λ c. record { attached = c.attached.entries; numbers = c.numbers.items } };

    ghost invariant = { λ c. HaveRoom
        record { attached = c.attached.entries; numbers = c.numbers.items }
        (vec_capacity c.numbers) };
}

impl Concerned {
    /// No connection, and nobody is concerned.
    pub(crate) fn new(alloc: Global) -> Concerned
        ensures live { (conference : ℕ) → live_in result conference ≡ [] }
        ensures numbers { result.numbers ≡ [] }
    {
        Concerned {
            attached: Numbered::new(alloc),
            numbers: Vec::new(alloc),
        }
    }

    /// The numbers of the live connections that the last call concerned.
    pub(crate) fn numbers(&self) -> &[ConnNo]
        ensures value { result.now ≡ self.now.numbers }
    {
        self.numbers.as_slice()
    }

    /// The live connections of a conference.
    pub(crate) fn live(&self, conference: u32) -> &[Live]
        ensures value { result.now ≡ live_in self.now conference }
        ensures listed { AreListed result.now }
    {
        match self.attached.get(u64::from(conference)) {
            Some(attached) => attached.as_slice(),
            None => &[],
        }
    }

    /// Nobody is concerned.
    pub(crate) fn nobody(&mut self)
        ensures next { SameLive self.old self.new × (self.new.numbers ≡ []) }
    {
        self.numbers.clear();
    }

    /// Adds a live connection of a conference behind the others. After an error nothing has changed.
    pub(crate) fn add(&mut self, conference: u32, live: Live) -> Result<(), AllocError>
        requires { IsBehind (live_in self.old conference) live.number live.n }
        ensures next { OnOk result
            (PutsLive self.old self.new conference (live_in self.old conference ++ live ∷ [])) }
        ensures left { OnErr result (SameLive self.old self.new) }
    {
        let count = match self.attached.get(u64::from(conference)) {
            Some(attached) => attached.len(),
            None => 0,
        };
        self.numbers.clear();
        self.numbers.reserve(count.saturating_add(1))?;
        match self.attached.get_mut(u64::from(conference)) {
            Some(attached) => attached.add(live),
            None => {
                let mut attached = Attached::new(*self.numbers.allocator());
                attached.add(live)?;
                self.attached.insert(u64::from(conference), attached)?;
                Ok(())
            }
        }
    }

    /// Takes a connection of a conference out.
    #[tactic(auto, using(crate::proofs::Listing::length_without))]
    pub(crate) fn remove(&mut self, conference: u32, number: ConnNo)
        ensures next { PutsLive self.old self.new conference
            (without number (live_in self.old conference)) }
    {
        match self.attached.get_mut(u64::from(conference)) {
            Some(attached) => attached.remove(number),
            None => {}
        }
    }

    /// Gives the memory that a conference's live connections took back, of which there is none now.
    pub(crate) fn forget(&mut self, conference: u32)
        requires { live_in self.old conference ≡ [] }
        ensures next { SameLive self.old self.new }
        ensures numbers { self.new.numbers ≡ self.old.numbers }
    {
        let _attached = self.attached.swap_remove(u64::from(conference));
    }

    /// Names those connections of a conference that a call concerned: none where the room was shut
    /// before, all where it is shut now, and else those of the members that were told something or are
    /// newly cut.
    pub(crate) fn name(&mut self, conference: u32, room: &Room, was_shut: bool, told: &[u32])
        ensures named { NamedIn was_shut room.now told.now (live_in self.old conference)
            (live_in self.new conference) self.new.numbers }
        ensures others { (other : ℕ) → nat_eq conference other ≡ false
            → live_in self.new other ≡ live_in self.old other }
    {
        self.numbers.clear();
        if was_shut {
            return;
        }
        if is_shut(room) {
            return self.name_all(conference);
        }
        let cut = room.cut_numbers();
        if told.is_empty() && cut.is_empty() {
            return;
        }
        self.name_noted(conference, told, cut);
    }

    /// Names all connections of a conference.
    fn name_all(&mut self, conference: u32)
        requires { self.old.numbers ≡ [] }
        ensures same { SameLive self.old self.new }
        ensures named { self.new.numbers ≡ numbers_of (live_in self.old conference) }
        ensures ascending { AscendFrom 0 self.new.numbers }
    {
        match self.attached.get(u64::from(conference)) {
            Some(attached) => attached.name_all(&mut self.numbers),
            None => {}
        }
    }

    /// Names those of the members that were told something or are newly cut.
    fn name_noted(&mut self, conference: u32, told: &[u32], cut: &[u32])
        requires { self.old.numbers ≡ [] }
        ensures live { PutsLive self.old self.new conference
            (map (marked cut.now) (live_in self.old conference)) }
        ensures named { Names self.new.numbers (is_noted told.now cut.now)
            (live_in self.old conference) }
    {
        match self.attached.get_mut(u64::from(conference)) {
            Some(attached) => attached.name_noted(told, cut, &mut self.numbers),
            None => {}
        }
    }
}
