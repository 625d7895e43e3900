//! What the events of a conference show, found out by running them again beside its room.

ghost use Rattle.std.specs.Prelude.{◌≡◌, IfOk};
ghost use Rattle.floor_machine.specs.Machine.{infos_changed};
ghost use Rattle.floor_shown.specs.Followed.{TellsOf};

use crate::showing::Showing;
use floor_config::Config;
use floor_machine::{Event, Machine};
use floor_message::SharedInfo;
use floor_rpc::EventTold;
use std::alloc::{AllocError, Global};
use std::marker::Model;

/// Follows the events of a conference from its opening on, and finds what each shows.
#[derive(Drop)]
pub struct Follower {
    alloc: Global,
    machine: Machine,
    cut: Vec<u32>,
    showing: Showing,
}

impl Model for Follower {
    ghost use Rattle.floor_shown.specs.Followed.{Followed};

    ghost Value = { Followed };

    ghost view = { λ f. record { place = f.showing; machine = f.machine } };
}

impl Follower {
    /// Of a conference that was opened so, before its first event.
    pub fn new(alloc: Global, opening: &Config) -> Result<Follower, AllocError> {
        let showing = Showing::new(alloc, opening.conference());
        let opening = opening.copy(alloc)?;
        Ok(Follower {
            alloc,
            machine: Machine::new(alloc, opening)?,
            cut: Vec::new(alloc),
            showing,
        })
    }

    /// The place of the last event that it took, 0 before the first.
    pub fn place(&self) -> usize
        ensures value { result ≡ self.now.place }
    {
        self.showing.place()
    }

    /// Takes the next event, which was taken at this time, and gives what it shows, if anything. After an error it is of
    /// no more use.
    pub fn take(
        &mut self,
        event: &Event,
        time: Option<u64>,
    ) -> Result<Option<EventTold>, AllocError>
        ensures told { IfOk result (TellsOf event.now self.old self.new) }
    {
        let changed = self.apply(event)?;
        let cut = self.newly_cut()?;
        self.showing.take(event, &changed, &cut, time)
    }

    /// The machine takes an event. Gives what is shown of the floor requests that it changed.
    fn apply(&mut self, event: &Event) -> Result<Vec<SharedInfo>, AllocError>
        ensures changed { IfOk result (λ changed. changed.items
            ≡ infos_changed self.old.machine.conference event.now) }
    {
        // No journal has so many members.
        if u32::MAX as usize <= self.machine.joins() {
            return Err(AllocError);
        }
        let mut parcels = Vec::new(self.alloc);
        let mut changed = Vec::new(self.alloc);
        match self.machine.apply(event, &mut parcels, &mut changed) {
            Ok(_) => {}
            // An event of a journal is refused for want of memory alone.
            Err(_) => return Err(AllocError),
        }
        Ok(changed)
    }

    /// The members that are cut since this was asked last.
    fn newly_cut(&mut self) -> Result<Vec<u32>, AllocError>
        ensures same { self.new ≡ self.old }
    {
        let mut told = Vec::new(self.alloc);
        let mut cut = Vec::new(self.alloc);
        if !self.machine.cut_numbers().is_empty() {
            for n in self.machine.live_numbers() {
                if self.machine.is_cut(*n) {
                    cut.push(*n)?;
                    note_cut(&mut told, &self.cut, *n)?;
                }
            }
        }
        self.cut = cut;
        Ok(told)
    }
}

/// A member that is cut is told, unless it was before.
fn note_cut(told: &mut Vec<u32>, before: &[u32], n: u32) -> Result<(), AllocError> {
    if !before.contains(&n) {
        told.push(n)?;
    }
    Ok(())
}
