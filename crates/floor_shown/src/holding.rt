//! Who holds which floor, and of which floors an event changed that.

use crate::request::{is_granted_at, user_in};
use floor_message::{Info, SharedInfo};
use floor_rpc::{FloorHolders, Holder, List};
use std::alloc::{AllocError, Global};

/// A floor request that holds a floor, and its beneficiary.
#[derive(Clone, Copy, Debug, PartialEq, Eq)]
struct Holding {
    floor: u16,
    request: u16,
    user: u16,
}

/// The holdings of a conference, by ascending floor requests.
#[derive(Drop)]
pub(crate) struct Holdings {
    items: Vec<Holding>,
}

impl Holdings {
    /// None. Takes no memory.
    pub(crate) fn new(alloc: Global) -> Holdings {
        Holdings {
            items: Vec::new(alloc),
        }
    }

    /// Those of the floor requests that are shown so.
    pub(crate) fn of(alloc: Global, shown: &[SharedInfo]) -> Result<Holdings, AllocError> {
        let mut holdings = Holdings::new(alloc);
        let _floors = holdings.change(shown)?;
        Ok(holdings)
    }

    /// Nobody holds anything any more. Gives the floors that somebody held, ascending.
    pub(crate) fn end(&mut self) -> Result<Vec<u16>, AllocError> {
        let mut floors = Vec::new(*self.items.allocator());
        for holding in &self.items {
            put(&mut floors, holding.floor)?;
        }
        self.items.clear();
        Ok(floors)
    }

    /// An event changed what is shown of these floor requests. Gives the floors whose holders it changed, ascending.
    pub(crate) fn change(&mut self, changed: &[SharedInfo]) -> Result<Vec<u16>, AllocError> {
        let mut floors = Vec::new(*self.items.allocator());
        for info in changed {
            self.give_back(info.as_info(), &mut floors)?;
            self.grant(info.as_info(), &mut floors)?;
        }
        Ok(floors)
    }

    /// What a floor request doesn't hold any more is taken out.
    fn give_back(&mut self, info: &Info, floors: &mut Vec<u16>) -> Result<(), AllocError> {
        for holding in &self.items {
            if holding.request == info.request && !holds(info, holding.floor) {
                put(floors, holding.floor)?;
            }
        }
        self.items.retain(|holding| holding.request != info.request || holds(info, holding.floor));
        Ok(())
    }

    /// What a floor request holds is put in.
    fn grant(&mut self, info: &Info, floors: &mut Vec<u16>) -> Result<(), AllocError> {
        for shown in info.floors.as_slice() {
            if is_granted_at(shown.1) {
                let holding = Holding {
                    floor: shown.0,
                    request: info.request,
                    user: user_in(&info.beneficiary),
                };
                self.put(holding, floors)?;
            }
        }
        Ok(())
    }

    /// Puts a holding behind those of lower floor requests, unless it is there.
    fn put(&mut self, holding: Holding, floors: &mut Vec<u16>) -> Result<(), AllocError> {
        if self.items.contains(&holding) {
            return Ok(());
        }
        put(floors, holding.floor)?;
        let place = self
            .items
            .partition_point(|other| other.request <= holding.request);
        if place <= self.items.len() {
            self.items.insert(place, holding)?;
        }
        Ok(())
    }

    /// Floors, with those who hold them.
    pub(crate) fn told(&self, floors: &[u16]) -> Result<Vec<FloorHolders>, AllocError> {
        let mut told = Vec::new(*self.items.allocator());
        for floor in floors {
            told.push(FloorHolders {
                floor: *floor,
                holders: List::from_vec(self.holders(*floor)?),
            })?;
        }
        Ok(told)
    }

    /// Who holds a floor.
    fn holders(&self, floor: u16) -> Result<Vec<Holder>, AllocError> {
        let mut holders = Vec::new(*self.items.allocator());
        for holding in &self.items {
            if holding.floor == floor {
                holders.push(Holder {
                    request: holding.request,
                    user: holding.user,
                })?;
            }
        }
        Ok(holders)
    }
}

/// Whether a floor request is shown as holding a floor.
fn holds(info: &Info, floor: u16) -> bool {
    info.floors
        .as_slice()
        .iter()
        .any(|shown| shown.0 == floor && is_granted_at(shown.1))
}

/// Puts a floor among these, ascending, unless it is there.
fn put(floors: &mut Vec<u16>, floor: u16) -> Result<(), AllocError> {
    if floors.contains(&floor) {
        return Ok(());
    }
    let place = floors.partition_point(|other| *other < floor);
    if place <= floors.len() {
        floors.insert(place, floor)?;
    }
    Ok(())
}
