//! The floors of a conference (RFC 8855, section 2).

ghost use Rattle.std.specs.Prelude.{◌≡◌, ◌++◌, [], ◌∷◌, map, IfOk, OnOk, OnErr};
ghost use Rattle.floor_config.specs.Changed.{chaired};

use std::alloc::{AllocError, Global};
use std::marker::Model;

/// How many floors a conference has at most, those among them that were added while it runs.
pub(crate) const MAX_FLOORS: usize = 32;

/// A floor of a conference.
#[derive(Clone, Copy, Debug, PartialEq, Eq)]
pub struct Floor {
    /// The Floor ID (RFC 8855, section 5.2.2).
    pub id: u16,
    /// How many floor requests may hold the floor at one time (section 2 leaves room for more than
    /// one).
    pub room: u16,
    /// The User ID of the floor's chair, if it has one (section 4.2).
    pub chair: Option<u16>,
}

/// Floors in order.
#[derive(Debug, Drop)]
pub struct Floors {
    items: Vec<Floor>,
}

impl Model for Floors {
    ghost use Rattle.std.specs.Prelude.{List};
    ghost use Rattle.floor_config.specs.declared.floors.Floor.{Floor};

    ghost Value = { List Floor };

    ghost view = { λ f. f.items.items };
}

impl Floors {
    /// The floors of a vector. Takes no memory.
    pub fn from_vec(items: Vec<Floor>) -> Floors
        ensures { result ≡ items.items }
    {
        Floors { items }
    }

    /// The floors, in order.
    pub fn as_slice(&self) -> &[Floor]
        ensures { result.now ≡ self.now }
    {
        self.items.as_slice()
    }

    /// Puts a floor behind the others. Where memory is refused nothing has changed.
    pub(crate) fn push(&mut self, floor: Floor) -> Result<(), AllocError>
        ensures took { OnOk result (self.new ≡ self.old ++ floor ∷ []) }
        ensures left { OnErr result (self.new ≡ self.old) }
    {
        self.items.push(floor)?;
        Ok(())
    }

    /// Gives the floor with this id this chair, or none. Takes no memory.
    pub(crate) fn put_chair(&mut self, id: u16, chair: Option<u16>)
        ensures { self.new ≡ map (chaired id chair) self.old }
    {
        for floor in self.items.iter_mut() {
            give_chair(floor, id, chair);
        }
    }

    /// Equal floors.
    pub fn copy(&self, alloc: Global) -> Result<Floors, AllocError>
        ensures { IfOk result (λ copy. copy ≡ self.now) }
    {
        let items = Vec::from_slice(alloc, self.as_slice())?;
        Ok(Floors::from_vec(items))
    }
}

/// Gives a floor this chair, or none, if it is the one with this id.
fn give_chair(floor: &mut Floor, id: u16, chair: Option<u16>)
    ensures { floor.new ≡ chaired id chair floor.old }
{
    if floor.id == id {
        floor.chair = chair;
    }
}
