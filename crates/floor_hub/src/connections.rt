//! The live connections by their numbers: each stands in a slot, which is used again when it has
//! left.

ghost use Rattle.std.specs.Prelude.{◌≡◌, ℕ, Some, None, OnErr, OnOk, option_copied};
ghost use Rattle.std.specs.Borrow.{sem};
ghost use Rattle.std.specs.Option.{option_copied_mut};
ghost use Rattle.floor_hub.specs.Connections.{Puts, SameConnections, connection_at};
ghost use Rattle.floor_hub.specs.steps.Lending.{LendsConnection};
ghost use Rattle.floor_hub.specs.steps.Slots.{with_connection};

use crate::connection::{ConnNo, Connection};
use floor_numbered::Numbered;
use slab::Slab;
use std::alloc::{AllocError, Global};
use std::marker::Model;

/// The live connections.
#[derive(Drop)]
pub(crate) struct Connections {
    keys: Numbered<usize>,
    slots: Slab<Connection>,
}

impl Model for Connections {
    ghost use Rattle.floor_hub.specs.Connections.{Connections};
    ghost use Rattle.floor_hub.specs.steps.Slots.{IsSlotted};

    ghost Value = { Connections };

    ghost view = { λ c. record { numbers = c.keys.entries; slots = c.slots.slots } };

    ghost invariant = { λ c. IsSlotted record { numbers = c.keys.entries; slots = c.slots.slots } };
}

impl Connections {
    /// No connection.
    pub(crate) fn new(alloc: Global) -> Self
        ensures value { (number : ℕ) → connection_at result number ≡ None }
    {
        Connections {
            keys: Numbered::new(alloc),
            slots: Slab::new(alloc),
        }
    }

    /// The connection with this number. Takes no memory.
    pub(crate) fn get(&self, number: ConnNo) -> Option<&Connection>
        ensures found { option_copied result ≡ connection_at self.now number }
    {
        match self.keys.get(number) {
            Some(key) => self.slots.get(*key),
            None => None,
        }
    }

    /// The connection with this number, to be changed. Takes no memory.
    pub(crate) fn get_mut(&mut self, number: ConnNo) -> Option<&mut Connection>
        ensures* lends { sem 𝓛 (LendsConnection self.entry number result) }
        ensures found { option_copied_mut result ≡ connection_at self.old number }
        ensures puts { (x y : Connection) → connection_at self.old number ≡ Some x
            → Puts self.old (with_connection self.old number y) number (Some y) }
    {
        let key = *self.keys.get(number)?;
        self.slots.get_mut(key)
    }

    /// Puts a connection under a number that none has. After an error nothing has changed.
    pub(crate) fn insert(
        &mut self,
        number: ConnNo,
        connection: Connection,
    ) -> Result<(), AllocError>
        requires fresh { connection_at self.old number ≡ None }
        ensures took { OnOk result (Puts self.old self.new number (Some connection)) }
        ensures left { OnErr result (SameConnections self.old self.new) }
    {
        let key = match self.slots.insert(connection) {
            Ok(key) => key,
            Err(_) => return Err(AllocError),
        };
        match self.keys.insert(number, key) {
            Ok(_) => Ok(()),
            Err(_) => {
                let _ = self.slots.try_remove(key);
                Err(AllocError)
            }
        }
    }

    /// Takes the connection with this number out; its slot is free. Takes no memory.
    pub(crate) fn remove(&mut self, number: ConnNo) -> Option<Connection>
        ensures value { result ≡ connection_at self.old number }
        ensures next { Puts self.old self.new number None }
    {
        match self.keys.swap_remove(number) {
            Some(key) => self.slots.try_remove(key),
            None => None,
        }
    }
}
