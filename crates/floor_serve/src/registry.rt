//! The conferences of a server, which threads share.

ghost use Rattle.std.specs.Prelude.{◌≡◌, IfOk};

use crate::desk::Desk;
use crate::fault::{DeskRefusal, OpenRefusal};
use crate::table::Table;
use floor_room::Config;
use std::alloc::Global;
use std::sync::{Mutex, Wait};

/// The conferences of a server, behind a lock that is held while one is opened, while a desk is
/// looked for, and at the end. What members do takes the lock of their conference alone.
#[derive(Drop)]
pub struct Registry {
    pub(crate) table: Mutex<Table>,
}

impl Registry {
    /// The registry of a server that opened nothing yet. Takes no memory.
    pub fn new(alloc: Global) -> Registry {
        Registry {
            table: Mutex::new(Table::new(alloc)),
        }
    }

    /// Opens a conference under its number. Refused by `Used` where a conference was opened under it,
    /// else by `Memory`; nothing has changed then.
    pub fn open<R: Wait>(&self, rt: &R, config: Config) -> Result<(), OpenRefusal> {
        self.table.lock(rt).open(config)
    }

    /// The desk of the conference with this number, also when it is closed. Refused by `NoConference`
    /// where none was opened under it, else by `Memory`.
    pub fn desk<R: Wait>(&self, rt: &R, conference: u32) -> Result<Desk, DeskRefusal>
        ensures { IfOk result (λ desk. desk.conference ≡ conference) }
    {
        self.table.lock(rt).desk(conference)
    }
}
