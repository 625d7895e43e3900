//! Room that is kept from call to call, and holds nothing in between.

use floor_rpc::Scratch;
use std::alloc::Global;

/// Room for reading and writing a line, one for all clients. What it holds between two calls is of no account.
#[derive(Drop)]
pub struct Workspace {
    pub(crate) scratch: Scratch,
    pub(crate) line: Vec<u8>,
}

impl Workspace {
    /// No room yet. Takes no memory.
    pub fn new(alloc: Global) -> Workspace {
        Workspace {
            scratch: Scratch::new(alloc),
            line: Vec::new(alloc),
        }
    }
}
