//! What runs the scripts of cases.

use crate::fault::Fault;
use std::alloc::Global;

/// Runs scripts, each from its beginning.
pub trait Runner {
    /// Runs a script, which begins with its configuration and a line `---` where it has one, and
    /// appends what it prints. Whatever else it has to end with, as a status, it looks at itself.
    fn run(&mut self, alloc: Global, script: &str, printed: &mut Vec<u8>) -> Result<(), Fault>;
}
