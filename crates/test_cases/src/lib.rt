//! Cases: runs that are worked out by hand, as data that a person reads, and whatever runs them.
//!
//! A file of cases has a head, and configurations with cases below each; a case is a script and the
//! lines that it has to print. What a line of a script does is the [`Runner`]'s: floorsim's lines, or
//! clients of a server over sockets. It does no input or output but for reading the files.
#![tactic(auto)]

mod case;
mod cases;
mod fault;
mod files;
mod runner;
mod shorthands;

pub use case::Case;
pub use cases::{NamedCase, read_cases, run_cases};
pub use fault::{Difference, Fault};
pub use files::{paths_of, run_word, tell};
pub use runner::Runner;
