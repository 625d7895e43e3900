//! Where a text stops being a configuration, and why, as a line for a person.
//!
//! That a text is refused, and by which fault, is floor_config's; this crate walks through it once more, in
//! the order of its checks, and tells the place of what it refuses: a line and a column where the text
//! isn't TOML, else the key, which conference, user or floor it is of, and the value that stands there.
//! No program has to read such a line. It tells too which keys say
//! nothing. It does no input or output.
#![tactic(auto)]

mod checks;
mod diagnosis;
mod doubles;
mod place;
mod seeking;
mod unknown;
mod values;

pub use diagnosis::{Diagnosis, diagnose, line_of_fault};
pub use floor_config::ConfigFault;
pub use unknown::{UnknownKey, unknown_keys};
