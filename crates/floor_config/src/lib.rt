//! The configuration of conferences, read of a TOML text or built of values: the users, the floors
//! and the chairs that a floor control server is told of before anyone connects to it. RFC 8855
//! leaves open how they come about (section 3.1), so the format of the text is our choice.
//!
//! It stands on the crate `toml` alone, and does no input or output: whoever calls it has read the
//! text.
#![tactic(auto)]

mod building;
mod chairs;
mod changing;
mod config;
mod demonstration;
mod doubles;
mod fault;
mod floors;
mod laws;
mod lookup;
mod reading;
mod text;
mod users;
mod values;

pub use config::Config;
pub use fault::ConfigFault;
pub use floors::{Floor, Floors};
pub use laws::{doubles_are_found, kept_is_built, read_is_built};
pub use lookup::is_floor;
pub use reading::read_configs;
pub use text::Text;
pub use users::{User, Users};
