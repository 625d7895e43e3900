//! The hub for C, and for whatever calls C: `include/floor.h` declares what is exported here.
//!
//! Each export lends the hub that lies at the pointer to a safe function, whose contract ties it to the
//! hub's own call; what C has to keep stands in the `requires*`, and in words in floor.h. It does no
//! input or output, starts no thread, and waits for nothing.
#![tactic(auto)]

mod acting;
mod answers;
mod exports;
mod laws;
mod opening;
mod outcome;
mod reading;
mod serving;
mod taking;
#[cfg(test)]
mod tests;

pub use answers::{
    FloorAttached, FloorLines, FloorNamed, FloorOpened, FloorSaid, FloorServed, FloorState,
    FloorTaken, FloorText,
};
pub use laws::numbers_tell_outcomes;
pub use outcome::Outcome;
