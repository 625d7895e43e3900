//! Somebody at a door: a header that is awaited in front of the first message, and what follows from what came.
//!
//! RFC 8855 leaves open how a server learns who has connected (section 3.1): that a proxy's header says it is our
//! choice. It stands on `floor_proxy`, which reads the header, and does no input or output: whoever calls it has
//! read the bytes, and knows the time.
#![tactic(auto)]

mod laws;
mod newcomer;
mod refusal;
#[cfg(test)]
mod tests;

pub use floor_proxy::{MAX_HEADER, NamedBy, ProxyRefusal};
pub use laws::cuts_change_nothing;
pub use newcomer::{MAX_HEADER_MICROS, Newcomer, Verdict};
pub use refusal::DoorRefusal;
