//! What is asked of a server by HTTP (RFC 9112), without a socket: whether it lives, whether new meetings may be sent to it,
//! and its figures, as Prometheus reads them. Nothing is changed by any of it, and no name of a person stands in it.
//!
//! A head is taken, one answer is given, and the connection ends.
#![tactic(auto)]

mod head;
mod metrics;
mod page;
#[cfg(test)]
mod tests;

pub use head::{Asked, MAX_HEAD, Unasked, read_head};
pub use metrics::{Counts, Process, Standing, metrics_text};
pub use page::Page;
