//! The log of a server: lines with the time, written to a sink by a thread of their own.
//!
//! Whoever has something to tell leaves the line with the [`Log`] and goes on: it holds a lock of the
//! log's own, under which nothing is written. A log that can't be written, or not as fast as it is told,
//! is given up, and the server goes on without it. What a line says is the server's.
#![tactic(auto)]

mod line;
mod log;
#[cfg(test)]
mod tests;
mod waiting;

pub use log::Log;
pub use waiting::MAX_WAITING;
