//! A line of the log: the time, and what is told.

use jiff::Timestamp;
use std::alloc::{AllocError, Global};
use std::time::SystemTime;

/// The line of a text: with the time (RFC 3339, to the millisecond), where there is a clock, else with
/// `-`, and a line feed.
pub fn line(alloc: Global, now: Option<SystemTime>, text: &str) -> Result<String, AllocError> {
    match time_of(now) {
        Some(time) => format!(in alloc; "{time:.3} {text}\n"),
        None => format!(in alloc; "- {text}\n"),
    }
}

/// The time, which is none beyond the year 9999.
fn time_of(now: Option<SystemTime>) -> Option<Timestamp> {
    match now {
        None => None,
        Some(now) => Timestamp::try_from(now).ok(),
    }
}
