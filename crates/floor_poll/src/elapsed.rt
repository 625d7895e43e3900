//! How late it is, as a thread sees it.

ghost use Rattle.std.specs.Prelude.{◌≡◌};
ghost use Rattle.floor_poll.specs.Times.{earlier};

use std::time::{Clock, Instant};

/// The time since a thread began.
#[derive(Clone, Copy, Debug)]
pub struct Elapsed {
    begun: Option<Instant>,
}

impl Elapsed {
    /// It begins. Without a clock no time goes by.
    pub fn begin<R: Clock>(rt: &R) -> Elapsed {
        Elapsed {
            begun: Instant::now(rt).ok(),
        }
    }

    /// The milliseconds since then; `None` where the clock can't be read.
    pub fn millis<R: Clock>(&self, rt: &R) -> Option<u64> {
        match (self.begun, Instant::now(rt)) {
            (Some(begun), Ok(now)) => {
                let millis = now.duration_since(begun).as_millis();
                Some(u64::try_from(millis).unwrap_or(u64::MAX))
            }
            _ => None,
        }
    }
}

/// The earlier of two times, where there is one.
pub fn earlier(one: Option<u64>, other: Option<u64>) -> Option<u64>
    ensures value { result ≡ earlier one other }
{
    match (one, other) {
        (Some(one), Some(other)) => Some(one.min(other)),
        (one, other) => one.or(other),
    }
}
