//! A time until which a peer may take to send something.

use std::net::TcpStream;
use std::time::{Clock, Duration, Instant};

/// A time until which a peer may take.
#[derive(Clone, Copy, Debug)]
pub struct Deadline {
    start: Instant,
    all: Duration,
}

impl Deadline {
    /// So many seconds from now; none where the clock can't be read.
    pub fn after<R: Clock>(rt: &R, seconds: u64) -> Option<Deadline> {
        let start = Instant::now(rt).ok()?;
        Some(Deadline {
            start,
            all: Duration::from_secs(seconds),
        })
    }

    /// Has the next read wait until then at most. Tells whether it is still to come.
    pub fn set<R: Clock>(&self, rt: &R, stream: &TcpStream) -> bool {
        let Ok(spent) = self.start.elapsed(rt) else {
            return false;
        };
        let left = self.all.saturating_sub(spent);
        !left.is_zero() && stream.set_read_timeout(Some(left)).is_ok()
    }
}
