//! Why a run ends early.

use std::io;

/// Memory or the output was refused, or what a limit isn't about.
#[derive(Clone, Copy, Debug)]
pub struct Ended;

impl From<io::Error> for Ended {
    fn from(_e: io::Error) -> Ended {
        Ended
    }
}
