//! Reading the head of a request: not for ever, and not without a bound.

use crate::deadline::Deadline;
use floor_web::{MAX_HEAD_LEN, Origins, Reading, Refusal, read_request};
use std::alloc::AllocError;
use std::io::{ErrorKind, Read};
use std::net::TcpStream;
use std::time::Clock;

/// How long a head may take in all, in seconds: a browser sends it in one piece.
const HEAD_SECONDS: u64 = 10;

/// How a head ended.
#[derive(Clone, Copy, Debug, PartialEq, Eq)]
pub enum HeadEnd {
    /// It is whole.
    Whole,
    /// It is refused.
    Refused(Refusal),
    /// The stream ended, or failed.
    Gone,
}

/// Reads until the head is whole. What was read stands in `bytes`.
pub fn read_head<R: Clock>(
    rt: &R,
    origins: &Origins,
    mut stream: &TcpStream,
    bytes: &mut Vec<u8>,
) -> Result<HeadEnd, AllocError> {
    let Some(deadline) = Deadline::after(rt, HEAD_SECONDS) else {
        return Ok(HeadEnd::Gone);
    };
    let mut piece = [0u8; 1_024];
    // Each turn reads a byte at least, but where it is interrupted.
    for _ in 0..=2 * MAX_HEAD_LEN {
        if !deadline.set(rt, stream) {
            return Ok(HeadEnd::Refused(Refusal::TooSlow));
        }
        match stream.read(&mut piece) {
            Ok(0) => return Ok(HeadEnd::Gone),
            Ok(count) => bytes.extend_from_slice(&piece[..count])?,
            Err(error) => match error.kind() {
                ErrorKind::Interrupted => {}
                ErrorKind::WouldBlock | ErrorKind::TimedOut => {
                    return Ok(HeadEnd::Refused(Refusal::TooSlow));
                }
                _ => return Ok(HeadEnd::Gone),
            },
        }
        match read_request(origins, bytes.as_slice()) {
            Reading::Waits => {}
            Reading::Whole { .. } => return Ok(HeadEnd::Whole),
            Reading::Refused(refusal) => return Ok(HeadEnd::Refused(refusal)),
        }
    }
    Ok(HeadEnd::Refused(Refusal::TooLarge))
}
