//! Ending a connection so that its peer is told that it is lost.

use libc::net::{_SS_SIZE, connect};
use std::os::fd::AsRawFd;

/// Aborts a connection (RFC 9293, section 3.10.5): its peer is sent a reset, and no end of the stream. Tells
/// whether the system did it: some do it only where no thread waits for the socket.
pub fn reset<S: AsRawFd>(socket: &S) -> bool {
    // To connect to an address of the family AF_UNSPEC, which is 0, dissolves the connection.
    let nowhere = [0u8; _SS_SIZE];
    let status = unsafe { connect(socket.as_raw_fd(), &nowhere, 16) };
    status == 0
}
