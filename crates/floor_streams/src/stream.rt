//! A stream that bytes come from and go to, and how it is closed.

use mio::net::TcpStream;
use std::io::{Read, Write};
use std::net::Shutdown;

/// How often what has come is read and thrown away before a stream is closed: by 4 KiB at a time that is more
/// than the system keeps of a socket.
const MAX_LAST_READS: u32 = 4_096;

/// What a connection reads from and writes to.
pub trait Stream: Read + Write {
    /// Ends it, both ways.
    fn end(&mut self);
}

impl Stream for TcpStream {
    fn end(&mut self) {
        let _outcome = self.shutdown(Shutdown::Both);
    }
}

/// Ends a stream, both ways, once what has come is read: a socket that is closed with unread bytes is reset.
pub fn shut_down<S: Stream>(stream: &mut S, buffer: &mut [u8]) {
    for _ in 0..MAX_LAST_READS {
        match stream.read(buffer) {
            Ok(0) | Err(_) => break,
            Ok(_) => {}
        }
    }
    stream.end();
}
