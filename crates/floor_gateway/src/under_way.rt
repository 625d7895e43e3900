//! Requests under way: connections whose request is read, looked up or answered, and that don't go on yet.
//!
//! There are 256 at most: one more ends the oldest. So whoever begins requests and ends none shuts nobody out,
//! since a browser's request is there in one piece and is answered at once.

use std::alloc::{AllocError, AllocFailed, Global};
use std::net::{Shutdown, TcpStream};

/// How many requests may be under way at once.
pub const MAX_UNDER_WAY: usize = 256;

/// A request that is under way.
#[derive(Drop)]
struct Request {
    number: u64,
    /// A second handle of its socket.
    socket: TcpStream,
}

/// The requests under way, in the order in which they began.
#[derive(Drop)]
pub struct UnderWay {
    begun: u64,
    requests: Vec<Request>,
}

impl UnderWay {
    /// None is under way.
    pub fn new(alloc: Global) -> UnderWay {
        UnderWay {
            begun: 0,
            requests: Vec::new(alloc),
        }
    }

    /// Begins a request, by a handle of its socket, and gives its number. Where there are as many as may be the
    /// oldest is ended: its reads and writes end at once.
    pub fn begin(&mut self, socket: TcpStream) -> Result<u64, AllocError> {
        if MAX_UNDER_WAY <= self.requests.len() && !self.requests.is_empty() {
            let oldest = self.requests.remove(0);
            let _outcome = oldest.socket.shutdown(Shutdown::Both);
        }
        self.begun = self.begun.wrapping_add(1);
        let number = self.begun;
        match self.requests.push(Request { number, socket }) {
            Ok(()) => Ok(number),
            Err(AllocFailed { value: _ }) => Err(AllocError),
        }
    }

    /// The request with this number is under way no more: it has ended, or goes on.
    pub fn end(&mut self, number: u64) {
        if let Some(place) = self
            .requests
            .iter()
            .position(|request| request.number == number)
        {
            let _request = self.requests.remove(place);
        }
    }
}
