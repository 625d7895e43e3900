//! A port: whoever connects to it is one user of one conference.

use floor_listen::listening_address;
use floor_server::UserPort;
use mio::net::{TcpListener, TcpStream};
use std::io;
use std::io::ErrorKind;
use std::net::{Net, SocketAddr};

/// A port that is listened on.
#[derive(Drop)]
pub struct Port {
    pub listener: TcpListener,
    pub place: UserPort,
    /// Whether its last accept failed.
    pub is_failing: bool,
    /// Whether it stands among those that are looked at again.
    pub is_waiting: bool,
}

impl Port {
    /// Listens on a user's port of 127.0.0.1.
    pub fn open<R: Net>(rt: &R, place: UserPort) -> io::Result<Port> {
        Ok(Port {
            listener: listen(rt, place.port)?,
            place,
            is_failing: false,
            is_waiting: false,
        })
    }
}

/// What an accept found.
#[derive(Drop)]
pub enum Accepted {
    /// Who has connected, by this port of its own.
    Stream(TcpStream, u16),
    /// Nobody.
    Nobody,
    /// Somebody who has gone again: the next may wait.
    Gone,
    /// Nobody can be accepted at present, as without a descriptor left.
    Failure,
}

/// Listens on a port of 127.0.0.1.
pub fn listen<R: Net>(rt: &R, port: u16) -> io::Result<TcpListener> {
    TcpListener::bind(rt, SocketAddr::V4(listening_address(port)))
}

/// Accepts who waits at a port.
pub fn accept(listener: &TcpListener) -> Accepted {
    match listener.accept() {
        Ok((stream, address)) => Accepted::Stream(stream, address.port()),
        Err(error) => match error.kind() {
            ErrorKind::WouldBlock => Accepted::Nobody,
            ErrorKind::Interrupted | ErrorKind::ConnectionAborted => Accepted::Gone,
            _ => Accepted::Failure,
        },
    }
}
