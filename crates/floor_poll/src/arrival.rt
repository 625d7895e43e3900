//! Who has come by a door, on the way to the loop of its conference.

use crate::header::Header;
use floor_server::{Door, Peer};
use mio::net::TcpStream;

/// A connection that has said who it is.
#[derive(Drop)]
pub struct Arrival {
    pub stream: TcpStream,
    pub door: Door,
    /// Who it is, by the port of its door, and its own port.
    pub peer: Peer,
    pub header: Header,
}
