//! The network that a client is in: what is counted against whoever opens connection after connection.

use floor_web::last_value;
use std::net::{IpAddr, TcpStream};

/// The client's network: a number of its own for each address of IPv4, and for the first 64 bits of one of IPv6,
/// all of whose addresses one subscriber has. The address is the one that a proxy put last into the named field of
/// the head; where no field is named, or it has none, it is that of the socket's peer. None where it is this
/// machine's own.
pub fn network_of(stream: &TcpStream, field: Option<&str>, head: &[u8]) -> Option<u64> {
    let told = match field {
        Some(field) => address_in(head, field),
        None => None,
    };
    match told {
        Some(address) => number_of(address),
        None => match stream.peer_addr() {
            Ok(peer) => number_of(peer.ip()),
            Err(_) => None,
        },
    }
}

/// The address that stands last in the last field with this name.
fn address_in(head: &[u8], field: &str) -> Option<IpAddr> {
    let value = last_value(head, field.as_bytes())?;
    let value = std::str::from_utf8(value).ok()?;
    let last = match value.rsplit_once(',') {
        Some((_before, last)) => last,
        None => value,
    };
    IpAddr::parse_ascii(last.trim().as_bytes()).ok()
}

fn number_of(address: IpAddr) -> Option<u64> {
    if address.is_loopback() {
        return None;
    }
    match address {
        IpAddr::V4(address) => Some(u64::from(u32::from(address))),
        IpAddr::V6(address) => match address.to_ipv4_mapped() {
            Some(address) => Some(u64::from(u32::from(address))),
            None => Some((u128::from(address) >> 64) as u64),
        },
    }
}
