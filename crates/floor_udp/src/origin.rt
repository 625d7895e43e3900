//! From where a user may come: an IP address, or one and a port.

ghost use Rattle.std.specs.Prelude.{◌≡◌, IfSome, None};
ghost use Rattle.std.specs.Net.Socket.{socket_ip, socket_port};
ghost use Rattle.floor_udp.specs.Origin as spec;
ghost use Rattle.floor_udp.specs.declared.origin.Origin.{Origin as From};

use floor_sessions::{Source, User};
use std::net::{IpAddr, SocketAddr};

/// From where a user may come.
#[derive(Clone, Copy, Debug, PartialEq, Eq)]
pub struct Origin {
    /// The IP address, as a `Source` has it.
    pub address: u128,
    /// The port, where only that one is the user's.
    pub port: Option<u16>,
}

/// Where nobody comes from: no datagram has the unspecified address and port 0.
pub const NOWHERE: Origin = Origin {
    address: 0,
    port: Some(0),
};

impl Origin {
    /// That of a user.
    pub fn of(user: &User) -> Origin {
        Origin {
            address: user.address,
            port: user.port,
        }
    }

    /// The user, coming from there.
    pub fn user(self, conference: u32, user: u16) -> User {
        User {
            conference,
            user,
            address: self.address,
            port: self.port,
        }
    }
}

/// How many addresses stand before those of IPv4 that are written as IPv6: those before `::ffff:0:0`.
const MAPPED: u128 = 0xffff_0000_0000;

/// What a text says: `192.0.2.7`, `192.0.2.7:50000`, `2001:db8::7` or `[2001:db8::7]:50000`; `None` where it is
/// none of these.
pub fn read_origin(text: &str) -> Option<Origin>
    ensures found { IfSome result (spec.IsOriginText text.now) }
    ensures none { result ≡ None → (from : From) → ¬ (spec.IsOriginText text.now from) }
{
    match IpAddr::parse_ascii(text.as_bytes()) {
        Ok(ip) => Some(Origin {
            address: number_of(ip),
            port: None,
        }),
        Err(_) => match SocketAddr::parse_ascii(text.as_bytes()) {
            Ok(socket) => Some(Origin {
                address: number_of(socket.ip()),
                port: Some(socket.port()),
            }),
            Err(_) => None,
        },
    }
}

/// From where a datagram came.
pub fn source_of(peer: SocketAddr) -> Source
    ensures value { result
        ≡ record { address = spec.number_of (socket_ip peer); port = socket_port peer } }
{
    Source {
        address: number_of(peer.ip()),
        port: peer.port(),
    }
}

/// The number of an address: that of one of IPv4 is its number behind `::ffff:0:0`, as a socket of both families
/// has it.
fn number_of(ip: IpAddr) -> u128
    ensures value { result ≡ spec.number_of ip }
{
    match ip {
        IpAddr::V4(ip) => MAPPED + u128::from(ip.to_bits()),
        IpAddr::V6(ip) => ip.to_bits(),
    }
}
