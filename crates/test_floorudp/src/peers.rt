//! Peers, as a case plays them: each has a socket for datagrams.

use std::alloc::Global;
use std::net::{Net, UdpSocket};
use std::time::Duration;
use test_cases::Fault;

/// How long a datagram is at most.
const MAX_LEN: usize = 65_536;

/// A peer's socket.
#[derive(Drop)]
pub struct Peer {
    name: String,
    socket: UdpSocket,
}

/// The peers of a case, by their names.
#[derive(Drop)]
pub struct Peers {
    peers: Vec<Peer>,
    buffer: Vec<u8>,
}

impl Peers {
    /// No peers.
    pub fn new(alloc: Global) -> Result<Peers, Fault> {
        Ok(Peers {
            peers: Vec::new(alloc),
            buffer: Vec::from_elem(alloc, 0u8, MAX_LEN)?,
        })
    }

    /// Adds one at an address of this machine, and at any port where that is 0.
    pub fn add<R: Net>(
        &mut self,
        rt: &R,
        alloc: Global,
        name: &str,
        address: &str,
    ) -> Result<(), Fault> {
        let socket = UdpSocket::bind(rt, address)?;
        let name = String::from_str(alloc, name)?;
        self.peers.push(Peer { name, socket })?;
        Ok(())
    }

    fn socket(&self, name: &str) -> Option<&UdpSocket> {
        match self.peers.iter().find(|peer| peer.name.as_str() == name) {
            Some(peer) => Some(&peer.socket),
            None => None,
        }
    }

    /// Whether a peer has this name.
    pub fn has(&self, name: &str) -> bool {
        self.socket(name).is_some()
    }

    /// Sends a datagram to a port of this machine.
    pub fn send(&self, name: &str, bytes: &[u8], port: u16) -> Result<(), Fault> {
        match self.socket(name) {
            Some(socket) => {
                let _sent = socket.send_to(bytes, ("127.0.0.1", port))?;
                Ok(())
            }
            None => Err(Fault::Layout("no such peer")),
        }
    }

    /// The next datagram that comes within so many milliseconds; `None` where none does.
    pub fn hear(&mut self, name: &str, millis: u64) -> Result<Option<&[u8]>, Fault> {
        let Some(peer) = self.peers.iter().find(|peer| peer.name.as_str() == name) else {
            return Err(Fault::Layout("no such peer"));
        };
        let wait = Duration::from_millis(millis.max(1));
        peer.socket.set_read_timeout(Some(wait))?;
        match peer.socket.recv_from(&mut self.buffer) {
            Ok((len, _)) => Ok(Some(self.buffer.as_slice().get(..len).unwrap_or(&[]))),
            Err(_) => Ok(None),
        }
    }

    /// A text in which each peer's port is the peer's name.
    pub fn named(&self, alloc: Global, text: &str) -> Result<String, Fault> {
        let mut text = String::from_str(alloc, text)?;
        for peer in self.peers.iter() {
            let port = peer.socket.local_addr()?.port();
            let port = format!(in alloc; ":{port}")?;
            let name = format!(in alloc; ":{}", peer.name.as_str())?;
            text = text.as_str().replace(alloc, port.as_str(), name.as_str())?;
        }
        Ok(text)
    }
}
