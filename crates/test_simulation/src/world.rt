//! What is outside a server: who connects, who waits to be accepted, and what the poll has to tell.

use crate::fault::Fault;
use crate::happening::Does;
use crate::peer::Peer;
use floor_turn::Place;
use std::alloc::Global;
use std::collections::VecDeque;

/// How many peers there are at most.
const MAX_PEERS: usize = 4_096;

/// Where is listened.
#[derive(Drop)]
pub struct Listener {
    pub place: Place,
    /// Who waits to be accepted, and whether the poll has to tell so.
    pub queue: VecDeque<usize>,
    pub tells: bool,
    /// Whether the last accept failed, and when it is to be tried again.
    pub is_failing: bool,
    pub again: Option<u64>,
}

/// What stands in a slot of the server's.
#[derive(Drop)]
pub enum Holder {
    Nobody,
    Listener(Listener),
    Peer(usize),
}

/// All of it.
#[derive(Drop)]
pub struct World {
    pub alloc: Global,
    peers: Vec<Peer>,
    slots: Vec<Holder>,
    /// How many slots have somebody, and had at once at most.
    count: usize,
    pub most: usize,
    /// How late it is, in microseconds.
    pub now: u64,
    /// Whether no descriptor is left, and whether no port can be had.
    pub is_starved: bool,
    pub is_denied: bool,
}

impl World {
    pub fn new(alloc: Global) -> World {
        World {
            alloc,
            peers: Vec::new(alloc),
            slots: Vec::new(alloc),
            count: 0,
            most: 0,
            now: 1_000_000,
            is_starved: false,
            is_denied: false,
        }
    }

    /// Whether no slot has anybody.
    pub fn is_empty(&self) -> bool {
        self.count == 0
    }

    pub fn slots(&self) -> &[Holder] {
        self.slots.as_slice()
    }

    /// Puts somebody in a slot that nobody has.
    pub fn put(&mut self, slot: usize, holder: Holder) -> Result<(), Fault> {
        while self.slots.len() <= slot {
            self.slots.push(Holder::Nobody)?;
        }
        match self.slots.get_mut(slot) {
            Some(place) if matches!(place, Holder::Nobody) => *place = holder,
            _ => return Err(Fault::of("a slot is given that is in use", slot)),
        }
        self.count = self.count.saturating_add(1);
        self.most = self.most.max(self.count);
        Ok(())
    }

    /// Nobody is in a slot any more.
    pub fn free(&mut self, slot: usize) {
        if let Some(place) = self.slots.get_mut(slot) {
            *place = Holder::Nobody;
            self.count = self.count.saturating_sub(1);
        }
    }

    pub fn listener_mut(&mut self, slot: usize) -> Result<&mut Listener, Fault> {
        match self.slots.get_mut(slot) {
            Some(Holder::Listener(listener)) => Ok(listener),
            _ => Err(Fault::of("nothing listens there", slot)),
        }
    }

    /// The number of the peer in a slot.
    pub fn peer_in(&self, slot: usize) -> Result<usize, Fault> {
        match self.slots.get(slot) {
            Some(Holder::Peer(number)) => Ok(*number),
            _ => Err(Fault::of("a deed is of a slot without a socket", slot)),
        }
    }

    pub fn peer(&self, number: usize) -> Result<&Peer, Fault> {
        match self.peers.get(number) {
            Some(peer) => Ok(peer),
            None => Err(Fault::of("nobody has the number", number)),
        }
    }

    pub fn peer_mut(&mut self, number: usize) -> Result<&mut Peer, Fault> {
        match self.peers.get_mut(number) {
            Some(peer) => Ok(peer),
            None => Err(Fault::of("nobody has the number", number)),
        }
    }

    /// Whether the poll has something to tell.
    pub fn has_words(&self) -> bool {
        self.slots.iter().any(|holder| match holder {
            Holder::Nobody => false,
            Holder::Listener(listener) => listener.tells,
            Holder::Peer(number) => match self.peers.get(*number) {
                Some(peer) => peer.tells_readable || peer.tells_writable,
                None => false,
            },
        })
    }

    /// A peer does something: it connects, where nobody has its number yet and somebody listens there.
    pub fn happen(&mut self, number: usize, does: Does) -> Result<(), Fault> {
        match does {
            Does::Connect(place) if number < MAX_PEERS => {
                while self.peers.len() <= number {
                    self.peers.push(Peer::new(self.alloc, place, false))?;
                }
                if !self.peer(number)?.is_there {
                    self.connect(number, place)?;
                }
            }
            _ => match self.peers.get_mut(number) {
                Some(peer) if peer.is_there => peer.happen(does)?,
                _ => {}
            },
        }
        Ok(())
    }

    fn connect(&mut self, number: usize, place: Place) -> Result<(), Fault> {
        for holder in self.slots.iter_mut() {
            if let Holder::Listener(listener) = holder {
                if listener.place == place {
                    listener.queue.push_back(number)?;
                    listener.tells = true;
                    if let Some(peer) = self.peers.get_mut(number) {
                        *peer = Peer::new(self.alloc, place, true);
                    }
                    return Ok(());
                }
            }
        }
        Ok(())
    }
}
