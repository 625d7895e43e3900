//! One run: what happens is done to the service, and each of its deeds is done and looked at.

use crate::client::index_of;
use crate::fault::{Fault, demand};
use crate::happening::{Does, Happening, Way, port_of};
use crate::journals::{CONFERENCES, Journals};
use crate::peer::Peer;
use floor_config::read_configs;
use floor_service::{
    Bounds, Configured, Deed, Grace, MAX_READ, Now, Place, Server, Service, Text, titles_of,
};
use std::alloc::{AllocError, Global};

/// How many peers there are at most, how many deeds a turn has, and how often the poll has more to tell behind one.
const MAX_PEERS: usize = 64;

const MAX_DEEDS: u32 = 200_000;

const MAX_POLLS: u32 = 1_000;

const BOUNDS: Bounds = Bounds {
    of_user: 8,
    of_conference: 40,
};

const GRACE: Grace = Grace {
    lost: 3_000,
    resumed: 3_000,
};

/// 2026-11-29T16:00:00Z.
const BEGIN: u64 = 1_795_968_000_000;

/// Where is listened, by its slot.
#[derive(Clone, Copy, Debug)]
struct Listener {
    slot: usize,
    place: Place,
}

/// A service, and what is outside it.
#[derive(Drop)]
pub struct Run {
    alloc: Global,
    service: Service,
    peers: Vec<Peer>,
    listeners: Vec<Listener>,
    journals: Journals,
    micros: u64,
    is_serial: bool,
}

/// What a run came to, for a comparison with another.
#[derive(Drop)]
pub struct Outcome {
    pub members: Vec<Vec<u8>>,
    pub answers: Vec<Vec<u8>>,
    pub shown: Vec<u8>,
    pub answered: u64,
    pub told: u64,
}

impl Run {
    /// A service of both sockets, without a conference.
    pub fn new(alloc: Global) -> Result<Run, Fault> {
        let server = Server::with_grace(alloc, BOUNDS, GRACE);
        let version = Text::from_string(String::from_str(alloc, "0.1.0")?);
        let now = now_of(1_000_000);
        let mut service = Service::new(alloc, server, [7; 32], version, now)?;
        service.clients(Place::Control)?;
        service.clients(Place::Observe)?;
        Ok(Run {
            alloc,
            service,
            peers: Vec::new(alloc),
            listeners: Vec::new(alloc),
            journals: Journals::new(alloc),
            micros: 1_000_000,
            is_serial: false,
        })
    }

    /// Something happens.
    pub fn happen(&mut self, happening: Happening) -> Result<(), Fault> {
        match happening {
            Happening::Pass(micros) => {
                self.micros = self.micros.saturating_add(micros);
                if self.is_serial {
                    self.service.time(now_of(self.micros));
                    self.do_deeds()?;
                }
            }
            Happening::Serially => self.is_serial = true,
            Happening::Turn => self.turn()?,
            Happening::Of {
                peer,
                does: Does::Connect(way),
            } => self.connect(peer, way)?,
            Happening::Of { peer, does } => self.happen_to(peer, does)?,
        }
        Ok(())
    }

    /// A peer does something. Serially what it sends is served at once, a line at a time.
    fn happen_to(&mut self, number: usize, does: Does) -> Result<(), Fault> {
        let counts = self.counts();
        let is_serial = self.is_serial;
        match self.peers.get_mut(number) {
            Some(peer) if peer.is_there && !peer.is_shut => {
                peer.happen(does, counts, is_serial)?;
            }
            _ => return Ok(()),
        }
        if is_serial && matches!(does, Does::Send(_)) {
            self.tell(number);
            self.do_deeds()?;
        }
        Ok(())
    }

    /// How many events each conference has had.
    fn counts(&self) -> [u64; CONFERENCES as usize] {
        let mut counts = [0; CONFERENCES as usize];
        for conference in 1..=CONFERENCES {
            if let Some(index) = index_of(conference) {
                counts[index] = self.journals.count(conference);
            }
        }
        counts
    }

    /// Somebody connects, where somebody listens there and nobody has the number yet.
    fn connect(&mut self, number: usize, way: Way) -> Result<(), Fault> {
        if MAX_PEERS <= number {
            return Ok(());
        }
        for place in self.peers.len()..number.saturating_add(1) {
            self.peers.push(Peer::new(self.alloc, place, way, false))?;
        }
        let is_free = match self.peers.get(number) {
            Some(peer) => !peer.is_there,
            None => false,
        };
        let found = self
            .listeners
            .iter()
            .copied()
            .find(|listener| is_at(listener.place, way));
        if let Some(listener) = found {
            if is_free {
                if let Some(peer) = self.peers.get_mut(number) {
                    *peer = Peer::new(self.alloc, number, way, true);
                }
                self.service.knocked(listener.slot);
            }
        }
        if self.is_serial {
            self.do_deeds()?;
        }
        Ok(())
    }

    /// The poll tells what it has to tell, and all is done that is to be done.
    fn turn(&mut self) -> Result<(), Fault> {
        let now = now_of(self.micros);
        self.service.time(now);
        for _ in 0..MAX_POLLS {
            self.do_deeds()?;
            if !self.has_words() {
                return self.rest();
            }
            for number in 0..self.peers.len() {
                self.tell(number);
                if self.is_serial {
                    self.do_deeds()?;
                }
            }
        }
        Err(Fault::of("a turn has no end", 0))
    }

    /// The poll tells what it has to tell of a peer.
    fn tell(&mut self, number: usize) {
        let Some(peer) = self.peers.get_mut(number) else {
            return;
        };
        let Some(slot) = peer.slot else {
            return;
        };
        if peer.tells_readable && !peer.is_shut {
            self.service.readable(slot, peer.tells_end);
        }
        if peer.tells_writable && !peer.is_shut {
            self.service.writable(slot);
        }
        peer.tells_readable = false;
        peer.tells_writable = false;
    }

    fn has_words(&self) -> bool {
        self.peers.iter().any(|peer| {
            peer.slot.is_some() && !peer.is_shut && (peer.tells_readable || peer.tells_writable)
        })
    }

    fn do_deeds(&mut self) -> Result<(), Fault> {
        for _ in 0..MAX_DEEDS {
            let deed = self.service.next();
            self.look()?;
            match deed {
                None => return Ok(()),
                Some(Deed::Of(deed)) => self.answer(deed)?,
                Some(Deed::Configure(number)) => self.configure(number)?,
                Some(Deed::Ports(number)) => {
                    let now = now_of(self.micros);
                    self.service.had(number, None, now);
                }
                Some(Deed::Figures) => self.service.figures(1_234),
                Some(Deed::Tell(_)) => {}
            }
            self.look()?;
        }
        Err(Fault::of("a turn has too many deeds", 0))
    }

    /// The journals have grown, it may be.
    fn look(&mut self) -> Result<(), Fault> {
        let now = now_of(self.micros);
        self.journals.look(self.service.hub(), now.unix_millis)
    }

    fn configure(&mut self, number: u64) -> Result<(), Fault> {
        let read = read_text(self.alloc, self.service.configuration(number))?;
        let now = now_of(self.micros);
        self.service.configured(number, read, now);
        Ok(())
    }

    /// Does a deed of the server, and answers it.
    fn answer(&mut self, deed: floor_turn::Deed) -> Result<(), Fault> {
        match deed {
            floor_turn::Deed::Listen { listener, place } => {
                self.listeners.push(Listener {
                    slot: listener,
                    place,
                })?;
                self.service.listened(listener, true);
            }
            floor_turn::Deed::Unlisten(listener) => {
                self.listeners.retain(|other| other.slot != listener);
                self.service.shut(listener);
            }
            floor_turn::Deed::Shut(slot) => self.shut(slot),
            floor_turn::Deed::Accept(listener) => self.accept(listener),
            floor_turn::Deed::Read(slot) => self.read(slot)?,
            floor_turn::Deed::Write(slot) => self.write(slot)?,
            floor_turn::Deed::End(_) => return Err(Fault::of("the server ends", 0)),
            floor_turn::Deed::Serve(_) | floor_turn::Deed::Log(_) | floor_turn::Deed::Turn => {}
        }
        Ok(())
    }

    /// The number of the peer in a slot.
    fn peer_in(&self, slot: usize) -> Result<usize, Fault> {
        let found = self
            .peers
            .iter()
            .position(|peer| peer.slot == Some(slot) && !peer.is_shut);
        match found {
            Some(number) => Ok(number),
            None => Err(Fault::of("a deed is of a slot without a socket", slot)),
        }
    }

    fn shut(&mut self, slot: usize) {
        if let Ok(number) = self.peer_in(slot) {
            if let Some(peer) = self.peers.get_mut(number) {
                peer.is_shut = true;
            }
        }
        self.service.shut(slot);
    }

    /// Accepts who waits there first.
    fn accept(&mut self, slot: usize) {
        let now = now_of(self.micros);
        let found = self
            .listeners
            .iter()
            .copied()
            .find(|listener| listener.slot == slot);
        let waits = match found {
            Some(listener) => self.peers.iter().position(|peer| {
                peer.is_there
                    && !peer.is_shut
                    && peer.slot.is_none()
                    && is_at(listener.place, peer.way)
            }),
            None => None,
        };
        let Some(number) = waits else {
            self.service.nobody(slot);
            return;
        };
        let accepted = self.service.accepted(slot, number as u16, now);
        if let Some(peer) = self.peers.get_mut(number) {
            match accepted {
                Ok(socket) => {
                    peer.slot = Some(socket);
                    peer.tells_writable = true;
                    peer.tells_readable = peer.unread() != 0 || peer.is_over();
                    peer.tells_end = peer.is_over();
                }
                Err(_) => peer.is_shut = true,
            }
        }
    }

    /// Reads once.
    fn read(&mut self, slot: usize) -> Result<(), Fault> {
        let number = self.peer_in(slot)?;
        let now = now_of(self.micros);
        let Some(peer) = self.peers.get_mut(number) else {
            return Ok(());
        };
        let count = peer.unread().min(MAX_READ);
        if count != 0 {
            self.service.came(slot, peer.take(count), now);
        } else if peer.has_reset {
            self.service.failed(slot, now);
        } else if peer.has_ended {
            self.service.ended(slot, now);
        } else {
            self.service.nothing(slot);
        }
        Ok(())
    }

    /// Writes once.
    fn write(&mut self, slot: usize) -> Result<(), Fault> {
        let number = self.peer_in(slot)?;
        let now = now_of(self.micros);
        let mut lent = Vec::new(self.alloc);
        lent.extend_from_slice(self.service.lent(slot))?;
        demand(!lent.is_empty(), "nothing is written", number)?;
        let Some(peer) = self.peers.get_mut(number) else {
            return Ok(());
        };
        match peer.write(lent.len()) {
            Some(count) => {
                peer.come(lent.get(..count).unwrap_or(&[]), &self.journals)?;
                self.service.took(slot, count, now);
            }
            None => self.service.unwritten(slot, now),
        }
        Ok(())
    }

    /// Nothing is to be done: each client that takes what comes has its answers, and what it watches was told to it.
    fn rest(&mut self) -> Result<(), Fault> {
        for (number, peer) in self.peers.iter_mut().enumerate() {
            if !peer.is_client() || !peer.is_there || peer.has_reset || !peer.takes_all() {
                continue;
            }
            if peer.is_shut && !peer.has_ended {
                demand(peer.has_stalled, "a client is closed", number)?;
                continue;
            }
            if peer.has_ended && peer.has_stalled {
                continue;
            }
            demand(peer.client.is_answered(), "a line isn't answered", number)?;
            demand(
                peer.is_shut == peer.has_ended,
                "a client isn't closed behind its end",
                number,
            )?;
            if !peer.is_shut {
                peer.client.rest(&self.journals)?;
            }
        }
        Ok(())
    }

    /// What it came to.
    pub fn outcome(self) -> Result<Outcome, AllocError> {
        let mut outcome = Outcome {
            members: Vec::new(self.alloc),
            answers: Vec::new(self.alloc),
            shown: self.journals.text()?,
            answered: 0,
            told: 0,
        };
        for peer in self.peers {
            outcome.answered = outcome.answered.saturating_add(peer.client.answered);
            outcome.told = outcome.told.saturating_add(peer.client.told);
            outcome.members.push(peer.came)?;
            outcome.answers.push(peer.client.answers)?;
        }
        Ok(outcome)
    }
}

/// So late.
fn now_of(micros: u64) -> Now {
    Now {
        micros,
        unix_millis: BEGIN.saturating_add(micros / 1_000),
    }
}

/// Whether somebody who connects so connects at a place.
fn is_at(place: Place, way: Way) -> bool {
    match (place, way) {
        (Place::Control, Way::Control) | (Place::Observe, Way::Observe) => true,
        (Place::Port { port, .. }, Way::Member { conference, user }) => {
            port == port_of(conference, user)
        }
        _ => false,
    }
}

/// What a text is as a configuration.
fn read_text(alloc: Global, text: &str) -> Result<Configured, AllocError> {
    let mut configs = match read_configs(alloc, text) {
        Ok(configs) => configs,
        Err(fault) => return Ok(Configured::Faulty { fault, line: 1 }),
    };
    let titles = match titles_of(alloc, text)? {
        Some(mut titles) => titles.pop(),
        None => None,
    };
    match (configs.pop(), titles) {
        (Some(config), Some(titles)) if configs.is_empty() => {
            Ok(Configured::One { config, titles })
        }
        _ => Ok(Configured::Unfit),
    }
}
