//! Whose connections a conference has, and its ports.

ghost use Rattle.std.specs.Prelude.{◌≡◌, ◌++◌, ◌∷◌, ◌<◌, ◌≤◌, ◌↔◌, ◌⊎◌, [], ℕ, Err, false, filter, length, nat_eq, None, OnErr, OnOk, position, remove, Some};
ghost use Rattle.std.specs.List.{list_any};
ghost use Rattle.floor_poll.specs.Told.{broken_of, broken_off, kept_of, unkept};
ghost use Rattle.floor_server.specs.declared.departure.Refused.{Refused as Cause};
ghost use Rattle.floor_server.specs.declared.departure.Refused.TheVariants.{Connections, Memory, UserConnections};

use floor_listen::MAX_CONNECTIONS;
use floor_server::Refused;
use std::alloc::{AllocError, Global};
use std::mem;

/// After how many bytes each that its members have sent the log says how large a conference is.
const LARGE_BYTES: u64 = 100_000_000;

const LARGE_MEGABYTES: u64 = 100;

/// The connections of a conference, each by its user, and its ports.
#[derive(Drop)]
pub struct Places {
    users: Vec<u16>,
    /// How many of them may be one user's.
    most: u16,
    ports: Vec<u64>,
    /// Whether the conference has events that its file may lack.
    pub is_changed: bool,
    /// Whether it is kept no more, where the server keeps its conferences.
    pub is_unkept: bool,
    /// How many of its events its file has.
    pub kept: u32,
    /// Whether it is broken off since its file has failed: what its journal has besides is told to nobody.
    pub is_broken: bool,
    /// How many bytes its members have sent.
    received: u64,
}

impl Places {
    /// No connection and no port. One user may have so many connections. Takes no memory.
    pub fn new(alloc: Global, most: u16) -> Places
        ensures users { result.users.items ≡ [] }
        ensures most { result.most ≡ most }
        ensures ports { result.ports.items ≡ [] }
        ensures kept { result.kept ≡ 0 }
        ensures goes_on { result.is_broken ≡ false }
    {
        Places {
            users: Vec::new(alloc),
            most,
            ports: Vec::new(alloc),
            is_changed: false,
            is_unkept: false,
            kept: 0,
            is_broken: false,
            received: 0,
        }
    }

    /// Takes it that its members have sent so many bytes more. Gives how many megabytes they have sent, in hundreds,
    /// where that is a hundred more than before.
    pub fn receive(&mut self, bytes: u64) -> Option<u64>
        ensures users { self.new.users ≡ self.old.users }
        ensures most { self.new.most ≡ self.old.most }
        ensures ports { self.new.ports ≡ self.old.ports }
        ensures broken { broken_of self.new ≡ broken_of self.old }
    {
        let before = self.received / LARGE_BYTES;
        self.received = self.received.saturating_add(bytes);
        let after = self.received / LARGE_BYTES;
        if before < after {
            Some(after.saturating_mul(LARGE_MEGABYTES))
        } else {
            None
        }
    }

    /// Takes a place for a connection of a user. Refused by `UserConnections` where the user has as many as
    /// one may have, then by `Connections` where 128 places are taken, then by `Memory`; then nothing has
    /// changed.
    pub fn take(&mut self, user: u16) -> Result<(), Refused>
        ensures took { OnOk result ((length (filter (nat_eq user) self.old.users.items) < self.old.most)
            × (length self.old.users.items < MAX_CONNECTIONS)
            × (self.new.users.items ≡ self.old.users.items ++ user ∷ [])) }

        ensures user_connections { result ≡ Err UserConnections
            ↔ self.old.most ≤ length (filter (nat_eq user) self.old.users.items) }
        ensures connections { result ≡ Err Connections
            → MAX_CONNECTIONS ≤ length self.old.users.items }
        ensures others { (cause : Cause) → result ≡ Err cause
            → (cause ≡ UserConnections) ⊎ ((cause ≡ Connections) ⊎ (cause ≡ Memory)) }

        ensures left { OnErr result (self.new.users.items ≡ self.old.users.items) }
        ensures most { self.new.most ≡ self.old.most }
        ensures ports { self.new.ports ≡ self.old.ports }
        ensures broken { broken_of self.new ≡ broken_of self.old }
    {
        if usize::from(self.most) <= count_of(self.users.as_slice(), user) {
            return Err(Refused::UserConnections);
        }
        if MAX_CONNECTIONS <= self.users.len() {
            return Err(Refused::Connections);
        }
        match self.users.push(user) {
            Ok(()) => Ok(()),
            Err(_) => Err(Refused::Memory),
        }
    }

    /// Gives the place of a connection of a user back, where it has one.
    pub fn give_back(&mut self, user: u16)
        ensures found { (place : ℕ) → position (nat_eq user) self.old.users.items ≡ Some place
            → self.new.users.items ≡ remove self.old.users.items place }
        ensures none { position (nat_eq user) self.old.users.items ≡ None
            → self.new.users.items ≡ self.old.users.items }
        ensures most { self.new.most ≡ self.old.most }
        ensures ports { self.new.ports ≡ self.old.ports }
        ensures broken { broken_of self.new ≡ broken_of self.old }
    {
        if let Some(place) = place_of(self.users.as_slice(), user) {
            let _user = self.users.remove(place);
        }
    }

    /// Whether a connection of a user has a place.
    pub fn has(&self, user: u16) -> bool
        ensures value { result ≡ list_any (nat_eq user) self.now.users.items }
    {
        self.users.iter().any(|other| user == *other)
    }

    /// Takes it that the file has so many events. What a file has that failed stays what it was.
    pub fn note_kept(&mut self, events: u32)
        ensures next { self.new ≡ kept_of events self.old }
    {
        if !self.is_broken {
            self.kept = events;
        }
    }

    /// Takes it that the file has failed, where that breaks the conference off.
    pub fn break_off(&mut self)
        ensures next { self.new ≡ broken_off self.old }
    {
        self.is_broken = true;
    }

    /// Takes it that the file has failed, where the conference goes on without one.
    pub fn unkeep(&mut self)
        ensures next { self.new ≡ unkept self.old }
    {
        self.is_unkept = true;
    }

    /// Takes room for a port more.
    pub fn reserve(&mut self) -> Result<(), AllocError>
        ensures users { self.new.users ≡ self.old.users }
        ensures most { self.new.most ≡ self.old.most }
        ensures ports { self.new.ports.items ≡ self.old.ports.items }
        ensures broken { broken_of self.new ≡ broken_of self.old }
    {
        self.ports.reserve(1)
    }

    /// Adds a port. With room for it no memory is taken; after an error nothing has changed.
    pub fn add(&mut self, port: u64) -> Result<(), AllocError>
        ensures users { self.new.users ≡ self.old.users }
        ensures most { self.new.most ≡ self.old.most }
        ensures took { OnOk result (self.new.ports.items ≡ self.old.ports.items ++ port ∷ []) }
        ensures left { OnErr result (self.new.ports.items ≡ self.old.ports.items) }
        ensures broken { broken_of self.new ≡ broken_of self.old }
    {
        match self.ports.push(port) {
            Ok(()) => Ok(()),
            Err(_) => Err(AllocError),
        }
    }

    /// Its ports.
    pub fn ports(&self) -> &[u64]
        ensures value { result.now ≡ self.now.ports.items }
    {
        self.ports.as_slice()
    }

    /// Gives its ports out.
    pub fn take_ports(&mut self, alloc: Global) -> Vec<u64>
        ensures users { self.new.users ≡ self.old.users }
        ensures most { self.new.most ≡ self.old.most }
        ensures given { result.items ≡ self.old.ports.items }
        ensures left { self.new.ports.items ≡ [] }
        ensures broken { broken_of self.new ≡ broken_of self.old }
    {
        mem::replace(&mut self.ports, Vec::new(alloc))
    }
}

/// How many of these are this user.
fn count_of(users: &[u16], user: u16) -> usize
    ensures value { result ≡ length (filter (nat_eq user) users.now) }
{
    users.iter().filter(|other| user == **other).count()
}

/// The first place at which this user stands.
fn place_of(users: &[u16], user: u16) -> Option<usize>
    ensures value { result ≡ position (nat_eq user) users.now }
{
    users.iter().position(|other| user == *other)
}
