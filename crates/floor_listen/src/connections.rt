//! The connections of all ports: those that run, each with a place in its conference, their
//! sockets, and the seat of each that ever joined.

ghost use Rattle.std.specs.Prelude.{◌≡◌, ◌≢◌, ◌<◌, ◌≤◌, ◌↔◌, ℕ, [], All, IfErr, IfOk, IfSome, IsErrOf, IsPermutation, IsTrue, OnErr, false, is_some, length, true};
ghost use Rattle.std.specs.List.{FoldsTo};
ghost use Rattle.std.specs.Fn.{CalledAt};
ghost use Rattle.floor_listen.specs.Connections.{Began, ended, joining, open_place_of, place_of, released, socket_of, sockets_of, taken, taken_of_port};

use std::alloc::{AllocError, Global};
use std::marker::Model;

/// How many connections a conference has at once at most: 64 may be members, and as many may still
/// be sent what waited when their members left. Without a bound the peers of one conference could
/// take every thread and descriptor.
pub const MAX_CONNECTIONS: usize = 128;

/// Why a connection isn't served.
#[derive(Clone, Copy, Debug, PartialEq, Eq)]
pub enum Unserved {
    /// Its conference has as many connections as it may have.
    Full,
    /// Memory was refused, or a thread can't be made.
    Memory,
}

impl From<AllocError> for Unserved {
    ghost use Rattle.std.specs.Prelude.{◌≡◌};
    ghost use Rattle.floor_listen.specs.declared.connections.Unserved.TheVariants.{Memory};

    ghost from_gives = { λ _ e. e ≡ Memory };

    fn from(_e: AllocError) -> Unserved {
        Unserved::Memory
    }
}

/// A connection that was begun: it joins its conference, or it is refused. A thread can be handed
/// nothing that can't be dropped, so this can; what comes after it can't.
#[derive(Drop)]
pub struct Begun {
    number: u64,
}

impl Begun {
    /// What its own thread does first: it goes on to join, but where no thread could be had for it
    /// it never joins.
    pub fn may_join(self, has_thread: bool) -> Result<Begun, Gone>
        ensures value { result ≡ joining has_thread self }
        ensures has_joined { IfErr result (λ gone. gone.has_joined ≡ false) }
    {
        if has_thread {
            Ok(self)
        } else {
            Err(self.refused())
        }
    }

    /// It has joined its conference.
    pub fn joined(self) -> Member
        ensures number { result.number ≡ self.number }
    {
        let Begun { number } = self;
        Member { number }
    }

    /// It can't join its conference.
    pub fn refused(self) -> Gone
        ensures number { result.number ≡ self.number }
        ensures has_joined { result.has_joined ≡ false }
    {
        let Begun { number } = self;
        Gone {
            number,
            has_joined: false,
        }
    }
}

/// A connection that has joined its conference. It can't be dropped: it leaves, however its threads
/// fare.
pub struct Member {
    number: u64,
}

impl Member {
    /// It has left its conference.
    pub fn left(self) -> Gone
        ensures number { result.number ≡ self.number }
        ensures has_joined { result.has_joined ≡ true }
    {
        let Member { number } = self;
        Gone {
            number,
            has_joined: true,
        }
    }
}

/// A connection that isn't in its conference any more, or never was. It can't be dropped: its socket
/// is given up.
pub struct Gone {
    number: u64,
    has_joined: bool,
}

/// A connection whose socket was given up. It can't be dropped: it ends, and if it had joined, with
/// its seat.
pub struct Released {
    number: u64,
    has_joined: bool,
}

/// A connection that runs.
#[derive(Drop)]
pub struct Running {
    /// Its number, which no other connection has or had.
    pub number: u64,
    /// The conference of its port.
    pub conference: u32,
    /// Its port.
    pub port: u16,
}

/// The socket of a connection that runs.
#[derive(Drop)]
pub struct Open<S> {
    /// The connection's number.
    pub number: u64,
    /// Its port.
    pub port: u16,
    /// What it is sent over, and received by.
    pub socket: S,
}

/// The connections of all ports that run, and the seats of those that ended.
///
/// A connection goes through `begin`, then `Begun::joined` and `Member::left` or `Begun::refused`,
/// then `release`, then `end`, each once: none of what these give can be copied, and from the second
/// on nothing can be dropped. It has a place in its conference from `begin` to `end`. Room for its
/// seat is taken when it begins, so that `end` takes no memory and can't fail.
#[derive(Drop)]
pub struct Connections<S, T> {
    running: Vec<Running>,
    sockets: Vec<Open<S>>,
    seats: Vec<T>,
    begun: u64,
}

impl<S, T> Model for Connections<S, T> {
    ghost use Rattle.std.specs.Prelude.{◌+◌, ◌≤◌, vec_capacity, vec_len};
    ghost use Rattle.floor_listen.specs.Connections.{Connections, IsBounded, IsNumbered};

    ghost Value = { Connections S T };

    ghost view = { λ c. record {
      running = c.running.items;
      sockets = c.sockets.items;
      seats = c.seats.items;
      begun = c.begun;
    } };

    ghost invariant = { λ c. IsNumbered c.running.items c.begun
        × IsBounded c.running.items
        × (vec_len c.seats + vec_len c.running ≤ vec_capacity c.seats) };
}

impl<S: Drop, T: Drop> Connections<S, T> {
    /// No connection yet. Takes no memory.
    pub fn new(alloc: Global) -> Connections<S, T>
        ensures value { result ≡ record { running = []; sockets = []; seats = []; begun = 0 } }
    {
        Connections {
            running: Vec::new(alloc),
            sockets: Vec::new(alloc),
            seats: Vec::new(alloc),
            begun: 0,
        }
    }

    /// Takes up a connection to a port of a conference, with a place in the conference and room for
    /// its seat. Refused by `Full` or `Memory`, in this order; then the socket is closed.
    pub fn begin(&mut self, conference: u32, port: u16, socket: S) -> Result<Begun, Unserved>
        ensures took { IfOk result (Began self.old self.new conference port socket) }

        ensures full { IsErrOf result Unserved.Full
            ↔ (MAX_CONNECTIONS ≤ taken conference self.old.running) }
        ensures left { OnErr result (self.new ≡ self.old) }

        ensures kept { (any : ℕ) → taken any self.new.running ≤ MAX_CONNECTIONS }
    {
        if count_of(self.running.as_slice(), conference) >= MAX_CONNECTIONS {
            return Err(Unserved::Full);
        }
        let number = self.begun;
        let Some(after) = number.checked_add(1) else {
            return Err(Unserved::Memory);
        };
        let Some(wanted) = self.running.len().checked_add(1) else {
            return Err(Unserved::Memory);
        };
        self.seats.reserve(wanted)?;
        self.running.reserve(1)?;
        self.sockets.reserve(1)?;
        self.running.push_reserved(Running {
            number,
            conference,
            port,
        });
        self.sockets.push_reserved(Open {
            number,
            port,
            socket,
        });
        self.begun = after;
        Ok(Begun { number })
    }

    /// Gives a connection's socket up, and hands it out, so that it can be closed without the lock
    /// under which the connections stand.
    pub fn release(&mut self, gone: Gone) -> (Released, Option<S>)
        ensures value { result.1 ≡ socket_of gone.number self.old.sockets }
        ensures number { result.0.number ≡ gone.number }
        ensures has_joined { result.0.has_joined ≡ gone.has_joined }
        ensures next { self.new ≡ released gone.number self.old }
    {
        let Gone { number, has_joined } = gone;
        let socket = match open_place(self.sockets.as_slice(), number) {
            Some(place) => {
                let Open {
                    number: _,
                    port: _,
                    socket,
                } = self.sockets.remove(place);
                Some(socket)
            }
            None => None,
        };
        (Released { number, has_joined }, socket)
    }

    /// Ends a connection: it runs no more, its place is free, and its seat, if it had joined, is kept
    /// behind those of the connections that ended before. Nothing else stays of it.
    pub fn end(&mut self, released: Released, seat: Option<T>)
        requires seat { is_some seat ≡ released.has_joined }
        ensures next { self.new ≡ ended released.number seat self.old }
    {
        let Released {
            number,
            has_joined: _,
        } = released;
        if let Some(place) = running_place(self.running.as_slice(), number) {
            self.running.remove(place);
            if let Some(seat) = seat {
                self.seats.push_reserved(seat);
            }
        }
    }

    /// Whether none of the connections to a port runs.
    pub fn is_idle(&self, port: u16) -> bool
        ensures value { IsTrue result ↔ (taken_of_port port self.now.running ≡ 0) }
    {
        self.running
            .iter()
            .filter(|connection| connection.port == port)
            .count()
            == 0
    }

    /// Calls the function with the socket of each connection to a port, in the order in which the
    /// connections began.
    pub fn each_socket<F: FnMut(&S)>(&self, port: u16, mut visit: F)
        requires { F.IsAlwaysCallable visit }
        ensures each { (last : F) × FoldsTo (λ p x q. CalledAt F.FnMut p x tt q) visit
            (sockets_of port self.now.sockets) last }
    {
        let mut rest = self.sockets.as_slice();
        while let Some((open, behind)) = rest.split_first() {
            if open.port == port {
                visit(&open.socket);
            }
            rest = behind;
        }
    }

    /// The seats of the connections that ended.
    pub fn seats(&self) -> &[T]
        ensures value { result.now ≡ self.now.seats }
    {
        self.seats.as_slice()
    }

    /// Puts the seats in the order of their keys. Takes no memory.
    pub fn sort_seats<K: Ord + Drop, F: FnMut(&T) -> K>(&mut self, key: F)
        requires { F.IsAlwaysCallable key }
        ensures permutation { IsPermutation self.old.seats self.new.seats }
        ensures running { self.new.running ≡ self.old.running }
        ensures sockets { self.new.sockets ≡ self.old.sockets }
        ensures begun { self.new.begun ≡ self.old.begun }
    {
        self.seats.sort_unstable_by_key(key);
    }
}

/// How many places of a conference are taken.
fn count_of(running: &[Running], conference: u32) -> usize
    ensures { result ≡ taken conference running.now }
{
    running
        .iter()
        .filter(|connection| connection.conference == conference)
        .count()
}

/// Where the connection with this number stands among those that run.
fn running_place(running: &[Running], number: u64) -> Option<usize>
    ensures value { result ≡ place_of number running.now }
    ensures within { IfSome result (λ place. place < length running.now) }
{
    running
        .iter()
        .position(|connection| connection.number == number)
}

/// Where the socket of the connection with this number stands.
fn open_place<S>(sockets: &[Open<S>], number: u64) -> Option<usize>
    ensures value { result ≡ open_place_of number sockets.now }
    ensures within { IfSome result (λ place. place < length sockets.now) }
{
    sockets.iter().position(|open| open.number == number)
}
