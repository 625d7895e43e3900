//! What a port is bound to: one user of one conference.

ghost use Rattle.std.specs.Prelude.{◌≡◌, is_some};

use crate::connections::Connections;
use crate::socket::Socket;
use floor_listen::{Begun, Gone, Unserved};
use floor_serve::{Desk, DeskRefusal, Gate, Registry, Seat};
use floor_server::{Entry, Log, UserPort};
use std::alloc::Global;
use std::sync::atomic::{AtomicBool, Ordering};
use std::sync::{Arc, Wait};
use std::thread::Parker;
use std::time::Clock;

/// What all ports of a server share.
#[derive(Drop)]
pub struct Shared<G> {
    pub registry: Registry,
    pub connections: Connections,
    pub gate: G,
    /// The log, where one is asked for.
    pub log: Option<Log>,
}

impl<G> Shared<G> {
    /// What the ports of a server share that opened nothing yet.
    pub fn new(alloc: Global, gate: G, log: Option<Log>) -> Shared<G> {
        Shared {
            registry: Registry::new(alloc),
            connections: Connections::new(alloc),
            gate,
            log,
        }
    }

    /// Tells the log, where there is one.
    pub fn tell<R: Wait + Clock>(&self, rt: &R, entry: &Entry) {
        match &self.log {
            Some(log) => log.tell(rt, entry),
            None => {}
        }
    }
}

/// The user of a conference that a port leads to. The port's thread, the threads of its connections
/// and whoever closes it share it.
#[derive(Drop)]
pub struct Binding<G> {
    shared: Arc<Shared<G>, Global>,
    conference: u32,
    user: u16,
    port: u16,
    is_ending: AtomicBool,
    one_ended: Parker,
}

impl<G> Binding<G> {
    /// A binding to which nobody has connected.
    pub fn new(
        shared: Arc<Shared<G>, Global>,
        conference: u32,
        user: u16,
        port: u16,
    ) -> Binding<G> {
        Binding {
            shared,
            conference,
            user,
            port,
            is_ending: AtomicBool::new(false),
            one_ended: Parker::new(),
        }
    }

    /// Who connects to the port.
    pub fn user(&self) -> u16 {
        self.user
    }

    /// What each message passes.
    pub fn gate(&self) -> &G {
        &self.shared.gate
    }

    /// The desk of the conference, where it is open and memory can be had.
    pub fn desk<R: Wait>(&self, rt: &R) -> Result<Desk, DeskRefusal> {
        self.shared.registry.desk(rt, self.conference)
    }

    /// The port, and whom it leads to.
    pub fn place(&self) -> UserPort {
        UserPort {
            conference: self.conference,
            user: self.user,
            port: self.port,
        }
    }

    /// The log, where one is asked for.
    pub fn log(&self) -> Option<&Log> {
        self.shared.log.as_ref()
    }

    /// Tells the log, where there is one.
    pub fn tell<R: Wait + Clock>(&self, rt: &R, entry: &Entry) {
        self.shared.tell(rt, entry);
    }

    /// Lets no further connection begin.
    pub fn set_ending(&self) {
        self.is_ending.store(true, Ordering::SeqCst);
    }

    /// Whether no further connection is to begin.
    pub fn is_ending(&self) -> bool {
        self.is_ending.load(Ordering::SeqCst)
    }

    /// Takes up a connection, with a place in its conference and room for its seat.
    pub fn begin<R: Wait>(&self, rt: &R, socket: Socket) -> Result<Begun, Unserved> {
        self.shared
            .connections
            .begin(rt, self.conference, self.port, socket)
    }

    /// Closes the socket of a connection that is gone, and then ends it, with the seat of one that
    /// had joined. It is the last that a connection's thread does.
    pub fn end<R: Wait>(&self, rt: &R, gone: Gone, seat: Option<Seat>)
        requires { is_some seat ≡ gone.has_joined }
    {
        let (released, socket) = self.shared.connections.release(rt, gone);
        // Without the lock.
        drop(socket);
        self.shared.connections.end(rt, released, seat);
        self.one_ended.unpark();
    }

    /// Shuts down the socket of each of its connections, so that their threads end.
    pub fn shut_down<R: Wait>(&self, rt: &R) {
        self.shared.connections.shut_down(rt, self.port);
    }

    /// Waits until none of its connections runs.
    pub fn wait<R: Wait>(&self, rt: &R) {
        for _ in rt.forever() {
            if self.shared.connections.is_idle(rt, self.port) {
                return;
            }
            self.one_ended.park(rt);
        }
    }
}
