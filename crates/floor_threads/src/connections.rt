//! The connections of all ports, behind the lock that their threads share. What becomes of them is
//! floor_listen's; here are the locks alone.

ghost use Rattle.std.specs.Prelude.{◌≡◌, is_some};

use crate::socket::Socket;
use floor_listen::{Begun, Gone, Released, Unserved};
use floor_serve::{FinishFault, Registry, Report, Seat, finish};
use std::alloc::Global;
use std::sync::{Mutex, Wait};

/// The connections of all ports, which their threads share.
#[derive(Drop)]
pub struct Connections {
    table: Mutex<floor_listen::Connections<Socket, Seat>>,
}

impl Connections {
    /// No connection yet. Takes no memory.
    pub fn new(alloc: Global) -> Connections {
        Connections {
            table: Mutex::new(floor_listen::Connections::new(alloc)),
        }
    }

    /// Takes up a connection to a port of a conference.
    pub fn begin<R: Wait>(
        &self,
        rt: &R,
        conference: u32,
        port: u16,
        socket: Socket,
    ) -> Result<Begun, Unserved> {
        self.table.lock(rt).begin(conference, port, socket)
    }

    /// Gives a connection's socket up, and hands it out.
    pub fn release<R: Wait>(&self, rt: &R, gone: Gone) -> (Released, Option<Socket>)
        ensures { result.0.has_joined ≡ gone.has_joined }
    {
        self.table.lock(rt).release(gone)
    }

    /// Ends a connection, and keeps the seat of one that had joined.
    pub fn end<R: Wait>(&self, rt: &R, released: Released, seat: Option<Seat>)
        requires { is_some seat ≡ released.has_joined }
    {
        self.table.lock(rt).end(released, seat);
    }

    /// Shuts down the socket of each connection to the port, so that its threads end.
    pub fn shut_down<R: Wait>(&self, rt: &R, port: u16) {
        self.table
            .lock(rt)
            .each_socket(port, |socket: &Socket| socket.shut_down());
    }

    /// Whether none of the connections to the port runs.
    pub fn is_idle<R: Wait>(&self, rt: &R, port: u16) -> bool {
        self.table.lock(rt).is_idle(port)
    }

    /// Compares the seats of all connections that ever were with the journals of all conferences.
    /// Takes no memory.
    pub fn finish<R: Wait>(&self, rt: &R, registry: &Registry) -> Result<Report, FinishFault> {
        let mut table = self.table.lock(rt);
        // They stand in the order in which the connections ended; in this one they are compared in
        // one walk.
        table.sort_seats(|seat| (seat.conference(), seat.n()));
        finish(rt, registry, table.seats())
    }
}
