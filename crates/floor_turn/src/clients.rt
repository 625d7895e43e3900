//! Control clients: their sockets are the server's, and what comes and goes there is its caller's.

ghost use Rattle.std.specs.Prelude.{◌≡◌, ℕ, None, OnOk, Some, false, nat_eq, option_map, true};
ghost use Rattle.floor_sockets.specs.Life.{held, lent};
ghost use Rattle.floor_sockets.specs.Runs.{Came, NothingCame, Served, Took};
ghost use Rattle.floor_sockets.specs.Sockets.{life_at};
ghost use Rattle.floor_connections.specs.Asked.{is_ending, is_over, reads, writes};
ghost use Rattle.floor_connections.specs.Steps.{Steps, at_time};
ghost use Rattle.floor_connections.specs.Table.{IsWanted, client_of, members_in, socket_at};
ghost use Rattle.floor_connections.specs.declared.place.Place.{Place as At};
ghost use Rattle.floor_turn.specs.Clients.{IsForClient};

use crate::server::Server;
use floor_connections::{Place, is_reading, is_writing};
use std::alloc::AllocError;

// A call for a socket that isn't a client's changes nothing.
impl Server {
    /// Has the control clients' socket listened on, or that of those that read alone.
    pub fn clients(&mut self, place: Place) -> Result<(), AllocError>
        ensures wanted { OnOk result (IsWanted self.new.connections.table place 0) }
        ensures meetings { self.new.meetings ≡ self.old.meetings }
        ensures steps { Steps self.old.connections.sockets self.new.connections.sockets }
    {
        let _listener = self.connections.listen(place, 0)?;
        Ok(())
    }

    /// The place by which a control client came that is at a socket.
    pub fn client(&self, socket: usize) -> Option<Place>
        ensures value { result ≡ client_of (socket_at self.now.connections.table socket) }
    {
        self.connections.table.client(socket)
    }

    /// Whether a read was asked of a socket: then its answer is awaited.
    pub fn is_read(&self, socket: usize) -> bool
        ensures value { result ≡ reads (life_at self.now.connections.sockets socket) }
    {
        is_reading(&self.connections.sockets, socket)
    }

    /// Whether a write was asked of a socket.
    pub fn is_written(&self, socket: usize) -> bool
        ensures value { result ≡ writes (life_at self.now.connections.sockets socket) }
    {
        is_writing(&self.connections.sockets, socket)
    }

    /// The stream of a client has ended: nothing more is read of it.
    pub fn client_ended(&mut self, socket: usize, now: u64)
        ensures took { IsForClient (NothingCame socket) socket self.old.connections.table
            (at_time now self.old.connections.sockets) self.new.connections.sockets }
        ensures table { self.new.connections.table ≡ self.old.connections.table }
        ensures meetings { self.new.meetings ≡ self.old.meetings }
        ensures steps { Steps self.old.connections.sockets self.new.connections.sockets }
    {
        self.connections.pass(now);
        match self.connections.table.client(socket) {
            Some(_) => self.connections.sockets.nothing(socket),
            None => {}
        }
    }

    /// So many bytes came of a client, and its caller has them. A turn has left lines over, or hasn't.
    pub fn client_came(&mut self, socket: usize, count: usize, has_more: bool, now: u64)
        ensures took { IsForClient (Came socket count has_more) socket self.old.connections.table
            (at_time now self.old.connections.sockets) self.new.connections.sockets }
        ensures table { self.new.connections.table ≡ self.old.connections.table }
        ensures meetings { self.new.meetings ≡ self.old.meetings }
        ensures steps { Steps self.old.connections.sockets self.new.connections.sockets }
    {
        self.connections.pass(now);
        match self.connections.table.client(socket) {
            Some(_) => self.connections.sockets.came(socket, count, has_more),
            None => {}
        }
    }

    /// A turn of a client was served, as was asked, and has left lines over or hasn't.
    pub fn client_served(&mut self, socket: usize, has_more: bool)
        ensures took { IsForClient (Served socket has_more) socket self.old.connections.table
            self.old.connections.sockets self.new.connections.sockets }
        ensures table { self.new.connections.table ≡ self.old.connections.table }
        ensures meetings { self.new.meetings ≡ self.old.meetings }
        ensures steps { Steps self.old.connections.sockets self.new.connections.sockets }
    {
        match self.connections.table.client(socket) {
            Some(_) => self.connections.sockets.served(socket, has_more),
            None => {}
        }
    }

    /// The socket of a client took so many of the bytes that its caller lent.
    pub fn client_took(&mut self, socket: usize, count: usize, lent: usize, now: u64)
        ensures took { IsForClient (Took socket count lent) socket self.old.connections.table
            (at_time now self.old.connections.sockets) self.new.connections.sockets }
        ensures table { self.new.connections.table ≡ self.old.connections.table }
        ensures meetings { self.new.meetings ≡ self.old.meetings }
        ensures steps { Steps self.old.connections.sockets self.new.connections.sockets }
    {
        self.connections.pass(now);
        match self.connections.table.client(socket) {
            Some(_) => self.connections.sockets.took(socket, count, lent),
            None => {}
        }
    }

    /// Bytes are lent to a client by its caller, or none; it is neither read nor served, or is. One that ends has ten
    /// seconds to take what is lent, and is shut before where nothing is.
    pub fn lend_client(&mut self, socket: usize, has_bytes: bool, is_held: bool, ends: bool)
        ensures goes_on { (p : At) → client_of (socket_at self.old.connections.table socket) ≡ Some p
            → ends ≡ false → is_over (life_at self.old.connections.sockets socket) ≡ false
            → life_at self.new.connections.sockets socket
            ≡ option_map (λ l. held is_held (lent has_bytes l))
            (life_at self.old.connections.sockets socket) }
        ensures ends { (p : At) → client_of (socket_at self.old.connections.table socket) ≡ Some p
            → ends ≡ true → is_ending (life_at self.new.connections.sockets socket) ≡ true }
        ensures other { client_of (socket_at self.old.connections.table socket) ≡ None
            → self.new.connections ≡ self.old.connections }
        ensures others { (k : ℕ) → nat_eq socket k ≡ false
            → life_at self.new.connections.sockets k ≡ life_at self.old.connections.sockets k }
        ensures table { self.new.connections.table ≡ self.old.connections.table }
        ensures meetings { self.new.meetings ≡ self.old.meetings }
        ensures steps { Steps self.old.connections.sockets self.new.connections.sockets }
    {
        match self.connections.table.client(socket) {
            Some(_) => self
                .connections
                .lend_client(socket, has_bytes, is_held, ends),
            None => {}
        }
    }

    /// How many members have sockets.
    pub fn members_len(&self) -> usize
        ensures value { result ≡ members_in self.now.connections.table }
    {
        self.connections.table.members_len()
    }

    /// The conference of which something was asked since this was called last, where any was: its journal may have grown.
    /// Between two calls of `next`, or of any other, it is one at most.
    pub fn take_touched(&mut self) -> Option<u32>
        ensures value { result ≡ self.old.touched }
        ensures next { self.new ≡ record self.old { touched = None } }
        ensures meetings { self.new.meetings ≡ self.old.meetings }
        ensures steps { Steps self.old.connections.sockets self.new.connections.sockets }
    {
        let touched = self.touched;
        self.touched = None;
        touched
    }
}
