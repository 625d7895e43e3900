//! What is had of the system: the poll, the sockets by their numbers, and what is listened on.
//!
//! It is listened on before the value is told of them, so that where one can't be had nothing is opened.

use crate::reading::Reader;
use floor_config::Config;
use floor_console::BoardRefusal;
use floor_listen::listening_address;
use floor_program::{ClientSocket, HttpPort, end_client};
use floor_server::{Door, PortFault, Reason, keep_alive, tell};
use floor_service::{MAX_READ, Place};
use floor_streams::shut_down;
use mio::net::{TcpListener, TcpStream, UnixStream};
use mio::{Events, Interest, Poll, Registry, Token};
use std::alloc::{AllocError, Global};
use std::io::ErrorKind;
use std::net::SocketAddr;
use std::{io, mem};

/// How many sockets are told to be ready at a time.
const MAX_EVENTS: usize = 1_024;

/// A socket of the system's.
#[derive(Drop)]
pub enum Handle {
    None,
    Listener(TcpListener),
    /// That of control clients.
    Clients(ClientSocket),
    /// A peer's, and whether a write to it has failed.
    Stream(TcpStream, bool),
    /// A control client's.
    Client(UnixStream),
}

impl Handle {
    /// Has the poll tell of it by its number.
    pub fn register(&mut self, registry: &Registry, number: usize) -> io::Result<()> {
        let (token, both) = (Token(number), Interest::READABLE | Interest::WRITABLE);
        match self {
            Handle::Listener(listener) => registry.register(listener, token, Interest::READABLE),
            Handle::Clients(socket) => socket.register(registry, token),
            Handle::Stream(stream, _) => {
                let _is_told = keep_alive(stream);
                // Without it a small answer waits for the next.
                let _outcome = stream.set_nodelay(true);
                registry.register(stream, token, both)
            }
            Handle::Client(stream) => registry.register(stream, token, both),
            Handle::None => Ok(()),
        }
    }

    /// Who waits at a listener, and from which port of its own: 0 of a control client.
    pub fn accept(&self) -> io::Result<(Handle, u16)> {
        match self {
            Handle::Listener(listener) => {
                let (stream, address) = listener.accept()?;
                Ok((Handle::Stream(stream, false), address.port()))
            }
            Handle::Clients(socket) => Ok((Handle::Client(socket.accept()?), 0)),
            Handle::None | Handle::Stream(_, _) | Handle::Client(_) => {
                Err(io::Error::from(ErrorKind::WouldBlock))
            }
        }
    }

    /// Shuts a stream, both ways, once what stands unread is thrown away, or ends a listener.
    pub fn end(self, rt: &HostRuntime, buffer: &mut [u8]) {
        match self {
            Handle::Stream(mut stream, _) => shut_down(&mut stream, buffer),
            Handle::Client(mut stream) => end_client(&mut stream, buffer),
            Handle::Clients(socket) => socket.end(rt),
            Handle::Listener(_) | Handle::None => {}
        }
    }
}

/// A port that is listened on.
#[derive(Drop)]
pub struct Bound {
    port: u16,
    listener: TcpListener,
}

/// What is had of the system.
#[derive(Drop)]
pub struct System {
    pub rt: HostRuntime,
    pub alloc: Global,
    pub poll: Poll,
    pub events: Events<Global>,
    /// The sockets, by the numbers that the value gives them.
    pub handles: Vec<Handle>,
    /// What is listened on and isn't the value's yet.
    pub bound: Vec<Bound>,
    pub control: Option<ClientSocket>,
    pub observe: Option<ClientSocket>,
    pub http: Option<HttpPort>,
    pub reader: Reader,
    /// What a read gives.
    pub buffer: Vec<u8>,
}

impl System {
    /// Without memory or descriptors there is none.
    pub fn new(rt: HostRuntime) -> Result<System, AllocError> {
        let alloc = rt.alloc();
        let poll = Poll::new(&rt).map_err(|_| AllocError)?;
        let events = Events::with_capacity(alloc, MAX_EVENTS)?;
        let buffer = Vec::from_elem(alloc, 0u8, MAX_READ)?;
        let reader = Reader::new(alloc, &poll)?;
        Ok(System {
            rt,
            alloc,
            poll,
            events,
            handles: Vec::new(alloc),
            bound: Vec::new(alloc),
            control: None,
            observe: None,
            http: None,
            reader,
            buffer,
        })
    }

    /// Listens on the ports of a conference's users.
    pub fn bind_all(&mut self, config: &Config) -> Result<(), BoardRefusal> {
        for user in config.users() {
            if let Some(port) = user.port {
                self.bind_for(config.conference(), user.id, port)?;
            }
        }
        Ok(())
    }

    /// Listens on all these ports, or on none: then it gives one that can't be had.
    pub fn bind_ports(&mut self, ports: &[u16]) -> Option<u16> {
        let before = self.bound.len();
        for port in ports {
            if self.bind(*port).is_err() {
                self.bound.truncate(before);
                return Some(*port);
            }
        }
        None
    }

    /// Listens on a user's port.
    pub fn bind_for(&mut self, conference: u32, user: u16, port: u16) -> Result<(), BoardRefusal> {
        match self.bind(port) {
            Ok(()) => Ok(()),
            Err(fault) => self.checked(Err(fault.reason(self.alloc, conference, user, port))),
        }
    }

    /// Listens on a door's port.
    pub fn bind_door(&mut self, door: Door) -> Result<(), BoardRefusal> {
        match self.bind(door.port) {
            Ok(()) => Ok(()),
            Err(fault) => self.checked(Err(fault.at_door(self.alloc, door))),
        }
    }

    /// Listens on a port of 127.0.0.1.
    pub fn listen(&self, port: u16) -> io::Result<TcpListener> {
        TcpListener::bind(&self.rt, SocketAddr::V4(listening_address(port)))
    }

    /// Listens on a port that becomes the value's.
    fn bind(&mut self, port: u16) -> Result<(), PortFault> {
        self.bound.reserve(1)?;
        match self.listen(port) {
            Ok(listener) => {
                self.bound.push_reserved(Bound { port, listener });
                Ok(())
            }
            Err(error) => Err(PortFault::System(error)),
        }
    }

    /// Listens at a path for whom the mode lets in, as this word asks.
    pub fn bind_path(
        &self,
        word: &str,
        path: &str,
        mode: u32,
    ) -> Result<ClientSocket, BoardRefusal> {
        match ClientSocket::open(&self.rt, String::from_str(self.alloc, path)?, mode) {
            Ok(socket) => Ok(socket),
            Err(error) => {
                let fault = PortFault::System(error);
                self.checked(Err(fault.at_socket(self.alloc, word, path)))
            }
        }
    }

    /// Lets the control clients' sockets go that didn't become the value's.
    pub fn let_go(&mut self) {
        if let Some(socket) = self.control.take() {
            socket.end(&self.rt);
        }
        if let Some(socket) = self.observe.take() {
            socket.end(&self.rt);
        }
    }

    /// What listens at a place.
    pub fn take_listening(&mut self, place: Place) -> Option<Handle> {
        match place {
            Place::Port { port, .. } | Place::Door { port, .. } | Place::Health { port } => {
                self.take_bound(port)
            }
            Place::Control => Some(Handle::Clients(self.control.take()?)),
            Place::Observe => Some(Handle::Clients(self.observe.take()?)),
        }
    }

    fn take_bound(&mut self, port: u16) -> Option<Handle> {
        let place = self.bound.iter().position(|bound| bound.port == port)?;
        let Bound { listener, .. } = self.bound.swap_remove(place);
        Some(Handle::Listener(listener))
    }

    /// Tells a person of a refusal.
    pub fn checked<T: Drop>(&self, had: Result<T, Reason>) -> Result<T, BoardRefusal> {
        match had {
            Ok(value) => Ok(value),
            Err(reason) => {
                tell(&mut self.rt.stderr(), reason.line);
                Err(reason.refusal)
            }
        }
    }

    /// Puts a socket or a listener under its number, has the poll tell of it by that, and says whether it could. Where it
    /// couldn't that is closed.
    pub fn admit(&mut self, number: usize, mut handle: Handle) -> bool {
        let told = handle.register(self.poll.registry(), number);
        told.is_ok() && self.put(number, handle).is_ok()
    }

    fn put(&mut self, number: usize, handle: Handle) -> Result<(), AllocError> {
        for _ in self.handles.len()..number.saturating_add(1) {
            self.handles.push(Handle::None)?;
        }
        if let Some(place) = self.handles.get_mut(number) {
            *place = handle;
        }
        Ok(())
    }

    /// Takes a socket out.
    pub fn take(&mut self, number: usize) -> Handle {
        match self.handles.get_mut(number) {
            Some(place) => mem::replace(place, Handle::None),
            None => Handle::None,
        }
    }
}
