//! A port: whoever connects to it is one user of one conference.

ghost use Rattle.std.specs.Iterator.{IsFinite};

use crate::binding::Binding;
use crate::connection;
use floor_listen::{Accepting, after_accept, listening_address};
use floor_serve::Gate;
use floor_server::{Entry, PortFault};
use std::alloc::Global;
use std::net::{Net, Shutdown, TcpListener, TcpStream};
use std::os::fd::OwnedFd;
use std::sync::{Arc, Wait};
use std::thread::{JoinHandle, Threads};
use std::time::{Clock, Duration};
use std::{io, thread};

/// A listening port. `close` ends it; `end` ahead of that has its connections end meanwhile.
#[derive(Drop)]
pub struct Port<G> {
    binding: Arc<Binding<G>, Global>,
    /// A second handle of the listener: to shut it down ends the accept.
    listener: TcpStream,
    acceptor: JoinHandle<()>,
}

impl<G> Port<G> {
    /// Listens on the binding's port of 127.0.0.1.
    pub fn open<R>(
        rt: R,
        alloc: Global,
        binding: Binding<G>,
        number: u16,
    ) -> Result<Port<G>, PortFault>
    where
        G: Gate + Send + Sync + Drop + 'static,
        R: Net<Listener = TcpListener, Stream = TcpStream>
            + Clock
            + Threads
            + Wait
            + Copy
            + Drop
            + Send
            + 'static,
    {
        let Ok(binding) = Arc::new(alloc, binding) else {
            return Err(PortFault::Memory);
        };
        let theirs = Arc::try_clone(&binding)?;
        let (listener, second) = listen(rt, number)?;
        match thread::spawn(
            &rt,
            move || accept_all(rt, alloc, &theirs, listener.incoming()),
        ) {
            Ok(acceptor) => {
                binding.tell(&rt, &Entry::Listens(binding.place()));
                Ok(Port {
                    binding,
                    listener: second,
                    acceptor,
                })
            }
            Err(_) => Err(PortFault::NoThread),
        }
    }

    /// Ends the listening, and shuts down the socket of each connection that has begun.
    pub fn end<R: Wait>(&self, rt: &R) {
        self.binding.set_ending();
        // It may be shut down already.
        let _outcome = self.listener.shutdown(Shutdown::Both);
        self.binding.shut_down(rt);
    }

    /// Closes it: it isn't listened on any more, so that it can be used again, and none of its
    /// connections runs.
    pub fn close<R: Clock + Threads + Wait>(self, rt: &R)
    where
        G: Drop,
    {
        self.end(rt);
        let Port {
            binding,
            listener: _,
            acceptor,
        } = self;
        acceptor.join(rt);
        // Also what the acceptor still began.
        binding.shut_down(rt);
        binding.wait(rt);
        binding.tell(rt, &Entry::Ended(binding.place()));
    }
}

/// Listens on the port, and gives the listener with a second handle of it.
fn listen<R>(rt: R, number: u16) -> Result<(TcpListener, TcpStream), PortFault>
where
    R: Net<Listener = TcpListener, Stream = TcpStream> + Drop,
{
    let listener = match TcpListener::bind(&rt, listening_address(number)) {
        Ok(listener) => listener,
        Err(error) => return Err(PortFault::System(error)),
    };
    match listener.try_clone() {
        Ok(second) => Ok((listener, TcpStream::from(OwnedFd::from(second)))),
        Err(error) => Err(PortFault::System(error)),
    }
}

/// Starts a connection with each stream that is accepted, until the port ends. Where an accept fails,
/// as without a descriptor left, the port goes on after a while.
pub fn accept_all<G, R, I>(rt: R, alloc: Global, binding: &Arc<Binding<G>, Global>, incoming: I)
where
    G: Gate + Send + Sync + Drop + 'static,
    R: Clock + Threads + Wait + Copy + Drop + Send + 'static,
    I: Iterator<Item = io::Result<TcpStream>> + Drop,
    requires can { I.can_next incoming }
    requires ends { IsFinite (I.remaining incoming) }
{
    let mut is_failing = false;
    for accepted in incoming {
        match after_accept(binding.is_ending(), accepted) {
            Accepting::End => return,
            Accepting::Start(stream) => {
                tell_change(&rt, binding, is_failing, false);
                is_failing = false;
                // Where it can't be served its socket is closed.
                let _outcome = connection::start(rt, alloc, binding, stream);
            }
            Accepting::Again(milliseconds) => {
                tell_change(&rt, binding, is_failing, true);
                is_failing = true;
                thread::sleep(&rt, Duration::from_millis(milliseconds));
            }
        }
    }
}

/// Tells the log where a port can't accept any more, and where it can again.
fn tell_change<G, R: Clock + Wait>(rt: &R, binding: &Binding<G>, was_failing: bool, fails: bool) {
    match (was_failing, fails) {
        (false, true) => binding.tell(rt, &Entry::CannotAccept(binding.place())),
        (true, false) => binding.tell(rt, &Entry::Accepts(binding.place())),
        (true, true) | (false, false) => {}
    }
}
