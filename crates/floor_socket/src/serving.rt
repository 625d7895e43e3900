//! A run of the server with a control socket.

use crate::console::Descriptors;
use crate::desk::Desk;
use floor_console::{Board, BoardRefusal, StopRefusal, Stopped};
use floor_keep::Lock;
use floor_listen::ServerFault;
use floor_poll::{Inbox, Lasting, Room, Server, poll_of};
use floor_server::{Log, PortFault, Words, fault_of_keeping, fault_of_opening, print, tell};
use indexmap::IndexMap;
use mio::Poll;
use std::alloc::{AllocError, Global};
use std::fs::File;
use std::io::{Read, Write};
use std::net::Net;
use std::rt::Files;
use std::sync::{Arc, Wait};
use std::thread::{JoinHandle, Threads};
use std::time::Clock;

/// What a run came to: what went wrong before the stop, and what the stop found.
#[derive(Clone, Copy, Debug)]
pub struct Run {
    pub served: Result<(), ServerFault>,
    pub outcome: Result<Stopped, StopRefusal>,
}

/// Serves the configuration of a file by so many loops, with a control socket where the words name one, until
/// somebody says `stop`; where they don't, the end of the console's input says so too. Without memory, descriptors or
/// threads for that it isn't begun.
pub fn serve_socket<R, I: Read, O: Write, E: Write>(
    rt: R,
    alloc: Global,
    loops: usize,
    words: &Words,
    lasting: Lasting,
    lock: Option<Lock>,
    log: &Option<Arc<Log, Global>>,
    descriptors: Option<Descriptors>,
    input: &mut I,
    output: &mut O,
    errors: &mut E,
) -> Result<Run, AllocError>
where
    R: Net
        + Files<File = File>
        + AllocGlobal
        + Clock
        + Threads
        + Wait
        + Copy
        + Drop
        + Send
        + 'static,
    R::Dir: Send,
{
    let Room { events, buffer } = Room::new(alloc)?;
    let (poll, inbox) = inbox_of(&rt, alloc)?;
    let shared = Some(Arc::try_clone(&inbox)?);
    let server = Server::start(rt, alloc, loops, log, &shared, lasting, lock)?;
    let mut desk = Desk::new(rt, alloc, server, poll, inbox, buffer);
    let served = match desk.begin_serving(words, descriptors, output, errors) {
        Ok(()) => {
            desk.run(events, input, output, errors);
            desk.fault()
        }
        Err(fault) => Err(fault),
    };
    let outcome = desk.finish();
    Ok(Run { served, outcome })
}

/// What the first thread waits by, and what it is told by.
fn inbox_of<R: Net>(rt: &R, alloc: Global) -> Result<(Poll, Arc<Inbox, Global>), AllocError> {
    let (poll, waker) = poll_of(rt)?;
    match Arc::new(alloc, Inbox::new(alloc, waker)) {
        Ok(inbox) => Ok((poll, inbox)),
        Err(_) => Err(AllocError),
    }
}

impl<R> Desk<R>
where
    R: Net
        + Files<File = File>
        + AllocGlobal
        + Clock
        + Threads
        + Wait
        + Copy
        + Drop
        + Send
        + 'static,
    R::Dir: Send,
{
    /// Opens the conferences of a file, the doors and the socket, and says that it is ready. Where that can't be
    /// written there is no console.
    fn begin_serving<O: Write, E: Write>(
        &mut self,
        words: &Words,
        descriptors: Option<Descriptors>,
        output: &mut O,
        errors: &mut E,
    ) -> Result<(), ServerFault> {
        let resumed = self.resume_all();
        tell(errors, self.server.take_told());
        resumed?;
        let opened = self.open_all(words);
        tell(errors, self.server.take_told());
        match opened {
            Ok(()) => {}
            Err(refusal) => return Err(fault_of_opening(refusal)),
        }
        match &words.control {
            Some(path) => self.begin_control(path.as_str(), errors)?,
            None => self.ends_with_console = true,
        }
        self.server.begin()?;
        match (print(output, "ready\n"), descriptors) {
            (Ok(()), Some(descriptors)) => self
                .take_console(descriptors)
                .map_err(|_| ServerFault::Memory),
            (Err(fault), _) if self.ends_with_console => Err(fault),
            _ => Ok(()),
        }
    }

    /// Listens at the control socket's path.
    fn begin_control<E: Write>(&mut self, path: &str, errors: &mut E) -> Result<(), ServerFault> {
        match self.listen(path) {
            Ok(()) => Ok(()),
            Err(error) => {
                let reason = PortFault::System(error).at_socket(self.alloc, "--control", path);
                tell(errors, reason.line);
                Err(fault_of_opening(reason.refusal))
            }
        }
    }

    /// Why serving has ended, but for a stop.
    fn fault(&self) -> Result<(), ServerFault> {
        if let Some(fault) = self.server.lost() {
            return Err(fault_of_keeping(fault));
        }
        if self.has_lost_console {
            return Err(ServerFault::CannotWrite);
        }
        Ok(())
    }

    /// Opens the conferences of a file, and then the doors to them.
    fn open_all(&mut self, words: &Words) -> Result<(), BoardRefusal> {
        self.open_first(words.path.as_str())?;
        self.server.open_doors(&words.doors)
    }

    /// Stops the server, where nobody has, removes the socket, and waits until all threads have ended.
    fn finish(self) -> Result<Stopped, StopRefusal> {
        let Desk {
            rt,
            mut server,
            socket,
            readers,
            ..
        } = self;
        if let Some(socket) = socket {
            socket.end(&rt);
        }
        if server.is_lost() {
            // Nothing more is sent: what still runs ends with the program.
            return Ok(Stopped {
                seats: 0,
                events: 0,
            });
        }
        join_readers(&rt, readers);
        // Whatever went wrong, no thread is left behind.
        let outcome = match server.outcome() {
            Some(outcome) => outcome,
            None => server.stop(),
        };
        server.join();
        outcome
    }
}

/// Waits until whoever reads a configuration has ended.
fn join_readers<R: Threads>(rt: &R, readers: IndexMap<u64, JoinHandle<()>>) {
    for thread in readers.into_values() {
        thread.join(rt);
    }
}
