//! A run of the gateway over its words, a reader and two writers.

use crate::fault::GatewayFault;
use crate::gateway::Gateway;
use crate::words::{Words, WordsFault, parse_words};
use crate::{connection, control};
use floor_listen::{Accepting, after_accept};
use floor_log::Log;
use std::alloc::Global;
use std::io::{Read, Write};
use std::net::{Net, Shutdown, TcpListener, TcpStream};
use std::os::fd::OwnedFd;
use std::rt::Files;
use std::sync::{Arc, Wait};
use std::thread;
use std::thread::{JoinHandle, Threads};
use std::time::{Clock, Duration};

/// How often it looks, at the end, whether a connection still runs, and how long it waits between.
const LAST_LOOKS: u32 = 60;

const LOOK_MILLIS: u64 = 50;

/// Serves until `input` ends, prints the name of a fault to `errors`, and gives the exit status. A log
/// that the words ask for goes to the sink.
pub fn run<R, I: Read, O: Write, E: Write, L: Write + Send + Drop + 'static>(
    rt: R,
    alloc: Global,
    words: &[String],
    input: &mut I,
    output: &mut O,
    errors: &mut E,
    sink: L,
) -> u8
where
    R: Net<Listener = TcpListener, Stream = TcpStream>
        + Files
        + AllocGlobal
        + Clock
        + Threads
        + Wait
        + Copy
        + Drop
        + Send
        + 'static,
{
    let words = match parse_words(alloc, words) {
        Ok(words) => words,
        Err(WordsFault::Help(text)) => {
            return match print(output, text.as_str()) {
                Ok(()) => 0,
                Err(fault) => tell(errors, fault),
            };
        }
        Err(WordsFault::Refused(text)) => {
            let _outcome = print(errors, text.as_str());
            return 2;
        }
        Err(WordsFault::Memory) => return tell(errors, GatewayFault::Memory),
    };
    match listen(rt, alloc, words, input, output, errors, sink) {
        Ok(()) => 0,
        Err(fault) => tell(errors, fault),
    }
}

fn listen<R, I: Read, O: Write, E: Write, L: Write + Send + Drop + 'static>(
    rt: R,
    alloc: Global,
    words: Words,
    input: &mut I,
    output: &mut O,
    errors: &mut E,
    sink: L,
) -> Result<(), GatewayFault>
where
    R: Net<Listener = TcpListener, Stream = TcpStream>
        + Files
        + AllocGlobal
        + Clock
        + Threads
        + Wait
        + Copy
        + Drop
        + Send
        + 'static,
{
    let address = String::from_str(alloc, words.address.as_str())?;
    let log = if words.has_log {
        Log::start(rt, alloc, sink)
    } else {
        None
    };
    let gateway = Arc::new(alloc, Gateway::open(&rt, alloc, words, log, errors)?)?;
    let (listener, second) = bind(&rt, address.as_str(), errors)?;
    let theirs = Arc::try_clone(&gateway)?;
    let started = thread::spawn(&rt, move || accept_all(rt, alloc, &theirs, &listener));
    let Ok(acceptor) = started else {
        return Err(GatewayFault::CannotListen);
    };
    let follower = start_following(rt, alloc, &gateway);
    let outcome = print(output, "ready\n");
    if outcome.is_ok() {
        wait_for_end(&rt, input);
    }
    gateway.end(&rt);
    // It ends the accept.
    let _outcome = second.shutdown(Shutdown::Both);
    acceptor.join(&rt);
    if let Some(follower) = follower {
        follower.join(&rt);
    }
    wait_for_connections(&rt, &gateway);
    gateway.end_log(&rt);
    outcome
}

/// Listens on the address, and gives the listener with a second handle of it.
fn bind<R, E: Write>(
    rt: &R,
    address: &str,
    errors: &mut E,
) -> Result<(TcpListener, TcpStream), GatewayFault>
where
    R: Net<Listener = TcpListener, Stream = TcpStream>,
{
    let bound = match TcpListener::bind(rt, address) {
        Ok(listener) => match listener.try_clone() {
            Ok(second) => Ok((listener, TcpStream::from(OwnedFd::from(second)))),
            Err(error) => Err(error),
        },
        Err(error) => Err(error),
    };
    match bound {
        Ok(handles) => Ok(handles),
        Err(error) => {
            let _outcome = writeln!(errors, "{address}: {error}");
            Err(GatewayFault::CannotListen)
        }
    }
}

/// Starts the thread that follows the control socket, where there is one. Without a thread or memory for it
/// nothing is followed, as where the socket is lost.
fn start_following<R>(
    rt: R,
    alloc: Global,
    gateway: &Arc<Gateway, Global>,
) -> Option<JoinHandle<()>>
where
    R: Net<Listener = TcpListener, Stream = TcpStream>
        + Clock
        + Threads
        + Wait
        + Copy
        + Drop
        + Send
        + 'static,
{
    let path = match &gateway.control {
        Some(path) => String::from_str(alloc, path.as_str()).ok()?,
        None => return None,
    };
    let theirs = Arc::try_clone(gateway).ok()?;
    thread::spawn(&rt, move || {
        control::follow(rt, alloc, &theirs, path.as_str())
    })
    .ok()
}

/// Starts a connection with each stream that is accepted, until the gateway ends.
fn accept_all<R>(rt: R, alloc: Global, gateway: &Arc<Gateway, Global>, listener: &TcpListener)
where
    R: Net<Listener = TcpListener, Stream = TcpStream>
        + Clock
        + Threads
        + Wait
        + Copy
        + Drop
        + Send
        + 'static,
{
    for accepted in listener.incoming() {
        match after_accept(gateway.is_ending(), accepted) {
            Accepting::End => return,
            Accepting::Start(stream) => connection::start(rt, alloc, gateway, stream),
            Accepting::Again(milliseconds) => {
                thread::sleep(&rt, Duration::from_millis(milliseconds));
            }
        }
    }
}

/// Waits until the input ends, or fails.
fn wait_for_end<R: Wait, I: Read>(rt: &R, input: &mut I) {
    let mut piece = [0u8; 256];
    for _ in rt.forever() {
        match input.read(&mut piece) {
            Ok(0) => return,
            Ok(_) => {}
            Err(error) if error.kind() == std::io::ErrorKind::Interrupted => {}
            Err(_) => return,
        }
    }
}

/// Waits a while until no connection runs: each is told that the gateway goes away.
fn wait_for_connections<R: Clock + Wait>(rt: &R, gateway: &Gateway) {
    for _ in 0..LAST_LOOKS {
        if gateway.is_idle(rt) {
            return;
        }
        thread::sleep(rt, Duration::from_millis(LOOK_MILLIS));
    }
}

/// Prints a text at once.
fn print<O: Write>(output: &mut O, text: &str) -> Result<(), GatewayFault> {
    if output.write_all(text.as_bytes()).is_err() || output.flush().is_err() {
        return Err(GatewayFault::CannotWrite);
    }
    Ok(())
}

/// Prints the name of a fault, and gives the exit status for it. Takes no memory, so that want of
/// memory has its name.
pub fn tell<E: Write>(errors: &mut E, fault: GatewayFault) -> u8 {
    let name = fault.name();
    let _outcome = writeln!(errors, "floorweb: {name}");
    1
}
