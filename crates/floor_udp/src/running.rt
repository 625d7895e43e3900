//! A run of the gateway over its words, its input and three writers.

use crate::fault::UdpFault;
use crate::following::Following;
use crate::gate::{Gate, Manner, SOCKET, WAKER};
use crate::input::{Stop, wait_for_end};
use crate::table::Table;
use crate::users::read_users;
use crate::words::{Words, WordsFault, parse_words};
use floor_log::Log;
use floor_sessions::User;
use mio::net::UdpSocket;
use mio::{Interest, Poll, Waker};
use std::alloc::Global;
use std::io::{Read, Write};
use std::net::{Net, SocketAddr};
use std::rt::Files;
use std::sync::{Arc, Wait};
use std::thread::Threads;
use std::time::Clock;
use std::{fs, thread};

/// Serves until `input` ends, or checks the words and the configuration; prints the name of a fault to `errors`, and
/// gives the exit status. A log that the words ask for goes to the sink.
pub fn run<R, I, O: Write, E: Write, L>(
    rt: R,
    alloc: Global,
    words: &[String],
    input: I,
    output: &mut O,
    errors: &mut E,
    sink: L,
) -> u8
where
    R: Net + Files + AllocGlobal + Clock + Threads + Wait + Copy + Drop + Send + 'static,
    I: Read + Send + Drop + 'static,
    L: Write + Send + Drop + 'static,
{
    let words = match parse_words(alloc, words) {
        Ok(words) => words,
        Err(WordsFault::Help(text)) => {
            return match print(output, text.as_str()) {
                Ok(()) => 0,
                Err(fault) => tell(errors, fault),
            };
        }
        Err(WordsFault::Refused(text)) => {
            let _outcome = print(errors, text.as_str());
            return 2;
        }
        Err(WordsFault::Memory) => return tell(errors, UdpFault::Memory),
    };
    let outcome = match users(&rt, alloc, &words, errors) {
        Ok(users) => match bind(&rt, &words, errors) {
            Ok(_socket) if words.is_check => Ok(()),
            Ok(socket) => serve(rt, alloc, &words, users, socket, input, output, sink),
            Err(fault) => Err(fault),
        },
        Err(fault) => Err(fault),
    };
    match outcome {
        Ok(()) => 0,
        Err(fault) => tell(errors, fault),
    }
}

/// The users of the file who may come over UDP. Whatever is wrong is told on `errors`, with its place.
fn users<R, E: Write>(
    rt: &R,
    alloc: Global,
    words: &Words,
    errors: &mut E,
) -> Result<Vec<User>, UdpFault>
where
    R: Files + AllocGlobal + Clone + Drop,
{
    let path = words.config.as_str();
    let text = match fs::read_to_string(rt, path) {
        Ok(text) => text,
        Err(error) => {
            let _outcome = writeln!(errors, "{path}: {error}");
            return Err(UdpFault::CannotRead);
        }
    };
    match read_users(alloc, path, text.as_str()) {
        Ok(users) if users.is_empty() && words.control.is_none() => {
            let _outcome = writeln!(errors, "{path}: no user has udp");
            Err(UdpFault::NoAddress)
        }
        Ok(users) => Ok(users),
        Err(refused) => {
            if !refused.line.is_empty() {
                let _outcome = writeln!(errors, "{}", refused.line.as_str());
            }
            Err(refused.fault)
        }
    }
}

/// Listens on the address.
fn bind<R: Net, E: Write>(rt: &R, words: &Words, errors: &mut E) -> Result<UdpSocket, UdpFault> {
    let text = words.address.as_str();
    let Ok(address) = SocketAddr::parse_ascii(text.as_bytes()) else {
        let _outcome = writeln!(errors, "{text}: this is no address and port");
        return Err(UdpFault::CannotListen);
    };
    match UdpSocket::bind(rt, address) {
        Ok(socket) => Ok(socket),
        Err(error) => {
            let _outcome = writeln!(errors, "{text}: {error}");
            Err(UdpFault::CannotListen)
        }
    }
}

/// Serves these users until the input ends.
fn serve<R, I, O: Write, L>(
    rt: R,
    alloc: Global,
    words: &Words,
    users: Vec<User>,
    socket: UdpSocket,
    input: I,
    output: &mut O,
    sink: L,
) -> Result<(), UdpFault>
where
    R: Net + Files + AllocGlobal + Clock + Threads + Wait + Copy + Drop + Send + 'static,
    I: Read + Send + Drop + 'static,
    L: Write + Send + Drop + 'static,
{
    let manner = Manner {
        door: words.door,
        datagram: words.datagram,
        probe: words.probe,
    };
    let (Ok(poll), table) = (Poll::new(&rt), Table::new(alloc, users)?) else {
        return Err(UdpFault::CannotListen);
    };
    let registry = poll.registry();
    let mut socket = socket;
    let registered = registry.register(&mut socket, SOCKET, Interest::READABLE);
    let (Ok(waker), Ok(())) = (Waker::new(registry, WAKER), registered) else {
        return Err(UdpFault::CannotListen);
    };
    let stop = Arc::new(alloc, Stop::new(waker))?;
    let theirs = Arc::try_clone(&stop)?;
    let following = match &words.control {
        Some(path) => Some(Following::new(alloc, String::from_str(alloc, path.as_str())?)),
        None => None,
    };
    let log = if words.has_log {
        Log::start(rt, alloc, sink)
    } else {
        None
    };
    let events = Gate::<R>::events(alloc)?;
    let mut gate = Gate::new(rt, alloc, manner, poll, socket, table, following, log, stop)?;
    // Nobody joins it: it ends with the input, or with the program.
    let started = thread::spawn(&rt, move || wait_for_end(&rt, input, &theirs));
    if started.is_err() {
        return Err(UdpFault::CannotListen);
    }
    print(output, "ready\n")?;
    gate.run(events);
    gate.end_log();
    Ok(())
}

/// Prints a text at once.
fn print<O: Write>(output: &mut O, text: &str) -> Result<(), UdpFault> {
    if output.write_all(text.as_bytes()).is_err() || output.flush().is_err() {
        return Err(UdpFault::CannotWrite);
    }
    Ok(())
}

/// Prints the name of a fault, and gives the exit status for it. Takes no memory, so that want of
/// memory has its name.
pub fn tell<E: Write>(errors: &mut E, fault: UdpFault) -> u8 {
    let name = fault.name();
    let _outcome = writeln!(errors, "floorudp: {name}");
    1
}
