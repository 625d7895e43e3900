//! A server in a thread of its own.

use floor_serve::Gate;
use floor_threads::run_with;
use std::alloc::Global;
use std::io::{Write, sink};
use std::net::{Net, TcpListener, TcpStream};
use std::rt::Files;
use std::sync::Wait;
use std::thread::Threads;
use std::time::Clock;
pub use test_clients::{
    Closed, Server, Start, ask, connect, events_of_stop, free_port, greet, hear, hear_message,
    joined, line, log_lines, next_line, prepare, send, two_ends, write_file,
};

/// Runs a server to its end, and gives the exit status.
pub fn run_to_end<R, G>(rt: R, alloc: Global, start: Start, gate: G) -> u8
where
    R: Net<Listener = TcpListener, Stream = TcpStream>
        + Files
        + AllocGlobal
        + Clock
        + Threads
        + Wait
        + Copy
        + Drop
        + Send
        + 'static,
    G: Gate + Send + Sync + Drop + 'static,
{
    run_logged(rt, alloc, start, sink(), gate)
}

/// The same with something that takes the log.
pub fn run_logged<R, L, G>(rt: R, alloc: Global, start: Start, log: L, gate: G) -> u8
where
    R: Net<Listener = TcpListener, Stream = TcpStream>
        + Files
        + AllocGlobal
        + Clock
        + Threads
        + Wait
        + Copy
        + Drop
        + Send
        + 'static,
    L: Write + Send + Drop + 'static,
    G: Gate + Send + Sync + Drop + 'static,
{
    let Start {
        words,
        mut input,
        mut output,
    } = start;
    let mut errors = Vec::new(alloc);
    run_with(
        rt,
        alloc,
        words.as_slice(),
        &mut input,
        &mut output,
        &mut errors,
        log,
        gate,
    )
}
