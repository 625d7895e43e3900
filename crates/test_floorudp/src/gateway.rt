//! The gateway that is tried, in a thread of its own.

use floor_udp::run;
use std::alloc::Global;
use std::net::{Net, TcpListener, TcpStream};
use std::rt::Files;
use std::sync::Wait;
use std::thread;
use std::thread::Threads;
use std::time::Clock;
use test_cases::Fault;
use test_gateways::{Gateway, Start, two_sides};

/// Starts one by these words, the first of them the program's own name.
pub fn start<R>(rt: R, words: Vec<String>) -> Result<Gateway, Fault>
where
    R: Net<Listener = TcpListener, Stream = TcpStream>
        + Files
        + AllocGlobal
        + Clock
        + Threads
        + Wait
        + Copy
        + Drop
        + Send
        + 'static,
{
    let alloc = rt.alloc();
    let (ends, start) = two_sides(rt, words)?;
    match thread::spawn(&rt, move || run_to_end(rt, alloc, start)) {
        Ok(thread) => Ok(Gateway::new(thread, ends)),
        Err(_) => Err(Fault::Wrong("no thread")),
    }
}

fn run_to_end<R>(rt: R, alloc: Global, start: Start) -> u8
where
    R: Net<Listener = TcpListener, Stream = TcpStream>
        + Files
        + AllocGlobal
        + Clock
        + Threads
        + Wait
        + Copy
        + Drop
        + Send
        + 'static,
{
    let Start {
        words,
        input,
        mut output,
        mut errors,
        log,
    } = start;
    run(
        rt,
        alloc,
        words.as_slice(),
        input,
        &mut output,
        &mut errors,
        log,
    )
}
