//! A server in a thread of its own.

use floor_server::Program;
use floor_socket::{Descriptors, run};
use std::alloc::Global;
use std::fs::File;
use std::io::{Read, Write, sink};
use std::net::{Net, TcpListener, TcpStream};
use std::os::fd::AsRawFd;
use std::os::unix::net::UnixStream;
use std::rt::Files;
use std::sync::Wait;
use std::test::Fail;
use std::thread;
use std::thread::Threads;
use std::time::{Clock, Duration};
pub use test_clients::{
    Server, Start, ask, ask_control, connect, control, control_lines, free_port, greet, hear, line,
    log_lines, prepare, send, two_ends, write_file,
};

/// Starts a server of conference 1, with user 10 at a port, with a control socket at a path. It says `ready` first.
pub fn start_with_socket<R>(rt: R, config: &str, path: &str, port: u16) -> Result<Server, Fail>
where
    R: Net<Listener = TcpListener, Stream = TcpStream>
        + Files<File = File>
        + AllocGlobal
        + Clock
        + Threads
        + Wait
        + Copy
        + Drop
        + Send
        + 'static,
    R::Dir: Send,
{
    let alloc = rt.alloc();
    let (console, mut start) = prepare(&rt, config, &[(1, port)])?;
    start.add_word(alloc, "--control")?;
    start.add_word(alloc, path)?;
    let thread = thread::spawn(&rt, move || run_to_end(rt, alloc, start))?;
    let server = Server { console, thread };
    line(&rt, &server)?;
    Ok(server)
}

/// Runs a server to its end, and gives the exit status.
pub fn run_to_end<R>(rt: R, alloc: Global, start: Start) -> u8
where
    R: Net<Listener = TcpListener, Stream = TcpStream>
        + Files<File = File>
        + AllocGlobal
        + Clock
        + Threads
        + Wait
        + Copy
        + Drop
        + Send
        + 'static,
    R::Dir: Send,
{
    run_logged(rt, alloc, start, sink())
}

/// The same with something that takes the log.
pub fn run_logged<R, L>(rt: R, alloc: Global, start: Start, log: L) -> u8
where
    R: Net<Listener = TcpListener, Stream = TcpStream>
        + Files<File = File>
        + AllocGlobal
        + Clock
        + Threads
        + Wait
        + Copy
        + Drop
        + Send
        + 'static,
    R::Dir: Send,
    L: Write + Send + Drop + 'static,
{
    let Start {
        words,
        mut input,
        mut output,
    } = start;
    let descriptors = Descriptors {
        input: input.as_raw_fd(),
        output: output.as_raw_fd(),
    };
    let mut errors = Vec::new(alloc);
    let program = Program {
        name: "floorhub",
        about: "",
        by_loops: true,
        by_json: false,
    };
    run(
        rt,
        alloc,
        &program,
        words.as_slice(),
        &mut input,
        &mut output,
        &mut errors,
        log,
        Some(descriptors),
    )
}

/// All that is left of a stream of the control socket, as a text.
pub fn rest(alloc: Global, client: &mut UnixStream) -> Result<String, Fail> {
    let mut bytes = Vec::new(alloc);
    client.read_to_end(&mut bytes)?;
    Ok(String::from_utf8(bytes)?)
}

/// Waits until what stands of conference 1 has such a part.
pub fn await_status<R: AllocGlobal + Clock>(
    rt: &R,
    client: &mut UnixStream,
    wanted: &str,
) -> Result<(), Fail> {
    for _ in 0..2_000 {
        let found = ask_control(rt.alloc(), client, "status 1", 1)?;
        if found.as_str().contains(wanted) {
            return Ok(());
        }
        thread::sleep(rt, Duration::from_millis(10));
    }
    Err(Fail::from("it stands so"))
}
