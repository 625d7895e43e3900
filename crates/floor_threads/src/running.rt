//! A run of the server over its words, a reader and two writers.

ghost use Rattle.std.specs.Prelude.{◌≡◌};
ghost use Rattle.floor_listen.specs.Ending.{status_of};

use crate::binding::Shared;
use crate::lines::answer_lines;
use crate::server::Server;
use floor_console::Board;
use floor_listen::{Ending, ServerFault, ended};
use floor_serve::{FreePass, Gate};
use floor_server::{
    Program, Task, Words, check_configuration, ending_of_words, fault_of_opening, fault_of_stop,
    log_of, print, read_words, tell_ending,
};
use std::alloc::Global;
use std::io::{Read, Write};
use std::net::{Net, TcpListener, TcpStream};
use std::rt::Files;
use std::sync::{Arc, Wait};
use std::thread::Threads;
use std::time::Clock;

/// The program.
const FLOORD: Program = Program {
    name: "floord",
    about: "Serves the floors of conferences (BFCP, RFC 8855), and reads an administrator's lines.",
    by_loops: false,
    by_json: false,
};

/// Does what the words ask for: serves a configuration until `input` says `stop` or ends, or checks one.
/// A log that the words ask for goes to the sink. Prints to `errors` the name of a fault, and above it what
/// a person is told of it, and gives the exit status.
pub fn run<
    R: Net<Listener = TcpListener, Stream = TcpStream>
        + Files
        + AllocGlobal
        + Clock
        + Threads
        + Wait
        + Copy
        + Drop
        + Send
        + 'static,
    I: Read,
    O: Write,
    E: Write,
    L: Write + Send + Drop + 'static,
>(
    rt: R,
    alloc: Global,
    words: &[String],
    input: &mut I,
    output: &mut O,
    errors: &mut E,
    sink: L,
) -> u8 {
    run_with(rt, alloc, words, input, output, errors, sink, FreePass)
}

/// The same with a gate, which each connection's thread passes while it holds its conference.
pub fn run_with<
    G,
    R: Net<Listener = TcpListener, Stream = TcpStream>
        + Files
        + AllocGlobal
        + Clock
        + Threads
        + Wait
        + Copy
        + Drop
        + Send
        + 'static,
    I: Read,
    O: Write,
    E: Write,
    L: Write + Send + Drop + 'static,
>(
    rt: R,
    alloc: Global,
    words: &[String],
    input: &mut I,
    output: &mut O,
    errors: &mut E,
    sink: L,
    gate: G,
) -> u8
where
    G: Gate + Send + Sync + Drop + 'static,
{
    let ending = match read_words(alloc, words, &FLOORD) {
        Ok(
            Words {
                task,
                path,
                has_log,
                loops: _,
                longest: _,
                doors,
                control: _control,
                control_mode: _control_mode,
                observe: _observe,
                observe_mode: _observe_mode,
                http: _http,
                grace: _grace,
                grace_for_all: _grace_for_all,
                keep: _keep,
            },
        ) => match task {
            Task::Serve => {
                let shared = Shared::new(alloc, gate, log_of(rt, alloc, has_log, sink));
                serve(rt, alloc, path.as_str(), input, output, errors, shared)
            }
            Task::Check => check_configuration(&rt, alloc, &FLOORD, path.as_str(), &doors, output),
        },
        Err(fault) => ending_of_words(fault, output, errors),
    };
    tell(errors, ending)
}

/// Serves the configuration of a file until `input` says `stop` or ends, by ports that share this.
pub fn serve<
    G,
    R: Net<Listener = TcpListener, Stream = TcpStream>
        + Files
        + AllocGlobal
        + Clock
        + Threads
        + Wait
        + Copy
        + Drop
        + Send
        + 'static,
    I: Read,
    O: Write,
    E: Write,
>(
    rt: R,
    alloc: Global,
    path: &str,
    input: &mut I,
    output: &mut O,
    errors: &mut E,
    shared: Shared<G>,
) -> Ending
where
    G: Gate + Send + Sync + Drop + 'static,
{
    let Ok(shared) = Arc::new(alloc, shared) else {
        return Ending::Fault(ServerFault::Memory);
    };
    let mut server = Server::new(rt, alloc, shared);
    let served = converse(rt, alloc, &mut server, path, input, output, errors);
    // Whatever went wrong, no thread is left behind.
    let outcome = match server.outcome() {
        Some(outcome) => outcome,
        None => server.stop(),
    };
    server.end_log();
    let stopped = match outcome {
        Ok(_) => Ok(()),
        Err(refusal) => Err(fault_of_stop(refusal)),
    };
    ended(served, stopped)
}

fn converse<
    G,
    R: Net<Listener = TcpListener, Stream = TcpStream>
        + Files
        + AllocGlobal
        + Clock
        + Threads
        + Wait
        + Copy
        + Drop
        + Send
        + 'static,
    I: Read,
    O: Write,
    E: Write,
>(
    rt: R,
    alloc: Global,
    server: &mut Server<G, R>,
    path: &str,
    input: &mut I,
    output: &mut O,
    errors: &mut E,
) -> Result<(), ServerFault>
where
    G: Gate + Send + Sync + Drop + 'static,
{
    let opened = server.open_file(path);
    floor_server::tell(errors, server.take_told());
    match opened {
        Ok(_) => {}
        Err(refusal) => return Err(fault_of_opening(refusal)),
    }
    print(output, "ready\n")?;
    answer_lines(rt, alloc, server, input, output, errors)
}

/// Prints the name of a fault, where one ends the program, and gives the exit status. Takes no
/// memory, so that want of memory has its name.
pub fn tell<E: Write>(errors: &mut E, ending: Ending) -> u8
    ensures status { result ≡ status_of ending }
{
    tell_ending(errors, FLOORD.name, ending)
}
