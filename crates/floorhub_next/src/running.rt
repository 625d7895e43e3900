//! A run of the program by its words.

use crate::shell::Shell;
use crate::system::System;
use floor_listen::{Ending, ServerFault};
use floor_log::Log;
use floor_program::{now_since, read_seed, service_of};
use floor_server::{
    Program, Task, Words, check_configuration, check_keeping, ending_of_words, print, read_words,
};
use std::alloc::Global;
use std::sync::{Arc, Wait};
use std::thread::Threads;
use std::time::{Clock, Instant};

/// What is said where the words ask for what isn't served here.
const REFUSED: &str = "error: --keep is not served by this program yet\n";

/// What is said where the words ask for more loops than there are.
const LOOPS: &str = "--loops: one loop serves\n";

/// Does what the words ask for: serves a configuration until standard input says `stop` or ends, or checks one.
pub fn run<R: Clock + Threads + Wait + Copy + Drop + Send + 'static>(
    rt: HostRuntime,
    waits: &R,
    program: &Program,
    words: &[String],
) -> Ending {
    match read_words(rt.alloc(), words, program) {
        Ok(words) => match words.task {
            Task::Serve => serve(rt, waits, &words),
            Task::Check => check(&rt, program, &words),
        },
        Err(fault) => ending_of_words(fault, &mut rt.stdout(), &mut rt.stderr()),
    }
}

/// Checks a configuration, and the files of kept conferences where the words name their folder.
fn check(rt: &HostRuntime, program: &Program, words: &Words) -> Ending {
    let (alloc, output) = (rt.alloc(), &mut rt.stdout());
    let (path, doors) = (words.path.as_str(), words.doors.as_slice());
    let ending = check_configuration(rt, alloc, program, path, doors, output);
    match &words.keep {
        Some(keeping) => check_keeping(rt, alloc, keeping, ending, output),
        None => ending,
    }
}

/// Serves, where the words ask for nothing else.
fn serve<R: Clock + Threads + Wait + Copy + Drop + Send + 'static>(
    rt: HostRuntime,
    waits: &R,
    words: &Words,
) -> Ending {
    if words.keep.is_some() {
        let _told = print(&mut rt.stderr(), REFUSED);
        return Ending::Refused;
    }
    if words.loops.is_some() {
        let _told = print(&mut rt.stderr(), LOOPS);
    }
    let Ok(seed) = read_seed(&rt) else {
        return Ending::Fault(ServerFault::CannotRead);
    };
    let Ok(system) = System::new(rt) else {
        return Ending::Fault(ServerFault::Memory);
    };
    let log = match words.has_log {
        true => Log::start(*waits, rt.alloc(), rt.stderr()),
        false => None,
    };
    serve_over(waits, words, seed, system, log)
}

/// Serves over what was had of the system.
fn serve_over<R: Clock + Threads + Wait>(
    waits: &R,
    words: &Words,
    seed: [u8; 32],
    system: System,
    log: Option<Arc<Log, Global>>,
) -> Ending {
    let begun = Instant::now(&system.rt).ok();
    let Ok(server) = service_of(system.alloc, words, seed, now_since(&system.rt, begun)) else {
        return Ending::Fault(ServerFault::Memory);
    };
    let mut shell = Shell::new(server, system, begun, log);
    shell.serve(waits, words)
}
