//! A run of the server over its words, a reader and two writers.

ghost use Rattle.std.specs.Prelude.{◌≡◌};
ghost use Rattle.floor_socket.specs.Runs.{ending_of, grace_of};

use crate::alone::answer_lines;
use crate::console::Descriptors;
use crate::serving::{Run, serve_socket};
use floor_console::{Board, BoardRefusal};
use floor_keep::{Lock, lock_folder};
use floor_listen::{Ending, ServerFault, ended};
use floor_loop::Grace;
use floor_poll::{Lasting, Server};
use floor_server::{
    KeepReason, Log, Program, Task, Words, check_configuration, check_keeping, ending_of_words,
    fault_of_keeping, fault_of_opening, fault_of_stop, log_of, print, read_words, tell,
    tell_ending,
};
use std::alloc::{AllocError, Global};
use std::fs::File;
use std::io::{Read, Write};
use std::net::{Net, TcpListener, TcpStream};
use std::rt::Files;
use std::sync::{Arc, Wait};
use std::thread;
use std::thread::Threads;
use std::time::Clock;

/// How many milliseconds a second has.
const MILLIS: u64 = 1_000;

/// How long a member of a conference that goes on from its file is waited for at least, in milliseconds.
const MIN_RESUMED: u64 = 30_000;

/// How many loops there are at most where the words don't say how many.
const MAX_LOOPS: usize = 4;

/// Does what the words ask for: serves a configuration until `input` says `stop` or ends, or checks one.
/// With a control socket a client may say `stop` as well, and the end of the input stops nothing; without the
/// descriptors of the input and the output there is no console then. A log that the words ask for goes to the
/// sink. Prints to `errors` the name of a fault, and above it what
/// a person is told of it, and gives the exit status.
pub fn run<
    R: Net<Listener = TcpListener, Stream = TcpStream>
        + Files<File = File>
        + AllocGlobal
        + Clock
        + Threads
        + Wait
        + Copy
        + Drop
        + Send
        + 'static,
    I: Read,
    O: Write,
    E: Write,
    L: Write + Send + Drop + 'static,
>(
    rt: R,
    alloc: Global,
    program: &Program,
    words: &[String],
    input: &mut I,
    output: &mut O,
    errors: &mut E,
    sink: L,
    descriptors: Option<Descriptors>,
) -> u8
where
    R::Dir: Send,
{
    let ending = match read_words(alloc, words, program) {
        Ok(words) => match words.task {
            Task::Serve => { serve(rt, alloc, &words, input, output, errors, sink, descriptors) }
            Task::Check => check(&rt, alloc, program, &words, output),
        },
        Err(fault) => ending_of_words(fault, output, errors),
    };
    tell_ending(errors, program.name, ending)
}

/// Checks a configuration, and the files of kept conferences where the words name their folder.
fn check<R, O: Write>(
    rt: &R,
    alloc: Global,
    program: &Program,
    words: &Words,
    output: &mut O,
) -> Ending
where
    R: Net<Listener = TcpListener, Stream = TcpStream> + Files<File = File> + AllocGlobal,
{
    let path = words.path.as_str();
    let ending = check_configuration(rt, alloc, program, path, &words.doors, output);
    match &words.keep {
        Some(keeping) => check_keeping(rt, alloc, keeping, ending, output),
        None => ending,
    }
}

/// How many loops there are: as many as the words say, else as processors, and at most four.
fn loops_of<R: Threads>(rt: &R, loops: Option<u8>) -> usize {
    match loops {
        Some(loops) => usize::from(loops),
        None => thread::available_parallelism(rt)
            .map_or(1, |count| count.get())
            .min(MAX_LOOPS),
    }
}

/// Serves the configuration of a file until `input` says `stop` or ends, or a client of the control socket says so.
fn serve<R, I: Read, O: Write, E: Write, L>(
    rt: R,
    alloc: Global,
    words: &Words,
    input: &mut I,
    output: &mut O,
    errors: &mut E,
    sink: L,
    descriptors: Option<Descriptors>,
) -> Ending
where
    R: Net
        + Files<File = File>
        + AllocGlobal
        + Clock
        + Threads
        + Wait
        + Copy
        + Drop
        + Send
        + 'static,
    R::Dir: Send,
    L: Write + Send + Drop + 'static,
{
    let log = match log_of(rt, alloc, words.has_log, sink) {
        None => None,
        Some(log) => Arc::new(alloc, log).ok(),
    };
    let loops = loops_of(&rt, words.loops);
    let (lasting, lock) = match lasting_of(&rt, alloc, words) {
        Ok(both) => both,
        Err(reason) => {
            tell(errors, reason.line);
            return Ending::Fault(fault_of_keeping(reason.fault));
        }
    };
    // Who keeps conferences has to end at once where the folder is another server's, and so waits for no line alone.
    let run = if words.control.is_some() || (lock.is_some() && descriptors.is_some()) {
        serve_socket(
            rt,
            alloc,
            loops,
            words,
            lasting,
            lock,
            &log,
            descriptors,
            input,
            output,
            errors,
        )
    } else {
        serve_console(
            rt, alloc, loops, words, lasting, lock, &log, input, output, errors,
        )
    };
    end_log(&rt, &log);
    ending_of(run)
}

/// How members last and conferences are kept by the words, and the hold of this process on their folder.
fn lasting_of<R: Files<File = File>>(
    rt: &R,
    alloc: Global,
    words: &Words,
) -> Result<(Lasting, Option<Lock>), KeepReason> {
    let grace = grace_of(words.grace);
    let (folder, lock) = match &words.keep {
        Some(keeping) => {
            let (lock, folder) = lock_folder(rt, alloc, keeping)?;
            (Some(folder), Some(lock))
        }
        None => (None, None),
    };
    let lasting = Lasting {
        longest: words.longest,
        grace,
        is_for_all: words.grace_for_all,
        folder,
    };
    Ok((lasting, lock))
}

/// How long members last whose connections are lost.
fn grace_of(seconds: u64) -> Grace
    ensures value { result ≡ grace_of seconds }
{
    let lost = seconds.saturating_mul(MILLIS);
    Grace {
        lost,
        resumed: lost.max(MIN_RESUMED),
    }
}

/// How a run ends.
fn ending_of(run: Result<Run, AllocError>) -> Ending
    ensures value { result ≡ ending_of run }
{
    match run {
        Ok(Run { served, outcome }) => {
            let stopped = match outcome {
                Ok(_) => Ok(()),
                Err(refusal) => Err(fault_of_stop(refusal)),
            };
            ended(served, stopped)
        }
        Err(_) => Ending::Fault(ServerFault::Memory),
    }
}

/// Serves the configuration of a file by so many loops until `input` says `stop` or ends. Without memory,
/// descriptors or threads for that it isn't begun.
fn serve_console<R, I: Read, O: Write, E: Write>(
    rt: R,
    alloc: Global,
    loops: usize,
    words: &Words,
    lasting: Lasting,
    lock: Option<Lock>,
    log: &Option<Arc<Log, Global>>,
    input: &mut I,
    output: &mut O,
    errors: &mut E,
) -> Result<Run, AllocError>
where
    R: Net
        + Files<File = File>
        + AllocGlobal
        + Clock
        + Threads
        + Wait
        + Copy
        + Drop
        + Send
        + 'static,
    R::Dir: Send,
{
    let mut server = Server::start(rt, alloc, loops, log, &None, lasting, lock)?;
    let served = converse(rt, alloc, &mut server, words, input, output, errors);
    // Whatever went wrong, no thread is left behind.
    let outcome = match server.outcome() {
        Some(outcome) => outcome,
        None => server.stop(),
    };
    server.join();
    Ok(Run { served, outcome })
}

/// Ends the log, where there is one, once its last lines are written.
fn end_log<R: Wait>(rt: &R, log: &Option<Arc<Log, Global>>) {
    match log {
        Some(log) => log.end(rt),
        None => {}
    }
}

/// Opens the conferences of a file and the doors, and answers the administrator's lines.
fn converse<R, I: Read, O: Write, E: Write>(
    rt: R,
    alloc: Global,
    server: &mut Server<R>,
    words: &Words,
    input: &mut I,
    output: &mut O,
    errors: &mut E,
) -> Result<(), ServerFault>
where
    R: Net
        + Files<File = File>
        + AllocGlobal
        + Clock
        + Threads
        + Wait
        + Copy
        + Drop
        + Send
        + 'static,
    R::Dir: Send,
{
    let resumed = resume_all(server);
    tell(errors, server.take_told());
    resumed?;
    let opened = open(server, words);
    tell(errors, server.take_told());
    match opened {
        Ok(()) => {}
        Err(refusal) => return Err(fault_of_opening(refusal)),
    }
    server.begin()?;
    print(output, "ready\n")?;
    answer_lines(rt, alloc, server, input, output, errors)
}

/// Opens the conferences of a file, and then the doors to them.
fn open<R>(server: &mut Server<R>, words: &Words) -> Result<(), BoardRefusal>
where
    R: Net
        + Files<File = File>
        + AllocGlobal
        + Clock
        + Threads
        + Wait
        + Copy
        + Drop
        + Send
        + 'static,
    R::Dir: Send,
{
    for fresh in server.read_file(words.path.as_str())? {
        if !server.is_passed(fresh.config().conference()) {
            server.open_one(fresh)?;
        }
    }
    server.open_doors(&words.doors)
}

/// Lets the conferences of the folder go on, where conferences are kept.
fn resume_all<R>(server: &mut Server<R>) -> Result<(), ServerFault>
where
    R: Net
        + Files<File = File>
        + AllocGlobal
        + Clock
        + Threads
        + Wait
        + Copy
        + Drop
        + Send
        + 'static,
{
    server.list_kept()?;
    for _ in 0..u64::MAX {
        if server.resume_next()?.is_none() {
            break;
        }
    }
    Ok(())
}
