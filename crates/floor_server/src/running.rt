//! How a run begins and ends that serves by its words, or has nothing to serve.

ghost use Rattle.std.specs.Prelude.{◌≡◌};
ghost use Rattle.floor_listen.specs.Ending.{status_of};
ghost use Rattle.floor_server.specs.Words.{IsEndingOf};

use crate::lines::print;
use crate::log::Log;
use crate::words::WordsFault;
use floor_listen::{Ending, ServerFault, after_help};
use std::alloc::Global;
use std::io::Write;
use std::sync::Wait;
use std::thread::Threads;

/// How a program ends whose words ask for nothing to be served or checked. Prints the help that they ask
/// for, or to `errors` what is wrong with them.
pub fn ending_of_words<O: Write, E: Write>(
    fault: WordsFault,
    output: &mut O,
    errors: &mut E,
) -> Ending
    ensures value { IsEndingOf fault result }
{
    match fault {
        WordsFault::Help(text) => after_help(print(output, text.as_str())),
        WordsFault::Refused(text) => {
            let _outcome = print(errors, text.as_str());
            Ending::Refused
        }
        WordsFault::Memory => Ending::Fault(ServerFault::Memory),
    }
}

/// The log, where one is asked for and there are memory and a thread for it.
pub fn log_of<R, L>(rt: R, alloc: Global, has_log: bool, sink: L) -> Option<Log>
where
    R: Threads + Wait + Copy + Drop + Send + 'static,
    L: Write + Send + Drop + 'static,
{
    if has_log {
        Log::start(rt, alloc, sink)
    } else {
        None
    }
}

/// Prints the name of a fault behind the program's, where one ends it, and gives the exit status. Takes no
/// memory, so that want of memory has its name.
pub fn tell_ending<E: Write>(errors: &mut E, program: &str, ending: Ending) -> u8
    ensures status { result ≡ status_of ending }
{
    match ending.name() {
        None => {}
        Some(name) => {
            let _written = writeln!(errors, "{program}: {name}");
        }
    }
    ending.status()
}
