//! The program's words, and how it ends.

use crate::journal::run_journal;
use crate::refusal::tell_place;
use crate::words::{Asked, read_words};
use floor_script::{RunFault, run_script};
use std::alloc::Global;
use std::io::{ErrorKind, Read, Write};
use std::rt::Files;
use std::{fs, io};

/// What `--version` prints: the version, and the logic that the program is proved with.
const VERSION: &str = "floorsim 0.2.0 (logic dac8208d650f15bf)
";

/// What `--help` prints.
const USAGE: &str = "\
Runs a script of connections and messages over conferences, and prints what each connection is sent

Usage: floorsim < script
       floorsim --journal <file> [<n>] [--text]
       floorsim --journal <file> --status [--at <place>]

Options:
  --journal  Run the journal of a conference that floorhub kept in a file, and print what its members were
             told, or the member <n>: the place of the event, the member's number, and the message, in
             hexadecimal or with --text as floorc prints it
  --status   Print how that conference stood behind its last event, or behind the one at the place: its
             live members, and the holders and the queue of each floor
  --help     Print help
  --version  Print version

Standard input:
  A configuration, a line --- and the script; or the script alone, over conference 1 with users 10, 11
  and 12 and floor 1, which has room for one. An empty line and one that begins with # say nothing.

Lines of the script:
  attach <conference> <user>                   connects; connections are numbered from 1 on
  send <connection> <hex ..>                   bytes come in, and each whole message is served
  piece <connection> <hex ..>                  bytes come in, cut anywhere
  serve <connection>                           serves the next whole message
  leave <connection>                           the connection ends
  slow <connection>                            from now on what it is sent waits
  fast <connection>                            from now on it is taken again
  revoke <conference> <request>                the administrator revokes a floor request
  close <conference>                           the administrator closes the conference
  user <conference> <id> [proxy] [port <port>] [name <text to the end>]
                                               the administrator adds a user; the port says nothing
  floor <conference> <id> [room <room>] [chair <user>]
                                               the administrator adds a floor
  chair <conference> <floor> [<user>]          the administrator gives the floor this chair, or none
  say <conference> <user> <hex ..>             the administrator says a message for the user

What is printed:
  attached <connection>                        the number of a connection that joined
  <connection> <hex>                           a message that the connection is sent
  said <hex>                                   what answers a message that is said for a user
  nothing                                      there is no whole message to serve
  refused <name>                               the line is refused, and the script goes on
  error <line> <name>                          the line is bad, or line 0: the configuration
  error <line> NotAJournal <place>             the file of --journal can't be read there, or the event isn't
                                               lawful; line 0 and place 0: the file's head

Exit status:
  0  at the end of the script
  1  after a fault, whose name is the last line of standard error
  2  where a word, the configuration or a line is refused
";

/// The exit status of refused words.
const REFUSED_WORDS: u8 = 2;

/// Runs the program on the words behind its name, and gives the exit status. A fault of status 1 is named
/// on `errors`.
pub fn run_words<R: Files + AllocGlobal, I: Read, W: Write + Drop, E: Write>(
    rt: &R,
    words: &[String],
    input: &mut I,
    output: &mut W,
    errors: &mut E,
) -> u8 {
    let alloc = rt.alloc();
    let mut texts = Vec::new(alloc);
    for word in words {
        if texts.push(word.as_str()).is_err() {
            return fail_by_memory(errors);
        }
    }
    match read_words(texts.as_slice()) {
        Some(Asked::Script) => run_named(alloc, input, output, errors),
        Some(Asked::Help) => print(USAGE, output, errors),
        Some(Asked::Version) => print(VERSION, output, errors),
        Some(Asked::Journal { path, saying }) => {
            let outcome = match bytes_of(fs::read(rt, path)) {
                Ok(bytes) => run_journal(alloc, bytes.as_slice(), saying, output, errors),
                Err(fault) => Err(fault),
            };
            status_of(outcome, errors)
        }
        None => refuse_words(errors),
    }
}

/// The bytes of a file, where they were read.
fn bytes_of(read: io::Result<Vec<u8>>) -> Result<Vec<u8>, RunFault> {
    match read {
        Ok(bytes) => Ok(bytes),
        Err(error) if error.kind() == ErrorKind::OutOfMemory => Err(RunFault::Memory),
        Err(_) => Err(RunFault::CannotRead),
    }
}

/// The exit status of a run, whose fault is named.
fn status_of<E: Write>(outcome: Result<(), RunFault>, errors: &mut E) -> u8 {
    match outcome {
        Ok(()) => 0,
        Err(fault) => name_fault(fault, errors),
    }
}

/// Tells how the program is called, and gives the status of refused words.
pub fn refuse_words<E: Write>(errors: &mut E) -> u8 {
    let _written = errors.write_all(USAGE.as_bytes());
    REFUSED_WORDS
}

/// Names want of memory, and gives its status.
pub fn fail_by_memory<E: Write>(errors: &mut E) -> u8 {
    name_fault(RunFault::Memory, errors)
}

/// Prints a text.
fn print<W: Write, E: Write>(text: &str, output: &mut W, errors: &mut E) -> u8 {
    match output.write_all(text.as_bytes()) {
        Ok(()) => 0,
        Err(_) => name_fault(RunFault::CannotWrite, errors),
    }
}

/// Runs the script of the input. Where its configuration is refused, `errors` is told where.
fn run_named<R: Read, W: Write + Drop, E: Write>(
    alloc: Global,
    input: &mut R,
    output: &mut W,
    errors: &mut E,
) -> u8 {
    let text = match read_all(alloc, input) {
        Ok(text) => text,
        Err(fault) => return name_fault(fault, errors),
    };
    match run_script(alloc, &mut text.as_slice(), output) {
        Ok(()) => 0,
        Err(fault) => {
            if fault == RunFault::Refused {
                tell_place(alloc, text.as_slice(), errors);
            }
            name_fault(fault, errors)
        }
    }
}

/// All bytes of the input.
fn read_all<R: Read>(alloc: Global, input: &mut R) -> Result<Vec<u8>, RunFault> {
    let mut bytes = Vec::new(alloc);
    match input.read_to_end(&mut bytes) {
        Ok(_) => Ok(bytes),
        Err(error) if error.kind() == ErrorKind::OutOfMemory => Err(RunFault::Memory),
        Err(_) => Err(RunFault::CannotRead),
    }
}

/// Names a fault on `errors`, unless its line was printed, and gives its status.
fn name_fault<E: Write>(fault: RunFault, errors: &mut E) -> u8 {
    match fault.name() {
        None => {}
        Some(name) => {
            let _written = writeln!(errors, "floorsim: {name}");
        }
    }
    fault.status()
}
