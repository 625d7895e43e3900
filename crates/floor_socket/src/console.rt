//! Standard input and output among the sockets.
//!
//! Where the system tells when one of them is ready it is read or written once then; where it doesn't, as of a
//! file, that is always so.

ghost use Rattle.std.specs.Prelude.{◌≡◌, ◌≤◌, ℕ, MatchOption, false, length};
ghost use Rattle.floor_socket.specs.declared.client.Moved.TheVariants.{Bytes};

use crate::client::{Moved, Seat, read_some, write_some};
use crate::desk::{CONSOLE, Desk};
use floor_server::tell;
use mio::unix::SourceFd;
use mio::{Interest, Registry, Token};
use std::fs::File;
use std::io::{Read, Write};
use std::net::Net;
use std::os::fd::RawFd;
use std::rt::Files;
use std::sync::Wait;
use std::thread::Threads;
use std::time::Clock;

/// How many bytes are written at a time: no more than a pipe takes once it is ready.
const MAX_WRITE: usize = 4_096;

/// The descriptors of standard input and output.
#[derive(Clone, Copy, Debug)]
pub struct Descriptors {
    pub input: RawFd,
    pub output: RawFd,
}

/// One of them.
#[derive(Drop)]
pub struct Standard {
    descriptor: RawFd,
    token: Token,
    interest: Interest,
    /// Whether the system tells when it is ready.
    is_told: bool,
    /// Whether it is ready, as far as is known.
    pub is_ready: bool,
}

impl Standard {
    /// Takes one in, whose reading or writing it is told of by a token.
    pub fn new(
        registry: &Registry,
        descriptor: RawFd,
        token: Token,
        interest: Interest,
    ) -> Standard {
        let is_told = registry
            .register(&mut SourceFd(&descriptor), token, interest)
            .is_ok();
        Standard {
            descriptor,
            token,
            interest,
            is_told,
            is_ready: false,
        }
    }

    /// Asks whether it is ready, and is told once it is.
    pub fn await_ready(&mut self, registry: &Registry) {
        if self.is_told {
            let descriptor = self.descriptor;
            self.is_told = registry
                .reregister(&mut SourceFd(&descriptor), self.token, self.interest)
                .is_ok();
        }
        if !self.is_told {
            self.is_ready = true;
        }
    }

    /// Is told of it no more.
    pub fn leave(&self, registry: &Registry) {
        if self.is_told {
            let descriptor = self.descriptor;
            let _left = registry.deregister(&mut SourceFd(&descriptor));
        }
    }
}

/// Reads once. The end of the input, and a failure, end what is read alone.
fn read_once<I: Read>(seat: &mut Seat, input: &mut I, buffer: &mut Vec<u8>) {
    match read_some(input, buffer.as_mut_slice()) {
        Moved::Bytes(count) => {
            let bytes = buffer.as_slice().get(..count).unwrap_or(&[]);
            if seat.lines.take_in(bytes).is_err() {
                seat.lines.end_input();
            }
        }
        Moved::Nothing => {}
        Moved::End | Moved::Failure => seat.lines.end_input(),
    }
}

/// Writes once. A failure ends the console.
pub fn write_once<O: Write>(seat: &mut Seat, output: &mut O) {
    match write_piece(output, seat.lines.writing()) {
        Moved::Bytes(count) => {
            seat.lines.wrote(count);
            seat.has_failed = seat.has_failed || output.flush().is_err();
        }
        Moved::Nothing => {}
        Moved::End | Moved::Failure => seat.has_failed = true,
    }
}

/// Writes some of these bytes.
fn write_piece<O: Write>(output: &mut O, bytes: &[u8]) -> Moved
    ensures within { (count : ℕ) → result ≡ Bytes count → count ≤ length bytes.now }
{
    let len = bytes.len().min(MAX_WRITE);
    write_some(output, &bytes[..len])
}

impl<R> Desk<R>
where
    R: Net
        + Files<File = File>
        + AllocGlobal
        + Clock
        + Threads
        + Wait
        + Copy
        + Drop
        + Send
        + 'static,
{
    /// Asks whether standard input has something to read, where there is room for it, and whether standard output
    /// takes something, where there is something to write.
    pub fn await_console(&mut self) {
        let Some(seat) = self.clients.get(&CONSOLE) else {
            return;
        };
        let registry = self.poll.registry();
        if let Some(input) = &mut self.input {
            if !input.is_ready && 0 < seat.lines.room() {
                input.await_ready(registry);
            }
        }
        if let Some(output) = &mut self.output {
            if !output.is_ready && !seat.lines.writing().is_empty() {
                output.await_ready(registry);
            }
        }
    }

    /// Whether the console is to be read or written.
    pub fn is_console_ready(&self) -> bool {
        match self.clients.get(&CONSOLE) {
            Some(seat) => {
                (is_ready(&self.input) && 0 < seat.lines.room())
                    || (is_ready(&self.output) && !seat.lines.writing().is_empty())
            }
            None => false,
        }
    }

    /// Reads from the console and writes to it, once each.
    pub fn serve_console<I: Read, O: Write, E: Write>(
        &mut self,
        input: &mut I,
        output: &mut O,
        errors: &mut E,
    ) {
        tell(errors, self.told.take());
        let Some(seat) = self.clients.get_mut(&CONSOLE) else {
            return;
        };
        if take_ready(&mut self.input, 0 < seat.lines.room()) {
            read_once(seat, input, &mut self.buffer);
            self.queue(CONSOLE);
        }
        let Some(seat) = self.clients.get_mut(&CONSOLE) else {
            return;
        };
        if take_ready(&mut self.output, !seat.lines.writing().is_empty()) {
            write_once(seat, output);
            self.queue(CONSOLE);
        }
    }

    /// Neither reads nor writes the console any more.
    pub fn leave_console(&mut self) {
        let registry = self.poll.registry();
        if let Some(input) = self.input.take() {
            input.leave(registry);
        }
        if let Some(output) = self.output.take() {
            output.leave(registry);
        }
    }
}

/// Whether a standard stream is ready.
pub fn is_ready(standard: &Option<Standard>) -> bool
    ensures value { MatchOption standard.now (result ≡ false)
        (λ standard. result ≡ standard.is_ready) }
{
    match standard {
        Some(standard) => standard.is_ready,
        None => false,
    }
}

/// Whether a standard stream is ready and wanted; it isn't ready any more then.
fn take_ready(standard: &mut Option<Standard>, is_wanted: bool) -> bool {
    match standard {
        Some(standard) if is_wanted && standard.is_ready => {
            standard.is_ready = false;
            true
        }
        _ => false,
    }
}
