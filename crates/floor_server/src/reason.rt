//! Why a file or a port can't be had, and the line that a person is told of it.

ghost use Rattle.std.specs.Prelude.{◌≡◌, IfOk, Ok};
ghost use Rattle.std.specs.IoError.{error_kind};
ghost use Rattle.floor_config.specs.Reading.{reading};
ghost use Rattle.floor_server.specs.Faults.{refusal_of_configuration, refusal_of_port, refusal_of_reading};

use crate::entry::{Door, Entrance};
use floor_config::{Config, ConfigFault, read_configs};
use floor_console::BoardRefusal;
use floor_diagnosis::diagnose;
use std::alloc::{AllocError, Global};
use std::io::ErrorKind;
use std::rt::Files;
use std::{fs, io};

/// Why something isn't had, and what a person is told of it in one line, where memory could be had for
/// that.
#[derive(Debug, Drop)]
pub struct Reason {
    pub refusal: BoardRefusal,
    pub line: Option<String>,
}

/// Why a port isn't listened on.
#[derive(Debug, Drop)]
pub enum PortFault {
    /// The system refuses it.
    System(io::Error),
    /// No thread can be had for it.
    NoThread,
    /// Memory was refused.
    Memory,
}

impl PortFault {
    /// What the administrator is answered. Takes no memory.
    pub fn refusal(&self) -> BoardRefusal
        ensures value { result ≡ refusal_of_port self.now }
    {
        match self {
            PortFault::System(error) => match error.kind() {
                ErrorKind::OutOfMemory => BoardRefusal::Memory,
                _ => BoardRefusal::CannotListen,
            },
            PortFault::NoThread => BoardRefusal::CannotListen,
            PortFault::Memory => BoardRefusal::Memory,
        }
    }

    /// Why the port of a user isn't listened on.
    pub fn reason(&self, alloc: Global, conference: u32, user: u16, port: u16) -> Reason {
        let place = format!(in alloc; "port {port} of user {user} of conference {conference}");
        self.of_place(alloc, place)
    }

    /// Why a door isn't listened on.
    pub fn at_door(&self, alloc: Global, door: Door) -> Reason {
        let word = match door.entry {
            Entrance::ByCertificate => "--door",
            Entrance::ById => "--door-by-id",
            Entrance::Health => "--health",
        };
        self.of_place(alloc, format!(in alloc; "port {} of {word}", door.port))
    }

    /// Why the port isn't listened on at which is answered by HTTP.
    pub fn at_http(&self, alloc: Global, port: u16) -> Reason {
        self.of_place(alloc, format!(in alloc; "port {port} of --http"))
    }

    /// Why the socket isn't listened on that a word asks for.
    pub fn at_socket(&self, alloc: Global, word: &str, path: &str) -> Reason {
        self.of_place(alloc, format!(in alloc; "socket {path} of {word}"))
    }

    fn of_place(&self, alloc: Global, place: Result<String, AllocError>) -> Reason {
        Reason {
            refusal: self.refusal(),
            line: self.line(alloc, place).ok(),
        }
    }

    fn line(&self, alloc: Global, place: Result<String, AllocError>) -> Result<String, AllocError> {
        let place = place?;
        let place = place.as_str();
        match self {
            PortFault::System(error) => format!(in alloc; "{place}: {error}"),
            PortFault::NoThread => format!(in alloc; "{place}: no thread can be had for it"),
            PortFault::Memory => format!(in alloc; "{place}: no memory can be had for it"),
        }
    }
}

impl From<AllocError> for PortFault {
    fn from(_e: AllocError) -> PortFault {
        PortFault::Memory
    }
}

/// The text of a configuration's file.
pub fn read_text<R: Files + AllocGlobal>(
    rt: &R,
    alloc: Global,
    path: &str,
) -> Result<String, Reason> {
    match fs::read_to_string(rt, path) {
        Ok(text) => Ok(text),
        Err(error) => Err(Reason {
            refusal: refusal_of_reading(&error),
            line: format!(in alloc; "{path}: {error}").ok(),
        }),
    }
}

/// What is answered where a file can't be read.
fn refusal_of_reading(error: &io::Error) -> BoardRefusal
    ensures value { result ≡ refusal_of_reading (error_kind error.now) }
{
    match error.kind() {
        ErrorKind::OutOfMemory => BoardRefusal::Memory,
        _ => BoardRefusal::CannotRead,
    }
}

/// The configurations of a file's text.
pub fn configurations(alloc: Global, path: &str, text: &str) -> Result<Vec<Config>, Reason>
    ensures value { IfOk result (λ configs. reading text.now ≡ Ok configs.items) }
{
    match read_configs(alloc, text) {
        Ok(configs) => Ok(configs),
        Err(fault) => Err(Reason {
            refusal: refusal_of_configuration(fault),
            line: place_of(alloc, path, text),
        }),
    }
}

/// What is answered where a configuration is refused.
fn refusal_of_configuration(fault: ConfigFault) -> BoardRefusal
    ensures value { result ≡ refusal_of_configuration fault }
{
    match fault {
        ConfigFault::Memory => BoardRefusal::Memory,
        _ => BoardRefusal::ByConfiguration(fault),
    }
}

/// Where a text has its fault, as a person is told.
fn place_of(alloc: Global, path: &str, text: &str) -> Option<String> {
    let found = diagnose(alloc, text).ok()??;
    format!(in alloc; "{path}: {}", found.line.as_str()).ok()
}
