//! One line of a script.

ghost use Rattle.std.specs.Prelude.{◌≡◌, ◌^◌, map};
ghost use Rattle.floor_script.specs.Line.{bytes_of, command_of, number_of, of_act, of_words, say_words, three_words_alone, three_words_or_more, two_words, without_port, Reads};

use floor_acts::{ActFault, ActLine, read_act};
use floor_hub::{Act, Octets};
use floor_words::{HexadecimalFault, read_hexadecimal, read_u16, read_u32, read_u64, words};
use std::alloc::{AllocError, Global};

/// What a line asks for.
#[derive(Debug, Drop)]
pub enum Command {
    /// A connection of a user joins a conference.
    Attach {
        conference: u32,
        user: u16,
    },
    /// Bytes come in on a connection.
    Piece {
        connection: u64,
        bytes: Octets,
    },
    /// The next message of a connection is served.
    Serve {
        connection: u64,
    },
    /// Bytes come in on a connection, and the messages that are whole are served.
    Send {
        connection: u64,
        bytes: Octets,
    },
    /// A connection leaves its conference.
    Leave {
        connection: u64,
    },
    /// From now on what a connection is sent waits.
    Slow {
        connection: u64,
    },
    /// From now on it is taken again behind each line.
    Fast {
        connection: u64,
    },
    /// The administrator acts upon a conference. A user that is added has no port.
    Admin {
        conference: u32,
        act: Act,
    },
    /// The administrator says a message for a user of a conference.
    Say {
        conference: u32,
        user: u16,
        message: Octets,
    },
}

/// Why a line is bad: the first that applies.
#[derive(Clone, Copy, Debug, PartialEq, Eq)]
pub enum LineFault {
    /// No command has this name and this form.
    UnknownCommand,
    /// A number is not one to ten decimal digits, or above its type; or a port is 0.
    BadNumber,
    /// The words of hexadecimal, joined, have another character or an odd count of digits.
    BadHex,
    /// Memory ran out.
    Memory,
}

impl LineFault {
    ghost use Rattle.std.specs.Prelude.{◌≡◌};
    ghost use Rattle.floor_script.specs.Names.{name_of_line_fault};

    /// The name that is printed. Takes no memory.
    pub fn name(&self) -> &'static str
        ensures value { result.now ≡ name_of_line_fault self.now }
    {
        match self {
            LineFault::UnknownCommand => "UnknownCommand",
            LineFault::BadNumber => "BadNumber",
            LineFault::BadHex => "BadHex",
            LineFault::Memory => "Memory",
        }
    }
}

impl From<AllocError> for LineFault {
    ghost use Rattle.std.specs.Prelude.{◌≡◌};
    ghost use Rattle.floor_script.specs.declared.line.LineFault.TheVariants.{Memory};

    ghost from_gives = { λ _ e. e ≡ Memory };

    fn from(_e: AllocError) -> LineFault {
        LineFault::Memory
    }
}

impl From<HexadecimalFault> for LineFault {
    ghost use Rattle.std.specs.Prelude.{◌≡◌};
    ghost use Rattle.floor_script.specs.Line.{of_hexadecimal_fault};

    ghost from_gives = { λ fault e. e ≡ of_hexadecimal_fault fault };

    fn from(fault: HexadecimalFault) -> LineFault {
        match fault {
            HexadecimalFault::BadHex => LineFault::BadHex,
            HexadecimalFault::Memory => LineFault::Memory,
        }
    }
}

impl From<ActFault> for LineFault {
    ghost use Rattle.std.specs.Prelude.{◌≡◌};
    ghost use Rattle.floor_script.specs.Line.{of_act_fault};

    ghost from_gives = { λ fault e. e ≡ of_act_fault fault };

    fn from(fault: ActFault) -> LineFault {
        match fault {
            ActFault::UnknownCommand => LineFault::UnknownCommand,
            ActFault::BadNumber => LineFault::BadNumber,
            ActFault::Memory => LineFault::Memory,
        }
    }
}

/// The command of a line that is neither empty nor a comment.
///
/// Words are parted by spaces. Numbers are one to ten decimal digits; the words of hexadecimal are
/// joined, and spell bytes. A line that begins with the name of an act has one of that act's forms.
/// `UnknownCommand` is told where no command has the name and the form; else the fault of the first
/// word, from the left, that is bad: `BadNumber`, or `BadHex` of the bytes.
pub fn parse_line(alloc: Global, line: &str) -> Result<Command, LineFault>
    ensures value { Reads (command_of line.now) result }
{
    match read_act(alloc, line)? {
        Some(line) => Ok(of_act(line)),
        None => {
            let words = words(alloc, line)?;
            of_words(alloc, &words)
        }
    }
}

/// The command of an act. A port is no part of a conference, and nobody listens on one here.
fn of_act(line: ActLine) -> Command
    ensures { result ≡ of_act line }
{
    Command::Admin {
        conference: line.conference,
        act: without_port(line.act),
    }
}

fn without_port(act: Act) -> Act
    ensures { result ≡ without_port act }
{
    match act {
        Act::AddUser(user) => Act::AddUser(user.without_port()),
        act => act,
    }
}

/// The command of words of which the first is no act's name.
fn of_words(alloc: Global, words: &[&str]) -> Result<Command, LineFault>
    ensures { Reads (of_words (map (λ w. w.now) words.now)) result }
{
    match words {
        [name, word] => of_two_words(name, word),
        [name, word, rest @ ..] => of_three_or_more(alloc, name, word, rest),
        _ => Err(LineFault::UnknownCommand),
    }
}

fn of_two_words(name: &str, word: &str) -> Result<Command, LineFault>
    ensures { result ≡ two_words name.now word.now }
{
    if name == "serve" {
        let connection = connection_of(word)?;
        return Ok(Command::Serve { connection });
    }
    if name == "leave" {
        let connection = connection_of(word)?;
        return Ok(Command::Leave { connection });
    }
    if name == "slow" {
        let connection = connection_of(word)?;
        return Ok(Command::Slow { connection });
    }
    if name == "fast" {
        let connection = connection_of(word)?;
        return Ok(Command::Fast { connection });
    }
    Err(LineFault::UnknownCommand)
}

fn of_three_or_more(
    alloc: Global,
    name: &str,
    word: &str,
    rest: &[&str],
) -> Result<Command, LineFault>
    ensures { Reads (three_words_or_more name.now word.now (map (λ w. w.now) rest.now)) result }
{
    if name == "piece" {
        let connection = connection_of(word)?;
        let bytes = bytes_of(alloc, rest)?;
        return Ok(Command::Piece { connection, bytes });
    }
    if name == "send" {
        let connection = connection_of(word)?;
        let bytes = bytes_of(alloc, rest)?;
        return Ok(Command::Send { connection, bytes });
    }
    if name == "say" {
        return of_say(alloc, word, rest);
    }
    of_three(name, word, rest)
}

/// The line of three words, where there are no more.
fn of_three(name: &str, conference: &str, rest: &[&str]) -> Result<Command, LineFault>
    ensures { Reads (three_words_alone name.now conference.now (map (λ w. w.now) rest.now))
        result }
{
    match rest {
        [user] if name == "attach" => {
            let conference = conference_of(conference)?;
            let user = user_of(user)?;
            Ok(Command::Attach { conference, user })
        }
        _ => Err(LineFault::UnknownCommand),
    }
}

/// A message that is said, by the words behind the name.
fn of_say(alloc: Global, conference: &str, rest: &[&str]) -> Result<Command, LineFault>
    ensures { Reads (say_words conference.now (map (λ w. w.now) rest.now)) result }
{
    match rest {
        [] | [_] => Err(LineFault::UnknownCommand),
        [user, hex @ ..] => {
            let conference = conference_of(conference)?;
            let user = user_of(user)?;
            let message = bytes_of(alloc, hex)?;
            Ok(Command::Say {
                conference,
                user,
                message,
            })
        }
    }
}

fn connection_of(word: &str) -> Result<u64, LineFault>
    ensures { result ≡ number_of (10 ^ 10) word.now }
{
    match read_u64(word) {
        Some(connection) => Ok(connection),
        None => Err(LineFault::BadNumber),
    }
}

fn conference_of(word: &str) -> Result<u32, LineFault>
    ensures { result ≡ number_of (2 ^ 32) word.now }
{
    match read_u32(word) {
        Some(conference) => Ok(conference),
        None => Err(LineFault::BadNumber),
    }
}

fn user_of(word: &str) -> Result<u16, LineFault>
    ensures { result ≡ number_of (2 ^ 16) word.now }
{
    match read_u16(word) {
        Some(number) => Ok(number),
        None => Err(LineFault::BadNumber),
    }
}

fn bytes_of(alloc: Global, hex: &[&str]) -> Result<Octets, LineFault>
    ensures { Reads (bytes_of (map (λ w. w.now) hex.now)) result }
{
    let bytes = read_hexadecimal(alloc, hex)?;
    Ok(Octets::from_vec(bytes))
}
