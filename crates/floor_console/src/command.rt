//! What a line of the console asks for.

ghost use Rattle.std.specs.Prelude.{◌≡◌, ◌^◌, map};
ghost use Rattle.floor_console.specs.Command.{command_of, number_of, of_act, of_words, one_word, two_words, Reads};

use floor_acts::{Act, ActFault, ActLine, Floor, User, read_act};
use floor_config::Text;
use floor_words::{read_u32, words};
use std::alloc::{AllocError, Global};

/// What a line asks for.
#[derive(Debug, Drop)]
pub enum Command {
    /// Nothing: the line is empty.
    Empty,
    /// To open the conferences of the configuration that a file has.
    Open {
        path: Text,
    },
    /// To close a conference.
    Close {
        conference: u32,
    },
    /// To revoke a floor request.
    Revoke {
        conference: u32,
        request: u16,
    },
    /// To add a user to a conference, with the port that leads to it, if one is given.
    AddUser {
        conference: u32,
        user: User,
    },
    /// To add a floor to a conference.
    AddFloor {
        conference: u32,
        floor: Floor,
    },
    /// To give a floor of a conference this chair, or none.
    SetChair {
        conference: u32,
        floor: u16,
        chair: Option<u16>,
    },
    /// To tell how a conference stands.
    Status {
        conference: u32,
    },
    /// To tell what happened in a conference.
    Journal {
        conference: u32,
    },
    /// To stop the server.
    Stop,
}

/// Why a line is no command. The first that applies is answered.
#[derive(Clone, Copy, Debug, PartialEq, Eq)]
pub enum ConsoleFault {
    /// No command has this name and this form.
    UnknownCommand,
    /// A number isn't one to ten decimal digits, or is above its type: 32 bits for a conference, 16
    /// for all others; or a port is 0.
    BadNumber,
    /// Memory was refused.
    Memory,
}

impl ConsoleFault {
    ghost use Rattle.floor_console.specs.Names.{name_of_fault};

    /// The name of the variant. Takes no memory.
    pub fn name(&self) -> &'static str
        ensures value { result.now ≡ name_of_fault self.now }
    {
        match self {
            ConsoleFault::UnknownCommand => "UnknownCommand",
            ConsoleFault::BadNumber => "BadNumber",
            ConsoleFault::Memory => "Memory",
        }
    }
}

impl From<AllocError> for ConsoleFault {
    ghost use Rattle.std.specs.Prelude.{◌≡◌};
    ghost use Rattle.floor_console.specs.declared.command.ConsoleFault.TheVariants.{Memory};

    ghost from_gives = { λ _ e. e ≡ Memory };

    fn from(_e: AllocError) -> ConsoleFault {
        ConsoleFault::Memory
    }
}

impl From<ActFault> for ConsoleFault {
    ghost use Rattle.std.specs.Prelude.{◌≡◌};
    ghost use Rattle.floor_console.specs.Command.{of_act_fault};

    ghost from_gives = { λ fault e. e ≡ of_act_fault fault };

    fn from(fault: ActFault) -> ConsoleFault {
        match fault {
            ActFault::UnknownCommand => ConsoleFault::UnknownCommand,
            ActFault::BadNumber => ConsoleFault::BadNumber,
            ActFault::Memory => ConsoleFault::Memory,
        }
    }
}

/// The command of a line, which has no line feed.
///
/// Words are parted by spaces, and numbers are one to ten decimal digits. A line that begins with the
/// name of an act has one of that act's forms. A line of spaces alone is an `UnknownCommand`.
pub fn parse_line(alloc: Global, line: &str) -> Result<Command, ConsoleFault>
    ensures value { Reads (command_of line.now) result }
{
    if line.is_empty() {
        return Ok(Command::Empty);
    }
    match read_act(alloc, line)? {
        Some(line) => Ok(of_act(line)),
        None => {
            let words = words(alloc, line)?;
            of_words(alloc, &words)
        }
    }
}

/// The command of an act.
fn of_act(line: ActLine) -> Command
    ensures { result ≡ of_act line }
{
    let ActLine { conference, act } = line;
    match act {
        Act::Close => Command::Close { conference },
        Act::Revoke(request) => Command::Revoke {
            conference,
            request,
        },
        Act::AddUser(user) => Command::AddUser {
            conference,
            user: user.into_user(),
        },
        Act::AddFloor(floor) => Command::AddFloor { conference, floor },
        Act::SetChair(floor, chair) => Command::SetChair {
            conference,
            floor,
            chair,
        },
    }
}

/// The command of words of which the first is no act's name.
fn of_words(alloc: Global, words: &[&str]) -> Result<Command, ConsoleFault>
    ensures { Reads (of_words (map (λ w. w.now) words.now)) result }
{
    match words {
        [name] => of_one_word(name),
        [name, word] => of_two_words(alloc, name, word),
        _ => Err(ConsoleFault::UnknownCommand),
    }
}

fn of_one_word(name: &str) -> Result<Command, ConsoleFault>
    ensures { Reads (one_word name.now) result }
{
    if name == "stop" {
        Ok(Command::Stop)
    } else {
        Err(ConsoleFault::UnknownCommand)
    }
}

fn of_two_words(alloc: Global, name: &str, word: &str) -> Result<Command, ConsoleFault>
    ensures { Reads (two_words name.now word.now) result }
{
    if name == "open" {
        let path = String::from_str(alloc, word)?;
        return Ok(Command::Open {
            path: Text::from_string(path),
        });
    }
    if name == "status" {
        let conference = conference_of(word)?;
        return Ok(Command::Status { conference });
    }
    if name == "journal" {
        let conference = conference_of(word)?;
        return Ok(Command::Journal { conference });
    }
    Err(ConsoleFault::UnknownCommand)
}

fn conference_of(word: &str) -> Result<u32, ConsoleFault>
    ensures { result ≡ number_of (2 ^ 32) word.now }
{
    match read_u32(word) {
        Some(conference) => Ok(conference),
        None => Err(ConsoleFault::BadNumber),
    }
}
