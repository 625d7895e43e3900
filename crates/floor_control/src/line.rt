//! What a line of a program asks for, and why it asks for nothing.

use crate::tag::Tag;
use floor_config::Text;
use floor_console::{Command, ConsoleFault};
use floor_wire::Octets;
use floor_words::HexadecimalFault;
use std::alloc::AllocError;

/// What a line asks for.
#[derive(Debug, Drop)]
pub enum Line {
    /// What the same line of the console asks for. `open .` and `journal` are never among it.
    Command(Command),
    /// To open the conferences of the configuration that follows, up to a line `.`.
    OpenHere,
    /// To tell of each conference how it stands.
    List,
    /// To tell the users of a conference.
    Users {
        conference: u32,
    },
    /// To tell the live members of a conference.
    Members {
        conference: u32,
    },
    /// To tell the floors of a conference, with the floor requests for each.
    Floors {
        conference: u32,
    },
    /// To show a member of a conference out.
    Leave {
        conference: u32,
        /// The number of the member.
        n: u32,
    },
    /// To forget a closed conference.
    Forget {
        conference: u32,
    },
    /// To tell what happened in a conference, from this place on or from the first.
    Journal {
        conference: u32,
        from: Option<u64>,
    },
    /// To tell what each event of a conference shows, from this place on or from the next.
    Watch {
        conference: u32,
        from: Option<u64>,
    },
    /// To tell it no more.
    Unwatch {
        conference: u32,
    },
    /// To keep a word beside a conference, or to take it away.
    Word {
        conference: u32,
        /// What it is kept by.
        key: Text,
        /// The word; `None` takes away what is kept by the key.
        value: Option<Octets>,
    },
    /// To tell the words that are kept beside a conference.
    Words {
        conference: u32,
    },
    /// To tell the server's counts.
    Metrics,
    /// To open no conference any more, and to stop once none is open.
    Drain,
}

/// A line with the tag that it begins with, if it does.
#[derive(Debug, Drop)]
pub struct Asking {
    /// What each line of the answer begins with.
    pub tag: Option<Tag>,
    /// What the line asks for, or why for nothing.
    pub line: Result<Line, LineFault>,
}

/// Why a line asks for nothing. The first that applies is answered.
#[derive(Clone, Copy, Debug, PartialEq, Eq)]
pub enum LineFault {
    /// No line has this name and this form, or it begins with `@` and no tag stands behind that.
    UnknownCommand,
    /// A number isn't one to ten decimal digits, or is above its type: 32 bits for a conference and a
    /// member, any ten digits for a place, 16 bits for all others; or a port is 0.
    BadNumber,
    /// What is to be kept has another character than a hexadecimal digit, or an odd count of digits.
    BadHex,
    /// Memory was refused.
    Memory,
}

impl LineFault {
    ghost use Rattle.std.specs.Prelude.{◌≡◌};
    ghost use Rattle.floor_control.specs.Names.{name_of_fault};

    /// The name of the variant. Takes no memory.
    pub fn name(&self) -> &'static str
        ensures value { result.now ≡ name_of_fault self.now }
    {
        match self {
            LineFault::UnknownCommand => "UnknownCommand",
            LineFault::BadNumber => "BadNumber",
            LineFault::BadHex => "BadHex",
            LineFault::Memory => "Memory",
        }
    }
}

impl From<AllocError> for LineFault {
    ghost use Rattle.std.specs.Prelude.{◌≡◌};
    ghost use Rattle.floor_control.specs.declared.line.LineFault.TheVariants.{Memory};

    ghost from_gives = { λ _ e. e ≡ Memory };

    fn from(_e: AllocError) -> LineFault {
        LineFault::Memory
    }
}

impl From<ConsoleFault> for LineFault {
    ghost use Rattle.std.specs.Prelude.{◌≡◌};
    ghost use Rattle.floor_control.specs.Line.{of_console_fault};

    ghost from_gives = { λ fault e. e ≡ of_console_fault fault };

    fn from(fault: ConsoleFault) -> LineFault {
        match fault {
            ConsoleFault::UnknownCommand => LineFault::UnknownCommand,
            ConsoleFault::BadNumber => LineFault::BadNumber,
            ConsoleFault::Memory => LineFault::Memory,
        }
    }
}

impl From<HexadecimalFault> for LineFault {
    ghost use Rattle.std.specs.Prelude.{◌≡◌};
    ghost use Rattle.floor_control.specs.Line.{of_hexadecimal_fault};

    ghost from_gives = { λ fault e. e ≡ of_hexadecimal_fault fault };

    fn from(fault: HexadecimalFault) -> LineFault {
        match fault {
            HexadecimalFault::BadHex => LineFault::BadHex,
            HexadecimalFault::Memory => LineFault::Memory,
        }
    }
}
