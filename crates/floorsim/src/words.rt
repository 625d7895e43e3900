//! What the program's words ask for.

use floor_words::read_u32;

/// What the words ask for.
#[derive(Clone, Copy, Debug, PartialEq, Eq)]
pub enum Asked<'a> {
    /// None: the script of standard input.
    Script,
    /// `--help`
    Help,
    /// `--version`
    Version,
    /// `--journal <file> ..`: what a journal says.
    Journal {
        /// The path of the file.
        path: &'a str,
        /// What of it.
        saying: Saying,
    },
}

/// What of a journal is said.
#[derive(Clone, Copy, Debug, PartialEq, Eq)]
pub enum Saying {
    /// `[<n>] [--text]`: what the members were told, or one of them.
    Told {
        /// The number of the member.
        member: Option<u32>,
        /// As text, not in hexadecimal.
        as_text: bool,
    },
    /// `--status [--at <place>]`: how the conference stood.
    Standing {
        /// Behind the event at this place; behind the last where none is said.
        at: Option<u32>,
    },
}

/// What words ask for; `None` where they are none of those that the program takes.
pub fn read_words<'a>(words: &[&'a str]) -> Option<Asked<'a>> {
    match words {
        [] => Some(Asked::Script),
        ["--help"] => Some(Asked::Help),
        ["--version"] => Some(Asked::Version),
        ["--journal", path, rest @ ..] => {
            let saying = saying_of(rest)?;
            Some(Asked::Journal { path, saying })
        }
        _ => None,
    }
}

/// What is said of a journal, by the words behind its file.
pub fn saying_of(words: &[&str]) -> Option<Saying> {
    match words {
        ["--status"] => Some(Saying::Standing { at: None }),
        ["--status", "--at", place] => {
            let at = read_u32(place)?;
            Some(Saying::Standing { at: Some(at) })
        }
        [] => Some(told(None, false)),
        ["--text"] => Some(told(None, true)),
        [member] => Some(told(Some(read_u32(member)?), false)),
        [member, "--text"] => Some(told(Some(read_u32(member)?), true)),
        _ => None,
    }
}

fn told(member: Option<u32>, as_text: bool) -> Saying {
    Saying::Told { member, as_text }
}
