//! What is asked at the control socket.

ghost use Rattle.std.specs.Prelude.{◌≡◌, ◌++◌, OnOk, string_bytes};
ghost use Rattle.floor_follow.specs.Question.{question_line};

use std::alloc::AllocError;
use std::fmt::Write;

/// What is asked at the control socket.
#[derive(Clone, Copy, Debug, PartialEq, Eq)]
pub enum Question {
    /// The conferences.
    List,
    /// The floors of a conference, with the floor requests for each.
    Floors(u32),
    /// Its users.
    Users(u32),
    /// Its live members.
    Members(u32),
    /// The words that are kept beside it.
    Words(u32),
    /// That its events be told from a place on.
    Watch { conference: u32, from: u64 },
}

impl Question {
    /// Adds its line, with the line feed. After an error the text may have a part of it.
    pub fn add_line(self, out: &mut String) -> Result<(), AllocError>
        ensures out { OnOk result (string_bytes out.new
            ≡ string_bytes out.old ++ question_line self) }
    {
        match self {
            Question::List => out.push_str("list\n"),
            Question::Floors(c) => write!(out, "floors {c}\n"),
            Question::Users(c) => write!(out, "users {c}\n"),
            Question::Members(c) => write!(out, "members {c}\n"),
            Question::Words(c) => write!(out, "words {c}\n"),
            Question::Watch { conference, from } => write!(out, "watch {conference} from {from}\n"),
        }
    }
}
