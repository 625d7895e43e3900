//! The administrator's lines: what a line asks for, and the text that answers it.
//!
//! What does the work is a `Board`: the conferences of a running server, or one conference of a
//! test. The crate reads no input and prints nothing. The lines and their answers are our choice:
//! RFC 8855 leaves open how a conference is administered.
#![tactic(auto)]

mod answer;
mod board;
mod command;
mod console;
mod laws;

pub use board::{Board, BoardRefusal, StopRefusal, Stopped};
pub use command::{Command, ConsoleFault, parse_line};
pub use console::{run_command, run_line};
pub use floor_config::{ConfigFault, Floor, Text, User};
pub use floor_room::{Phase, Refusal, RoomRefusal, Status};
pub use laws::a_printed_command_is_read_back;
