//! The file in which a conference is kept: a head, which is the configuration that it opened with, and
//! then the lines of its journal, with what is kept beside it.
//!
//! It says what such a file is as text, reads one, writes what is new of a journal to a sink, and makes
//! of a file's events the conference that they led to. The file itself, its name, its sync and its lock
//! are the caller's: this crate does no input or output.
#![tactic(auto)]

mod body;
mod entry;
mod file;
mod head;
mod laws;
mod opening;
mod parsing;
mod printing;
mod reading;
#[cfg(test)]
mod tests;
mod writing;

pub use body::{BadLine, Body, BodyFault, read_body};
pub use entry::Entry;
pub use file::{File, FileFault, read_file};
pub use floor_config::{Config, ConfigFault, Text};
pub use floor_machine::{AddedUser, Event};
pub use floor_room::{Place, Room};
pub use floor_wire::Octets;
pub use head::{Head, HeadFault, NewHead, head_of, heads_of, read_head};
pub use laws::{a_file_says_one_conference, heads_read_as_their_text, what_is_written_is_read};
pub use opening::{OpenFault, Opened, Unlawful, open_kept};
pub use parsing::is_key;
pub use printing::entry_line;
pub use reading::read_entry;
pub use writing::{WriteFault, Writer};
