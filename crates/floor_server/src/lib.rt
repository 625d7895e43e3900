//! What the servers share, however they serve: the program's words, the check of a configuration, why a
//! file or a port can't be had, the lines of standard input and standard error, and the log's entries
//! with the names in them.
//!
//! It stands on floor_listen, which decides, on floor_console, which has the administrator's lines, and on
//! floor_log, which writes. It starts no thread but the log's, and serves no connection: that is left to
//! each server.
#![tactic(auto)]

mod alive;
mod check;
mod departure;
mod entry;
mod fault;
mod lines;
mod log;
mod reason;
mod running;
mod words;

pub use alive::keep_alive;
pub use check::{check_configuration, check_keeping};
pub use departure::{Departure, Refused};
pub use entry::{Did, Door, Entrance, Entry, Peer, UserPort};
pub use fault::{fault_of_keeping, fault_of_opening, fault_of_stop};
pub use floor_config::{Config, ConfigFault};
pub use floor_console::{BoardRefusal, Command, ConsoleFault, RoomRefusal, StopRefusal};
pub use floor_keep::{KeepFault, KeepReason, Keeping, KeptFault, Left, Syncing, Unkept};
pub use floor_listen::{Ending, ServerFault, Unserved};
pub use floor_proxy::ProxyRefusal;
pub use lines::{next_command, print, tell};
pub use log::Log;
pub use reason::{PortFault, Reason, configurations, read_text};
pub use running::{ending_of_words, log_of, tell_ending};
pub use words::{
    MAX_GRACE, MAX_LONGEST, MAX_LOOPS, Program, Task, VERSION, Words, WordsFault, read_words,
};
