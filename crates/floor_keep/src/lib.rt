//! The folder in which a server keeps its conferences, a file for each.
//!
//! [`lock_folder`] holds it for this process, [`list_folder`] says what is in it, and [`find_kept`] what one
//! of its files says; [`begin_file`] makes the file of a conference that opens, and [`take_up`] opens that of one
//! that goes on. A [`Keeper`] has the files of a loop's conferences: what happened is appended to them before
//! anybody hears of it. What the lines of a file are floor_kept says. Everything here that reads or writes a file
//! takes the leave to do so as its first argument; it waits for nobody, and starts no thread.
#![tactic(auto)]

mod beginning;
mod checking;
mod disk;
mod ending;
mod epoch;
mod fault;
mod file;
mod finding;
mod folder;
mod found;
mod keeper;
mod keeping;
mod kept;
mod listing;
mod naming;
#[cfg(test)]
mod tests;

pub use beginning::begin_file;
pub use checking::{CheckFault, KeptPort, check_kept};
pub use disk::Disk;
pub use ending::{Left, Unkept, close_found};
pub use fault::{KeepFault, KeepReason};
pub use finding::{FindFault, find_kept, open_file, take_up};
pub use floor_config::{Config, Text};
pub use floor_kept::{Entry, HeadFault, NewHead, heads_of};
pub use floor_machine::Event;
pub use floor_room::Place;
pub use floor_wire::Octets;
pub use folder::{Folder, Lock, lock_folder, name_folder};
pub use found::{Finish, Found, FoundFault, NotAJournal, Note, Standing, found_of};
pub use keeper::Keeper;
pub use keeping::{Keeping, Syncing};
pub use kept::{Kept, KeptFault, NoteFault};
pub use listing::{Listing, list_folder};
pub use naming::{Named, kind_of_name};
