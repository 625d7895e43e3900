//! What a server of many conferences decides, without a socket or a thread: which connections are
//! served, on which ports, what follows from an event of the system, and how the server ends.
//!
//! The program's threads are thin over it: each asks it what is to be done, and does it by a call
//! of the system. RFC 8855 leaves all of it open; it is our choice.
#![tactic(auto)]

mod accepting;
mod capacity;
mod connections;
mod console;
mod ending;
mod ports;

pub use accepting::{ACCEPT_AGAIN_MILLIS, Accepting, after_accept};
pub use capacity::{Capacity, Granted, Taken};
pub use connections::{
    Begun, Connections, Gone, MAX_CONNECTIONS, Member, Open, Released, Running, Unserved,
};
pub use console::{Next, after_read};
pub use ending::{Ending, ServerFault, after_help, ended};
pub use ports::{Chosen, Listening, Ports, listening_address};
