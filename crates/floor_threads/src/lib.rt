//! The server: conferences of a configuration over TCP, a port for each user, two threads for each
//! connection, and an administrator's lines.
//!
//! [`run`] does what a program's words ask for. It stands on floor_listen, which decides, on floor_serve,
//! which has the threads' locks and loops, and on floor_server, which has the words, the check and the log of
//! any server: here are the calls of the system. Standard input and output, and where the log goes, are the
//! caller's readers and writers.
#![tactic(auto)]

mod binding;
mod connection;
mod connections;
mod departure;
mod fault;
mod lines;
mod port;
mod running;
mod server;
mod socket;

pub use binding::{Binding, Shared};
pub use connections::Connections;
pub use floor_listen::{Begun, Ending, Gone, Released, Unserved};
pub use floor_serve::{FreePass, Gate, Registry, Seat};
pub use floor_server::{Entry, Log, UserPort};
pub use port::accept_all;
pub use running::{run, run_with, serve, tell};
pub use socket::Socket;
