//! Runs over real sockets: a client is a socket, the administrator's lines come through one too.

mod changes;
mod checks;
mod clients;
mod connections;
mod console;
mod endings;
mod faults;
mod load;
mod logged;
mod ports;
mod replayed;
mod sinks;
mod slow;
mod sockets;
mod words;
