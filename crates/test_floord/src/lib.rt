//! The tests of floord: a server, its clients and its console in one process, over sockets of this machine.
//!
//! They stand in a crate of their own, so that floor_server and floor_threads are proved once.
#![tactic(auto)]

#[cfg(test)]
mod tests;
