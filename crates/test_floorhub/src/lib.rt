//! The tests of floorhub: a server, its clients and its console in one process, over sockets of this machine.
#![tactic(auto)]

#[cfg(test)]
mod tests;
