//! Command lines and the bytes that they send, sessions over memory that are cut at each byte, and
//! whole runs over TCP.

mod commands;
mod cuts;
mod inputs;
mod peer;
mod runs;
mod sessions;
