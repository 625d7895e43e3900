//! The tests of the crates below the programs and the server: what no clause says, as the bytes of
//! worked messages, and each call once with memory.
//!
//! They stand in a crate above those crates, so that none of them is proved once more with its
//! tests.
#![tactic(auto)]

#[cfg(test)]
mod away;
#[cfg(test)]
mod cases;
#[cfg(test)]
mod client;
#[cfg(test)]
mod config;
#[cfg(test)]
mod console;
#[cfg(test)]
mod control;
pub mod framed;
#[cfg(test)]
mod hexadecimal;
#[cfg(test)]
mod loops;
#[cfg(test)]
mod machine;
#[cfg(test)]
mod message;
#[cfg(test)]
mod outbox;
#[cfg(test)]
mod queue;
#[cfg(test)]
mod room;
#[cfg(test)]
mod streams;
#[cfg(test)]
mod wire;
#[cfg(test)]
mod words;
