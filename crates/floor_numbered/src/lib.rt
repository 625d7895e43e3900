//! Values by number, for numbers that are given in turn: one is found at its place, without a hash.
//!
//! It stands on `indexmap` alone, and does no input or output.
#![tactic(auto)]

mod numbered;
#[cfg(test)]
mod tests;

pub use numbered::Numbered;
