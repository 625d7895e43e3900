//! What no clause says: the bytes of worked messages, and each call once with memory.

mod asks;
mod greatest;
mod limits;
mod payloads;
mod reasons;
mod shown;
mod tells;
mod written;
