//! What no clause says: the bytes of worked messages, and each call once with memory.

mod attributes;
mod framing;
mod shown;
