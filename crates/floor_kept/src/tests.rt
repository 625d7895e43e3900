//! What no clause says: files by hand, sinks that fail, and each call once.

mod files;
mod lines;
mod sinks;
