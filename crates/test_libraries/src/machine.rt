//! Whole runs of one conference against worked bytes, and messages at their greatest size.

mod limits;
mod runs;
