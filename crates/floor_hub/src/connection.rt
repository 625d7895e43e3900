//! One live connection.

use floor_wire::Framer;

/// The number of an arrival over all conferences, from 1 on. None is given twice.
pub type ConnNo = u64;

/// A live connection: its conference, its number n within it, and the bytes that await the end of
/// their message.
#[derive(Debug, Drop)]
pub(crate) struct Connection {
    pub conference: u32,
    pub n: u32,
    pub held: Framer,
}

/// Whose an arrival is: its conference, and n within it.
#[derive(Clone, Copy, Debug, PartialEq, Eq)]
pub struct Place {
    pub conference: u32,
    pub n: u32,
}
