//! The members of a conference: the connections of its participants (RFC 8855, section 9.1 leaves
//! their binding to users outside the protocol).

use floor_wire::Numbers;

/// A connection that joined the conference.
#[derive(Debug, Drop)]
pub struct Member {
    /// Its number: joins count from 1, and no number is given twice.
    pub n: u32,
    /// The user whose connection it is.
    pub user: u16,
    /// The floors that it watches, in the order of its last FloorQuery (section 12.1).
    pub watched: Numbers,
    /// Whether it hasn't left.
    pub is_live: bool,
    /// How many messages were told to it and not acknowledged yet: at most 1,024.
    pub backlog: u32,
    /// Whether it came to be further behind than that: it is told nothing more.
    pub is_cut: bool,
}
