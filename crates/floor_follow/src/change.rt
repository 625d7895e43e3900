//! What a live line changes in a picture.

use crate::fact::Facts;

/// What facts are about.
#[derive(Clone, Copy, Debug, PartialEq, Eq)]
pub enum Subject {
    /// All users.
    Users,
    /// All floors, and all floor requests.
    Floors,
    /// All members.
    Members,
    /// All words.
    Words,
    /// What a conference has while it runs: its members and floor requests.
    Live,
    /// The user with this id.
    User(u16),
    /// The floor with this id.
    Floor(u16),
    /// The floor request with this number, at each of its floors.
    Request(u16),
    /// The member with this number.
    Member(u32),
}

/// What a live line changes in the picture of its conference.
#[derive(Drop)]
pub enum Change {
    /// Of this subject holds what these facts say, and nothing else.
    About(Subject, Facts),
    /// A floor has this chair, or none.
    Chair { floor: u16, chair: Option<u16> },
    /// The conference was closed.
    Closed,
    /// The conference was broken off.
    Broken,
    /// The picture stays as it is: a place ends, or a member is told nothing more.
    Nothing,
}
