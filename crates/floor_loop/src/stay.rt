//! A member that is away.

/// A member that is away: whose it is, since when, and until when it stays.
#[derive(Clone, Copy, Debug)]
pub(crate) struct Stay {
    pub user: u16,
    pub since: u64,
    pub until: u64,
}

/// What becomes of a member whose connection was lost.
#[derive(Clone, Copy, Debug)]
pub(crate) enum Lost {
    /// It stays, away.
    Stays,
    /// It leaves: it may not stay.
    Leaves,
    /// It leaves, since memory was refused for its stay.
    Memory,
}
