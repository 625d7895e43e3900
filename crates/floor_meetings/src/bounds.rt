//! How many sockets there may be.

/// How many sockets may be there at once: of one user in a conference, and of a conference in all.
#[derive(Clone, Copy, Debug, PartialEq, Eq)]
pub struct Bounds {
    pub of_user: usize,
    pub of_conference: usize,
}
