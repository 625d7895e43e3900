//! How a server is asked to keep its conferences.

/// When the disk is asked for what was written.
#[derive(Clone, Copy, Debug, PartialEq, Eq)]
pub enum Syncing {
    /// Once a second.
    Second,
    /// In each turn of a loop, before anything of it is sent.
    Turn,
    /// Never: that is left to the system.
    Never,
}

/// What the words say of keeping.
#[derive(Debug, Drop)]
pub struct Keeping {
    /// The path of the folder.
    pub folder: String,
    /// Whether a conference is broken off that can't be kept any more. Else it goes on unkept.
    pub or_stop: bool,
    pub syncing: Syncing,
    /// The epoch that the folder has to have, where that is said. Else it is the one that it has at the start.
    pub epoch: Option<u64>,
}
