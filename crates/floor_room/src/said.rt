//! What a message came to that the administrator said for a user.

use crate::journal::Place;
use floor_machine::SharedFrame;

/// A message that was said for a user, and taken.
#[derive(Debug, Drop)]
pub struct Said {
    /// Its place in the journal.
    pub place: Place,
    /// What answers it: no member is told that.
    pub reply: Option<SharedFrame>,
}
