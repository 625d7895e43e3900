//! A user's session, bound to an address and port (RFC 8855, section 6.2).

use crate::admission::Source;
use floor_datagram::Session;

/// A user's session, and the address and port that it is bound to.
#[derive(Drop)]
pub struct Seat {
    pub source: Source,
    pub session: Session,
}
