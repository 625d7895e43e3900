//! The sessions of users over UDP: from where a user may come, which session a datagram belongs to, and
//! when one begins (RFC 8855, sections 6.2, 8.3 and 9). It stands on floor_datagram, which has a session.
//! No socket, no thread and no clock.
#![tactic(auto)]

mod admission;
mod seat;
mod seating;
mod sessions;
mod way;

pub use admission::{Admission, Source, User, admit};
pub use seat::Seat;
pub use sessions::Sessions;
pub use way::{Standing, Way, way_of};
