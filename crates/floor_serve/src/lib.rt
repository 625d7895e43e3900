//! The threads of the server: conferences behind locks, desks at which members are served, and the
//! loops of a connection.
//!
//! A [`Booth`] is a conference with its journal and the senders of its members.
//! Threads share it behind a lock of its own, by a [`Desk`]; a [`Registry`] has the booths of all
//! conferences. One lock hold is one event. [`read_loop`] submits the messages of a stream, and
//! [`write_loop`] writes the parcels of a member; [`finish`] compares what every [`Seat`] recorded
//! with the journals. Sockets and clocks are left to the program.
#![tactic(auto)]

mod booth;
mod desk;
mod end;
mod fault;
mod gate;
mod marked;
mod member_taker;
mod reading;
mod registry;
mod seat;
mod senders;
mod table;
#[cfg(test)]
mod tests;
mod wakers;
mod writing;

pub use booth::Booth;
pub use desk::Desk;
pub use end::finish::{Report, finish};
pub use fault::{DeskRefusal, FinishFault, OpenRefusal, ReadFault, WriteFault};
pub use floor_outbox::{ClosedMark, Outbox, Parcel, Sender, Taken, Taker};
pub use floor_room::{
    Act, AddedUser, Config, Event, Floor, Frame, Phase, Place, Refusal, RoomRefusal, Said, Status,
    User,
};
pub use floor_wire::Octets;
pub use gate::{FreePass, Gate};
pub use marked::{Marked, Sink, Source};
pub use member_taker::MemberTaker;
pub use reading::{MAX_TURNS, ReadEnd, read_loop, read_turns};
pub use registry::Registry;
pub use seat::{Receipt, Seat, Sent};
pub use table::Table;
pub use wakers::Wakers;
pub use writing::{Written, write_loop, write_parcel};
