//! The outbox of one connection: what its conference puts, its writer takes, each in a thread of
//! its own.
//!
//! A [`pair`] is a [`Sender`] and a [`Taker`] over one queue. After every step of any schedule what
//! was put is what was taken, followed by what the queue holds. Each end knows its own half of
//! that; [`rejoin`] brings both ends into one hand, which then knows the whole. Who puts and who
//! takes may wait for the other; that a thread is ever woken is not proved.
#![tactic(auto)]

mod line;
mod mark;
mod outbox;
mod rule;
mod sender;
mod taker;
mod waker;

pub use floor_machine::Parcel;
pub use mark::ClosedMark;
pub use outbox::{Outbox, pair, rejoin};
pub use sender::Sender;
pub use taker::{Taken, Taker};
pub use waker::Waker;
