//! One conference as it is kept: its machine, its journal, and what waits for each of its members.
//!
//! A `Ledger` is a machine with its journal, and hands the parcels of each event to its caller. A
//! `Room` is a ledger with a queue for each member. It does no input or output, and waits for
//! nothing.
#![tactic(auto)]

mod effects;
mod journal;
mod ledger;
mod outbox;
mod refusal;
mod replaying;
mod room;
mod said;
mod status;

pub use effects::Effects;
pub use floor_machine::{
    Act, AddedUser, Config, Event, Floor, Frame, Info, Parcel, Refusal, SharedFrame, SharedInfo,
    User,
};
pub use journal::{Place, add_end, add_lines, journal_text};
pub use ledger::{Called, Ledger};
pub use outbox::NoMember;
pub use refusal::RoomRefusal;
pub use replaying::{ReplayFault, replay};
pub use room::Room;
pub use said::Said;
pub use status::{Phase, Status};
