//! What a server of a hub decides: what comes from a connection is served in turns, what is queued to it is
//! handed out to be written, what was written whole is acknowledged, and who is to be shut down is
//! named, with the time until when.
//!
//! It stands on floor_hub, does no input or output, and waits for nothing. Whoever calls it has the
//! sockets and the clock.
#![tactic(auto)]

mod attended;
mod away;
mod changing;
mod coming;
mod grace;
mod laws;
mod line;
mod outgoing;
mod resuming;
mod same;
mod serving;
mod stay;
mod turn;

pub use floor_hub::{
    Act, AddedUser, Config, ConnNo, Event, Floor, HubRefusal, Info, Live, News, Place, Refusal,
    RoomRefusal, Said, SharedInfo, Status, User,
};
pub use grace::Grace;
pub use laws::{hello_is_written, written_is_called_for};
pub use resuming::ResumeRefusal;
pub use serving::Loop;
