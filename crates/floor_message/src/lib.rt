//! The messages of a floor control server, as values and as bytes (RFC 8855, section 5.3): what a
//! client asks, an [`Ask`], and what the server tells, a [`Tell`].
//!
//! It stands on `floor_wire` for headers, attributes and frames. Reading an Ask makes every check
//! that the header and the attributes alone decide, in the order of the codes that answer them. The
//! checks that need a conference's state are left to the caller, as is the answer itself. It does
//! no input or output.
#![tactic(auto)]

mod ask;
mod ask_reader;
mod ask_writer;
mod code;
mod fits;
mod floor_statuses;
mod format;
mod head;
mod information;
mod infos;
mod kind;
mod laws;
mod primitive;
mod shared_info;
mod status;
mod tell;
mod tell_reader;
mod tell_writer;
mod verdicts;

pub use ask::{Ask, AskFault, Binding};
pub use ask_reader::read_ask;
pub use ask_writer::write_ask;
pub use code::ErrorCode;
pub use fits::{ask_fits, tell_fits};
pub use floor_statuses::FloorStatuses;
pub use floor_wire::{Frame, Numbers, Octets, SharedFrame};
pub use head::Head;
pub use information::{Info, Who, is_same_text};
pub use infos::Infos;
pub use laws::{
    a_text_is_cut_at_its_longest, a_written_ask_is_read, a_written_tell_is_read, the_first_is_kept,
    what_is_asked_fits, what_is_asked_is_of_16_bits, what_is_shown_fits, what_is_written_is_short,
};
pub use primitive::Primitive;
pub use shared_info::SharedInfo;
pub use status::RequestStatus;
pub use tell::{Tell, TellFault};
pub use tell_reader::read_tell;
pub use tell_writer::{write_floor_status, write_request_status, write_tell, write_tell_alone};
pub use verdicts::{Verdict, Verdicts};
