//! Messages of the Binary Floor Control Protocol as bytes: the common header, the framing of a
//! stream and the attributes (RFC 8855, sections 5.1 and 5.2).
#![tactic(auto)]

mod attribute;
mod builder;
mod copies;
mod fault;
mod fits;
mod format;
mod frame;
mod framer;
mod header;
mod laws;
mod numbers;
mod octets;
mod read;
mod shared;
mod view;
mod write;

pub use attribute::{Attr, Attrs, Body};
pub use builder::FrameBuilder;
pub use copies::Copies;
pub use fault::{Cause, WireFault};
pub use fits::{MAX_PAYLOAD_LEN, fits_message, writable};
pub use format::{Format, format_of_kind};
pub use frame::Frame;
pub use framer::Framer;
pub use header::{HEADER_LEN, Header};
pub use laws::{
    a_fault_is_the_only_one, a_rest_holds_no_message, a_slice_is_of_bytes,
    a_stream_divides_in_one_way, bytes_are_spelled_or_faulty, formats_are_those_of_the_table,
    messages_at_the_front_come_first, one_list_is_spelled, pieces_add_up, the_fault_is_the_first,
    what_is_computed_is_spelled, what_is_spelled_is_writable, what_is_written_is_a_message,
    what_is_written_is_read, what_is_written_is_spelled,
};
pub use numbers::Numbers;
pub use octets::Octets;
pub use read::read_attrs;
pub use shared::SharedFrame;
pub use view::{AttrView, AttrsView, BodyView};
pub use write::write_attrs;
