//! Sessions of BFCP over UDP, version 2, each carried to a floor control server's stream of version 1
//! (RFC 8855, sections 6.2 and 8.3). No socket, no thread and no clock.
#![tactic(auto)]

mod end;
mod fragments;
mod heard;
mod hello;
mod kind;
mod laws;
mod notices;
mod numbering;
mod own;
mod pace;
mod requests;
mod session;
mod written;

pub use end::End;
pub use fragments::MAX_REQUEST_LEN;
pub use kind::{Kind, id_of, is_acknowledging, kind_of};
pub use laws::{
    a_late_copy_is_older, a_notice_has_an_id_of_its_own, each_request_is_taken_once,
    fragments_come_in_any_order, the_newest_is_told,
};
pub use numbering::{Age, age_of, is_newer};
pub use requests::MAX_WAITING;
pub use session::{Session, Terms};
pub use written::{INCORRECT_LENGTH, MAX_DATAGRAM_LEN, MIN_DATAGRAM_LEN, error, goodbye_ack};
