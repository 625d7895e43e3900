//! The header that a proxy writes in front of the first message of a connection: who it has let in.
//!
//! It is version 2 of the PROXY protocol (HAProxy's proxy-protocol.txt, section 2.2), as HAProxy writes it.
//! RFC 8855 leaves open how a server learns who has connected (section 3.1): that a header says it is our
//! choice, and so is the form of the name.
//!
//! It stands on `floor_words` alone, and does no input or output: whoever calls it has read the bytes, and
//! waits for those that are missing.
#![tactic(auto)]

mod header;
mod laws;
mod name;
mod refusal;
mod tlv;
mod unique_id;

pub use header::{MAX_HEADER, NamedBy, ProxyRead, read_proxy};
pub use laws::{
    answers_come, answers_stay, faults_are_told_at_once, headers_are_read, names_are_read_back,
    values_are_read_back,
};
pub use refusal::ProxyRefusal;
pub use unique_id::unique_id_header;
