//! The formats of attributes (RFC 8855, section 5.2): each that messages hold, with its reader, its
//! writer, its size and its limits side by side.

pub(crate) mod attribute_types;
pub(crate) mod attributes;
pub(crate) mod error_code;
pub(crate) mod floor_request_information;
pub(crate) mod floor_request_status;
pub(crate) mod floors;
pub(crate) mod group;
pub(crate) mod mandatory;
pub(crate) mod number;
pub(crate) mod octets;
pub(crate) mod overall_request_status;
pub(crate) mod pair;
pub(crate) mod priority;
pub(crate) mod request_status;
pub(crate) mod status_info;
pub(crate) mod supported;
pub(crate) mod text;
pub(crate) mod user_information;
pub(crate) mod verdicts;
