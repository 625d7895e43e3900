//! What is shown of users, of floor requests and of floors (RFC 8855, sections 5.2.12 to 5.2.18). It is
//! kept beside the state, told to the members and copied into answers.

pub(crate) mod copying;
pub(crate) mod in_place;
pub(crate) mod settled;
pub(crate) mod showing;
pub(crate) mod shown;
