//! What is told of an event: what is shown otherwise than before, what of that is due to each member,
//! and the parcels of those that are told it.

pub(crate) mod backlog;
pub(crate) mod changed;
pub(crate) mod due;
pub(crate) mod notices;
pub(crate) mod renewing;
pub(crate) mod watching;
