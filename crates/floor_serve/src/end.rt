//! The end of a server: what every seat recorded, compared with the journals of all conferences. In one
//! walk over each journal where the seats ascend, else each seat by itself.

pub(crate) mod count;
pub(crate) mod finish;
pub(crate) mod fit;
pub(crate) mod order;
