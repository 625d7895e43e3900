//! Where an ongoing floor request stands: in the line of each floor that it names, and among the
//! requests of its users. What is kept here is a fact of `Requests`, and no contract of its calls
//! speaks of it.

pub(crate) mod line;
pub(crate) mod lines;
pub(crate) mod numbers;
pub(crate) mod parties;
pub(crate) mod rank;
pub(crate) mod ranks;
