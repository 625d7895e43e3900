//! What no clause says, as pages of calls and deeds.

mod page;
mod policies;
mod starts;
