//! The first claim, applied to a run: while another user comes, is lost and returns, what a connection's socket took
//! is a front of what its conference's floor machine alone calls for.
//!
//! It stands on floor_loop, and knows nothing of it but the clauses of its calls and its law. So it shows that the
//! premises of the law are what the calls hand out: it isn't proved any more once one of them is missing.
#![tactic(auto)]

mod calls;
mod run;

pub use calls::Stopped;
pub use floor_loop::{Config, ConnNo, HubRefusal, Loop};
pub use run::{Run, serve_while_another_returns};
