//! A connection's stream, and the loop that serves the connection: what the stream took is what the loop lent and
//! was told, and what it gave is what the loop was handed.
//!
//! It stands on floor_loop. The bytes of a stream are those that std's `Read` and `Write` know: of a stream in
//! memory all, of a socket none, and then the clauses bound counts and say what the loop is told.
#![tactic(auto)]

mod reading;
mod stream;
mod writing;

pub use floor_loop::{ConnNo, HubRefusal, Loop};
pub use reading::{Came, Found, read_once, read_some};
pub use stream::{Stream, shut_down};
pub use writing::{Written, write_once, write_some};
