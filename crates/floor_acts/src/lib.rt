//! The lines by which an administrator acts upon a conference: `close`, `revoke`, `user`, `floor` and
//! `chair`.
//!
//! The console and scripts read them by one call, so that a line says the same to each. The lines are
//! our choice: RFC 8855 leaves open how a server is administered (section 3.1). The crate stands on
//! `floor_words` and `floor_machine`, and does no input or output.
#![tactic(auto)]

mod act;
mod fault;
mod floor;
mod laws;
mod number;
mod user;

pub use act::{ActLine, read_act};
pub use fault::ActFault;
pub use floor_machine::{Act, AddedUser, Floor, User};
pub use laws::acts_are_read_back;
