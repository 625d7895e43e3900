//! Scripts of connections and messages over any number of conferences, and the lines that they
//! print: what each connection is sent.
//!
//! What a connection is sent is taken, printed and acknowledged behind each line, unless a line made the
//! connection slow: then it waits, until a line makes it fast again.
//!
//! A text holds configurations, a line `---` and the script, or the script alone. It is run over one
//! hub. Reading and printing go through the caller's reader and writer.
#![tactic(auto)]

mod attached;
mod conferences;
mod fault;
mod line;
mod running;
mod script;
mod waiting;
mod writing;

pub use fault::RunFault;
pub use line::{Command, LineFault, parse_line};
pub use running::{run, run_script};
