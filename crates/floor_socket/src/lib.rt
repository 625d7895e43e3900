//! The first thread of a server of a hub: the console, and the control socket, by which programs administer.
//!
//! [`run`] does what a program's words ask for, over the loops of floor_poll. Without a control socket the first
//! thread answers the console's lines one after another, and waits for each answer of a loop. With one it waits for
//! its clients, for the console and for what the loops answer by one set of sockets. It asks a loop and goes on; the
//! answer comes by the inbox. So nothing that one client sends or doesn't read holds up another, or a conference.
#![tactic(auto)]

mod alone;
mod beginning;
mod client;
mod console;
mod desk;
mod ending;
mod following;
mod forgetting;
mod lines;
mod listening;
mod opening;
mod replica;
mod running;
mod serving;
mod showing;
mod task;
mod telling;
mod words;

pub use console::Descriptors;
pub use running::run;
