//! What a program over `floor_service` shares: the value by its words, the lines of its log, its administrator's console,
//! the sockets of control clients, the port at which it is asked by HTTP, and what the system tells.
//!
//! It stands on floor_service, which decides, on floor_http, which answers, and on mio. It waits for nothing.
#![tactic(auto)]

mod client_socket;
mod configuration;
mod console;
mod figures;
mod http_port;
mod log_lines;
mod process;
mod serving;
#[cfg(test)]
mod tests;

pub use client_socket::{ClientSocket, end_client};
pub use configuration::read_configuration;
pub use console::{Console, INPUT, OUTPUT, refused_by};
pub use figures::figures_of;
pub use floor_http::Counts;
pub use http_port::{HttpPort, MAX_PAGES};
pub use log_lines::{done_by, text_of};
pub use process::{now_since, process_of, read_seed};
pub use serving::service_of;
