//! Runs over real sockets: a client is a socket, the administrator's lines come through one too.

mod clients;
mod console;
mod control;
mod control_forgets;
mod control_hostile;
mod doors;
mod edges;
mod endings;
mod kept_files;
mod lasting;
mod logged;
mod metrics;
