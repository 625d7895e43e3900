//! Lines of the control socket, their answers, and a client's buffers.

mod answers;
mod clients;
mod floors;
mod lines;
mod watched;
