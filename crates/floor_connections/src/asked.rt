//! What was asked of a socket, and isn't answered yet.

ghost use Rattle.std.specs.Prelude.{◌≡◌};
ghost use Rattle.floor_sockets.specs.Sockets.{life_at};
ghost use Rattle.floor_connections.specs.Asked.{accepts, is_over, reads, shuts, writes};

use floor_sockets::{Asked, Sockets};

/// Whether an accept was asked of it.
pub fn is_accepting(sockets: &Sockets, socket: usize) -> bool
    ensures value { result ≡ accepts (life_at sockets.now socket) }
{
    match sockets.get(socket) {
        Some(life) => match life.asked {
            Asked::Accept => true,
            Asked::Nothing | Asked::Read | Asked::Serve | Asked::Write | Asked::Shut => false,
        },
        None => false,
    }
}

/// Whether a read was asked of it.
pub fn is_reading(sockets: &Sockets, socket: usize) -> bool
    ensures value { result ≡ reads (life_at sockets.now socket) }
{
    match sockets.get(socket) {
        Some(life) => match life.asked {
            Asked::Read => true,
            Asked::Nothing | Asked::Accept | Asked::Serve | Asked::Write | Asked::Shut => false,
        },
        None => false,
    }
}

/// Whether a write was asked of it.
pub fn is_writing(sockets: &Sockets, socket: usize) -> bool
    ensures value { result ≡ writes (life_at sockets.now socket) }
{
    match sockets.get(socket) {
        Some(life) => match life.asked {
            Asked::Write => true,
            Asked::Nothing | Asked::Accept | Asked::Read | Asked::Serve | Asked::Shut => false,
        },
        None => false,
    }
}

/// Whether its `Shut` was asked.
pub fn is_shutting(sockets: &Sockets, socket: usize) -> bool
    ensures value { result ≡ shuts (life_at sockets.now socket) }
{
    match sockets.get(socket) {
        Some(life) => match life.asked {
            Asked::Shut => true,
            Asked::Nothing | Asked::Accept | Asked::Read | Asked::Serve | Asked::Write => false,
        },
        None => false,
    }
}

/// Whether it is to be shut down.
pub fn is_over(sockets: &Sockets, socket: usize) -> bool
    ensures value { result ≡ is_over (life_at sockets.now socket) }
{
    match sockets.get(socket) {
        Some(life) => life.is_over,
        None => false,
    }
}
