//! How a client stands.

use floor_rpc::{Call, Id};

/// How a client stands.
#[derive(Clone, Copy, Debug, PartialEq, Eq)]
pub enum Standing {
    /// It is served.
    Serving,
    /// Nothing more comes from it. Its whole lines are answered yet.
    Ended,
    /// It is to be closed once what waits is taken: no line of it is served, and it is told nothing.
    Over(CloseReason),
}

/// Why a client is to be closed.
#[derive(Clone, Copy, Debug, PartialEq, Eq)]
pub enum CloseReason {
    /// A line of it is too long.
    TooLong,
    /// There are as many clients as may be.
    Full,
    /// Too many notifications wait for it.
    Behind,
    /// Memory was refused.
    Memory,
    /// The server stops.
    Stopped,
}

/// What a client awaits.
#[derive(Drop)]
pub enum Asked {
    /// Nothing: its next line may be served.
    Nothing,
    /// That a request is carried out which isn't answered.
    Silent,
    /// The answer to the request with this id.
    Answer(Id),
}

/// What came of asking for the next line.
#[derive(Drop)]
pub enum Next {
    /// No line may be served now.
    Nothing,
    /// A line was served, and nothing is to be carried out.
    Served,
    /// This is to be carried out, and then `answer` to be called.
    Task(Call),
    /// A line was too long: the client is told so and is to be closed.
    Closed,
}
