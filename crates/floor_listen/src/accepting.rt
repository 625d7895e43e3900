//! What a port's thread does after an accept.

ghost use Rattle.std.specs.Prelude.{◌≡◌};
ghost use Rattle.floor_listen.specs.Accepting.{after_accept};

/// How long a port waits where an accept failed, as it does without a descriptor left.
pub const ACCEPT_AGAIN_MILLIS: u64 = 10;

/// What a port's thread does next.
#[derive(Drop)]
pub enum Accepting<S> {
    /// It ends.
    End,
    /// It starts a connection.
    Start(S),
    /// It waits for so many milliseconds, and then accepts again.
    Again(u64),
}

/// What follows from an accept: a failed one ends nothing, and what comes while the port ends is
/// not served.
pub fn after_accept<S: Drop, E: Drop>(is_ending: bool, accepted: Result<S, E>) -> Accepting<S>
    ensures value { result ≡ after_accept is_ending accepted }
{
    match accepted {
        _ if is_ending => Accepting::End,
        Ok(stream) => Accepting::Start(stream),
        Err(_) => Accepting::Again(ACCEPT_AGAIN_MILLIS),
    }
}
