//! The value that serves, as the words ask for it.

use floor_server::{MAX_LONGEST, VERSION, Words};
use floor_service::{Bounds, Grace, Now, Server, Service, Text};
use std::alloc::{AllocError, Global};

/// How many sockets of a conference and of one of its users there are at most, of whose members 64 may be live: as many
/// again may be on their way out.
const BOUNDS: Bounds = Bounds {
    of_user: 64,
    of_conference: 128,
};

/// How many milliseconds a second has.
const MILLIS: u64 = 1_000;

/// The value, without conferences yet. Its control clients are told the program's version.
pub fn service_of(
    alloc: Global,
    words: &Words,
    seed: [u8; 32],
    now: Now,
) -> Result<Service, AllocError> {
    let version = Text::from_string(String::from_str(alloc, version())?);
    Service::new(alloc, server_of(alloc, words), seed, version, now)
}

/// The program's version, without the logic that it is proved with.
pub fn version() -> &'static str {
    VERSION.split(' ').next().unwrap_or(VERSION)
}

/// The server of members, whose messages may be as long as the words say.
fn server_of(alloc: Global, words: &Words) -> Server {
    let mut server = server_with_grace(alloc, words);
    if words.longest < MAX_LONGEST {
        server.end_longer(words.longest);
    }
    server
}

/// The server of members, who outlive their sockets as the words say.
fn server_with_grace(alloc: Global, words: &Words) -> Server {
    if words.grace == 0 {
        return Server::new(alloc, BOUNDS);
    }
    let lost = words.grace.saturating_mul(MILLIS);
    let resumed = lost;
    let grace = Grace { lost, resumed };
    if words.grace_for_all {
        return Server::with_grace_for_all(alloc, BOUNDS, grace);
    }
    Server::with_grace(alloc, BOUNDS, grace)
}
