//! The figures of a server.

use crate::process::process_of;
use crate::serving::version;
use floor_http::{Counts, Standing, metrics_text};
use floor_service::Service;
use std::alloc::{AllocError, Global};

/// The figures of a server that began at this time of day, in milliseconds.
pub fn figures_of(
    rt: &HostRuntime,
    alloc: Global,
    server: &Service,
    counts: &Counts,
    since: u64,
) -> Result<String, AllocError> {
    let found = server.standing();
    let standing = Standing {
        conferences: found.conferences,
        members: found.members,
        away: found.away,
        connections: found.connections,
        clients: found.clients,
        is_draining: server.is_draining(),
        joins: found.joins,
        events: found.events,
        since,
    };
    let mut text = String::new(alloc);
    metrics_text(&mut text, version(), counts, &standing, &process_of(rt))?;
    Ok(text)
}
