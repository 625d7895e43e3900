//! Origins of pages: those that are listed, and which may open a WebSocket.

use floor_web::Origins;
use std::alloc::{AllocError, Global};
use std::fmt::Write;

/// What lines come to: `list ORIGIN` lists one, and `allow ORIGIN HOST`, or `allow HOST` where no origin
/// is sent, tells whether it may.
pub fn allowed(alloc: Global, text: &str) -> Result<String, AllocError> {
    let mut origins = Origins {
        listed: Vec::new(alloc),
    };
    let mut told = String::new(alloc);
    for line in text.lines() {
        match line.strip_prefix("list ") {
            Some(origin) => origins.listed.push(String::from_str(alloc, origin)?)?,
            None => write!(told, "{}\n", is_allowed(&origins, line))?,
        }
    }
    Ok(told)
}

fn is_allowed(origins: &Origins, line: &str) -> bool {
    let words = line.strip_prefix("allow ").unwrap_or("");
    match words.split_once(' ') {
        None => origins.allow(None, words.as_bytes()),
        Some((origin, host)) => origins.allow(Some(origin.as_bytes()), host.as_bytes()),
    }
}
