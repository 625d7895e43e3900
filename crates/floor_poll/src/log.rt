//! The log, where there is one.

use floor_server::{Entry, Log};
use std::alloc::{AllocError, Global};
use std::sync::{Arc, Wait};
use std::time::Clock;

/// Tells the log, where there is one.
pub fn tell<R: Wait + Clock>(rt: &R, log: &Option<Arc<Log, Global>>, entry: &Entry) {
    match log {
        Some(log) => log.tell(rt, entry),
        None => {}
    }
}

/// What threads share, the log as well as the inbox, once more for another one, where there is one.
pub fn share<T>(shared: &Option<Arc<T, Global>>) -> Result<Option<Arc<T, Global>>, AllocError> {
    match shared {
        Some(shared) => Ok(Some(Arc::try_clone(shared)?)),
        None => Ok(None),
    }
}
