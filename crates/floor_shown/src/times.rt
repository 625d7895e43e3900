//! When the events of a conference were taken, and when its floor requests were made and granted.

use crate::showing::is_over;
use floor_message::{RequestStatus, SharedInfo};
use std::alloc::{AllocError, Global};

/// The times of a journal's events, in milliseconds since 1970-01-01T00:00:00Z, kept once for all that were taken at one
/// time. None is earlier than the one before.
#[derive(Drop)]
pub(crate) struct Times {
    /// Places, each with the time of the events from there on, up to the next one.
    from: Vec<(u64, u64)>,
}

impl Times {
    /// Of no event. Takes no memory.
    pub(crate) fn new(alloc: Global) -> Times {
        Times {
            from: Vec::new(alloc),
        }
    }

    /// The events from this place on were taken at this time. Where memory is refused they count as taken with those
    /// before.
    pub(crate) fn note(&mut self, place: u64, unix_millis: u64) {
        let last = match self.from.last() {
            Some(last) => last.1,
            None => 0,
        };
        if last < unix_millis {
            let _noted = self.from.push((place, unix_millis));
        }
    }

    /// When the event at a place was taken, where that is known.
    pub(crate) fn at(&self, place: u64) -> Option<u64> {
        let count = self.from.partition_point(|entry| entry.0 <= place);
        match self.from.get(count.checked_sub(1)?) {
            Some(entry) => Some(entry.1),
            None => None,
        }
    }
}

/// When a floor request was made, and when it was granted, where that is known.
#[derive(Clone, Copy, Debug)]
pub(crate) struct RequestTimes {
    pub request: u16,
    pub since: Option<u64>,
    pub granted: Option<u64>,
}

/// The times of a floor request among these.
pub(crate) fn times_in(times: &[RequestTimes], request: u16) -> RequestTimes {
    match times.iter().find(|known| known.request == request) {
        Some(known) => *known,
        None => RequestTimes {
            request,
            since: None,
            granted: None,
        },
    }
}

/// These are the ongoing floor requests by now: one that is new was made at this time, and one that is granted and wasn't
/// was granted then. Those that have ended are known no more. Where memory is refused nothing has changed.
pub(crate) fn note_requests(
    times: &mut Vec<RequestTimes>,
    shown: &[SharedInfo],
    time: Option<u64>,
) -> Result<(), AllocError> {
    let mut now = Vec::with_capacity(*times.allocator(), shown.len())?;
    for info in shown {
        now.push(noted(times, info, time))?;
    }
    *times = now;
    Ok(())
}

/// An event of this time changed what is shown of these floor requests. Where memory is refused less is known.
pub(crate) fn note_changed(
    times: &mut Vec<RequestTimes>,
    changed: &[SharedInfo],
    time: Option<u64>,
) -> Result<(), AllocError> {
    for info in changed {
        let now = noted(times, info, time);
        times.retain(|known| known.request != now.request);
        if !is_over(info) {
            times.push(now)?;
        }
    }
    Ok(())
}

/// The times of a floor request that is shown so from a time on.
pub(crate) fn noted(times: &[RequestTimes], info: &SharedInfo, time: Option<u64>) -> RequestTimes {
    let request = info.as_info().request;
    let known = times.iter().find(|known| known.request == request);
    let since = match known {
        Some(known) => known.since,
        None => time,
    };
    let before = match known {
        Some(known) => known.granted,
        None => None,
    };
    let granted = if is_granted(info) {
        before.or(time)
    } else {
        None
    };
    RequestTimes {
        request,
        since,
        granted,
    }
}

/// Whether a floor request is shown as granted.
fn is_granted(info: &SharedInfo) -> bool {
    match info.as_info().overall {
        Some(overall) => overall.0 == RequestStatus::Granted.number(),
        None => false,
    }
}
