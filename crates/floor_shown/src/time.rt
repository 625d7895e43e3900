//! Times of day, as they are told (RFC 3339, in milliseconds).

use floor_rpc::Text;
use jiff::Timestamp;
use std::alloc::{AllocError, Global};

/// A time of day, in milliseconds since 1970-01-01T00:00:00Z; none for one beyond the year 9999.
pub fn time_of(alloc: Global, unix_millis: u64) -> Result<Option<Text>, AllocError> {
    let Ok(millis) = i64::try_from(unix_millis) else {
        return Ok(None);
    };
    match Timestamp::from_millisecond(millis) {
        Ok(time) => Ok(Some(Text::from_string(format!(in alloc; "{time:.3}")?))),
        Err(_) => Ok(None),
    }
}

/// The same of a time that may not be known.
pub(crate) fn time_where(
    alloc: Global,
    unix_millis: Option<u64>,
) -> Result<Option<Text>, AllocError> {
    match unix_millis {
        Some(millis) => time_of(alloc, millis),
        None => Ok(None),
    }
}
