//! How a conference stands, in a list of them.

use crate::refused::Refused;
use crate::title::TITLE;
use crate::words::Words;
use floor_loop::Loop;
use floor_rpc::ConferenceStanding;
use std::alloc::Global;

/// How a conference stands that has these words, and is kept in a file or isn't.
pub fn standing_of(
    alloc: Global,
    hub: &Loop,
    conference: u32,
    words: &Words,
    is_kept: bool,
) -> Result<ConferenceStanding, Refused> {
    let status = match hub.status(conference) {
        Ok(status) => status,
        Err(refusal) => return Err(Refused::of_conference(refusal, conference)),
    };
    let title = words.title(alloc, TITLE)?;
    Ok(ConferenceStanding {
        conference,
        title,
        phase: status.phase,
        members: status.members,
        ongoing: status.ongoing,
        events: status.events,
        kept: is_kept,
    })
}
