//! Conferences in which something may be done.

use crate::refused::Refused;
use floor_config::Config;
use floor_hub::HubRefusal;
use floor_loop::Loop;
use floor_room::Phase;
use floor_rpc::{About, ErrorName};

/// The configuration of a conference as it stands, in which something may be done. Refused by `NoConference`, by `Ended`
/// where it was closed, also where it was forgotten since, and by `Broken`.
pub fn open_config(hub: &Loop, conference: u32) -> Result<&Config, Refused> {
    match hub.status(conference) {
        Ok(status) => match status.phase {
            Phase::Running => {}
            Phase::Ended => return Err(not_open(ErrorName::Ended, conference)),
            Phase::Broken => return Err(not_open(ErrorName::Broken, conference)),
        },
        Err(HubRefusal::Forgotten) => return Err(not_open(ErrorName::Ended, conference)),
        Err(refusal) => return Err(Refused::of_conference(refusal, conference)),
    }
    match hub.config(conference) {
        Ok(config) => Ok(config),
        Err(refusal) => Err(Refused::of_conference(refusal, conference)),
    }
}

fn not_open(name: ErrorName, conference: u32) -> Refused {
    Refused::of(name, About::Conference(conference))
}
