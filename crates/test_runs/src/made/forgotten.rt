//! A hub that forgets a conference, and what it answers behind that.

use floor_config::Config;
use floor_hub::{Act, Hub, HubRefusal, Refusal, RoomRefusal};
use std::alloc::Global;
use test_cases::Fault;

/// Why nothing is read of conference 1: neither its status nor its journal, its members and who joined first.
fn unread(hub: &Hub) -> [Option<HubRefusal>; 4] {
    [
        hub.status(1).err(),
        hub.journal(1).err(),
        hub.members(1).err(),
        hub.user_of(1, 1).err(),
    ]
}

/// Why conference 1 isn't opened again, nobody is attached to it, and nothing is done in it.
fn unchanged(alloc: Global, hub: &mut Hub) -> Result<[Option<HubRefusal>; 3], Fault> {
    let config = Config::demonstration(alloc)?;
    Ok([
        hub.open(alloc, config).err(),
        hub.attach(alloc, 1, 10).err(),
        hub.admin(1, Act::Close).err(),
    ])
}

/// Asked for before it is opened, while it is open, once it is closed with a member in it, once that has left,
/// and again.
pub fn run(alloc: Global) -> Result<usize, Fault> {
    let mut hub = Hub::new(alloc);
    let mut asked = [hub.forget(1); 5];
    let opened = hub.open(alloc, Config::demonstration(alloc)?);
    asked[1] = hub.forget(1);
    let connection = hub.attach(alloc, 1, 10).unwrap_or(0);
    let closed = hub.admin(1, Act::Close);
    asked[2] = hub.forget(1);
    let left = hub.leave(connection);
    let before = unread(&hub);
    asked[3] = hub.forget(1);
    asked[4] = hub.forget(1);
    let running = Err(HubRefusal::Running);
    let wanted = [
        Err(HubRefusal::NoConference),
        running,
        running,
        Ok(()),
        Err(HubRefusal::Forgotten),
    ];
    if [opened, closed, left] != [Ok(()); 3] || before != [None; 4] || asked != wanted {
        return Err(Fault::Wrong("when a conference is forgotten"));
    }
    let ended = Some(HubRefusal::ByRoom(RoomRefusal::Refused(Refusal::Ended)));
    if unchanged(alloc, &mut hub)? != [Some(HubRefusal::Used), ended, ended] {
        return Err(Fault::Wrong("what is done in a conference that was forgotten"));
    }
    if unread(&hub) != [Some(HubRefusal::Forgotten); 4] {
        return Err(Fault::Wrong("what is read of a conference that was forgotten"));
    }
    Ok(16)
}
