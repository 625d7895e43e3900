//! How a hub's conferences stand.

use floor_config::Config;
use floor_hub::{Act, Hub, HubRefusal};
use std::alloc::Global;
use test_cases::Fault;

/// User 10 asks for floor 1, and user 11.
const REQUESTS: [[u8; 16]; 2] = [
    [0x20, 1, 0, 1, 0, 0, 0, 1, 0, 1, 0, 10, 4, 4, 0, 1],
    [0x20, 1, 0, 1, 0, 0, 0, 1, 0, 1, 0, 11, 4, 4, 0, 1],
];

/// Attaches a connection, which hands in a message and is served.
fn ask(alloc: Global, hub: &mut Hub, user: u16, message: &[u8]) -> Result<(), HubRefusal> {
    let connection = hub.attach(alloc, 1, user)?;
    hub.piece(connection, message)?;
    hub.serve(connection)?;
    Ok(())
}

/// The live members, the ongoing requests, the events and the phase of conference 1.
type Standing = (u32, u32, u32, &'static str);

fn standing(hub: &Hub) -> Option<Standing> {
    let status = hub.status(1).ok()?;
    let (members, ongoing) = (status.members, status.ongoing);
    Some((members, ongoing, status.events, status.phase.name()))
}

/// How many requests the last call changed, and the number and the status of the last one of them.
type Changed = (usize, u16, u8);

fn changed(hub: &Hub) -> Option<Changed> {
    let info = hub.changed().last()?.as_info();
    let (status, _position) = info.overall?;
    Some((hub.changed().len(), info.request, status))
}

/// A conference stands as what was done in it: one in which nothing was done, with a request and
/// with two, after a leave, and after a Close; and what each call changed is lent behind it: a request
/// that is Granted, one that is Accepted, one that is Released and one that is Granted for it, and none.
/// How a conference stands that is broken off is seen by test_memory.
pub fn run(alloc: Global) -> Result<usize, Fault> {
    let mut hub = Hub::new(alloc);
    let none = hub.status(1);
    let mut done = [hub.open(alloc, Config::demonstration(alloc)?); 5];
    let opened = (standing(&hub), changed(&hub));
    done[1] = ask(alloc, &mut hub, 10, &REQUESTS[0]);
    let asked = (standing(&hub), changed(&hub));
    done[2] = ask(alloc, &mut hub, 11, &REQUESTS[1]);
    let asked_again = (standing(&hub), changed(&hub));
    done[3] = hub.leave(1);
    let left = (standing(&hub), changed(&hub));
    done[4] = hub.admin(1, Act::Close);
    let closed = (standing(&hub), changed(&hub));
    let stood = [opened, asked, asked_again, left, closed];
    let wanted = [
        (Some((0, 0, 0, "open")), None),
        (Some((1, 1, 2, "open")), Some((1, 1, 3))),
        (Some((2, 2, 4, "open")), Some((1, 2, 2))),
        (Some((1, 1, 5, "open")), Some((2, 2, 3))),
        (Some((1, 0, 6, "ended")), None),
    ];
    if done != [Ok(()); 5] || stood != wanted {
        return Err(Fault::Wrong("how a conference stands, and what was changed"));
    }
    if [none, hub.status(2)] != [Err(HubRefusal::NoConference); 2] {
        return Err(Fault::Wrong("how no conference stands"));
    }
    Ok(7)
}
