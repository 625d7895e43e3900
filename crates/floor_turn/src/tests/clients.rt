//! Control clients, and what they ask for.

use super::page::{BOUNDS, difference};
use crate::{Act, Grace, Place, Server};
use floor_config::read_configs;
use std::alloc::AllocError;

const CLIENT: &str = "\
# The clients' socket is listened on, and one connects: it is told to nobody.
> clients
< listen 0 control
> listened 0
< log control listens
< .
> knocked 0
< accept 0
> accepted 0 0
< accept 0
> nobody 0
< .
# Lines come of it, of which its caller has one left over: it isn't read before that is served.
> readable 1
< read 1
> client-came 1 40 more
< serve 1
> client-served 1
< .
# What its caller lends is written.
> lend 1 bytes
< write 1 0:
> client-took 1 10 40
< .
> writable 1
< write 1 0:
> client-took 1 30 30
< .
# While an answer is under way it isn't read.
> lend 1 held
< .
> readable 1
< .
> lend 1
< read 1
> client-ended 1
< .
# What is lent is written, and then it is shut; at latest after ten seconds.
> lend 1 bytes ends
< write 1 0:
> client-took 1 10 40
< . 10000
> lend 1 ends
< shut 1
> shut 1
< .
# A write to another fails: it is read first. One to whoever is to be shut down has it shut at once.
> knocked 0
< accept 0
> accepted 0 0
< accept 0
> nobody 0
< .
> lend 1 bytes
< write 1 0:
> unwritten 1
< read 1
> client-came 1 40
< read 1
> nothing 1
< .
> lend 1 bytes ends
< write 1 0:
> unwritten 1
< shut 1
> shut 1
< .
";

#[test]
fn a_client_is_read_served_and_written(rt: HostRuntime) -> Result<(), AllocError> {
    let server = Server::new(rt.alloc(), BOUNDS);
    assert_eq!(rt; difference(rt.alloc(), server, CLIENT)?.as_str(), "");
    Ok(())
}

const MEMBER: &str = "\
> open 1
< log 1 opened
< listen 0 port 7010 of 1.10
> listened 0
< log port 7010 of 1.10 listens
< .
> knocked 0
< accept 0
> accepted 0 5000
< log port 7010 of 1.10 peer 5000 member 1 of 1.10 joined
< accept 0
> nobody 0
< .
# What is said of a client's socket is nothing to a member's.
> readable 1
< read 1
> client-came 1 12
< .
> client-ended 1
< .
> lend 1 held ends
< .
> came 1 hello
< write 1 48: 20 0c
> client-took 1 48 48
< .
> took 1 48
< .
# A message is said for its user, and it is told the status of the request (40 bytes) and of the floor (44).
> readable 1
< read 1
> came 1 watch
< write 1 16: 20 08
> took 1 16
< .
> say 1 11 request
< .
> say 1 10 request
< write 1 84: 20 04
> took 1 84
< .
# It is shown out: its socket is shut, and it doesn't come back before it is let in again.
> remove 1
< log port 7010 of 1.10 peer 5000 member 1 of 1.10 left Removed
< shut 1
> shut 1
< .
> ban 1 10
< .
> knocked 0
< accept 0
> accepted 0 5001
< log port 7010 of 1.10 peer 5001 refused Removed
< accept 0
> accepted 0 5002
< log port 7010 of 1.10 peer 5002 refused Removed
< accept 0
> nobody 0
< .
> admit 1 10
< .
> knocked 0
< accept 0
> accepted 0 5003
< log port 7010 of 1.10 peer 5003 member 2 of 1.10 joined
< accept 0
> nobody 0
< .
# Away, and shown out.
> readable 1
< read 1
> failed 1
< shut 1
> shut 1
< log port 7010 of 1.10 peer 5003 member 2 of 1.10 away Reset
< . 1000
> remove 2
< log gone member 2 of 1.10
< .
";

#[test]
fn a_member_is_spoken_for_and_shown_out(rt: HostRuntime) -> Result<(), AllocError> {
    let grace = Grace {
        lost: 1_000,
        resumed: 1_000,
    };
    let server = Server::with_grace(rt.alloc(), BOUNDS, grace);
    assert_eq!(rt; difference(rt.alloc(), server, MEMBER)?.as_str(), "");
    Ok(())
}

#[test]
fn what_was_touched_is_named_once(rt: HostRuntime) -> Result<(), AllocError> {
    let mut server = Server::new(rt.alloc(), BOUNDS);
    let text = "[[conference]]\nid = 7\nuser = [{ id = 10 }]\nfloor = [{ id = 1 }]\n";
    if let Ok(mut configs) = read_configs(rt.alloc(), text) {
        if let Some(config) = configs.pop() {
            assert_eq!(rt; server.open(config), Ok(()));
        }
    }
    assert_eq!(rt; server.take_touched(), None);
    assert_eq!(rt; server.act(7, Act::SetChair(1, Some(10)), 0), Ok(()));
    assert_eq!(rt; server.take_touched(), Some(7));
    assert_eq!(rt; server.take_touched(), None);
    assert_eq!(rt; server.members_len(), 0);
    assert_eq!(rt; server.client(0), None);
    server.clients(Place::Observe)?;
    assert_eq!(rt; server.is_read(0), false);
    assert_eq!(rt; server.is_written(0), false);
    assert_eq!(rt; server.is_banned(7, 10), false);
    server.ban(7, 10)?;
    assert_eq!(rt; server.is_banned(7, 10), true);
    Ok(())
}
