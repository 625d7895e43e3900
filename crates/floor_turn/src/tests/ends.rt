//! Conferences that close, ports that cannot be had, and the stop.

use super::page::{BOUNDS, difference};
use crate::Server;
use std::alloc::AllocError;

const STOP: &str = "\
> door 7000
< listen 0 door 7000
> listened 0
< log door 7000 listens
< .
> open
< log 1 opened
< log 2 opened
< listen 1 port 7010 of 1.10
> listened 1
< log port 7010 of 1.10 listens
< listen 2 port 7020 of 2.10
> listened 2
< log port 7020 of 2.10 listens
< .
> knocked 1
< accept 1
> accepted 1 1
< log port 7010 of 1.10 peer 1 member 1 of 1.10 joined
< accept 1
> nobody 1
< .
> knocked 2
< accept 2
> accepted 2 2
< log port 7020 of 2.10 peer 2 member 1 of 2.10 joined
< accept 2
> nobody 2
< .
# A conference is closed: its port isn't listened on any more, its member is shut, and it can be forgotten.
> close 2
< log 2 closed
< unlisten 2
> shut 2
< log port 7020 of 2.10 ended
< shut 4
> shut 4
< log port 7020 of 2.10 peer 2 member 1 of 2.10 left Closed
< .
> close 2
< .
> forget 2
< log 2 forgotten
< .
> forget 1
< .
# The server stops: who has something to take has ten seconds, and all others are shut at once.
> knocked 0
< accept 0
> accepted 0 3
< accept 0
> nobody 0
< . 5000
> readable 3
< read 3
> came 3 hello
< write 3 48: 20 0c
> took 3 8
< . 5000
> stop
< log stopping
< unlisten 0
> shut 0
< log door 7000 ended
< unlisten 1
> shut 1
< log port 7010 of 1.10 ended
< shut 4
> shut 4
< . 10000
> readable 3
< . 10000
> writable 3
< write 3 40: 00 01
> took 3 40
< shut 3
> shut 3
< log port 7010 of 1.10 peer 1 member 1 of 1.10 left Stopped
< end
> time 20000
< .
> stop
< .
";

#[test]
fn a_conference_closes_and_the_server_stops(rt: HostRuntime) -> Result<(), AllocError> {
    let server = Server::new(rt.alloc(), BOUNDS);
    assert_eq!(rt; difference(rt.alloc(), server, STOP)?.as_str(), "");
    Ok(())
}

const LAST: &str = "\
> open 1
< log 1 opened
< listen 0 port 7010 of 1.10
> listened 0
< log port 7010 of 1.10 listens
< .
> port 1 11 7011
< listen 1 port 7011 of 1.11
> listened 1
< log port 7011 of 1.11 listens
< .
> knocked 0
< accept 0
> accepted 0 1
< log port 7010 of 1.10 peer 1 member 1 of 1.10 joined
< accept 0
> nobody 0
< .
> knocked 1
< accept 1
> accepted 1 2
< log port 7011 of 1.11 peer 2 member 2 of 1.11 joined
< accept 1
> nobody 1
< .
# User 10 holds floor 1, and user 11 watches it.
> readable 2
< read 2
> came 2 request
< write 2 40: 20 04
> took 2 40
< .
> readable 3
< read 3
> came 3 watch-11
< write 3 44: 20 08
> took 3 44
< .
# The server stops: what is told by the leave of the one is written to the other before it is shut.
> stop
< log stopping
< unlisten 0
> shut 0
< log port 7010 of 1.10 ended
< unlisten 1
> shut 1
< log port 7011 of 1.11 ended
< shut 2
> shut 2
< log port 7010 of 1.10 peer 1 member 1 of 1.10 left Stopped
< write 3 16: 20 08
> took 3 16
< shut 3
> shut 3
< log port 7011 of 1.11 peer 2 member 2 of 1.11 left Stopped
< end
";

#[test]
fn who_is_shut_last_hears_of_the_others(rt: HostRuntime) -> Result<(), AllocError> {
    let server = Server::new(rt.alloc(), BOUNDS);
    assert_eq!(rt; difference(rt.alloc(), server, LAST)?.as_str(), "");
    Ok(())
}

const RESET: &str = "\
> open 1
< log 1 opened
< listen 0 port 7010 of 1.10
> listened 0
< log port 7010 of 1.10 listens
< .
> knocked 0
< accept 0
> accepted 0 1
< log port 7010 of 1.10 peer 1 member 1 of 1.10 joined
< accept 0
> accepted 0 2
< log port 7010 of 1.10 peer 2 member 2 of 1.10 joined
< accept 0
> nobody 0
< .
# The stream of one has ended, and it takes a part of what it is told. Then a write fails: it is shut at once, for that end.
> readable 1 ends
< read 1
> came 1 hello
< write 1 48: 20 0c
> took 1 8
< read 1
> ended 1
< . 10000
> unwritten 1
< . 10000
> writable 1
< write 1 40: 00 01
> unwritten 1
< shut 1
> shut 1
< log port 7010 of 1.10 peer 1 member 1 of 1.10 left EndOfStream
< .
# At a stop the other is too.
> readable 2
< read 2
> came 2 hello
< write 2 48: 20 0c
> took 2 8
< .
> stop
< log stopping
< unlisten 0
> shut 0
< log port 7010 of 1.10 ended
< . 10000
> writable 2
< write 2 40: 00 01
> unwritten 2
< shut 2
> shut 2
< log port 7010 of 1.10 peer 2 member 2 of 1.10 left Stopped
< end
";

#[test]
fn who_is_reset_on_its_way_out_is_shut_at_once(rt: HostRuntime) -> Result<(), AllocError> {
    let server = Server::new(rt.alloc(), BOUNDS);
    assert_eq!(rt; difference(rt.alloc(), server, RESET)?.as_str(), "");
    Ok(())
}

const FAULT: &str = "\
> open 1
< log 1 opened
< listen 0 port 7010 of 1.10
> listened 0 not
< log port 7010 of 1.10 cannot listen
< end cannot listen port 7010 of 1.10
> time 1
< .
";

#[test]
fn a_port_of_the_start_that_cannot_be_had_ends_the_server(
    rt: HostRuntime,
) -> Result<(), AllocError> {
    let server = Server::new(rt.alloc(), BOUNDS);
    assert_eq!(rt; difference(rt.alloc(), server, FAULT)?.as_str(), "");
    Ok(())
}

const LATE: &str = "\
> time 0
< .
# Behind the start a port that can't be had is told, and the conference stands without it.
> open 1
< log 1 opened
< listen 0 port 7010 of 1.10
> listened 0 not
< log port 7010 of 1.10 cannot listen
< .
> open 1
< .
# Its number is another port's then, which stays where the conference is closed.
> open 2
< log 2 opened
< listen 0 port 7020 of 2.10
> listened 0
< log port 7020 of 2.10 listens
< .
> close 1
< log 1 closed
< .
> readable 0
< .
> knocked 0
< accept 0
> accepted 0 1
< log port 7020 of 2.10 peer 1 member 1 of 2.10 joined
< accept 0
> nobody 0
< .
> knocked 1
< .
> close 2
< log 2 closed
< unlisten 0
> shut 0
< log port 7020 of 2.10 ended
< shut 1
> shut 1
< log port 7020 of 2.10 peer 1 member 1 of 2.10 left Closed
< .
";

#[test]
fn a_later_port_that_cannot_be_had_is_told(rt: HostRuntime) -> Result<(), AllocError> {
    let server = Server::new(rt.alloc(), BOUNDS);
    assert_eq!(rt; difference(rt.alloc(), server, LATE)?.as_str(), "");
    Ok(())
}
