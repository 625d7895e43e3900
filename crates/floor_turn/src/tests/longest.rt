//! Messages that are longer than may be, and how much a conference's members have sent.

use super::page::{BOUNDS, difference};
use crate::Server;
use std::alloc::AllocError;

const LONGEST: &str = "\
# A message may have 16 bytes.
> longest 16
< .
> open 1
< log 1 opened
< listen 0 port 7010 of 1.10
> listened 0
< log port 7010 of 1.10 listens
< .
> knocked 0
< accept 0
> accepted 0 5000
< log port 7010 of 1.10 peer 5000 member 1 of 1.10 joined
< accept 0
> nobody 0
< .
# One that has so many is served, and so is what stands in front of one that says that it has more. Then nothing is.
> readable 1
< read 1
> came 1 request hello long hello
< write 1 88: 20 04
> took 1 88
< shut 1
> shut 1
< log port 7010 of 1.10 peer 5000 member 1 of 1.10 left TooLong
< .
# Its length comes in two parts.
> knocked 0
< accept 0
> accepted 0 5001
< log port 7010 of 1.10 peer 5001 member 2 of 1.10 joined
< accept 0
> nobody 0
< .
> readable 1
< read 1
> came 1 half
< .
> readable 1
< read 1
> came 1 rest long-front
< write 1 48: 20 0c
> took 1 48
< .
> readable 1
< read 1
> came 1 long-rest
< shut 1
> shut 1
< log port 7010 of 1.10 peer 5001 member 2 of 1.10 left TooLong
< .
";

#[test]
fn a_longer_message_ends_its_connection(rt: HostRuntime) -> Result<(), AllocError> {
    let server = Server::new(rt.alloc(), BOUNDS);
    assert_eq!(rt; difference(rt.alloc(), server, LONGEST)?.as_str(), "");
    Ok(())
}

const BY_A_DOOR: &str = "\
> longest 16
< .
> door 7000
< listen 0 door 7000
> listened 0
< log door 7000 listens
< .
> open 1
< log 1 opened
< listen 1 port 7010 of 1.10
> listened 1
< log port 7010 of 1.10 listens
< .
# The header at a door may be longer, what follows it may not.
> knocked 0
< accept 0
> accepted 0 5000
< accept 0
> nobody 0
< . 5000
> readable 2
< read 2
> came 2 header hello-11 long
< log door 7000 peer 5000 member 1 of 1.11 joined
< write 2 48: 20 0c
> took 2 48
< shut 2
> shut 2
< log door 7000 peer 5000 member 1 of 1.11 left TooLong
< .
# It came while the conference was held.
> knocked 0
< accept 0
> accepted 0 5001
< accept 0
> nobody 0
< . 5000
> hold 1
< . 5000
> readable 2
< read 2
> came 2 header hello-11 long
< .
> let-go 1 0
< log door 7000 peer 5001 member 2 of 1.11 joined
< write 2 48: 20 0c
> took 2 48
< shut 2
> shut 2
< log door 7000 peer 5001 member 2 of 1.11 left TooLong
< .
";

#[test]
fn who_came_by_a_door_is_ended_too(rt: HostRuntime) -> Result<(), AllocError> {
    let server = Server::new(rt.alloc(), BOUNDS);
    assert_eq!(rt; difference(rt.alloc(), server, BY_A_DOOR)?.as_str(), "");
    Ok(())
}

const LARGE: &str = "\
> longest 16
< .
> open 1
< log 1 opened
< listen 0 port 7010 of 1.10
> listened 0
< log port 7010 of 1.10 listens
< .
> knocked 0
< accept 0
> accepted 0 5000
< log port 7010 of 1.10 peer 5000 member 1 of 1.10 joined
< accept 0
> nobody 0
< .
# With 99,999,987 bytes that came before a Hello's 12 are one less than 100 MB, and the next byte reaches them.
> received 1 99999987
< .
> readable 1
< read 1
> came 1 hello
< write 1 48: 20 0c
> took 1 48
< .
> readable 1
< read 1
> came 1 half
< log 1 received 100 MB
< .
# Of a message that is too long all is counted that came, though nothing of it is served.
> received 1 99999993
< .
> received 1 99999998
< log 1 received 200 MB
< .
> readable 1
< read 1
> came 1 rest long
< log 1 received 300 MB
< write 1 48: 20 0c
> took 1 48
< shut 1
> shut 1
< log port 7010 of 1.10 peer 5000 member 1 of 1.10 left TooLong
< .
# Of a conference that there isn't none is counted, and two hundred that are reached at once are told once.
> received 3 100000000
< .
> received 1 200000000
< log 1 received 500 MB
< .
";

#[test]
fn each_hundred_megabytes_are_told(rt: HostRuntime) -> Result<(), AllocError> {
    let server = Server::new(rt.alloc(), BOUNDS);
    assert_eq!(rt; difference(rt.alloc(), server, LARGE)?.as_str(), "");
    Ok(())
}
