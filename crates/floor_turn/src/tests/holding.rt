//! Conferences that are held while what stands of them is written down.

use super::page::{BOUNDS, difference};
use crate::Server;
use std::alloc::AllocError;

const HELD: &str = "\
> door 7000
< listen 0 door 7000
> listened 0
< log door 7000 listens
< .
> open 1
< log 1 opened
< listen 1 port 7010 of 1.10
> listened 1
< log port 7010 of 1.10 listens
< .
> knocked 1
< accept 1
> accepted 1 5000
< log port 7010 of 1.10 peer 5000 member 1 of 1.10 joined
< accept 1
> nobody 1
< .
# What its Hello is answered waits until it is kept.
> keep 1
< .
> readable 2
< read 2
> came 2 hello
< .
# While it is written down nobody of the conference is read, and who comes to its port waits.
> hold 1
< .
> readable 2
< .
> knocked 1
< . 100
# At the door somebody is read, and waits once it is named.
> knocked 0
< accept 0
> accepted 0 6000
< accept 0
> nobody 0
< . 100
> readable 3
< read 3
> came 3 header hello-11
< . 100
# It is written: whoever waited joins, is accepted and read, and the Hello is answered.
> let-go 1 2
< log door 7000 peer 6000 member 2 of 1.11 joined
< accept 1
> accepted 1 5001
< log port 7010 of 1.10 peer 5001 member 3 of 1.10 joined
< write 2 48: 20 0c
> took 2 48
< accept 1
> nobody 1
< read 2
> nothing 2
< . 100
# What came behind the header was heard, and is answered once it is kept: the fourth event behind three joins and a Hello.
> let-go 1 4
< write 3 48: 20 0c
> took 3 48
< . 100
# A member's stream ends, and it takes its answer in ten seconds or is shut.
> readable 2
< read 2
> came 2 hello
< . 100
> let-go 1 8
< write 2 48: 20 0c
> took 2 10
< . 100
> readable 2 ends
< read 2
> ended 2
< . 100
# It is shut while its conference is held, and leaves once it isn't.
> hold 1
< . 100
> time 10000
< shut 2
> shut 2
< . 10000
> let-go 1 8
< log port 7010 of 1.10 peer 5000 member 1 of 1.10 left EndOfStream
< . 10100
# Behind the end of keeping an answer is told at once.
> keep-no-more 1
< . 10100
> readable 3
< read 3
> came 3 hello-11
< write 3 48: 20 0c
> took 3 48
< . 10100
";

#[test]
fn a_conference_is_held_and_let_go(rt: HostRuntime) -> Result<(), AllocError> {
    let server = Server::new(rt.alloc(), BOUNDS);
    assert_eq!(rt; difference(rt.alloc(), server, HELD)?.as_str(), "");
    Ok(())
}
