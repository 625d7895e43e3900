//! Members by ports and by doors, slow and away, and how turns go round.

use super::page::{BOUNDS, difference};
use crate::{Grace, Server};
use std::alloc::AllocError;

const MEMBER: &str = "\
# A conference is opened, and its user's port is listened on.
> open 1
< log 1 opened
< listen 0 port 7010 of 1.10
> listened 0
< log port 7010 of 1.10 listens
< .
# Somebody connects, and others may wait.
> knocked 0
< accept 0
> accepted 0 5000
< log port 7010 of 1.10 peer 5000 member 1 of 1.10 joined
< accept 0
> nobody 0
< .
# A Hello comes in two parts, and is answered; the socket takes a part of the answer, and later the rest.
> readable 1
< read 1
> came 1 half
< .
> readable 1
< read 1
> came 1 rest
< write 1 48: 20 0c
> took 1 20
< .
> writable 1
< write 1 28: 07 08
> took 1 1000
< .
# A read finds nothing, and answers that nobody asked for change nothing.
> readable 1
< read 1
> nothing 1
< .
> came 1 hello
< .
> took 1 48
< .
> accepted 0 5001
< .
> shut 1
< .
> came 9 hello
< .
# Its stream ends behind a message: that is served and answered first.
> readable 1 ends
< read 1
> came 1 hello
< write 1 48: 20 0c
> took 1 48
< read 1
> ended 1
< shut 1
> shut 1
< log port 7010 of 1.10 peer 5000 member 1 of 1.10 left EndOfStream
< .
";

#[test]
fn a_member_comes_by_its_port(rt: HostRuntime) -> Result<(), AllocError> {
    let server = Server::new(rt.alloc(), BOUNDS);
    assert_eq!(rt; difference(rt.alloc(), server, MEMBER)?.as_str(), "");
    Ok(())
}

const DOOR: &str = "\
> door 7000
< listen 0 door 7000
> listened 0
< log door 7000 listens
< .
> open 1
< log 1 opened
< listen 1 port 7010 of 1.10
> listened 1
< log port 7010 of 1.10 listens
< .
# A header in two parts, and a Hello and a half behind the second: they are the user's, whom no port has.
> knocked 0
< accept 0
> accepted 0 5000
< accept 0
> nobody 0
< . 5000
> readable 2
< read 2
> came 2 header-front
< . 5000
> readable 2
< read 2
> came 2 header-rest hello-11 half
< log door 7000 peer 5000 member 1 of 1.11 joined
< write 2 48: 20 0c
> took 2 48
< .
# Three more: a user whom the conference hasn't, a proxy that looks, and somebody who says nothing for five seconds.
> knocked 0
< accept 0
> accepted 0 5001
< accept 0
> accepted 0 5002
< accept 0
> accepted 0 5003
< accept 0
> nobody 0
< . 5000
> readable 3
< read 3
> came 3 stranger
< log door 7000 peer 5001 refused NoUser
< shut 3
> shut 3
< . 5000
> readable 4
< read 4
> came 4 local
< shut 4
> shut 4
< . 5000
> time 4999
< . 5000
> time 5000
< shut 5
> shut 5
< log door 7000 peer 5003 refused NoHeader
< .
# Its stream is over before its header is whole, or it resets the connection.
> knocked 0
< accept 0
> accepted 0 5004
< accept 0
> nobody 0
< . 10000
> readable 5 ends
< read 5
> ended 5
< log door 7000 peer 5004 refused NoHeader
< shut 5
> shut 5
< .
> knocked 0
< accept 0
> accepted 0 5005
< accept 0
> nobody 0
< . 10000
> readable 5 ends
< read 5
> failed 5
< log door 7000 peer 5005 refused NoHeader
< shut 5
> shut 5
< .
# What isn't a header, and a header behind which a message is refused.
> knocked 0
< accept 0
> accepted 0 5006
< accept 0
> nobody 0
< . 10000
> readable 5
< read 5
> came 5 hello
< log door 7000 peer 5006 refused BadHeader
< shut 5
> shut 5
< .
";

#[test]
fn users_come_by_a_door(rt: HostRuntime) -> Result<(), AllocError> {
    let server = Server::new(rt.alloc(), BOUNDS);
    assert_eq!(rt; difference(rt.alloc(), server, DOOR)?.as_str(), "");
    Ok(())
}

const SLOW: &str = "\
> open 1
< log 1 opened
< listen 0 port 7010 of 1.10
> listened 0
< log port 7010 of 1.10 listens
< .
> knocked 0
< accept 0
> accepted 0 5000
< log port 7010 of 1.10 peer 5000 member 1 of 1.10 joined
< accept 0
> nobody 0
< .
# Twenty messages: eight are served in each turn, and what is told is written once all are. Its write fails, which takes
# nothing and ends nothing: nor does the next. What the system has of it is read and served, and then a read says that it
# was reset: nothing of it is lost.
> readable 1
< read 1
> came 1 20
< write 1 960: 20 0c
> unwritten 1
< read 1
> came 1 request
< write 1 1000: 20 0c
> unwritten 1
< read 1
> failed 1
< shut 1
> shut 1
< log port 7010 of 1.10 peer 5000 member 1 of 1.10 left Reset
< .
# Another, which takes nothing, is ended: it has ten seconds to take the rest.
> knocked 0
< accept 0
> accepted 0 5001
< log port 7010 of 1.10 peer 5001 member 2 of 1.10 joined
< accept 0
> nobody 0
< .
> readable 1 ends
< read 1
> came 1 hello half
< write 1 48: 20 0c
> took 1 10
< read 1
> ended 1
< . 10000
> time 9999
< . 10000
> writable 1
< write 1 38: 00 0a
> took 1 1
< . 10000
> time 10000
< shut 1
> shut 1
< log port 7010 of 1.10 peer 5001 member 2 of 1.10 left InsideMessage
< .
";

#[test]
fn who_reads_slowly_loses_nothing(rt: HostRuntime) -> Result<(), AllocError> {
    let server = Server::new(rt.alloc(), BOUNDS);
    assert_eq!(rt; difference(rt.alloc(), server, SLOW)?.as_str(), "");
    Ok(())
}

const ROUNDS: &str = "\
# Turns go round the conferences: the one socket of conference 2 has each second turn beside two of conference 1.
> open
< log 1 opened
< log 2 opened
< listen 0 port 7010 of 1.10
> listened 0
< log port 7010 of 1.10 listens
< listen 1 port 7020 of 2.10
> listened 1
< log port 7020 of 2.10 listens
< .
> knocked 0
< accept 0
> accepted 0 1
< log port 7010 of 1.10 peer 1 member 1 of 1.10 joined
< accept 0
> accepted 0 2
< log port 7010 of 1.10 peer 2 member 2 of 1.10 joined
< accept 0
> accepted 0 3
< log port 7010 of 1.10 peer 3 refused UserConnections
< accept 0
> nobody 0
< .
> knocked 1
< accept 1
> accepted 1 4
< log port 7020 of 2.10 peer 4 member 1 of 2.10 joined
< accept 1
> nobody 1
< .
> readable 2
< read 2
> nothing 2
< .
> told 2
> told 3
> told 4
> next
< read 2
> came 2 half
< read 4
> came 4 half
< read 3
> came 3 half
< .
# An accept fails, as without a descriptor left, and is tried again 100 milliseconds later.
> knocked 0
< accept 0
> unaccepted 0
< log port 7010 of 1.10 cannot accept
< . 100
> time 99
< . 100
> time 100
< accept 0
> unaccepted 0
< . 200
> time 200
< accept 0
> accepted 0 5
< log port 7010 of 1.10 accepts again
< log port 7010 of 1.10 peer 5 refused UserConnections
< accept 0
> nobody 0
< .
# A hundred messages come at once: the other conference is read behind eight of them, and a write takes 64 answers.
> told 2
> told 4
> next
< read 2
> came 2 rest 99
< read 4
> nothing 4
< write 2 3072: 20 0c
> took 2 3072
< write 2 1728: 20 0c
> took 2 1728
< .
> readable 2
< read 2
> came 2 8
< write 2 384: 20 0c
> took 2 384
< .
";

#[test]
fn turns_go_round_the_conferences(rt: HostRuntime) -> Result<(), AllocError> {
    let server = Server::new(rt.alloc(), BOUNDS);
    assert_eq!(rt; difference(rt.alloc(), server, ROUNDS)?.as_str(), "");
    Ok(())
}

const AWAY: &str = "\
> open 1
< log 1 opened
< listen 0 port 7010 of 1.10
> listened 0
< log port 7010 of 1.10 listens
< .
> knocked 0
< accept 0
> accepted 0 1
< log port 7010 of 1.10 peer 1 member 1 of 1.10 joined
< accept 0
> nobody 0
< .
# Its connection is reset: the member stays for a second, away, and then leaves.
> readable 1 ends
< read 1
> came 1 request
< write 1 40: 20 04
> unwritten 1
< read 1
> failed 1
< shut 1
> shut 1
< log port 7010 of 1.10 peer 1 member 1 of 1.10 away Reset
< . 1000
> time 999
< . 1000
> time 1000
< log gone member 1 of 1.10
< .
# Of one whose stream ended in order nobody stays, and of one whose user has another connection neither.
> knocked 0
< accept 0
> accepted 0 2
< log port 7010 of 1.10 peer 2 member 2 of 1.10 joined
< accept 0
> accepted 0 3
< log port 7010 of 1.10 peer 3 member 3 of 1.10 joined
< accept 0
> nobody 0
< .
> readable 1 ends
< read 1
> failed 1
< shut 1
> shut 1
< log port 7010 of 1.10 peer 2 member 2 of 1.10 left Reset
< .
> readable 2 ends
< read 2
> ended 2
< shut 2
> shut 2
< log port 7010 of 1.10 peer 3 member 3 of 1.10 left EndOfStream
< .
# Whoever looks whether the server lives is let go, and a user that came later has a port.
> health 7001
< listen 2 health 7001
> listened 2
< log health 7001 listens
< .
> knocked 2
< accept 2
> accepted 2 4
< shut 1
> shut 1
< accept 2
> nobody 2
< .
> port 1 11 7011
< listen 1 port 7011 of 1.11
> listened 1
< log port 7011 of 1.11 listens
< .
> port 9 11 7012
< .
# One that is away is back by another connection: it leaves then, and isn't gone later.
> knocked 0
< accept 0
> accepted 0 5
< log port 7010 of 1.10 peer 5 member 4 of 1.10 joined
< accept 0
> nobody 0
< .
> readable 3 ends
< read 3
> failed 3
< shut 3
> shut 3
< log port 7010 of 1.10 peer 5 member 4 of 1.10 away Reset
< . 2000
> knocked 0
< accept 0
> accepted 0 6
< log back member 4 of 1.10
< log port 7010 of 1.10 peer 6 member 5 of 1.10 joined
< accept 0
> nobody 0
< .
> time 3000
< .
";

#[test]
fn a_member_outlives_its_connection(rt: HostRuntime) -> Result<(), AllocError> {
    let grace = Grace {
        lost: 1_000,
        resumed: 1_000,
    };
    let server = Server::with_grace(rt.alloc(), BOUNDS, grace);
    assert_eq!(rt; difference(rt.alloc(), server, AWAY)?.as_str(), "");
    Ok(())
}
