//! The administrator's lines to a server that runs.

use super::clients::{
    Server, ask, connect, free_port, hear, line, prepare, run_to_end, send, write_file,
};
use std::net::TcpListener;
use std::test::Fail;
use std::time::Duration;
use std::{fs, thread};

/// A Hello of user 10, the number of bytes of its answer, and how conference 1 stands once that is
/// acknowledged; and then its request for floor 1.
const ASKED: [(&str, usize, &str); 2] = [
    (
        "200b0000 00000001 0001 000a",
        48,
        "conference 1 members 1 ongoing 0 events 3 open",
    ),
    (
        "20010001 00000001 0002 000a 04040001",
        40,
        "conference 1 members 1 ongoing 1 events 5 open",
    ),
];

/// How often a status is asked for at most, 10 milliseconds apart.
const MAX_ASKS: u32 = 2_000;

/// A line, and the lines that answer it, with a comma between each two. Conference 1 is open and
/// has one member, which asked for a floor. console_more.toml has conference 2, console_again.toml
/// conference 3 at the same port. console_taken.toml has conference 4, of whose two ports another
/// program has the second; console_free.toml has conference 5 at the first of them, and then
/// conference 1.
const EXCHANGE: &str = "open console_more.toml=ok opened 1
open console_more.toml=error Used
open console_again.toml=error CannotListen
open console_taken.toml=error CannotListen
status 4=error NoConference
open console_free.toml=error Used
status 5=conference 5 members 0 ongoing 0 events 0 open
open console_bad.toml=error MissingKey
open console_nowhere.toml=error CannotRead
status 2=conference 2 members 0 ongoing 0 events 0 open
status 3=error NoConference
journal 1=1 join 10,2 message 1 200b0000000000010001000a,3 took 1 1,4 message 1 20010001000000010002000a04040001,5 took 1 1,end 5
revoke 1 2=error NoRequest
revoke 3 1=error NoConference
revoke 1 1=ok revoked 1 1
status 1=conference 1 members 1 ongoing 0 events 7 open
user 1 13 name Ann=ok user 1 13
user 1 13 name Ann=error DoubleUser
user 1 14 name 0123456789012345678901234567890=error OutOfRange
user 1 14 name=error UnknownCommand
user 1 14 port 0=error BadNumber
user 9 13=error NoConference
floor 1 5 room 2 chair 13=ok floor 1 5
floor 1 5=error DoubleFloor
floor 1 6 chair 14=error UnknownChair
floor 1 6 chair 13 room 2=error UnknownCommand
chair 1 5=ok chair 1 5
chair 1 5 99=error UnknownChair
chair 1 9=error NoFloor
chair 1 1 -=error BadNumber
close 3=error NoConference
close 2=ok closed 2
close 2=error Ended
revoke 2 1=error Ended
status 2=conference 2 members 0 ongoing 0 events 1 ended
journal 2=1 close,end 1
journal 3=error NoConference
open console_more.toml=error Used
open console_again.toml=ok opened 1
journal 3=end 0
  status   3 =conference 3 members 0 ongoing 0 events 0 open
close 1=ok closed 1
status 1=conference 1 members 1 ongoing 0 events 11 ended
user 1 15=error Ended
close x=error BadNumber
close 4294967296=error BadNumber
revoke 1 65536=error BadNumber
close 1 2=error UnknownCommand
 =error UnknownCommand
halt=error UnknownCommand
stop=ok stopped seats 1 events 12";

/// Whether conference 1 is found to stand so before it was asked for too often: what a member was
/// told is acknowledged a little later.
fn stands(rt: &HostRuntime, server: &Server, wanted: &str) -> Result<bool, Fail> {
    for _ in 0..MAX_ASKS {
        if ask(rt, server, "status 1")?.as_str() == wanted {
            return Ok(true);
        }
        thread::sleep(rt, Duration::from_millis(10));
    }
    Ok(false)
}

/// What answers a line, as many lines as are wanted. A status is asked for until it is as it is wanted,
/// or too often.
fn answered(rt: &HostRuntime, server: &Server, asked: &str, wanted: &str) -> Result<String, Fail> {
    if asked == "status 1" {
        let _outcome = stands(rt, server, wanted)?;
    }
    // The empty line before it has no answer.
    let asked_after = format!(in rt.alloc(); "\n{asked}")?;
    let mut found = ask(rt, server, asked_after.as_str())?;
    for _ in wanted.split(',').skip(1) {
        found.push(',')?;
        found.push_str(line(rt, server)?.as_str())?;
    }
    Ok(found)
}

#[test]
fn each_line_has_its_answer(rt: HostRuntime) -> Result<(), Fail> {
    let alloc = rt.alloc();
    let taken = TcpListener::bind(&rt, "127.0.0.1:0")?;
    let other = free_port(&rt)?;
    write_file(&rt, "console_more.toml", &[(2, other)])?;
    write_file(&rt, "console_again.toml", &[(3, other)])?;
    let free = free_port(&rt)?;
    write_file(&rt, "console_free.toml", &[(5, free), (1, other)])?;
    let two = format!(in alloc;
        "[[conference]]\nid = 4\n[[conference.user]]\nid = 10\nport = {free}\n\
        [[conference.user]]\nid = 11\nport = {}\n",
        taken.local_addr()?.port()
    )?;
    fs::write(&rt, "console_taken.toml", two.as_str())?;
    fs::write(&rt, "console_bad.toml", "[[conference]]\n")?;
    let port = free_port(&rt)?;
    let (console, start) = prepare(&rt, "console.toml", &[(1, port)])?;
    let thread = thread::spawn(&rt, move || run_to_end(rt, alloc, start))?;
    let server = Server { console, thread };
    assert_eq!(rt; line(&rt, &server)?.as_str(), "ready");
    let mut client = connect(&rt, port)?;
    for (asked, len, wanted) in ASKED {
        send(&rt, &mut client, asked).ok_or("sent")?;
        hear(&rt, &mut client, len).ok_or("heard")?;
        assert!(rt; stands(&rt, &server, wanted)?, "{asked}");
    }
    for row in EXCHANGE.lines() {
        let (asked, wanted) = row.split_once('=').ok_or("a row has a sign")?;
        let found = answered(&rt, &server, asked, wanted)?;
        assert_eq!(rt; found.as_str(), wanted, "{asked}");
    }
    assert_eq!(rt; server.end(&rt), 0);
    for path in [
        "console.toml",
        "console_more.toml",
        "console_again.toml",
        "console_free.toml",
        "console_taken.toml",
        "console_bad.toml",
    ] {
        fs::remove_file(&rt, path)?;
    }
    Ok(())
}
