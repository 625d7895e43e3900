//! The control socket: its lines with their answers, tags and order, and what is watched.

use super::clients::{
    ask, ask_control, await_status, connect, control, control_lines, free_port, hear, line, send,
    start_with_socket,
};
use std::fs;
use std::net::{Net, Shutdown, TcpListener, TcpStream};
use std::os::unix::fs::PermissionsExt;
use std::os::unix::net::UnixStream;
use std::test::Fail;

/// A line, and behind an arrow the lines that answer it, with a comma between each two. Conference 1 is open, with user 10 at a port
/// and floor 1, and nobody is connected. A stroke stands for a line feed.
const EXCHANGE: &str = "status 1 => conference 1 members 0 ongoing 0 events 0 open
@a.b-C_9 list => @a.b-C_9 conference 1 members 0 ongoing 0 events 0 open,@a.b-C_9 end 1
@c status 9\r => @c error NoConference
halt => error UnknownCommand
@ => error UnknownCommand
@x => @x error UnknownCommand
@x  => @x error UnknownCommand
@ä list => error UnknownCommand
@123456789012345678901234567890123 list => error UnknownCommand
user 1 11 proxy name Ann => ok user 1 11 at 1
floor 1 2 room 3 chair 11 => ok floor 1 2 at 2
@t chair 1 1 11 => @t ok chair 1 1 at 3
floors 1 => floor 1 room 1 chair 11,floor 2 room 3 chair 11,end 2 4
members 1 => end 0 4
members 9 => error NoConference
leave 1 1 => error NoMember
leave 9 1 => error NoConference
journal 1 from 3 => 3 chair 1 11,end 3
journal 1 from 4 => end 3
journal 1 from 5 => error BadPlace
journal 1 from 0 => error BadPlace
watch 1 from 5 => error BadPlace
watch 9 => error NoConference
@w watch 1 => @w ok watching 1 4
watch 1 => error Watching
user 1 12 => ! 1 4 user 12,! 1 4 .,ok user 1 12 at 4
unwatch 1 => ok unwatched 1
unwatch 1 => ok unwatched 1
watch 1 from 4 => ok watching 1 5,! 1 4 user 12,! 1 4 .
unwatch 1 => ok unwatched 1
word 1 b 6162 => ok word 1 b
word 1 a 00 => ok word 1 a
word 1 c 7 => error BadHex
words 1 => word a 00,word b 6162,end 2
word 1 b - => ok word 1 b
words 1 => word a 00,end 1
open .|[[conference]]|id = 7|[[conference.user]]|id = 3|. => ok opened 1
open .|[[conference]]|id = 7|. => error Used
open .\r|[[conference]]\r|id = 7\r|.\r => error Used
open .|[[conference]]||. => error MissingKey line 1
open .|[[conference]]|id = 8|[[conference.user]]|id = 70000|. => error OutOfRange line 4
open .|[[conference]]|id = 8|[[conference.user]]|id = 3|[[conference.user]]|id = 3|. => error DoubleUser line 6
open .|[[conference|. => error Syntax line 1
status 8 => error NoConference
forget 7 => error Running
close 7 => ok closed 7 at 1
forget 9 => error NoConference
forget 7 => ok forgotten 7
forget 7 => error Forgotten
status 7 => error Forgotten
journal 7 => error Forgotten
users 7 => error Forgotten
watch 7 => error Forgotten
unwatch 7 => error Forgotten
close 7 => error Ended
word 7 a 00 => error Ended
leave 7 1 => error Ended
open .|[[conference]]|id = 7|. => error Used
list => conference 1 members 0 ongoing 0 events 4 open,end 1
@s stop => @s ok stopped seats 0 events 5";

#[test]
fn each_line_of_the_socket_has_its_answer(rt: HostRuntime) -> Result<(), Fail> {
    let alloc = rt.alloc();
    let path = "control-lines";
    let server = start_with_socket(rt, "control.toml", path, free_port(&rt)?)?;
    let mode = fs::metadata(&rt, path)?.permissions().mode();
    assert_eq!(rt; mode & 0o777, 0o600);
    let mut client = control(&rt, path)?;
    for row in EXCHANGE.lines() {
        let (asked, wanted) = row.split_once(" => ").ok_or("a row has an arrow")?;
        let asked = asked.replace(alloc, "|", "\n")?;
        let count = wanted.split(',').count();
        let found = ask_control(alloc, &mut client, asked.as_str(), count)?;
        assert_eq!(rt; found.as_str(), wanted, "{asked}");
    }
    assert_eq!(rt; server.end(&rt), 0);
    assert!(rt; fs::metadata(&rt, path).is_err());
    fs::remove_file(&rt, "control.toml")?;
    Ok(())
}

/// What is told of a member that joins, asks for a floor and is shown out.
const WATCHED: &str = "! 1 1 joined 1 user 10,! 1 1 .,\
! 1 4 request 1 user 10 Granted:0 floors 1 reason -,! 1 4 .,\
! 1 6 request 1 user 10 Revoked:0 floors 1 reason -,! 1 6 .,! 1 8 left 1 user 10,! 1 8 .";

/// What was watched live is what is watched again from any place, and behind each answer stands what it did.
#[test]
fn what_is_watched_from_a_place_is_the_rest(rt: HostRuntime) -> Result<(), Fail> {
    let alloc = rt.alloc();
    let path = "control-watch";
    let port = free_port(&rt)?;
    let server = start_with_socket(rt, "watch.toml", path, port)?;
    let mut first = control(&rt, path)?;
    let mut second = control(&rt, path)?;
    let found = ask_control(alloc, &mut first, "watch 1", 1)?;
    assert_eq!(rt; found.as_str(), "ok watching 1 1");
    let mut member = connect(&rt, port)?;
    send(&rt, &mut member, "200b0000 00000001 0001 000a").ok_or("sent")?;
    hear(&rt, &mut member, 48).ok_or("heard")?;
    let mut heard = control_lines(alloc, &mut first, 2)?;
    // Its answer is acknowledged, at place 3, before it asks.
    await_status(&rt, &mut second, "events 3 ")?;
    send(&rt, &mut member, "20010001 00000001 0002 000a 04040001").ok_or("sent")?;
    hear(&rt, &mut member, 40).ok_or("heard")?;
    await_status(&rt, &mut second, "events 5 ")?;
    let answer = ask_control(alloc, &mut second, "@r revoke 1 1", 1)?;
    assert_eq!(rt; answer.as_str(), "@r ok revoked 1 1 at 6");
    await_status(&rt, &mut second, "events 7 ")?;
    heard.push(',')?;
    heard.push_str(ask_control(alloc, &mut first, "@l leave 1 1", 6)?.as_str())?;
    assert_eq!(rt; heard.as_str(), WATCHED);
    assert_eq!(rt;
        control_lines(alloc, &mut first, 1)?.as_str(),
        "@l ok left 1 1 at 8"
    );
    let lines = WATCHED.split(',').count();
    for (place, from) in [(1, 0), (2, 2), (4, 2), (5, 4), (7, 6), (8, 6)] {
        let mut wanted = String::from_str(alloc, "ok watching 1 9")?;
        for shown in WATCHED.split(',').skip(from) {
            wanted.push(',')?;
            wanted.push_str(shown)?;
        }
        let found = again(&rt, path, place, lines.saturating_sub(from))?;
        assert_eq!(rt; found.as_str(), wanted.as_str(), "{place}");
    }
    assert_eq!(rt;
        ask(&rt, &server, "stop")?.as_str(),
        "ok stopped seats 1 events 8"
    );
    assert_eq!(rt; server.end(&rt), 0);
    fs::remove_file(&rt, "watch.toml")?;
    Ok(())
}

/// What a client that comes anew is told that watches from a place, so many lines behind the answer.
fn again<R>(rt: &R, path: &str, place: u32, count: usize) -> Result<String, Fail>
where
    R: Net<Listener = TcpListener, Stream = TcpStream> + AllocGlobal,
{
    let alloc = rt.alloc();
    let mut client = control(rt, path)?;
    let asked = format!(in alloc; "watch 1 from {place}")?;
    ask_control(alloc, &mut client, asked.as_str(), count.saturating_add(1))
}

/// The end of the console's input stops nothing, and a drained server ends once its last conference is closed.
#[test]
fn a_drained_server_ends_with_its_last_conference(rt: HostRuntime) -> Result<(), Fail> {
    let alloc = rt.alloc();
    let path = "control-drain";
    let server = start_with_socket(rt, "drain.toml", path, free_port(&rt)?)?;
    server.console.shutdown(Shutdown::Write)?;
    let mut client = control(&rt, path)?;
    assert_eq!(rt;
        ask_control(alloc, &mut client, "@d drain", 1)?.as_str(),
        "@d ok draining"
    );
    let opened = "open .\n[[conference]]\nid = 2\n.";
    assert_eq!(rt;
        ask_control(alloc, &mut client, opened, 1)?.as_str(),
        "error Draining"
    );
    assert_eq!(rt;
        ask_control(alloc, &mut client, "close 1", 1)?.as_str(),
        "ok closed 1 at 1"
    );
    assert_eq!(rt; line(&rt, &server)?.as_str(), "ok stopped seats 0 events 1");
    assert_eq!(rt; server.end(&rt), 0);
    fs::remove_file(&rt, "drain.toml")?;
    Ok(())
}
