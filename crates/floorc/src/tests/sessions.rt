//! Sessions over memory.

use super::peer::{HELLO, HELLO_ACK, Halves, Peer, Text, bytes};
use crate::fault::SessionFault;
use crate::lines::Lines;
use crate::session::session;
use floor_client::{Ask, Client};
use std::test::Fail;

/// Each kind of line, with a bad one.
const LINES: &str = "hello
request 1 2 for 11 priority 3 info my turn
release 5
fly
query 5
user 11
watch 2 1
chair 5 2 deny
listen 3
quit
hello
";

/// What they send.
const SENT: &str = "200b0000 00000001 0001 000a
    20010007 00000001 0002 000a 04040001 04040002 0204000b 1009 6d79207475726e 000000 08046000
    20020001 00000001 0003 000a 06040005
    20030001 00000001 0004 000a 06040005
    20050001 00000001 0005 000a 0204000b
    20070002 00000001 0006 000a 04040002 04040001
    20090003 00000001 0007 000a 1e0c0005 22080002 0a040400";

/// What the server sends behind the first response: an error for each message, and four notices.
const ANSWERS: &str = "200d0001 00000001 0002 000a 0c030500
    200d0001 00000001 0003 000a 0c030700
    20080001 00000001 0000 000a 04040001
    200d0001 00000001 0004 000a 0c030700
    200d0001 00000001 0005 000a 0c030200
    20080001 00000001 0006 000a 04040002
    200a0000 00000001 0007 000a
    20080001 00000001 0000 000a 04040002
    20080001 00000001 0000 000a 04040003
    20080001 00000001 0000 000a 04040004
    20080001 00000001 0000 000a 04040005";

const PRINTED: &str = "reply 1 HelloAck
reply 2 Error 5
reply 3 Error 7
error BadLine
notice FloorStatus floor 1
reply 4 Error 7
reply 5 Error 2
reply 6 FloorStatus floor 2
reply 7 ChairActionAck
notice FloorStatus floor 2
notice FloorStatus floor 3
notice FloorStatus floor 4
";

#[test]
fn each_kind_of_line_is_done_before_the_next(rt: HostRuntime) -> Result<(), Fail> {
    let alloc = rt.alloc();
    let answers = format!(in alloc; "{HELLO_ACK} {ANSWERS}")?;
    let answers = bytes(alloc, answers.as_str())?;
    let wanted = bytes(alloc, SENT)?;
    let mut stream = Halves {
        reader: answers.as_slice(),
        writer: Vec::new(alloc),
    };
    let mut output: Vec<u8> = Vec::new(alloc);
    let mut lines = Text { alloc, rest: LINES };
    let mut client = Client::new(alloc, 1, 10);
    let ended = session(alloc, &mut client, &mut lines, &mut output, &mut stream);
    assert_eq!(rt; ended, Ok(()));
    assert_eq!(rt; output.as_slice(), PRINTED.as_bytes());
    assert_eq!(rt; stream.writer.as_slice(), wanted.as_slice());
    Ok(())
}

#[test]
fn a_session_over_pieces_is_the_same(rt: HostRuntime) -> Result<(), Fail> {
    let alloc = rt.alloc();
    let answers = format!(in alloc; "{HELLO_ACK} 20080000 00000001 0002 000a")?;
    let answers = bytes(alloc, answers.as_str())?;
    let wanted = format!(in alloc; "{HELLO} 20070000 00000001 0002 000a")?;
    let wanted = bytes(alloc, wanted.as_str())?;
    for piece in 1..=answers.len() {
        let mut peer = Peer::new(alloc, &answers, piece);
        let mut output: Vec<u8> = Vec::new(alloc);
        let text: &[u8] = b"hello\nfly\nwatch\nquit\nhello\n";
        let mut lines = Lines::new(alloc, text);
        let mut client = Client::new(alloc, 1, 10);
        let ended = session(alloc, &mut client, &mut lines, &mut output, &mut peer);
        assert_eq!(rt; ended, Ok(()), "pieces of {piece}");
        let printed: &[u8] = b"reply 1 HelloAck\nerror BadLine\nreply 2 FloorStatus\n";
        assert_eq!(rt; output.as_slice(), printed, "pieces of {piece}");
        assert_eq!(rt;
            peer.written.as_slice(),
            wanted.as_slice(),
            "pieces of {piece}"
        );
    }
    Ok(())
}

#[test]
fn all_that_is_heard_is_printed(rt: HostRuntime) -> Result<(), Fail> {
    let alloc = rt.alloc();
    let answers = bytes(
        alloc,
        "20080001 00000001 0000 000a 04040001
         200b0000 00000001 0001 000a
         200a0000 00000002 0001 000a
         200d0001 00000001 0001 000a 0c030600
         200a0000 00000001 0001 000a
         20080001 00000001 0000 000a 04040002
         20080001 00000001 0000 000a 04040003",
    )?;
    let mut peer = Peer::new(alloc, &answers, 4096);
    let mut output: Vec<u8> = Vec::new(alloc);
    let text: &[u8] = b"watch 1 9\r\nlisten 0\nlisten 2\n\nlisten 1";
    let mut lines = Lines::new(alloc, text);
    let mut client = Client::new(alloc, 1, 10);
    let ended = session(alloc, &mut client, &mut lines, &mut output, &mut peer);
    assert_eq!(rt; ended, Ok(()));
    let printed: &[u8] = b"notice FloorStatus floor 1\nbad\nstray\nreply 1 Error 6\nstray\n\
        notice FloorStatus floor 2\nerror BadLine\nnotice FloorStatus floor 3\n";
    assert_eq!(rt; output.as_slice(), printed);
    Ok(())
}

#[test]
fn many_lines_are_each_done(rt: HostRuntime) -> Result<(), Fail> {
    let alloc = rt.alloc();
    let mut text: Vec<u8> = Vec::new(alloc);
    for _ in 0..1_500u32 {
        text.extend_from_slice(b"listen 0\nfly\n")?;
    }
    let mut peer = Peer::new(alloc, &[], 1);
    let mut output: Vec<u8> = Vec::new(alloc);
    let mut lines = Lines::new(alloc, text.as_slice());
    let mut client = Client::new(alloc, 1, 10);
    let ended = session(alloc, &mut client, &mut lines, &mut output, &mut peer);
    assert_eq!(rt; ended, Ok(()));
    assert_eq!(rt; output.len(), 1_500 * 14);
    assert!(rt; peer.written.is_empty());
    Ok(())
}

#[test]
fn a_client_without_a_number_ends_the_session(rt: HostRuntime) -> Result<(), Fail> {
    let alloc = rt.alloc();
    let mut client = Client::new(alloc, 1, 10);
    for _ in 0..65_535u32 {
        client.ask(Ask::Hello).ok().ok_or("refused")?;
    }
    let mut peer = Peer::new(alloc, &[], 1);
    let mut output: Vec<u8> = Vec::new(alloc);
    let text: &[u8] = b"fly\nhello\n";
    let mut lines = Lines::new(alloc, text);
    let ended = session(alloc, &mut client, &mut lines, &mut output, &mut peer);
    assert_eq!(rt; ended, Err(SessionFault::NoTransaction));
    let printed: &[u8] = b"error BadLine\n";
    assert_eq!(rt; output.as_slice(), printed);
    assert!(rt; peer.written.is_empty());
    Ok(())
}
