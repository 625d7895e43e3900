//! Streams and outputs that end or fail at each byte.

use super::peer::{HELLO_ACK, Peer, bytes};
use crate::fault::SessionFault;
use crate::lines::Lines;
use crate::session::session;
use crate::socket_fault::SocketFault;
use floor_client::Client;
use std::test::Fail;

const LINES: &[u8] = b"hello\nfly\nwatch\n";

const PRINTED: &[u8] = b"reply 1 HelloAck\nerror BadLine\nreply 2 FloorStatus\n";

#[test]
fn a_stream_that_ends_or_fails_within_a_response_is_a_fault(rt: HostRuntime) -> Result<(), Fail> {
    let alloc = rt.alloc();
    let answers = format!(in alloc; "{HELLO_ACK} 20080000 00000001 0002 000a")?;
    let answers = bytes(alloc, answers.as_str())?;
    for cut in 0..answers.len() {
        for fails in [false, true] {
            let mut peer = Peer::new(alloc, &answers[..cut], 7);
            peer.fails = fails;
            let mut output: Vec<u8> = Vec::new(alloc);
            let mut lines = Lines::new(alloc, LINES);
            let mut client = Client::new(alloc, 1, 10);
            let ended = session(alloc, &mut client, &mut lines, &mut output, &mut peer);
            let fault = if fails {
                SocketFault::Reset
            } else {
                SocketFault::Closed
            };
            assert_eq!(rt; ended, Err(SessionFault::Socket(fault)), "cut at {cut}");
            let printed: &[u8] = if cut < 48 {
                b""
            } else {
                b"reply 1 HelloAck\nerror BadLine\n"
            };
            assert_eq!(rt; output.as_slice(), printed, "cut at {cut}");
            assert_eq!(rt;
                peer.written.len(),
                if cut < 48 { 12 } else { 24 },
                "cut at {cut}"
            );
        }
    }
    Ok(())
}

#[test]
fn a_stream_that_takes_no_more_is_a_fault(rt: HostRuntime) -> Result<(), Fail> {
    let alloc = rt.alloc();
    let answers = format!(in alloc; "{HELLO_ACK} 20080000 00000001 0002 000a")?;
    let answers = bytes(alloc, answers.as_str())?;
    for room in 0..24 {
        for fails in [false, true] {
            let mut peer = Peer::new(alloc, &answers, 5);
            peer.fails = fails;
            peer.room = room;
            let mut output: Vec<u8> = Vec::new(alloc);
            let mut lines = Lines::new(alloc, LINES);
            let mut client = Client::new(alloc, 1, 10);
            let ended = session(alloc, &mut client, &mut lines, &mut output, &mut peer);
            let fault = if fails {
                SocketFault::Reset
            } else {
                SocketFault::Failed
            };
            assert_eq!(rt; ended, Err(SessionFault::Socket(fault)), "room for {room}");
            assert_eq!(rt; peer.written.len(), room, "room for {room}");
        }
    }
    Ok(())
}

#[test]
fn an_output_that_takes_no_more_is_a_fault(rt: HostRuntime) -> Result<(), Fail> {
    let alloc = rt.alloc();
    let answers = format!(in alloc; "{HELLO_ACK} 20080000 00000001 0002 000a")?;
    let answers = bytes(alloc, answers.as_str())?;
    for room in 0..PRINTED.len() {
        for fails in [false, true] {
            let mut peer = Peer::new(alloc, &answers, 4096);
            let mut output = Peer::new(alloc, &[], 3);
            output.fails = fails;
            output.room = room;
            let mut lines = Lines::new(alloc, LINES);
            let mut client = Client::new(alloc, 1, 10);
            let ended = session(alloc, &mut client, &mut lines, &mut output, &mut peer);
            assert_eq!(rt; ended, Err(SessionFault::CannotWrite), "room for {room}");
            assert_eq!(rt;
                output.written.as_slice(),
                &PRINTED[..room],
                "room for {room}"
            );
        }
    }
    Ok(())
}
