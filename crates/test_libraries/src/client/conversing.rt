//! Clients that ask and hear, as lines and what they answer.

use crate::cases::{assert_told, differing};
use crate::hexadecimal::{frame, spelled};
use floor_client::{Ask, AskRefusal, Client, Frame, render};
use std::alloc::{AllocError, Global};

/// The lines of a script that answer something else than is wanted, and how many it has.
fn told_of_script(
    alloc: Global,
    conference: u32,
    user: u16,
    script: &str,
) -> Result<String, AllocError> {
    let mut client = Client::new(alloc, conference, user);
    differing(alloc, script, "\n", " = ", |alloc, line| {
        answer(alloc, &mut client, line)
    })
}

/// What a line of a script answers: of `ask` what is asked, of `ask_often` the last transaction of
/// 65,535, and of a message what is heard.
fn answer(alloc: Global, client: &mut Client, line: &str) -> Result<String, AllocError> {
    match line {
        "ask" => asked(alloc, client),
        "ask_often" => asked_often(alloc, client),
        message => heard_message(alloc, client, message),
    }
}

fn asked(alloc: Global, client: &mut Client) -> Result<String, AllocError> {
    match client.ask(Ask::Hello) {
        Err(refusal) => String::from_str(alloc, refusal.name()),
        Ok(frame) => {
            let mut told = String::from_str(alloc, "asked")?;
            told.push_str(&spelled(alloc, frame.bytes())?)?;
            Ok(told)
        }
    }
}

fn asked_often(alloc: Global, client: &mut Client) -> Result<String, AllocError> {
    let mut last = 0;
    for _ in 0..65_535u32 {
        if let Ok(frame) = client.ask(Ask::Hello) {
            last = frame.header().transaction();
        }
    }
    format!(in alloc; "{last}")
}

fn heard_message(alloc: Global, client: &mut Client, text: &str) -> Result<String, AllocError> {
    match frame(alloc, text)? {
        None => String::from_str(alloc, "no message"),
        Some(frame) => heard(alloc, client, &frame),
    }
}

/// The line of what a client hears.
pub(super) fn heard(
    alloc: Global,
    client: &mut Client,
    frame: &Frame,
) -> Result<String, AllocError> {
    let heard = client.heard(frame)?;
    render(alloc, &heard)
}

#[test]
fn a_response_is_heard_once(rt: HostRuntime) {
    let script = "ask = asked 200b0000 00000001 0001000a
200c0009 00000001 0001 000a 160f0102 03040506 0708090a 0b0c0d00 14140204 06080a0c 0e101214 16181a1c 1e202224 = reply 1 HelloAck
200c0009 00000001 0001 000a 160f0102 03040506 0708090a 0b0c0d00 14140204 06080a0c 0e101214 16181a1c 1e202224 = stray";
    assert_told(&rt, told_of_script(rt.alloc(), 1, 10, script), "3 cases");
}

#[test]
fn what_a_client_hears_is_bad_astray_a_response_or_a_notice(rt: HostRuntime) {
    let script = "ask = asked 200b0000 00000001 0001000a
ask = asked 200b0000 00000001 0002000a
ask = asked 200b0000 00000001 0003000a
200a0000 00000002 0001 000a = stray
200a0000 00000001 0001 000b = stray
200a0000 00000001 0004 000a = stray
400a0000 00000001 0001 000a = bad
200b0000 00000001 0001 000a = bad
400a0000 00000002 0001 000a = bad
200a0000 00000002 0000 000a = stray
20080000 00000001 0000 000a = notice FloorStatus
200a0000 00000001 0002 000a = reply 2 ChairActionAck
200a0000 00000001 0002 000a = stray
200a0000 00000001 0001 000a = reply 1 ChairActionAck
200a0000 00000001 0003 000a = reply 3 ChairActionAck
20080000 00000001 0000 000a = notice FloorStatus";
    assert_told(&rt, told_of_script(rt.alloc(), 1, 10, script), "16 cases");
}

/// The numbers that are free again are chosen in turn, and 1 follows the greatest.
const ALL_OPEN: &str = "\
ask_often = 65535
ask = NoTransaction
ask = NoTransaction
ask = NoTransaction
200a0000 00000001 8000 000a = reply 32768 ChairActionAck
200a0000 00000001 ffff 000a = reply 65535 ChairActionAck
200a0000 00000001 0001 000a = reply 1 ChairActionAck
ask = asked 200b0000 00000001 0001000a
ask = asked 200b0000 00000001 8000000a
ask = asked 200b0000 00000001 ffff000a
ask = NoTransaction";

#[test]
fn a_client_with_all_numbers_open_asks_nothing(rt: HostRuntime) {
    assert_told(&rt, told_of_script(rt.alloc(), 1, 10, ALL_OPEN), "11 cases");
    assert!(rt; AskRefusal::Memory.name() == "Memory");
}

#[test]
fn a_response_has_its_number(rt: HostRuntime) {
    let script = "ask = asked 200b0000 ffffffff 0001ffff
200d0001 ffffffff 0001 ffff 0c030e00 = reply 1 Error 14";
    let told = told_of_script(rt.alloc(), 4_294_967_295, 65_535, script);
    assert_told(&rt, told, "2 cases");
}
