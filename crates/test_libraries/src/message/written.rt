//! Written asks: their bytes, and that they are read back.

use super::shown::{is_read_back, written};
use crate::cases::assert_told;
use crate::hexadecimal::spelled;
use floor_message::{Ask, Verdict, Verdicts};
use floor_wire::{Numbers, Octets};
use std::alloc::{AllocError, Global};

/// Appends the ask as it is written, and a bar where it is read back.
fn push_written(alloc: Global, told: &mut String, ask: &Ask) -> Result<(), AllocError> {
    match written(alloc, 2, ask)? {
        None => told.push_str(" it doesn't fit"),
        Some(frame) => {
            told.push_str(&spelled(alloc, frame.bytes())?)?;
            if is_read_back(alloc, &frame, ask)? {
                told.push('|')?;
            }
            Ok(())
        }
    }
}

fn numbers(alloc: Global, numbers: &[u16]) -> Result<Numbers, AllocError> {
    Ok(Numbers::from_vec(Vec::from_slice(alloc, numbers)?))
}

#[test]
fn a_written_floor_request_is_read_back(rt: HostRuntime) {
    let wanted =
        " 20010002 00000001 0002000a 04040001 08044000| 20010006 00000001 0002000a 04040002 \
        04040001 0204000b 10056869 21000000 08048000|";
    assert_told(&rt, floor_requests(rt.alloc()), wanted);
}

/// A FloorRequest with a floor alone, and one with every attribute.
fn floor_requests(alloc: Global) -> Result<String, AllocError> {
    let mut told = String::new(alloc);
    let plain = Ask::FloorRequest {
        beneficiary: None,
        floors: numbers(alloc, &[1])?,
        priority: 2,
        info: None,
    };
    push_written(alloc, &mut told, &plain)?;
    let full = Ask::FloorRequest {
        beneficiary: Some(11),
        floors: numbers(alloc, &[2, 1])?,
        priority: 4,
        info: Some(Octets::from_vec(Vec::from_slice(alloc, b"hi!")?)),
    };
    push_written(alloc, &mut told, &full)?;
    Ok(told)
}

#[test]
fn a_written_question_is_read_back(rt: HostRuntime) {
    let wanted =
        " 20020001 00000001 0002000a 06040007| 20030001 00000001 0002000a 0604ffff| 20050001 \
        00000001 0002000a 0204000d| 20050000 00000001 0002000a| 200b0000 00000001 0002000a| \
        20070002 00000001 0002000a 04040002 04040001|";
    assert_told(&rt, questions(rt.alloc()), wanted);
}

fn questions(alloc: Global) -> Result<String, AllocError> {
    let mut told = String::new(alloc);
    let plain = [
        Ask::FloorRelease { request: 7 },
        Ask::FloorRequestQuery { request: 65535 },
        Ask::UserQuery {
            beneficiary: Some(13),
        },
        Ask::UserQuery { beneficiary: None },
        Ask::Hello,
    ];
    for ask in &plain {
        push_written(alloc, &mut told, ask)?;
    }
    let floors = numbers(alloc, &[2, 1])?;
    push_written(alloc, &mut told, &Ask::FloorQuery { floors })?;
    Ok(told)
}

#[test]
fn a_written_chair_action_is_read_back(rt: HostRuntime) {
    let wanted =
        " 20090009 00000001 0002000a 1e240001 22080001 0a040200 22080002 0a040300 22080003 \
        0a040400 22080004 0a040700|";
    assert_told(&rt, chair_action(rt.alloc()), wanted);
}

/// A ChairAction with each verdict.
fn chair_action(alloc: Global) -> Result<String, AllocError> {
    let verdicts = [
        (1, Verdict::Accepted),
        (2, Verdict::Granted),
        (3, Verdict::Denied),
        (4, Verdict::Revoked),
    ];
    let ask = Ask::ChairAction {
        request: 1,
        verdicts: Verdicts::from_vec(Vec::from_slice(alloc, &verdicts)?),
        reason: None,
    };
    let mut told = String::new(alloc);
    push_written(alloc, &mut told, &ask)?;
    Ok(told)
}
