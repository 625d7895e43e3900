//! The worked example of limits: 64 live connections, and 256 ongoing requests. That of 65,535 numbers is a program
//! of its own, test_limits.

use crate::scripts::Scripts;
use std::alloc::Global;
use test_cases::{Case, Fault};

/// Users 10 to 26 may each have 16 ongoing requests for floor 1, which has room for one.
const SEVENTEEN_USERS: &str = "[[conference]]
id = 1
limit = 16
user = [{ id = 10 }, { id = 11 }, { id = 12 }, { id = 13 }, { id = 14 }, { id = 15 }, { id = 16 }, { id = 17 }, { id = 18 }, { id = 19 }, { id = 20 }, { id = 21 }, { id = 22 }, { id = 23 }, { id = 24 }, { id = 25 }, { id = 26 }]
floor = [{ id = 1 }]";

/// What is asked of a conference with 256 ongoing requests.
const BEYOND_256: &str = "
# Request 256 is at position 255.
> send 1 20030001 00000001 0001 000a 06040100
< 1 20040007 00000001 0001 000a 1e1c0100 24080100 0a0402ff 22080001 0a0402ff 1c040019 08044000
# A seventeenth user, and one of the sixteen, for whom the limit of the floor comes first.
> send 17 Request(0001, 001a, 0001)
< 17 200d0001 00000001 0001 001a 0c030e00
> send 1 Request(0001, 000a, 0001)
< 1 200d0001 00000001 0001 000a 0c030800
> send 1 Release(0002, 000a, 0001)
";

/// The status and position of the request with so many before it: the first has the floor, and each
/// of the others waits behind those between.
fn status_behind(alloc: Global, before: u16) -> Result<String, Fault> {
    if before == 0 {
        return Ok(String::from_str(alloc, "0300")?);
    }
    Ok(format!(in alloc; "02{before:02x}")?)
}

/// Users 10 to 26 connect, and users 10 to 25 ask in turn, 16 times each.
fn full_conference(alloc: Global) -> Result<String, Fault> {
    let mut text = String::new(alloc);
    for connection in 1..18u16 {
        let user = connection.wrapping_add(9);
        let line = format!(in alloc; "> attach 1 {user}\n< attached {connection}\n")?;
        text.push_str(line.as_str())?;
    }
    for place in 0..256u16 {
        let connection = (place % 16).wrapping_add(1);
        let user = connection.wrapping_add(9);
        let request = place.wrapping_add(1);
        let status = status_behind(alloc, place)?;
        let lines = format!(in alloc;
            "> send {connection} Request(0001, {user:04x}, 0001)\n\
             < {connection} R(0001, {user:04x}, {request:04x}, {status}, 0001, 4000)\n"
        )?;
        text.push_str(lines.as_str())?;
    }
    Ok(text)
}

/// What the release of request 1 tells: the users of connections 1 to 16 in turn, of each of their
/// 16 requests by ascending number, that one request fewer is before it.
fn moved_up(alloc: Global) -> Result<String, Fault> {
    let mut text = String::from_str(alloc, "< 1 R(0002, 000a, 0001, 0600, 0001, 4000)\n")?;
    for line in 1..256u16 {
        let connection = (line / 16).wrapping_add(1);
        let user = connection.wrapping_add(9);
        let place = (line % 16).wrapping_mul(16).wrapping_add(line / 16);
        let request = place.wrapping_add(1);
        let status = status_behind(alloc, place.wrapping_sub(1))?;
        let told = format!(in alloc;
            "< {connection} R(0000, {user:04x}, {request:04x}, {status}, 0001, 4000)\n"
        )?;
        text.push_str(told.as_str())?;
    }
    Ok(text)
}

fn check_256_requests(alloc: Global) -> Result<(), Fault> {
    let mut case = Case::new(alloc, SEVENTEEN_USERS)?;
    case.extend(alloc, full_conference(alloc)?.as_str())?;
    case.extend(alloc, BEYOND_256)?;
    case.extend(alloc, moved_up(alloc)?.as_str())?;
    case.extend(
        alloc,
        "> send 17 Request(0003, 001a, 0001)\n< 17 R(0003, 001a, 0101, 02ff, 0001, 4000)",
    )?;
    case.check(&mut Scripts, alloc, "256 ongoing requests")
}

/// 64 connections of user 10 attach.
fn full_of_connections(alloc: Global) -> Result<Case, Fault> {
    let mut case = Case::new(alloc, "")?;
    for connection in 1..65u8 {
        let attached = format!(in alloc; "> attach 1 10\n< attached {connection}\n")?;
        case.extend(alloc, attached.as_str())?;
    }
    Ok(case)
}

/// What is refused beside 64 live connections, and what one that leaves makes room for.
const BESIDE_64: &str = "
> attach 1 10
< refused Full
> attach 1 99
< refused NoUser
> leave 7
> attach 1 11
< attached 65
> attach 1 10
< refused Full
> close 1
> attach 1 10
< refused Ended
";

fn check_64_connections(alloc: Global) -> Result<(), Fault> {
    let mut case = full_of_connections(alloc)?;
    case.extend(alloc, BESIDE_64)?;
    case.check(&mut Scripts, alloc, "64 live connections")
}

/// Two limits of a conference, each reached and gone beyond.
pub fn run(alloc: Global) -> Result<usize, Fault> {
    check_256_requests(alloc)?;
    check_64_connections(alloc)?;
    Ok(2)
}
