//! Shorthands for bytes: `R(0001, 000a, 0002, 0201, 0003, 4000)` tells user 000a in transaction 0001
//! that its request 0002 has status and position 0201, and that it is for floor 0003 with priority
//! 2, 4000 on the wire.

use crate::fault::Fault;
use std::alloc::Global;

/// Each shorthand, and the bytes in hexadecimal that it is short for. `#1` is its first argument.
///
/// - R: FloorRequestStatus of a request for one floor: transaction, user, request, status and
///   position, floor, priority.
/// - Joint: the same of a request for two floors: transaction, user, request, overall status and
///   position, a floor with its status and position, the other floor with its own, priority.
/// - Triple: as Joint, for three floors.
/// - Proxied: as R, of a request that one user made for another: transaction, user, request, status
///   and position, floor, beneficiary, requester, priority.
/// - Info: FLOOR-REQUEST-INFORMATION of a request for one floor: request, beneficiary, status and
///   position, floor, priority.
/// - E: Error: transaction, user, code.
/// - Ack, HelloAck, Hello: ChairActionAck, HelloAck, Hello: transaction, user.
/// - Request, Prior: FloorRequest for one floor: transaction, user, floor, and the priority.
/// - Release: FloorRelease: transaction, user, request.
/// - Chair, Chair2: ChairAction: transaction, user, request, then each floor with its status and
///   position.
const SHORTHANDS: &str = "
R 20040007 00000001 #1 #2 1e1c #3 2408 #3 0a04 #4 2208 #5 0a04 #4 1c04 #2 0804 #6
Joint 20040009 00000001 #1 #2 1e24 #3 2408 #3 0a04 #4 2208 #5 0a04 #6 2208 #7 0a04 #8 1c04 #2 0804 #9
Triple 2004000b 00000001 #1 #2 1e2c #3 2408 #3 0a04 #4 2208 #5 0a04 #6 2208 #7 0a04 #8 2208 #9 0a04 #10 1c04 #2 0804 #11
Proxied 20040008 00000001 #1 #2 1e20 #3 2408 #3 0a04 #4 2208 #5 0a04 #4 1c04 #6 2004 #7 0804 #8
Info 1e1c #1 2408 #1 0a04 #3 2208 #4 0a04 #3 1c04 #2 0804 #5
E 200d0001 00000001 #1 #2 0c03 #3 00
Ack 200a0000 00000001 #1 #2
HelloAck 200c0009 00000001 #1 #2 160f0102 03040506 0708090a 0b0c0d00 14140204 06080a0c 0e101214 16181a1c 1e202224
Hello 200b0000 00000001 #1 #2
Request 20010001 00000001 #1 #2 0404 #3
Prior 20010002 00000001 #1 #2 0404 #3 0804 #4
Release 20020001 00000001 #1 #2 0604 #3
Chair 20090003 00000001 #1 #2 1e0c #3 2208 #4 0a04 #5
Chair2 20090005 00000001 #1 #2 1e14 #3 2208 #4 0a04 #5 2208 #6 0a04 #7
";

/// A line whose shorthands are written out. What stands in parentheses behind a space is text.
pub fn spelled(alloc: Global, line: &str) -> Result<String, Fault> {
    let mut out = String::new(alloc);
    for piece in line.split(')') {
        match piece.split_once('(') {
            None => out.push_str(piece)?,
            Some((front, arguments)) => {
                let (front, name) = front.rsplit_once(' ').unwrap_or(("", front));
                if name.is_empty() {
                    out.push_str(piece)?;
                    out.push(')')?;
                } else {
                    out.push_str(front)?;
                    push_shorthand(alloc, &mut out, name, arguments)?;
                }
            }
        }
    }
    Ok(out)
}

/// The bytes that a shorthand is short for, with its arguments' numbers.
fn shorthand(name: &str) -> Option<&'static str> {
    for line in SHORTHANDS.lines() {
        match line.split_once(' ') {
            Some((first, words)) if first == name => return Some(words),
            _ => {}
        }
    }
    None
}

/// Appends the words that a shorthand is short for, each behind a space.
fn push_shorthand(
    alloc: Global,
    out: &mut String,
    name: &str,
    arguments: &str,
) -> Result<(), Fault> {
    let Some(words) = shorthand(name) else {
        return Err(Fault::Layout("no such shorthand"));
    };
    let arguments: Vec<&str> = arguments.split(',').collect(alloc)?;
    for word in words.split(' ') {
        let Some(word) = spelled_word(word, arguments.as_slice()) else {
            return Err(Fault::Layout("a shorthand has too few arguments"));
        };
        out.push(' ')?;
        out.push_str(word)?;
    }
    Ok(())
}

/// A word of bytes, or the argument that it stands for.
fn spelled_word<'a>(word: &'a str, arguments: &[&'a str]) -> Option<&'a str> {
    let Some(number) = word.strip_prefix('#') else {
        return Some(word);
    };
    let number: usize = number.parse().ok()?;
    let argument = arguments.get(number.checked_sub(1)?)?;
    Some(argument.trim())
}
