//! Messages at their greatest size: that each is read and written, since no clause says that want of
//! memory doesn't come at some size.
//!
//! A payload is written in pieces, as `31 x 2208#0a040300`: so many times these bytes, each with its
//! place from 0 for `#`.

use super::shown::{asked, shown, written};
use crate::cases::{assert_told, differing, number};
use crate::framed::message;
use crate::hexadecimal::payload;
use floor_message::{
    Ask, Frame, Head, Info, Infos, Octets, Tell, Who, read_tell, tell_fits, write_tell,
};
use std::alloc::{AllocError, Global};

/// The message of a case: its primitive and its payload stand behind `>`.
fn frame_of(alloc: Global, case: &str) -> Result<Option<Frame>, AllocError> {
    let (_name, text) = case.split_once('>').unwrap_or((case, ""));
    let (primitive, pieces) = text.split_once(':').unwrap_or((text, ""));
    let primitive = number(primitive.trim()).min(255) as u8;
    Frame::of(
        alloc,
        &message(alloc, primitive, 1, &payload(alloc, pieces)?)?,
    )
}

/// How many bytes there are.
fn len_of(octets: &Option<Octets>) -> usize {
    match octets {
        Some(octets) => octets.as_slice().len(),
        None => 0,
    }
}

/// How many units a message has behind its header, and whether it is the one that was read.
fn compared(alloc: Global, written: &Frame, read: &[u8]) -> Result<String, AllocError> {
    let units = written.header().payload_length();
    let same = if written.bytes() == read {
        ", the same"
    } else {
        ""
    };
    format!(in alloc; "; written in {units} units{same}")
}

/// What is asked: how many floors and verdicts, and the last of them.
fn ask_text(alloc: Global, ask: &Ask) -> Result<String, AllocError> {
    match ask {
        Ask::FloorRequest {
            beneficiary,
            floors,
            priority,
            info,
        } => {
            let floors = floors.as_slice();
            let (count, last) = (floors.len(), floors.last());
            let text = len_of(info);
            format!(in alloc; "FloorRequest {count} {last:?} {beneficiary:?} {priority} {text}")
        }
        Ask::FloorQuery { floors } => {
            let floors = floors.as_slice();
            let (count, last) = (floors.len(), floors.last());
            format!(in alloc; "FloorQuery {count} {last:?}")
        }
        Ask::ChairAction {
            request,
            verdicts,
            reason,
        } => {
            let verdicts = verdicts.as_slice();
            let (count, last) = (verdicts.len(), verdicts.last());
            let text = len_of(reason);
            format!(in alloc; "ChairAction {request} {count} {last:?} {text}")
        }
        ask => format!(in alloc; "{ask:?}"),
    }
}

/// What a case's message asks, and how it is written where it fits.
fn ask_answer(alloc: Global, case: &str) -> Result<String, AllocError> {
    match frame_of(alloc, case)? {
        None => String::from_str(alloc, "no message"),
        Some(frame) => asked_and_written(alloc, &frame),
    }
}

fn asked_and_written(alloc: Global, frame: &Frame) -> Result<String, AllocError> {
    let answer = asked(alloc, frame);
    match &answer {
        Ok(Some(ask)) => ask_and_written(alloc, frame, ask),
        answer => shown(alloc, answer),
    }
}

fn ask_and_written(alloc: Global, frame: &Frame, ask: &Ask) -> Result<String, AllocError> {
    let mut text = ask_text(alloc, ask)?;
    if let Some(written) = written(alloc, 1, ask)? {
        text.push_str(&compared(alloc, &written, frame.bytes())?)?;
    }
    Ok(text)
}

const ASKS: &str = "\
as many floors as a message holds
> 7: 65535 x 0404#
< FloorQuery 65535 Some(65534)

the most floors that are written
> 7: 60000 x 0404#
< FloorQuery 60000 Some(59999); written in 60000 units, the same

a floor more
> 7: 60001 x 0404#
< FloorQuery 60001 Some(60000)

a request for as many floors as a message holds
> 1: 65534 x 0404#, 1 x 08048000
< FloorRequest 65534 Some(65533) None 4 0

the greatest request that is written
> 1: 60000 x 0404#, 1 x 0204000b 1040, 62 x 61, 1 x 08048000
< FloorRequest 60000 Some(59999) Some(11) 4 62; written in 60018 units, the same

the longest text, behind all other attributes
> 1: 1 x 04040001, 65470 x 28040000, 1 x 10ff, 253 x 61, 1 x 00
< FloorRequest 1 Some(1) None 2 62; written in 18 units

a group that ends with the message, and judges as many floors as it holds
> 9: 65472 x 28040000, 1 x 1efc0007 24080007 0a040200, 60 x 2204#
< ChairAction 7 60 Some((59, Accepted)) 0

the most verdicts that are written, behind byte 65,535
> 9: 16384 x 28040000, 1 x 1efc0007, 31 x 2208#0a040700
< ChairAction 7 31 Some((30, Revoked)) 0; written in 63 units

the most verdicts
> 9: 1 x 1efc0007, 31 x 2208#0a040700
< ChairAction 7 31 Some((30, Revoked)) 0; written in 63 units, the same

the most verdicts with a reason, and the longest reason
> 9: 1 x 1ef80007 24240007 1220, 30 x 61, 26 x 2208#0a040700
< ChairAction 7 26 Some((25, Revoked)) 30; written in 62 units, the same

a verdict more with a reason
> 9: 1 x 1ee40007 24080007 1203 6100, 27 x 2208#0a040700
< ChairAction 7 27 Some((26, Revoked)) 1

62 floors without a verdict
> 9: 1 x 1efc0007, 62 x 2204#
< UnableToParseMessage []

a number at the end
> 2: 65534 x 28040000, 1 x 06040007
< FloorRelease { request: 7 }; written in 1 units

a number at the end of a query
> 3: 65534 x 28040000, 1 x 06040007
< FloorRequestQuery { request: 7 }; written in 1 units

a beneficiary at the end
> 5: 65534 x 28040000, 1 x 0204000b
< UserQuery { beneficiary: Some(11) }; written in 1 units

an unknown type with M at the end
> 11: 65534 x 28040000, 1 x 29040000
< UnknownMandatoryAttribute [40]

an attribute at the end that overruns the message
> 11: 65534 x 28040000, 1 x 28050000
< UnableToParseMessage []

an Error
> 13: 65535 x 28040000
< no answer";

#[test]
fn the_greatest_messages_are_asked(rt: HostRuntime) {
    let told = differing(rt.alloc(), ASKS, "\n\n", "\n< ", ask_answer);
    assert_told(&rt, told, "18 cases");
}

/// How long a user's name and URI are.
fn who_text(alloc: Global, who: &Option<Who>) -> Result<String, AllocError> {
    match who {
        Some(who) => {
            let (name, uri) = (len_of(&who.name), len_of(&who.uri));
            format!(in alloc; "user {} {name} {uri}", who.user)
        }
        None => String::from_str(alloc, "nobody"),
    }
}

/// How many floors a request has, for whom it is, and how long its text is.
fn info_text(alloc: Global, info: &Info) -> Result<String, AllocError> {
    let who = who_text(alloc, &info.beneficiary)?;
    let (floors, text) = (info.floors.as_slice().len(), len_of(&info.info));
    format!(in alloc; "request {} {floors} {who} {text}", info.request)
}

/// How many requests there are, and the last.
fn infos_text(alloc: Global, infos: &Infos) -> Result<String, AllocError> {
    let infos = infos.as_slice();
    let count = infos.len();
    match infos.last() {
        Some(info) => {
            let last = info_text(alloc, info)?;
            format!(in alloc; "{count}, {last}")
        }
        None => String::from_str(alloc, "0"),
    }
}

fn tell_text(alloc: Global, tell: &Tell) -> Result<String, AllocError> {
    match tell {
        Tell::FloorRequestStatus { info } => info_text(alloc, info),
        Tell::UserStatus { who, infos } => {
            let who = who_text(alloc, who)?;
            let infos = infos_text(alloc, infos)?;
            format!(in alloc; "{who}, {infos}")
        }
        Tell::FloorStatus { floor, infos } => {
            let infos = infos_text(alloc, infos)?;
            format!(in alloc; "floor {floor:?}, {infos}")
        }
        Tell::ChairActionAck => String::from_str(alloc, "ChairActionAck"),
        Tell::HelloAck {
            primitives,
            attributes,
        } => {
            let (primitives, attributes) = (primitives.as_slice(), attributes.as_slice());
            format!(in alloc; "HelloAck {} {}", primitives.len(), attributes.len())
        }
        Tell::Error { code, details } => {
            format!(in alloc; "Error {code} {}", details.as_slice().len())
        }
    }
}

/// What a case's message tells, and how it is written where it fits.
fn tell_answer(alloc: Global, case: &str) -> Result<String, AllocError> {
    match frame_of(alloc, case)? {
        None => String::from_str(alloc, "no message"),
        Some(frame) => told_and_written(alloc, &frame),
    }
}

fn told_and_written(alloc: Global, frame: &Frame) -> Result<String, AllocError> {
    match read_tell(alloc, frame) {
        Ok((head, tell)) => tell_and_written(alloc, frame, &head, &tell),
        Err(fault) => format!(in alloc; "{fault:?}"),
    }
}

fn tell_and_written(
    alloc: Global,
    frame: &Frame,
    head: &Head,
    tell: &Tell,
) -> Result<String, AllocError> {
    let mut text = tell_text(alloc, tell)?;
    if tell_fits(tell) {
        let written = write_tell(alloc, head, tell)?;
        text.push_str(&compared(alloc, &written, frame.bytes())?)?;
    }
    Ok(text)
}

const TELLS: &str = "\
a floor with as many requests as a message holds
> 8: 1 x 04040001, 65534 x 1e04#
< floor Some(1), 65534, request 65533 0 nobody 0; written in 65535 units, the same

as many requests, and no floor
> 8: 65535 x 1e04#
< floor None, 65535, request 65534 0 nobody 0; written in 65535 units, the same

full groups behind byte 65,535
> 8: 1 x 04040001, 1040 x 1efc#1cf8000a18f4 6161 \
    00000000 00000000 00000000 00000000 00000000 00000000 00000000 00000000 00000000 00000000 \
    00000000 00000000 00000000 00000000 00000000 00000000 00000000 00000000 00000000 00000000 \
    00000000 00000000 00000000 00000000 00000000 00000000 00000000 00000000 00000000 00000000 \
    00000000 00000000 00000000 00000000 00000000 00000000 00000000 00000000 00000000 00000000 \
    00000000 00000000 00000000 00000000 00000000 00000000 00000000 00000000 00000000 00000000 \
    00000000 00000000 00000000 00000000 00000000 00000000 00000000 00000000 00000000 00000000
< floor Some(1), 1040, request 1039 0 user 10 242 0 0; written in 65521 units, the same

users with requests in all units
> 6: 65535 x 1e04#
< nobody, 65535, request 65534 0 nobody 0; written in 65535 units, the same

the longest name, and a request in every other unit
> 6: 1 x 1cfc000a 18f8, 246 x 61, 65472 x 1e04#
< user 10 246 0, 65472, request 65471 0 nobody 0; written in 65535 units, the same

the longest URI
> 6: 1 x 1cfc000a 1af8, 246 x 61
< user 10 0 246, 0; written in 63 units, the same

as many floors as a group holds
> 4: 1 x 1efc0007, 62 x 2204#
< request 7 62 nobody 0; written in 63 units, the same

as many floors with their statuses as a group holds
> 4: 1 x 1efc0007, 31 x 2208#0a0403ff
< request 7 31 nobody 0; written in 63 units, the same

the longest text, behind byte 65,535
> 4: 65472 x 28040000, 1 x 1efc0007 10f8, 246 x 61
< request 7 0 nobody 246; written in 63 units

an answer without attributes
> 10: 65535 x 28040000
< ChairActionAck; written in 0 units

253 primitives and 253 types
> 12: 1 x 16ff, 253 x 01, 1 x 0014ff, 253 x 02, 1 x 00
< HelloAck 253 253; written in 128 units, the same

252 details
> 13: 1 x 0cff04, 252 x 28, 1 x 00
< Error 4 252; written in 64 units, the same

an unknown type with M at the end
> 10: 65534 x 28040000, 1 x 29040000
< BadMessage

an attribute at the end that overruns the message
> 10: 65534 x 28040000, 1 x 28050000
< BadMessage";

#[test]
fn the_greatest_messages_are_told(rt: HostRuntime) {
    let told = differing(rt.alloc(), TELLS, "\n\n", "\n< ", tell_answer);
    assert_told(&rt, told, "14 cases");
}

/// Each line: the units behind a header, and the payload. Behind `=>` whether they are a message.
const LONGEST: &str = "\
65,535 units > 11: 65535 x 28040000 => true
65,536 units > 11: 65535 x 28040000, 1 x 28040000 => false";

#[test]
fn a_unit_more_than_65535_is_in_no_message(rt: HostRuntime) {
    let told = differing(rt.alloc(), LONGEST, "\n", " => ", is_message);
    assert_told(&rt, told, "2 cases");
}

fn is_message(alloc: Global, case: &str) -> Result<String, AllocError> {
    format!(in alloc; "{}", frame_of(alloc, case)?.is_some())
}
