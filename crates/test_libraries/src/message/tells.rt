//! What messages of the server tell, and how they are written.

use super::shown::bytes_of;
use crate::cases::{assert_told, differing};
use crate::hexadecimal::spelled;
use floor_message::{
    FloorStatuses, Frame, Head, Info, SharedFrame, SharedInfo, Tell, Who, read_tell, tell_fits,
    write_tell, write_tell_alone,
};
use floor_wire::Octets;
use std::alloc::{AllocError, Global};

/// Messages that are written as they were read, so that nothing is told of them.
const WRITTEN_AGAIN: &str = "\
HelloAck
> 200c0009 00000001 0001 000a 160f0102 03040506 0708090a 0b0c0d00 14140204 06080a0c \
    0e101214 16181a1c 1e202224

a granted request
> 20040007 00000001 0002 000a 1e1c0001 24080001 0a040300 22080001 0a040300 1c04000a \
    08044000

a request for two floors
> 20040009 00000001 0001 000b 1e240002 24080002 0a040201 22080001 0a040201 22080002 \
    0a040201 1c04000b 08044000

a request for a beneficiary, told to it
> 20040008 00000001 0000 000b 1e200001 24080001 0a040300 22080001 0a040300 1c04000b \
    2004000c 08044000

a request with a text
> 20040009 00000001 0000 000b 1e240001 24080001 0a0402ff 22080001 0a040100 1c04000b \
    08040000 1005 c3a961 000000

a user with a name and a URI
> 20060005 00000001 0001 000a 1c14000d 1805416e 6e000000 1a077369 703a6100

a user with a name and a request
> 2006000a 00000001 0001 000a 1c0c000d 1805416e 6e000000 1e1c0001 24080001 0a040300 \
    22080001 0a040300 1c04000a 08044000

no user and no request
> 20060000 00000001 0001 000a

a floor without requests
> 20080001 00000001 0000 000a 04040001

no floor
> 20080000 00000001 0002 000a

a floor and its request
> 20080008 00000001 0000 000a 04040002 1e1c0001 24080001 0a040300 22080002 0a040300 \
    1c04000b 08044000

ChairActionAck
> 200a0000 00000001 0001 000c

an Error of another conference
> 200d0001 00000002 0005 000a 0c030100

an Error with details
> 200d0002 00000001 0001 000a 0c050428 00000000";

#[test]
fn a_message_from_the_server_is_read_and_written_again(rt: HostRuntime) {
    let told = differing(rt.alloc(), WRITTEN_AGAIN, "\n\n", "\n< ", written_again);
    assert_told(&rt, told, "14 cases");
}

/// What is written of a case's message, where it isn't its bytes.
fn written_again(alloc: Global, case: &str) -> Result<String, AllocError> {
    match Frame::of(alloc, &bytes_of(alloc, case)?)? {
        None => String::from_str(alloc, "no message"),
        Some(frame) => other_written(alloc, &frame),
    }
}

fn other_written(alloc: Global, frame: &Frame) -> Result<String, AllocError> {
    match read_tell(alloc, frame) {
        Ok((head, tell)) => other_than(alloc, frame, &head, &tell),
        Err(fault) => format!(in alloc; "{fault:?}"),
    }
}

fn other_than(
    alloc: Global,
    frame: &Frame,
    head: &Head,
    tell: &Tell,
) -> Result<String, AllocError> {
    if !tell_fits(tell) {
        return String::from_str(alloc, "it doesn't fit");
    }
    let written = write_tell(alloc, head, tell)?;
    if written.bytes() == frame.bytes() {
        Ok(String::new(alloc))
    } else {
        spelled(alloc, written.bytes())
    }
}

#[test]
fn a_written_tell_has_its_bytes(rt: HostRuntime) {
    let wanted =
        " 20040007 00000001 0002000a 1e1c0001 24080001 0a040300 22080001 0a040300 1c04000a \
        08044000; 200c0009 00000001 0001000a 160f0102 03040506 0708090a 0b0c0d00 14140204 06080a0c \
        0e101214 16181a1c 1e202224; 200d0002 00000001 0005000a 0c050428 00000000; 200a0000 \
        00000001 0001000a;";
    assert_told(&rt, four_written(rt.alloc()), wanted);
}

/// A tell of each kind but the statuses of a user and of a floor, as it is written.
fn four_written(alloc: Global) -> Result<String, AllocError> {
    let mut told = String::new(alloc);
    push_granted(alloc, &mut told)?;
    push_hello_ack(alloc, &mut told)?;
    push_error(alloc, &mut told)?;
    push_written(alloc, &mut told, 1, &Tell::ChairActionAck)?;
    Ok(told)
}

fn push_written(
    alloc: Global,
    told: &mut String,
    transaction: u16,
    tell: &Tell,
) -> Result<(), AllocError> {
    let head = Head {
        conference: 1,
        transaction,
        user: 10,
    };
    if tell_fits(tell) {
        let written = write_tell(alloc, &head, tell)?;
        told.push_str(&spelled(alloc, written.bytes())?)?;
    }
    told.push(';')
}

/// Appends the status of a granted request for floor 1.
fn push_granted(alloc: Global, told: &mut String) -> Result<(), AllocError> {
    let info = granted(alloc)?;
    push_written(alloc, told, 2, &Tell::FloorRequestStatus { info })
}

/// A granted request for floor 1.
fn granted(alloc: Global) -> Result<Info, AllocError> {
    let floors = Vec::from_slice(alloc, &[(1, Some((3, 0)))])?;
    Ok(Info {
        request: 1,
        overall: Some((3, 0)),
        reason: None,
        floors: FloorStatuses::from_vec(floors),
        beneficiary: Some(Who {
            user: 10,
            name: None,
            uri: None,
        }),
        requester: None,
        priority: Some(2),
        info: None,
    })
}

/// Appends a HelloAck with the primitives 1 to 13, and the attributes 1 to 18.
fn push_hello_ack(alloc: Global, told: &mut String) -> Result<(), AllocError> {
    let primitives = [1, 2, 3, 4, 5, 6, 7, 8, 9, 10, 11, 12, 13];
    let attributes = [
        1, 2, 3, 4, 5, 6, 7, 8, 9, 10, 11, 12, 13, 14, 15, 16, 17, 18,
    ];
    let primitives = Octets::from_vec(Vec::from_slice(alloc, &primitives)?);
    let attributes = Octets::from_vec(Vec::from_slice(alloc, &attributes)?);
    let tell = Tell::HelloAck {
        primitives,
        attributes,
    };
    push_written(alloc, told, 1, &tell)
}

/// Appends an Error with a detail of two bytes.
fn push_error(alloc: Global, told: &mut String) -> Result<(), AllocError> {
    let details = Octets::from_vec(Vec::from_slice(alloc, &[0x28, 0])?);
    push_written(alloc, told, 5, &Tell::Error { code: 4, details })
}

#[test]
fn a_message_for_one_user_alone_is_addressed_to_another(rt: HostRuntime) {
    let wanted = " 200a0000 00000001 0001000a; 200a0000 00000001 0001fffe;";
    assert_told(&rt, addressed(rt.alloc()), wanted);
}

/// A ChairActionAck for one user alone, and the same for another.
fn addressed(alloc: Global) -> Result<String, AllocError> {
    let mut told = String::new(alloc);
    let tell = Tell::ChairActionAck;
    let head = Head {
        conference: 1,
        transaction: 1,
        user: 10,
    };
    if tell_fits(&tell) {
        let message = write_tell_alone(alloc, &head, &tell)?;
        push_parts(alloc, &mut told, &message)?;
        push_parts(alloc, &mut told, &message.addressed(0xfffe)?)?;
    }
    Ok(told)
}

fn push_parts(alloc: Global, told: &mut String, message: &SharedFrame) -> Result<(), AllocError> {
    told.push_str(&spelled(alloc, message.header())?)?;
    told.push_str(&spelled(alloc, message.payload())?)?;
    told.push(';')
}

#[test]
fn what_one_owner_shows_another_does_not(rt: HostRuntime) {
    assert_told(&rt, owners(rt.alloc()), "true false, true true");
}

/// Whether each of two owners of a request shows its statuses: one was given others while both had
/// it, and again once the other was gone.
fn owners(alloc: Global) -> Result<String, AllocError> {
    let mut shared = SharedInfo::new(alloc, granted(alloc)?)?;
    let kept = shared.share()?;
    shared.set_statuses(alloc, (2, 1), &[(1, Some((2, 1)))])?;
    let stays = is_granted(&kept);
    let is_still = is_granted(&shared);
    drop(kept);
    shared.set_statuses(alloc, (3, 0), &[(1, Some((3, 0)))])?;
    let again = is_granted(&shared);
    let priority = shared.as_info().priority == Some(2);
    format!(in alloc; "{stays} {is_still}, {again} {priority}")
}

fn is_granted(shared: &SharedInfo) -> bool {
    shared.as_info().has_statuses((3, 0), &[(1, Some((3, 0)))])
}

/// Messages, and what they tell.
const FIELDS: &str = "\
attributes in any order, the first of each, and some that don't belong
> 2004000c 00000001 0000 000b 04040007 1e240001 0804a000 08040000 1c04000b 1c04000c \
    22040002 24040001 24080001 0a040300 1e040002 28040000
< FloorRequestStatus { info: Info { request: 1, overall: None, reason: None, floors: FloorStatuses { \
    items: [(2, None)] }, beneficiary: Some(Who { user: 11, name: None, uri: None }), \
    requester: None, priority: Some(4), info: None } }

types with their last bit set
> 200c0003 00000001 0001 000a 1404 0305 1604 0102 1603 0900
< HelloAck { primitives: Octets { items: [1, 2] }, attributes: Octets { items: [1, 2] } }

an error code without details
> 200d0002 00000001 0001 000a 0c0305ff 0c0306ff
< Error { code: 5, details: Octets { items: [] } }";

#[test]
fn attributes_are_read_as_what_they_tell(rt: HostRuntime) {
    let told = differing(rt.alloc(), FIELDS, "\n\n", "\n< ", told_of);
    assert_told(&rt, told, "3 cases");
}

/// What a case's message tells, or its fault.
fn told_of(alloc: Global, case: &str) -> Result<String, AllocError> {
    match Frame::of(alloc, &bytes_of(alloc, case)?)? {
        None => String::from_str(alloc, "no message"),
        Some(frame) => match read_tell(alloc, &frame) {
            Ok((_, tell)) => format!(in alloc; "{tell:?}"),
            Err(fault) => format!(in alloc; "{fault:?}"),
        },
    }
}

/// Messages that tell nothing.
const BAD: &str = "\
another version
> 400a0000 00000001 0001 000c
< BadMessage

a primitive of a client
> 200b0000 00000001 0001 000c
< BadMessage

a primitive that only an unreliable transport needs
> 20100000 00000001 0001 000c
< BadMessage

attributes that don't parse
> 200a0001 00000001 0001 000c 10010000
< BadMessage

an unknown attribute with M
> 200a0001 00000001 0001 000c 29040000
< BadMessage

an unknown attribute with M inside a group
> 20060002 00000001 0001 000c 1c08000d 29040000
< BadMessage

a FloorRequestStatus without FLOOR-REQUEST-INFORMATION
> 20040001 00000001 0001 000c 04040001
< BadMessage

a HelloAck without SUPPORTED-ATTRIBUTES
> 200c0001 00000001 0001 000c 16030100
< BadMessage

a HelloAck without SUPPORTED-PRIMITIVES
> 200c0001 00000001 0001 000c 14030200
< BadMessage

an Error without ERROR-CODE
> 200d0000 00000001 0001 000c
< BadMessage

an ERROR-CODE without a code
> 200d0001 00000001 0001 000c 0c020000
< BadMessage";

#[test]
fn a_bad_message_tells_nothing(rt: HostRuntime) {
    let told = differing(rt.alloc(), BAD, "\n\n", "\n< ", told_of);
    assert_told(&rt, told, "11 cases");
}
