//! What messages ask, and the first check that refuses them.

use super::shown::{answer, answer_to_bytes, asked, shown};
use crate::cases::{assert_told, differing, part};
use crate::framed::message;
use crate::hexadecimal::{bytes, payload};
use floor_message::{Ask, Frame};
use std::alloc::{AllocError, Global};
use std::fmt::Write;

/// Messages on the connection of user 10, and the answer of the first check that applies.
const CHECKS: &str = "\
Hello
> 200b0000 00000001 0001 000a
< Hello

Hello with transaction 0
> 200b0000 00000001 0000 000a
< Hello

R, F and the reserved bits set
> 3f0b0000 00000001 0001 000a
< Hello

another version
> 400b0000 00000001 0001 000a
< UnsupportedVersion []

another conference
> 200b0000 00000002 0005 000a
< ConferenceDoesNotExist []

a user that the conference lacks
> 200b0000 00000001 0001 0063
< UserDoesNotExist []

another user of the conference
> 200b0000 00000001 0001 000b
< UnauthorizedOperation []

an Error
> 200d0001 00000001 0003 000a 0c030100
< no answer

a primitive that only an unreliable transport needs
> 20100000 00000001 0002 000a
< UnknownPrimitive []

primitive 0
> 20000000 00000001 0002 000a
< UnknownPrimitive []

a primitive of the server
> 20040000 00000001 0002 000a
< UnknownPrimitive []

a bad Length
> 200b0001 00000001 0001 000a 10010000
< UnableToParseMessage []

an overrun
> 200b0001 00000001 0001 000a 10080000
< UnableToParseMessage []

a group whose Length is no multiple of 4
> 200b0002 00000001 0001 000a 1e060001 00000000
< UnableToParseMessage []

a group whose Length leaves out the padding of its last attribute
> 200b0002 00000001 0001 000a 1e070001 18036100
< UnableToParseMessage []

a known attribute of a bad Length that doesn't belong
> 200b0001 00000001 0001 000a 04010001
< UnableToParseMessage []

unknown attributes with M, one twice
> 200b0003 00000001 0001 000a 29040000 29040000 01040000
< UnknownMandatoryAttribute [40, 0]

an unknown attribute with M behind one inside a group
> 200b0003 00000001 0001 000a 1e080001 ff040000 27040000
< UnknownMandatoryAttribute [254, 38]

an unknown attribute with M clear
> 200b0001 00000001 0001 000a 28040000
< Hello

known attributes with M that don't belong
> 200b0003 00000001 0001 000a 05040001 25080001 0b040300
< Hello

another version before another conference
> 400b0000 00000002 0001 000a
< UnsupportedVersion []

another conference before a user that the conference lacks
> 200b0000 00000002 0001 0063
< ConferenceDoesNotExist []

another conference before another user
> 200b0000 00000002 0001 000b
< ConferenceDoesNotExist []

a user that the conference lacks before an unknown primitive
> 20100000 00000001 0001 0063
< UserDoesNotExist []

another user before an unknown primitive
> 20100000 00000001 0001 000b
< UnauthorizedOperation []

another user before an Error
> 200d0001 00000001 0003 000b 0c030100
< UnauthorizedOperation []

an Error before attributes that don't parse
> 200d0001 00000001 0003 000a 10010000
< no answer

an unknown primitive before attributes that don't parse
> 20100001 00000001 0001 000a 10010000
< UnknownPrimitive []

a later attribute that doesn't parse before an unknown one with M
> 200b0002 00000001 0001 000a 29040000 10010000
< UnableToParseMessage []

an unknown attribute with M before a missing one
> 20020001 00000001 0001 000a 29040000
< UnknownMandatoryAttribute [40]

an unknown attribute with M before a text that isn't UTF-8
> 20010003 00000001 0001 000a 04040001 1003ff00 29040000
< UnknownMandatoryAttribute [40]

groups 63 deep
> 200b003f 00000001 0001 000a 1efc0000 1ef80000 1ef40000 1ef00000 1eec0000 1ee80000 1ee40000 \
    1ee00000 1edc0000 1ed80000 1ed40000 1ed00000 1ecc0000 1ec80000 1ec40000 1ec00000 \
    1ebc0000 1eb80000 1eb40000 1eb00000 1eac0000 1ea80000 1ea40000 1ea00000 1e9c0000 \
    1e980000 1e940000 1e900000 1e8c0000 1e880000 1e840000 1e800000 1e7c0000 1e780000 \
    1e740000 1e700000 1e6c0000 1e680000 1e640000 1e600000 1e5c0000 1e580000 1e540000 \
    1e500000 1e4c0000 1e480000 1e440000 1e400000 1e3c0000 1e380000 1e340000 1e300000 \
    1e2c0000 1e280000 1e240000 1e200000 1e1c0000 1e180000 1e140000 1e100000 1e0c0000 \
    1e080000 1e040000
< Hello

all 110 unknown types with M
> 200b006e 00000001 0001 000a 01040000 27040000 29040000 2b040000 2d040000 2f040000 31040000 \
    33040000 35040000 37040000 39040000 3b040000 3d040000 3f040000 41040000 43040000 \
    45040000 47040000 49040000 4b040000 4d040000 4f040000 51040000 53040000 55040000 \
    57040000 59040000 5b040000 5d040000 5f040000 61040000 63040000 65040000 67040000 \
    69040000 6b040000 6d040000 6f040000 71040000 73040000 75040000 77040000 79040000 \
    7b040000 7d040000 7f040000 81040000 83040000 85040000 87040000 89040000 8b040000 \
    8d040000 8f040000 91040000 93040000 95040000 97040000 99040000 9b040000 9d040000 \
    9f040000 a1040000 a3040000 a5040000 a7040000 a9040000 ab040000 ad040000 af040000 \
    b1040000 b3040000 b5040000 b7040000 b9040000 bb040000 bd040000 bf040000 c1040000 \
    c3040000 c5040000 c7040000 c9040000 cb040000 cd040000 cf040000 d1040000 d3040000 \
    d5040000 d7040000 d9040000 db040000 dd040000 df040000 e1040000 e3040000 e5040000 \
    e7040000 e9040000 eb040000 ed040000 ef040000 f1040000 f3040000 f5040000 f7040000 \
    f9040000 fb040000 fd040000 ff040000
< UnknownMandatoryAttribute [0, 38, 40, 42, 44, 46, 48, 50, 52, 54, 56, 58, 60, 62, 64, 66, \
    68, 70, 72, 74, 76, 78, 80, 82, 84, 86, 88, 90, 92, 94, 96, 98, 100, 102, 104, 106, 108, \
    110, 112, 114, 116, 118, 120, 122, 124, 126, 128, 130, 132, 134, 136, 138, 140, 142, \
    144, 146, 148, 150, 152, 154, 156, 158, 160, 162, 164, 166, 168, 170, 172, 174, 176, \
    178, 180, 182, 184, 186, 188, 190, 192, 194, 196, 198, 200, 202, 204, 206, 208, 210, \
    212, 214, 216, 218, 220, 222, 224, 226, 228, 230, 232, 234, 236, 238, 240, 242, 244, \
    246, 248, 250, 252, 254]

the bound user, behind 65,535 attributes
> 200bffff 00000001 0001 000a, 65535 x 28040000
< Hello

another user of the conference, behind 65,535 attributes
> 200bffff 00000001 0001 000b, 65535 x 28040000
< UnauthorizedOperation []

a user that the conference lacks, behind 65,535 attributes
> 200bffff 00000001 0001 0063, 65535 x 28040000
< UserDoesNotExist []";

#[test]
fn the_first_check_that_applies_answers(rt: HostRuntime) {
    let told = differing(rt.alloc(), CHECKS, "\n\n", "\n< ", answer);
    assert_told(&rt, told, "36 cases");
}

/// Messages, and the fields that are read of their attributes.
const FIELDS: &str = "\
a FloorRequest for one floor
> 20010001 00000001 0002 000a 04040001
< FloorRequest { beneficiary: None, floors: Numbers { items: [1] }, priority: 2, info: \
    None }

attributes in any order, each twice, with padding of any value
> 2001000b 00000001 0002 000a 100461 62 1003 63ff 0804 7fff 0804 0000 0204 000b 0204 000c \
    0404 0002 0404 0001 0404 0002 1805 416e 6e12 3456
< FloorRequest { beneficiary: Some(11), floors: Numbers { items: [2, 1] }, priority: 3, \
    info: Some(Octets { items: [97, 98] }) }

priority 4
> 20010002 00000001 0003 000a 04040001 08048000
< FloorRequest { beneficiary: None, floors: Numbers { items: [1] }, priority: 4, info: \
    None }

priority 5
> 20010002 00000001 0003 000a 04040001 0804a000
< FloorRequest { beneficiary: None, floors: Numbers { items: [1] }, priority: 4, info: \
    None }

priority 6
> 20010002 00000001 0003 000a 04040001 0804c000
< FloorRequest { beneficiary: None, floors: Numbers { items: [1] }, priority: 4, info: \
    None }

priority 7 with its reserved bits set
> 20010002 00000001 0003 000a 04040001 0804ffff
< FloorRequest { beneficiary: None, floors: Numbers { items: [1] }, priority: 4, info: \
    None }

a FloorRequest without floors
> 20010001 00000001 0003 000a 08044000
< UnableToParseMessage []

a text that isn't UTF-8
> 20010002 00000001 0003 000a 04040001 1003ff00
< UnableToParseMessage []

an empty text in front of another
> 20010003 00000001 0003 000a 04040001 10020000 10046162
< FloorRequest { beneficiary: None, floors: Numbers { items: [1] }, priority: 2, info: \
    None }

a FloorRelease
> 20020002 00000001 0003 000a 06040007 06040008
< FloorRelease { request: 7 }

a FloorRelease without FLOOR-REQUEST-ID
> 20020001 00000001 0003 000a 04040007
< UnableToParseMessage []

a FloorRequestQuery
> 20030001 00000001 0003 000a 0604ffff
< FloorRequestQuery { request: 65535 }

a FloorRequestQuery without FLOOR-REQUEST-ID
> 20030000 00000001 0003 000a
< UnableToParseMessage []

a UserQuery of a user
> 20050001 00000001 0001 000a 0204000d
< UserQuery { beneficiary: Some(13) }

a UserQuery of the sender
> 20050000 00000001 0001 000a
< UserQuery { beneficiary: None }

a FloorQuery with a floor twice
> 20070003 00000001 0001 000a 04040002 04040001 04040002
< FloorQuery { floors: Numbers { items: [2, 1] } }

a FloorQuery without floors
> 20070000 00000001 0001 000a
< FloorQuery { floors: Numbers { items: [] } }";

#[test]
fn attributes_are_read_as_fields(rt: HostRuntime) {
    let told = differing(rt.alloc(), FIELDS, "\n\n", "\n< ", answer);
    assert_told(&rt, told, "17 cases");
}

/// ChairActions, and the verdict for each floor.
const VERDICTS: &str = "\
a verdict on one floor
> 20090003 00000001 0001 000a 1e0c0001 22080004 0a040300
< ChairAction { request: 1, verdicts: Verdicts { items: [(4, Granted)] }, reason: None }

the verdict in the overall status alone
> 20090004 00000001 0002 000a 1e100001 24080001 0a040300 22040004
< ChairAction { request: 1, verdicts: Verdicts { items: [(4, Granted)] }, reason: None }

a floor's own status before the overall one, with queue positions
> 20090006 00000001 0002 000a 1e180001 22080004 0a0402ff 24080001 0a040409 22040005
< ChairAction { request: 1, verdicts: Verdicts { items: [(4, Accepted), (5, Denied)] }, reason: None }

a floor twice, the second with no status that tells a verdict
> 20090005 00000001 0002 000a 1e140001 22080004 0a040700 22080004 0a040100
< ChairAction { request: 1, verdicts: Verdicts { items: [(4, Revoked)] }, reason: None }

an overall status that no floor needs and that tells no verdict
> 20090005 00000001 0002 000a 1e140001 24080001 0a040600 22080004 0a040400
< ChairAction { request: 1, verdicts: Verdicts { items: [(4, Denied)] }, reason: None }

a first overall status without a status in front of another
> 20090005 00000001 0002 000a 1e140001 24040001 24080001 0a040300 22040004
< UnableToParseMessage []

a status deeper inside the floor's group
> 20090004 00000001 0002 000a 1e100001 220c0004 22080004 0a040300
< UnableToParseMessage []

a status that tells no verdict
> 20090003 00000001 0001 000a 1e0c0001 22080004 0a040100
< UnableToParseMessage []

a floor without a verdict
> 20090004 00000001 0001 000a 1e100001 22080004 0a040300 22040005
< UnableToParseMessage []

no floor
> 20090003 00000001 0001 000a 1e0c0001 24080001 0a040300
< UnableToParseMessage []

no FLOOR-REQUEST-INFORMATION
> 20090002 00000001 0001 000a 22080004 0a040300
< UnableToParseMessage []";

#[test]
fn a_chair_action_has_a_verdict_for_each_floor(rt: HostRuntime) {
    let told = differing(rt.alloc(), VERDICTS, "\n\n", "\n< ", answer);
    assert_told(&rt, told, "11 cases");
}

/// The answers to a message with each value of the byte at this place that are not the usual one, and
/// how many are.
fn answers_at(alloc: Global, text: &str, place: usize, usual: &str) -> Result<String, AllocError> {
    let mut told = String::new(alloc);
    let mut count = 0u32;
    let mut message = bytes(alloc, text)?;
    for value in 0..=255u8 {
        if let Some(byte) = message.get_mut(place) {
            *byte = value;
        }
        let found = answer_to_bytes(alloc, &message)?;
        if found.as_str() == usual {
            count = count.saturating_add(1);
        } else {
            write!(told, "{value} {found}; ")?;
        }
    }
    write!(told, "{count} others")?;
    Ok(told)
}

#[test]
fn each_primitive_is_served_unknown_or_left_unanswered(rt: HostRuntime) {
    let text = "20000000 00000001 0001 000a";
    let wanted = "1 UnableToParseMessage []; 2 UnableToParseMessage []; 3 UnableToParseMessage []; \
        5 UserQuery { beneficiary: None }; 7 FloorQuery { floors: Numbers { items: [] } }; \
        9 UnableToParseMessage []; 11 Hello; 13 no answer; 248 others";
    let told = answers_at(rt.alloc(), text, 1, "UnknownPrimitive []");
    assert_told(&rt, told, wanted);
}

#[test]
fn four_statuses_are_verdicts(rt: HostRuntime) {
    let text = "20090003 00000001 0001 000a 1e0c0001 22080004 0a040000";
    let wanted =
        "2 ChairAction { request: 1, verdicts: Verdicts { items: [(4, Accepted)] }, reason: None }; \
        3 ChairAction { request: 1, verdicts: Verdicts { items: [(4, Granted)] }, reason: None }; \
        4 ChairAction { request: 1, verdicts: Verdicts { items: [(4, Denied)] }, reason: None }; \
        7 ChairAction { request: 1, verdicts: Verdicts { items: [(4, Revoked)] }, reason: None }; 252 others";
    let told = answers_at(rt.alloc(), text, 22, "UnableToParseMessage []");
    assert_told(&rt, told, wanted);
}

/// Each line: its name, and the FLOOR-ID and the text of a FloorRequest. Behind `=>` how many bytes of
/// the text are kept, or the answer.
const CUTS: &str = "\
62 letters | 04040001 1040, 62 x 61 => 62
63 letters | 04040001 1041, 63 x 61, ffffff => 62
two bytes that end at 62 | 04040001 1040, 60 x 61, c3a9 => 62
two bytes round 62 | 04040001 1041, 61 x 61, c3a9 ffffff => 61
three bytes round 62 | 04040001 1041, 60 x 61, e282ac ffffff => 60
four bytes that end at 62 | 04040001 1040, 58 x 61, f09f9880 => 62
four bytes that end at 65 | 04040001 1043, 61 x 61, f09f9880 ff => 61
four bytes that end at 63, and more | 04040001 1043, 59 x 61, f09f9880 6161 ff => 59
no UTF-8 behind what is kept | 04040001 1042, 63 x 61, ff ffff => UnableToParseMessage []";

#[test]
fn a_text_is_cut_at_a_character_of_at_most_62_bytes(rt: HostRuntime) {
    let told = differing(rt.alloc(), CUTS, "\n", " => ", kept);
    assert_told(&rt, told, "9 cases");
}

/// How many bytes a FloorRequest keeps of its text, or the answer.
fn kept(alloc: Global, case: &str) -> Result<String, AllocError> {
    let message = message(alloc, 1, 1, &payload(alloc, part(case, 1))?)?;
    match Frame::of(alloc, &message)? {
        None => String::from_str(alloc, "no message"),
        Some(frame) => length_kept(alloc, &frame),
    }
}

fn length_kept(alloc: Global, frame: &Frame) -> Result<String, AllocError> {
    let answer = asked(alloc, frame);
    match &answer {
        Ok(
            Some(
                Ask::FloorRequest {
                    info: Some(info),
                    ..
                },
            ),
        ) if begins_at(frame.bytes(), 18, info.as_slice()) => {
            format!(in alloc; "{}", info.as_slice().len())
        }
        answer => shown(alloc, answer),
    }
}

/// Whether the bytes at a place begin with others.
fn begins_at(bytes: &[u8], place: usize, others: &[u8]) -> bool {
    match bytes.get(place..) {
        Some(behind) => behind.starts_with(others),
        None => false,
    }
}
