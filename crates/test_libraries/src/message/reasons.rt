//! The reasons of chairs: which of the texts of a ChairAction counts and how it is cut, and where a
//! floor request shows it.

use super::shown::answer;
use crate::cases::{assert_told, differing};
use crate::hexadecimal::{bytes, spelled};
use floor_message::{
    Ask, FloorStatuses, Frame, Head, Info, Octets, Tell, Verdict, Verdicts, ask_fits, read_tell,
    write_ask, write_tell,
};
use std::alloc::{AllocError, Global};

/// ChairActions on floor 4 of request 1, and what they ask.
const GIVEN: &str = "\
in the floor's status
> 20090004 00000001 0001 000a 1e100001 220c0004 0a040400 12044e6f
< ChairAction { request: 1, verdicts: Verdicts { items: [(4, Denied)] }, reason: Some(Octets { items: [78, 111] }) }

in the overall status, behind the floor's
> 20090005 00000001 0001 000a 1e140001 22080004 0a040400 24080001 12044e6f
< ChairAction { request: 1, verdicts: Verdicts { items: [(4, Denied)] }, reason: Some(Octets { items: [78, 111] }) }

an empty one in the overall status, and no in the floor's
> 20090006 00000001 0002 000a 1e180001 24080001 12020000 220c0004 0a040200 12046e6f
< ChairAction { request: 1, verdicts: Verdicts { items: [(4, Accepted)] }, reason: None }

all in the overall status, and octets that aren't UTF-8 in the floor's
> 20090007 00000001 0002 000a 1e1c0001 240c0001 1205616c 6c000000 220c0004 0a040400 1203ff00
< ChairAction { request: 1, verdicts: Verdicts { items: [(4, Denied)] }, reason: Some(Octets { items: [97, 108, 108] }) }

octets that aren't UTF-8
> 20090004 00000001 0002 000a 1e100001 220c0004 0a040400 1203ff00
< UnableToParseMessage []

a first overall status without a text in front of another, and own in the floor's
> 20090009 00000001 0005 000a 1e240001 24080001 0a040400 240c0001 12087365 636f6e64 220c0004 12056f77 6e000000
< ChairAction { request: 1, verdicts: Verdicts { items: [(4, Denied)] }, reason: Some(Octets { items: [111, 119, 110] }) }

a floor twice, the second with a text, and another floor with one
> 20090009 00000001 0001 000a 1e240001 22080004 0a040200 220c0004 0a040200 1203 6100 220c0005 0a040300 1203 6200
< ChairAction { request: 1, verdicts: Verdicts { items: [(4, Accepted), (5, Granted)] }, reason: Some(Octets { items: [98] }) }

two texts in one status
> 20090005 00000001 0001 000a 1e140001 22100004 0a040200 1203 6100 1203 6200
< ChairAction { request: 1, verdicts: Verdicts { items: [(4, Accepted)] }, reason: Some(Octets { items: [97] }) }

a text outside the statuses, and one deeper inside
> 20090006 00000001 0001 000a 1e180001 1203 6100 22100004 0a040200 24080001 1203 6200
< ChairAction { request: 1, verdicts: Verdicts { items: [(4, Accepted)] }, reason: None }

an empty one in the floor's status
> 20090004 00000001 0001 000a 1e100001 220c0004 0a040200 12020000
< ChairAction { request: 1, verdicts: Verdicts { items: [(4, Accepted)] }, reason: None }

29 times x and then a character of two bytes
> 2009000c 00000001 0002 000a 1e300001 222c0004 0a040400 1221 7878787878787878787878787878787878787878787878787878787878 c3a9 000000
< ChairAction { request: 1, verdicts: Verdicts { items: [(4, Denied)] }, reason: Some(Octets { items: [120, 120, 120, 120, 120, 120, 120, 120, 120, 120, 120, 120, 120, 120, 120, 120, 120, 120, 120, 120, 120, 120, 120, 120, 120, 120, 120, 120, 120] }) }

28 times x and then a character of two bytes
> 2009000b 00000001 0002 000a 1e2c0001 22280004 0a040400 1220 78787878787878787878787878787878787878787878787878787878 c3a9
< ChairAction { request: 1, verdicts: Verdicts { items: [(4, Denied)] }, reason: Some(Octets { items: [120, 120, 120, 120, 120, 120, 120, 120, 120, 120, 120, 120, 120, 120, 120, 120, 120, 120, 120, 120, 120, 120, 120, 120, 120, 120, 120, 120, 195, 169] }) }

no UTF-8 behind what is kept
> 2009000c 00000001 0002 000a 1e300001 222c0004 0a040400 1221 787878787878787878787878787878787878787878787878787878787878 ff 000000
< UnableToParseMessage []";

#[test]
fn one_text_of_a_chair_action_is_its_reason(rt: HostRuntime) {
    let told = differing(rt.alloc(), GIVEN, "\n\n", "\n< ", answer);
    assert_told(&rt, told, "13 cases");
}

#[test]
fn a_denial_is_written_with_its_reason(rt: HostRuntime) {
    let wanted = " 20090005 00000001 0001000c 1e140001 24080001 12044e6f 22080004 0a040400";
    assert_told(&rt, denial(rt.alloc()), wanted);
}

/// The bytes of a chair's No to floor 4 of request 1.
fn denial(alloc: Global) -> Result<String, AllocError> {
    let verdicts = Vec::from_slice(alloc, &[(4, Verdict::Denied)])?;
    let reason = Vec::from_slice(alloc, "No".as_bytes())?;
    let ask = Ask::ChairAction {
        request: 1,
        verdicts: Verdicts::from_vec(verdicts),
        reason: Some(Octets::from_vec(reason)),
    };
    let head = Head {
        conference: 1,
        transaction: 1,
        user: 12,
    };
    if !ask_fits(&ask) {
        return String::from_str(alloc, "it doesn't fit");
    }
    let written = write_ask(alloc, &head, &ask)?;
    spelled(alloc, written.bytes())
}

#[test]
fn a_reason_alone_is_written_and_read_back(rt: HostRuntime) {
    let wanted = " 20040003 00000001 0001000a 1e0c0001 24080001 12044e6f the same";
    assert_told(&rt, reason_alone(rt.alloc()), wanted);
}

/// The bytes of the status of request 1 that has a reason and nothing else, and whether they are read
/// back.
fn reason_alone(alloc: Global) -> Result<String, AllocError> {
    let reason = Vec::from_slice(alloc, "No".as_bytes())?;
    let info = Info {
        request: 1,
        overall: None,
        reason: Some(Octets::from_vec(reason)),
        floors: FloorStatuses::from_vec(Vec::new(alloc)),
        beneficiary: None,
        requester: None,
        priority: None,
        info: None,
    };
    let head = Head {
        conference: 1,
        transaction: 1,
        user: 10,
    };
    let copy = Tell::FloorRequestStatus {
        info: info.copy(alloc)?,
    };
    let written = write_tell(alloc, &head, &copy)?;
    let mut told = spelled(alloc, written.bytes())?;
    if is_told(alloc, &written, &info) {
        told.push_str(" the same")?;
    }
    Ok(told)
}

/// Whether the message tells of this floor request.
fn is_told(alloc: Global, frame: &Frame, info: &Info) -> bool {
    match read_tell(alloc, frame) {
        Ok((_, Tell::FloorRequestStatus { info: read })) => read.is_same(info),
        _ => false,
    }
}
