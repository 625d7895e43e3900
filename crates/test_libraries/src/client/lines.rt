//! Each kind of message as a line, with each part there and absent.

use super::conversing::heard;
use crate::cases::{assert_told, differing};
use crate::framed::message;
use crate::hexadecimal::bytes;
use floor_client::{Client, Frame};
use std::alloc::{AllocError, Global};

/// Notices to user 10 of conference 1: the primitive and the payload, `=`, and the line, without
/// the word `notice` before it.
const LINES: &str =
    r#"04 1e1c0001 24080001 0a040300 22080001 0a040300 1c04000a 08044000=FloorRequestStatus request 1 overall Granted:0 floor 1:Granted:0 for 10 priority 2
04 1e040007=FloorRequestStatus request 7
04 1e0cffff 24080001 0a0402ff=FloorRequestStatus request 65535 overall Accepted:255
04 1e0c0001 24080001 0a040100=FloorRequestStatus request 1 overall Pending:0
04 1e0c0001 24080001 0a040400=FloorRequestStatus request 1 overall Denied:0
04 1e0c0001 24080001 0a040500=FloorRequestStatus request 1 overall Cancelled:0
04 1e0c0001 24080001 0a040600=FloorRequestStatus request 1 overall Released:0
04 1e0c0001 24080001 0a040700=FloorRequestStatus request 1 overall Revoked:0
04 1e0c0001 24080001 0a040007=FloorRequestStatus request 1 overall 0:7
04 1e0c0001 24080001 0a04ff01=FloorRequestStatus request 1 overall 255:1
04 1e080001 24040001=FloorRequestStatus request 1
04 1e140001 22040002 22080003 0a040802 22040001=FloorRequestStatus request 1 floor 2 floor 3:8:2 floor 1
04 1e080001 1c04000b=FloorRequestStatus request 1 for 11
04 1e080001 2004000c=FloorRequestStatus request 1 by 12
04 1e080001 0804e000=FloorRequestStatus request 1 priority 4
04 1e080001 08040000=FloorRequestStatus request 1 priority 0
04 1e0c0001 1005 686921 000000=FloorRequestStatus request 1 info "hi!"
04 1e080001 10020000=FloorRequestStatus request 1 info ""
04 1e100001 1c0c000b 18054d61 78000000=FloorRequestStatus request 1 for 11 "Max"
04 1e180001 1c14000b 18054d61 78000000 1a057369 70000000=FloorRequestStatus request 1 for 11 "Max"
04 1e0c0001 2008000c 18020000=FloorRequestStatus request 1 by 12 ""
04 1e2c0003 24080003 0a040200 22080002 0a040300 1c0a000b 18046869 2008000c 1803ff00 08046000 10045c22=bad
04 1e2c0003 24080003 0a040201 22080002 0a040300 1c08000b 18046869 2008000c 1803ff00 08046000 10045c22=FloorRequestStatus request 3 overall Accepted:1 floor 2:Granted:0 for 11 "hi" by 12 "\xff" priority 3 info "\x5c\x22"
04 1e100001 100b 00 09 0a 1f 20 7e 7f 80 c3 00=FloorRequestStatus request 1 info "\x00\x09\x0a\x1f ~\x7f\x80\xc3"
04 1e100001 1c0c000b 18074122 5c00ff00=FloorRequestStatus request 1 for 11 "A\x22\x5c\x00\xff"
04 1e100001 200c000c 18074122 5c00ff00=FloorRequestStatus request 1 by 12 "A\x22\x5c\x00\xff"
04 1e080001 0804a000=FloorRequestStatus request 1 priority 4
04 =bad
04 28040000=bad
06 =UserStatus
06 1c04000d=UserStatus user 13
06 1c0c000d 1805416e 6e000000=UserStatus user 13 name "Ann"
06 1c0c000d 1a077369 703a6100=UserStatus user 13 uri "sip:a"
06 1c14000d 1805416e 6e000000 1a077369 703a6100=UserStatus user 13 name "Ann" uri "sip:a"
06 1c0c000d 18020000 1a020000=UserStatus user 13 name "" uri ""
06 1c08000d 1a045c27=UserStatus user 13 uri "\x5c'"
06 1c0c000d 1807225c 00ff7f00=UserStatus user 13 name "\x22\x5c\x00\xff\x7f"
06 1c0c000d 1a08207e 225c8000=UserStatus user 13 uri " ~\x22\x5c\x80\x00"
06 1e040001=UserStatus [request 1]
06 1c04000a 1e080001 1c04000a 1e040002=UserStatus user 10 [request 1 for 10] [request 2]
08 =FloorStatus
08 04040009=FloorStatus floor 9
08 1e040001 1e040002=FloorStatus [request 1] [request 2]
08 04040002 1e1c0001 24080001 0a040300 22080002 0a040300 1c04000b 08044000=FloorStatus floor 2 [request 1 overall Granted:0 floor 2:Granted:0 for 11 priority 2]
0a =ChairActionAck
0c 16030100 14030200=HelloAck
0c 16030100=bad
0d 0c030100=Error 1
0d 0c030000=Error 0
0d 0c0404fe=Error 4 fe
0d 0c05042800000000=Error 4 2800
0d 0c0604280afe0000=Error 4 280afe
0d 0c03ff00=Error 255
0d 0c020000=bad
0b =bad
01 04040001=bad
0e =bad"#;

#[test]
fn a_message_is_a_line(rt: HostRuntime) {
    assert_told(&rt, told_of_lines(rt.alloc(), LINES), "57 cases");
}

/// Which of the notices are other lines than these.
pub fn told_of_lines(alloc: Global, lines: &str) -> Result<String, AllocError> {
    let mut client = Client::new(alloc, 1, 10);
    differing(alloc, lines, "\n", "=", |alloc, case| {
        line_of(alloc, &mut client, case)
    })
}

/// The line of the notice of a primitive with a payload.
fn line_of(alloc: Global, client: &mut Client, case: &str) -> Result<String, AllocError> {
    let (primitive, payload) = case.split_once(' ').unwrap_or((case, ""));
    let primitive = bytes(alloc, primitive)?.first().copied().unwrap_or(0);
    let message = message(alloc, primitive, 0, &bytes(alloc, payload)?)?;
    match Frame::of(alloc, &message)? {
        None => String::from_str(alloc, "no message"),
        Some(frame) => without_notice(alloc, &heard(alloc, client, &frame)?),
    }
}

fn without_notice(alloc: Global, line: &str) -> Result<String, AllocError> {
    String::from_str(alloc, line.strip_prefix("notice ").unwrap_or(line))
}
