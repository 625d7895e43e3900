//! The reason of a floor request in its line.

use super::lines::told_of_lines;
use crate::cases::assert_told;

/// Notices to user 10 of conference 1: the primitive and the payload, `=`, and the line, without
/// the word `notice` before it.
const LINES: &str =
    r#"04 1e200001 240c0001 0a040400 12044e6f 22080004 0a040400 1c04000a 08044000=FloorRequestStatus request 1 overall Denied:0 reason "No" floor 4:Denied:0 for 10 priority 2
04 1e0c0001 24080001 12044e6f=FloorRequestStatus request 1 reason "No"
04 1e0c0001 24080001 12020000=FloorRequestStatus request 1 reason ""
04 1e0c0001 24080001 1204ff22=FloorRequestStatus request 1 reason "\xff\x22"
04 1e100001 220c0004 0a040400 12044e6f=FloorRequestStatus request 1 floor 4:Denied:0
04 1e100001 24040001 24080001 12044e6f=FloorRequestStatus request 1
08 04040004 1e0c0001 24080001 12044e6f=FloorStatus floor 4 [request 1 reason "No"]"#;

#[test]
fn a_reason_stands_behind_the_overall_status(rt: HostRuntime) {
    assert_told(&rt, told_of_lines(rt.alloc(), LINES), "7 cases");
}
