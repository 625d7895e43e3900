//! What the administrator says for a user of a desk's conference, who has no connection.

use super::{frame, joined, opened};
use crate::*;
use std::test::*;

/// User 10 of conference 1 asks for floor 1, in transaction 1.
const REQUEST: [u8; 16] = [0x20, 0x01, 0, 1, 0, 0, 0, 1, 0, 1, 0, 10, 0x04, 0x04, 0, 1];

#[test]
fn what_is_said_for_a_user_is_answered_and_kept(rt: HostRuntime) -> Result<(), Fail> {
    let alloc = rt.alloc();
    let (_registry, desk) = opened(&rt, alloc)?;
    let (_seat, _taker) = joined(&rt, &desk, 11)?;
    let Ok(said) = desk.say(&rt, 10, frame(alloc, &REQUEST)?) else {
        return Err(Fail::from("the message is refused"));
    };
    assert_eq!(rt; said.place, 2);
    let reply = said.reply.ok_or("no answer")?;
    // A FloorRequestStatus for one floor.
    assert_eq!(rt;
        (reply.header().get(1).copied(), reply.len()),
        (Some(4), 40)
    );
    match desk.say(&rt, 99, frame(alloc, &REQUEST)?) {
        Ok(_said) => return Err(Fail::from("it is said for nobody")),
        Err(refusal) => assert_eq!(rt; refusal, RoomRefusal::Refused(Refusal::NoUser)),
    }
    let text = desk.journal_text(&rt)?;
    let line = "2 say 10 20010001000000010001000a04040001\n";
    assert!(rt; text.as_str().contains(line), "{}", text.as_str());
    Ok(())
}
