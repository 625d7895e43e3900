//! Messages that are cut at each byte.

use crate::scripts::Scripts;
use std::alloc::Global;
use test_cases::{Case, Fault};

/// How many bytes each of the messages has.
const LEN: usize = 16;

/// User 10 asks for floor 1.
const REQUEST: [&str; LEN] = [
    "20", "01", "00", "01", "00", "00", "00", "01", "00", "02", "00", "0a", "04", "04", "00", "01",
];

/// User 11 asks for it too.
const OTHER_REQUEST: [&str; LEN] = [
    "20", "01", "00", "01", "00", "00", "00", "01", "00", "01", "00", "0b", "04", "04", "00", "01",
];

/// User 10 gives it back.
const RELEASE: [&str; LEN] = [
    "20", "02", "00", "01", "00", "00", "00", "01", "00", "03", "00", "0a", "06", "04", "00", "01",
];

/// A message, as what stands before a place in it, and the rest.
#[derive(Drop)]
struct Cut {
    front: String,
    rest: String,
}

impl Cut {
    /// The message in two pieces.
    fn new(alloc: Global, message: &[&str], place: usize) -> Result<Cut, Fault> {
        let (front, rest) = message.split_at(place.min(message.len()));
        Ok(Cut {
            front: front.concat(alloc)?,
            rest: rest.concat(alloc)?,
        })
    }
}

/// The lines of a connection that says Hello, sends the front of a message and leaves; then those of
/// one that sends the message in two pieces, behind a Hello.
fn lines(
    alloc: Global,
    cut: &Cut,
    user: u16,
    left: u8,
    connection: u8,
    answers: &str,
) -> Result<String, Fault> {
    let (front, rest) = (cut.front.as_str(), cut.rest.as_str());
    let hello = format!(in alloc; "Hello(0009, {user:04x})")?;
    let hello = hello.as_str();
    let ack = format!(in alloc; "HelloAck(0009, {user:04x})")?;
    let ack = ack.as_str();
    Ok(format!(in alloc;
        "> attach 1 {user}\n\
         < attached {left}\n\
         > send {left} {hello} {front}\n\
         < {left} {ack}\n\
         > leave {left}\n\
         > send {connection} {hello} {front}\n\
         < {connection} {ack}\n\
         > send {connection} {rest}\n\
         {answers}\n"
    )?)
}

/// The case of the messages that are cut at this place.
fn check(alloc: Global, place: usize) -> Result<(), Fault> {
    let request = Cut::new(alloc, &REQUEST, place)?;
    let other = Cut::new(alloc, &OTHER_REQUEST, place)?;
    let release = Cut::new(alloc, &RELEASE, place)?;
    let mut case = Case::new(alloc, "")?;
    case.extend(
        alloc,
        "> attach 1 10\n< attached 1\n> attach 1 11\n< attached 2",
    )?;
    let granted = "< 1 R(0002, 000a, 0001, 0300, 0001, 4000)";
    case.extend(alloc, lines(alloc, &request, 10, 3, 1, granted)?.as_str())?;
    let waits = "< 2 R(0001, 000b, 0002, 0201, 0001, 4000)";
    case.extend(alloc, lines(alloc, &other, 11, 4, 2, waits)?.as_str())?;
    let passed_on = "< 1 R(0003, 000a, 0001, 0600, 0001, 4000)\n\
                     < 2 R(0000, 000b, 0002, 0300, 0001, 4000)";
    case.extend(alloc, lines(alloc, &release, 10, 5, 1, passed_on)?.as_str())?;
    case.check(&mut Scripts, alloc, "messages that are cut")
}

/// A case for each place at which three messages may be cut: those of the example in which a release
/// passes the floor on.
pub fn run(alloc: Global) -> Result<usize, Fault> {
    for place in 1..LEN {
        check(alloc, place)?;
    }
    Ok(LEN - 1)
}
