//! Many conferences with high numbers, each with what its own members do.

use super::{frame, joined, opens, place_of};
use crate::*;
use std::alloc::Global;
use std::sync::Wait;
use std::test::*;

/// How many conferences there are, and the number of the first.
const CONFERENCES: u8 = 70;

const FIRST: u32 = 1_001;

/// A Hello of user 10 in the conference, with this transaction.
fn hello(alloc: Global, conference: u32, transaction: u8) -> Result<Frame, Fail> {
    let mut bytes = Vec::from_slice(alloc, &[0x20, 11, 0, 0])?;
    bytes.extend_from_slice(&conference.to_be_bytes())?;
    bytes.extend_from_slice(&[0, transaction, 0, 10])?;
    frame(alloc, &bytes)
}

/// The seat of user 10, who has sent a Hello with this transaction.
fn greeting<R: Wait>(rt: &R, alloc: Global, desk: &Desk, transaction: u8) -> Result<Seat, Fail> {
    let (mut seat, _taker) = joined(rt, desk, 10)?;
    let hello = hello(alloc, desk.conference(), transaction)?;
    match place_of(rt, desk, &mut seat, hello, &FreePass) {
        Some(2) => Ok(seat),
        Some(_) | None => Err(Fail::from("the Hello isn't the second event")),
    }
}

#[test]
fn each_of_seventy_conferences_has_its_own_journal(rt: HostRuntime) -> Result<(), Fail> {
    let alloc = rt.alloc();
    let registry = Registry::new(alloc);
    let mut desks = Vec::new(alloc);
    let mut seats = Vec::new(alloc);
    for (conference, transaction) in (FIRST..).zip(1..=CONFERENCES) {
        let desk = opens(&rt, alloc, &registry, conference)?;
        seats.push(greeting(&rt, alloc, &desk, transaction)?)?;
        desks.push(desk)?;
    }
    for (desk, transaction) in desks.iter().zip(1..=CONFERENCES) {
        let conference = desk.conference();
        let head = format!(in alloc; "200b0000{conference:08x}00{transaction:02x}000a")?;
        let wanted = format!(in alloc; "1 join 10\n2 message 1 {head}\nend 2\n")?;
        let text = desk.journal_text(&rt)?;
        assert_eq!(rt; text.as_str(), wanted.as_str());
    }
    assert_eq!(rt;
        finish(&rt, &registry, &seats),
        Ok(Report {
            seats: 70,
            events: 140
        })
    );
    Ok(())
}
