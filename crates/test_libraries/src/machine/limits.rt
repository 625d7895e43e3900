//! Messages and changes at their greatest size.

use super::runs::join;
use crate::cases::{assert_told, differing, number, part};
use crate::framed::message;
use crate::hexadecimal::{payload, spelled};
use floor_config::{Floors, Users};
use floor_machine::{Config, Floor, Machine, Parcel, Refusal, User};
use floor_wire::Frame;
use std::alloc::{AllocError, Global};
use std::fmt::Write;

fn user(id: u16, proxy: bool) -> User {
    User {
        id,
        name: None,
        uri: None,
        proxy,
        port: None,
    }
}

/// Conference 1 with so many floors of this room, in which a user may have as many requests as
/// `limit` says at a floor. User 10, who may ask for others, and user 11 have joined.
fn machine(
    alloc: Global,
    floors: u16,
    room: u16,
    limit: u16,
) -> Result<Option<Machine>, AllocError> {
    let users = Users::from_vec(vec![in alloc; user(10, true), user(11, false)]?);
    let mut all = Vec::new(alloc);
    for id in 1..=floors {
        all.push(Floor {
            id,
            room,
            chair: None,
        })?;
    }
    match Config::build(alloc, 1, limit, 64, users, Floors::from_vec(all)) {
        Ok(config) => joined(Machine::new(alloc, config)?),
        Err(_) => Ok(None),
    }
}

/// The machine, where users 10 and 11 may join.
fn joined(mut machine: Machine) -> Result<Option<Machine>, AllocError> {
    if join(&mut machine, 10).is_ok() && join(&mut machine, 11).is_ok() {
        Ok(Some(machine))
    } else {
        Ok(None)
    }
}

/// What a message of member 1 tells.
fn told(
    alloc: Global,
    machine: &mut Machine,
    primitive: u8,
    attributes: &[u8],
) -> Result<Vec<Parcel>, AllocError> {
    let mut out = Vec::new(alloc);
    let bytes = message(alloc, primitive, 1, attributes)?;
    if let Some(frame) = Frame::of(alloc, &bytes)? {
        // A message that is refused tells nothing.
        let _taken = machine.message(1, &frame, &mut out, &mut Vec::new(alloc));
    }
    Ok(out)
}

/// Each case: its name, the floors of the conference, a primitive and a payload. Behind `=>` how many
/// messages are told, the ongoing requests, and the payloads that are told.
const MESSAGES: &str = "\
33 floors, of which 33 doesn't exist, which is error code 6 | 32 | 1 | \
    04040001 04040002 04040003 04040004 04040005 04040006 04040007 04040008 04040009 0404000a \
    0404000b 0404000c 0404000d 0404000e 0404000f 04040010 04040011 04040012 04040013 04040014 \
    04040015 04040016 04040017 04040018 04040019 0404001a 0404001b 0404001c 0404001d 0404001e \
    0404001f 04040020 04040021 \
    => 1, 0: 0c030600
a PARTICIPANT-PROVIDED-INFO of 102 bytes, of which 62 are told | 1 | 1 | \
    04040001 1068, 102 x 61 \
    => 1, 1: 1e5c0001 24080001 0a040300 22080001 0a040300 1c04000a 08044000 10406161 \
    61616161 61616161 61616161 61616161 61616161 61616161 61616161 61616161 61616161 61616161 \
    61616161 61616161 61616161 61616161 61616161
a query of 9 floors, which is answered by 9 statuses | 9 | 7 | \
    04040009 04040008 04040007 04040006 04040005 04040004 04040003 04040002 04040001 \
    => 9, 0: 04040009 04040008 04040007 04040006 04040005 04040004 04040003 04040002 04040001
a message of 32 KiB | 1 | 7 | 8189 x 04040001 \
    => 1, 0: 04040001";

#[test]
fn messages_of_many_attributes_are_served(rt: HostRuntime) {
    let told = differing(rt.alloc(), MESSAGES, "\n", " => ", told_of_message);
    assert_told(&rt, told, "4 cases");
}

fn told_of_message(alloc: Global, case: &str) -> Result<String, AllocError> {
    match machine(alloc, number(part(case, 1)), 1, 16)? {
        Some(mut machine) => told_by(alloc, &mut machine, case),
        None => String::from_str(alloc, "no machine"),
    }
}

fn told_by(alloc: Global, machine: &mut Machine, case: &str) -> Result<String, AllocError> {
    let attributes = payload(alloc, part(case, 3))?;
    let primitive = number(part(case, 2)).min(255) as u8;
    let out = told(alloc, machine, primitive, &attributes)?;
    let mut text = format!(in alloc; "{}, {}:", out.len(), machine.ongoing_requests())?;
    for parcel in &out {
        text.push_str(&spelled(alloc, parcel.payload())?)?;
    }
    Ok(text)
}

#[test]
fn a_leave_ends_256_requests_and_tells_a_member_288_messages(rt: HostRuntime) {
    let wanted =
        "256 asked, 256 ongoing, left true, 256 changed, 0 ongoing, 1 live, 288 told, all to 1 true";
    assert_told(&rt, told_of_crowd(rt.alloc()), wanted);
}

fn told_of_crowd(alloc: Global) -> Result<String, AllocError> {
    match machine(alloc, 32, 8, 8)? {
        Some(mut machine) => crowded(alloc, &mut machine),
        None => String::from_str(alloc, "no machine"),
    }
}

fn crowded(alloc: Global, machine: &mut Machine) -> Result<String, AllocError> {
    let mut asked = 0u32;
    let mut floors = Vec::new(alloc);
    for floor in 1..=32u8 {
        floors.extend_from_slice(&[4, 4, 0, floor])?;
        // User 10 asks for user 11, and both are told.
        for _ in 0..8 {
            let attributes = [2, 4, 0, 11, 4, 4, 0, floor];
            if told(alloc, machine, 1, &attributes)?.len() == 2 {
                asked = asked.saturating_add(1);
            }
        }
    }
    let mut text = format!(in alloc; "{asked} asked, {} ongoing", machine.ongoing_requests())?;
    let _watches = told(alloc, machine, 7, &floors)?;
    push_leave(alloc, &mut text, machine)?;
    Ok(text)
}

/// Appends what the leave of member 2 changes, and what it tells: a status of each request and of each
/// floor, all to the member that asked and watches. Who left is told nothing.
fn push_leave(alloc: Global, text: &mut String, machine: &mut Machine) -> Result<(), AllocError> {
    let mut out = Vec::new(alloc);
    let mut changed = Vec::new(alloc);
    let left = machine.leave(2, &mut out, &mut changed).is_ok();
    write!(text, ", left {left}, {} changed", changed.len())?;
    write!(text, ", {} ongoing", machine.ongoing_requests())?;
    write!(text, ", {} live", machine.live_members())?;
    let to_one = out.iter().all(|parcel| parcel.n() == 1);
    write!(text, ", {} told, all to 1 {to_one}", out.len())
}

#[test]
fn a_member_that_is_1024_messages_behind_is_cut(rt: HostRuntime) {
    let wanted = "1024 told, cut false; 0 told, cut true; took 1025 BadCount; took 1024 Ok; \
        cut true, Hello Cut";
    assert_told(&rt, told_of_backlog(rt.alloc()), wanted);
}

fn told_of_backlog(alloc: Global) -> Result<String, AllocError> {
    match machine(alloc, 1, 1, 1)? {
        Some(mut machine) => backlogged(alloc, &mut machine),
        None => String::from_str(alloc, "no machine"),
    }
}

/// What 1,024 Hellos of member 1 tell it, what one more does, and what it may do from then on.
fn backlogged(alloc: Global, machine: &mut Machine) -> Result<String, AllocError> {
    let mut text = String::new(alloc);
    for times in [1_024u16, 1] {
        let mut count = 0usize;
        for _ in 0..times {
            count = count.saturating_add(told(alloc, machine, 11, &[])?.len());
        }
        write!(text, "{count} told, cut {}; ", machine.is_cut(1))?;
    }
    for k in [1_025, 1_024] {
        let outcome = name_of(machine.took(1, k));
        write!(text, "took {k} {outcome}; ")?;
    }
    let outcome = hello(alloc, machine)?;
    write!(text, "cut {}, Hello {outcome}", machine.is_cut(1))?;
    Ok(text)
}

/// How a Hello of member 1 is taken.
fn hello(alloc: Global, machine: &mut Machine) -> Result<&'static str, AllocError> {
    let mut out = Vec::new(alloc);
    let bytes = message(alloc, 11, 1, &[])?;
    match Frame::of(alloc, &bytes)? {
        Some(frame) => Ok(name_of(machine.message(1, &frame, &mut out, &mut Vec::new(alloc)))),
        None => Ok("no message"),
    }
}

fn name_of(outcome: Result<(), Refusal>) -> &'static str {
    match outcome {
        Ok(()) => "Ok",
        Err(refusal) => refusal.name(),
    }
}
