//! Runs of the demonstration configuration: who is told which bytes.

use crate::cases::{assert_told, differing, number};
use crate::hexadecimal::{frame, spelled};
use floor_config::Config;
use floor_machine::{Event, Machine, Parcel, Refusal};
use std::alloc::{AllocError, Global};
use std::fmt::Write;

/// Joins a user to a machine that has few members.
pub(super) fn join(machine: &mut Machine, user: u16) -> Result<u32, Refusal> {
    if machine.joins() < 100 {
        machine.join(user)
    } else {
        Err(Refusal::Full)
    }
}

/// Each case: its name, the messages of members, where users 10, 11 and 12 joined, and behind `=>`
/// the messages to members, all in their order.
const RUNS: &str = "\
a Hello twice
1 200b0000 00000001 0001000a
1 200b0000 00000001 0001000a
=>
1 200c0009 00000001 0001000a 160f0102 03040506 0708090a 0b0c0d00 14140204 06080a0c 0e101214 16181a1c 1e202224
1 200c0009 00000001 0001000a 160f0102 03040506 0708090a 0b0c0d00 14140204 06080a0c 0e101214 16181a1c 1e202224

a request for a free floor
1 20010001 00000001 0002000a 04040001
=>
1 20040007 00000001 0002000a 1e1c0001 24080001 0a040300 22080001 0a040300 1c04000a 08044000

a release that passes the floor on
1 20010001 00000001 0002000a 04040001
2 20010001 00000001 0001000b 04040001
1 20020001 00000001 0003000a 06040001
=>
1 20040007 00000001 0002000a 1e1c0001 24080001 0a040300 22080001 0a040300 1c04000a 08044000
2 20040007 00000001 0001000b 1e1c0002 24080002 0a040201 22080001 0a040201 1c04000b 08044000
1 20040007 00000001 0003000a 1e1c0001 24080001 0a040600 22080001 0a040600 1c04000a 08044000
2 20040007 00000001 0000000b 1e1c0002 24080002 0a040300 22080001 0a040300 1c04000b 08044000

a release of what never was
1 20020001 00000001 0003000a 06040001
=>
1 200d0001 00000001 0003000a 0c030700

a release of another's
1 20010001 00000001 0002000a 04040001
2 20020001 00000001 0003000b 06040001
=>
1 20040007 00000001 0002000a 1e1c0001 24080001 0a040300 22080001 0a040300 1c04000a 08044000
2 200d0001 00000001 0003000b 0c030500

a watched floor that is asked for
1 20070001 00000001 0001000a 04040001
2 20010001 00000001 0001000b 04040001
=>
1 20080001 00000001 0001000a 04040001
1 20080008 00000001 0000000a 04040001 1e1c0001 24080001 0a040300 22080001 0a040300 1c04000b 08044000
2 20040007 00000001 0001000b 1e1c0001 24080001 0a040300 22080001 0a040300 1c04000b 08044000

a query of a request
1 20010001 00000001 0002000a 04040001
2 20030001 00000001 0004000b 06040001
=>
1 20040007 00000001 0002000a 1e1c0001 24080001 0a040300 22080001 0a040300 1c04000a 08044000
2 20040007 00000001 0004000b 1e1c0001 24080001 0a040300 22080001 0a040300 1c04000a 08044000

a request on behalf of another, without the mark
1 20010002 00000001 0001000a 04040001 0204000b
=>
1 200d0001 00000001 0001000a 0c030500

a request for an unknown floor
1 20010001 00000001 0001000a 04040009
=>
1 200d0001 00000001 0001000a 0c030600";

#[test]
fn each_message_tells_whom_it_concerns(rt: HostRuntime) {
    let told = differing(rt.alloc(), RUNS, "\n\n", "\n=>", told_of_run);
    assert_told(&rt, told, "9 cases");
}

fn told_of_run(alloc: Global, case: &str) -> Result<String, AllocError> {
    let mut machine = Machine::new(alloc, Config::demonstration(alloc)?)?;
    run(alloc, &mut machine, case)
}

/// What is told where users 10, 11 and 12 join and the messages of a case are taken.
fn run(alloc: Global, machine: &mut Machine, case: &str) -> Result<String, AllocError> {
    for user in [10, 11, 12] {
        if join(machine, user).is_err() {
            return String::from_str(alloc, "a join is refused");
        }
    }
    let mut out = Vec::new(alloc);
    for line in case.lines().skip(1) {
        if !is_taken(alloc, machine, line, &mut out)? {
            return String::from_str(alloc, "a message is refused");
        }
    }
    told_to(alloc, &out)
}

/// Whether the message of a line is taken.
fn is_taken(
    alloc: Global,
    machine: &mut Machine,
    line: &str,
    out: &mut Vec<Parcel>,
) -> Result<bool, AllocError> {
    match message(alloc, line)? {
        Some(Event::Message { n, frame }) => {
            let taken = machine.message(n, &frame, out, &mut Vec::new(alloc));
            Ok(taken.is_ok())
        }
        _ => Ok(false),
    }
}

/// The message of a line: the member's number, and the bytes.
fn message(alloc: Global, line: &str) -> Result<Option<Event>, AllocError> {
    let (member, bytes) = line.split_once(' ').unwrap_or((line, ""));
    let n = u32::from(number(member));
    match frame(alloc, bytes)? {
        Some(frame) => Ok(Some(Event::Message { n, frame })),
        None => Ok(None),
    }
}

/// The members that are told something, and the bytes, a line for each message.
fn told_to(alloc: Global, out: &[Parcel]) -> Result<String, AllocError> {
    let mut told = String::new(alloc);
    for parcel in out {
        write!(told, "\n{}", parcel.n())?;
        told.push_str(&spelled(alloc, parcel.header())?)?;
        told.push_str(&spelled(alloc, parcel.payload())?)?;
        if parcel.len() != parcel.header().len().wrapping_add(parcel.payload().len()) {
            told.push_str(" of another length")?;
        }
    }
    Ok(told)
}

/// The events that a list is made of, and behind `=>` how many are run, the refusal of the next one,
/// and the messages to members.
const EVENTS: &str = "\
join 10
join 11
message 1 20010001 00000001 0002000a 04040001
took 1
message 2 20010001 00000001 0001000b 04040001
revoke 1
leave 2
close
join 10
=>8 Ended
1 20040007 00000001 0002000a 1e1c0001 24080001 0a040300 22080001 0a040300 1c04000a 08044000
2 20040007 00000001 0001000b 1e1c0002 24080002 0a040201 22080001 0a040201 1c04000b 08044000
1 20040007 00000001 0000000a 1e1c0001 24080001 0a040700 22080001 0a040700 1c04000a 08044000
2 20040007 00000001 0000000b 1e1c0002 24080002 0a040300 22080001 0a040300 1c04000b 08044000";

#[test]
fn a_list_of_events_is_run_up_to_the_first_that_is_refused(rt: HostRuntime) {
    let told = differing(rt.alloc(), EVENTS, "\n\n", "\n=>", told_of_events);
    assert_told(&rt, told, "1 cases");
}

fn told_of_events(alloc: Global, case: &str) -> Result<String, AllocError> {
    let mut events = Vec::new(alloc);
    for line in case.lines() {
        if let Some(event) = event(alloc, line)? {
            events.push(event)?;
        }
    }
    told_of_list(alloc, &events)
}

/// The event of a line.
fn event(alloc: Global, line: &str) -> Result<Option<Event>, AllocError> {
    let (kind, rest) = line.split_once(' ').unwrap_or((line, ""));
    match kind {
        "join" => Ok(Some(Event::Join { user: number(rest) })),
        "leave" => Ok(Some(Event::Leave {
            n: u32::from(number(rest)),
        })),
        "revoke" => Ok(Some(Event::Revoke {
            request: number(rest),
        })),
        // One of the messages to a member is acknowledged.
        "took" => Ok(Some(Event::Took {
            n: u32::from(number(rest)),
            k: 1,
        })),
        "close" => Ok(Some(Event::Close)),
        _ => message(alloc, rest),
    }
}

fn told_of_list(alloc: Global, events: &[Event]) -> Result<String, AllocError> {
    let mut machine = Machine::new(alloc, Config::demonstration(alloc)?)?;
    run_list(alloc, &mut machine, events)
}

/// How many events are run, the refusal of the next one, and what is told.
fn run_list(alloc: Global, machine: &mut Machine, events: &[Event]) -> Result<String, AllocError> {
    let mut out = Vec::new(alloc);
    if machine.joins() >= 100 || events.len() >= 100 {
        return String::from_str(alloc, "too many");
    }
    let mut told = match machine.run(events, &mut out) {
        Ok(()) => String::from_str(alloc, "all")?,
        Err(stopped) => format!(in alloc; "{} {}", stopped.done, stopped.refusal.name())?,
    };
    told.push_str(&told_to(alloc, &out)?)?;
    Ok(told)
}
