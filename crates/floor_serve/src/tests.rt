//! What no clause says of a booth, a desk and the loops.

ghost use Rattle.std.specs.Prelude.{◌≡◌, IfOk};

use super::*;
use floor_config::read_configs;
use std::alloc::Global;
use std::io::Cursor;
use std::sync::Wait;
use std::test::*;

mod acknowledged;
mod booths;
mod ends;
mod gates;
mod journals;
mod leaving;
mod many;
mod numbers;
mod outboxes;
mod registries;
mod saying;
mod threads;
mod waking;
mod writers;
mod writes;

/// A Hello of user 10 in conference 1, transaction 1.
const HELLO: [u8; 12] = [0x20, 0x0b, 0, 0, 0, 0, 0, 1, 0, 1, 0, 10];

/// The answer to it.
const HELLO_ACK: [u8; 48] = [
    0x20, 0x0c, 0, 9, 0, 0, 0, 1, 0, 1, 0, 10, 0x16, 0x0f, 1, 2, 3, 4, 5, 6, 7, 8, 9, 10, 11, 12,
    13, 0, 0x14, 0x14, 2, 4, 6, 8, 10, 12, 14, 16, 18, 20, 22, 24, 26, 28, 30, 32, 34, 36,
];

/// A message of this many bytes, of which the first twelve are its header.
fn frame(alloc: Global, bytes: &[u8]) -> Result<Frame, Fail> {
    Ok(Frame::of(alloc, bytes)?.ok_or("no message")?)
}

/// A registry with the demonstration's conference, and a desk of it.
fn opened<R: Wait>(rt: &R, alloc: Global) -> Result<(Registry, Desk), Fail> {
    let registry = Registry::new(alloc);
    let Ok(()) = registry.open(rt, Config::demonstration(alloc)?) else {
        return Err(Fail::from("the conference doesn't open"));
    };
    let Ok(desk) = registry.desk(rt, 1) else {
        return Err(Fail::from("no desk"));
    };
    Ok((registry, desk))
}

/// A conference under this number, in which user 10 may ask for floor 1.
fn numbered(alloc: Global, conference: u32) -> Result<Config, Fail> {
    let head = format!(in alloc; "[[conference]]\nid = {conference}\n")?;
    let text = format!(in alloc;
        "{head}[[conference.user]]\nid = 10\n[[conference.floor]]\nid = 1\n"
    )?;
    match read_configs(alloc, &text) {
        Ok(mut configs) => Ok(configs.pop().ok_or("no conference")?),
        Err(_) => Err(Fail::from("the configuration isn't read")),
    }
}

/// A desk of a conference that the registry opens under this number.
fn opens<R: Wait>(rt: &R, alloc: Global, registry: &Registry, conference: u32) -> Result<Desk, Fail>
    ensures { IfOk result (λ desk. desk.conference ≡ conference) }
{
    let Ok(()) = registry.open(rt, numbered(alloc, conference)?) else {
        return Err(Fail::from("the conference doesn't open"));
    };
    match registry.desk(rt, conference) {
        Ok(desk) => Ok(desk),
        Err(_) => Err(Fail::from("no desk")),
    }
}

/// The seat of a user that joins, and what takes its parcels.
fn joined<R: Wait>(rt: &R, desk: &Desk, user: u16) -> Result<(Seat, MemberTaker), Fail>
    ensures { IfOk result (λ joined. joined.0.conference ≡ desk.now.conference) }
{
    match desk.join(rt, user) {
        Ok(joined) => Ok(joined),
        Err(_) => Err(Fail::from("the user doesn't join")),
    }
}

/// What the desk answers to the message of the seat, if the seat is of its conference.
fn answer_of<R: Wait, G: Gate>(
    rt: &R,
    desk: &Desk,
    seat: &mut Seat,
    frame: Frame,
    gate: &G,
) -> Option<Result<Receipt, RoomRefusal>> {
    if seat.conference() != desk.conference() {
        return None;
    }
    Some(desk.submit(rt, seat, frame, gate))
}

/// Where the desk puts the message of the seat, if it takes it.
fn place_of<R: Wait, G: Gate>(
    rt: &R,
    desk: &Desk,
    seat: &mut Seat,
    frame: Frame,
    gate: &G,
) -> Option<Place> {
    match answer_of(rt, desk, seat, frame, gate) {
        Some(Ok(receipt)) => Some(receipt.place),
        Some(Err(_)) | None => None,
    }
}

/// Whether the desk takes the message of the seat.
fn submits<R: Wait>(rt: &R, desk: &Desk, seat: &mut Seat, frame: Frame) -> bool {
    place_of(rt, desk, seat, frame, &FreePass).is_some()
}

/// Whether the member leaves.
fn leaves<R: Wait>(rt: &R, desk: &Desk, seat: &mut Seat) -> bool {
    seat.conference() == desk.conference() && desk.leave(rt, seat).is_ok()
}

/// The desk of a conference whose member 1, user 10, has sent so many Hellos, its seat and what takes
/// its parcels.
fn greeted<R: Wait>(rt: &R, alloc: Global, count: u32) -> Result<(Desk, Seat, MemberTaker), Fail> {
    let (_registry, desk) = opened(rt, alloc)?;
    let (mut seat, taker) = joined(rt, &desk, 10)?;
    let hello = frame(alloc, &HELLO)?;
    for _ in 0..count {
        if !submits(rt, &desk, &mut seat, hello.share()?) {
            return Err(Fail::from("a Hello is refused"));
        }
    }
    Ok((desk, seat, taker))
}

#[test]
fn a_member_is_served_from_joining_to_the_end(rt: HostRuntime) -> Result<(), Fail> {
    let alloc = rt.alloc();
    let (registry, desk) = opened(&rt, alloc)?;
    assert_eq!(rt;
        registry.open(&rt, Config::demonstration(alloc)?),
        Err(OpenRefusal::Used)
    );
    let (mut seat, mut taker) = joined(&rt, &desk, 10)?;
    let mut source = Marked::new(Cursor::new([HELLO.as_slice(), &HELLO[..7]].concat(alloc)?));
    assert_eq!(rt;
        read_loop(&rt, &mut source, &desk, &mut seat, &FreePass),
        Ok(ReadEnd::Cut(7))
    );
    assert_eq!(rt; seat.sent().len(), 1);
    assert_eq!(rt; desk.leave(&rt, &mut seat), Ok(()));
    let mut sink = Marked::new(Vec::new(alloc));
    assert_eq!(rt;
        write_loop(&rt, alloc, &mut sink, &mut taker),
        Ok(Written {
            parcels: 1,
            bytes: 48
        })
    );
    let text = desk.journal_text(&rt)?;
    assert_eq!(rt;
        text.as_str(),
        "1 join 10\n2 message 1 200b0000000000010001000a\n3 leave 1\nend 3\n"
    );
    let seats = [seat];
    assert_eq!(rt;
        finish(&rt, &registry, &seats),
        Ok(Report {
            seats: 1,
            events: 3
        })
    );
    Ok(())
}
