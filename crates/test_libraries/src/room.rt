//! Runs of a room, as lines that act on it and lines that they answer.

mod changes;

use crate::cases::{assert_told, barred, differing};
use crate::framed::message;
use crate::hexadecimal::{frame, spelled};
use floor_room::{
    Act, Config, Effects, Event, Frame, Ledger, Parcel, ReplayFault, Room, RoomRefusal, SharedInfo,
    add_lines, journal_text, replay,
};
use floor_words::{read_u16, read_u32};
use std::alloc::{AllocError, Global};
use std::fmt::Write;

/// Each line of a script, and behind a `>` what it answers.
/// Users 10 and 11 ask for floor 1, and 10 gives it back; what user 11 is sent is 80 bytes.
const RELEASE_PASSES_THE_FLOOR_ON: &str = "\
join 10 > ok 1
join 11 > ok 2
serve 1 20010001000000010002000a04040001 > ok 3
serve 2 20010001000000010001000b04040001 > ok 4
serve 1 20020001000000010003000a06040001 > ok 5
status > 2 1 5 open
waits 2 > 2
replay 2 > sent 20040007 00000001 0001000b 1e1c0002 24080002 0a040201 22080001 0a040201 1c04000b 08044000 20040007 00000001 0000000b 1e1c0002 24080002 0a040300 22080001 0a040300 1c04000b 08044000
take 2 > sent 20040007 00000001 0001000b 1e1c0002 24080002 0a040201 22080001 0a040201 1c04000b 08044000
take 2 > sent 20040007 00000001 0000000b 1e1c0002 24080002 0a040300 22080001 0a040300 1c04000b 08044000
take 2 > none
replay 3 > none
revoke 9 > NoRequest
revoke 2 > ok
leave 2 > ok
close > ok
journal > 1 join 10|2 join 11|3 message 1 20010001000000010002000a04040001|4 message 2 20010001000000010001000b04040001|5 message 1 20020001000000010003000a06040001|6 revoke 2|7 leave 2|8 close|end 8|
status > 1 0 8 ended";

/// A refused line adds no event, and a room that is broken off keeps what waits.
const REFUSALS: &str = "\
journal > end 0|
join 99 > NoUser
leave 1 > NoMember
take 1 > NoMember
waits 1 > NoMember
join 10 > ok 1
serve 2 200b0000000000010001000a > NoMember
serve 0 200b0000000000010001000a > NoMember
revoke 1 > NoRequest
serve 1 20010001000000010002000a04040001 > ok 2
closed > no
break_off > ok
closed > Broken
serve 1 200b0000000000010001000a > Broken
took 1 1 > Broken
close > Broken
take 1 > sent 20040007 00000001 0002000a 1e1c0001 24080001 0a040300 22080001 0a040300 1c04000a 08044000
take 1 > none
status > 0 0 2 broken";

/// A conference that has ended takes nothing, and keeps what waits.
const ENDED: &str = "\
join 12 > ok 1
serve 1 20010001000000010002000c04040001 > ok 2
leave 1 > ok
close > ok
join 10 > Ended
took 1 1 > Ended
leave 1 > Ended
close > Ended
waits 1 > 1";

/// Whoever is 1,024 parcels behind is cut by the next one, for good; what was told to it before waits,
/// and may be acknowledged.
const CUT: &str = "\
join 10 > ok 1
took 1 1 > BadCount
took 2 0 > NoMember
hellos 1024 > 1024
took 1 0 > BadCount
took 1 1025 > BadCount
cut 1 > no
hellos 1 > 1
cut 1 > yes
cut 2 > no
serve 1 200b0000000000010001000a > Cut
took 1 1024 > ok
took 1 1 > BadCount
cut 1 > yes
serve 1 200b0000000000010001000a > Cut
leave 1 > ok
cut 1 > yes
took 1 0 > NoMember
waits 1 > 1024
status > 0 0 1028 open";

/// An acknowledgement is an event, of which nobody is told.
const ACKNOWLEDGED: &str = "\
join 10 > ok 1
serve 1 200b0000000000010001000a > ok 2
take 1 > sent 200c0009 00000001 0001000a 160f0102 03040506 0708090a 0b0c0d00 14140204 06080a0c 0e101214 16181a1c 1e202224
took 1 1 > ok
waits 1 > 0
serve 1 20020001000000010002000a06040001 > ok 4
journal > 1 join 10|2 message 1 200b0000000000010001000a|3 took 1 1|4 message 1 20020001000000010002000a06040001|end 4|
replay 1 > sent 200c0009 00000001 0001000a 160f0102 03040506 0708090a 0b0c0d00 14140204 06080a0c 0e101214 16181a1c 1e202224 200d0001 00000001 0002000a 0c030700";

/// 64 members at most are live, and one more may join where one has left.
const FULL_ROOM: &str = "\
joins 64 > ok 64
joins 1 > Full
leave 3 > ok
joins 1 > ok 65";

/// The lines of a script that answer something else than is wanted, and how many it has.
fn told_of_script(alloc: Global, script: &str) -> Result<String, AllocError> {
    let mut room = Room::new(alloc, Config::demonstration(alloc)?)?;
    differing(alloc, script, "\n", " > ", |alloc, line| {
        answer(alloc, &mut room, line)
    })
}

/// What a line of a script answers.
fn answer(alloc: Global, room: &mut Room, line: &str) -> Result<String, AllocError> {
    let (word, rest) = line.split_once(' ').unwrap_or((line, ""));
    match word {
        "waits" => waits(alloc, room, number(rest)),
        "status" => status(alloc, room),
        "journal" => text_of(alloc, room.journal()),
        "replay" => replayed(alloc, room.journal(), number(rest)),
        "closed" => closed(alloc, room),
        "cut" => String::from_str(
            alloc,
            if room.is_cut(number(rest)) {
                "yes"
            } else {
                "no"
            },
        ),
        _ => change(alloc, room, word, rest),
    }
}

/// What a line of a script answers that changes the room.
fn change(alloc: Global, room: &mut Room, word: &str, rest: &str) -> Result<String, AllocError> {
    let short = read_u16(rest).unwrap_or(0);
    match word {
        "join" => numbered(alloc, room.join(short, &mut Effects::new(alloc))),
        "joins" => join_often(alloc, room, number(rest)),
        "serve" => serve(alloc, room, rest),
        "hellos" => hellos(alloc, room, number(rest)),
        "took" => took(alloc, room, rest),
        "leave" => done(alloc, room.leave(number(rest), &mut Effects::new(alloc))),
        "revoke" => done(
            alloc,
            room.admin(Act::Revoke(short), &mut Effects::new(alloc)),
        ),
        "close" => done(alloc, room.admin(Act::Close, &mut Effects::new(alloc))),
        "take" => take(alloc, room, number(rest)),
        _ => {
            room.break_off();
            done(alloc, Ok(()))
        }
    }
}

fn number(word: &str) -> u32 {
    read_u32(word).unwrap_or(0)
}

fn numbered(alloc: Global, outcome: Result<u32, RoomRefusal>) -> Result<String, AllocError> {
    match outcome {
        Ok(number) => format!(in alloc; "ok {number}"),
        Err(refusal) => String::from_str(alloc, refusal.name()),
    }
}

fn done(alloc: Global, outcome: Result<(), RoomRefusal>) -> Result<String, AllocError> {
    match outcome {
        Ok(()) => String::from_str(alloc, "ok"),
        Err(refusal) => String::from_str(alloc, refusal.name()),
    }
}

fn serve(alloc: Global, room: &mut Room, words: &str) -> Result<String, AllocError> {
    let (n, message) = words.split_once(' ').unwrap_or((words, ""));
    match frame(alloc, message)? {
        None => String::from_str(alloc, "no message"),
        Some(frame) => numbered(
            alloc,
            room.serve(number(n), frame, &mut Effects::new(alloc)),
        ),
    }
}

fn took(alloc: Global, room: &mut Room, words: &str) -> Result<String, AllocError> {
    let (n, k) = words.split_once(' ').unwrap_or((words, ""));
    done(
        alloc,
        room.took(number(n), number(k), &mut Effects::new(alloc)),
    )
}

fn take(alloc: Global, room: &mut Room, n: u32) -> Result<String, AllocError> {
    match room.take(n) {
        Err(_) => String::from_str(alloc, "NoMember"),
        Ok(None) => String::from_str(alloc, "none"),
        Ok(Some(parcel)) => sent(alloc, &parcel),
    }
}

fn sent(alloc: Global, parcel: &Parcel) -> Result<String, AllocError> {
    let mut text = String::from_str(alloc, "sent")?;
    text.push_str(&spelled(alloc, parcel.header())?)?;
    text.push_str(&spelled(alloc, parcel.payload())?)?;
    Ok(text)
}

fn waits(alloc: Global, room: &Room, n: u32) -> Result<String, AllocError> {
    match room.held(n) {
        None => String::from_str(alloc, "NoMember"),
        Some(held) => format!(in alloc; "{}", held.len()),
    }
}

fn status(alloc: Global, room: &Room) -> Result<String, AllocError> {
    let status = room.status();
    let (members, ongoing) = (status.members, status.ongoing);
    let (events, phase) = (status.events, status.phase.name());
    format!(in alloc; "{members} {ongoing} {events} {phase}")
}

fn replayed(alloc: Global, events: &[Event], n: u32) -> Result<String, AllocError> {
    replayed_from(alloc, &Config::demonstration(alloc)?, events, n)
}

/// What the events tell a member, from the configuration with which the conference opened.
fn replayed_from(
    alloc: Global,
    config: &Config,
    events: &[Event],
    n: u32,
) -> Result<String, AllocError> {
    match replay(alloc, config, events, n) {
        Ok(bytes) if bytes.is_empty() => String::from_str(alloc, "none"),
        Ok(bytes) => sent_bytes(alloc, &bytes),
        Err(ReplayFault::NotAJournal(place)) => format!(in alloc; "NotAJournal {place}"),
        Err(ReplayFault::Memory) => Err(AllocError),
    }
}

fn sent_bytes(alloc: Global, bytes: &[u8]) -> Result<String, AllocError> {
    let mut text = String::from_str(alloc, "sent")?;
    text.push_str(&spelled(alloc, bytes)?)?;
    Ok(text)
}

fn closed(alloc: Global, room: &Room) -> Result<String, AllocError> {
    match room.closed() {
        None => String::from_str(alloc, "no"),
        Some(refusal) => String::from_str(alloc, refusal.name()),
    }
}

/// A Hello of user 10.
fn hello(alloc: Global) -> Result<Option<Frame>, AllocError> {
    Frame::of(alloc, &message(alloc, 11, 1, &[])?)
}

/// How many of so many Hellos of the first member are served.
fn hellos(alloc: Global, room: &mut Room, times: u32) -> Result<String, AllocError> {
    let mut served = 0u32;
    for _ in 0..times {
        if let Some(frame) = hello(alloc)? {
            if room.serve(1, frame, &mut Effects::new(alloc)).is_ok() {
                served = served.wrapping_add(1);
            }
        }
    }
    format!(in alloc; "{served}")
}

/// The answer to the last of so many joins of one user.
fn join_often(alloc: Global, room: &mut Room, joins: u32) -> Result<String, AllocError> {
    let mut answered = String::new(alloc);
    for _ in 0..joins {
        answered = numbered(alloc, room.join(12, &mut Effects::new(alloc)))?;
    }
    Ok(answered)
}

#[test]
fn a_journal_that_is_run_again_sends_what_was_sent(rt: HostRuntime) {
    let told = told_of_script(rt.alloc(), RELEASE_PASSES_THE_FLOOR_ON);
    assert_told(&rt, told, "18 cases");
}

#[test]
fn a_refused_event_is_named_and_a_broken_room_keeps_what_waits(rt: HostRuntime) {
    assert_told(&rt, told_of_script(rt.alloc(), REFUSALS), "19 cases");
}

#[test]
fn a_conference_that_has_ended_keeps_what_waits(rt: HostRuntime) {
    assert_told(&rt, told_of_script(rt.alloc(), ENDED), "9 cases");
}

#[test]
fn a_member_that_is_1024_parcels_behind_is_cut(rt: HostRuntime) {
    assert_told(&rt, told_of_script(rt.alloc(), CUT), "20 cases");
}

#[test]
fn an_acknowledgement_is_an_event(rt: HostRuntime) {
    assert_told(&rt, told_of_script(rt.alloc(), ACKNOWLEDGED), "8 cases");
}

#[test]
fn an_acknowledgement_has_a_line_in_the_journal(rt: HostRuntime) {
    let events = [Event::Join { user: 10 }, Event::Took { n: 2, k: 64 }];
    assert_told(
        &rt,
        text_of(rt.alloc(), &events),
        "1 join 10|2 took 2 64|end 2|",
    );
}

#[test]
fn a_piece_of_a_journal_has_4096_events_or_256_kib(rt: HostRuntime) {
    assert_told(&rt, pieces(rt.alloc(), 10, 40_000), "4 4 2 0");
    assert_told(&rt, pieces(rt.alloc(), 5_000, 0), "4096 904 0 0");
}

/// How many lines each of four pieces of a journal has. The journal has so many messages with a payload
/// of so many bytes.
fn pieces(alloc: Global, count: usize, len: usize) -> Result<String, AllocError> {
    let bytes = message(alloc, 11, 1, &vec![in alloc; 0u8; len]?)?;
    let Some(frame) = Frame::of(alloc, &bytes)? else {
        return String::from_str(alloc, "no message");
    };
    let mut events = Vec::new(alloc);
    for _ in 0..count {
        events.push(Event::Message {
            n: 1,
            frame: frame.share()?,
        })?;
    }
    let mut text = String::new(alloc);
    let one = add_lines(alloc, &mut text, &events, 0)?;
    let two = add_lines(alloc, &mut text, &events, one)?;
    let three = add_lines(alloc, &mut text, &events, one + two)?;
    let four = add_lines(alloc, &mut text, &events, one + two + three)?;
    format!(in alloc; "{one} {two} {three} {four}")
}

fn text_of(alloc: Global, events: &[Event]) -> Result<String, AllocError> {
    barred(alloc, &journal_text(alloc, events)?)
}

#[test]
fn an_event_that_comes_too_early_has_its_place(rt: HostRuntime) {
    let events = [Event::Leave { n: 1 }];
    assert_told(&rt, replayed(rt.alloc(), &events, 1), "NotAJournal 1");
    let events = [Event::Join { user: 10 }, Event::Took { n: 1, k: 1 }];
    assert_told(&rt, replayed(rt.alloc(), &events, 1), "NotAJournal 2");
}

#[test]
fn a_room_is_full_at_64_live_members(rt: HostRuntime) {
    assert_told(&rt, told_of_script(rt.alloc(), FULL_ROOM), "4 cases");
}

#[test]
fn a_ledger_gives_the_parcels_of_its_event(rt: HostRuntime) {
    assert_told(&rt, told_behind_a_join(rt.alloc()), "told 1");
}

fn told_behind_a_join(alloc: Global) -> Result<String, AllocError> {
    let mut ledger = Ledger::new(alloc, Config::demonstration(alloc)?)?;
    let _joined = ledger.add(Event::Join { user: 10 }, &mut Vec::new(alloc));
    told(alloc, &mut ledger)
}

/// How many parcels a Hello of the first member calls for.
fn told(alloc: Global, ledger: &mut Ledger) -> Result<String, AllocError> {
    let Some(frame) = hello(alloc)? else {
        return String::from_str(alloc, "no message");
    };
    match ledger.add(Event::Message { n: 1, frame }, &mut Vec::new(alloc)) {
        Ok(out) => format!(in alloc; "told {}", out.len()),
        Err(refusal) => String::from_str(alloc, refusal.name()),
    }
}

/// A Hello with so many attributes of an unknown type behind its header.
fn longer_hello(alloc: Global, units: u8) -> Result<Vec<u8>, AllocError> {
    let mut payload = Vec::new(alloc);
    for _ in 0..units {
        payload.extend_from_slice(&[0x5c, 4, 1, 2])?;
    }
    message(alloc, 11, 1, &payload)
}

/// Whether the event at this place, from 0, is a message of exactly these bytes.
fn is_kept(events: &[Event], place: usize, bytes: &[u8]) -> bool {
    match events.get(place) {
        Some(Event::Message { frame, .. }) => frame.bytes() == bytes,
        _ => false,
    }
}

#[test]
fn messages_of_every_length_are_kept_as_they_came(rt: HostRuntime) {
    assert_told(&rt, told_of_lengths(rt.alloc()), "200 kept");
}

fn told_of_lengths(alloc: Global) -> Result<String, AllocError> {
    let mut room = Room::new(alloc, Config::demonstration(alloc)?)?;
    let _joined = room.join(10, &mut Effects::new(alloc));
    serve_lengths(alloc, &mut room)
}

fn serve_lengths(alloc: Global, room: &mut Room) -> Result<String, AllocError> {
    for units in 0..200u8 {
        if let Some(frame) = Frame::of(alloc, &longer_hello(alloc, units)?)? {
            let _served = room.serve(1, frame, &mut Effects::new(alloc));
        }
    }
    count_kept(alloc, room.journal())
}

/// How many of the messages are kept behind the join, each at its place.
fn count_kept(alloc: Global, events: &[Event]) -> Result<String, AllocError> {
    let mut kept = 0u32;
    for units in 0..200u8 {
        let place = usize::from(units) + 1;
        if is_kept(events, place, &longer_hello(alloc, units)?) {
            kept = kept.saturating_add(1);
        }
    }
    format!(in alloc; "{kept} kept")
}

#[test]
fn a_room_says_whom_an_event_told_and_what_it_changed(rt: HostRuntime) {
    let wanted = "told 1, shown 1 Granted; told 2; told 1 2, shown 1 Released; nothing; nothing; \
        told 1 2, shown 2 Granted; nothing; shown 2 Released";
    assert_told(&rt, done_by_events(rt.alloc()), wanted);
}

/// Whom some events of a room told, and which requests are shown otherwise by them: user 10 asks for floor
/// 1, user 11 watches it, user 10 gives it back, user 11 acknowledges, nobody does, user 10 asks again, a
/// request is revoked that isn't there, and once all others have left the last connection of user 10 leaves.
fn done_by_events(alloc: Global) -> Result<String, AllocError> {
    let mut room = Room::new(alloc, Config::demonstration(alloc)?)?;
    let mut effects = Effects::new(alloc);
    let _first = room.join(10, &mut effects);
    let _second = room.join(11, &mut effects);
    let mut text = String::new(alloc);
    for (n, words) in [
        (1, "20010001000000010002000a04040001"),
        (2, "20070001000000010001000b04040001"),
        (1, "20020001000000010003000a06040001"),
    ] {
        if let Some(frame) = frame(alloc, words)? {
            let _place = room.serve(n, frame, &mut effects);
        }
        add_effects(&mut text, &effects)?;
    }
    let _taken = room.took(2, 1, &mut effects);
    add_effects(&mut text, &effects)?;
    let _refused = room.took(3, 1, &mut effects);
    add_effects(&mut text, &effects)?;
    if let Some(frame) = frame(alloc, "20010001000000010004000a04040001")? {
        let _place = room.serve(1, frame, &mut effects);
    }
    add_effects(&mut text, &effects)?;
    let _refused = room.admin(Act::Revoke(9), &mut effects);
    add_effects(&mut text, &effects)?;
    let _another = room.join(10, &mut effects);
    let _left = room.leave(1, &mut effects);
    let _left = room.leave(2, &mut effects);
    let _left = room.leave(3, &mut effects);
    add_effects(&mut text, &effects)?;
    Ok(text)
}

fn add_effects(text: &mut String, effects: &Effects) -> Result<(), AllocError> {
    if !text.is_empty() {
        text.push_str("; ")?;
    }
    if effects.told.is_empty() && effects.changed.is_empty() {
        return text.push_str("nothing");
    }
    for (at, n) in effects.told.iter().enumerate() {
        let before = if at == 0 { "told" } else { "" };
        write!(text, "{before} {n}")?;
    }
    let space = if effects.told.is_empty() { "" } else { ", " };
    for shared in &effects.changed {
        add_shown(text, space, shared)?;
    }
    Ok(())
}

/// Adds the number and the status of a request that is shown.
fn add_shown(text: &mut String, space: &str, shared: &SharedInfo) -> Result<(), AllocError> {
    let info = shared.as_info();
    let status = match info.overall {
        Some((3, _)) => "Granted",
        Some((6, _)) => "Released",
        _ => "another status",
    };
    write!(text, "{space}shown {} {status}", info.request)
}
