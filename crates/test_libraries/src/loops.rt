//! Runs of a loop, as lines that act on it and lines that they answer; a socket that takes one byte at a
//! time, a flood, and a reader that is cut.

use crate::cases::{assert_told, differing};
use crate::hexadecimal::{bytes, spelled};
use floor_config::Config;
use floor_loop::{Act, ConnNo, HubRefusal, Loop, News};
use floor_words::{read_u16, read_u32};
use std::alloc::{AllocError, Global};
use std::fmt::Write;

/// A Hello of user 10.
const HELLO: &str = "200b0000 00000001 0001000a";

/// User 10 asks for floor 1.
const REQUEST: &str = "20010001 00000001 0001000a 04040001";

/// It is granted at once.
const GRANTED: &str =
    " 20040007 00000001 0001000a 1e1c0001 24080001 0a040300 22080001 0a040300 1c04000a 08044000";

/// Each call once: a request is answered and written, a stream ends, a socket fails, a conference is closed and
/// forgotten.
/// Lines begin with the time, in milliseconds.
const EACH_CALL: &str = "\
0 status > NoConference
0 forget > NoConference
0 open > ok
0 open > Used
0 forget > Running
0 attach 99 > NoUser
0 attach 10 > ok 1
0 attach 11 > ok 2
0 ready > 1
0 ready > 2
0 ready > none
1 read 1 20010001000000010001000a04040001 > ok false
1 ready > 1
1 ready > none
1 writing 1 > 40
1 wrote 1 16 > ok
1 writing 1 > 24
1 status > 2 members 3 events
2 wrote 1 24 > ok
2 writing 1 > 0
2 status > 2 members 4 events
2 until 1 > none
2 next_due > none
5 ended 1 > ok
5 ready > 1
5 until 1 > 10005
5 next_due > 10005
7 failed 2 > ok
7 ready > 2
7 until 2 > 7
7 next_due > 7
6 due > 2
7 leave 2 > ok
7 leave 2 > NoConnection
7 until 2 > none
7 next_due > 10005
10004 due > none
10005 due > 1
10005 leave 1 > ok
10005 due > none
10005 next_due > none
10006 attach 10 > ok 3
10006 ready > 3
10007 close > ok
10007 ready > 3
10007 until 3 > 20007
10007 read 3 200b0000000000010001000a > Ended
10007 close > Ended
10007 attach 10 > Ended
10007 read 9 200b0000000000010001000a > NoConnection
10007 forget > Running
10008 leave 3 > ok
10008 status > 1 members 8 events
10008 forget > ok
10008 forget > Forgotten
10008 status > Forgotten
10008 open > Used
10008 attach 10 > Ended
10008 close > Ended
10008 ready > none
10008 next_due > none";

/// What is said for user 10, who has no connection: its place in the journal, and how many bytes its answer
/// has. User 11 is told what it changes.
pub(crate) const SAID: &str = "\
0 say 10 20010001000000010001000a04040001 > NoConference
0 open > ok
0 say 99 20 > NoUser
0 say 10 20 > BadMessage
0 say 10 20010001000000010001000a04040001 > 1 40
1 attach 11 > ok 1
1 ready > 1
1 ready > none
1 read 1 20010001000000010001000b04040001 > ok false
1 ready > 1
1 writing 1 > 40
1 wrote 1 40 > ok
1 status > 1 members 4 events
2 say 10 20020001000000010002000a06040001 > 5 40
2 ready > 1
2 ready > none
2 writing 1 > 40
2 say 10 200b0000000000010003000a > 6 16
2 ready > none
2 status > 1 members 6 events";

/// What is told is handed out once its event is kept: `keep` says how many are, never fewer than before and never more
/// than there are.
const KEPT: &str = "\
0 begin_keeping > NoConference
0 keep 1 > NoConference
0 end_keeping > NoConference
0 is_kept > NoConference
0 open > ok
0 attach 10 > ok 1
0 ready > 1
0 is_kept > true
0 begin_keeping > ok
1 read 1 20010001000000010001000a04040001 > ok false
1 is_kept > false
1 ready > 1
1 ready > none
1 writing 1 > 0
1 keep 1 > ok
1 is_kept > false
1 ready > none
1 keep 2 > ok
1 is_kept > true
1 ready > 1
1 writing 1 > 40
1 wrote 1 40 > ok
1 is_kept > true
1 keep 1 > ok
1 is_kept > true
2 read 1 200b0000000000010002000a > ok false
2 is_kept > false
2 keep 9 > ok
2 is_kept > true
2 read 1 200b0000000000010003000a > ok false
2 is_kept > false
2 end_keeping > ok
2 is_kept > true
2 read 1 200b0000000000010004000a > ok false
2 is_kept > true";

/// What the events of a watched conference change is gathered until it is cleared, one for each, over all messages of a
/// call: its place, and the requests that it changed with their statuses.
const WATCHED: &str = "\
0 watch > NoConference
0 open > ok
0 attach 10 > ok 1
0 news > none
0 is_watched > false
0 watch > ok
0 is_watched > true
1 read 1 20010001000000010001000a0404000120020001000000010002000a06040001 > ok false
1 news > 2 1/3; 3 1/6
1 read 1 200b0000000000010003000a > ok false
1 news > 2 1/3; 3 1/6; 4
1 clear > ok
1 news > none
1 ready > 1
1 wrote 1 200 > ok
1 news > 5
2 attach 11 > ok 2
2 leave 2 > ok
2 news > 5; 6; 7
3 unwatch > ok
3 is_watched > false
3 read 1 20010001000000010004000a04040001 > ok false
3 news > 5; 6; 7
4 watch > ok
4 close > ok
4 news > 5; 6; 7; 9";

/// What a call answers that gives nothing.
pub(crate) fn push_done(text: &mut String, done: Result<(), HubRefusal>) -> Result<(), AllocError> {
    match done {
        Ok(()) => text.push_str("ok"),
        Err(refusal) => text.push_str(refusal.name()),
    }
}

/// A number, or that there is none.
pub(crate) fn push_number(text: &mut String, number: Option<u64>) -> Result<(), AllocError> {
    match number {
        None => text.push_str("none"),
        Some(number) => write!(text, "{number}"),
    }
}

fn open(alloc: Global, served: &mut Loop, text: &mut String) -> Result<(), AllocError> {
    let config = Config::demonstration(alloc)?;
    push_done(text, served.open(alloc, config))
}

fn attach(
    alloc: Global,
    served: &mut Loop,
    user: u16,
    now: u64,
    text: &mut String,
) -> Result<(), AllocError> {
    match served.attach(alloc, 1, user, now) {
        Ok(number) => write!(text, "ok {number}"),
        Err(refusal) => text.push_str(refusal.name()),
    }
}

fn say(
    alloc: Global,
    served: &mut Loop,
    user: u16,
    message: &[u8],
    now: u64,
    text: &mut String,
) -> Result<(), AllocError> {
    match served.say(alloc, 1, user, message, now) {
        Ok(said) => {
            let len = match said.reply {
                Some(reply) => reply.len(),
                None => 0,
            };
            write!(text, "{} {len}", said.place)
        }
        Err(refusal) => text.push_str(refusal.name()),
    }
}

fn status(served: &Loop, text: &mut String) -> Result<(), AllocError> {
    match served.status(1) {
        Ok(status) => write!(text, "{} members {} events", status.members, status.events),
        Err(refusal) => text.push_str(refusal.name()),
    }
}

fn read(
    served: &mut Loop,
    number: ConnNo,
    piece: &[u8],
    now: u64,
    text: &mut String,
) -> Result<(), AllocError> {
    match served.read(number, piece, 64, now) {
        Ok(more) => write!(text, "ok {more}"),
        Err(refusal) => text.push_str(refusal.name()),
    }
}

/// So many bytes were written, or as many as there are.
fn wrote(served: &mut Loop, number: ConnNo, count: usize, now: u64) {
    let count = count.min(served.writing(number).len());
    served.wrote(number, count, now);
}

/// What a line of a script answers: the time, what is called, and on whom.
pub(crate) fn answer(alloc: Global, served: &mut Loop, line: &str) -> Result<String, AllocError> {
    let (time, call) = line.split_once(' ').unwrap_or((line, ""));
    let (word, rest) = call.split_once(' ').unwrap_or((call, ""));
    let now = u64::from(read_u32(time).unwrap_or(0));
    let mut text = String::new(alloc);
    match word {
        "open" => open(alloc, served, &mut text)?,
        "attach" => attach(alloc, served, read_u16(rest).unwrap_or(0), now, &mut text)?,
        "status" => status(served, &mut text)?,
        "close" => push_done(&mut text, served.admin(1, Act::Close, now))?,
        "forget" => push_done(&mut text, served.forget(1))?,
        "ready" => push_number(&mut text, served.ready())?,
        "due" => push_number(&mut text, served.due(now))?,
        "next_due" => push_number(&mut text, served.next_due())?,
        "is_kept" => is_kept(served, &mut text)?,
        "watch" => push_done(&mut text, served.watch(1))?,
        "is_watched" => write!(text, "{}", served.is_watched(1))?,
        "news" => push_news(&mut text, served.news())?,
        "unwatch" => {
            served.unwatch(1);
            text.push_str("ok")?;
        }
        "clear" => {
            served.clear_news();
            text.push_str("ok")?;
        }
        "begin_keeping" => push_done(&mut text, served.begin_keeping(1))?,
        "keep" => push_done(&mut text, served.keep(1, read_u32(rest).unwrap_or(0)))?,
        "end_keeping" => push_done(&mut text, served.end_keeping(1))?,
        _ => on(alloc, served, word, rest, now, &mut text)?,
    }
    Ok(text)
}

fn is_kept(served: &Loop, text: &mut String) -> Result<(), AllocError> {
    match served.is_kept(1) {
        Ok(kept) => write!(text, "{kept}"),
        Err(refusal) => text.push_str(refusal.name()),
    }
}

/// What was gathered.
fn push_news(text: &mut String, news: &[News]) -> Result<(), AllocError> {
    if news.is_empty() {
        return text.push_str("none");
    }
    for (place, one) in news.iter().enumerate() {
        if place != 0 {
            text.push_str("; ")?;
        }
        push_one(text, one)?;
    }
    Ok(())
}

/// What an event changed: its place, the requests with their statuses, and whom it cut.
fn push_one(text: &mut String, news: &News) -> Result<(), AllocError> {
    write!(text, "{}", news.place)?;
    for info in news.changed.as_slice() {
        let status = match info.as_info().overall {
            Some(overall) => overall.0,
            None => 0,
        };
        write!(text, " {}/{status}", info.as_info().request)?;
    }
    for n in news.cut.as_slice() {
        write!(text, " cut {n}")?;
    }
    Ok(())
}

/// What a line answers that is for one connection.
fn on(
    alloc: Global,
    served: &mut Loop,
    word: &str,
    rest: &str,
    now: u64,
    text: &mut String,
) -> Result<(), AllocError> {
    let (first, last) = rest.split_once(' ').unwrap_or((rest, ""));
    let number = u64::from(read_u32(first).unwrap_or(0));
    match word {
        "read" => read(served, number, &bytes(alloc, last)?, now, text),
        "say" => say(
            alloc,
            served,
            read_u16(first).unwrap_or(0),
            &bytes(alloc, last)?,
            now,
            text,
        ),
        "writing" => write!(text, "{}", served.writing(number).len()),
        "wrote" => {
            wrote(
                served,
                number,
                usize::from(read_u16(last).unwrap_or(0)),
                now,
            );
            text.push_str("ok")
        }
        "until" => push_number(text, served.until(number)),
        "ended" => {
            served.ended(number, now);
            text.push_str("ok")
        }
        "failed" => {
            served.failed(number, now);
            text.push_str("ok")
        }
        _ => push_done(text, served.leave(number, now)),
    }
}

/// Runs a script, and tells the lines that answer otherwise than they say.
fn run(alloc: Global, script: &str) -> Result<String, AllocError> {
    let mut served = Loop::new(alloc);
    differing(alloc, script, "\n", " > ", |alloc, line| {
        answer(alloc, &mut served, line)
    })
}

/// A loop whose conference users 10 and 11 have joined, each of them given once.
fn joined(alloc: Global) -> Result<Loop, AllocError> {
    let mut served = Loop::new(alloc);
    let config = Config::demonstration(alloc)?;
    let _opened = served.open(alloc, config);
    let _first = served.attach(alloc, 1, 10, 0);
    let _second = served.attach(alloc, 1, 11, 0);
    let _given = [served.ready(), served.ready(), served.ready()];
    Ok(served)
}

/// How many events there were.
fn events(served: &Loop) -> u32 {
    match served.status(1) {
        Ok(status) => status.events,
        Err(_) => 0,
    }
}

/// All that is to be written to connection 1, a byte at a time, and whether it was acknowledged before
/// the last.
fn byte_by_byte(alloc: Global) -> Result<String, AllocError> {
    let mut served = joined(alloc)?;
    let _read = served.read(1, &bytes(alloc, REQUEST)?, 64, 1);
    let _given = served.ready();
    let before = events(&served);
    let mut taken = Vec::new(alloc);
    let mut early = 0u32;
    for _ in 0..1_000 {
        let Some(byte) = served.writing(1).first().copied() else {
            break;
        };
        if events(&served) != before {
            early = early.saturating_add(1);
        }
        taken.push(byte)?;
        served.wrote(1, 1, 2);
    }
    let mut text = spelled(alloc, &taken)?;
    let acknowledged = events(&served).saturating_sub(before);
    write!(text, ", {early} early, {acknowledged} acknowledged")?;
    Ok(text)
}

/// A thousand Hellos at once: how many turns they take, and how many events there were.
fn flood(alloc: Global) -> Result<String, AllocError> {
    let mut served = joined(alloc)?;
    let mut flood = Vec::new(alloc);
    let hello = bytes(alloc, HELLO)?;
    for _ in 0..1_000 {
        flood.extend_from_slice(&hello)?;
    }
    let mut more = served.read(1, &flood, 64, 1);
    let mut turns = 1u32;
    while more == Ok(true) && turns < 1_000 {
        turns = turns.saturating_add(1);
        more = served.read(1, &[], 64, 1);
    }
    let mut text = String::new(alloc);
    write!(text, "{turns} turns, {} events", events(&served))?;
    Ok(text)
}

/// A reader that takes nothing: by when it is to be shut down once it is cut, and when that is due.
fn cut(alloc: Global) -> Result<String, AllocError> {
    let mut served = joined(alloc)?;
    let hello = bytes(alloc, HELLO)?;
    let mut asked = 0u32;
    while served.until(1) == None && asked < 3_000 {
        let _read = served.read(1, &hello, 64, 5);
        asked = asked.saturating_add(1);
    }
    let mut text = String::new(alloc);
    write!(text, "{asked} Hellos, by ")?;
    push_number(&mut text, served.until(1))?;
    text.push_str(", ready ")?;
    push_number(&mut text, served.ready())?;
    text.push_str(", due ")?;
    push_number(&mut text, served.due(10_004))?;
    text.push_str(" and ")?;
    push_number(&mut text, served.due(10_005))?;
    Ok(text)
}

/// A reader that takes nothing, in a conference that is watched: what was gathered by the Hello by which it is cut.
fn cut_by(alloc: Global) -> Result<String, AllocError> {
    let mut served = joined(alloc)?;
    let hello = bytes(alloc, HELLO)?;
    let _watched = served.watch(1);
    for _ in 0..1_024 {
        let _read = served.read(1, &hello, 64, 5);
    }
    let mut text = String::new(alloc);
    write!(
        text,
        "{} before; ",
        served
            .news()
            .iter()
            .filter(|news| news.cut.is_empty())
            .count()
    )?;
    served.clear_news();
    let _read = served.read(1, &hello, 64, 5);
    push_news(&mut text, served.news())?;
    if served.has_missed() {
        text.push_str(", and more")?;
    }
    Ok(text)
}

#[test]
fn each_call_answers_as_its_line_says(rt: HostRuntime) {
    assert_told(&rt, run(rt.alloc(), EACH_CALL), "61 cases");
}

#[test]
fn what_is_said_for_a_user_is_answered_to_who_says_it(rt: HostRuntime) {
    assert_told(&rt, run(rt.alloc(), SAID), "20 cases");
}

#[test]
fn what_is_told_is_handed_out_once_it_is_kept(rt: HostRuntime) {
    assert_told(&rt, run(rt.alloc(), KEPT), "35 cases");
}

#[test]
fn what_the_events_of_a_watched_conference_change_is_gathered(rt: HostRuntime) {
    assert_told(&rt, run(rt.alloc(), WATCHED), "26 cases");
    assert_told(&rt, cut_by(rt.alloc()), "1024 before; 1027 cut 1");
}

#[test]
fn a_socket_that_takes_one_byte_is_sent_everything_once(rt: HostRuntime) {
    let mut wanted = String::new(rt.alloc());
    let made = write!(wanted, "{GRANTED}, 0 early, 1 acknowledged");
    assert!(rt; made.is_ok());
    assert_told(&rt, byte_by_byte(rt.alloc()), &wanted);
}

#[test]
fn a_flood_is_served_in_turns(rt: HostRuntime) {
    assert_told(&rt, flood(rt.alloc()), "16 turns, 1002 events");
}

#[test]
fn a_cut_reader_has_ten_seconds(rt: HostRuntime) {
    assert_told(
        &rt,
        cut(rt.alloc()),
        "1025 Hellos, by 10005, ready 1, due none and 1",
    );
}
