//! A client's buffers: lines at every cut, and bytes in order.

use crate::cases::assert_told;
use floor_control::{Client, MAX_ANSWERS, MAX_LINE, MAX_LIVE, MAX_READ, Next, Opening, Sent};
use std::alloc::{AllocError, Global};
use std::fmt::Write;

/// Lines of which the second isn't UTF-8, the third is empty and the last isn't whole.
const BYTES: &[u8] = b"list\n\xff\xfe!\n\n@a metrics\nfl";

#[test]
fn lines_are_the_same_at_every_cut(rt: HostRuntime) {
    for cut in 0..BYTES.len() {
        let told = lines_of(rt.alloc(), &BYTES[..cut], &BYTES[cut..]);
        assert_told(&rt, told, "list|not 3||@a metrics|ended");
    }
}

fn lines_of(alloc: Global, first: &[u8], second: &[u8]) -> Result<String, AllocError> {
    let mut client = Client::new(alloc);
    let mut text = String::new(alloc);
    client.take_in(first)?;
    push_lines(alloc, &mut client, &mut text)?;
    client.take_in(second)?;
    client.end_input();
    push_lines(alloc, &mut client, &mut text)?;
    text.push_str(if client.is_done() { "" } else { ", not done" })?;
    Ok(text)
}

fn push_lines(alloc: Global, client: &mut Client, text: &mut String) -> Result<(), AllocError> {
    for _ in 0..9 {
        match client.next(alloc)? {
            Next::Line(line) => write!(text, "{}|", line.as_str())?,
            Next::NotText { len } => write!(text, "not {len}|")?,
            Next::TooLong => text.push_str("too long|")?,
            Next::Nothing => return Ok(()),
            Next::Ended => return text.push_str("ended"),
        }
    }
    Ok(())
}

#[test]
fn a_line_has_at_most_64_kib(rt: HostRuntime) {
    assert_told(
        &rt,
        long_line(rt.alloc(), MAX_LINE),
        "a line of 65536, room 4096",
    );
    assert_told(&rt, long_line(rt.alloc(), MAX_LINE + 1), "too long, room 0");
}

/// A line of so many bytes, which come by pieces as long as there is room.
fn long_line(alloc: Global, len: usize) -> Result<String, AllocError> {
    let mut client = Client::new(alloc);
    let mut left = len;
    while left > 0 {
        let count = left.min(client.room());
        if count == 0 {
            return String::from_str(alloc, "no room");
        }
        client.take_in(&[b'x'; MAX_READ][..count])?;
        left -= count;
    }
    client.take_in(b"\n")?;
    let next = client.next(alloc)?;
    let room = client.room();
    match next {
        Next::Line(line) => format!(in alloc; "a line of {}, room {room}", line.as_str().len()),
        Next::TooLong => format!(in alloc; "too long, room {room}"),
        _ => String::from_str(alloc, "another"),
    }
}

#[test]
fn live_text_waits_for_the_end_of_an_answer(rt: HostRuntime) {
    assert_told(
        &rt,
        order(rt.alloc()),
        "! 1\nok\nend 1\n! 2\n! 3\n! 4\nok 2\n! 5\n",
    );
}

fn order(alloc: Global) -> Result<String, AllocError> {
    let mut client = Client::new(alloc);
    client.tell("! 1\n")?;
    answer(&mut client, "ok\n")?;
    client.tell("! 2\n")?;
    client.tell("! 3\n")?;
    answer(&mut client, "end 1\n")?;
    client.end_answer()?;
    client.tell("! 4\n")?;
    answer(&mut client, "ok 2\n")?;
    client.tell("! 5\n")?;
    client.end_answer()?;
    written(alloc, &mut client)
}

fn answer(client: &mut Client, text: &str) -> Result<(), AllocError> {
    if client.is_full() {
        return Ok(());
    }
    client.answer(text)
}

/// All that is to be written, three bytes at a time.
fn written(alloc: Global, client: &mut Client) -> Result<String, AllocError> {
    let mut text = String::new(alloc);
    for _ in 0..99 {
        let bytes = client.writing();
        let count = bytes.len().min(3);
        for byte in &bytes[..count] {
            text.push(char::from(*byte))?;
        }
        client.wrote(count);
    }
    Ok(text)
}

#[test]
fn answers_and_live_text_have_their_bounds(rt: HostRuntime) {
    let wanted = "full at 262144, over at 1048576, dropped, full false over false at the end";
    assert_told(&rt, bounds(rt.alloc()), wanted);
}

fn bounds(alloc: Global) -> Result<String, AllocError> {
    let mut client = Client::new(alloc);
    let piece = piece(alloc)?;
    let mut answers = 0usize;
    while !client.is_full() && answers < MAX_LIVE {
        client.answer(piece.as_str())?;
        answers += piece.len();
    }
    let mut live = 0usize;
    while !client.is_over() && live < MAX_LIVE * 2 {
        client.tell(piece.as_str())?;
        live += piece.len();
    }
    client.tell(piece.as_str())?;
    client.end_answer()?;
    let mut all = 0usize;
    for _ in 0..9_999 {
        let count = client.writing().len();
        client.wrote(count);
        all = all.saturating_add(count);
    }
    let dropped = if all == answers + live {
        "dropped"
    } else {
        "kept"
    };
    let is_full = client.is_full();
    let is_over = client.is_over();
    format!(in alloc;
        "full at {answers}, over at {live}, {dropped}, full {is_full} over {is_over} at the end"
    )
}

/// A text of 1,024 bytes.
fn piece(alloc: Global) -> Result<String, AllocError> {
    let mut piece = String::new(alloc);
    for _ in 0..1_024 {
        piece.push('x')?;
    }
    Ok(piece)
}

#[test]
fn a_configuration_is_sent_line_by_line(rt: HostRuntime) {
    assert_told(&rt, sent(rt.alloc(), &["a = 1", "", "."]), "Whole a = 1||");
    assert_told(
        &rt,
        sent(rt.alloc(), &["a = 1", "\u{0}", ". ", "."]),
        "NotText a = 1|. |",
    );
    assert_told(&rt, sent(rt.alloc(), &["."]), "Whole ");
    assert_told(&rt, sent(rt.alloc(), &["a"]), "More a|");
}

/// What the last of the lines does, and the text then; a line of NUL stands for one that isn't UTF-8.
fn sent(alloc: Global, lines: &[&str]) -> Result<String, AllocError> {
    let mut opening = Opening::new(alloc);
    let mut last = Sent::More;
    for line in lines {
        last = if *line == "\u{0}" {
            opening.add_not_text(1)
        } else {
            opening.add(line)?
        };
    }
    let text = opening.text().replace(alloc, "\n", "|")?;
    format!(in alloc; "{last:?} {}", text.as_str())
}

#[test]
fn a_configuration_has_at_most_1_mib(rt: HostRuntime) {
    assert_told(&rt, filled(rt.alloc(), 1_023), "More");
    assert_told(&rt, filled(rt.alloc(), 1_024), "TooLong");
}

/// What the 1,024th line of so many bytes does.
fn filled(alloc: Global, len: usize) -> Result<String, AllocError> {
    let mut line = String::new(alloc);
    for _ in 0..len {
        line.push('x')?;
    }
    let mut opening = Opening::new(alloc);
    let mut last = Sent::More;
    for _ in 0..1_024 {
        last = opening.add(line.as_str())?;
    }
    format!(in alloc; "{last:?}")
}

#[test]
fn a_configuration_of_lines_that_are_no_text_has_an_end(rt: HostRuntime) {
    let mut opening = Opening::new(rt.alloc());
    assert!(rt; opening.add_not_text(MAX_LINE) == Sent::More);
    assert!(rt; opening.add_not_text(usize::MAX) == Sent::TooLong);
    assert!(rt; MAX_ANSWERS == 262_144);
}
