//! Files by hand, cut at each byte, and what they open.

use crate::body::{BodyFault, read_body};
use crate::entry::Entry;
use crate::head::{HeadFault, head_of, read_head};
use crate::opening::{OpenFault, open_kept};
use crate::printing::entry_line;
use std::alloc::{AllocError, Global};
use std::test::Fail;

/// A head of a conference with two users and a floor.
const HEAD: &str = "floorhub journal 1
[[conference]]
id = 7
title = \"a meeting\"

[[conference.floor]]
id = 1

[[conference.user]]
id = 10
name = \"Ann\"

[[conference.user]]
id = 11
---
";

/// User 10 asks for floor 1 and gets it, user 12 is added with a port, and user 10 leaves.
const BODY: &str = "1 join 10
2 join 11
3 message 1 20010001000000070001000a05040001
# word title 4120
4 took 1 1
5 user 12 0 426f62 -
# port 12 7012
6 leave 1
7 close
end 7
";

/// The lines of entries, printed again.
fn printed(alloc: Global, entries: &[Entry]) -> Result<String, AllocError> {
    let mut text = String::new(alloc);
    let mut place = 1usize;
    for entry in entries {
        let line = entry_line(alloc, place, entry)?;
        text.push_str(line.as_str())?;
        if let Entry::Happened(_) = entry {
            place = place.saturating_add(1);
        }
    }
    Ok(text)
}

#[test]
fn a_file_is_read_and_opens_its_conference(rt: HostRuntime) -> Result<(), Fail> {
    let alloc = rt.alloc();
    let text = format!(in alloc; "{HEAD}{BODY}")?;
    let head = read_head(alloc, text.as_str())?;
    assert_eq!(rt; head.bytes, HEAD.len());
    assert_eq!(rt; head.lines, 15);
    assert_eq!(rt; head.config.conference(), 7);
    let rest = text.as_str().get(head.bytes..).ok_or("no body")?;
    let body = read_body(alloc, rest)?;
    assert_eq!(rt; body.stands, BODY.len());
    let again = printed(alloc, &body.entries)?;
    assert_eq!(rt; again.as_str(), BODY);
    let opened = open_kept(alloc, head.config, body.entries)?;
    assert_eq!(rt; opened.notes.len(), 3);
    let status = opened.room.status();
    assert_eq!(rt; status.events, 7);
    assert_eq!(rt; status.phase.name(), "ended");
    Ok(())
}

#[test]
fn a_body_that_is_cut_anywhere_has_the_whole_lines_before(rt: HostRuntime) -> Result<(), Fail> {
    let alloc = rt.alloc();
    for at in 0..=BODY.len() {
        let Some(text) = BODY.get(..at) else {
            continue;
        };
        let whole = match text.rfind('\n') {
            Some(last) => last.saturating_add(1),
            None => 0,
        };
        let body = read_body(alloc, text)?;
        assert_eq!(rt; body.stands, whole, "cut at {at}");
        let again = printed(alloc, &body.entries)?;
        assert_eq!(rt; Some(again.as_str()), text.get(..whole), "cut at {at}");
    }
    Ok(())
}

#[test]
fn the_first_bad_line_is_told_by_its_place_and_its_number(rt: HostRuntime) -> Result<(), Fail> {
    let alloc = rt.alloc();
    let cases = [
        ("a line that is none", "1 join 10\n2 join\n", 2, 2),
        ("a place that is left out", "1 join 10\n3 join 11\n", 2, 2),
        (
            "a note before",
            "1 join 10\n# port 12 7012\n2 jion 11\n",
            2,
            3,
        ),
        (
            "a line behind the end",
            "1 close\nend 1\n# word a 00\n",
            2,
            3,
        ),
        ("a count of the end", "1 close\nend 2\n", 2, 2),
        ("a carriage return", "1 join 10\r\n", 1, 1),
        ("an empty line", "\n1 join 10\n", 1, 1),
    ];
    for (name, text, place, number) in cases {
        match read_body(alloc, text) {
            Err(BodyFault::BadLine(bad)) => {
                assert_eq!(rt; bad.place, place, "{name}");
                assert_eq!(rt; bad.number, number, "{name}");
            }
            _ => assert!(rt; false, "{name}"),
        }
    }
    Ok(())
}

#[test]
fn an_event_that_is_refused_is_told_by_its_place(rt: HostRuntime) -> Result<(), Fail> {
    let alloc = rt.alloc();
    let cases = [
        (
            "no user",
            "1 join 10\n# word a 00\n2 join 99\n3 join 11\n",
            2,
            3,
        ),
        ("no member", "1 leave 1\n", 1, 1),
        ("behind the close", "1 close\n2 join 10\n", 2, 2),
    ];
    for (name, text, place, number) in cases {
        let head = read_head(alloc, HEAD)?;
        let body = read_body(alloc, text)?;
        match open_kept(alloc, head.config, body.entries) {
            Err(OpenFault::NotAJournal(unlawful)) => {
                assert_eq!(rt; unlawful.place, place, "{name}");
                assert_eq!(rt; unlawful.number, number, "{name}");
            }
            _ => assert!(rt; false, "{name}"),
        }
    }
    Ok(())
}

#[test]
fn a_head_says_why_it_is_none(rt: HostRuntime) -> Result<(), Fail> {
    let alloc = rt.alloc();
    let cases = [
        ("nothing", "", "FirstLine"),
        ("another version", "floorhub journal 2\n---\n", "FirstLine"),
        (
            "no divider",
            "floorhub journal 1\n[[conference]]\nid = 1\n---",
            "Divider",
        ),
        (
            "no TOML",
            "floorhub journal 1\nid\n---\n",
            "Refused(Syntax)",
        ),
        (
            "a room of 0",
            "floorhub journal 1\nconference = [{id = 1, floor = [{id = 1, room = 0}]}]\n---\n",
            "Refused(OutOfRange)",
        ),
        (
            "no conference",
            "floorhub journal 1\nconference = []\n---\n",
            "Conferences",
        ),
        (
            "two",
            "floorhub journal 1\nconference = [{id = 1}, {id = 2}]\n---\n",
            "Conferences",
        ),
    ];
    for (name, text, wanted) in cases {
        match read_head(alloc, text) {
            Ok(_) => assert!(rt; false, "{name}"),
            Err(fault) => {
                let found = format!(in alloc; "{fault:?}")?;
                assert_eq!(rt; found.as_str(), wanted, "{name}");
            }
        }
    }
    Ok(())
}

#[test]
fn a_head_is_written_with_each_key_of_its_table(rt: HostRuntime) -> Result<(), Fail> {
    let alloc = rt.alloc();
    let table =
        "id = 7\ntitle = \"a meeting\"\nuser = [{id = 10, name = \"Ann\"}, {id = 11}]\nfloor = [{id = 1}]\n";
    let conference = toml::table_from_str(alloc, table)?;
    let head = head_of(alloc, conference)?;
    assert_eq!(rt; head.text.as_str(), HEAD);
    assert_eq!(rt; head.config.users().len(), 2);
    Ok(())
}

#[test]
fn a_text_with_a_line_that_divides_is_no_head_or_whole(rt: HostRuntime) -> Result<(), Fail> {
    let alloc = rt.alloc();
    let conference = toml::table_from_str(alloc, "id = 7\ntitle = \"a\\n---\\nb\"\n")?;
    match head_of(alloc, conference) {
        Ok(head) => {
            let read = read_head(alloc, head.text.as_str())?;
            assert_eq!(rt; read.bytes, head.text.len());
        }
        Err(fault) => assert!(rt; fault != HeadFault::Memory),
    }
    Ok(())
}
