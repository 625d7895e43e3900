//! Files by hand: what they say, and what is told of those that say nothing.

use crate::checking::check_bytes;
use crate::found::{Finish, FoundFault, NotAJournal, found_of};
use floor_kept::{HeadFault, heads_of, read_file};
use std::alloc::{AllocError, Global};
use std::test::Fail;

/// A head of 15 lines: conference 7 with users 10 and 11, and floor 1.
pub const HEAD: &str = "floorhub journal 1
[[conference]]
id = 7
title = \"a meeting\"

[[conference.floor]]
id = 1

[[conference.user]]
id = 10
name = \"Ann\"

[[conference.user]]
id = 11
---
";

/// User 10 joins, user 12 is added with a port and later moved to another, and user 10 leaves.
const BODY: &str = "1 join 10
# word title 4120
2 user 12 0 426f62 -
# port 12 7012
# port 12 7013
3 leave 1
";

/// A file of the head and this.
fn file_of(alloc: Global, body: &str) -> Result<String, AllocError> {
    format!(in alloc; "{HEAD}{body}")
}

#[test]
fn a_file_says_its_events_and_what_stands_beside_them(rt: HostRuntime) -> Result<(), Fail> {
    let alloc = rt.alloc();
    let text = file_of(alloc, BODY)?;
    let found = found_of(alloc, 7, text.as_bytes())?;
    assert_eq!(rt; found.config.conference(), 7);
    assert_eq!(rt; found.events.len(), 3);
    let standing = found.standing;
    assert_eq!(rt; standing.events, 3);
    assert_eq!(rt; standing.stands, text.len());
    assert_eq!(rt; standing.torn, 0);
    assert_eq!(rt; standing.finish, Finish::GoesOn);
    assert_eq!(rt; standing.notes.len(), 3);
    assert_eq!(rt; standing.port_of(12), Some(7013));
    assert_eq!(rt; standing.port_of(10), None);
    let behind = [1usize, 2, 2];
    for (note, wanted) in standing.notes.iter().zip(behind) {
        assert_eq!(rt; note.behind, wanted);
    }
    // Place 3 stands in the 21st line: behind the head's 15, two events and three notes.
    let at = standing.refused_at(3);
    assert_eq!(rt;
        at,
        NotAJournal {
            conference: 7,
            place: 3,
            line: 21
        }
    );
    assert_eq!(rt; standing.refused_at(2).line, 18);
    assert_eq!(rt; standing.refused_at(1).line, 16);
    Ok(())
}

#[test]
fn a_file_says_how_it_ends(rt: HostRuntime) -> Result<(), Fail> {
    let alloc = rt.alloc();
    let cases = [
        ("nothing", "", Finish::GoesOn),
        ("an event", "1 join 10\n", Finish::GoesOn),
        ("a close", "1 join 10\n2 close\n", Finish::Closed),
        (
            "a word behind a close",
            "1 close\n# word a 00\n",
            Finish::Closed,
        ),
        ("an end", "1 close\nend 1\n", Finish::Ended),
        (
            "an end without a close",
            "1 join 10\nend 1\n",
            Finish::Ended,
        ),
        ("a torn end", "1 close\nend 1", Finish::Closed),
        ("a torn close", "1 join 10\n2 close", Finish::GoesOn),
    ];
    for (name, body, wanted) in cases {
        let text = file_of(alloc, body)?;
        let found = found_of(alloc, 7, text.as_bytes())?;
        assert_eq!(rt; found.standing.finish, wanted, "{name}");
    }
    Ok(())
}

#[test]
fn what_is_no_file_is_told_by_place_and_line(rt: HostRuntime) -> Result<(), Fail> {
    let alloc = rt.alloc();
    let cases = [
        ("a line that is none", "1 join 10\n2 jion 11\n", 2, 17),
        ("a place that is left out", "1 join 10\n3 join 11\n", 2, 17),
        (
            "a note before",
            "1 join 10\n# port 12 7012\n2 jion 11\n",
            2,
            18,
        ),
        (
            "a line behind the end",
            "1 close\nend 1\n2 join 10\n",
            2,
            18,
        ),
    ];
    for (name, body, place, line) in cases {
        let text = file_of(alloc, body)?;
        let wanted = NotAJournal {
            conference: 7,
            place,
            line,
        };
        match found_of(alloc, 7, text.as_bytes()) {
            Err(FoundFault::NotAJournal(at)) => assert_eq!(rt; at, wanted, "{name}"),
            _ => assert!(rt; false, "{name}"),
        }
    }
    let head = NotAJournal {
        conference: 8,
        place: 0,
        line: 0,
    };
    let text = file_of(alloc, "")?;
    match found_of(alloc, 8, text.as_bytes()) {
        Err(FoundFault::NotAJournal(at)) => assert_eq!(rt; at, head),
        _ => assert!(rt; false, "another conference's"),
    }
    match found_of(alloc, 8, b"floorhub journal 1\n---") {
        Err(FoundFault::NotAJournal(at)) => assert_eq!(rt; at, head),
        _ => assert!(rt; false, "no head"),
    }
    Ok(())
}

#[test]
fn bytes_that_are_no_text_are_read_up_to_them(rt: HostRuntime) -> Result<(), Fail> {
    let alloc = rt.alloc();
    let text = file_of(alloc, "1 join 10\n2 le")?;
    let mut bytes = Vec::new(alloc);
    bytes.extend_from_slice(text.as_bytes())?;
    bytes.push(0xff)?;
    let file = read_file(alloc, &bytes)?;
    assert_eq!(rt; file.stands, HEAD.len().saturating_add(10));
    assert_eq!(rt; file.entries.len(), 1);
    bytes.extend_from_slice(b"x\n")?;
    match found_of(alloc, 7, &bytes) {
        Err(FoundFault::NotAJournal(at)) => {
            assert_eq!(rt; at.place, 2);
            assert_eq!(rt; at.line, 17);
        }
        _ => assert!(rt; false),
    }
    Ok(())
}

#[test]
fn a_check_runs_the_events(rt: HostRuntime) -> Result<(), Fail> {
    let alloc = rt.alloc();
    let text = file_of(alloc, BODY)?;
    assert!(rt; check_bytes(alloc, 7, text.as_bytes()).is_ok());
    let text = file_of(alloc, "1 join 10\n# word a 00\n2 join 99\n")?;
    match check_bytes(alloc, 7, text.as_bytes()) {
        Err(FoundFault::NotAJournal(at)) => {
            assert_eq!(rt; at.place, 2);
            assert_eq!(rt; at.line, 18);
        }
        _ => assert!(rt; false),
    }
    Ok(())
}

#[test]
fn each_conference_of_a_configuration_has_a_head(rt: HostRuntime) -> Result<(), Fail> {
    let alloc = rt.alloc();
    let text =
        "note = 1\n[[conference]]\nid = 7\ntitle = \"a meeting\"\nfloor = [{id = 1}]\nuser = [{id = 10, name = \"Ann\"}, {id = 11}]\n\n[[conference]]\nid = 8\n[conference.of.others]\nx = 2026-11-28\n";
    let heads = heads_of(alloc, text)?;
    assert_eq!(rt; heads.len(), 2);
    let first = heads.first().ok_or("a first")?;
    assert_eq!(rt; first.text.as_str(), HEAD);
    for head in heads.iter() {
        let file = read_file(alloc, head.text.as_bytes())?;
        assert_eq!(rt; file.stands, head.text.len());
        assert!(rt; file.entries.is_empty());
        assert_eq!(rt; file.config.conference(), head.config.conference());
        assert_eq!(rt; file.config.users().len(), head.config.users().len());
    }
    assert!(rt; heads_of(alloc, "conference = []")?.is_empty());
    for (text, wanted) in [
        ("", "Refused(MissingKey)"),
        ("conference", "Refused(Syntax)"),
        ("conference = 1", "Refused(WrongType)"),
        (
            "conference = [{id = 1}, {id = 1}]",
            "Refused(DoubleConference)",
        ),
    ] {
        match heads_of(alloc, text) {
            Ok(_) => assert!(rt; false, "{text}"),
            Err(fault) => {
                assert!(rt; fault != HeadFault::Memory);
                let found = format!(in alloc; "{fault:?}")?;
                assert_eq!(rt; found.as_str(), wanted, "{text}");
            }
        }
    }
    Ok(())
}
