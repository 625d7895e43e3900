//! Files of kept conferences, and what is said of them.

use crate::journal::run_journal;
use crate::words::saying_of;
use floor_script::RunFault;
use floor_words::words;
use std::alloc::{AllocError, Global};
use std::fmt::Write;

/// The head of each file: conference 1 with users 10, 11 and 12, and floor 1, which has room for one.
const HEAD: &str = "floorhub journal 1
[[conference]]
id = 1
[[conference.user]]
id = 10
[[conference.user]]
id = 11
[[conference.user]]
id = 12
[[conference.floor]]
id = 1
---
";

/// The words behind the file, the journal, and behind `=>` the status, what is printed, and behind a line
/// `!` what standard error is told. The messages are those of the example that passes a floor on; some
/// are said for a user.
const RUNS: &str = r#"== 
1 join 10
2 join 11
3 message 1 20010001000000010002000a04040001
# word title 4120
4 message 2 20010001000000010001000b04040001
5 took 1 1
6 message 1 20020001000000010003000a06040001
=> 0
3 1 20040007000000010002000a1e1c0001240800010a040300220800010a0403001c04000a08044000
4 2 20040007000000010001000b1e1c0002240800020a040201220800010a0402011c04000b08044000
6 1 20040007000000010003000a1e1c0001240800010a040600220800010a0406001c04000a08044000
6 2 20040007000000010000000b1e1c0002240800020a040300220800010a0403001c04000b08044000
!
== 2 --text
1 join 10
2 join 11
3 message 1 20010001000000010002000a04040001
4 message 2 20010001000000010001000b04040001
5 message 1 20020001000000010003000a06040001
end 5
=> 0
4 2 reply 1 FloorRequestStatus request 2 overall Accepted:1 floor 1:Accepted:1 for 11 priority 2
5 2 notice FloorRequestStatus request 2 overall Granted:0 floor 1:Granted:0 for 11 priority 2
!
== --status
1 join 10
2 join 11
3 join 12
4 message 1 20010001000000010002000a04040001
5 message 2 20010001000000010001000b04040001
6 message 3 20010001000000010001000c04040001
7 took 1 1
8 floor 2 3 10
9 message 3 20010001000000010002000c04040002
=> 0
conference 1 members 3 ongoing 4 events 9 open
member 1 user 10 behind 0
member 2 user 11 behind 1
member 3 user 12 behind 2
floor 1 room 1 chair - holders 1:10 waiting 2:11 3:12
floor 2 room 3 chair 10 pending 4:12
!
== --status --at 5
1 join 10
2 join 11
3 join 12
4 message 1 20010001000000010002000a04040001
5 message 2 20010001000000010001000b04040001
6 message 3 20010001000000010001000c04040001
=> 0
conference 1 members 3 ongoing 2 events 5 open
member 1 user 10 behind 1
member 2 user 11 behind 1
member 3 user 12 behind 0
floor 1 room 1 chair - holders 1:10 waiting 2:11
!
== --status --at 0
1 join 10
=> 0
conference 1 members 0 ongoing 0 events 0 open
floor 1 room 1 chair -
!
== --status
1 close
end 1
=> 0
conference 1 members 0 ongoing 0 events 1 ended
!
== --status
1 join 10
2 leav=> 0
conference 1 members 1 ongoing 0 events 1 open
member 1 user 10 behind 0
floor 1 room 1 chair -
!
floorsim: the last line lacks its end and is left out
== --text
1 join 10
2 jion 11
=> 2
error 14 NotAJournal 2
!
== 
1 say 10 20010001000000010001000a04040001
2 join 11
3 message 1 20010001000000010001000b04040001
4 say 10 20020001000000010002000a06040001
=> 0
3 1 20040007000000010001000b1e1c0002240800020a040201220800010a0402011c04000b08044000
4 1 20040007000000010000000b1e1c0002240800020a040300220800010a0403001c04000b08044000
!
== --status
1 say 10 20010001000000010001000a04040001
2 say 11 20010001000000010001000b04040001
3 say 11 20020001000000010002000b06040001
=> 0
conference 1 members 0 ongoing 2 events 3 open
floor 1 room 1 chair - holders 1:10 waiting 2:11
!
== --status
1 say 99 20010001000000010001006304040001
=> 2
error 13 NotAJournal 1
!
== 1
1 join 10
# word title 4120
2 message 1 20010001000000010002000a04040001
3 join 99
4 join 11
=> 2
2 1 20040007000000010002000a1e1c0001240800010a040300220800010a0403001c04000a08044000
error 16 NotAJournal 3
!
"#;

/// What a run gives, as it stands in the table.
fn said(alloc: Global, line: &str, file: &[u8]) -> Result<String, AllocError> {
    let words = words(alloc, line)?;
    let mut output: Vec<u8> = Vec::new(alloc);
    let mut errors: Vec<u8> = Vec::new(alloc);
    let status = match saying_of(words.as_slice()) {
        None => 2,
        Some(saying) => match run_journal(alloc, file, saying, &mut output, &mut errors) {
            Ok(()) => 0,
            Err(fault) => fault.status(),
        },
    };
    let output = std::str::from_utf8(output.as_slice()).unwrap_or("no UTF-8");
    let errors = std::str::from_utf8(errors.as_slice()).unwrap_or("no UTF-8");
    format!(in alloc; "{status}\n{output}!\n{errors}")
}

/// The cases of which something else is said than stands there, with what is said, and how many there are.
fn differing(alloc: Global) -> Result<String, AllocError> {
    let mut found = String::new(alloc);
    let mut count = 0u32;
    for case in RUNS.split("== ") {
        let Some((given, wanted)) = case.split_once("=> ") else {
            continue;
        };
        let (line, journal) = given.split_once('\n').unwrap_or((given, ""));
        let file = format!(in alloc; "{HEAD}{journal}")?;
        let text = said(alloc, line, file.as_bytes())?;
        if text.as_str() != wanted {
            write!(found, "{case}, and not {}\n", text.as_str())?;
        }
        count = count.saturating_add(1);
    }
    write!(found, "{count} cases")?;
    Ok(found)
}

#[test]
fn a_journal_says_who_was_told_what_and_how_it_stood(rt: HostRuntime) -> Result<(), AllocError> {
    let found = differing(rt.alloc())?;
    assert_eq!(rt; found.as_str(), "12 cases");
    Ok(())
}

#[test]
fn a_file_without_a_head_is_told_at_place_0(rt: HostRuntime) -> Result<(), AllocError> {
    let alloc = rt.alloc();
    let cases: [(&[u8], &str); 3] = [
        (b"floorhub journal 2\n", "FirstLine"),
        (b"floorhub journal 1\n[[conference]]\nid = 1\n", "Divider"),
        (b"floorhub journal 1\nconference = []\n---\n", "Conferences"),
    ];
    for (file, name) in cases {
        let text = said(alloc, "--status", file)?;
        let wanted = format!(in alloc; "2\nerror 0 NotAJournal 0\n!\nfloorsim: {name}\n")?;
        assert_eq!(rt; text.as_str(), wanted.as_str());
    }
    Ok(())
}

#[test]
fn a_byte_that_is_no_text_is_told_by_its_line(rt: HostRuntime) -> Result<(), AllocError> {
    let alloc = rt.alloc();
    let mut file = Vec::new(alloc);
    file.extend_from_slice(HEAD.as_bytes())?;
    file.extend_from_slice(b"1 join 10\n# word a")?;
    file.extend_from_slice(&[0xff])?;
    let torn = said(alloc, "", file.as_slice())?;
    assert!(rt; torn.as_str().starts_with("0\n!\n"), "{}", torn.as_str());
    file.extend_from_slice(b" 00\n2 join 11\n")?;
    let bad = said(alloc, "", file.as_slice())?;
    assert_eq!(rt; bad.as_str(), "2\nerror 14 NotAJournal 2\n!\n");
    Ok(())
}
