//! The words of the program.

use floor_server::{Program, Words, WordsFault, read_words};
use floor_threads::run;
use std::io::sink;
use std::test::Fail;

#[test]
fn no_words_are_refused(rt: HostRuntime) -> Result<(), Fail> {
    let alloc = rt.alloc();
    let words = vec![in alloc; String::from_str(alloc, "floord")?]?;
    let mut output = Vec::new(alloc);
    let mut errors = Vec::new(alloc);
    let mut input: &[u8] = b"";
    let status = run(
        rt,
        alloc,
        &words,
        &mut input,
        &mut output,
        &mut errors,
        sink(),
    );
    assert_eq!(rt; status, 2);
    assert_eq!(rt; output.len(), 0);
    assert!(rt; !errors.is_empty());
    Ok(())
}

#[test]
fn a_file_that_is_absent_cannot_be_read(rt: HostRuntime) -> Result<(), Fail> {
    let alloc = rt.alloc();
    let words = vec![in alloc;
        String::from_str(alloc, "floord")?,
        String::from_str(alloc, "/nowhere/conferences.toml")?,
    ]?;
    let mut output = Vec::new(alloc);
    let mut errors = Vec::new(alloc);
    let mut input: &[u8] = b"";
    let status = run(
        rt,
        alloc,
        &words,
        &mut input,
        &mut output,
        &mut errors,
        sink(),
    );
    assert_eq!(rt; status, 1);
    let wanted: &[u8] =
        b"/nowhere/conferences.toml: No such file or directory (os error 2)\nfloord: CannotRead\n";
    assert_eq!(rt; errors.as_slice(), wanted);
    Ok(())
}

/// A program that serves by loops, and one that doesn't.
const LOOPING: Program = Program {
    name: "looping",
    about: "Serves by loops.",
    by_loops: true,
    by_json: false,
};

const PLAIN: Program = Program {
    name: "plain",
    about: "Serves.",
    by_loops: false,
    by_json: false,
};

/// Words, and the loops and the longest message that they ask for, or the first line of why they are refused: of a
/// program with loops above the line of a dash, below it of one without.
const LOOPS: &str = "a.toml|none 262152
--loops 1 a.toml|1 262152
--loops=64 --log a.toml|64 262152
a.toml --check --loops 7|7 262152
--longest 12 a.toml|none 12
--loops 2 --longest=262152 a.toml|2 262152
--longest 11 a.toml|error: invalid value '11' for '--longest <bytes>': 11 is not in 12..=262152
--longest 262153 a.toml|error: invalid value '262153' for '--longest <bytes>': 262153 is not in 12..=262152
--loops 0 a.toml|error: invalid value '0' for '--loops <n>': 0 is not in 1..=64
--loops 65 a.toml|error: invalid value '65' for '--loops <n>': 65 is not in 1..=64
--loops 257 a.toml|error: invalid value '257' for '--loops <n>': 257 is not in 1..=64
--loops two a.toml|error: invalid value 'two' for '--loops <n>': invalid digit found in string
a.toml --loops|error: a value is required for '--loops <n>' but none was supplied
-
a.toml|none 262152
--longest 12 a.toml|error: unexpected argument '--longest' found
--loops 1 a.toml|error: unexpected argument '--loops' found";

#[test]
fn loops_are_1_to_64_where_the_program_has_them(rt: HostRuntime) -> Result<(), Fail> {
    let alloc = rt.alloc();
    let mut program = LOOPING;
    for row in LOOPS.lines() {
        let Some((said, wanted)) = row.split_once('|') else {
            program = PLAIN;
            continue;
        };
        let mut words = vec![in alloc; String::from_str(alloc, "program")?]?;
        for word in said.split(' ') {
            words.push(String::from_str(alloc, word)?)?;
        }
        let found = match read_words(alloc, &words, &program) {
            Ok(
                Words {
                    loops: None,
                    longest,
                    ..
                },
            ) => format!(in alloc; "none {longest}")?,
            Ok(
                Words {
                    loops: Some(loops),
                    longest,
                    ..
                },
            ) => format!(in alloc; "{loops} {longest}")?,
            Err(WordsFault::Refused(text)) => {
                String::from_str(alloc, text.lines().next().unwrap_or(""))?
            }
            Err(_) => String::from_str(alloc, "something else")?,
        };
        assert_eq!(rt; found.as_str(), wanted, "{said}");
    }
    Ok(())
}

/// Words of grace and of keeping, and what they ask for: the seconds, whether for all, and of keeping the folder,
/// whether it stops, when the disk is asked and the epoch; or the first line of why they are refused. Below the
/// line of a dash, of a program without loops.
const KEEPING: &str = "a.toml|0 false -
--grace 30 a.toml|30 false -
--grace 600 --grace-for all a.toml|600 true -
--grace 0 a.toml|0 false -
--grace 601 a.toml|error: invalid value '601' for '--grace <seconds>': 601 is not in 0..=600
--grace 30 --grace-for some a.toml|error: invalid value 'some' for '--grace-for <whom>'
--grace-for all a.toml|error: the following required arguments were not provided:
--keep k a.toml|0 false k false Second None
--keep k --sync second a.toml|0 false k false Second None
--keep k --sync turn --keep-or-stop a.toml|0 false k true Turn None
--keep k --sync never --epoch 18446744073709551615 a.toml|0 false k false Never Some(18446744073709551615)
--keep k --grace 5 a.toml --check|5 false k false Second None
--keep k --sync often a.toml|error: invalid value 'often' for '--sync <when>'
--sync turn a.toml|error: the following required arguments were not provided:
--keep-or-stop a.toml|error: the following required arguments were not provided:
--epoch 1 a.toml|error: the following required arguments were not provided:
-
--keep k a.toml|error: unexpected argument '--keep' found
--grace 5 a.toml|error: unexpected argument '--grace' found";

#[test]
fn grace_and_keeping_are_asked_for_together(rt: HostRuntime) -> Result<(), Fail> {
    let alloc = rt.alloc();
    let mut program = LOOPING;
    for row in KEEPING.lines() {
        let Some((said, wanted)) = row.split_once('|') else {
            program = PLAIN;
            continue;
        };
        let mut words = vec![in alloc; String::from_str(alloc, "program")?]?;
        for word in said.split(' ') {
            words.push(String::from_str(alloc, word)?)?;
        }
        let found = match read_words(alloc, &words, &program) {
            Ok(found) => {
                let (grace, for_all) = (found.grace, found.grace_for_all);
                match &found.keep {
                    None => format!(in alloc; "{grace} {for_all} -")?,
                    Some(keeping) => {
                        let folder = keeping.folder.as_str();
                        format!(in alloc;
                            "{grace} {for_all} {folder} {} {:?} {:?}",
                            keeping.or_stop, keeping.syncing, keeping.epoch
                        )?
                    }
                }
            }
            Err(WordsFault::Refused(text)) => {
                String::from_str(alloc, text.lines().next().unwrap_or(""))?
            }
            Err(_) => String::from_str(alloc, "something else")?,
        };
        let is_found = found.as_str().starts_with(wanted);
        assert!(rt; is_found, "{said}: {}", found.as_str());
    }
    Ok(())
}
