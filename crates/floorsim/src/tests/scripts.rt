//! Runs over standard input.

use crate::usage::run_words;
use std::alloc::AllocError;
use std::fmt::Write;
use std::rt::Files;

/// Inputs, with the status, what is printed, and behind a line `!` what standard error is told.
const RUNS: &str = r#"== a room of 0
conference = [{id = 1, floor = [{id = 1, room = 0}]}]
---
attach 1 10
=> 2
error 0 OutOfRange
!
conference 1 (id 1), floor 1 (id 1): room is a number, 1 to 255, not 0
== no TOML
[[conference]]
id = 1
limit 4
---
=> 2
error 0 Syntax
!
line 3, column 7: key with no value, expected `=`
== an empty configuration
---
=> 2
error 0 MissingKey
!
conference is missing; [] stands for none
== a configuration with a fault behind the divider
conference = []
---
conference = 1
=> 2
error 3 UnknownCommand
!
== a bad line
attach 1 10
fly
=> 2
attached 1
error 2 UnknownCommand
!
== a refused line
attach 1 99
=> 0
refused NoUser
!
"#;

/// What a run gives, as it stands in the table.
fn told<R: Files + AllocGlobal>(
    rt: &R,
    word: Option<&str>,
    input: &[u8],
) -> Result<String, AllocError> {
    let alloc = rt.alloc();
    let mut words = Vec::new(alloc);
    if let Some(word) = word {
        words.push(String::from_str(alloc, word)?)?;
    }
    let mut rest = input;
    let mut output: Vec<u8> = Vec::new(alloc);
    let mut errors: Vec<u8> = Vec::new(alloc);
    let status = run_words(rt, words.as_slice(), &mut rest, &mut output, &mut errors);
    let output = std::str::from_utf8(output.as_slice()).unwrap_or("no UTF-8");
    let errors = std::str::from_utf8(errors.as_slice()).unwrap_or("no UTF-8");
    format!(in alloc; "{status}\n{output}!\n{errors}")
}

/// The cases of which something else is told than stands there, with what is told, and how many cases there
/// are.
fn differing<R: Files + AllocGlobal>(rt: &R) -> Result<String, AllocError> {
    let alloc = rt.alloc();
    let mut lines = String::new(alloc);
    let mut count = 0u32;
    for case in RUNS.split("== ") {
        let Some((about, wanted)) = case.split_once("\n=> ") else {
            continue;
        };
        let (_name, input) = about.split_once('\n').unwrap_or((about, ""));
        let found = told(rt, None, input.as_bytes())?;
        if found.as_str() != wanted {
            write!(lines, "{case}, and not {}\n", found.as_str())?;
        }
        count = count.saturating_add(1);
    }
    write!(lines, "{count} cases")?;
    Ok(lines)
}

#[test]
fn a_refused_configuration_is_told_with_its_place(rt: HostRuntime) -> Result<(), AllocError> {
    let told = differing(&rt)?;
    assert_eq!(rt; told.as_str(), "6 cases");
    Ok(())
}

#[test]
fn an_input_that_is_no_text_is_a_fault(rt: HostRuntime) -> Result<(), AllocError> {
    let found = told(&rt, None, &[0xff])?;
    assert_eq!(rt; found.as_str(), "1\n!\nfloorsim: CannotRead\n");
    Ok(())
}

#[test]
fn the_help_has_each_line_and_the_version_is_told(rt: HostRuntime) -> Result<(), AllocError> {
    let help = told(&rt, Some("--help"), b"attach 1 10")?;
    let wanted = "0\nRuns a script
Usage: floorsim < script
  send <connection> <hex ..>
  user <conference> <id> [proxy] [port <port>] [name <text to the end>]
  floor <conference> <id> [room <room>] [chair <user>]
  chair <conference> <floor> [<user>]
  say <conference> <user> <hex ..>
  error <line> <name>";
    for piece in wanted.lines() {
        assert!(rt; help.as_str().contains(piece), "{piece}");
    }
    let version = told(&rt, Some("--version"), b"")?;
    let wanted = "0\nfloorsim 0.2.0 (logic dac8208d650f15bf)\n!\n";
    assert_eq!(rt; version.as_str(), wanted);
    let refused = told(&rt, Some("script"), b"attach 1 10")?;
    assert!(rt; refused.as_str().starts_with("2\n!\nRuns a script"));
    Ok(())
}
