//! What is told of a configuration: by a check, and by the lines that open one.

use super::clients::free_port;
use floor_threads::run;
use std::alloc::Global;
use std::fs;
use std::io::sink;
use std::net::{Net, TcpListener, TcpStream};
use std::rt::Files;
use std::sync::Wait;
use std::test::Fail;
use std::thread::Threads;
use std::time::Clock;

/// Configurations, each with the status of a check and what it prints, with a slash between its lines.
/// Another program has port TAKEN, and nobody FREE and OTHER.
const CHECKS: &str = r#"== in order
[[conference]]
id = 1
[[conference.user]]
id = 10
port = FREE
[[conference.user]]
id = 11
=> 0|
== no conference
conference = []
=> 0|
== a port that another program has, one that is free, and that of another conference
[[conference]]
id = 1
[[conference.user]]
id = 10
port = TAKEN
[[conference.user]]
id = 11
port = FREE
[[conference]]
id = 2
[[conference.user]]
id = 10
port = OTHER
=> 1|CannotListen: port TAKEN of user 10 of conference 1: Address already in use (os error 98)/
== keys that say nothing
[[conference]]
id = 1
limits = 4
[[conference.user]]
id = 10
prot = FREE
=> 0|warning: checked.toml: line 3: conference 1: limits is ignored/warning: checked.toml: line 6: conference 1, user 1: prot is ignored/
== a key that says nothing, and a fault
[[conference]]
id = 1
limits = 4
[[conference.floor]]
id = 1
chair = 10
=> 1|warning: checked.toml: line 3: conference 1: limits is ignored/UnknownChair: checked.toml: conference 1 (id 1), floor 1 (id 1): chair 10 is no user of the conference/
== connections of a user, which this server doesn't go by
[[conference]]
id = 1
connections = 64
[[conference]]
id = 2
connections = 8
[[conference]]
id = 3
connections = 1
=> 0|warning: checked.toml: connections is ignored/
== no TOML
[[conference]]
id 1
=> 1|Syntax: checked.toml: line 2, column 4: key with no value, expected `=`/
== nothing

=> 1|MissingKey: checked.toml: conference is missing; [] stands for none/"#;

/// What a check of a file prints, behind its status, as in the table.
fn checked<R>(rt: R, alloc: Global, path: &str) -> Result<String, Fail>
where
    R: Net<Listener = TcpListener, Stream = TcpStream>
        + Files
        + AllocGlobal
        + Clock
        + Threads
        + Wait
        + Copy
        + Drop
        + Send
        + 'static,
{
    let words = vec![in alloc;
        String::from_str(alloc, "floord")?,
        String::from_str(alloc, "--check")?,
        String::from_str(alloc, path)?,
    ]?;
    let mut output = Vec::new(alloc);
    let mut errors = Vec::new(alloc);
    let mut input: &[u8] = b"stop\n";
    let status = run(
        rt,
        alloc,
        &words,
        &mut input,
        &mut output,
        &mut errors,
        sink(),
    );
    let output = String::from_utf8(output)?;
    Ok(format!(in alloc; "{status}|{output}")?.replace(alloc, "\n", "/")?)
}

#[test]
fn a_check_prints_each_fault_and_each_key_that_says_nothing(rt: HostRuntime) -> Result<(), Fail> {
    let alloc = rt.alloc();
    let listener = TcpListener::bind(&rt, "127.0.0.1:0")?;
    let taken = format!(in alloc; "{}", listener.local_addr()?.port())?;
    let free = format!(in alloc; "{}", free_port(&rt)?)?;
    let other = format!(in alloc; "{}", free_port(&rt)?)?;
    for case in CHECKS.split("\n== ") {
        let (about, wanted) = case.split_once("\n=> ").ok_or("a case has an end")?;
        let (_name, text) = about.split_once('\n').ok_or("a case has a name")?;
        let text = text
            .replace(alloc, "TAKEN", taken.as_str())?
            .replace(alloc, "FREE", free.as_str())?
            .replace(alloc, "OTHER", other.as_str())?;
        fs::write(&rt, "checked.toml", text.as_str())?;
        let found = checked(rt, alloc, "checked.toml")?.replace(alloc, taken.as_str(), "TAKEN")?;
        assert_eq!(rt; found.as_str(), wanted, "{case}");
    }
    fs::remove_file(&rt, "checked.toml")?;
    let found = checked(rt, alloc, "absent.toml")?;
    let wanted = "1|CannotRead: absent.toml: No such file or directory (os error 2)/";
    assert_eq!(rt; found.as_str(), wanted);
    Ok(())
}

/// What the lines of a server's administrator are answered, and what standard error is told of them.
const TOLD: &str = "ready
error CannotRead
error OutOfRange
error CannotListen
error CannotListen
ok stopped seats 0 events 0
!
lines_absent.toml: No such file or directory (os error 2)
lines_bad.toml: conference 1 (id 2): limit is a number, 1 to 16, not 17
port TAKEN of user 11 of conference 3: Address already in use (os error 98)
port TAKEN of user 13 of conference 1: Address already in use (os error 98)
";

#[test]
fn of_a_refused_line_standard_error_is_told_why(rt: HostRuntime) -> Result<(), Fail> {
    let alloc = rt.alloc();
    let listener = TcpListener::bind(&rt, "127.0.0.1:0")?;
    let taken = format!(in alloc; "{}", listener.local_addr()?.port())?;
    let taken = taken.as_str();
    fs::write(&rt, "lines.toml", "conference = [{id = 1}]")?;
    fs::write(&rt, "lines_bad.toml", "conference = [{id = 2, limit = 17}]")?;
    let text = format!(in alloc;
        "conference = [{{id = 3, user = [{{id = 11, port = {taken}}}]}}]"
    )?;
    fs::write(&rt, "lines_taken.toml", text.as_str())?;
    let words = vec![in alloc;
        String::from_str(alloc, "floord")?,
        String::from_str(alloc, "lines.toml")?,
    ]?;
    let lines = format!(in alloc;
        "open lines_absent.toml\nopen lines_bad.toml\nopen lines_taken.toml\nuser 1 13 port {taken}\n"
    )?;
    let mut output = Vec::new(alloc);
    let mut errors = Vec::new(alloc);
    let mut input = lines.as_bytes();
    let status = run(
        rt,
        alloc,
        &words,
        &mut input,
        &mut output,
        &mut errors,
        sink(),
    );
    let output = String::from_utf8(output)?;
    let errors = String::from_utf8(errors)?;
    let found = format!(in alloc; "{output}!\n{errors}")?.replace(alloc, taken, "TAKEN")?;
    assert_eq!(rt; found.as_str(), TOLD);
    assert_eq!(rt; status, 0);
    for path in ["lines.toml", "lines_bad.toml", "lines_taken.toml"] {
        fs::remove_file(&rt, path)?;
    }
    Ok(())
}
