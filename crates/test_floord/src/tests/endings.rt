//! How many lines are answered, and what ends the server.

use super::clients::{Closed, Server, ask, free_port, line, prepare, run_to_end, write_file};
use floor_serve::FreePass;
use floor_threads::run;
use std::io::sink;
use std::net::{Shutdown, TcpListener};
use std::sync::Arc;
use std::sync::atomic::{AtomicU64, Ordering};
use std::test::Fail;
use std::{fs, thread};

#[test]
fn lines_are_answered_until_the_input_ends(rt: HostRuntime) -> Result<(), Fail> {
    let alloc = rt.alloc();
    let port = free_port(&rt)?;
    let (console, start) = prepare(&rt, "endings.toml", &[(1, port)])?;
    let thread = thread::spawn(&rt, move || run_to_end(rt, alloc, start, FreePass))?;
    let server = Server { console, thread };
    assert_eq!(rt; line(&rt, &server)?.as_str(), "ready");
    for turn in 0..150 {
        let answer = ask(&rt, &server, "status 1")?;
        assert_eq!(rt;
            answer.as_str(),
            "conference 1 members 0 ongoing 0 events 0 open",
            "line {turn}"
        );
    }
    server.console.shutdown(Shutdown::Write)?;
    assert_eq!(rt; line(&rt, &server)?.as_str(), "ok stopped seats 0 events 0");
    assert_eq!(rt; server.end(&rt), 0);
    fs::remove_file(&rt, "endings.toml")?;
    Ok(())
}

/// Words, the status, and what standard error has, with a slash between its lines.
const ENDS: &str = "--help|0|
--version|0|
ends_free.toml|0|
ends_taken.toml|1|port TAKEN of user 10 of conference 1: Address already in use (os error 98)/floord: CannotListen/
ends_bad.toml|1|ends_bad.toml: conference 1: id is missing/floord: MissingKey/
ends_text.toml|1|ends_text.toml: line 1, column 5: invalid value, expected a string, number, boolean, date-time, array or inline table/floord: Syntax/";

#[test]
fn each_end_has_its_status_and_its_last_lines(rt: HostRuntime) -> Result<(), Fail> {
    let alloc = rt.alloc();
    let taken = TcpListener::bind(&rt, "127.0.0.1:0")?;
    let port = taken.local_addr()?.port();
    write_file(&rt, "ends_taken.toml", &[(1, port)])?;
    write_file(&rt, "ends_free.toml", &[(1, free_port(&rt)?)])?;
    fs::write(&rt, "ends_bad.toml", "[[conference]]\n")?;
    fs::write(&rt, "ends_text.toml", "a = \n")?;
    let port = format!(in alloc; "{port}")?;
    for row in ENDS.lines() {
        let (word, end) = row.split_once('|').ok_or("a row has a status")?;
        let words = vec![in alloc;
            String::from_str(alloc, "floord")?,
            String::from_str(alloc, word)?,
        ]?;
        let mut output = Vec::new(alloc);
        let mut told = Vec::new(alloc);
        let mut input: &[u8] = b"";
        let status = run(
            rt,
            alloc,
            &words,
            &mut input,
            &mut output,
            &mut told,
            sink(),
        );
        let told = String::from_utf8(told)?;
        let found = format!(in alloc; "{status}|{told}")?
            .replace(alloc, "\n", "/")?
            .replace(alloc, port.as_str(), "TAKEN")?;
        assert_eq!(rt; found.as_str(), end, "{word}");
    }
    for path in [
        "ends_taken.toml",
        "ends_free.toml",
        "ends_bad.toml",
        "ends_text.toml",
    ] {
        fs::remove_file(&rt, path)?;
    }
    Ok(())
}

#[test]
fn a_server_that_cannot_print_ends_at_once(rt: HostRuntime) -> Result<(), Fail> {
    let alloc = rt.alloc();
    write_file(&rt, "unprinted.toml", &[(1, free_port(&rt)?)])?;
    let words = vec![in alloc;
        String::from_str(alloc, "floord")?,
        String::from_str(alloc, "unprinted.toml")?,
    ]?;
    let asked = Arc::new(alloc, AtomicU64::new(0))?;
    let mut output = Closed {
        asked: Arc::try_clone(&asked)?,
    };
    let mut errors = Vec::new(alloc);
    let mut input: &[u8] = b"status 1\n";
    let status = run(
        rt,
        alloc,
        &words,
        &mut input,
        &mut output,
        &mut errors,
        sink(),
    );
    assert_eq!(rt; status, 1);
    assert_eq!(rt; errors.as_slice(), b"floord: CannotWrite\n".as_slice());
    assert_eq!(rt; asked.load(Ordering::SeqCst), 1, "it wasn't ready");
    fs::remove_file(&rt, "unprinted.toml")?;
    Ok(())
}
