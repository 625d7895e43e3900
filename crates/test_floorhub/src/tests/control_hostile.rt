//! Clients of the control socket that mean harm: each has its named answer, and holds nobody up.

use super::clients::{
    ask, ask_control, control, control_lines, free_port, prepare, rest, run_to_end,
    start_with_socket,
};
use std::alloc::Global;
use std::fs;
use std::io::{Read, Write};
use std::net::Shutdown;
use std::os::unix::net::UnixStream;
use std::test::Fail;

/// How many clients there are at most.
const MAX_CLIENTS: usize = 64;

#[test]
fn the_65th_client_is_closed(rt: HostRuntime) -> Result<(), Fail> {
    let alloc = rt.alloc();
    let path = "control-full";
    let server = start_with_socket(rt, "full.toml", path, free_port(&rt)?)?;
    let mut clients = Vec::new(alloc);
    for _ in 0..MAX_CLIENTS {
        let mut client = control(&rt, path)?;
        let found = ask_control(alloc, &mut client, "unwatch 1", 1)?;
        assert_eq!(rt; found.as_str(), "ok unwatched 1");
        clients.push(client)?;
    }
    let mut late = control(&rt, path)?;
    assert_eq!(rt; rest(alloc, &mut late)?.as_str(), "error Full\n");
    assert_eq!(rt;
        ask(&rt, &server, "status 1")?.as_str(),
        "conference 1 members 0 ongoing 0 events 0 open"
    );
    drop(clients);
    assert_eq!(rt;
        ask(&rt, &server, "stop")?.as_str(),
        "ok stopped seats 0 events 0"
    );
    assert_eq!(rt; server.end(&rt), 0);
    fs::remove_file(&rt, "full.toml")?;
    Ok(())
}

/// What is too long closes its client behind its answer, and what isn't a text doesn't.
#[test]
fn what_is_too_long_closes_its_client(rt: HostRuntime) -> Result<(), Fail> {
    let alloc = rt.alloc();
    let path = "control-long";
    let server = start_with_socket(rt, "long.toml", path, free_port(&rt)?)?;
    let mut client = control(&rt, path)?;
    client.write_all(b"@a \xff\n@b unwatch 1\n")?;
    let found = control_lines(alloc, &mut client, 2)?;
    assert_eq!(rt; found.as_str(), "error NotText,@b ok unwatched 1");
    let mut longest = Vec::from_elem(alloc, b'x', 65_536)?;
    longest.push(b'\n')?;
    client.write_all(longest.as_slice())?;
    assert_eq!(rt;
        control_lines(alloc, &mut client, 1)?.as_str(),
        "error UnknownCommand"
    );
    client.write_all(longest.as_slice().get(..65_536).ok_or("so long")?)?;
    client.write_all(b"x")?;
    assert_eq!(rt; rest(alloc, &mut client)?.as_str(), "error TooLong\n");
    let mut client = control(&rt, path)?;
    client.write_all(b"open .\n")?;
    for _ in 0..17 {
        if client.write_all(longest.as_slice()).is_err() {
            break;
        }
    }
    assert_eq!(rt;
        control_lines(alloc, &mut client, 1)?.as_str(),
        "error TooLong"
    );
    assert_eq!(rt;
        ask(&rt, &server, "stop")?.as_str(),
        "ok stopped seats 0 events 0"
    );
    assert_eq!(rt; server.end(&rt), 0);
    fs::remove_file(&rt, "long.toml")?;
    Ok(())
}

/// One client dies inside `open .`, one ends its sending behind whole lines, and one never reads: others are answered.
#[test]
fn who_never_reads_holds_nobody_up(rt: HostRuntime) -> Result<(), Fail> {
    let alloc = rt.alloc();
    let path = "control-unread";
    let server = start_with_socket(rt, "unread.toml", path, free_port(&rt)?)?;
    let mut dying = control(&rt, path)?;
    dying.write_all(b"open .\n[[conference]]\nid = 5\n")?;
    drop(dying);
    let mut half = control(&rt, path)?;
    half.write_all(b"@1 unwatch 1\n@2 unwatch 1\n@3 unwa")?;
    half.shutdown(Shutdown::Write)?;
    let found = rest(alloc, &mut half)?;
    assert_eq!(rt; found.as_str(), "@1 ok unwatched 1\n@2 ok unwatched 1\n");
    let mut silent = control(&rt, path)?;
    silent.set_nonblocking(true)?;
    for _ in 0..2_000 {
        if silent
            .write_all(b"metrics\nlist\njournal 1\nwatch 1\nunwatch 1\n")
            .is_err()
        {
            break;
        }
    }
    let mut client = control(&rt, path)?;
    for _ in 0..100 {
        let found = ask_control(alloc, &mut client, "status 1", 1)?;
        assert_eq!(rt;
            found.as_str(),
            "conference 1 members 0 ongoing 0 events 0 open"
        );
    }
    assert_eq!(rt;
        ask_control(alloc, &mut client, "status 5", 1)?.as_str(),
        "error NoConference"
    );
    assert_eq!(rt;
        ask(&rt, &server, "stop")?.as_str(),
        "ok stopped seats 0 events 0"
    );
    assert_eq!(rt; server.end(&rt), 0);
    fs::remove_file(&rt, "unread.toml")?;
    Ok(())
}

/// How many bytes a word has at most that one line says, behind a key of a letter.
const LONGEST_WORD: usize = 32_763;

/// The words of a conference and their keys have 65,536 bytes at most, and there are 1,024; what is replaced or taken
/// away doesn't count.
#[test]
fn the_words_of_a_conference_have_a_bound(rt: HostRuntime) -> Result<(), Fail> {
    let alloc = rt.alloc();
    let path = "control-words";
    let server = start_with_socket(rt, "words.toml", path, free_port(&rt)?)?;
    let mut client = control(&rt, path)?;
    let longest = "00".repeat(alloc, LONGEST_WORD)?;
    let rows = [
        ("a", longest.as_str(), "ok word 1 a"),
        ("b", longest.as_str(), "ok word 1 b"),
        ("c", "0011223344556677", "error OutOfRange"),
        ("c", "00112233445566", "ok word 1 c"),
        ("d", "-", "ok word 1 d"),
        ("d", "00", "error OutOfRange"),
        ("a", longest.as_str(), "ok word 1 a"),
        ("a", "00", "ok word 1 a"),
        ("b", "-", "ok word 1 b"),
    ];
    for (key, word, wanted) in rows {
        let line = format!(in alloc; "word 1 {key} {word}")?;
        let found = ask_control(alloc, &mut client, line.as_str(), 1)?;
        assert_eq!(rt; found.as_str(), wanted, "{key}");
    }
    let mut lines = String::new(alloc);
    for count in 2..1_024 {
        lines.push_str(format!(in alloc; "word 1 k{count} 00\n")?.as_str())?;
    }
    client.write_all(lines.as_str().as_bytes())?;
    let found = control_lines(alloc, &mut client, 1_022)?;
    let is_kept = found
        .as_str()
        .split(',')
        .all(|answer| answer.starts_with("ok word 1 k"));
    assert!(rt; is_kept, "{found}");
    for (line, wanted) in [
        ("word 1 e 00", "error OutOfRange"),
        ("word 1 k7 11", "ok word 1 k7"),
        ("word 1 k7 -", "ok word 1 k7"),
        ("word 1 e 00", "ok word 1 e"),
    ] {
        let found = ask_control(alloc, &mut client, line, 1)?;
        assert_eq!(rt; found.as_str(), wanted, "{line}");
    }
    assert_eq!(rt;
        ask(&rt, &server, "stop")?.as_str(),
        "ok stopped seats 0 events 0"
    );
    assert_eq!(rt; server.end(&rt), 0);
    fs::remove_file(&rt, "words.toml")?;
    Ok(())
}

/// The server stops once, however often that is asked for at once, and whoever is answered is told the same.
#[test]
fn a_server_stops_once(rt: HostRuntime) -> Result<(), Fail> {
    let alloc = rt.alloc();
    let path = "control-twice";
    let server = start_with_socket(rt, "twice.toml", path, free_port(&rt)?)?;
    let mut other = control(&rt, path)?;
    let mut client = control(&rt, path)?;
    client.write_all(b"@1 stop\n@2 stop\n@3 status 1\n")?;
    // The server may have stopped before this comes.
    let _written = other.write_all(b"stop\n");
    let found = rest(alloc, &mut client)?;
    let mut told = Vec::new(alloc);
    let _outcome = other.read_to_end(&mut told);
    let is_first = found.as_str() == "@1 ok stopped seats 0 events 0\n";
    let is_second = told.as_slice() == b"ok stopped seats 0 events 0\n".as_slice();
    assert!(rt; is_first || is_second, "{found}");
    assert!(rt; is_first || found.as_str() == "", "{found}");
    assert!(rt; is_second || told.is_empty());
    assert_eq!(rt; server.end(&rt), 0);
    fs::remove_file(&rt, "twice.toml")?;
    Ok(())
}

/// Where somebody listens at the path, or another file is there, the server doesn't start.
#[test]
fn a_path_that_is_taken_is_refused(rt: HostRuntime) -> Result<(), Fail> {
    let alloc = rt.alloc();
    let path = "control-taken";
    let server = start_with_socket(rt, "taken.toml", path, free_port(&rt)?)?;
    fs::write(&rt, "control-file", "")?;
    for other in [path, "control-file", "control-none/socket"] {
        let (console, mut start) = prepare(&rt, "other.toml", &[(2, free_port(&rt)?)])?;
        start.add_word(alloc, "--control")?;
        start.add_word(alloc, other)?;
        assert_eq!(rt; run_to_end(rt, alloc, start), 1, "{other}");
        drop(console);
    }
    assert_eq!(rt;
        ask(&rt, &server, "stop")?.as_str(),
        "ok stopped seats 0 events 0"
    );
    assert_eq!(rt; server.end(&rt), 0);
    for path in ["taken.toml", "other.toml", "control-file"] {
        fs::remove_file(&rt, path)?;
    }
    Ok(())
}
