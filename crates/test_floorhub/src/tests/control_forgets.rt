//! A conference is forgotten at the control socket, and those who watch it were told all of it.

use super::clients::{
    ask, ask_control, await_status, control, control_lines, free_port, greet, rest,
    start_with_socket,
};
use std::io::Write;
use std::net::{Net, Shutdown, TcpListener, TcpStream};
use std::os::unix::net::UnixStream;
use std::test::Fail;
use std::time::{Clock, Duration};
use std::{fs, thread};

/// So many wait for the floor at first. Each time its holder is revoked all that wait move up, and when all are, more
/// was shown than a socket takes and is kept ahead of it, and less than a client is closed for.
const WAITING: u8 = 150;

/// The first of those for whom user 11 asks.
const FIRST: u8 = 20;

/// Has so many ask for the floor of conference 1, and revokes one after another.
fn show_much<R>(rt: &R, client: &mut UnixStream) -> Result<(), Fail>
where
    R: Net<Listener = TcpListener, Stream = TcpStream> + AllocGlobal + Clock,
{
    let alloc = rt.alloc();
    let port = free_port(rt)?;
    let added = format!(in alloc; "user 1 11 proxy port {port}")?;
    ask_control(alloc, client, added.as_str(), 1)?;
    let mut member = greet(rt, port, "200b0000 00000001 0001 000b", 48)?;
    for place in 0..WAITING {
        let user = FIRST.saturating_add(place);
        ask_control(
            alloc,
            client,
            format!(in alloc; "user 1 {user}")?.as_str(),
            1,
        )?;
        // A FloorRequest of floor 1 for that user.
        let header = [0x20, 1, 0, 2, 0, 0, 0, 1, 0, user, 0, 11];
        member.write_all(&header)?;
        member.write_all(&[4, 4, 0, 1, 2, 4, 0, user])?;
    }
    await_status(rt, client, " ongoing 150 ")?;
    drop(member);
    await_status(rt, client, "members 0 ongoing 150 ")?;
    let mut lines = String::new(alloc);
    for request in 1..=WAITING {
        lines.push_str(format!(in alloc; "revoke 1 {request}\n")?.as_str())?;
    }
    client.write_all(lines.as_str().as_bytes())?;
    let answers = control_lines(alloc, client, usize::from(WAITING))?;
    for answer in answers.as_str().split(',') {
        if !answer.starts_with("ok revoked 1 ") {
            return Err(Fail::from("each is revoked"));
        }
    }
    Ok(())
}

/// Whoever asks is answered behind all that it watches, and who takes nothing meanwhile has lost nothing.
#[test]
fn all_is_told_before_a_conference_is_forgotten(rt: HostRuntime) -> Result<(), Fail> {
    let alloc = rt.alloc();
    let path = "control-told";
    let server = start_with_socket(rt, "told.toml", path, free_port(&rt)?)?;
    let mut client = control(&rt, path)?;
    show_much(&rt, &mut client)?;
    let mut silent = control(&rt, path)?;
    ask_control(alloc, &mut silent, "watch 1 from 1", 1)?;
    let closed = ask_control(alloc, &mut client, "close 1", 1)?;
    let last = closed
        .as_str()
        .strip_prefix("ok closed 1 at ")
        .ok_or("it is closed")?;
    let mut asker = control(&rt, path)?;
    asker.write_all(b"watch 1 from 1\nforget 1\n")?;
    asker.shutdown(Shutdown::Write)?;
    let heard = rest(alloc, &mut asker)?;
    let (_, told) = heard.as_str().split_once("\n").ok_or("it watches")?;
    let told = told
        .strip_suffix("ok forgotten 1\n")
        .ok_or("it is forgotten behind that")?;
    assert!(rt;
        500_000 < told.len() && told.len() < 1_000_000,
        "{}",
        told.len()
    );
    let end = format!(in alloc; "! 1 {last} closed\n! 1 {last} .\n")?;
    assert!(rt; told.ends_with(end.as_str()), "{heard}");
    silent.shutdown(Shutdown::Write)?;
    assert!(rt;
        rest(alloc, &mut silent)?.as_str() == told,
        "what a silent client was told"
    );
    let answer = ask_control(alloc, &mut client, "forget 1", 1)?;
    assert_eq!(rt; answer.as_str(), "error Forgotten");
    let stopped = ask(&rt, &server, "stop")?;
    assert!(rt;
        stopped.as_str().starts_with("ok stopped seats 1 "),
        "{stopped}"
    );
    assert_eq!(rt; server.end(&rt), 0);
    fs::remove_file(&rt, "told.toml")?;
    Ok(())
}

/// A conference is forgotten although one who watches it takes nothing, and is behind with another one first.
#[test]
fn what_is_forgotten_comes_first(rt: HostRuntime) -> Result<(), Fail> {
    let alloc = rt.alloc();
    let path = "control-first";
    let server = start_with_socket(rt, "first.toml", path, free_port(&rt)?)?;
    let mut client = control(&rt, path)?;
    show_much(&rt, &mut client)?;
    let opened = "open .\n[[conference]]\nid = 2\n.\nuser 2 7";
    let answers = ask_control(alloc, &mut client, opened, 2)?;
    assert_eq!(rt; answers.as_str(), "ok opened 1,ok user 2 7 at 1");
    let mut silent = control(&rt, path)?;
    silent.write_all(b"watch 1 from 1\nwatch 2 from 1\n")?;
    for _ in 0..10_000 {
        if control_lines(alloc, &mut silent, 1)?.as_str() == "ok watching 2 2" {
            break;
        }
    }
    let answers = ask_control(alloc, &mut client, "close 2\nforget 2", 2)?;
    assert_eq!(rt; answers.as_str(), "ok closed 2 at 2,ok forgotten 2");
    silent.shutdown(Shutdown::Write)?;
    let told = rest(alloc, &mut silent)?;
    let mut second = String::new(alloc);
    for line in told
        .as_str()
        .lines()
        .filter(|line| line.starts_with("! 2 "))
    {
        second.push_str(line)?;
        second.push(',')?;
    }
    assert_eq!(rt;
        second.as_str(),
        "! 2 1 user 7,! 2 1 .,! 2 2 closed,! 2 2 .,"
    );
    let stopped = ask(&rt, &server, "stop")?;
    assert!(rt;
        stopped.as_str().starts_with("ok stopped seats 1 "),
        "{stopped}"
    );
    assert_eq!(rt; server.end(&rt), 0);
    fs::remove_file(&rt, "first.toml")?;
    Ok(())
}

/// Who has caught up hears of the close of a conference that is forgotten in the same breath.
#[test]
fn a_close_is_told_before_a_conference_is_forgotten(rt: HostRuntime) -> Result<(), Fail> {
    let alloc = rt.alloc();
    let path = "control-closes";
    let server = start_with_socket(rt, "closes.toml", path, free_port(&rt)?)?;
    let mut client = control(&rt, path)?;
    let mut watcher = control(&rt, path)?;
    for conference in 2..22 {
        let opened = format!(in alloc; "open .\n[[conference]]\nid = {conference}\n.")?;
        ask_control(alloc, &mut client, opened.as_str(), 1)?;
        let watched = format!(in alloc; "watch {conference}")?;
        ask_control(alloc, &mut watcher, watched.as_str(), 1)?;
        let both = format!(in alloc; "close {conference}\nforget {conference}")?;
        let answers = ask_control(alloc, &mut client, both.as_str(), 2)?;
        let wanted = format!(in alloc; "ok closed {conference} at 1,ok forgotten {conference}")?;
        assert_eq!(rt; answers.as_str(), wanted.as_str());
        let unwatched = format!(in alloc; "unwatch {conference}")?;
        let told = ask_control(alloc, &mut watcher, unwatched.as_str(), 3)?;
        let wanted = format!(in alloc;
            "! {conference} 1 closed,! {conference} 1 .,error Forgotten"
        )?;
        assert_eq!(rt; told.as_str(), wanted.as_str());
    }
    assert_eq!(rt;
        ask(&rt, &server, "stop")?.as_str(),
        "ok stopped seats 0 events 20"
    );
    assert_eq!(rt; server.end(&rt), 0);
    fs::remove_file(&rt, "closes.toml")?;
    Ok(())
}

/// A closed conference whose members' connections have ended is forgotten, and not before.
#[test]
fn who_was_there_has_left_before_a_conference_is_forgotten(rt: HostRuntime) -> Result<(), Fail> {
    let alloc = rt.alloc();
    let path = "control-left";
    let port = free_port(&rt)?;
    let server = start_with_socket(rt, "left.toml", path, port)?;
    let mut client = control(&rt, path)?;
    let member = greet(&rt, port, "200b0000 00000001 0001 000a", 48)?;
    let answer = ask_control(alloc, &mut client, "forget 1", 1)?;
    assert_eq!(rt; answer.as_str(), "error Running");
    let answer = ask_control(alloc, &mut client, "close 1", 1)?;
    assert!(rt; answer.as_str().starts_with("ok closed 1 at "), "{answer}");
    drop(member);
    for _ in 0..2_000 {
        let answer = ask_control(alloc, &mut client, "forget 1", 1)?;
        if answer.as_str() == "ok forgotten 1" {
            break;
        }
        assert_eq!(rt; answer.as_str(), "error Running");
        thread::sleep(&rt, Duration::from_millis(10));
    }
    let answer = ask_control(alloc, &mut client, "status 1", 1)?;
    assert_eq!(rt; answer.as_str(), "error Forgotten");
    assert!(rt;
        ask(&rt, &server, "stop")?
            .as_str()
            .starts_with("ok stopped seats 1 ")
    );
    assert_eq!(rt; server.end(&rt), 0);
    fs::remove_file(&rt, "left.toml")?;
    Ok(())
}
