//! Members that outlive their connections, and conferences that outlive the server.

use super::clients::{
    ask_control, connect, control, control_lines, free_port, hear, line, prepare, run_to_end, send,
};
use std::alloc::Global;
use std::fs::File;
use std::net::{Net, Shutdown, TcpListener, TcpStream};
use std::os::unix::net::UnixStream;
use std::rt::Files;
use std::sync::Wait;
use std::test::Fail;
use std::thread::Threads;
use std::time::{Clock, Duration};
use std::{fs, thread};
use test_clients::Server;

/// How often something is looked for at most, 10 milliseconds apart.
const MAX_LOOKS: u32 = 2_000;

const HELLO: &str = "200b0000 00000001 0001 000a";

/// User 10 asks for floor 1 (RFC 8855, section 5.3.1).
const FLOOR_REQUEST: &str = "20010001 00000001 0002 000a 04040001";

/// The front of an answer that says that floor request 1 is granted.
const GRANTED: usize = 12;

/// Starts a server of conference 1, with user 10 at a port, with a control socket at a path and these words. It says
/// `ready` first.
fn start<R>(rt: R, path: &str, port: u16, words: &[&str]) -> Result<Server, Fail>
where
    R: Net<Listener = TcpListener, Stream = TcpStream>
        + Files<File = File>
        + AllocGlobal
        + Clock
        + Threads
        + Wait
        + Copy
        + Drop
        + Send
        + 'static,
    R::Dir: Send,
{
    let alloc = rt.alloc();
    let config = format!(in alloc; "{path}.toml")?;
    let (console, mut start) = prepare(&rt, config.as_str(), &[(1, port)])?;
    start.add_word(alloc, "--control")?;
    start.add_word(alloc, path)?;
    for word in words {
        start.add_word(alloc, word)?;
    }
    let thread = thread::spawn(&rt, move || run_to_end(rt, alloc, start))?;
    let server = Server { console, thread };
    line(&rt, &server)?;
    Ok(server)
}

/// Connects as user 10, says Hello, and hears the answer.
fn come<R>(rt: &R, port: u16) -> Result<TcpStream, Fail>
where
    R: Net<Listener = TcpListener, Stream = TcpStream> + AllocGlobal,
{
    let mut client = connect(rt, port)?;
    send(rt, &mut client, HELLO).ok_or("sent")?;
    hear(rt, &mut client, 48).ok_or("heard")?;
    Ok(client)
}

/// The same, and asks for floor 1.
fn come_and_ask<R>(rt: &R, port: u16) -> Result<TcpStream, Fail>
where
    R: Net<Listener = TcpListener, Stream = TcpStream> + AllocGlobal,
{
    let mut client = come(rt, port)?;
    send(rt, &mut client, FLOOR_REQUEST).ok_or("sent")?;
    hear(rt, &mut client, GRANTED).ok_or("heard")?;
    Ok(client)
}

/// Asks for two lines until they begin so.
fn await_lines<R: Wait + Clock>(
    rt: &R,
    alloc: Global,
    client: &mut UnixStream,
    asked: &str,
    wanted: &str,
) -> Result<(), Fail> {
    for _ in 0..MAX_LOOKS {
        let found = ask_control(alloc, client, asked, 2)?;
        if found.as_str().starts_with(wanted) {
            return Ok(());
        }
        thread::sleep(rt, Duration::from_millis(10));
    }
    Err("it doesn't come to that".into())
}

/// Stops a server, and waits for its end.
fn stop<R: Threads + AllocGlobal>(
    rt: &R,
    admin: &mut UnixStream,
    server: Server,
) -> Result<(), Fail> {
    let stopped = ask_control(rt.alloc(), admin, "stop", 1)?;
    if stopped.as_str().starts_with("ok stopped ") && server.end(rt) == 0 {
        return Ok(());
    }
    Err("it doesn't stop in order".into())
}

#[test]
fn a_lost_member_keeps_its_floor_until_its_user_is_back(rt: HostRuntime) -> Result<(), Fail> {
    let alloc = rt.alloc();
    let (path, port) = ("lasting-grace", free_port(&rt)?);
    let server = start(rt, path, port, &["--grace", "600"])?;
    let mut admin = control(&rt, path)?;
    let mut watcher = control(&rt, path)?;
    let mut client = come_and_ask(&rt, port)?;
    let held = "floor 1 room 1 chair - holders 1:10";
    await_lines(&rt, alloc, &mut admin, "floors 1", held)?;
    let watching = ask_control(alloc, &mut watcher, "watch 1", 1)?;
    assert!(rt;
        watching.as_str().starts_with("ok watching 1 "),
        "{watching}"
    );
    // The stream ends inside a message.
    send(&rt, &mut client, "200b0000 00").ok_or("sent")?;
    client.shutdown(Shutdown::Both)?;
    let told = control_lines(alloc, &mut watcher, 1)?;
    assert_eq!(rt; told.as_str(), "~ 1 away 1 user 10");
    await_lines(
        &rt,
        alloc,
        &mut admin,
        "members 1",
        "member 1 user 10 behind ",
    )?;
    let members = ask_control(alloc, &mut admin, "members 1", 2)?;
    assert!(rt; members.as_str().contains(" away 0,end 1 "), "{members}");
    await_lines(&rt, alloc, &mut admin, "floors 1", held)?;
    let _client = come(&rt, port)?;
    let told = control_lines(alloc, &mut watcher, 5)?;
    assert!(rt; told.as_str().contains("~ 1 back 1 user 10"), "{told}");
    assert!(rt; told.as_str().contains(" joined 2 user 10"), "{told}");
    await_lines(&rt, alloc, &mut admin, "floors 1", held)?;
    await_lines(
        &rt,
        alloc,
        &mut admin,
        "members 1",
        "member 2 user 10 behind ",
    )?;
    stop(&rt, &mut admin, server)?;
    Ok(())
}

#[test]
fn a_member_that_ends_in_order_or_is_shown_out_leaves_at_once(rt: HostRuntime) -> Result<(), Fail> {
    let alloc = rt.alloc();
    let (path, port) = ("lasting-order", free_port(&rt)?);
    let server = start(rt, path, port, &["--grace", "600"])?;
    let mut admin = control(&rt, path)?;
    let held = "floor 1 room 1 chair - holders 1:10";
    let free = "floor 1 room 1 chair -,end 1 ";
    let client = come_and_ask(&rt, port)?;
    await_lines(&rt, alloc, &mut admin, "floors 1", held)?;
    client.shutdown(Shutdown::Both)?;
    await_lines(&rt, alloc, &mut admin, "floors 1", free)?;
    let mut client = come_and_ask(&rt, port)?;
    await_lines(
        &rt,
        alloc,
        &mut admin,
        "floors 1",
        "floor 1 room 1 chair - holders 2:10",
    )?;
    send(&rt, &mut client, "200b0000 00").ok_or("sent")?;
    client.shutdown(Shutdown::Both)?;
    await_lines(
        &rt,
        alloc,
        &mut admin,
        "members 1",
        "member 2 user 10 behind 0 away ",
    )?;
    let shown_out = ask_control(alloc, &mut admin, "leave 1 2", 1)?;
    assert!(rt;
        shown_out.as_str().starts_with("ok left 1 2 at "),
        "{shown_out}"
    );
    await_lines(&rt, alloc, &mut admin, "floors 1", free)?;
    stop(&rt, &mut admin, server)?;
    Ok(())
}

#[test]
fn a_conference_goes_on_from_its_file(rt: HostRuntime) -> Result<(), Fail> {
    let alloc = rt.alloc();
    let (path, port, late) = ("lasting-kept", free_port(&rt)?, free_port(&rt)?);
    let _removed = fs::remove_dir_all(&rt, "lasting-kept-folder");
    fs::create_dir(&rt, "lasting-kept-folder")?;
    let words = ["--keep", "lasting-kept-folder"];
    let server = start(rt, path, port, &words)?;
    let mut admin = control(&rt, path)?;
    let client = come_and_ask(&rt, port)?;
    let held = "floor 1 room 1 chair - holders 1:10";
    await_lines(&rt, alloc, &mut admin, "floors 1", held)?;
    let added = format!(in alloc; "user 1 11 port {late}")?;
    let added = ask_control(alloc, &mut admin, added.as_str(), 1)?;
    assert!(rt; added.as_str().starts_with("ok user 1 11 at "), "{added}");
    let word = ask_control(alloc, &mut admin, "word 1 token 6162", 1)?;
    assert_eq!(rt; word.as_str(), "ok word 1 token");
    stop(&rt, &mut admin, server)?;
    drop(client);
    let server = start(rt, path, port, &words)?;
    let mut admin = control(&rt, path)?;
    await_lines(&rt, alloc, &mut admin, "floors 1", held)?;
    await_lines(
        &rt,
        alloc,
        &mut admin,
        "members 1",
        "member 1 user 10 behind ",
    )?;
    let kept = ask_control(alloc, &mut admin, "words 1", 2)?;
    assert_eq!(rt; kept.as_str(), "word token 6162,end 1");
    let mut other = connect(&rt, late)?;
    send(&rt, &mut other, "200b0000 00000001 0001 000b").ok_or("sent")?;
    hear(&rt, &mut other, 48).ok_or("heard")?;
    let _client = come(&rt, port)?;
    await_lines(&rt, alloc, &mut admin, "floors 1", held)?;
    let closed = ask_control(alloc, &mut admin, "close 1", 1)?;
    assert!(rt; closed.as_str().starts_with("ok closed 1 at "), "{closed}");
    stop(&rt, &mut admin, server)?;
    assert!(rt; fs::metadata(&rt, "lasting-kept-folder/1.journal").is_err());
    // It was closed, and isn't opened again.
    let server = start(rt, path, port, &words)?;
    let mut admin = control(&rt, path)?;
    let listed = ask_control(alloc, &mut admin, "list", 1)?;
    assert_eq!(rt; listed.as_str(), "end 0");
    stop(&rt, &mut admin, server)?;
    fs::remove_dir_all(&rt, "lasting-kept-folder")?;
    Ok(())
}

/// User 10 never came, and floor 1 was asked for on its behalf.
const SAID: &str = "1 say 10 20010001000000010001000a04040001\n";

#[test]
fn what_was_said_for_a_user_goes_on_from_the_file(rt: HostRuntime) -> Result<(), Fail> {
    let alloc = rt.alloc();
    let (path, port) = ("lasting-said", free_port(&rt)?);
    let file = "lasting-said-folder/1.journal";
    let _removed = fs::remove_dir_all(&rt, "lasting-said-folder");
    fs::create_dir(&rt, "lasting-said-folder")?;
    let words = ["--keep", "lasting-said-folder"];
    let server = start(rt, path, port, &words)?;
    let mut admin = control(&rt, path)?;
    stop(&rt, &mut admin, server)?;
    let head = fs::read_to_string(&rt, file)?;
    let kept = format!(in alloc; "{head}{SAID}")?;
    fs::write(&rt, file, kept.as_str())?;
    let server = start(rt, path, port, &words)?;
    let mut admin = control(&rt, path)?;
    let held = "floor 1 room 1 chair - holders 1:10";
    await_lines(&rt, alloc, &mut admin, "floors 1", held)?;
    let members = ask_control(alloc, &mut admin, "members 1", 1)?;
    assert!(rt; members.as_str().starts_with("end 0"), "{members}");
    // Whoever comes as that user gives the floor back.
    let mut client = come(&rt, port)?;
    send(&rt, &mut client, "20020001 00000001 0002 000a 06040001").ok_or("sent")?;
    let free = "floor 1 room 1 chair -,end 1 ";
    await_lines(&rt, alloc, &mut admin, "floors 1", free)?;
    stop(&rt, &mut admin, server)?;
    let text = fs::read_to_string(&rt, file)?;
    let behind = format!(in alloc; "{kept}2 join 10\n3 message 1 ")?;
    assert!(rt; text.as_str().starts_with(behind.as_str()), "{text}");
    fs::remove_dir_all(&rt, "lasting-said-folder")?;
    Ok(())
}

#[test]
fn without_a_control_socket_the_end_of_the_input_keeps_all(rt: HostRuntime) -> Result<(), Fail> {
    let alloc = rt.alloc();
    let port = free_port(&rt)?;
    let _removed = fs::remove_dir_all(&rt, "lasting-end-folder");
    fs::create_dir(&rt, "lasting-end-folder")?;
    for _ in 0..2 {
        let (console, mut start) = prepare(&rt, "lasting-end.toml", &[(1, port)])?;
        start.add_word(alloc, "--keep")?;
        start.add_word(alloc, "lasting-end-folder")?;
        let thread = thread::spawn(&rt, move || run_to_end(rt, alloc, start))?;
        let server = Server { console, thread };
        assert_eq!(rt; line(&rt, &server)?.as_str(), "ready");
        let _client = come(&rt, port)?;
        server.console.shutdown(Shutdown::Write)?;
        assert_eq!(rt; server.end(&rt), 0);
    }
    let text = fs::read_to_string(&rt, "lasting-end-folder/1.journal")?;
    assert!(rt; !text.as_str().contains(" leave 2\n"), "{text}");
    assert!(rt; text.as_str().contains(" join 10\n"), "{text}");
    fs::remove_dir_all(&rt, "lasting-end-folder")?;
    Ok(())
}

#[test]
fn another_epoch_ends_the_server_without_a_word(rt: HostRuntime) -> Result<(), Fail> {
    let (path, port) = ("lasting-epoch", free_port(&rt)?);
    let _removed = fs::remove_dir_all(&rt, "lasting-epoch-folder");
    fs::create_dir(&rt, "lasting-epoch-folder")?;
    let server = start(rt, path, port, &["--keep", "lasting-epoch-folder"])?;
    let mut client = come(&rt, port)?;
    fs::write(&rt, "lasting-epoch-folder/epoch", "7\n")?;
    send(&rt, &mut client, HELLO).ok_or("sent")?;
    assert!(rt; hear(&rt, &mut client, 1).is_none());
    let Server { console: _, thread } = server;
    assert_eq!(rt; thread.join(&rt), 1);
    fs::remove_dir_all(&rt, "lasting-epoch-folder")?;
    Ok(())
}
