//! Connections that come and go, and more of them than a conference takes.

use super::clients::{
    Server, ask, connect, events_of_stop, free_port, hear, line, prepare, run_to_end, send,
};
use floor_serve::FreePass;
use std::io::Read;
use std::net::{Net, Shutdown, TcpListener, TcpStream};
use std::test::Fail;
use std::time::{Clock, Duration};
use std::{fs, thread};

const HELLO: &str = "200b0000 00000001 0001 000a";

/// Connects, and says whether a Hello is answered. The stream is given too.
fn greets<R>(rt: &R, port: u16) -> Result<(TcpStream, bool), Fail>
where
    R: Net<Listener = TcpListener, Stream = TcpStream> + AllocGlobal,
{
    let mut client = connect(rt, port)?;
    let is_heard = match send(rt, &mut client, HELLO) {
        Some(()) => hear(rt, &mut client, 48).is_some(),
        None => false,
    };
    Ok((client, is_heard))
}

/// Ends a connection, and waits until the server has closed it.
fn ends(client: &mut TcpStream) -> bool {
    let mut byte = [0u8; 1];
    match client.shutdown(Shutdown::Write) {
        Ok(()) => matches!(client.read(&mut byte), Ok(0)),
        Err(_) => false,
    }
}

#[test]
fn connections_come_and_go(rt: HostRuntime) -> Result<(), Fail> {
    let alloc = rt.alloc();
    let port = free_port(&rt)?;
    let (console, start) = prepare(&rt, "come_and_go.toml", &[(1, port)])?;
    let thread = thread::spawn(&rt, move || run_to_end(rt, alloc, start, FreePass))?;
    let server = Server { console, thread };
    assert_eq!(rt; line(&rt, &server)?.as_str(), "ready");
    for turn in 0..300 {
        let (mut client, is_heard) = greets(&rt, port)?;
        assert!(rt; is_heard && ends(&mut client), "connection {turn}");
    }
    let stopped = ask(&rt, &server, "stop")?;
    let events = events_of_stop(stopped.as_str(), "ok stopped seats 300 events ").ok_or("stopped")?;
    // Each joins, says Hello and leaves, and its writer acknowledges the answer before that or not.
    assert!(rt; (900..=1200).contains(&events), "{stopped}");
    assert_eq!(rt; server.end(&rt), 0);
    fs::remove_file(&rt, "come_and_go.toml")?;
    Ok(())
}

#[test]
fn after_too_many_others_are_served(rt: HostRuntime) -> Result<(), Fail> {
    let alloc = rt.alloc();
    let port = free_port(&rt)?;
    let (console, start) = prepare(&rt, "too_many.toml", &[(1, port)])?;
    let thread = thread::spawn(&rt, move || run_to_end(rt, alloc, start, FreePass))?;
    let server = Server { console, thread };
    assert_eq!(rt; line(&rt, &server)?.as_str(), "ready");
    let mut clients = Vec::new(alloc);
    let mut served = 0u32;
    for _ in 0..130 {
        let (client, is_heard) = greets(&rt, port)?;
        if is_heard {
            served = served.saturating_add(1);
        }
        clients.push(client)?;
    }
    assert_eq!(rt; served, 64);
    drop(clients);
    let mut is_served = false;
    for _ in 0..1000 {
        if is_served {
            break;
        }
        thread::sleep(&rt, Duration::from_millis(10));
        let (_client, is_heard) = greets(&rt, port)?;
        is_served = is_heard;
    }
    assert!(rt; is_served);
    assert!(rt;
        ask(&rt, &server, "stop")?
            .as_str()
            .starts_with("ok stopped seats 65 ")
    );
    assert_eq!(rt; server.end(&rt), 0);
    fs::remove_file(&rt, "too_many.toml")?;
    Ok(())
}
