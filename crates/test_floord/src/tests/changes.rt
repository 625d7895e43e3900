//! A conference that is changed while it runs: whoever is added connects at once, and the port of a user
//! who is refused is given back.

use super::clients::{
    Server, ask, connect, free_port, hear, joined, line, prepare, run_to_end, send,
};
use floor_serve::FreePass;
use std::net::{TcpListener, TcpStream};
use std::test::Fail;
use std::{fs, thread};

/// User 13 asks for floor 5, and what the connection is sent of it: that the request is Pending, and,
/// once the floor has lost its chair, that it is Granted.
const ASKED: &str = "20010001 00000001 0001 000d 04040005";

const PENDING: &str = "20040007 00000001 0001 000d \
    1e1c0001 24080001 0a040100 22080005 0a040100 1c04000d 08044000";

const GRANTED: &str = "20040007 00000001 0000 000d \
    1e1c0001 24080001 0a040300 22080005 0a040300 1c04000d 08044000";

/// A Hello of user 13, and the number of bytes of its answer.
const HELLO: (&str, usize) = ("200b0000 00000001 0002 000d", 48);

/// Whether the client hears these bytes next.
fn hears(rt: &HostRuntime, client: &mut TcpStream, wanted: &str) -> Result<bool, Fail> {
    let wanted = joined(rt, wanted).ok_or("bytes")?;
    let heard = hear(rt, client, wanted.len() / 2).ok_or("heard")?;
    Ok(heard.as_str() == wanted.as_str())
}

/// Whether somebody listens on a port.
fn is_listened_on(rt: &HostRuntime, port: u16) -> Result<bool, Fail> {
    let address = format!(in rt.alloc(); "127.0.0.1:{port}")?;
    Ok(TcpStream::connect(rt, address.as_str()).is_ok())
}

/// Hands the server lines, each with the port behind it where there is one. Gives those that are answered
/// otherwise than wanted, with their answers.
fn differing(
    rt: &HostRuntime,
    server: &Server,
    rows: &[(&str, Option<u16>, &str)],
) -> Result<String, Fail> {
    let mut told = String::new(rt.alloc());
    for (asked, port, wanted) in rows {
        let asked = match port {
            None => String::from_str(rt.alloc(), asked)?,
            Some(port) => format!(in rt.alloc(); "{asked} port {port}")?,
        };
        let found = ask(rt, server, asked.as_str())?;
        if found.as_str() != *wanted {
            told.push_str(asked.as_str())?;
            told.push('=')?;
            told.push_str(found.as_str())?;
            told.push(';')?;
        }
    }
    Ok(told)
}

#[test]
fn an_added_user_is_granted_an_added_floor(rt: HostRuntime) -> Result<(), Fail> {
    let alloc = rt.alloc();
    let ports = [free_port(&rt)?, free_port(&rt)?, free_port(&rt)?];
    let others = TcpListener::bind(&rt, "127.0.0.1:0")?;
    let taken = others.local_addr()?.port();
    let (console, start) = prepare(&rt, "changes.toml", &[(1, ports[0])])?;
    let thread = thread::spawn(&rt, move || run_to_end(rt, alloc, start, FreePass))?;
    let server = Server { console, thread };
    assert_eq!(rt; line(&rt, &server)?.as_str(), "ready");
    let told = differing(
        &rt,
        &server,
        &[
            ("user 1 13", Some(ports[1]), "ok user 1 13"),
            ("floor 1 5 chair 10", None, "ok floor 1 5"),
        ],
    )?;
    assert_eq!(rt; told.as_str(), "");
    let mut client = connect(&rt, ports[1])?;
    send(&rt, &mut client, ASKED).ok_or("sent")?;
    assert!(rt; hears(&rt, &mut client, PENDING)?);
    assert_eq!(rt; ask(&rt, &server, "chair 1 5")?.as_str(), "ok chair 1 5");
    assert!(rt; hears(&rt, &mut client, GRANTED)?);
    let told = differing(
        &rt,
        &server,
        &[
            ("user 9 14", Some(ports[2]), "error NoConference"),
            ("user 9 14", Some(taken), "error NoConference"),
            ("user 1 10", None, "error DoubleUser"),
            ("user 1 14", Some(taken), "error CannotListen"),
            ("user 1 14", Some(ports[1]), "error CannotListen"),
            ("chair 1 5 14", None, "error UnknownChair"),
            ("user 1 10", Some(ports[2]), "error DoubleUser"),
        ],
    )?;
    assert_eq!(rt; told.as_str(), "");
    assert!(rt; !is_listened_on(&rt, ports[2])?);
    // The port of the refused user isn't 13's, which is listened on as before.
    let mut second = connect(&rt, ports[1])?;
    send(&rt, &mut second, HELLO.0).ok_or("sent")?;
    hear(&rt, &mut second, HELLO.1).ok_or("heard")?;
    let told = differing(
        &rt,
        &server,
        &[
            ("user 1 14", Some(ports[2]), "ok user 1 14"),
            ("close 1", None, "ok closed 1"),
            ("user 1 15", Some(ports[2]), "error Ended"),
        ],
    )?;
    assert_eq!(rt; told.as_str(), "");
    for port in ports {
        assert!(rt; !is_listened_on(&rt, port)?);
        let address = format!(in alloc; "127.0.0.1:{port}")?;
        let _free = TcpListener::bind(&rt, address.as_str())?;
    }
    let stopped = ask(&rt, &server, "stop")?;
    assert!(rt; stopped.as_str().starts_with("ok stopped seats 2 events "));
    assert_eq!(rt; server.end(&rt), 0);
    fs::remove_file(&rt, "changes.toml")?;
    Ok(())
}
