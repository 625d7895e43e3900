//! Where the server listens, which ports it gives back, and what it does where an accept fails.

use super::clients::{Server, ask, connect, free_port, hear, line, prepare, run_to_end, send};
use floor_config::read_configs;
use floor_serve::FreePass;
use floor_threads::{Binding, Shared, Socket, accept_all};
use std::io::ErrorKind;
use std::net::{TcpListener, TcpStream};
use std::sync::Arc;
use std::test::Fail;
use std::{fs, io, thread};

#[test]
fn both_ports_of_a_closed_conference_are_free(rt: HostRuntime) -> Result<(), Fail> {
    let alloc = rt.alloc();
    let ports = [free_port(&rt)?, free_port(&rt)?, free_port(&rt)?];
    let (console, start) = prepare(&rt, "both.toml", &[(1, ports[0])])?;
    for (conference, path) in [(2, "both_first.toml"), (3, "both_again.toml")] {
        let text = format!(in alloc;
            "[[conference]]\nid = {conference}\n[[conference.user]]\nid = 10\nport = {}\n\
            [[conference.user]]\nid = 11\nport = {}\n",
            ports[1], ports[2]
        )?;
        fs::write(&rt, path, text.as_str())?;
    }
    let thread = thread::spawn(&rt, move || run_to_end(rt, alloc, start, FreePass))?;
    let server = Server { console, thread };
    assert_eq!(rt; line(&rt, &server)?.as_str(), "ready");
    for (asked, wanted) in [
        ("open both_first.toml", "ok opened 1"),
        ("open both_again.toml", "error CannotListen"),
        ("close 2", "ok closed 2"),
        ("open both_again.toml", "ok opened 1"),
    ] {
        assert_eq!(rt; ask(&rt, &server, asked)?.as_str(), wanted);
    }
    let _first = connect(&rt, ports[1])?;
    let _second = connect(&rt, ports[2])?;
    // The other addresses of this machine lead nowhere.
    let elsewhere = format!(in alloc; "127.0.0.2:{}", ports[1])?;
    assert!(rt; TcpStream::connect(&rt, elsewhere.as_str()).is_err());
    let stopped = ask(&rt, &server, "stop")?;
    assert!(rt; stopped.as_str().starts_with("ok stopped seats "));
    assert_eq!(rt; server.end(&rt), 0);
    for port in ports {
        let address = format!(in alloc; "127.0.0.1:{port}")?;
        assert!(rt; TcpStream::connect(&rt, address.as_str()).is_err());
    }
    for path in ["both.toml", "both_first.toml", "both_again.toml"] {
        fs::remove_file(&rt, path)?;
    }
    Ok(())
}

#[test]
fn a_socket_sends_without_delay(rt: HostRuntime) -> Result<(), Fail> {
    let listener = TcpListener::bind(&rt, "127.0.0.1:0")?;
    let _client = TcpStream::connect(&rt, listener.local_addr()?)?;
    let (stream, _) = listener.accept()?;
    let same = stream.try_clone()?;
    let _socket = Socket::new(rt.alloc(), stream)?;
    assert!(rt; same.nodelay()?);
    Ok(())
}

/// The configuration of conference 1, in which there is user 10.
const CONFIGURATION: &str = "[[conference]]\nid = 1\n[[conference.user]]\nid = 10\n";

#[test]
fn a_port_serves_on_after_an_accept_that_failed(rt: HostRuntime) -> Result<(), Fail> {
    let alloc = rt.alloc();
    let mut configs = read_configs(alloc, CONFIGURATION).map_err(|_| "no configuration")?;
    let shared = Shared::new(alloc, FreePass, None);
    let Ok(()) = shared
        .registry
        .open(&rt, configs.pop().ok_or("no conference")?)
    else {
        return Err(Fail::from("the conference doesn't open"));
    };
    let binding = Binding::new(Arc::new(alloc, shared)?, 1, 10, 1);
    let binding = Arc::new(alloc, binding)?;
    let listener = TcpListener::bind(&rt, "127.0.0.1:0")?;
    let mut client = TcpStream::connect(&rt, listener.local_addr()?)?;
    let (stream, _) = listener.accept()?;
    let failed = Err(io::Error::from(ErrorKind::Other));
    let incoming = vec![in alloc; failed, Ok(stream)]?;
    accept_all(rt, alloc, &binding, incoming.into_iter());
    send(&rt, &mut client, "200b0000 00000001 0001 000a").ok_or("sent")?;
    assert!(rt; hear(&rt, &mut client, 48).is_some());
    binding.shut_down(&rt);
    binding.wait(&rt);
    Ok(())
}
