//! A start that fails, and a stop that finds something wrong.

use super::clients::{free_port, write_file};
use floor_config::read_configs;
use floor_serve::{Frame, FreePass, Registry};
use floor_threads::{Shared, Socket, serve, tell};
use std::alloc::Global;
use std::fs;
use std::net::{TcpListener, TcpStream};
use std::sync::Wait;
use std::test::Fail;

/// A Hello of user 10 in conference 1.
const HELLO: [u8; 12] = [0x20, 11, 0, 0, 0, 0, 0, 1, 0, 1, 0, 10];

/// What the ports of a server share that was handed the seat of another server's member, who said
/// Hello in the conference with this configuration, as that of a connection over this socket.
fn with_a_stray_seat<R: Wait>(
    rt: &R,
    alloc: Global,
    configuration: &str,
    socket: Socket,
) -> Result<Shared<FreePass>, Fail> {
    let mut configs = read_configs(alloc, configuration).map_err(|_| "no configuration")?;
    let other = Registry::new(alloc);
    let Ok(()) = other.open(rt, configs.pop().ok_or("no conference")?) else {
        return Err(Fail::from("the conference doesn't open"));
    };
    let Ok(desk) = other.desk(rt, 1) else {
        return Err(Fail::from("no desk"));
    };
    let Ok((mut seat, _taker)) = desk.join(rt, 10) else {
        return Err(Fail::from("the user doesn't join"));
    };
    let hello = Frame::of(alloc, &HELLO)?.ok_or("no message")?;
    let Ok(_) = desk.submit(rt, &mut seat, hello, &FreePass) else {
        return Err(Fail::from("the Hello is refused"));
    };
    let shared = Shared::new(alloc, FreePass, None);
    let Ok(begun) = shared.connections.begin(rt, 1, 1, socket) else {
        return Err(Fail::from("no connection begins"));
    };
    let (released, _socket) = shared.connections.release(rt, begun.joined().left());
    shared.connections.end(rt, released, Some(seat));
    Ok(shared)
}

#[test]
fn a_stop_that_finds_a_mismatch_says_so_and_ends_by_a_fault(rt: HostRuntime) -> Result<(), Fail> {
    let alloc = rt.alloc();
    write_file(&rt, "faults.toml", &[(1, free_port(&rt)?)])?;
    let text = fs::read_to_string(&rt, "faults.toml")?;
    let listener = TcpListener::bind(&rt, "127.0.0.1:0")?;
    let socket = Socket::new(alloc, TcpStream::connect(&rt, listener.local_addr()?)?)?;
    let shared = with_a_stray_seat(&rt, alloc, text.as_str(), socket)?;
    let mut input: &[u8] = b"stop\n";
    let mut output = Vec::new(alloc);
    let mut errors = Vec::new(alloc);
    let ending = serve(
        rt,
        alloc,
        "faults.toml",
        &mut input,
        &mut output,
        &mut errors,
        shared,
    );
    assert_eq!(rt;
        output.as_slice(),
        b"ready\nerror Mismatch 1 1\n".as_slice()
    );
    assert_eq!(rt; tell(&mut errors, ending), 1);
    assert_eq!(rt; errors.as_slice(), b"floord: Mismatch\n".as_slice());
    fs::remove_file(&rt, "faults.toml")?;
    Ok(())
}

#[test]
fn a_start_that_fails_gives_its_ports_back(rt: HostRuntime) -> Result<(), Fail> {
    let alloc = rt.alloc();
    let others = TcpListener::bind(&rt, "127.0.0.1:0")?;
    let port = free_port(&rt)?;
    let conferences = [(1, port), (2, others.local_addr()?.port())];
    write_file(&rt, "half.toml", &conferences)?;
    let mut input: &[u8] = b"";
    let mut output = Vec::new(alloc);
    let mut errors = Vec::new(alloc);
    let ending = serve(
        rt,
        alloc,
        "half.toml",
        &mut input,
        &mut output,
        &mut errors,
        Shared::new(alloc, FreePass, None),
    );
    assert_eq!(rt; output.len(), 0);
    assert_eq!(rt; tell(&mut errors, ending), 1);
    assert!(rt; errors.as_slice().ends_with(b"floord: CannotListen\n"));
    let address = format!(in alloc; "127.0.0.1:{port}")?;
    let _free = TcpListener::bind(&rt, address.as_str())?;
    fs::remove_file(&rt, "half.toml")?;
    Ok(())
}
