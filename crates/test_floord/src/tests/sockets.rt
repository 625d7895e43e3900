//! A server in the same process, its administrator's lines and its clients over sockets.

use super::clients::{
    Server, ask, connect, events_of_stop, free_port, hear, joined, line, prepare, run_to_end, send,
};
use floor_serve::{FreePass, Gate};
use std::alloc::Global;
use std::net::TcpStream;
use std::sync::Arc;
use std::sync::atomic::{AtomicBool, Ordering};
use std::test::Fail;
use std::time::{Clock, Duration};
use std::{fs, thread};

/// A Hello of user 10, transaction 1.
const HELLO: &str = "200b0000 00000001 0001 000a";

const HELLO_ACK: &str =
    "200c0009 00000001 0001 000a 160f0102 03040506 0708090a 0b0c0d00 14140204 06080a0c 0e101214 16181a1c 1e202224";

const OTHER_HELLO: &str = "200b0000 00000002 0001 000a";

const OTHER_HELLO_ACK: &str =
    "200c0009 00000002 0001 000a 160f0102 03040506 0708090a 0b0c0d00 14140204 06080a0c 0e101214 16181a1c 1e202224";

#[test]
fn floord_hello(rt: HostRuntime) -> Result<(), Fail> {
    let alloc = rt.alloc();
    let port = free_port(&rt)?;
    let (console, start) = prepare(&rt, "floord_hello.toml", &[(1, port)])?;
    let thread = thread::spawn(&rt, move || run_to_end(rt, alloc, start, FreePass))?;
    let server = Server { console, thread };
    assert_eq!(rt; line(&rt, &server)?.as_str(), "ready");
    let mut client = connect(&rt, port)?;
    send(&rt, &mut client, HELLO).ok_or("sent")?;
    assert!(rt; is_heard(&rt, &mut client, HELLO_ACK));
    let stopped = ask(&rt, &server, "stop")?;
    // The writer acknowledges the answer before the member leaves, or too late.
    assert!(rt;
        stopped.as_str() == "ok stopped seats 1 events 3"
            || stopped.as_str() == "ok stopped seats 1 events 4",
        "{stopped}"
    );
    assert_eq!(rt; server.end(&rt), 0);
    fs::remove_file(&rt, "floord_hello.toml")?;
    Ok(())
}

/// A gate that holds conference 1 until it is let go, or has waited too long.
#[derive(Drop)]
struct Held<R> {
    rt: R,
    is_held: Arc<AtomicBool, Global>,
    lets_go: Arc<AtomicBool, Global>,
    gave_up: Arc<AtomicBool, Global>,
}

impl<R: Clock> Gate for Held<R> {
    fn pass(&self, conference: u32, _n: u32) {
        if conference != 1 {
            return;
        }
        self.is_held.store(true, Ordering::SeqCst);
        for _ in 0..10_000 {
            if self.lets_go.load(Ordering::SeqCst) {
                return;
            }
            thread::sleep(&self.rt, Duration::from_millis(1));
        }
        self.gave_up.store(true, Ordering::SeqCst);
    }
}

#[test]
fn gate_two_sockets(rt: HostRuntime) -> Result<(), Fail> {
    let alloc = rt.alloc();
    let is_held = Arc::new(alloc, AtomicBool::new(false))?;
    let lets_go = Arc::new(alloc, AtomicBool::new(false))?;
    let gave_up = Arc::new(alloc, AtomicBool::new(false))?;
    let gate = Held {
        rt,
        is_held: Arc::try_clone(&is_held)?,
        lets_go: Arc::try_clone(&lets_go)?,
        gave_up: Arc::try_clone(&gave_up)?,
    };
    let first = free_port(&rt)?;
    let second = free_port(&rt)?;
    let (console, start) = prepare(&rt, "gate_two_sockets.toml", &[(1, first), (2, second)])?;
    let thread = thread::spawn(&rt, move || run_to_end(rt, alloc, start, gate))?;
    let server = Server { console, thread };
    assert_eq!(rt; line(&rt, &server)?.as_str(), "ready");
    let mut held = connect(&rt, first)?;
    send(&rt, &mut held, HELLO).ok_or("sent")?;
    for _ in 0..10_000 {
        if is_held.load(Ordering::SeqCst) {
            break;
        }
        thread::sleep(&rt, Duration::from_millis(1));
    }
    let mut free = connect(&rt, second)?;
    send(&rt, &mut free, OTHER_HELLO).ok_or("sent")?;
    let heard = is_heard(&rt, &mut free, OTHER_HELLO_ACK);
    lets_go.store(true, Ordering::SeqCst);
    assert!(rt; heard);
    assert!(rt; is_heard(&rt, &mut held, HELLO_ACK));
    assert!(rt; is_held.load(Ordering::SeqCst));
    assert!(rt; !gave_up.load(Ordering::SeqCst));
    let stopped = ask(&rt, &server, "stop")?;
    let events = events_of_stop(stopped.as_str(), "ok stopped seats 2 events ").ok_or("stopped")?;
    // Two joins, two Hellos, two leaves, and what the writers acknowledge before these.
    assert!(rt; (6..=8).contains(&events), "{stopped}");
    assert_eq!(rt; server.end(&rt), 0);
    fs::remove_file(&rt, "gate_two_sockets.toml")?;
    Ok(())
}

/// Whether the next that the client is sent is this answer.
fn is_heard<R: AllocGlobal>(rt: &R, client: &mut TcpStream, answer: &str) -> bool {
    match (hear(rt, client, 48), joined(rt, answer)) {
        (Some(heard), Some(wanted)) => heard.as_str() == wanted.as_str(),
        _ => false,
    }
}
