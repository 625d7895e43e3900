//! Clients that keep messages under way while conferences open and close and the server stops.

use super::clients::{
    Server, ask, connect, events_of_stop, free_port, line, prepare, run_to_end, write_file,
};
use floor_serve::FreePass;
use std::alloc::Global;
use std::io::{Read, Write};
use std::net::{Net, TcpListener, TcpStream};
use std::sync::Arc;
use std::sync::atomic::{AtomicBool, AtomicU32, Ordering};
use std::test::Fail;
use std::time::{Clock, Duration};
use std::{fs, thread};

/// How many messages a client has under way.
const UNDER_WAY: u32 = 8;

/// How many messages a client sends at most.
const MAX_MESSAGES: u32 = 1_000_000;

/// How many Transaction IDs a client has, which no other has.
const TRANSACTIONS: u32 = 16_000;

/// How often at most it is asked whether a client has heard on, a millisecond apart.
const MAX_ASKS: u32 = 10_000;

/// What is behind the header of a HelloAck.
const SUPPORTED: [u8; 36] = [
    0x16, 0x0f, 1, 2, 3, 4, 5, 6, 7, 8, 9, 10, 11, 12, 13, 0, 0x14, 0x14, 2, 4, 6, 8, 10, 12, 14,
    16, 18, 20, 22, 24, 26, 28, 30, 32, 34, 36,
];

/// What a client sends, and how far it has come.
#[derive(Drop)]
struct Load {
    conference: u8,
    /// The first of its Transaction IDs.
    first: u16,
    heard: AtomicU32,
    /// Whether its conference closes, or the server stops.
    may_end: AtomicBool,
}

impl Load {
    /// A client that has sent nothing.
    fn new(conference: u8, first: u16) -> Load {
        Load {
            conference,
            first,
            heard: AtomicU32::new(0),
            may_end: AtomicBool::new(false),
        }
    }

    /// The header of a message of user 10, of this primitive, with a payload of so many words and
    /// the transaction of the client's message with this number.
    fn header(&self, primitive: u8, words: u8, number: u32) -> [u8; 12] {
        let place = u16::try_from(number % TRANSACTIONS).unwrap_or(0);
        let [high, low] = self.first.wrapping_add(place).to_be_bytes();
        [
            0x20,
            primitive,
            0,
            words,
            0,
            0,
            0,
            self.conference,
            high,
            low,
            0,
            10,
        ]
    }

    /// Sends the Hello with this number.
    fn send(&self, client: &mut TcpStream, number: u32) -> bool {
        client.write_all(&self.header(11, 0, number)).is_ok()
    }

    /// Whether the next that the client is sent is the answer to the Hello with this number; `None`
    /// where the stream ends before.
    fn hears(&self, client: &mut TcpStream, number: u32) -> Option<bool> {
        let mut header = [0u8; 12];
        let mut payload = [0u8; 36];
        client.read_exact(&mut header).ok()?;
        client.read_exact(&mut payload).ok()?;
        Some(header == self.header(12, 9, number) && payload == SUPPORTED)
    }

    fn may_end(&self) -> bool {
        self.may_end.load(Ordering::SeqCst)
    }
}

/// Sends Hellos, so many of them under way at once, until the stream ends. Gives whether each
/// answer was that of the next Hello, and the stream ended when it might.
fn go_on(mut client: TcpStream, load: &Load) -> bool {
    let mut sends = true;
    for number in 1..UNDER_WAY {
        sends = sends && load.send(&mut client, number);
    }
    for number in 1..MAX_MESSAGES {
        sends = sends && load.send(&mut client, number.wrapping_add(UNDER_WAY).wrapping_sub(1));
        if !sends && !load.may_end() {
            return false;
        }
        match load.hears(&mut client, number) {
            None => return load.may_end(),
            Some(false) => return false,
            Some(true) => {
                load.heard.fetch_add(1, Ordering::SeqCst);
            }
        }
    }
    false
}

/// Connects a client, which has heard the answer to its first Hello.
fn begin<R: Net<Listener = TcpListener, Stream = TcpStream> + AllocGlobal>(
    rt: &R,
    port: u16,
    load: &Load,
) -> Result<TcpStream, Fail> {
    let mut client = connect(rt, port)?;
    if !load.send(&mut client, 0) || load.hears(&mut client, 0) != Some(true) {
        return Err(Fail::from("a first Hello isn't answered"));
    }
    load.heard.fetch_add(1, Ordering::SeqCst);
    Ok(client)
}

/// Whether each of these clients hears on, by more answers than it had under way.
fn hear_on<R: Clock>(rt: &R, loads: &[Arc<Load, Global>]) -> bool {
    for load in loads {
        let wanted = load
            .heard
            .load(Ordering::SeqCst)
            .saturating_add(2 * UNDER_WAY);
        let mut hears = false;
        for _ in 0..MAX_ASKS {
            if load.heard.load(Ordering::SeqCst) >= wanted {
                hears = true;
                break;
            }
            thread::sleep(rt, Duration::from_millis(1));
        }
        if !hears {
            return false;
        }
    }
    true
}

/// Lets the streams of these clients end from now on.
fn let_end(loads: &[Arc<Load, Global>]) {
    for load in loads {
        load.may_end.store(true, Ordering::SeqCst);
    }
}

/// How many answers these clients have heard.
fn all_heard(loads: &[Arc<Load, Global>]) -> u32 {
    let mut heard = 0u32;
    for load in loads {
        heard = heard.saturating_add(load.heard.load(Ordering::SeqCst));
    }
    heard
}

/// What the administrator asks while the clients of conference 1 go on, and the answers.
const MEANWHILE: [(&str, &str); 6] = [
    ("status 2", "conference 2 members 2 ongoing 0 events "),
    ("open load_more.toml", "ok opened 1"),
    ("status 3", "conference 3 members 0 ongoing 0 events 0 open"),
    ("close 3", "ok closed 3"),
    (
        "status 3",
        "conference 3 members 0 ongoing 0 events 1 ended",
    ),
    ("open load.toml", "error Used"),
];

#[test]
fn stop_under_load(rt: HostRuntime) -> Result<(), Fail> {
    let alloc = rt.alloc();
    let ports = [free_port(&rt)?, free_port(&rt)?, free_port(&rt)?];
    write_file(&rt, "load_more.toml", &[(3, ports[2])])?;
    let (console, start) = prepare(&rt, "load.toml", &[(1, ports[0]), (2, ports[1])])?;
    let thread = thread::spawn(&rt, move || run_to_end(rt, alloc, start, FreePass))?;
    let server = Server { console, thread };
    assert_eq!(rt; line(&rt, &server)?.as_str(), "ready");
    let mut loads = Vec::new(alloc);
    let mut clients = Vec::new(alloc);
    for (conference, first) in [(1, 1), (1, 16_001), (2, 32_001), (2, 48_001)] {
        let load = Arc::new(alloc, Load::new(conference, first))?;
        let port = if conference == 1 { ports[0] } else { ports[1] };
        let stream = begin(&rt, port, &load)?;
        let theirs = Arc::try_clone(&load)?;
        clients.push(thread::spawn(&rt, move || go_on(stream, &theirs))?)?;
        loads.push(load)?;
    }
    let lasting = loads.get(..2).ok_or("clients of conference 1")?;
    let closing = loads.get(2..).ok_or("clients of conference 2")?;
    assert!(rt; hear_on(&rt, &loads));
    let_end(closing);
    assert_eq!(rt; ask(&rt, &server, "close 2")?.as_str(), "ok closed 2");
    for _ in 0..2 {
        let client = clients.pop().ok_or("a client of conference 2")?;
        assert!(rt; client.join(&rt));
    }
    for (asked, wanted) in MEANWHILE {
        assert!(rt; hear_on(&rt, lasting), "{asked}");
        let answer = ask(&rt, &server, asked)?;
        assert!(rt; answer.as_str().starts_with(wanted), "{asked}");
    }
    let_end(&loads);
    let stopped = ask(&rt, &server, "stop")?;
    for client in clients {
        assert!(rt; client.join(&rt));
    }
    let events = events_of_stop(stopped.as_str(), "ok stopped seats 4 events ").ok_or("stopped")?;
    // Four joins, two leaves of conference 1 and a Close each of 2 and 3 are no messages. What was
    // under way at the end may be taken and not heard. Each message has one answer, so no more
    // acknowledgements than messages are there.
    let others = events.saturating_sub(8);
    let heard = all_heard(&loads);
    let most = heard.saturating_add(4 * UNDER_WAY).saturating_mul(2);
    assert!(rt; heard <= others && others <= most, "{stopped}");
    assert_eq!(rt; server.end(&rt), 0);
    fs::remove_file(&rt, "load.toml")?;
    fs::remove_file(&rt, "load_more.toml")?;
    Ok(())
}
