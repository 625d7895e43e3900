//! Random clients, and what the journal that the server prints calls for.

use super::clients::{
    Server, ask, connect, events_of_stop, free_port, hear, line, prepare, run_to_end, send,
};
use floor_config::read_configs;
use floor_room::{Event, Frame, replay};
use floor_serve::FreePass;
use floor_words::{read_u16, read_u32};
use std::alloc::Global;
use std::io::{Read, Write};
use std::net::{Shutdown, TcpStream};
use std::test::Fail;
use std::{fs, thread};

/// Primitives and payloads of which clients pick: requests for one floor and for two, releases,
/// queries, watching, a chair's verdicts, and messages that are refused. `rrrr` is the number of a
/// floor request.
const PICKED: &str = "01 04040001
01 04040002
01 04040001040400020804e000
01 040400010204000b
02 0604rrrr
02 0604rrrr
03 0604rrrr
05 0204000b
07 0404000104040002
09 1e0crrrr220800020a040300
09 1e0crrrr220800020a040300
09 1e0crrrr220800020a040400
09 1e0crrrr220800010a040700
0b 
0b 04010001
0b 29040000
10 ";

/// How many messages a client sends.
const MESSAGES: u16 = 150;

/// Numbers that follow from a seed.
#[derive(Drop)]
struct Chance {
    state: u64,
}

impl Chance {
    /// The next of so many numbers from 0 on, of at most 1,024.
    fn next(&mut self, count: u16) -> u16 {
        self.state = self
            .state
            .wrapping_mul(6_364_136_223_846_793_005)
            .wrapping_add(1_442_695_040_888_963_407);
        let drawn = (self.state >> 54) as u16;
        drawn.checked_rem(count).unwrap_or(0)
    }
}

/// A picked message of the user as hexadecimal.
fn picked(alloc: Global, chance: &mut Chance, user: u16) -> Option<String> {
    let rows = PICKED.lines().count() as u16;
    let row = PICKED.lines().nth(usize::from(chance.next(rows)))?;
    let (primitive, rest) = row.split_once(' ')?;
    let mut payload = String::new(alloc);
    match rest.split_once("rrrr") {
        Some((before, behind)) => {
            let request = chance.next(60).to_be_bytes();
            payload.push_str(before).ok()?;
            payload
                .push_str(hex::encode(alloc, &request).ok()?.as_str())
                .ok()?;
            payload.push_str(behind).ok()?;
        }
        None => payload.push_str(rest).ok()?,
    }
    let words = u16::try_from(payload.len() / 8).ok()?.to_be_bytes();
    let user = user.to_be_bytes();
    let mut text = String::new(alloc);
    text.push_str("20").ok()?;
    text.push_str(primitive).ok()?;
    text.push_str(hex::encode(alloc, &words).ok()?.as_str())
        .ok()?;
    text.push_str("000000010007").ok()?;
    text.push_str(hex::encode(alloc, &user).ok()?.as_str())
        .ok()?;
    text.push_str(payload.as_str()).ok()?;
    Some(text)
}

/// Sends picked messages, cut anywhere, ends its sending, and gives all that it hears.
fn play(alloc: Global, mut client: TcpStream, user: u16, seed: u64) -> Option<Vec<u8>> {
    let mut chance = Chance { state: seed };
    let mut text = String::new(alloc);
    for _ in 0..MESSAGES {
        text.push_str(picked(alloc, &mut chance, user)?.as_str())
            .ok()?;
    }
    let stream = hex::decode(alloc, text.as_str()).ok()?;
    let mut rest = stream.as_slice();
    for _ in 0..stream.len() {
        let count = usize::from(chance.next(60))
            .saturating_add(1)
            .min(rest.len());
        let (piece, behind) = rest.split_at(count);
        client.write_all(piece).ok()?;
        rest = behind;
    }
    client.shutdown(Shutdown::Write).ok()?;
    let mut heard = Vec::new(alloc);
    client.read_to_end(&mut heard).ok()?;
    Some(heard)
}

/// The event of a line of a journal.
fn event_of(alloc: Global, text: &str) -> Option<Event> {
    let mut words = text.split(' ').skip(1);
    let kind = words.next()?;
    let named = words.next()?;
    match kind {
        "join" => Some(Event::Join {
            user: read_u16(named)?,
        }),
        "message" => {
            let bytes = hex::decode(alloc, words.next()?).ok()?;
            let frame = Frame::of(alloc, bytes.as_slice()).ok()??;
            Some(Event::Message {
                n: read_u32(named)?,
                frame,
            })
        }
        "took" => Some(Event::Took {
            n: read_u32(named)?,
            k: read_u32(words.next()?)?,
        }),
        "leave" => Some(Event::Leave {
            n: read_u32(named)?,
        }),
        _ => None,
    }
}

/// The events of the journal of conference 1.
fn events_of<R: AllocGlobal>(rt: &R, server: &Server) -> Result<Vec<Event>, Fail> {
    let alloc = rt.alloc();
    let mut events = Vec::new(alloc);
    let mut text = ask(rt, server, "journal 1")?;
    for _ in 0..10_000 {
        if text.as_str().starts_with("end ") {
            break;
        }
        events.push(event_of(alloc, text.as_str()).ok_or("a line is no event")?)?;
        text = line(rt, server)?;
    }
    Ok(events)
}

#[test]
fn what_is_sent_is_what_the_journal_calls_for(rt: HostRuntime) -> Result<(), Fail> {
    let alloc = rt.alloc();
    let ports = [free_port(&rt)?, free_port(&rt)?, free_port(&rt)?];
    let (console, start) = prepare(&rt, "replayed.toml", &[(1, ports[0])])?;
    let text = format!(in alloc;
        "[[conference]]\nid = 1\n[[conference.user]]\nid = 10\nname = \"Ann\"\nproxy = true\n\
        port = {}\n[[conference.user]]\nid = 11\nport = {}\n[[conference.user]]\nid = 12\n\
        port = {}\n[[conference.floor]]\nid = 1\nroom = 2\n[[conference.floor]]\nid = 2\n\
        chair = 12\n",
        ports[0], ports[1], ports[2]
    )?;
    fs::write(&rt, "replayed.toml", text.as_str())?;
    let thread = thread::spawn(&rt, move || run_to_end(rt, alloc, start, FreePass))?;
    let server = Server { console, thread };
    assert_eq!(rt; line(&rt, &server)?.as_str(), "ready");
    let mut clients = Vec::new(alloc);
    for (port, user, hello) in [
        (ports[0], 10, "200b0000 00000001 0001 000a"),
        (ports[1], 11, "200b0000 00000001 0001 000b"),
        (ports[2], 12, "200b0000 00000001 0001 000c"),
        (ports[0], 10, "200b0000 00000001 0001 000a"),
    ] {
        let mut client = connect(&rt, port)?;
        send(&rt, &mut client, hello).ok_or("sent")?;
        hear(&rt, &mut client, 48).ok_or("heard")?;
        clients.push((client, user))?;
    }
    let mut players = Vec::new(alloc);
    let mut seed = 8855u64;
    for (client, user) in clients {
        seed = seed.wrapping_add(1);
        players.push(thread::spawn(&rt, move || play(alloc, client, user, seed))?)?;
    }
    let configs = read_configs(alloc, text.as_str()).map_err(|_| "no configuration")?;
    let config = configs.as_slice().first().ok_or("no conference")?;
    let mut all = Vec::new(alloc);
    for player in players {
        all.push(player.join(&rt).ok_or("a client is cut off")?)?;
    }
    let events = events_of(&rt, &server)?;
    let mut others = 0usize;
    for event in events.iter() {
        match event {
            Event::Took { n: _, k: _ } => {}
            _ => others = others.saturating_add(1),
        }
    }
    // Each joins, says Hello, sends its messages and leaves.
    assert_eq!(rt; others, 4 * (3 + usize::from(MESSAGES)));
    let mut n = 0u32;
    for heard in all {
        n = n.saturating_add(1);
        let wanted = replay(alloc, config, events.as_slice(), n).map_err(|_| "no journal")?;
        // The HelloAck was heard before.
        assert!(rt;
            wanted.as_slice().get(48..) == Some(heard.as_slice()),
            "member {n}"
        );
        assert!(rt;
            heard.len() > 2400,
            "member {n} hears {} bytes",
            heard.len()
        );
    }
    let stopped = ask(&rt, &server, "stop")?;
    let counted = events_of_stop(stopped.as_str(), "ok stopped seats 4 events ").ok_or("stopped")?;
    assert_eq!(rt; counted as usize, events.len());
    assert_eq!(rt; server.end(&rt), 0);
    fs::remove_file(&rt, "replayed.toml")?;
    Ok(())
}
