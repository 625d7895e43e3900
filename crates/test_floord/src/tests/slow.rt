//! Peers that read late, or never.

use super::clients::{
    Server, Start, ask, connect, free_port, hear_message, joined, line, log_lines, prepare,
    run_logged, run_to_end, send, two_ends,
};
use floor_serve::FreePass;
use std::alloc::Global;
use std::io::{Read, Write};
use std::net::{Shutdown, TcpStream};
use std::sync::Arc;
use std::sync::atomic::{AtomicBool, Ordering};
use std::test::Fail;
use std::time::Duration;
use std::{fs, thread};

/// What is told of each user: it is long, so that the system's buffers are soon full.
const TOLD: &str = "name = \"Ann, whose name has 30 letters\"\n\
    uri = \"sip:ann@conferences.example.com;transport=tcp;lr;method=BFCP\"\n";

/// The users for whom user 10 asks for floor 1, how many times for each, and how many requests these
/// are.
const BENEFICIARIES: [u16; 4] = [12, 13, 14, 15];

const EACH: u8 = 16;

const STANDING: u16 = 64;

/// A Hello of user 10, and one of user 11.
const HELLO: &str = "200b0000 00000001 0001 000a";

const OTHER_HELLO: &str = "200b0000 00000001 0001 000b";

/// User 10 asks which requests there are for floor 1, and watches it from then on.
const QUERY: &str = "20070001 00000001 0001 000a 04040001";

/// User 11 asks for floor 1.
const REQUEST: &str = "20010001 00000001 0001 000b 04040001";

/// What answers a message; `None` where the stream ends before.
fn answer<R: AllocGlobal>(rt: &R, client: &mut TcpStream, message: &str) -> Option<Vec<u8>> {
    send(rt, client, message)?;
    hear_message(rt.alloc(), client)
}

/// Writes the configuration of a server whose conference 1 has user 10 at the first port and user 11 at
/// the second, and gives the test's end of the server's standard input and output, and what it is
/// started with.
fn prepare_users(
    rt: &HostRuntime,
    path: &str,
    ports: [u16; 2],
) -> Result<(TcpStream, Start), Fail> {
    let alloc = rt.alloc();
    let prepared = prepare(rt, path, &[(1, ports[0])])?;
    let mut text = format!(in alloc; "[[conference]]\nid = 1\nlimit = {EACH}\n")?;
    for (user, port) in [(10, ports[0]), (11, ports[1])] {
        let part = format!(in alloc;
            "[[conference.user]]\nid = {user}\nproxy = true\nport = {port}\n{TOLD}"
        )?;
        text.push_str(part.as_str())?;
    }
    for user in BENEFICIARIES {
        let part = format!(in alloc; "[[conference.user]]\nid = {user}\n{TOLD}")?;
        text.push_str(part.as_str())?;
    }
    text.push_str("[[conference.floor]]\nid = 1\n")?;
    fs::write(rt, path, text.as_str())?;
    Ok(prepared)
}

/// Connects user 10 once the server is ready, who asks for floor 1 for others.
fn enter(rt: &HostRuntime, server: &Server, port: u16) -> Result<TcpStream, Fail> {
    let alloc = rt.alloc();
    if line(rt, server)?.as_str() != "ready" {
        return Err(Fail::from("the server isn't ready"));
    }
    let mut client = connect(rt, port)?;
    for beneficiary in BENEFICIARIES {
        let request = format!(in alloc;
            "20010002 00000001 0001 000a 04040001 0204{beneficiary:04x}"
        )?;
        for _ in 0..EACH {
            answer(rt, &mut client, request.as_str()).ok_or("asks")?;
        }
    }
    Ok(client)
}

/// How often it is asked at most whether a member has left, 10 milliseconds apart.
const MAX_ASKS: u32 = 3_000;

/// Whether the conference is found to have so many members before it was asked for too often.
fn has_members(rt: &HostRuntime, server: &Server, members: u32) -> Result<bool, Fail> {
    let alloc = rt.alloc();
    let wanted = format!(in alloc; "conference 1 members {members} ")?;
    for _ in 0..MAX_ASKS {
        if ask(rt, server, "status 1")?
            .as_str()
            .starts_with(wanted.as_str())
        {
            return Ok(true);
        }
        thread::sleep(rt, Duration::from_millis(10));
    }
    Ok(false)
}

/// How often a client asks at most.
const MAX_QUESTIONS: u32 = 1_000_000;

/// The bytes of the question.
fn query<R: AllocGlobal>(rt: &R) -> Option<Vec<u8>> {
    hex::decode(rt.alloc(), joined(rt, QUERY)?.as_str()).ok()
}

/// Asks again and again and reads no answer, until nothing can be sent any more. Gives whether it came
/// to that.
fn ask_and_never_read(mut client: TcpStream, query: &[u8]) -> bool {
    for _ in 0..MAX_QUESTIONS {
        match client.write_all(query) {
            Ok(()) => {}
            Err(_) => return true,
        }
    }
    false
}

/// How often a client is answered at most while another is held up, a millisecond apart.
const MAX_ANSWERS: u32 = 50_000;

#[test]
fn a_client_that_never_reads_is_cut_and_its_user_connects_again(
    rt: HostRuntime,
) -> Result<(), Fail> {
    let alloc = rt.alloc();
    let ports = [free_port(&rt)?, free_port(&rt)?];
    let (console, mut start) = prepare_users(&rt, "slow_unread.toml", ports)?;
    start.ask_for_log(alloc)?;
    let (mut log, sink) = two_ends(&rt)?;
    let serving = thread::spawn(&rt, move || run_logged(rt, alloc, start, sink, FreePass))?;
    let server = Server {
        console,
        thread: serving,
    };
    let unread = enter(&rt, &server, ports[0])?;
    let mut other = connect(&rt, ports[1])?;
    let is_over = Arc::new(alloc, AtomicBool::new(false))?;
    let theirs = Arc::try_clone(&is_over)?;
    let question = query(&rt).ok_or("a question")?;
    let thread = thread::spawn(&rt, move || {
        let ended = ask_and_never_read(unread, question.as_slice());
        theirs.store(true, Ordering::SeqCst);
        ended
    })?;
    for turn in 0..MAX_ANSWERS {
        if is_over.load(Ordering::SeqCst) {
            break;
        }
        let heard = answer(&rt, &mut other, OTHER_HELLO);
        assert!(rt; heard.is_some(), "Hello {turn}");
        thread::sleep(&rt, Duration::from_millis(1));
    }
    assert!(rt; thread.join(&rt));
    assert!(rt; has_members(&rt, &server, 1)?);
    let mut again = connect(&rt, ports[0])?;
    assert!(rt; answer(&rt, &mut again, HELLO).is_some());
    assert!(rt; has_members(&rt, &server, 2)?);
    let stopped = ask(&rt, &server, "stop")?;
    assert!(rt;
        stopped.as_str().starts_with("ok stopped seats 3 "),
        "{stopped}"
    );
    assert_eq!(rt; server.end(&rt), 0);
    assert!(rt;
        log_lines(alloc, &mut log)?
            .as_str()
            .contains(" n 1 left Slow\n")
    );
    fs::remove_file(&rt, "slow_unread.toml")?;
    Ok(())
}

/// How often at most some requests come and go, 50 milliseconds apart, and how many at once.
const MAX_ROUNDS: u32 = 600;

const REQUESTS: u16 = 50;

/// Asks for floor 1 and gives it back, so often, as user 11, once so many requests were accepted.
/// `None` where something isn't answered.
fn come_and_go<R: AllocGlobal>(rt: &R, client: &mut TcpStream, accepted: u16) -> Option<()> {
    for turn in 1..=REQUESTS {
        answer(rt, client, REQUEST)?;
        let request = accepted.saturating_add(turn);
        let release = format!(in rt.alloc(); "20020001 00000001 0001 000b 0604{request:04x}");
        answer(rt, client, release.ok()?.as_str())?;
    }
    Some(())
}

#[test]
fn a_client_that_watches_a_floor_and_never_reads_is_cut(rt: HostRuntime) -> Result<(), Fail> {
    let alloc = rt.alloc();
    let ports = [free_port(&rt)?, free_port(&rt)?];
    let (console, start) = prepare_users(&rt, "slow_watcher.toml", ports)?;
    let serving = thread::spawn(&rt, move || run_to_end(rt, alloc, start, FreePass))?;
    let server = Server {
        console,
        thread: serving,
    };
    let mut watcher = enter(&rt, &server, ports[0])?;
    answer(&rt, &mut watcher, QUERY).ok_or("watches")?;
    let mut other = connect(&rt, ports[1])?;
    let mut accepted = STANDING;
    let mut is_cut = false;
    for _ in 0..MAX_ROUNDS {
        come_and_go(&rt, &mut other, accepted).ok_or("asks and releases")?;
        accepted = accepted.saturating_add(REQUESTS);
        let status = ask(&rt, &server, "status 1")?;
        if status.as_str().starts_with("conference 1 members 1 ") {
            is_cut = true;
            break;
        }
        thread::sleep(&rt, Duration::from_millis(50));
    }
    assert!(rt; is_cut);
    let mut again = connect(&rt, ports[0])?;
    assert!(rt; answer(&rt, &mut again, HELLO).is_some());
    let stopped = ask(&rt, &server, "stop")?;
    assert!(rt;
        stopped.as_str().starts_with("ok stopped seats 3 "),
        "{stopped}"
    );
    assert_eq!(rt; server.end(&rt), 0);
    drop(watcher);
    fs::remove_file(&rt, "slow_watcher.toml")?;
    Ok(())
}

/// How many questions a client asks before it reads an answer: fewer than it may be behind.
const QUESTIONS: u32 = 1_000;

/// Asks so often, and gives whether all could be sent.
fn ask_often(client: &mut TcpStream, query: &[u8]) -> bool {
    for _ in 0..QUESTIONS {
        match client.write_all(query) {
            Ok(()) => {}
            Err(_) => return false,
        }
    }
    true
}

/// Whether the next messages, so many as there were questions, are each this answer.
fn hears_all(alloc: Global, client: &mut TcpStream, wanted: &[u8]) -> bool {
    for _ in 0..QUESTIONS {
        match hear_message(alloc, client) {
            Some(heard) if heard.as_slice() == wanted => {}
            _ => return false,
        }
    }
    true
}

#[test]
fn a_client_that_reads_late_is_sent_everything(rt: HostRuntime) -> Result<(), Fail> {
    let alloc = rt.alloc();
    let ports = [free_port(&rt)?, free_port(&rt)?];
    let (console, start) = prepare_users(&rt, "slow_reader.toml", ports)?;
    let serving = thread::spawn(&rt, move || run_to_end(rt, alloc, start, FreePass))?;
    let server = Server {
        console,
        thread: serving,
    };
    let mut client = enter(&rt, &server, ports[0])?;
    let wanted = answer(&rt, &mut client, QUERY).ok_or("the first answer")?;
    // Together the answers are more than the system's buffers hold.
    assert!(rt; wanted.len() > 6_000);
    // One leaves before it reads: it has less time than one that stays.
    let mut leaving = connect(&rt, ports[0])?;
    let mut staying = connect(&rt, ports[0])?;
    let question = query(&rt).ok_or("a question")?;
    assert!(rt; ask_often(&mut leaving, question.as_slice()));
    assert!(rt; ask_often(&mut staying, question.as_slice()));
    leaving.shutdown(Shutdown::Write)?;
    thread::sleep(&rt, Duration::from_secs(3));
    assert!(rt; hears_all(alloc, &mut leaving, wanted.as_slice()));
    let mut byte = [0u8; 1];
    assert_eq!(rt; leaving.read(&mut byte)?, 0);
    thread::sleep(&rt, Duration::from_secs(2));
    assert!(rt; hears_all(alloc, &mut staying, wanted.as_slice()));
    let stopped = ask(&rt, &server, "stop")?;
    assert!(rt;
        stopped.as_str().starts_with("ok stopped seats 3 "),
        "{stopped}"
    );
    assert_eq!(rt; server.end(&rt), 0);
    fs::remove_file(&rt, "slow_reader.toml")?;
    Ok(())
}
