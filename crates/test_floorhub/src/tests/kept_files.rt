//! The folder of kept conferences: files that are none, files that were closed, and what a check and the log say of them.

use super::clients::{
    ask_control, control, control_lines, free_port, line, log_lines, prepare, run_logged,
    run_to_end, two_ends,
};
use floor_server::{Entry, KeepFault, KeptFault, Left, Unkept};
use std::alloc::Global;
use std::fs::File;
use std::io::Read;
use std::net::{Net, TcpListener, TcpStream};
use std::os::unix::net::UnixStream;
use std::rt::Files;
use std::sync::Wait;
use std::test::Fail;
use std::thread::Threads;
use std::time::Clock;
use std::{fs, thread};
use test_clients::Server;

/// A server with its log and a client of its control socket.
#[derive(Drop)]
struct Run {
    server: Server,
    log: TcpStream,
    admin: UnixStream,
}

/// A folder that is new.
fn new_folder<R: Files<File = File> + AllocGlobal>(rt: &R, path: &str) -> Result<(), Fail> {
    let _removed = rt.remove_dir_all(rt.alloc(), path);
    fs::create_dir(rt, path)?;
    Ok(())
}

/// Starts a server of these conferences with a control socket at a path, that keeps them in a folder, and a log. It says
/// `ready` first.
fn start<R>(
    rt: R,
    path: &str,
    folder: &str,
    conferences: &[(u32, u16)],
    words: &[&str],
) -> Result<Run, Fail>
where
    R: Net<Listener = TcpListener, Stream = TcpStream>
        + Files<File = File>
        + AllocGlobal
        + Clock
        + Threads
        + Wait
        + Copy
        + Drop
        + Send
        + 'static,
    R::Dir: Send,
{
    let alloc = rt.alloc();
    let config = format!(in alloc; "{path}.toml")?;
    let (console, mut start) = prepare(&rt, config.as_str(), conferences)?;
    for word in ["--log", "--control", path, "--keep", folder] {
        start.add_word(alloc, word)?;
    }
    for word in words {
        start.add_word(alloc, word)?;
    }
    let (log, sink) = two_ends(&rt)?;
    let thread = thread::spawn(&rt, move || run_logged(rt, alloc, start, sink))?;
    let server = Server { console, thread };
    if line(&rt, &server)?.as_str() != "ready" {
        return Err("it isn't ready".into());
    }
    let admin = control(&rt, path)?;
    Ok(Run { server, log, admin })
}

/// Stops a server with so many kept conferences open, and gives its log.
fn stop<R: Threads + AllocGlobal>(rt: &R, run: Run) -> Result<String, Fail> {
    let Run {
        server,
        mut log,
        mut admin,
    } = run;
    let alloc = rt.alloc();
    let stopped = ask_control(alloc, &mut admin, "stop", 1)?;
    let _status = server.end(rt);
    if !stopped.as_str().contains("stopped ") && !stopped.as_str().contains("Broken") {
        return Err(format!(in alloc; "{stopped}")?.into());
    }
    log_lines(alloc, &mut log)
}

fn has_line(log: &String, wanted: &str) -> bool {
    log.as_str().lines().any(|line| line == wanted)
}

#[test]
fn a_file_that_cannot_be_had_leaves_its_conference_alone_out(rt: HostRuntime) -> Result<(), Fail> {
    let alloc = rt.alloc();
    let (path, folder) = ("kept-out", "kept-out-folder");
    new_folder(&rt, folder)?;
    fs::create_dir(&rt, "kept-out-folder/1.journal")?;
    fs::write(
        &rt,
        "kept-out-folder/3.journal",
        "floorhub journal 1\nid = 3\n",
    )?;
    let conferences = [
        (1, free_port(&rt)?),
        (2, free_port(&rt)?),
        (3, free_port(&rt)?),
    ];
    let mut run = start(rt, path, folder, &conferences, &[])?;
    let found = ask_control(alloc, &mut run.admin, "list", 2)?;
    assert_eq!(rt;
        found.as_str(),
        "conference 2 members 0 ongoing 0 events 0 open,end 1"
    );
    // What the file had may not be begun anew.
    let found = ask_control(
        alloc,
        &mut run.admin,
        "open .\n[[conference]]\nid = 1\n.",
        1,
    )?;
    assert_eq!(rt; found.as_str(), "error Used");
    let log = stop(&rt, run)?;
    for wanted in [
        "conference 1 CannotKeep kept-out-folder/1.journal: it is no plain file",
        "conference 1 is not opened",
        "conference 2 opened",
        "conference 3 NotAJournal 0 line 0",
        "conference 3 is not opened",
    ] {
        assert!(rt; has_line(&log, wanted), "{wanted} in {log}");
    }
    assert!(rt; !log.as_str().contains("goes on from its file"), "{log}");
    let left = fs::read_to_string(&rt, "kept-out-folder/3.journal")?;
    assert_eq!(rt; left.as_str(), "floorhub journal 1\nid = 3\n");
    rt.remove_dir_all(alloc, folder)?;
    Ok(())
}

#[test]
fn what_goes_on_was_not_closed(rt: HostRuntime) -> Result<(), Fail> {
    let alloc = rt.alloc();
    let (path, folder) = ("kept-on", "kept-on-folder");
    new_folder(&rt, folder)?;
    let conferences = [(1, free_port(&rt)?), (2, free_port(&rt)?)];
    let mut run = start(rt, path, folder, &conferences, &[])?;
    let found = ask_control(alloc, &mut run.admin, "close 2", 1)?;
    assert_eq!(rt; found.as_str(), "ok closed 2 at 1");
    let _log = stop(&rt, run)?;
    // An earlier one of the same number was closed.
    fs::write(&rt, "kept-on-folder/1.1700000000.closed", "")?;
    let mut run = start(rt, path, folder, &conferences, &[])?;
    let found = ask_control(alloc, &mut run.admin, "list", 2)?;
    assert_eq!(rt;
        found.as_str(),
        "conference 1 members 0 ongoing 0 events 0 open,end 1"
    );
    let log = stop(&rt, run)?;
    assert!(rt;
        has_line(&log, "conference 1 goes on from its file"),
        "{log}"
    );
    assert!(rt; has_line(&log, "conference 2 was closed"), "{log}");
    assert!(rt; !has_line(&log, "conference 1 was closed"), "{log}");
    rt.remove_dir_all(alloc, folder)?;
    Ok(())
}

/// A file that could not be made is none, and one that goes on after a restart is told apart from one that has to be
/// removed.
#[test]
fn what_became_of_a_file_has_one_word(rt: HostRuntime) -> Result<(), Fail> {
    let alloc = rt.alloc();
    let (path, folder) = ("kept-words", "kept-words-folder");
    new_folder(&rt, folder)?;
    fs::create_dir(&rt, "kept-words-folder/1.new")?;
    let mut run = start(rt, path, folder, &[(1, free_port(&rt)?)], &[])?;
    let found = ask_control(alloc, &mut run.admin, "status 1", 1)?;
    assert_eq!(rt;
        found.as_str(),
        "conference 1 members 0 ongoing 0 events 0 open unkept"
    );
    let log = stop(&rt, run)?;
    let wanted = "conference 1 unkept CannotWrite file missing";
    assert!(rt; has_line(&log, wanted), "{log}");
    rt.remove_dir_all(alloc, folder)?;
    let mut told = String::new(alloc);
    for left in [
        Left::Renamed,
        Left::Spoiled,
        Left::Emptied,
        Left::Resumes,
        Left::Stands,
    ] {
        let unkept = Unkept {
            conference: 1,
            cause: KeptFault::CannotWrite,
            left,
        };
        let text = Entry::Unkept(unkept).text(alloc)?;
        let word = text.as_str().rsplit_once(' ').ok_or("a word")?.1;
        told.push_str(word)?;
        told.push(' ')?;
    }
    assert_eq!(rt; told.as_str(), "renamed spoiled emptied resumes stands ");
    let lost = [
        KeepFault::Lost,
        KeepFault::CannotKeep,
        KeepFault::Descriptors,
    ];
    for (fault, wanted) in lost.iter().zip(["lost", "CannotKeep", "Descriptors"]) {
        let text = Entry::Lost(*fault).text(alloc)?;
        assert_eq!(rt;
            text.as_str(),
            format!(in alloc; "folder {wanted}")?.as_str()
        );
    }
    Ok(())
}

/// What an administrator says, and the line that the log has of it.
const ACTS: &str = "user 1 11 proxy name Ann => conference 1 user 11 added at 1
floor 1 2 room 3 chair 11 => conference 1 floor 2 added at 2
chair 1 1 11 => conference 1 floor 1 chair 11 at 3
chair 1 1 => conference 1 floor 1 chair - at 4
revoke 1 1 => conference 1 request 1 revoked at REVOKED
leave 1 1 => conference 1 member 1 shown out at LEFT
word 1 token.11 6162 => conference 1 word kept
word 1 token.11 - => conference 1 word removed
close 1 => conference 1 closed
forget 1 => conference 1 forgotten
drain => draining
stop => stopping";

#[test]
fn the_log_has_each_act_of_an_administrator(rt: HostRuntime) -> Result<(), Fail> {
    let alloc = rt.alloc();
    let (path, folder) = ("kept-acts", "kept-acts-folder");
    new_folder(&rt, folder)?;
    let port = free_port(&rt)?;
    let mut run = start(rt, path, folder, &[(1, port), (2, free_port(&rt)?)], &[])?;
    let mut places = [String::new(alloc), String::new(alloc)];
    let mut members = Vec::new(alloc);
    for row in ACTS.lines() {
        let (asked, _) = row.split_once(" => ").ok_or("an arrow")?;
        if asked == "revoke 1 1" {
            members.push(ask_for_a_floor(&rt, port)?)?;
        }
        if asked == "stop" {
            break;
        }
        let found = ask_control(alloc, &mut run.admin, asked, 1)?;
        assert!(rt; found.as_str().starts_with("ok "), "{asked}: {found}");
        let place = found.as_str().rsplit_once(" at ").map_or("", |both| both.1);
        match asked {
            "revoke 1 1" => places[0].push_str(place)?,
            "leave 1 1" => places[1].push_str(place)?,
            _ => {}
        }
    }
    let log = stop(&rt, run)?;
    let wanted = ACTS
        .replace(alloc, "REVOKED", places[0].as_str())?
        .replace(alloc, "LEFT", places[1].as_str())?;
    for row in wanted.as_str().lines() {
        let (_, told) = row.split_once(" => ").ok_or("an arrow")?;
        assert!(rt; has_line(&log, told), "{told} in {log}");
    }
    assert!(rt;
        !log.as_str().contains("Ann") && !log.as_str().contains("6162"),
        "{log}"
    );
    rt.remove_dir_all(alloc, folder)?;
    Ok(())
}

/// User 10 asks for floor 1, and is told so.
fn ask_for_a_floor(rt: &HostRuntime, port: u16) -> Result<TcpStream, Fail> {
    let mut client = super::clients::connect(rt, port)?;
    super::clients::send(rt, &mut client, "20010001 00000001 0002 000a 04040001").ok_or("sent")?;
    super::clients::hear(rt, &mut client, 12).ok_or("heard")?;
    Ok(client)
}

/// Checks a folder, and gives what is printed and the status.
fn check<R>(rt: R, path: &str, words: &[&str]) -> Result<(String, u8), Fail>
where
    R: Net<Listener = TcpListener, Stream = TcpStream>
        + Files<File = File>
        + AllocGlobal
        + Clock
        + Threads
        + Wait
        + Copy
        + Drop
        + Send
        + 'static,
    R::Dir: Send,
{
    let alloc = rt.alloc();
    let (mut console, mut start) = prepare(&rt, path, &[(9, free_port(&rt)?)])?;
    start.add_word(alloc, "--check")?;
    for word in words {
        start.add_word(alloc, word)?;
    }
    let status = run_to_end(rt, alloc, start);
    let mut bytes = Vec::new(alloc);
    console.read_to_end(&mut bytes)?;
    Ok((String::from_utf8(bytes)?, status))
}

/// What is there, and what a check prints of it: each time the folder is new, with conferences 1 and 2 kept in it.
const CHECKED: &str = "nothing => 0 
lock directory => 1 CannotKeep: kept-check-folder/lock: it is no plain file
trial.new directory => 1 CannotKeep: kept-check-folder/trial.new: it is no plain file
epoch directory => 1 CannotKeep: kept-check-folder/epoch: no number that can be read
epoch +5 => 1 CannotKeep: kept-check-folder/epoch: no number that can be read
3.journal directory => 1 CannotKeep: kept-check-folder/3.journal: it is no plain file";

#[test]
fn a_check_tries_what_a_start_needs(rt: HostRuntime) -> Result<(), Fail> {
    let alloc = rt.alloc();
    let (path, folder) = ("kept-check", "kept-check-folder");
    let (port, other) = (free_port(&rt)?, free_port(&rt)?);
    for row in CHECKED.lines() {
        let (there, wanted) = row.split_once(" => ").ok_or("an arrow")?;
        new_folder(&rt, folder)?;
        let _log = stop(&rt, start(rt, path, folder, &[(1, port), (2, other)], &[])?)?;
        if let Some((name, kind)) = there.split_once(' ') {
            let name = format!(in alloc; "{folder}/{name}")?;
            let _removed = fs::remove_file(&rt, name.as_str());
            if kind == "directory" {
                fs::create_dir(&rt, name.as_str())?;
            } else {
                fs::write(&rt, name.as_str(), kind)?;
            }
        }
        let (told, status) = check(rt, "kept-check-9.toml", &["--keep", folder])?;
        let found = format!(in alloc; "{status} {}", told.as_str().trim_end())?;
        assert_eq!(rt; found.as_str(), wanted, "{there}");
    }
    rt.remove_dir_all(alloc, folder)?;
    let (told, status) = check(rt, "kept-check-9.toml", &["--keep", folder])?;
    assert_eq!(rt; status, 1);
    assert!(rt;
        told.as_str()
            .starts_with("CannotKeep: kept-check-folder/lock: "),
        "{told}"
    );
    assert_eq!(rt; told.as_str().lines().count(), 1, "{told}");
    Ok(())
}

#[test]
fn a_check_tries_the_ports_of_what_is_kept(rt: HostRuntime) -> Result<(), Fail> {
    let alloc = rt.alloc();
    let (path, folder) = ("kept-ports", "kept-ports-folder");
    new_folder(&rt, folder)?;
    let (port, late) = (free_port(&rt)?, free_port(&rt)?);
    let mut run = start(rt, path, folder, &[(1, port)], &[])?;
    let added = format!(in alloc; "user 1 11 port {late}")?;
    let added = ask_control(alloc, &mut run.admin, added.as_str(), 1)?;
    assert_eq!(rt; added.as_str(), "ok user 1 11 at 1");
    let (told, status) = check(rt, "kept-ports-9.toml", &["--keep", folder])?;
    assert_eq!(rt; status, 1, "{told}");
    let wanted = "CannotKeep: kept-ports-folder/lock: another server holds it\n";
    assert!(rt; told.as_str().starts_with(wanted), "{told}");
    let _log = stop(&rt, run)?;
    let (told, status) = check(rt, "kept-ports-9.toml", &["--keep", folder])?;
    assert_eq!(rt; status, 0, "{told}");
    let taken = TcpListener::bind(&rt, format!(in alloc; "127.0.0.1:{late}")?.as_str())?;
    let (told, status) = check(rt, "kept-ports-9.toml", &["--keep", folder])?;
    drop(taken);
    assert_eq!(rt; status, 1, "{told}");
    let wanted = format!(in alloc; "CannotListen: port {late} of user 11 of conference 1: ")?;
    assert!(rt; told.as_str().starts_with(wanted.as_str()), "{told}");
    // Two files that have the same port.
    let text = fs::read_to_string(&rt, "kept-ports-folder/1.journal")?;
    let text = text.as_str().replace(alloc, "id = 1\n", "id = 2\n")?;
    let text = text.as_str().replace(
        alloc,
        "[[conference.floor]]\nid = 2",
        "[[conference.floor]]\nid = 1",
    )?;
    fs::write(&rt, "kept-ports-folder/2.journal", text.as_str())?;
    let (told, status) = check(rt, "kept-ports-9.toml", &["--keep", folder])?;
    assert_eq!(rt; status, 1, "{told}");
    let wanted = format!(in alloc; "CannotListen: port {port} of user 10 of conference 2: ")?;
    assert!(rt; told.as_str().starts_with(wanted.as_str()), "{told}");
    rt.remove_dir_all(alloc, folder)?;
    Ok(())
}

/// How often one comes and is lost at once.
const ROUNDS: u32 = 30;

/// Whoever hears that a member is away has heard that it joined, and whoever hears that it is back that it left.
#[test]
fn a_member_is_away_behind_its_own_lines(rt: HostRuntime) -> Result<(), Fail> {
    let alloc = rt.alloc();
    let (path, folder) = ("kept-order", "kept-order-folder");
    new_folder(&rt, folder)?;
    let port = free_port(&rt)?;
    let mut run = start(rt, path, folder, &[(1, port)], &["--grace", "600"])?;
    let found = ask_control(alloc, &mut run.admin, "watch 1", 1)?;
    assert_eq!(rt; found.as_str(), "ok watching 1 1");
    let mut away = 0u32;
    for round in 1..=ROUNDS {
        let mut client = super::clients::connect(&rt, port)?;
        super::clients::send(&rt, &mut client, "200b0000 00").ok_or("sent")?;
        drop(client);
        let (wanted, joined) = (
            format!(in alloc; "~ 1 away {round} user 10")?,
            format!(in alloc; " joined {round} user 10")?,
        );
        let mut has_joined = false;
        for _ in 0..20u32 {
            let told = control_lines(alloc, &mut run.admin, 1)?;
            has_joined = has_joined || told.as_str().ends_with(joined.as_str());
            if told.as_str() == wanted.as_str() {
                away = away.saturating_add(1);
                break;
            }
        }
        assert!(rt; has_joined, "member {round} was away before it joined");
    }
    assert_eq!(rt; away, ROUNDS);
    let _log = stop(&rt, run)?;
    rt.remove_dir_all(alloc, folder)?;
    Ok(())
}
